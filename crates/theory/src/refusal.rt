// Why a call is refused, and by which number.
ghost use Rattle.std.specs.Prelude.{◌≡◌, Some};
ghost use Rattle.theory.specs.Refusals.{number_of, refusal_text};

use std::error::Error;
use std::fmt;

#[derive(Clone, Copy, PartialEq, Eq, Debug)]
pub enum Refusal {
    Signs = 1,
    Unknown = 2,
    Twice = 3,
    Breadth = 4,
    Reach = 5,
    Space = 6,
    Contradiction = 7,
    Depth = 8,
    NoLevel = 9,
    NoRow = 10,
    Unfit = 13,
}

impl Refusal {
    pub fn number(self) -> u8
        ensures { result ≡ number_of self }
    {
        self as u8
    }
}

impl fmt::Display for Refusal {
    ghost output = { λ e. Some (refusal_text e) };

    fn fmt<W: fmt::Write>(&self, f: &mut fmt::Formatter<W>) -> fmt::Result {
        write!(f, "refused {}", self.number())
    }
}

impl Error for Refusal {}
