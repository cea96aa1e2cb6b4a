// Rows a·x(u) + b·x(v) ≤ c and their left sides. Assumes nothing: any value of these types may be offered.
ghost use Rattle.std.specs.Prelude.{Some};
ghost use Rattle.theory.specs.Text.{sign_text, row_text, ReadsSign};

use std::error::Error;
use std::fmt;
use std::str::FromStr;

#[derive(Clone, Copy, PartialEq, Eq, Debug)]
pub enum Sign {
    Zero,
    Plus,
    Minus,
}

impl fmt::Display for Sign {
    ghost output = { λ s. Some (sign_text s) };

    fn fmt<W: fmt::Write>(&self, f: &mut fmt::Formatter<W>) -> fmt::Result {
        f.write_str(match self {
            Sign::Zero => "0",
            Sign::Plus => "1",
            Sign::Minus => "-1",
        })
    }
}

// A word that is no sign.
#[derive(Clone, Copy, PartialEq, Eq, Debug)]
pub struct NoSign;

impl fmt::Display for NoSign {
    fn fmt<W: fmt::Write>(&self, f: &mut fmt::Formatter<W>) -> fmt::Result {
        write!(f, "no sign")
    }
}

impl Error for NoSign {}

impl FromStr for Sign {
    type Err = NoSign;

    ghost from_str_gives = { ReadsSign };

    fn from_str(word: &str) -> Result<Sign, NoSign> {
        match word {
            "0" => Ok(Sign::Zero),
            "1" => Ok(Sign::Plus),
            "-1" => Ok(Sign::Minus),
            _ => Err(NoSign),
        }
    }
}

// a·x(u) + b·x(v). With b zero it is a bound on one unknown, and v is 0.
#[derive(Clone, Copy, PartialEq, Eq, Debug)]
pub struct Side {
    pub a: Sign,
    pub b: Sign,
    pub u: u32,
    pub v: u32,
}

// The side's value is at most c.
#[derive(Clone, Copy, PartialEq, Eq, Debug)]
pub struct Row {
    pub side: Side,
    pub c: i64,
}

// a u b v c
impl fmt::Display for Row {
    ghost output = { λ r. Some (row_text r) };

    fn fmt<W: fmt::Write>(&self, f: &mut fmt::Formatter<W>) -> fmt::Result {
        let Row { side, c } = self;
        let Side { a, b, u, v } = side;
        write!(f, "{a} {u} {b} {v} {c}")
    }
}
