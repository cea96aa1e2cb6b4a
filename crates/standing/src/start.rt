// Why nothing was started over a theory, and the theory handed back.
ghost use Rattle.std.specs.Prelude.{◌≡◌};
ghost use Rattle.standing.specs.declared.start.Cause.TheVariants.{Memory, Refused};

use std::alloc::AllocError;
use std::error::Error;
use std::fmt;
use theory::refusal::Refusal;

#[derive(Clone, Copy, PartialEq, Eq, Debug)]
pub enum Cause {
    Memory,
    Refused(Refusal),
}

impl fmt::Display for Cause {
    fn fmt<W: fmt::Write>(&self, f: &mut fmt::Formatter<W>) -> fmt::Result {
        match self {
            Cause::Memory => write!(f, "out of memory"),
            Cause::Refused(refusal) => write!(f, "{refusal}"),
        }
    }
}

impl Error for Cause {}

impl From<AllocError> for Cause {
    ghost from_gives = { λ _ c. c ≡ Memory };

    fn from(_: AllocError) -> Cause {
        Cause::Memory
    }
}

impl From<Refusal> for Cause {
    ghost from_gives = { λ e c. c ≡ Refused e };

    fn from(refusal: Refusal) -> Cause {
        Cause::Refused(refusal)
    }
}

// Nothing was started: the theory as it was handed over, and why.
#[derive(Drop)]
pub struct Unstarted<T> {
    pub theory: T,
    pub cause: Cause,
}
