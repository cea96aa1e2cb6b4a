// Rows over whole numbers, what a theory of them means, and the trait that every theory meets.
// Code above a theory uses nothing else of it. A theory's values are told apart by their meaning alone.
#![tactic(auto)]

ghost use Rattle.std.specs.Prelude.{◌≡◌, length, IfOk};
ghost use Rattle.theory.specs.Meaning.{Meaning, Sane, empty};
ghost use Rattle.theory.specs.declared.sizes.Sizes.{Sizes as TheSizes};
ghost use Rattle.theory.specs.Calls.{Put, Push, Pop, Tightest, EmptyChecked};

use refusal::Refusal;
use row::{Row, Side};
use sizes::Sizes;
use std::alloc::{AllocError, Global};

pub mod refusal;
pub mod row;
pub mod rules;
pub mod sizes;

pub trait Theory {
    ghost meaning: { Self → Meaning };

    fn sizes(&self) -> Sizes
        ensures { result ≡ (meaning self.now).sizes };

    fn row_count(&self) -> u32
        ensures { result ≡ length (meaning self.now).rows };

    fn level_count(&self) -> u32
        ensures { result ≡ length (meaning self.now).levels };

    fn put(&mut self, row: Row) -> Result<(), Refusal>
        ensures { Put (meaning self.old) row result (meaning self.new) };

    fn push(&mut self) -> Result<(), Refusal>
        ensures { Push (meaning self.old) result (meaning self.new) };

    fn pop(&mut self) -> Result<(), Refusal>
        ensures { Pop (meaning self.old) result (meaning self.new) };

    fn tightest(&mut self, side: Side) -> Result<Option<i64>, Refusal>
        ensures { Tightest (meaning self.old) side result (meaning self.new) };

    ghost sane: { (t : Self) → Sane (meaning t) };
}

// The check before a start over a theory: refused unless it is empty.
pub fn check_empty<T: Theory>(theory: &T) -> Result<(), Refusal>
    ensures { EmptyChecked (T.meaning theory.now) result }
{
    if theory.row_count() != 0 || theory.level_count() != 0 {
        return Err(Refusal::Unfit);
    }
    Ok(())
}

// What an empty theory can be made from; `starts` gives its sizes.
pub trait Start {
    type Made: Theory + Drop;

    ghost starts: { Self → TheSizes };

    fn start(self, alloc: Global) -> Result<Self::Made, AllocError>
        ensures { IfOk result (λ t. Self.Made.Theory.meaning t ≡ empty (starts self)) };
}
