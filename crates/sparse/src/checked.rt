// Memory that has passed its check: what a sparse theory can be started from.
ghost use Rattle.std.specs.Prelude.{◌≡◌, MatchResult};
ghost use Rattle.theory.specs.declared.refusal.Refusal.TheVariants.{Unfit};
ghost use Rattle.sparse.specs.Room.{Enough};

use crate::memory::Memory;
use theory::refusal::Refusal;

#[derive(Drop)]
pub struct Checked<'a> {
    pub memory: Memory<'a>,
    ghost enough: { Enough memory },
}

impl<'a> Checked<'a> {
    pub fn new(memory: Memory<'a>) -> Checked<'a>
        requires { Enough memory }
        ensures { result.memory ≡ memory.entry }
    {
        Checked { memory }
    }
}

impl<'a> TryFrom<Memory<'a>> for Checked<'a> {
    type Error = Refusal;

    ghost try_from_gives = { λ m r. MatchResult r (λ c. c.memory ≡ m) (λ e. (e ≡ Unfit) × (Enough m → ⊥)) };

    // Refused exactly where a slice is shorter than its least length.
    fn try_from(memory: Memory<'a>) -> Result<Checked<'a>, Refusal> {
        memory.check()?;
        Ok(Checked { memory })
    }
}
