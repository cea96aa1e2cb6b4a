// The memory that a sparse theory is handed, and the check before its start. What the slices hold does not matter.
ghost use Rattle.std.specs.Prelude.{◌≡◌, MatchResult};
ghost use Rattle.theory.specs.declared.refusal.Refusal.TheVariants.{Unfit};
ghost use Rattle.sparse.specs.Room.{Enough};

use crate::graph::Edge;
use crate::potentials::Potentials;
use theory::refusal::Refusal;

// The least lengths: an edge for each row, a number and the potentials for each level, a head and a mark for each unknown.
pub const EDGES: usize = 1024;

pub const LEVELS: usize = 128;

pub const SAVED: usize = 128;

pub const HEADS: usize = 64;

pub const MARKS: usize = 64;

// Slices of fixed least lengths, since the caller lends the memory.
#[derive(Drop)]
pub struct Memory<'a> {
    pub edges: &'a mut [Edge],
    pub levels: &'a mut [u32],
    pub saved: &'a mut [Potentials],
    pub heads: &'a mut [u32],
    pub marks: &'a mut [u8],
}

impl Memory<'_> {
    // Refused exactly where a slice is shorter than its least length.
    pub fn check(&self) -> Result<(), Refusal>
        ensures { MatchResult result (λ _. Enough self.now) (λ e. (e ≡ Unfit) × (Enough self.now → ⊥)) }
    {
        if self.edges.len() >= EDGES
            && self.levels.len() >= LEVELS
            && self.saved.len() >= SAVED
            && self.heads.len() >= HEADS
            && self.marks.len() >= MARKS
        {
            Ok(())
        } else {
            Err(Refusal::Unfit)
        }
    }
}
