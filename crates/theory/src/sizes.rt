// The five sizes that a theory has from its start and never changes.
ghost use Rattle.std.specs.Prelude.{◌≡◌};
ghost use Rattle.theory.specs.Rules.{breadth_number};

// The left sides that are taken: each breadth takes those of the ones before it too.
// Without numbers of its own: compared by those it would cost a read of a table for each question.
#[derive(Clone, Copy, PartialEq, Eq, PartialOrd, Ord, Debug)]
pub enum Breadth {
    Differences,
    Bounds,
    Sums,
}

impl Breadth {
    pub fn number(self) -> u8
        ensures { result ≡ breadth_number self }
    {
        match self {
            Breadth::Differences => 1,
            Breadth::Bounds => 2,
            Breadth::Sums => 3,
        }
    }
}

#[derive(Clone, Copy, PartialEq, Eq, Debug)]
pub struct Sizes {
    pub unknowns: u32,
    pub space: u32,
    pub depth: u32,
    pub reach: u32,
    pub breadth: Breadth,
}
