// Rows that bound the difference of two unknowns: the sizes of a bottom, which takes no other rows, and the two ends of a
// side. The tables of the greatest differences of such rows, and what is proved of them, stand in specs/ and proofs/.
#![tactic(auto)]

ghost use Rattle.std.specs.Prelude.{◌≡◌};
ghost use Rattle.differences.specs.Sides.{first, second};

use theory::row::{Side, Sign};
use theory::sizes::{Breadth, Sizes};

// The sizes of both bottoms.
pub const SIZES: Sizes = Sizes {
    unknowns: 64,
    space: 1024,
    depth: 128,
    reach: 4_000_000,
    breadth: Breadth::Differences,
};

// The unknowns u and v such that a side of opposite signs is x(u) − x(v).
pub fn ends(side: Side) -> (usize, usize)
    ensures { (result.0 ≡ first side) × (result.1 ≡ second side) }
{
    match side.a {
        Sign::Minus => (side.v as usize, side.u as usize),
        _ => (side.u as usize, side.v as usize),
    }
}
