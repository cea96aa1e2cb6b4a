// The rules that can be checked without a look at the standing rows but for their number, in their order.
ghost use Rattle.std.specs.Prelude.{◌≡◌};
ghost use Rattle.theory.specs.Rules.{told, side_fault, row_fault, put_fault_of, push_fault_of, pop_fault_of, breadth_of};

use crate::refusal::Refusal;
use crate::row::{Row, Side, Sign};
use crate::sizes::{Breadth, Sizes};

impl Side {
    // The least breadth that takes this side.
    pub fn breadth(self) -> Breadth
        ensures { result ≡ breadth_of self.a self.b }
    {
        match (self.a, self.b) {
            (_, Sign::Zero) | (Sign::Zero, _) => Breadth::Bounds,
            (Sign::Plus, Sign::Minus) | (Sign::Minus, Sign::Plus) => Breadth::Differences,
            _ => Breadth::Sums,
        }
    }
}

// Rules 1 to 4.
pub fn check_side(sizes: Sizes, side: Side) -> Result<(), Refusal>
    ensures { result ≡ told (side_fault sizes side) }
{
    let two_sided = side.b != Sign::Zero;
    if side.a == Sign::Zero || (!two_sided && side.v != 0) {
        return Err(Refusal::Signs);
    }
    if side.u >= sizes.unknowns || (two_sided && side.v >= sizes.unknowns) {
        return Err(Refusal::Unknown);
    }
    if two_sided && side.u == side.v {
        return Err(Refusal::Twice);
    }
    if side.breadth() > sizes.breadth {
        return Err(Refusal::Breadth);
    }
    Ok(())
}

// Rules 1 to 5.
pub fn check_row(sizes: Sizes, row: Row) -> Result<(), Refusal>
    ensures { result ≡ told (row_fault sizes row) }
{
    check_side(sizes, row.side)?;
    if row.c.unsigned_abs() > u64::from(sizes.reach) {
        return Err(Refusal::Reach);
    }
    Ok(())
}

// Rules 1 to 6, where so many rows stand.
pub fn check_put(sizes: Sizes, row_count: u32, row: Row) -> Result<(), Refusal>
    ensures { result ≡ told (put_fault_of sizes row_count row) }
{
    check_row(sizes, row)?;
    if row_count >= sizes.space {
        return Err(Refusal::Space);
    }
    Ok(())
}

// Rule 8, where so many levels are open.
pub fn check_push(sizes: Sizes, level_count: u32) -> Result<(), Refusal>
    ensures { result ≡ told (push_fault_of sizes level_count) }
{
    if level_count >= sizes.depth {
        return Err(Refusal::Depth);
    }
    Ok(())
}

// Rule 9.
pub fn check_pop(level_count: u32) -> Result<(), Refusal>
    ensures { result ≡ told (pop_fault_of level_count) }
{
    if level_count == 0 {
        return Err(Refusal::NoLevel);
    }
    Ok(())
}
