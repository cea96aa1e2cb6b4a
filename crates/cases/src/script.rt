// Lists of calls in few words, and their answers.
ghost use Rattle.std.specs.Prelude.{◌≡◌, ◌≤◌, ◌↔◌, true, Some, IfOk, slice_get};
ghost use Rattle.theory.specs.declared.row.Sign.TheVariants.{Plus, Minus};
ghost use Rattle.differences.specs.Sides.{bottom_sizes};
ghost use Rattle.histories.specs.declared.Call.TheVariants.{Offer, RowAt};
ghost use Rattle.histories.specs.Law.{Law};

use dense::OverDense;
use histories::{Answer, Call, Fault, History};
use sparse::memory::{EDGES, HEADS, LEVELS, MARKS, Memory, SAVED};
use sparse::room::Room;
use sparse::{Edge, Potentials};
use std::alloc::Global;
use theory::row::{Row, Side, Sign};

// a·x(u) + b·x(v)
pub fn side(a: Sign, u: u32, b: Sign, v: u32) -> Side
    ensures { result ≡ record { a = a; b = b; u = u; v = v } }
{
    Side { a, b, u, v }
}

// x(u) − x(v)
pub fn difference(u: u32, v: u32) -> Side
    ensures { result ≡ record { a = Plus; b = Minus; u = u; v = v } }
{
    side(Sign::Plus, u, Sign::Minus, v)
}

pub fn offer(side: Side, c: i64) -> Call
    ensures { result ≡ Offer (record { side = side; c = c }) }
{
    Call::Offer(Row { side, c })
}

// What the calls showed over the dense bottom with the sparse one for the second engine, and the other way round.
#[derive(Drop)]
pub struct Both {
    pub dense: History,
    pub sparse: History,
}

impl Both {
    pub fn play(alloc: Global, calls: &[Call]) -> Result<Both, Fault>
        ensures dense { IfOk result (λ both. Law bottom_sizes calls.now (RowAt 0) both.dense) }
        ensures sparse { IfOk result (λ both. Law bottom_sizes calls.now (RowAt 0) both.sparse) }
    {
        let mut room = Room::new();
        let dense = histories::run(alloc, OverDense, room.lend(), calls, Call::RowAt(0))?;
        let sparse = histories::run(alloc, room.lend(), OverDense, calls, Call::RowAt(0))?;
        Ok(Both { dense, sparse })
    }

    // Both bottoms give this answer at the place.
    pub fn answer(&self, place: usize, answer: Answer) -> bool
        ensures { (result ≡ true) ↔ ((slice_get self.now.dense.answers.items place ≡ Some answer)
            × (slice_get self.now.sparse.answers.items place ≡ Some answer)) }
    {
        gives(&self.dense, place, answer) && gives(&self.sparse, place, answer)
    }

    // The second engines answer the last call as the first ones do.
    pub fn agree(&self) -> bool
        ensures { (result ≡ true) ↔ ((self.now.dense.first ≡ self.now.dense.second)
            × (self.now.sparse.first ≡ self.now.sparse.second)) }
    {
        self.dense.first == self.dense.second && self.sparse.first == self.sparse.second
    }
}

// The first engine gives this answer at the place.
fn gives(history: &History, place: usize, answer: Answer) -> bool
    ensures { (result ≡ true) ↔ (slice_get history.now.answers.items place ≡ Some answer) }
{
    history.answers.get(place).copied() == Some(answer)
}

// Whether slices of these lengths pass the check before a sparse theory starts.
pub fn memory_is_enough(
    edge_count: usize,
    level_count: usize,
    saved_count: usize,
    head_count: usize,
    mark_count: usize,
) -> bool
    ensures { (result ≡ true) ↔ ((1024 ≤ «edge_count») × (128 ≤ «level_count») × (128 ≤ «saved_count») × (64 ≤ «head_count») × (64 ≤ «mark_count»)) }
{
    // Arrays of its own: slices of what a `Room` lends were tried, and the check does not follow them.
    let mut edges = [Edge::blank(); EDGES];
    let mut levels = [0; LEVELS];
    let mut saved = [Potentials::zero(); SAVED];
    let mut heads = [0; HEADS];
    let mut marks = [0; MARKS];
    let memory = Memory {
        edges: &mut edges[..edge_count.min(EDGES)],
        levels: &mut levels[..level_count.min(LEVELS)],
        saved: &mut saved[..saved_count.min(SAVED)],
        heads: &mut heads[..head_count.min(HEADS)],
        marks: &mut marks[..mark_count.min(MARKS)],
    };
    memory.check().is_ok()
}
