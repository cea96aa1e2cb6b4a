// The sparse bottom theory: rows x(u) − x(v) ≤ c over 64 unknowns, kept as edges, with a potential for each unknown.
//
// 1. The row is an edge out of v to u of length c. The edges out of an unknown are reached directly, by a chain.
// 2. The potentials are a point that meets all standing rows. So the reduced length of an edge, c − (p(u) − p(v)), is not
//    negative, and distances are found by the method of Dijkstra.
// 3. A row that the potentials meet is accepted as it is. Else the potentials that are more than p(v) + c and the distance
//    from u fall to that; the row contradicts the standing ones exactly where the potential of v would fall too.
// 4. The greatest value of x(u) − x(v) is the distance from v to u; there is none where no chain of edges leads there.
// 5. A level keeps the potentials of the time it opened. Closing it puts them back and removes the edges that came since,
//    newest first. So the potentials lie between −65 · reach · rows and 0 over any history.
//
// The memory is lent, and no call allocates.
#![tactic(auto)]

ghost use Rattle.std.specs.Prelude.{◌≡◌, ◌-◌, ◌<◌, ◌≤◌, [], ◌∷◌, ◌++◌, length, take};
ghost use Rattle.theory.specs.Meaning.{empty};
ghost use Rattle.differences.specs.Sides.{bottom_sizes, Fair};
ghost use Rattle.trail.specs.Trails.{items, levels, room, newest, Roomy};
ghost use Rattle.sparse.specs.Graphs.{edges_of, levels_of};
ghost use Rattle.sparse.specs.Points.{point_of, Holds, Accepted};
ghost use Rattle.sparse.specs.Room.{Enough};
ghost use Rattle.sparse.specs.Saved.{Saved};

use checked::Checked;
use differences::SIZES;
pub use graph::Edge;
use graph::Graph;
use lengths::Lengths;
use marks::Marks;
use memory::Memory;
pub use potentials::Potentials;
use std::alloc::{AllocError, Global};
use theory::refusal::Refusal;
use theory::row::{Row, Side};
use theory::rules::{check_pop, check_push, check_put, check_side};
use theory::sizes::Sizes;
use theory::{Start, Theory};
use trail::Trail;

pub mod checked;
mod distances;
mod graph;
mod lengths;
mod marks;
pub mod memory;
mod potentials;
pub mod room;

// `saved` has the potentials of the time each open level opened, one entry for each: a trail beside the edges' own, since all that
// is taken back stands in trails, and a trail has entries of one kind.
#[derive(Drop)]
pub struct Sparse<'a> {
    graph: Graph<'a>,
    potentials: Potentials,
    saved: Trail<'a, Potentials>,
    marks: Marks<'a>,
    ghost holds: { Holds (edges_of graph) (point_of potentials) },
    ghost saved_room: { 128 ≤ room saved },
    ghost saved_flat: { levels saved ≡ [] },
    ghost one_each: { length (items saved) ≡ length (levels_of graph) },
    ghost saved_each: { Saved (edges_of graph) (levels_of graph) (items saved) },
}

impl<'a> Sparse<'a> {
    ghost use Rattle.sparse.specs.State.{meaning_of};

    // Empty, whatever the slices hold.
    pub fn new(memory: Memory<'a>) -> Sparse<'a>
        requires { Enough memory }
        ensures { meaning_of result ≡ empty bottom_sizes }
    {
        let Memory {
            edges,
            levels,
            saved,
            heads,
            marks,
        } = memory;
        Sparse {
            graph: Graph::new(edges, levels, heads),
            potentials: Potentials::zero(),
            saved: Trail::new(saved, &mut []),
            marks: Marks::new(marks),
        }
    }
}

impl Theory for Sparse<'_> {
    ghost use Rattle.sparse.specs.State.{meaning_of};
    ghost use Rattle.sparse.specs.Sanity.{sane_meaning};

    ghost meaning = { meaning_of };

    ghost sane = { sane_meaning };

    fn sizes(&self) -> Sizes {
        SIZES
    }

    fn row_count(&self) -> u32 {
        self.graph.edge_count() as u32
    }

    fn level_count(&self) -> u32 {
        self.graph.level_count() as u32
    }

    // A few steps where the potentials meet the row. Else 64 steps for each unknown whose potential falls, one for each edge
    // out of it, and 128 more.
    fn put(&mut self, row: Row) -> Result<(), Refusal> {
        check_put(SIZES, self.row_count(), row)?;
        accept(&mut self.graph, &mut self.potentials, &mut self.marks, row)
    }

    // One copy of the potentials.
    fn push(&mut self) -> Result<(), Refusal> {
        check_push(SIZES, self.level_count())?;
        open_level(&mut self.graph, &mut self.saved, self.potentials);
        Ok(())
    }

    // One copy of the potentials, and a step for each row that leaves.
    fn pop(&mut self) -> Result<(), Refusal> {
        check_pop(self.level_count())?;
        close_level(&mut self.graph, &mut self.saved, &mut self.potentials);
        Ok(())
    }

    // 64 steps for each unknown that a chain leads to, one for each edge out of it, and 64 more.
    fn tightest(&mut self, side: Side) -> Result<Option<i64>, Refusal> {
        check_side(SIZES, side)?;
        let lengths = Lengths {
            graph: &self.graph,
            potentials: &self.potentials,
        };
        Ok(self.marks.greatest(lengths, side))
    }
}

// The answer to a row that breaks none of the rules 1 to 6. That it breaks none is a clause here and of `Graph::add`, `link` and
// `Marks::repair`: a type for such a row would be made here once and opened again wherever the row is kept.
//
// Like the next two functions this takes the parts, since what ties them holds only once all have changed: in between, the
// potentials hold with an edge that the graph does not have yet.
fn accept(
    graph: &mut Graph,
    potentials: &mut Potentials,
    marks: &mut Marks,
    row: Row,
) -> Result<(), Refusal>
    requires holds { Holds (edges_of graph.old) (point_of potentials.old) }
    requires fair { Fair row }
    requires room { length (edges_of graph.old) < 1024 }
    ensures levels { levels_of graph.new ≡ levels_of graph.old }
    ensures answers { Accepted (edges_of graph.old) row potentials.old result (edges_of graph.new) potentials.new }
{
    marks.repair(graph, potentials, row)?;
    graph.add(row);
    Ok(())
}

// Opens a level, and saves the potentials of its time.
fn open_level(graph: &mut Graph, saved: &mut Trail<Potentials>, potentials: Potentials)
    requires room { length (levels_of graph.old) < 128 }
    requires saved_room { length (items saved.old) < room saved.old }
    ensures edges { edges_of graph.new ≡ edges_of graph.old }
    ensures opened { levels_of graph.new ≡ levels_of graph.old ++ length (edges_of graph.old) ∷ [] }
    ensures saved { items saved.new ≡ items saved.old ++ potentials ∷ [] }
    ensures flat { levels saved.new ≡ levels saved.old }
    ensures roomy { Roomy saved.old saved.new }
{
    saved.add(potentials);
    graph.open_level();
}

// Closes the newest level, and takes back the potentials of the time it opened.
fn close_level(graph: &mut Graph, saved: &mut Trail<Potentials>, potentials: &mut Potentials)
    requires opened { 0 < length (levels_of graph.old) }
    requires since { newest (levels saved.old) < length (items saved.old) }
    ensures edges { edges_of graph.new ≡ take (newest (levels_of graph.old)) (edges_of graph.old) }
    ensures closed { levels_of graph.new ≡ take (length (levels_of graph.old) - 1) (levels_of graph.old) }
    ensures saved { items saved.old ≡ items saved.new ++ potentials.new ∷ [] }
    ensures flat { levels saved.new ≡ levels saved.old }
    ensures roomy { Roomy saved.old saved.new }
{
    *potentials = saved.take_back();
    graph.close_level();
}

impl<'a> Start for Checked<'a> {
    type Made = Sparse<'a>;

    ghost starts = { λ _. bottom_sizes };

    fn start(self, _alloc: Global) -> Result<Sparse<'a>, AllocError> {
        let Checked { memory } = self;
        Ok(Sparse::new(memory))
    }
}
