// The two uses of distances: the potentials are repaired for a new row, and the greatest value of a difference is found.
// The mark bytes are lent, and the first 64 of them are zero between calls.
ghost use Rattle.std.specs.Prelude.{◌≡◌, ◌<◌, ◌≤◌, length, None};
ghost use Rattle.theory.specs.Rows.{Greatest};
ghost use Rattle.theory.specs.Rules.{side_fault};
ghost use Rattle.differences.specs.Sides.{bottom_sizes, Fair};
ghost use Rattle.sparse.specs.Edges.{rows_in};
ghost use Rattle.sparse.specs.Graphs.{edges_of};
ghost use Rattle.sparse.specs.Points.{point_of, Holds, Repaired};
ghost use Rattle.sparse.specs.Distances.{Clear};

use crate::distances::{Distances, clear};
use crate::graph::Graph;
use crate::lengths::Lengths;
use crate::potentials::Potentials;
use differences::ends;
use theory::refusal::Refusal;
use theory::row::{Row, Side};

// The lent mark bytes.
#[derive(Drop)]
pub struct Marks<'a> {
    bytes: &'a mut [u8],
    ghost long: { 64 ≤ length bytes.now },
    ghost clear: { Clear bytes.now },
}

impl<'a> Marks<'a> {
    // Clear, whatever the slice holds.
    pub fn new(bytes: &'a mut [u8]) -> Marks<'a>
        requires { 64 ≤ length bytes.old }
    {
        clear(bytes);
        Marks { bytes }
    }
}

impl Marks<'_> {
    // The distance from the second unknown to the first.
    pub fn greatest(&mut self, lengths: Lengths, side: Side) -> Option<i64>
        requires fair { side_fault bottom_sizes side ≡ None }
        ensures { Greatest (rows_in (edges_of lengths.entry.graph.now)) side result }
    {
        let (target, start) = ends(side);
        // Under a name, since the check does not follow a field that is lent in a call.
        let bytes = &mut *self.bytes;
        let mut distances = Distances::new(bytes);
        distances.run(lengths, start, i64::MAX);
        distances.distance(target)
    }

    // A row that the potentials do not meet lowers each potential that is more than base and the distance from the row's first
    // unknown. Where the row's second unknown is among those there is a circle of rows that no point meets.
    pub fn repair(
        &mut self,
        graph: &Graph,
        potentials: &mut Potentials,
        row: Row,
    ) -> Result<(), Refusal>
        requires holds { Holds (edges_of graph.now) (point_of potentials.old) }
        requires fair { Fair row }
        ensures { Repaired (edges_of graph.now) row potentials.old result potentials.new }
    {
        let (target, source) = ends(row.side);
        let base = potentials.at(source) + row.c;
        if potentials.at(target) <= base {
            return Ok(());
        }
        let bytes = &mut *self.bytes;
        let mut distances = Distances::new(bytes);
        // Lent again, as the check asks of a reference that goes into a value of a shorter lifetime.
        let lengths = Lengths {
            graph: &*graph,
            potentials: &*potentials,
        };
        distances.run(lengths, target, -base);
        if distances.distance(source).is_some() {
            return Err(Refusal::Contradiction);
        }
        distances.lower(potentials, base);
        Ok(())
    }
}
