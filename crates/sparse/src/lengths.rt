// The edges with a point that meets their rows. By it the reduced length of an edge, c − (p(target) − p(source)), is not
// negative.
ghost use Rattle.sparse.specs.Graphs.{edges_of};
ghost use Rattle.sparse.specs.Points.{point_of, Holds};

use crate::graph::Graph;
use crate::potentials::Potentials;

#[derive(Clone, Copy)]
pub struct Lengths<'g> {
    pub graph: &'g Graph<'g>,
    pub potentials: &'g Potentials,
    ghost holds: { Holds (edges_of graph.now) (point_of potentials.now) },
}
