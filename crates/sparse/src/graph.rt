// The standing rows as edges. The row x(u) − x(v) ≤ c is an edge out of v to u; the edges stand in a trail in the order of
// the rows, each with the place of the edge before it out of the same unknown, and `heads` has the place of the newest.
// A stored place counts from 1, and 0 says that there is none, since the memory lent for it has numbers; code reads it as an
// Option. Edges leave in the reverse of the order in which they came,
// so the chains are put back as they were.
ghost use Rattle.std.specs.Prelude.{◌≡◌, ℕ, ◌-◌, ◌<◌, ◌≤◌, [], ◌∷◌, ◌++◌, length, take, slice_index_or};
ghost use Rattle.trail.specs.Trails.{items, levels, room, level_room, newest, Roomy};
ghost use Rattle.differences.specs.Sides.{Fair};
ghost use Rattle.sparse.specs.Edges.{number_of, AllFair, Chained, Link, Added};

use crate::memory::HEADS;
use differences::ends;
use theory::row::{Row, Side, Sign};
use trail::Trail;

// The row, and the stored place of the edge before it out of the same unknown.
#[derive(Clone, Copy, PartialEq, Eq, Debug)]
pub struct Edge {
    pub row: Row,
    pub next: u32,
}

impl Edge {
    // Fills memory that is to be handed over.
    pub fn blank() -> Edge {
        let side = Side {
            a: Sign::Zero,
            b: Sign::Zero,
            u: 0,
            v: 0,
        };
        Edge {
            row: Row { side, c: 0 },
            next: 0,
        }
    }

    // The place of the edge before this one.
    pub(crate) fn before(self) -> Option<usize>
        ensures { number_of result ≡ self.next }
    {
        place(self.next)
    }
}

// The place that a stored number tells.
fn place(number: u32) -> Option<usize>
    ensures { number_of result ≡ number }
{
    (number as usize).checked_sub(1)
}

#[derive(Drop)]
pub struct Graph<'a> {
    edges: Trail<'a, Edge>,
    heads: &'a mut [u32],
    ghost room: { 1024 ≤ room edges },
    ghost level_room: { 128 ≤ level_room edges },
    ghost heads_long: { 64 ≤ length heads.now },
    ghost edges_fit: { length (items edges) ≤ 1024 },
    ghost levels_fit: { length (levels edges) ≤ 128 },
    ghost fair: { AllFair (items edges) },
    ghost chained: { Chained (items edges) heads.now },
}

impl<'a> Graph<'a> {
    ghost use Rattle.sparse.specs.Graphs.{edges_of, levels_of};

    // Without edges, whatever the slices hold.
    pub fn new(edges: &'a mut [Edge], levels: &'a mut [u32], heads: &'a mut [u32]) -> Graph<'a>
        requires edges { 1024 ≤ length edges.old }
        requires levels { 128 ≤ length levels.old }
        requires heads { 64 ≤ length heads.old }
        ensures edges { edges_of result ≡ [] }
        ensures levels { levels_of result ≡ [] }
    {
        heads[..HEADS].fill(0);
        Graph {
            edges: Trail::new(edges, levels),
            heads,
        }
    }
}

impl Graph<'_> {
    ghost use Rattle.sparse.specs.Graphs.{edges_of, levels_of};

    pub fn edge_count(&self) -> usize
        ensures { result ≡ length (edges_of self.now) }
    {
        self.edges.len()
    }

    pub fn level_count(&self) -> usize
        ensures { result ≡ length (levels_of self.now) }
    {
        self.edges.depth()
    }

    // The place of the newest edge out of v.
    pub fn head(&self, v: usize) -> Option<usize>
        requires within { v < 64 }
        ensures { Link (edges_of self.now) v (number_of result) (length (edges_of self.now)) }
    {
        place(self.heads[v])
    }

    pub fn edge(&self, i: usize) -> Edge
        requires within { i < length (edges_of self.now) }
        ensures { result ≡ slice_index_or (edges_of self.now) i result }
    {
        self.edges.at(i)
    }

    pub fn add(&mut self, row: Row)
        requires fair { Fair row }
        requires room { length (edges_of self.old) < 1024 }
        ensures edges { Added (edges_of self.old) row (edges_of self.new) }
        ensures levels { levels_of self.new ≡ levels_of self.old }
    {
        link(&mut self.edges, self.heads, row);
    }

    pub fn open_level(&mut self)
        requires room { length (levels_of self.old) < 128 }
        ensures edges { edges_of self.new ≡ edges_of self.old }
        ensures levels { levels_of self.new ≡ levels_of self.old ++ length (edges_of self.old) ∷ [] }
    {
        self.edges.open_level();
    }

    // A step for each edge that leaves.
    pub fn close_level(&mut self)
        requires opened { 0 < length (levels_of self.old) }
        ensures edges { edges_of self.new ≡ take (newest (levels_of self.old)) (edges_of self.old) }
        ensures levels { levels_of self.new ≡ take (length (levels_of self.old) - 1) (levels_of self.old) }
    {
        let began = self.edges.newest_level();
        while self.edges.len() > began {
            unlink(&mut self.edges, self.heads);
        }
        self.edges.close_level();
    }
}

// Adds an edge, which becomes the newest out of its source. Like unlink, it takes the parts, since the chains hold only once
// both have changed.
fn link(edges: &mut Trail<Edge>, heads: &mut [u32], row: Row)
    requires fair { Fair row }
    requires long { 64 ≤ length heads.old }
    requires room { length (items edges.old) < room edges.old }
    requires few { length (items edges.old) < 1024 }
    requires chained { Chained (items edges.old) heads.old }
    ensures roomy { Roomy edges.old edges.new }
    ensures chained { Chained (items edges.new) heads.new }
    ensures edges { Added (items edges.old) row (items edges.new) }
    ensures levels { levels edges.new ≡ levels edges.old }
{
    let (_, source) = ends(row.side);
    let next = heads[source];
    edges.add(Edge { row, next });
    heads[source] = edges.len() as u32;
}

// Takes back the newest edge, which came since the newest level opened; the one before it is the newest out of its source.
fn unlink(edges: &mut Trail<Edge>, heads: &mut [u32])
    requires since { newest (levels edges.old) < length (items edges.old) }
    requires long { 64 ≤ length heads.old }
    requires fair { AllFair (items edges.old) }
    requires chained { Chained (items edges.old) heads.old }
    ensures roomy { Roomy edges.old edges.new }
    ensures chained { Chained (items edges.new) heads.new }
    ensures edges { items edges.new ≡ take (length (items edges.old) - 1) (items edges.old) }
    ensures levels { levels edges.new ≡ levels edges.old }
{
    let edge = edges.take_back();
    let (_, source) = ends(edge.row.side);
    heads[source] = edge.next;
}
