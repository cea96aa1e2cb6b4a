// Distances from one unknown along the edges, by the method of Dijkstra on reduced lengths with a scan for the nearest.
// A value is the length of a chain of edges as it is; an unknown's key is its value less its potential. Unknowns are settled
// in the order of their keys, as long as those are below the limit; the value of a settled one is its distance.
// The mark bytes are lent, and cleared at the end.
ghost use Rattle.std.specs.Prelude.{◌≡◌, ℕ, ◌<◌, ◌≤◌, length, pos, MatchOption, SomeIff, unsigned_abs, slice_index, slice_index_or};
ghost use Rattle.sparse.specs.Graphs.{edges_of};
ghost use Rattle.sparse.specs.Points.{point_of};
ghost use Rattle.sparse.specs.Distances.{Clear, Nearest, NoneNearer, Better, SmallValues, Found, Offered, Lowered, Walked, Stepped, key};

use crate::graph::Graph;
use crate::lengths::Lengths;
use crate::memory::MARKS;
use crate::potentials::Potentials;
use differences::ends;

// A mark stays a byte, since the memory of the marks is lent as bytes, and so the values stand in an array of their own.
const UNREACHED: u8 = 0;

const TENTATIVE: u8 = 1;

const SETTLED: u8 = 2;

pub struct Distances<'m> {
    marks: &'m mut [u8],
    values: [i64; 64],
    ghost long: { 64 ≤ length marks.now },
    ghost small: { SmallValues (λ r. slice_index marks.now r) (λ r. slice_index_or values r (pos 0)) },
}

impl Drop for Distances<'_> {
    fn drop(self)
        ensures { Clear self.exit.0.now }
    {
        let Distances { marks, values: _ } = self;
        clear(marks);
    }
}

pub fn clear(marks: &mut [u8])
    requires { 64 ≤ length marks.old }
    ensures { Clear marks.new }
{
    marks[..MARKS].fill(UNREACHED);
}

// The least key below the limit that a scan has come to, and the unknown that has it; the limit, where there is none, so that
// a scan compares with one key and asks no further.
#[derive(Clone, Copy)]
struct Best {
    key: i64,
    unknown: Option<usize>,
}

impl<'m> Distances<'m> {
    // No unknown is reached.
    pub fn new(marks: &'m mut [u8]) -> Distances<'m>
        requires long { 64 ≤ length marks.old }
        requires clear { Clear marks.old }
        ensures same { result.marks.ghost_name ≡ marks.entry.ghost_name }
        ensures clear { Clear result.marks.now }
    {
        Distances {
            marks,
            values: [0; 64],
        }
    }
}

// Each change says that the lent slice is still the same one (`ghost_name`), which the check does not see in a struct. That an
// unknown is below 64 stays a clause: a type for it would be made and opened again at every index.
impl Distances<'_> {
    ghost use Rattle.sparse.specs.Searches.{mark_of, value_of};

    // The distance of r, where it is settled.
    pub fn distance(&self, r: usize) -> Option<i64>
        requires { r < 64 }
        ensures { SomeIff result (mark_of self.now r ≡ 2) (value_of self.now r) }
    {
        (self.marks[r] == SETTLED).then_some(self.values[r])
    }

    // A chain of this length leads to r.
    fn offer(&mut self, r: usize, value: i64)
        requires within { r < 64 }
        requires small { unsigned_abs value ≤ 256000000 }
        ensures same { self.new.marks.ghost_name ≡ self.old.marks.ghost_name }
        ensures offered { Offered r value (mark_of self.old) (value_of self.old) (mark_of self.new) (value_of self.new) }
    {
        if self.marks[r] == UNREACHED || value < self.values[r] {
            self.values[r] = value;
            self.marks[r] = TENTATIVE;
        }
    }

    // The better of the best so far and r.
    fn better(&self, lengths: Lengths, best: Best, r: usize) -> Best
        requires { r < 64 }
        ensures { Better (key (point_of lengths.entry.potentials.now) (value_of self.now)) (mark_of self.now) best r result }
    {
        if self.marks[r] != TENTATIVE {
            return best;
        }
        let key = self.values[r] - lengths.potentials.at(r);
        if key >= best.key {
            return best;
        }
        Best {
            key,
            unknown: Some(r),
        }
    }

    // The tentative unknown with the least key, where that is below the limit.
    fn nearest(&self, lengths: Lengths, limit: i64) -> Option<usize>
        ensures { let p = point_of lengths.entry.potentials.now in
            let m = mark_of self.now in
            let val = value_of self.now in
            MatchOption result (NoneNearer p limit m val) (Nearest p limit m val) }
    {
        let none = Best {
            key: limit,
            unknown: None,
        };
        let best = (0..MARKS).fold(none, |best, r| self.better(lengths, best, r));
        best.unknown
    }

    // Offers each edge out of v to its target.
    fn relax(&mut self, graph: &Graph, v: usize)
        requires within { v < 64 }
        requires reached { 0 < mark_of self.old v }
        requires small { unsigned_abs (value_of self.old v) ≤ 252000000 }
        ensures same { self.new.marks.ghost_name ≡ self.old.marks.ghost_name }
        ensures reached { 0 < mark_of self.new v }
        ensures walked { Walked (edges_of graph.now) v 0 (mark_of self.old) (mark_of self.new) (value_of self.old) (value_of self.new) }
    {
        let value = self.values[v];
        let mut place = graph.head(v);
        while let Some(i) = place {
            let edge = graph.edge(i);
            let (target, _) = ends(edge.row.side);
            self.offer(target, value + edge.row.c);
            place = edge.before();
        }
    }

    fn settle(&mut self, graph: &Graph, v: usize)
        requires within { v < 64 }
        requires reached { 0 < mark_of self.old v }
        requires small { unsigned_abs (value_of self.old v) ≤ 252000000 }
        ensures same { self.new.marks.ghost_name ≡ self.old.marks.ghost_name }
        ensures stepped { Stepped (edges_of graph.now) v (mark_of self.old) (mark_of self.new) (value_of self.old) (value_of self.new) }
    {
        self.relax(graph, v);
        self.marks[v] = SETTLED;
    }

    // Settles each unknown whose key is below the limit: 64 steps for it, and one for each edge out of it.
    pub fn run(&mut self, lengths: Lengths, start: usize, limit: i64)
        requires within { start < 64 }
        requires clear { Clear self.old.marks.now }
        ensures same { self.new.marks.ghost_name ≡ self.old.marks.ghost_name }
        ensures found { Found (edges_of lengths.entry.graph.now) (point_of lengths.entry.potentials.now) start limit (mark_of self.new) (value_of self.new) }
    {
        self.offer(start, 0);
        while let Some(v) = self.nearest(lengths, limit) {
            self.settle(lengths.graph, v);
        }
    }

    // Puts the potentials of the settled unknowns to their values from base on.
    pub fn lower(&self, potentials: &mut Potentials, base: i64)
        requires { unsigned_abs base ≤ 266244000000 }
        ensures { (r : ℕ) → r < 64 → Lowered base (mark_of self.now r) (value_of self.now r) (point_of potentials.old r) (point_of potentials.new r) }
    {
        for (r, potential) in potentials.values.iter_mut().enumerate() {
            if let Some(distance) = self.distance(r) {
                *potential = base + distance;
            }
        }
    }
}
