// The matrix of upper bounds on the differences of 64 unknowns. Assumes that the bounds are small enough to be added.
ghost use Rattle.std.specs.Prelude.{◌≡◌, ℕ, ◌<◌, ◌≤◌, unsigned_abs};
ghost use Rattle.differences.specs.Tabled.{Near};
ghost use Rattle.bounds.specs.Tables.{least_of, sum_of, with_row};
ghost use Rattle.dense.specs.Entries.{entry, of_line, LineHolds, Holds, Small, far, further, no_bounds, line_with_row};

const SIDE: usize = 64;

type Line = [Option<i64>; SIDE];

// Place j of line i bounds x(i) − x(j) from above, or is empty.
#[derive(Clone, Copy, Debug)]
pub struct Matrix {
    lines: [Line; SIDE],
}

impl Matrix {
    // No bounds but that an unknown differs from itself by 0.
    pub fn new() -> Matrix
        ensures { Holds result no_bounds }
    {
        let mut lines = [[None; SIDE]; SIDE];
        for (i, line) in lines.iter_mut().enumerate() {
            line[i] = Some(0);
        }
        Matrix { lines }
    }

    pub fn at(&self, i: usize, j: usize) -> Option<i64>
        requires line { i < 64 }
        requires place { j < 64 }
        ensures { result ≡ entry self.now i j }
    {
        self.lines[i][j]
    }

    // One more row, x(u) − x(v) ≤ c: what it shortens are the chains that come to u, go over the row and on from v.
    pub fn relax(&mut self, u: usize, v: usize, c: i64)
        requires from { u < 64 }
        requires to { v < 64 }
        requires near { unsigned_abs c ≤ 4000000 }
        requires small { Small self.old }
        ensures { Holds self.new (with_row (entry self.old) u v c) }
    {
        let onward = self.lines[v];
        for line in &mut self.lines {
            relax_line(line, u, c, &onward);
        }
    }
}

// The line of one unknown. It stays as it is where no chain comes to u.
fn relax_line(line: &mut Line, u: usize, c: i64, onward: &Line)
    requires from { u < 64 }
    requires near { unsigned_abs c ≤ 4000000 }
    requires coming { Near far (of_line line.old u) }
    requires going { (j : ℕ) → j < 64 → Near far (of_line onward.now j) }
    ensures { LineHolds line.new (line_with_row line.old u c onward.now) }
{
    let Some(through) = sum(line[u], Some(c)) else {
        return;
    };
    // A proof would know nothing of what is written through a `zip` of `iter_mut`.
    for (j, bound) in line.iter_mut().enumerate() {
        lower(bound, sum(Some(through), onward[j]));
    }
}

// The bound becomes the lesser of itself and a chain's length. Written where it falls alone, since most bounds stay.
fn lower(bound: &mut Option<i64>, chain: Option<i64>)
    ensures { bound.new ≡ least_of bound.old chain }
{
    if let Some(length) = chain
        && bound.is_none_or(|most| length < most)
    {
        *bound = chain;
    }
}

fn sum(a: Option<i64>, b: Option<i64>) -> Option<i64>
    requires first { Near further a }
    requires second { Near far b }
    ensures { result ≡ sum_of a b }
{
    Some(a? + b?)
}
