// A potential for each unknown: a point that meets all standing rows.
ghost use Rattle.std.specs.Prelude.{◌≡◌, ℕ, ◌<◌, pos};
ghost use Rattle.sparse.specs.Points.{point_of};

#[derive(Clone, Copy, PartialEq, Eq, Debug)]
pub struct Potentials {
    pub values: [i64; 64],
}

impl Potentials {
    pub fn zero() -> Potentials
        ensures { (u : ℕ) → u < 64 → point_of result u ≡ pos 0 }
    {
        Potentials { values: [0; 64] }
    }

    pub fn at(&self, u: usize) -> i64
        requires { u < 64 }
        ensures { result ≡ point_of self.now u }
    {
        self.values[u]
    }
}
