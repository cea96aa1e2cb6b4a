// The theory below: the questions that the layer asks of it, and the rows that it puts there. Its rows bound differences, so
// that the answers are the greatest differences, which every table of them has alike, and lie near 0.
ghost use Rattle.std.specs.Prelude.{◌≡◌, ◌+◌, ◌<◌, ◌≤◌, length, ◌≢◌, unsigned_abs};
ghost use Rattle.theory.specs.Meaning.{with_row};
ghost use Rattle.theory.specs.Rows.{Feasible};
ghost use Rattle.bounds.specs.Tables.{sum_of};
ghost use Rattle.bounds.specs.Doubling.{code, alone};
ghost use Rattle.sums.specs.declared.Terms.TheVariants.{One};
ghost use Rattle.sums.specs.Terms.{lit, Within, row_of, greatest_by, half_sizes};
ghost use Rattle.doubled.specs.Asking.{Ready, Ready-prop, Answered, far, further};
ghost use Rattle.doubled.specs.State.{Takes, with_images};

use bounds::{halved, lesser};
use sums::{Literal, Terms};
use theory::Theory;
use theory::row::Row;

// The theory below. Its rows bound differences.
#[derive(Drop)]
pub struct Below<T: Theory> {
    pub theory: T,
    ghost ready: { Ready (T.meaning theory) } by { Ready-prop (T.meaning theory) },
}

impl<T: Theory> Below<T> {
    // The greatest s − t.
    fn difference(&mut self, s: Literal, t: Literal) -> Option<i64>
        requires first { code (lit s) < (T.meaning self.old.theory).sizes.unknowns }
        requires second { code (lit t) < (T.meaning self.old.theory).sizes.unknowns }
        requires apart { code (lit s) ≢ code (lit t) }
        ensures { Answered far (T.meaning self.old.theory) (λ D. D (code (lit s)) (code (lit t))) result (T.meaning self.new.theory) }
    {
        self.theory.tightest(s.minus(t)).unwrap()
    }

    // The greatest s − mirror(s), halved.
    fn half(&mut self, s: Literal) -> Option<i64>
        requires { Within (half_sizes (T.meaning self.old.theory).sizes).unknowns (One s) }
        ensures { Answered far (T.meaning self.old.theory) (λ D. alone D (lit s)) result (T.meaning self.new.theory) }
    {
        self.difference(s, s.mirror()).map(halved)
    }

    // half(s) + half(t), where both are there.
    fn sum_of_halves(&mut self, s: Literal, t: Literal) -> Option<i64>
        requires first { Within (half_sizes (T.meaning self.old.theory).sizes).unknowns (One s) }
        requires second { Within (half_sizes (T.meaning self.old.theory).sizes).unknowns (One t) }
        ensures { Answered further (T.meaning self.old.theory) (λ D. sum_of (alone D (lit s)) (alone D (lit t))) result (T.meaning self.new.theory) }
    {
        Some(self.half(s)? + self.half(t)?)
    }

    // The lesser of the difference and the sum of halves, or the half.
    pub fn tight(&mut self, terms: Terms) -> Option<i64>
        requires { Within (half_sizes (T.meaning self.old.theory).sizes).unknowns terms }
        ensures { Answered further (T.meaning self.old.theory) (λ D. greatest_by D terms) result (T.meaning self.new.theory) }
    {
        match terms {
            Terms::One(s) => self.half(s),
            Terms::Two(s, t) => {
                let direct = self.difference(s, t);
                let by_halves = self.sum_of_halves(s, t.mirror());
                lesser(direct, by_halves)
            }
        }
    }

    // Puts s − t ≤ c, where it is accepted.
    fn put(&mut self, s: Literal, t: Literal, c: i64)
        requires { Takes (T.meaning self.old.theory) (lit s) (lit t) c }
        ensures { T.meaning self.new.theory ≡ with_row (T.meaning self.old.theory) (row_of (lit s) (lit t) c) }
    {
        let row = Row {
            side: s.minus(t),
            c,
        };
        self.theory.put(row).unwrap();
    }

    // Puts the images of a row, where they are accepted.
    pub fn send(&mut self, terms: Terms, c: i64)
        requires within { Within (half_sizes (T.meaning self.old.theory).sizes).unknowns terms }
        requires near { unsigned_abs c ≤ (half_sizes (T.meaning self.old.theory).sizes).reach }
        requires room { length (T.meaning self.old.theory).rows + 2 ≤ (T.meaning self.old.theory).sizes.space }
        requires point { Feasible (with_images (T.meaning self.old.theory) terms c).rows }
        ensures after { T.meaning self.new.theory ≡ with_images (T.meaning self.old.theory) terms c }
    {
        match terms {
            Terms::One(s) => self.put(s, s.mirror(), 2 * c),
            Terms::Two(s, t) => {
                self.put(s, t, c);
                self.put(t.mirror(), s.mirror(), c);
            }
        }
    }
}
