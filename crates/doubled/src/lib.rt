// The doubled layer: sums, differences and bounds over whole numbers, above any theory that takes differences.
//
// 1. The unknown 2k below stands for x(k), and 2k + 1 for −x(k). So a literal is an unknown below, and every left side is a
//    literal s or the difference of two literals s − t.
// 2. A row s − t ≤ c goes down as two mirrored rows, itself and mirror(t) − mirror(s) ≤ c; a bound s ≤ c goes down as
//    s − mirror(s) ≤ 2c. The points below need not be mirrored, but the greatest differences are.
// 3. half(s), the greatest s − mirror(s) below divided by two towards minus infinity, is the greatest value of s in whole
//    numbers. That of s − t is the lesser of the greatest difference and half(s) + half(mirror(t)).
// 4. A row L ≤ c contradicts the standing rows exactly where the greatest value of −L, plus c, is below 0. That is asked
//    before anything is put below, so nothing is ever taken back and no level is needed for it.
// 5. What is then put below is never refused: a point that meets the rows here, spread over the literals, meets it.
//
// Unknowns, space and reach are half of those below, rounded down, and the depth is the same. All memory is taken at the
// start: no later call allocates.
#![tactic(auto)]

ghost use Rattle.std.specs.Prelude.{◌≡◌, ◌<◌, [], ◌∷◌, ◌++◌, length, None};
ghost use Rattle.theory.specs.Calls.{PointChecked};
ghost use Rattle.theory.specs.Meaning.{with_row};
ghost use Rattle.theory.specs.Rows.{Feasible};
ghost use Rattle.theory.specs.Rules.{row_fault};
ghost use Rattle.standing.specs.Starts.{Started};
ghost use Rattle.differences.specs.Tabled.{Near};
ghost use Rattle.sums.specs.Terms.{Within, half_sizes};
ghost use Rattle.sums.specs.Greatest.{GreatestOf};
ghost use Rattle.doubled.specs.Asking.{further};
ghost use Rattle.doubled.specs.State.{Over, Over-prop};
ghost use Rattle.doubled.specs.Sanity.{over_sane};

use below::Below;
use standing::Standing;
use standing::start::Unstarted;
use std::alloc::{AllocError, Global};
use sums::Terms;
use theory::refusal::Refusal;
use theory::row::{Row, Side};
use theory::rules::{check_put, check_side};
use theory::sizes::{Breadth, Sizes};
use theory::{Start, Theory};

mod below;

// The theory below keeps what the standing rows are sent down as, and a level for each that is open here.
#[derive(Drop)]
pub struct Doubled<T: Theory> {
    below: Below<T>,
    standing: Standing,
    ghost over: { Over standing (T.meaning below.theory) } by { Over-prop standing (T.meaning below.theory) },
}

fn halves(sizes: Sizes) -> Sizes
    ensures { result ≡ half_sizes sizes }
{
    Sizes {
        unknowns: sizes.unknowns / 2,
        space: sizes.space / 2,
        depth: sizes.depth,
        reach: sizes.reach / 2,
        breadth: Breadth::Sums,
    }
}

impl<T: Theory> Doubled<T> {
    // Starts over an empty theory only; otherwise, and for want of memory, the theory is handed back as it was.
    pub fn new(alloc: Global, below: T) -> Result<Doubled<T>, Unstarted<T>>
        ensures { Started T.meaning (λ d. d.standing) half_sizes below result }
    {
        let sizes = halves(below.sizes());
        match Standing::empty(alloc, &below, sizes) {
            Ok(standing) => Ok(Doubled {
                below: Below { theory: below },
                standing,
            }),
            Err(cause) => Err(Unstarted {
                theory: below,
                cause,
            }),
        }
    }

    // The greatest value of the terms over the points that meet the standing rows.
    fn greatest(&mut self, terms: Terms) -> Option<i64>
        requires within { Within self.old.standing.sizes.unknowns terms }
        ensures same { self.new.standing ≡ self.old.standing }
        ensures value { GreatestOf self.old.standing.rows terms result }
        ensures near { Near further result }
    {
        self.below.tight(terms)
    }

    // Rule 7. The test is the dense bottom's, of another greatest value; as a function it would need bounds on both numbers.
    fn check_point(&mut self, row: Row) -> Result<(), Refusal>
        requires fair { row_fault self.old.standing.sizes row ≡ None }
        ensures same { self.new.standing ≡ self.old.standing }
        ensures answers { PointChecked self.old.standing.rows row result }
    {
        let most = self.greatest(Terms::from(row.side).opposite());
        if most.is_some_and(|most| most + row.c < 0) {
            return Err(Refusal::Contradiction);
        }
        Ok(())
    }

    fn accept(&mut self, row: Row)
        requires fair { row_fault self.old.standing.sizes row ≡ None }
        requires room { length self.old.standing.rows < self.old.standing.sizes.space }
        requires point { Feasible (self.old.standing.rows ++ row ∷ []) }
        ensures { self.new.standing ≡ with_row self.old.standing row }
    {
        self.below.send(Terms::from(row.side), row.c);
        self.standing.add(row);
    }
}

impl<T: Theory> Theory for Doubled<T> {
    ghost meaning = { λ d. d.standing };

    ghost sane = { λ d. over_sane d.standing (T.meaning d.below.theory) d.over (T.Theory.sane d.below.theory) };

    fn sizes(&self) -> Sizes {
        self.standing.sizes()
    }

    fn row_count(&self) -> u32 {
        self.standing.row_count()
    }

    fn level_count(&self) -> u32 {
        self.standing.level_count()
    }

    // At most three questions below, and where the row is accepted one or two puts below.
    fn put(&mut self, row: Row) -> Result<(), Refusal> {
        check_put(self.sizes(), self.row_count(), row)?;
        self.check_point(row)?;
        self.accept(row);
        Ok(())
    }

    // A push below.
    fn push(&mut self) -> Result<(), Refusal> {
        self.below.theory.push()?;
        self.standing.open_level();
        Ok(())
    }

    // A pop below, and a step for each row that goes.
    fn pop(&mut self) -> Result<(), Refusal> {
        self.below.theory.pop()?;
        self.standing.close_level();
        Ok(())
    }

    // One question below for a bound, and at most three for two unknowns.
    fn tightest(&mut self, side: Side) -> Result<Option<i64>, Refusal> {
        check_side(self.sizes(), side)?;
        Ok(self.greatest(Terms::from(side)))
    }
}

// What starts doubled theories over what `S` starts. It reads as what starts filters; one struct for both would need a type
// that stands for a layer over any theory, which Rust does not have.
#[derive(Clone, Copy, Debug)]
pub struct OverDoubled<S>(pub S);

impl<S: Start> Start for OverDoubled<S> {
    type Made = Doubled<S::Made>;

    ghost starts = { λ s. half_sizes (S.Start.starts s.0) };

    fn start(self, alloc: Global) -> Result<Doubled<S::Made>, AllocError> {
        let below = self.0.start(alloc)?;
        // What was just started is empty, so that only memory can be wanting.
        match Doubled::new(alloc, below) {
            Ok(doubled) => Ok(doubled),
            Err(_) => Err(AllocError),
        }
    }
}
