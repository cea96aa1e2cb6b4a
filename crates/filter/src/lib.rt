// The filter: a layer over any theory that holds back the rows that say nothing new.
//
// 1. A row whose left side already has a tightest value of c or less stands here, and uses space here, but is not passed down.
// 2. So the rows below have the same points as those here, and a question is passed on as it is.
// 3. The rows below are never more than those here, so of an accepted left side only a contradiction is left to refuse below.
//
// Its sizes are those of the theory below. All memory is taken at the start: no later call allocates.
#![tactic(auto)]

ghost use Rattle.std.specs.Prelude.{◌≡◌, None};
ghost use Rattle.standing.specs.Starts.{Started};
ghost use Rattle.theory.specs.Calls.{put_fault};
ghost use Rattle.filter.specs.Filters.{Passed, Over, Over-prop};
ghost use Rattle.filter.specs.Sanity.{over_sane};

use standing::Standing;
use standing::start::Unstarted;
use std::alloc::{AllocError, Global};
use theory::refusal::Refusal;
use theory::row::{Row, Side};
use theory::rules::check_put;
use theory::sizes::Sizes;
use theory::{Start, Theory};

#[derive(Drop)]
pub struct Filter<T: Theory> {
    below: T,
    standing: Standing,
    ghost over: { Over standing (T.meaning below) } by { Over-prop standing (T.meaning below) },
}

// Puts the row below, unless the rows there bound its left side as tightly already.
fn pass<T: Theory>(below: &mut T, row: Row) -> Result<(), Refusal>
    requires { put_fault (T.meaning below.old) row ≡ None }
    ensures { Passed (T.meaning below.old) row result (T.meaning below.new) }
{
    if let Some(most) = below.tightest(row.side)?
        && most <= row.c
    {
        return Ok(());
    }
    below.put(row)
}

impl<T: Theory> Filter<T> {
    // Starts over an empty theory only; otherwise, and for want of memory, the theory is handed back as it was.
    pub fn new(alloc: Global, below: T) -> Result<Filter<T>, Unstarted<T>>
        ensures { Started T.meaning (λ f. f.standing) (λ z. z) below result }
    {
        let sizes = below.sizes();
        match Standing::empty(alloc, &below, sizes) {
            Ok(standing) => Ok(Filter { below, standing }),
            Err(cause) => Err(Unstarted {
                theory: below,
                cause,
            }),
        }
    }
}

// The counts, sizes and levels read as those of the doubled layer. One struct for both would need a trait for what ties it
// to the theory below, with a law for each step, and be no plainer.
impl<T: Theory> Theory for Filter<T> {
    ghost meaning = { λ f. f.standing };

    ghost sane = { λ f. over_sane _ _ f.over (T.Theory.sane f.below) };

    fn sizes(&self) -> Sizes {
        self.standing.sizes()
    }

    fn row_count(&self) -> u32 {
        self.standing.row_count()
    }

    fn level_count(&self) -> u32 {
        self.standing.level_count()
    }

    // A question below, and a put below unless the row is held back.
    fn put(&mut self, row: Row) -> Result<(), Refusal> {
        check_put(self.sizes(), self.row_count(), row)?;
        pass(&mut self.below, row)?;
        self.standing.add(row);
        Ok(())
    }

    // A push below.
    fn push(&mut self) -> Result<(), Refusal> {
        self.below.push()?;
        self.standing.open_level();
        Ok(())
    }

    // A pop below, and a step for each row that goes.
    fn pop(&mut self) -> Result<(), Refusal> {
        self.below.pop()?;
        self.standing.close_level();
        Ok(())
    }

    // The same question below.
    fn tightest(&mut self, side: Side) -> Result<Option<i64>, Refusal> {
        self.below.tightest(side)
    }
}

// What starts filters over what `S` starts.
#[derive(Clone, Copy, Debug)]
pub struct OverFilter<S>(pub S);

impl<S: Start> Start for OverFilter<S> {
    type Made = Filter<S::Made>;

    ghost starts = { λ s. S.Start.starts s.0 };

    // The theory below is empty, so only memory can be wanting.
    fn start(self, alloc: Global) -> Result<Filter<S::Made>, AllocError> {
        let below = self.0.start(alloc)?;
        match Filter::new(alloc, below) {
            Ok(filter) => Ok(filter),
            Err(_) => Err(AllocError),
        }
    }
}
