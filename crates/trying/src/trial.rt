// A list of random calls, what the reference answers to each, and how a tower compares.
ghost use Rattle.std.specs.Prelude.{◌≡◌, ◌-◌, ◌^◌, ◌<◌, ◌↔◌, IfOk, OnErr, is_err, count_by, vec_len};
ghost use Rattle.trying.specs.Counts.{capped_sum, GivesAll};

use crate::oracle::Oracle;
use crate::reference::Reference;
use crate::tally::Tally;
use histories::{Answer, Call, Fault, History};
use std::alloc::{AllocError, Global};
use theory::Start;
use theory::sizes::Breadth;
use towers::{Tower, Visit, VisitBoth, over, over_both};

// Two lists, since a run takes the calls as a slice.
#[derive(Drop)]
pub struct Trial {
    pub calls: Vec<Call>,
    pub answers: Vec<Answer>,
}

impl Trial {
    // So many calls, as they are drawn.
    pub fn new<D: FnMut() -> Call>(
        alloc: Global,
        breadth: Breadth,
        oracle: Oracle,
        count: u32,
        mut draw: D,
    ) -> Result<Trial, AllocError>
        requires { D.IsAlwaysCallable draw }
        ensures calls { IfOk result (λ trial. vec_len trial.calls ≡ count) }
        ensures answers { IfOk result (λ trial. vec_len trial.answers ≡ count) }
    {
        let mut reference = Reference::new(alloc, breadth, oracle);
        let mut trial = Trial {
            calls: Vec::new(alloc),
            answers: Vec::new(alloc),
        };
        for _ in 0..count {
            let call = draw();
            trial.calls.push(call)?;
            trial.answers.push(reference.answer(call)?)?;
        }
        Ok(trial)
    }

    // Notes each answer of one engine over the tower.
    pub fn try_alone(
        &self,
        alloc: Global,
        tower: Tower,
        tally: &mut Tally,
    ) -> Result<Vec<Answer>, AllocError>
        ensures err { OnErr result (tally.new ≡ tally.old) }
        ensures calls { IfOk result (λ _.
            tally.new.calls ≡ capped_sum tally.old.calls (vec_len self.now.answers)) }
        ensures refused { IfOk result (λ _.
            tally.new.refused ≡ capped_sum tally.old.refused (count_by is_err self.now.answers.items)) }

        // Unless the count is at its most already, it stays where all expected answers are given, and only there.
        ensures wrong { tally.old.wrong < 2 ^ 64 - 1 → IfOk result (λ given.
            (tally.new.wrong ≡ tally.old.wrong)
            ↔ GivesAll self.now.answers.items given.items) }
    {
        let given = over(tower, Alone { alloc, trial: self })?;
        tally.note_all(self.answers.as_slice(), given.as_slice());
        Ok(given)
    }

    // The same, and answers the history of that engine and of a second one.
    pub fn try_over(&self, alloc: Global, tower: Tower, tally: &mut Tally) -> Result<History, Fault>
        ensures err { OnErr result (tally.new ≡ tally.old) }
        ensures calls { IfOk result (λ _.
            tally.new.calls ≡ capped_sum tally.old.calls (vec_len self.now.answers)) }
        ensures refused { IfOk result (λ _.
            tally.new.refused ≡ capped_sum tally.old.refused (count_by is_err self.now.answers.items)) }

        // As with one engine alone.
        ensures wrong { tally.old.wrong < 2 ^ 64 - 1 → IfOk result (λ history.
            (tally.new.wrong ≡ tally.old.wrong)
            ↔ GivesAll self.now.answers.items history.answers.items) }
    {
        let history = over_both(tower, tower, Trying { alloc, trial: self })?;
        tally.note_all(self.answers.as_slice(), history.answers.as_slice());
        Ok(history)
    }
}

#[derive(Drop)]
struct Alone<'a> {
    alloc: Global,
    trial: &'a Trial,
}

impl<'a> Visit for Alone<'a> {
    type Outcome = Result<Vec<Answer>, AllocError>;

    fn visit<S: Start + Drop>(self, start: S) -> Result<Vec<Answer>, AllocError> {
        let Alone { alloc, trial } = self;
        histories::answers(alloc, start, trial.calls.as_slice())
    }
}

#[derive(Drop)]
struct Trying<'a> {
    alloc: Global,
    trial: &'a Trial,
}

impl<'a> VisitBoth for Trying<'a> {
    type Outcome = Result<History, Fault>;

    fn visit_both<P: Start + Drop, Q: Start + Drop>(
        self,
        first: P,
        second: Q,
    ) -> Result<History, Fault> {
        let Trying { alloc, trial } = self;
        let calls = trial.calls.as_slice();
        let next = calls.last().copied().unwrap_or(Call::Pop);
        histories::run(alloc, first, second, calls, next)
    }
}
