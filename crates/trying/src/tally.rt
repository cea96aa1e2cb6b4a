// How many answers were compared, how many of them were refusals, and how many were not as expected.
ghost use Rattle.std.specs.Prelude.{◌≡◌, ◌≢◌, ◌-◌, ◌^◌, ◌<◌, ◌⊎◌, ◌↔◌, is_err, if◌then◌else◌, length, count_by};
ghost use Rattle.trying.specs.Counts.{capped_sum, GivesAll};

use histories::Answer;
use std::fmt;

#[derive(Clone, Copy, PartialEq, Eq, Default, Debug)]
pub struct Tally {
    pub calls: u64,
    pub refused: u64,
    pub wrong: u64,
}

impl Tally {
    pub fn note(&mut self, expected: Answer, given: Option<Answer>)
        ensures calls { self.new.calls ≡ capped_sum self.old.calls 1 }
        ensures refused { self.new.refused
            ≡ (if is_err expected then capped_sum self.old.refused 1 else self.old.refused) }
        ensures wrong { ((given ≡ Some expected) × (self.new.wrong ≡ self.old.wrong))
            ⊎ ((given ≢ Some expected) × (self.new.wrong ≡ capped_sum self.old.wrong 1)) }
    {
        self.calls = self.calls.saturating_add(1);
        if expected.is_err() {
            self.refused = self.refused.saturating_add(1);
        }
        if given != Some(expected) {
            self.wrong = self.wrong.saturating_add(1);
        }
    }

    // Notes what is given at the place of each expected answer.
    pub(crate) fn note_all(&mut self, expected: &[Answer], given: &[Answer])
        ensures calls { self.new.calls ≡ capped_sum self.old.calls (length expected.now) }
        ensures refused { self.new.refused ≡ capped_sum self.old.refused (count_by is_err expected.now) }
        ensures wrong { self.old.wrong < 2 ^ 64 - 1
            → (self.new.wrong ≡ self.old.wrong) ↔ GivesAll expected.now given.now }
    {
        for (place, expected) in expected.iter().enumerate() {
            self.note(*expected, given.get(place).copied());
        }
    }
}

impl fmt::Display for Tally {
    fn fmt<W: fmt::Write>(&self, f: &mut fmt::Formatter<W>) -> fmt::Result {
        write!(
            f,
            "{} calls, {} refused, {} wrong",
            self.calls, self.refused, self.wrong
        )
    }
}
