// The engine: it stands over any theory, keeps the standing rows and open levels itself, and after each call the theory
// below means them. Contracts see an engine as what it means.
#![tactic(auto)]

ghost use Rattle.std.specs.Prelude.{◌≡◌, IfOk};
ghost use Rattle.theory.specs.Calls.{Put, Push, Pop, Tightest, RowAt};
ghost use Rattle.theory.specs.Meaning.{Sane};
ghost use Rattle.standing.specs.Starts.{Started};

use standing::Standing;
use standing::start::Unstarted;
use std::alloc::Global;
use std::marker::Model;
use theory::Theory;
use theory::refusal::Refusal;
use theory::row::{Row, Side};
use theory::sizes::Sizes;

#[derive(Drop)]
pub struct Engine<T: Theory> {
    theory: T,
    standing: Standing,
}

impl<T: Theory> Model for Engine<T> {
    ghost use Rattle.std.specs.Prelude.{◌≡◌};
    ghost use Rattle.theory.specs.Meaning.{Meaning};

    ghost Value = { Meaning };

    ghost view = { λ e. e.standing };

    ghost invariant = { λ e. T.meaning e.theory ≡ e.standing };
}

impl<T: Theory> Engine<T> {
    // Starts over an empty theory only; otherwise, and for want of memory, the theory is handed back as it was.
    // All memory is asked for here: space for the rows and levels that the sizes allow.
    pub fn new(alloc: Global, theory: T) -> Result<Engine<T>, Unstarted<T>>
        ensures started { Started T.meaning (λ e. e) (λ z. z) theory result }
        ensures sane { IfOk result Sane }
    {
        let sizes = theory.sizes();
        match Standing::empty(alloc, &theory, sizes) {
            Ok(standing) => Ok(Engine { theory, standing }),
            Err(cause) => Err(Unstarted { theory, cause }),
        }
    }

    pub fn offer(&mut self, row: Row) -> Result<(), Refusal>
        ensures answers { Put self.old row result self.new }
        ensures sane { Sane self.new }
    {
        self.theory.put(row)?;
        self.standing.add(row);
        Ok(())
    }

    pub fn push(&mut self) -> Result<(), Refusal>
        ensures answers { Push self.old result self.new }
        ensures sane { Sane self.new }
    {
        self.theory.push()?;
        self.standing.open_level();
        Ok(())
    }

    pub fn pop(&mut self) -> Result<(), Refusal>
        ensures answers { Pop self.old result self.new }
        ensures sane { Sane self.new }
    {
        self.theory.pop()?;
        self.standing.close_level();
        Ok(())
    }

    pub fn tightest(&mut self, side: Side) -> Result<Option<i64>, Refusal>
        ensures answers { Tightest self.old side result self.new }
        ensures sane { Sane self.new }
    {
        self.theory.tightest(side)
    }

    // The standing row at a place, counted from 0.
    pub fn row(&self, place: u32) -> Result<Row, Refusal>
        ensures { RowAt self.now place result self.now }
    {
        self.rows()
            .get(place as usize)
            .copied()
            .ok_or(Refusal::NoRow)
    }

    pub fn sizes(&self) -> Sizes
        ensures { result ≡ self.now.sizes }
    {
        self.standing.sizes()
    }

    // The standing rows, in order of acceptance.
    pub fn rows(&self) -> &[Row]
        ensures { result.now ≡ self.now.rows }
    {
        self.standing.rows()
    }

    // The open levels, oldest first, each by the number of rows that stood when it opened.
    pub fn levels(&self) -> &[u32]
        ensures { result.now ≡ self.now.levels }
    {
        self.standing.levels()
    }
}
