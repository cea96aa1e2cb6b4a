// A plain reference: a list of rows, a list of levels, and the oracle. It has room for all that a trial offers.
use crate::oracle::Oracle;
use histories::{Answer, Call, Reply};
use std::alloc::{AllocError, Global};
use theory::refusal::Refusal;
use theory::row::{Row, Side, Sign};
use theory::sizes::Breadth;

#[derive(Drop)]
pub(crate) struct Reference {
    breadth: Breadth,
    oracle: Oracle,
    rows: Vec<Row>,
    levels: Vec<usize>,
}

impl Reference {
    pub(crate) fn new(alloc: Global, breadth: Breadth, oracle: Oracle) -> Reference {
        Reference {
            breadth,
            oracle,
            rows: Vec::new(alloc),
            levels: Vec::new(alloc),
        }
    }

    pub(crate) fn answer(&mut self, call: Call) -> Result<Answer, AllocError> {
        Ok(match call {
            Call::Push => {
                self.levels.push(self.rows.len())?;
                Ok(Reply::Done)
            }
            Call::Pop => self.pop(),
            Call::Offer(row) => self.offer(row)?,
            Call::Tightest(side) => self.tightest(side),
            Call::RowAt(place) => self.row(place),
        })
    }

    // Of the rules of a side a trial breaks two.
    fn check(&self, side: Side) -> Result<(), Refusal> {
        if side.b != Sign::Zero && side.u == side.v {
            return Err(Refusal::Twice);
        }
        if side.breadth() > self.breadth {
            return Err(Refusal::Breadth);
        }
        Ok(())
    }

    fn pop(&mut self) -> Answer {
        let rows = self.levels.pop().ok_or(Refusal::NoLevel)?;
        self.rows.truncate(rows);
        Ok(Reply::Done)
    }

    fn offer(&mut self, row: Row) -> Result<Answer, AllocError> {
        if let Err(refusal) = self.check(row.side) {
            return Ok(Err(refusal));
        }
        self.rows.push(row)?;
        if self.oracle.is_feasible(self.rows.as_slice()) {
            return Ok(Ok(Reply::Done));
        }
        let _ = self.rows.pop();
        Ok(Err(Refusal::Contradiction))
    }

    fn tightest(&self, side: Side) -> Answer {
        self.check(side)?;
        Ok(Reply::Value(self.oracle.tightest(self.rows.as_slice(), side)))
    }

    fn row(&self, place: u32) -> Answer {
        self.rows
            .get(place as usize)
            .map(|row| Reply::Found(*row))
            .ok_or(Refusal::NoRow)
    }
}
