// The standing rows and open levels that an engine, or a layer over a theory, keeps for itself on the heap, and the start
// over an empty theory. Contracts see a `Standing` as what it means: rows, levels and sizes. All memory is taken at the
// start, as much as the sizes allow; no later call allocates, and each but the closing of a level takes a few steps.
#![tactic(auto)]

ghost use Rattle.std.specs.Prelude.{◌≡◌, ◌<◌, length, MatchResult};
ghost use Rattle.theory.specs.Meaning.{with_row, with_level, without_level};
ghost use Rattle.standing.specs.Starts.{StartedOver, StartedWith, UnstartedBy};

use start::{Cause, Unstarted};
use std::alloc::Global;
use std::marker::Model;
use theory::row::Row;
use theory::sizes::Sizes;
use theory::{Theory, check_empty};

pub mod start;

// The levels are those open, oldest first, each by the number of rows that stood when it opened.
#[derive(Drop)]
pub struct Standing {
    rows: Vec<Row>,
    levels: Vec<u32>,
    sizes: Sizes,
}

impl Model for Standing {
    ghost use Rattle.std.specs.Prelude.{vec_items};
    ghost use Rattle.theory.specs.Meaning.{Meaning};

    ghost Value = { Meaning };

    ghost use Rattle.standing.specs.Room.{Fits};

    ghost view = { λ s. record { rows = vec_items s.rows; levels = vec_items s.levels; sizes = s.sizes } };

    ghost invariant = { Fits };
}

impl Standing {
    // Nothing stands yet, over an empty theory with these sizes. The theory is read where it lies: one that holds a table is
    // dear to hand on.
    pub fn empty<T: Theory>(alloc: Global, below: &T, sizes: Sizes) -> Result<Standing, Cause>
        ensures { MatchResult result (StartedOver (T.meaning below.now) sizes) (UnstartedBy (T.meaning below.now)) }
    {
        check_empty(below)?;
        Ok(Standing {
            rows: Vec::with_capacity(alloc, sizes.space as usize)?,
            levels: Vec::with_capacity(alloc, sizes.depth as usize)?,
            sizes,
        })
    }

    // The theory below, and what stands over it, which is nothing yet. Where the theory is not empty, and for want of memory,
    // it is handed back as it was. A match and no `?`, since the theory goes on both ways.
    pub fn over<T: Theory>(
        alloc: Global,
        below: T,
        sizes: Sizes,
    ) -> Result<(T, Standing), Unstarted<T>>
        ensures { StartedWith T.meaning sizes below result }
    {
        match Standing::empty(alloc, &below, sizes) {
            Ok(standing) => Ok((below, standing)),
            Err(cause) => Err(Unstarted {
                theory: below,
                cause,
            }),
        }
    }

    pub fn sizes(&self) -> Sizes
        ensures { result ≡ self.now.sizes }
    {
        self.sizes
    }

    // The standing rows, in order of acceptance.
    pub fn rows(&self) -> &[Row]
        ensures { result.now ≡ self.now.rows }
    {
        self.rows.as_slice()
    }

    // The open levels, oldest first.
    pub fn levels(&self) -> &[u32]
        ensures { result.now ≡ self.now.levels }
    {
        self.levels.as_slice()
    }

    pub fn row_count(&self) -> u32
        ensures { result ≡ length self.now.rows }
    {
        self.rows.len() as u32
    }

    pub fn level_count(&self) -> u32
        ensures { result ≡ length self.now.levels }
    {
        self.levels.len() as u32
    }

    pub fn add(&mut self, row: Row)
        requires { length self.old.rows < self.old.sizes.space }
        ensures { self.new ≡ with_row self.old row }
    {
        self.rows.push_reserved(row);
    }

    pub fn open_level(&mut self)
        requires { length self.old.levels < self.old.sizes.depth }
        ensures { self.new ≡ with_level self.old }
    {
        let count = self.row_count();
        self.levels.push_reserved(count);
    }

    // A step for each row that goes.
    pub fn close_level(&mut self)
        requires { 0 < length self.old.levels }
        ensures { self.new ≡ without_level self.old }
    {
        let opened = self.levels.pop().unwrap();
        self.rows.truncate(opened as usize);
    }
}
