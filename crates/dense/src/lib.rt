// The dense bottom theory: rows x(u) − x(v) ≤ c over 64 unknowns, and the greatest value of every difference.
//
// 1. Entry (i, j) of the matrix is the greatest value of x(i) − x(j) over the points that meet all standing rows, and is
//    absent where there is none. So a question is one read.
// 2. A row contradicts the standing rows exactly where the greatest value of the mirrored difference, plus c, is below 0.
// 3. A row that is accepted lowers each entry that a chain over the row undercuts.
// 4. A level keeps the number of rows and the matrix of the time it opened; closing it puts both back.
//
// All memory is taken at the start: no later call allocates.
#![tactic(auto)]

ghost use Rattle.std.specs.Prelude.{◌≡◌, ◌<◌, ◌≤◌, [], ◌∷◌, ◌++◌, length, IfOk, None, vec_len, vec_capacity};
ghost use Rattle.std.specs.List.{AllByRecursion};
ghost use Rattle.theory.specs.Meaning.{empty, with_row};
ghost use Rattle.theory.specs.Rows.{Feasible, Greatest};
ghost use Rattle.theory.specs.Rules.{side_fault};
ghost use Rattle.theory.specs.Calls.{PointChecked};
ghost use Rattle.differences.specs.Sides.{bottom_sizes, Fair, Difference};
ghost use Rattle.differences.specs.Tabled.{Tabled};
ghost use Rattle.differences.specs.Props.{Tabled-prop, AllDifferences-prop};
ghost use Rattle.dense.specs.Entries.{entry};
ghost use Rattle.dense.specs.Levels.{Stack, Stack-prop};

use differences::{SIZES, ends};
use matrix::Matrix;
use std::alloc::{AllocError, Global};
use theory::refusal::Refusal;
use theory::row::{Row, Side};
use theory::rules::{check_push, check_put, check_side};
use theory::sizes::Sizes;
use theory::{Start, Theory};

mod matrix;

#[derive(Clone, Copy, Debug)]
struct Level {
    count: usize,
    matrix: Matrix,
}

// The matrix is that of the rows, each level's matrix is that of the rows of its time, and there is room for all that may come.
#[derive(Debug, Drop)]
pub struct Dense {
    rows: Vec<Row>,
    levels: Vec<Level>,
    matrix: Matrix,
    ghost table: { Tabled 64 rows.items (entry matrix) } by { Tabled-prop 64 rows.items (entry matrix) },
    ghost differences: { AllByRecursion (Difference 64 4000000) rows.items } by { AllDifferences-prop 64 4000000 rows.items },
    ghost stack: { Stack 0 rows.items levels.items } by { Stack-prop 0 rows.items levels.items },
    ghost rows_fit: { vec_len rows ≤ 1024 },
    ghost rows_room: { 1024 ≤ vec_capacity rows },
    ghost levels_fit: { vec_len levels ≤ 128 },
    ghost levels_room: { 128 ≤ vec_capacity levels },
}

impl Dense {
    ghost use Rattle.dense.specs.State.{meaning_of};

    pub fn new(alloc: Global) -> Result<Dense, AllocError>
        ensures { IfOk result (λ d. meaning_of d ≡ empty bottom_sizes) }
    {
        // The levels first, since theirs is by far the largest block: so blocks of theories that went can be used again whole.
        Ok(Dense {
            levels: Vec::with_capacity(alloc, SIZES.depth as usize)?,
            rows: Vec::with_capacity(alloc, SIZES.space as usize)?,
            matrix: Matrix::new(),
        })
    }

    fn greatest(&self, side: Side) -> Option<i64>
        requires fair { side_fault bottom_sizes side ≡ None }
        ensures { Greatest (meaning_of self.now).rows side result }
    {
        let (u, v) = ends(side);
        self.matrix.at(u, v)
    }

    // Rule 7.
    fn check_point(&self, row: Row) -> Result<(), Refusal>
        requires fair { Fair row }
        ensures { PointChecked (meaning_of self.now).rows row result }
    {
        let (u, v) = ends(row.side);
        if self.matrix.at(v, u).is_some_and(|most| most + row.c < 0) {
            return Err(Refusal::Contradiction);
        }
        Ok(())
    }

    fn accept(&mut self, row: Row)
        requires fair { Fair row }
        requires room { length (meaning_of self.old).rows < 1024 }
        requires point { Feasible ((meaning_of self.old).rows ++ row ∷ []) }
        ensures { meaning_of self.new ≡ with_row (meaning_of self.old) row }
    {
        let (u, v) = ends(row.side);
        self.matrix.relax(u, v, row.c);
        self.rows.push_reserved(row);
    }
}

impl Theory for Dense {
    ghost use Rattle.dense.specs.State.{meaning_of};
    ghost use Rattle.dense.specs.Sanity.{sane_meaning};

    ghost meaning = { meaning_of };

    ghost sane = { sane_meaning };

    fn sizes(&self) -> Sizes {
        SIZES
    }

    fn row_count(&self) -> u32 {
        self.rows.len() as u32
    }

    fn level_count(&self) -> u32 {
        self.levels.len() as u32
    }

    // 64 steps for each unknown i with a bound on x(i) − x(u), where u is the row's first unknown; refused, a few steps.
    fn put(&mut self, row: Row) -> Result<(), Refusal> {
        check_put(SIZES, self.row_count(), row)?;
        self.check_point(row)?;
        self.accept(row);
        Ok(())
    }

    // One copy of the matrix.
    fn push(&mut self) -> Result<(), Refusal> {
        check_push(SIZES, self.level_count())?;
        self.levels.push_reserved(Level {
            count: self.rows.len(),
            matrix: self.matrix,
        });
        Ok(())
    }

    // One copy of the matrix, and a step for each row that goes.
    fn pop(&mut self) -> Result<(), Refusal> {
        let level = self.levels.pop().ok_or(Refusal::NoLevel)?;
        self.rows.truncate(level.count);
        self.matrix = level.matrix;
        Ok(())
    }

    // Constant: one read.
    fn tightest(&mut self, side: Side) -> Result<Option<i64>, Refusal> {
        check_side(SIZES, side)?;
        Ok(self.greatest(side))
    }
}

// What starts dense theories.
#[derive(Clone, Copy, Debug)]
pub struct OverDense;

impl Start for OverDense {
    type Made = Dense;

    ghost starts = { λ _. bottom_sizes };

    fn start(self, alloc: Global) -> Result<Dense, AllocError> {
        Dense::new(alloc)
    }
}
