// Measures what a put and a tightest question cost over a tower, and writes it to standard error.
ghost use Rattle.std.specs.Prelude.{◌≡◌, ◌<◌, IfOk, vec_len};

use crate::dice::Dice;
use crate::oracle::value;
use std::alloc::{AllocError, Global};
use std::io;
use std::time::Instant;
use theory::row::{Row, Side};
use theory::{Start, Theory};
use towers::{Tower, Visit, over};

// What is put and asked, the same for every tower.
#[derive(Drop)]
pub struct Load {
    pub rows: Vec<Row>,
    pub sides: Vec<Side>,
}

// A second of the day for each unknown, at which all rows of the load are met.
fn hidden_value(unknown: u32) -> i64 {
    i64::from(unknown) * 7919 % 86_400
}

impl Load {
    // Rows over the sides that are drawn, met at the hidden values, each with some room to spare.
    pub fn new<D: Fn(&mut Dice) -> Side>(
        alloc: Global,
        unknowns: u32,
        count: u32,
        draw: D,
    ) -> Result<Load, AllocError>
        requires some { 0 < unknowns }
        requires callable { D.IsAlwaysCallable draw }
        ensures rows { IfOk result (λ load. vec_len load.rows ≡ count) }
        ensures sides { IfOk result (λ load. vec_len load.sides ≡ count) }
    {
        let mut load = Load {
            rows: Vec::new(alloc),
            sides: Vec::new(alloc),
        };
        let mut dice = Dice::new(7, unknowns);
        for _ in 0..count {
            let side = draw(&mut dice);
            let room = dice.roll(1000) as i64;
            let c = value(side, hidden_value).wrapping_add(room);
            load.rows.push(Row { side, c })?;
            load.sides.push(draw(&mut dice))?;
        }
        Ok(load)
    }
}

// How many of the rows are taken.
fn put_all<T: Theory>(theory: &mut T, rows: &[Row]) -> usize {
    rows.iter().filter(|row| theory.put(**row).is_ok()).count()
}

// How many of the sides have a greatest value.
fn ask_all<T: Theory>(theory: &mut T, sides: &[Side]) -> usize {
    sides
        .iter()
        .filter(|side| matches!(theory.tightest(**side), Ok(Some(_))))
        .count()
}

fn each(nanos: u128, count: usize) -> u128 {
    nanos.checked_div(count as u128).unwrap_or(0)
}

#[derive(Drop)]
struct Measuring<'a> {
    rt: &'a HostRuntime,
    tower: Tower,
    load: &'a Load,
}

impl<'a> Visit for Measuring<'a> {
    type Outcome = io::Result<()>;

    fn visit<S: Start + Drop>(self, start: S) -> io::Result<()> {
        let Measuring { rt, tower, load } = self;
        let mut theory = start.start(rt.alloc())?;
        let begun = Instant::now(rt)?;
        let taken = put_all(&mut theory, load.rows.as_slice());
        let put = each(begun.elapsed(rt)?.as_nanos(), load.rows.len());
        let asked = Instant::now(rt)?;
        let bounded = ask_all(&mut theory, load.sides.as_slice());
        let ask = each(asked.elapsed(rt)?.as_nanos(), load.sides.len());
        eprintln!(rt;
            "{tower}: {taken} rows taken, {put} ns a put; {bounded} sides bounded, {ask} ns a tightest"
        )
    }
}

pub fn measure<'a>(rt: &'a HostRuntime, tower: Tower, load: &'a Load) -> io::Result<()> {
    over(tower, Measuring { rt, tower, load })
}
