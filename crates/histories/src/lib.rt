// Histories of engine calls. `run` makes a list of calls on an engine over one theory, tells a second engine over
// another theory of the same sizes what then stands, and makes one further call on both; `answers` makes calls on one engine.
// The contract of `run` is the law that no answer depends on more than the standing rows and open levels.
#![tactic(auto)]

ghost use Rattle.std.specs.Prelude.{◌≡◌, ◌≤◌, ◌++◌, map, length, Some, IfOk, MatchResult, OnOk};
ghost use Rattle.histories.specs.Steps.{Step};
ghost use Rattle.histories.specs.Runs.{Run, Answered};
ghost use Rattle.histories.specs.Told.{part, told_from, done_count, Rising, Tells};
ghost use Rattle.histories.specs.Law.{Law, Faulted};
ghost use Rattle.histories.specs.Text.{fault_text};
ghost use Rattle.histories.specs.declared.Call.TheVariants.{Offer as TheOffer};
ghost use Rattle.histories.specs.declared.Fault.TheVariants.{Memory};
ghost use Rattle.theory.specs.Meaning.{empty};

pub mod text;

use engine::Engine;
use std::alloc::{AllocError, Global};
use std::error::Error;
use std::fmt;
use theory::refusal::Refusal;
use theory::row::{Row, Side};
use theory::{Start, Theory};

#[derive(Clone, Copy, PartialEq, Eq, Debug)]
pub enum Call {
    Push,
    Pop,
    Offer(Row),
    Tightest(Side),
    RowAt(u32),
}

// What is answered to a call that is taken.
#[derive(Clone, Copy, PartialEq, Eq, Debug)]
pub enum Reply {
    Done,
    Value(Option<i64>),
    Found(Row),
}

pub type Answer = Result<Reply, Refusal>;

// What a history showed: the answers of its calls, how many rows and levels then stood, how many of the calls that told
// them to the second engine were taken, and what both engines answered to the call after.
#[derive(Drop)]
pub struct History {
    pub answers: Vec<Answer>,
    pub rows: usize,
    pub levels: usize,
    pub taken: usize,
    pub first: Answer,
    pub second: Answer,
}

// Why there is no history: want of memory, or two theories of different sizes.
#[derive(Clone, Copy, PartialEq, Eq, Debug)]
pub enum Fault {
    Memory,
    Unlike,
}

impl fmt::Display for Fault {
    ghost output = { λ f. Some (fault_text f) };

    fn fmt<W: fmt::Write>(&self, f: &mut fmt::Formatter<W>) -> fmt::Result {
        f.write_str(match self {
            Fault::Memory => "out of memory",
            Fault::Unlike => "theories of different sizes",
        })
    }
}

impl Error for Fault {}

impl From<AllocError> for Fault {
    ghost from_gives = { λ _ r. r ≡ Memory };

    fn from(_: AllocError) -> Fault {
        Fault::Memory
    }
}

// One call on an engine.
fn perform<T: Theory>(engine: &mut Engine<T>, call: Call) -> Answer
    ensures { Step engine.old call result engine.new }
{
    match call {
        Call::Push => engine.push().map(|()| Reply::Done),
        Call::Pop => engine.pop().map(|()| Reply::Done),
        Call::Offer(row) => engine.offer(row).map(|()| Reply::Done),
        Call::Tightest(side) => engine.tightest(side).map(Reply::Value),
        Call::RowAt(place) => engine.row(place).map(Reply::Found),
    }
}

// The calls, one after the other, and their answers.
fn play<T: Theory>(
    alloc: Global,
    engine: &mut Engine<T>,
    calls: &[Call],
) -> Result<Vec<Answer>, AllocError>
    ensures { IfOk result (λ answers. Run engine.old calls.now answers.items engine.new) }
{
    let mut answers = Vec::with_capacity(alloc, calls.len())?;
    for call in calls {
        answers.push_reserved(perform(engine, *call));
    }
    Ok(answers)
}

fn tell_part(calls: &mut Vec<Call>, rows: &[Row], from: usize, to: usize) -> Result<(), AllocError>
    requires rising { from ≤ to }
    requires within { to ≤ length rows.now }
    ensures { OnOk result (calls.new.items ≡ calls.old.items ++ map TheOffer (part from to rows.now)) }
{
    calls.extend(rows[from..to].iter().map(|row| Call::Offer(*row)))
}

// The calls that tell a new engine these rows and levels.
fn retelling(alloc: Global, rows: &[Row], levels: &[u32]) -> Result<Vec<Call>, AllocError>
    requires { Rising 0 levels.now (length rows.now) }
    ensures { IfOk result (λ v. v.items ≡ told_from 0 rows.now levels.now) }
{
    let mut calls = Vec::new(alloc);
    let mut from = 0;
    for level in levels {
        let to = *level as usize;
        tell_part(&mut calls, rows, from, to)?;
        calls.push(Call::Push)?;
        from = to;
    }
    tell_part(&mut calls, rows, from, rows.len())?;
    Ok(calls)
}

fn count_done(answers: &[Answer]) -> usize
    ensures { result ≡ done_count answers.now }
{
    answers
        .iter()
        .filter(|answer| matches!(answer, Ok(Reply::Done)))
        .count()
}

// The theory is empty, so only memory can be wanting.
fn begin<S: Start>(alloc: Global, start: S) -> Result<Engine<S::Made>, AllocError>
    ensures { IfOk result (λ e. e ≡ empty (S.starts start)) }
{
    let theory = start.start(alloc)?;
    match Engine::new(alloc, theory) {
        Ok(engine) => Ok(engine),
        Err(_) => Err(AllocError),
    }
}

// Makes the calls on one new engine over the theory, and keeps no more of it than the answers.
pub fn answers<S: Start>(alloc: Global, start: S, calls: &[Call]) -> Result<Vec<Answer>, AllocError>
    ensures { IfOk result (λ given. Answered (empty (S.starts start)) calls.now given.items) }
{
    let mut engine = begin(alloc, start)?;
    play(alloc, &mut engine, calls)
}

// Tells an engine these rows and levels, and answers how many of the calls were taken.
fn tell<T: Theory>(
    alloc: Global,
    engine: &mut Engine<T>,
    rows: &[Row],
    levels: &[u32],
) -> Result<usize, AllocError>
    requires { Rising 0 levels.now (length rows.now) }
    ensures { IfOk result (Tells engine.old rows.now levels.now engine.new) }
{
    let telling = retelling(alloc, rows, levels)?;
    let answers = play(alloc, engine, telling.as_slice())?;
    Ok(count_done(answers.as_slice()))
}

// Makes the calls on the first engine, tells the second what then stands, and makes the next call on both.
fn compare<A: Theory, B: Theory>(
    alloc: Global,
    one: &mut Engine<A>,
    other: &mut Engine<B>,
    calls: &[Call],
    next: Call,
) -> Result<History, AllocError>
    requires fresh { one.old ≡ empty one.old.sizes }
    requires alike { other.old ≡ empty one.old.sizes }
    ensures { IfOk result (Law one.old.sizes calls.now next) }
{
    let answers = play(alloc, one, calls)?;
    let taken = tell(alloc, other, one.rows(), one.levels())?;
    let rows = one.rows().len();
    let levels = one.levels().len();
    Ok(History {
        answers,
        rows,
        levels,
        taken,
        first: perform(one, next),
        second: perform(other, next),
    })
}

// Makes the calls on an engine over the first theory, tells a new engine over the second what then stands, and makes
// the next call on both.
pub fn run<P: Start, Q: Start + Drop>(
    alloc: Global,
    first: P,
    second: Q,
    calls: &[Call],
    next: Call,
) -> Result<History, Fault>
    ensures { MatchResult result (Law (P.starts first) calls.now next) (Faulted (P.starts first) (Q.starts second)) }
{
    let mut one = begin(alloc, first)?;
    let mut other = begin(alloc, second)?;
    if one.sizes() != other.sizes() {
        return Err(Fault::Unlike);
    }
    Ok(compare(alloc, &mut one, &mut other, calls, next)?)
}
