use crate::script::*;
use dense::Dense;
use engine::Engine;
use histories::{Answer, Call, Reply};
use standing::Standing;
use standing::start::Cause;
use std::alloc::Global;
use std::process::Abort;
use std::test::Fail;
use theory::Theory;
use theory::refusal::Refusal;
use theory::row::{Row, Sign};

// Each call gets the answer beside it.
fn check_table(rt: &impl Abort, alloc: Global, table: &[(Call, Answer)]) -> Result<(), Fail> {
    let calls: Vec<Call> = table.iter().map(|line| line.0).collect(alloc)?;
    let both = Both::play(alloc, calls.as_slice())?;
    for (place, line) in table.iter().enumerate() {
        assert!(rt; both.answer(place, line.1));
    }
    assert!(rt; both.agree());
    Ok(())
}

#[test]
fn chains_of_differences(rt: HostRuntime) -> Result<(), Fail> {
    check_table(
        &rt,
        rt.alloc(),
        &[
            (Call::Tightest(difference(0, 2)), Ok(Reply::Value(None))),
            (offer(difference(0, 1), 3), Ok(Reply::Done)),
            (offer(difference(1, 2), -5), Ok(Reply::Done)),
            (Call::Tightest(difference(0, 2)), Ok(Reply::Value(Some(-2)))),
            (offer(difference(2, 0), 1), Err(Refusal::Contradiction)),
            (Call::Push, Ok(Reply::Done)),
            (offer(difference(2, 0), 2), Ok(Reply::Done)),
            (Call::Tightest(difference(2, 0)), Ok(Reply::Value(Some(2)))),
            (Call::Pop, Ok(Reply::Done)),
            (Call::Tightest(difference(2, 0)), Ok(Reply::Value(None))),
            (Call::RowAt(2), Err(Refusal::NoRow)),
        ],
    )
}

#[test]
fn the_first_broken_rule_is_told(rt: HostRuntime) -> Result<(), Fail> {
    let plus = Sign::Plus;
    let minus = Sign::Minus;
    let zero = Sign::Zero;
    check_table(
        &rt,
        rt.alloc(),
        &[
            (offer(side(zero, 70, minus, 1), 1), Err(Refusal::Signs)),
            (offer(side(plus, 0, zero, 1), 1), Err(Refusal::Signs)),
            (Call::Tightest(side(zero, 0, zero, 0)), Err(Refusal::Signs)),
            (offer(difference(64, 64), 1), Err(Refusal::Unknown)),
            (offer(difference(63, 64), 1), Err(Refusal::Unknown)),
            (offer(side(plus, 5, plus, 5), 1), Err(Refusal::Twice)),
            (
                offer(side(plus, 5, plus, 6), 5_000_000),
                Err(Refusal::Breadth),
            ),
            (
                Call::Tightest(side(plus, 5, zero, 0)),
                Err(Refusal::Breadth),
            ),
            (offer(difference(0, 1), 4_000_001), Err(Refusal::Reach)),
            (offer(difference(0, 1), -4_000_001), Err(Refusal::Reach)),
            (offer(difference(0, 1), -4_000_000), Ok(Reply::Done)),
            (
                offer(difference(1, 0), 3_999_999),
                Err(Refusal::Contradiction),
            ),
            (offer(difference(1, 0), 4_000_000), Ok(Reply::Done)),
            (Call::Pop, Err(Refusal::NoLevel)),
        ],
    )
}

#[test]
fn levels_to_the_full_depth(rt: HostRuntime) -> Result<(), Fail> {
    let alloc = rt.alloc();
    let mut calls = vec![in alloc; Call::Push; 129]?;
    calls.resize(258, Call::Pop)?;
    let both = Both::play(alloc, calls.as_slice())?;
    assert!(rt; both.answer(127, Ok(Reply::Done)));
    assert!(rt; both.answer(128, Err(Refusal::Depth)));
    assert!(rt; both.answer(256, Ok(Reply::Done)));
    assert!(rt; both.answer(257, Err(Refusal::NoLevel)));
    Ok(())
}

#[test]
fn rows_to_the_full_space(rt: HostRuntime) -> Result<(), Fail> {
    let alloc = rt.alloc();
    let mut calls = vec![in alloc; Call::Push]?;
    calls.resize(1026, offer(difference(0, 1), 5))?;
    calls.extend_from_slice(&[
        offer(difference(0, 1), 4_000_001),
        offer(difference(1, 0), -6),
        Call::Pop,
        offer(difference(1, 0), -6),
    ])?;
    let both = Both::play(alloc, calls.as_slice())?;
    assert!(rt; both.answer(1024, Ok(Reply::Done)));
    assert!(rt; both.answer(1025, Err(Refusal::Space)));
    assert!(rt; both.answer(1026, Err(Refusal::Reach)));
    assert!(rt; both.answer(1027, Err(Refusal::Space)));
    assert!(rt; both.answer(1028, Ok(Reply::Done)));
    assert!(rt; both.answer(1029, Ok(Reply::Done)));
    assert!(rt; both.dense.rows == 1 && both.sparse.rows == 1);
    Ok(())
}

#[test]
fn an_engine_starts_over_an_empty_theory_only(rt: HostRuntime) -> Result<(), Fail> {
    let alloc = rt.alloc();
    let mut theory = Dense::new(alloc)?;
    theory.put(Row {
        side: difference(0, 1),
        c: 3,
    })?;
    match Engine::new(alloc, theory) {
        Ok(_) => Err(Fail::new("started")),
        Err(unstarted) => {
            assert!(rt; unstarted.cause == Cause::Refused(Refusal::Unfit));
            assert_eq!(rt; unstarted.theory.row_count(), 1);
            Ok(())
        }
    }
}

#[test]
fn what_stands_starts_over_an_empty_theory(rt: HostRuntime) -> Result<(), Fail> {
    let theory = Dense::new(rt.alloc())?;
    let sizes = theory.sizes();
    match Standing::over(rt.alloc(), theory, sizes) {
        Ok((_theory, standing)) => {
            assert_eq!(rt; standing.row_count(), 0);
            assert_eq!(rt; standing.level_count(), 0);
            assert!(rt; standing.sizes() == sizes);
            Ok(())
        }
        Err(_) => Err(Fail::new("not started")),
    }
}

// A thousand levels opened and closed, with rows between: the sparse bottom then answers as a new engine does.
#[test]
fn many_levels_leave_nothing_behind(rt: HostRuntime) -> Result<(), Fail> {
    let alloc = rt.alloc();
    let mut calls = vec![in alloc; offer(difference(0, 1), 3)]?;
    for _ in 0..1000 {
        calls.extend_from_slice(&[
            Call::Push,
            offer(difference(1, 2), -4_000_000),
            offer(difference(2, 3), -4_000_000),
            Call::Pop,
        ])?;
    }
    calls.extend_from_slice(&[
        offer(difference(1, 2), -5),
        Call::Tightest(difference(0, 2)),
    ])?;
    let both = Both::play(alloc, calls.as_slice())?;
    assert!(rt; both.answer(4002, Ok(Reply::Value(Some(-2)))));
    assert!(rt; both.sparse.taken == 2 && both.sparse.first == both.sparse.second);
    Ok(())
}

// Slices that are one element short are refused, whichever they are.
#[test]
fn short_memory_is_refused(rt: HostRuntime) {
    assert!(rt; memory_is_enough(1024, 128, 128, 64, 64));
    assert!(rt; !memory_is_enough(1023, 128, 128, 64, 64));
    assert!(rt; !memory_is_enough(1024, 127, 128, 64, 64));
    assert!(rt; !memory_is_enough(1024, 128, 127, 64, 64));
    assert!(rt; !memory_is_enough(1024, 128, 128, 63, 64));
    assert!(rt; !memory_is_enough(1024, 128, 128, 64, 63));
}
