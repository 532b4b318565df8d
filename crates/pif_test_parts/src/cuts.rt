//! Histories of two threads, cut by hand.
use pif_history_model::{Fact, HistoryLimits, Line, Protocol};
use pif_parts::{Part, PartVerdict, Span, WholeVerdict, joined, parts_of};
use pif_search::{Stop, push};
use pif_types::{Answer, CondId, Kind, MutexId, Request, Tid};
use std::alloc::Global;
use std::rt::HostRuntime;

/// The thread of this number, from 1.
fn thread(number: u32) -> Tid {
    Tid::new(number.max(1)).unwrap()
}

/// The mutex.
fn mutex() -> MutexId {
    MutexId::new(1).unwrap()
}

/// The condition variable.
fn cond() -> CondId {
    CondId::new(1).unwrap()
}

/// A thread makes a call, which is answered so.
fn call(lines: &mut Vec<Line>, number: u32, request: &Request, answer: Answer) -> Result<(), Stop> {
    let _no_fact: Option<Fact> = None;
    push(lines, Line::Begin(thread(number), *request))?;
    push(lines, Line::Answer(thread(number), answer))
}

/// A thread locks the mutex and unlocks it.
fn turn(lines: &mut Vec<Line>, number: u32) -> Result<(), Stop> {
    call(lines, number, &Request::Lock(mutex()), 0)?;
    call(lines, number, &Request::Unlock(mutex()), 0)
}

/// Two threads of priorities 10 and 20, a robust mutex, and a variable.
fn added(alloc: Global) -> Result<Vec<Line>, Stop> {
    let _no_request: Option<Request> = None;
    let _no_fact: Option<Fact> = None;
    let mut lines = Vec::new(alloc);
    push(&mut lines, Line::Thread(10))?;
    push(&mut lines, Line::Thread(20))?;
    push(
        &mut lines,
        Line::Mutex(Kind::Normal, true, Protocol::PrioInherit),
    )?;
    push(&mut lines, Line::Cond(mutex()))?;
    Ok(lines)
}

/// Limits that the histories of this file keep, with this limit of signals and broadcasts on a variable.
fn with_signals(signals: u32) -> HistoryLimits {
    HistoryLimits {
        threads: 2,
        mutexes: 1,
        conds: 1,
        signals,
    }
}

/// The last part of these lines, with a limit of so many uses, whose parts have at least ten lines: how many lines come
/// before it, how many it has, and with how many it begins.
fn last_part(alloc: Global, signals: u32, lines: &[Line]) -> Result<(usize, usize, usize), Stop> {
    let _no_request: Option<Request> = None;
    let _no_fact: Option<Fact> = None;
    let parts = parts_of(alloc, with_signals(signals), lines, 10)?;
    let mut last = (0, 0, 0);
    for part in parts.as_slice() {
        last = (part.first, part.count, part.before.len());
    }
    Ok(last)
}

/// t1 changes its priority, waits in vain, and takes its turn; t2 signals, and takes its own.
pub fn whole(alloc: Global) -> Result<Vec<Line>, Stop> {
    let _no_fact: Option<Fact> = None;
    let mut lines = added(alloc)?;
    turn(&mut lines, 1)?;
    call(&mut lines, 1, &Request::SetPrio(thread(1), 30), 0)?;
    call(&mut lines, 2, &Request::Signal(cond()), 0)?;
    push(&mut lines, Line::Tick(7))?;
    turn(&mut lines, 2)?;
    turn(&mut lines, 1)?;
    Ok(lines)
}

#[test]
fn a_history_is_cut_where_it_is_quiet(rt: HostRuntime) -> Result<(), Stop> {
    let lines = whole(rt.alloc())?;
    // Behind ten lines: two threads, a mutex and a variable. The signal comes later.
    let last = last_part(rt.alloc(), 30, lines.as_slice())?;
    assert!(rt; last == (10, 11, 4), "the part behind a setprio");
    Ok(())
}

/// t2 signals, and the threads take turns: ten lines, and eight behind them.
fn used(alloc: Global) -> Result<Vec<Line>, Stop> {
    let _no_fact: Option<Fact> = None;
    let mut lines = added(alloc)?;
    call(&mut lines, 2, &Request::Signal(cond()), 0)?;
    turn(&mut lines, 1)?;
    turn(&mut lines, 2)?;
    turn(&mut lines, 1)?;
    Ok(lines)
}

#[test]
fn a_part_that_stays_below_the_limit_of_uses_begins_without_signals(
    rt: HostRuntime,
) -> Result<(), Stop> {
    let lines = used(rt.alloc())?;
    // One use, and at most one with each of the eight lines that follow: nine, which are fewer than ten.
    let last = last_part(rt.alloc(), 10, lines.as_slice())?;
    assert!(rt; last == (10, 8, 4), "two threads, a mutex and a variable");
    Ok(())
}

#[test]
fn a_part_that_may_come_to_the_limit_of_uses_begins_with_signals(
    rt: HostRuntime,
) -> Result<(), Stop> {
    let lines = used(rt.alloc())?;
    // Nine might come to the limit of nine. The one signal is two lines.
    let last = last_part(rt.alloc(), 9, lines.as_slice())?;
    assert!(rt; last == (10, 8, 6), "a signal, too");
    Ok(())
}

#[test]
fn who_holds_a_mutex_keeps_a_history_together(rt: HostRuntime) -> Result<(), Stop> {
    let mut lines = added(rt.alloc())?;
    hold(&mut lines)?;
    let last = last_part(rt.alloc(), 30, lines.as_slice())?;
    assert!(rt; last == (0, 20, 0), "a mutex is held");
    Ok(())
}

/// t1 takes the mutex, and t2 tries to, eight times.
fn hold(lines: &mut Vec<Line>) -> Result<(), Stop> {
    call(lines, 1, &Request::Lock(mutex()), 0)?;
    for _ in 0..7 {
        call(lines, 2, &Request::TryLock(mutex()), 16)?;
    }
    Ok(())
}

#[test]
fn an_owner_that_ended_keeps_a_history_together(rt: HostRuntime) -> Result<(), Stop> {
    let mut lines = added(rt.alloc())?;
    die(&mut lines)?;
    let last = last_part(rt.alloc(), 30, lines.as_slice())?;
    assert!(rt; last == (0, 21, 0), "a robust mutex was inconsistent");
    Ok(())
}

/// t1 ends with the mutex, and t2 makes it consistent.
fn die(lines: &mut Vec<Line>) -> Result<(), Stop> {
    let _no_request: Option<Request> = None;
    let _no_fact: Option<Fact> = None;
    call(lines, 1, &Request::Lock(mutex()), 0)?;
    push(lines, Line::End(thread(1)))?;
    call(lines, 2, &Request::Lock(mutex()), 130)?;
    call(lines, 2, &Request::Consistent(mutex()), 0)?;
    call(lines, 2, &Request::Unlock(mutex()), 0)?;
    turn(lines, 2)?;
    turn(lines, 2)
}

/// Two parts of ten lines, the second behind four others.
const SPANS: [Span; 2] = [
    Span {
        first: 0,
        count: 10,
        before: 0,
    },
    Span {
        first: 10,
        count: 10,
        before: 4,
    },
];

#[test]
fn the_first_part_that_is_not_legal_decides(rt: HostRuntime) {
    // Line 7 of the second part, behind its four, is its third, and so line 13 of the whole.
    let verdicts = [PartVerdict::Legal, PartVerdict::Illegal(7)];
    let found = joined(&SPANS, &verdicts);
    assert!(rt; found == WholeVerdict::Illegal(13), "the second part");
    // Its first four lines stand for others, which are legal.
    let verdicts = [PartVerdict::Legal, PartVerdict::Illegal(4)];
    let found = joined(&SPANS, &verdicts);
    assert!(rt; found == WholeVerdict::Foreign(1), "no line of it");
}
