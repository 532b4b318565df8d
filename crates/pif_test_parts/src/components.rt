//! Histories of three groups of two threads, each with a mutex of its own, judged component by component.
use pif_components::judge_components;
use pif_history_model::{Fact, HistoryLimits, Line, Protocol};
use pif_parts::PartVerdict;
use pif_search::{Stop, Unwatched, push};
use pif_types::{Answer, Errno, Kind, MutexId, Request, Tid};
use std::alloc::Global;
use std::rt::HostRuntime;

/// So much may be added.
const LIMITS: HistoryLimits = HistoryLimits {
    threads: 6,
    mutexes: 3,
    conds: 1,
    signals: 9,
};

/// The thread of this number, from 1.
fn thread(number: u32) -> Tid {
    Tid::new(number.max(1)).unwrap()
}

/// The mutex of this number, from 1.
fn mutex(number: u32) -> MutexId {
    MutexId::new(number.max(1)).unwrap()
}

/// A group: the number of the first of its two threads, and of its mutex.
#[derive(Clone, Copy)]
struct Group {
    first: u32,
    mutex: u32,
}

/// The three groups: threads 1 and 2 with mutex 1, 3 and 4 with 2, 5 and 6 with 3.
const GROUPS: [Group; 3] = [
    Group { first: 1, mutex: 1 },
    Group { first: 3, mutex: 2 },
    Group { first: 5, mutex: 3 },
];

/// What a thread of a group does next.
#[derive(Clone, Copy)]
enum Turn {
    /// The first thread begins to lock.
    FirstLocks,
    /// It is answered 0: of its lock, or of its unlock.
    FirstIsAnswered,
    /// The second thread begins to lock.
    SecondLocks,
    /// It is answered: of its lock, or of its unlock.
    SecondIsAnswered(Answer),
    /// The first thread begins to unlock.
    FirstUnlocks,
    /// The second thread begins to unlock.
    SecondUnlocks,
}

/// The second thread waits until the first unlocks.
const LEGAL: [Turn; 8] = [
    Turn::FirstLocks,
    Turn::FirstIsAnswered,
    Turn::SecondLocks,
    Turn::FirstUnlocks,
    Turn::FirstIsAnswered,
    Turn::SecondIsAnswered(0),
    Turn::SecondUnlocks,
    Turn::SecondIsAnswered(0),
];

/// The second thread has the mutex while the first holds it.
const BOTH_HOLD: [Turn; 8] = [
    Turn::FirstLocks,
    Turn::FirstIsAnswered,
    Turn::SecondLocks,
    Turn::SecondIsAnswered(0),
    Turn::FirstUnlocks,
    Turn::FirstIsAnswered,
    Turn::SecondUnlocks,
    Turn::SecondIsAnswered(0),
];

/// The line of a turn of a group.
fn line_of(group: Group, turn: Turn) -> Line {
    let first = thread(group.first);
    let second = thread(group.first.saturating_add(1));
    let mutex = mutex(group.mutex);
    match turn {
        Turn::FirstLocks => Line::Begin(first, Request::Lock(mutex)),
        Turn::FirstIsAnswered => Line::Answer(first, 0),
        Turn::SecondLocks => Line::Begin(second, Request::Lock(mutex)),
        Turn::SecondIsAnswered(answer) => Line::Answer(second, answer),
        Turn::FirstUnlocks => Line::Begin(first, Request::Unlock(mutex)),
        Turn::SecondUnlocks => Line::Begin(second, Request::Unlock(mutex)),
    }
}

/// Six threads, and three mutexes: nine lines.
fn added(alloc: Global) -> Result<Vec<Line>, Stop> {
    let _no_request: Option<Request> = None;
    let _no_fact: Option<Fact> = None;
    let mut lines = Vec::new(alloc);
    for _ in 0..6_usize {
        push(&mut lines, Line::Thread(10))?;
    }
    for _ in 0..3_usize {
        push(
            &mut lines,
            Line::Mutex(Kind::Normal, false, Protocol::PrioInherit),
        )?;
    }
    Ok(lines)
}

/// The groups take their turns one after the other: turn n of group g, each from 0, is line 10 + 3 n + g.
fn of_groups(
    alloc: Global,
    first: &[Turn; 8],
    second: &[Turn; 8],
    third: &[Turn; 8],
) -> Result<Vec<Line>, Stop> {
    let _no_request: Option<Request> = None;
    let _no_fact: Option<Fact> = None;
    let mut lines = added(alloc)?;
    for turn in 0..8_usize {
        push(&mut lines, line_of(GROUPS[0], first[turn]))?;
        push(&mut lines, line_of(GROUPS[1], second[turn]))?;
        push(&mut lines, line_of(GROUPS[2], third[turn]))?;
    }
    Ok(lines)
}

/// The verdict on three groups.
fn verdict(
    alloc: Global,
    first: &[Turn; 8],
    second: &[Turn; 8],
    third: &[Turn; 8],
    states: usize,
) -> Result<PartVerdict, Stop> {
    let lines = of_groups(alloc, first, second, third)?;
    judge_components(alloc, LIMITS, lines.as_slice(), states, &mut Unwatched)
}

/// The verdict on these lines behind the additions.
fn verdict_behind(alloc: Global, lines: &[Line]) -> Result<PartVerdict, Stop> {
    let _no_request: Option<Request> = None;
    let _no_fact: Option<Fact> = None;
    let mut all = added(alloc)?;
    all.extend_from_slice(lines)?;
    judge_components(alloc, LIMITS, all.as_slice(), 1_000, &mut Unwatched)
}

/// What a verdict says in one number: 0 if it is legal, and the line if it is illegal.
fn line_told(verdict: PartVerdict) -> Option<usize> {
    match verdict {
        PartVerdict::Legal => Some(0),
        PartVerdict::Illegal(line) => Some(line),
        PartVerdict::Undecided => None,
    }
}

#[test]
fn legal_groups_are_legal(rt: HostRuntime) -> Result<(), Stop> {
    let verdict = verdict(rt.alloc(), &LEGAL, &LEGAL, &LEGAL, 1_000)?;
    assert!(rt; line_told(verdict) == Some(0));
    Ok(())
}

#[test]
fn the_line_of_a_group_is_told_among_all(rt: HostRuntime) -> Result<(), Stop> {
    // Turn 3 of the second group.
    let verdict = verdict(rt.alloc(), &LEGAL, &BOTH_HOLD, &LEGAL, 1_000)?;
    assert!(rt; line_told(verdict) == Some(20));
    Ok(())
}

#[test]
fn the_least_line_is_told(rt: HostRuntime) -> Result<(), Stop> {
    // Turn 5 of the first group is one later than turn 3 of the third.
    let mut busy = LEGAL;
    busy[5] = Turn::SecondIsAnswered(Errno::Busy.number());
    let verdict = verdict(rt.alloc(), &busy, &LEGAL, &BOTH_HOLD, 1_000)?;
    assert!(rt; line_told(verdict) == Some(21));
    Ok(())
}

#[test]
fn no_line_is_told_if_a_group_is_undecided(rt: HostRuntime) -> Result<(), Stop> {
    let verdict = verdict(rt.alloc(), &LEGAL, &BOTH_HOLD, &LEGAL, 0)?;
    assert!(rt; line_told(verdict) == None);
    Ok(())
}

#[test]
fn a_change_of_priority_joins_threads(rt: HostRuntime) -> Result<(), Stop> {
    let lines = [
        Line::Begin(thread(1), Request::SetPrio(thread(3), 50)),
        Line::Answer(thread(1), 0),
        Line::Prio(thread(3), 50),
    ];
    let verdict = verdict_behind(rt.alloc(), &lines)?;
    assert!(rt; line_told(verdict) == Some(0));
    Ok(())
}

#[test]
fn what_was_not_added_is_illegal(rt: HostRuntime) -> Result<(), Stop> {
    let lines = [Line::Begin(thread(1), Request::Lock(mutex(4)))];
    let verdict = verdict_behind(rt.alloc(), &lines)?;
    assert!(rt; line_told(verdict) == Some(10));
    Ok(())
}
