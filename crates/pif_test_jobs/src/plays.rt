//! Histories of six threads that lock, try and unlock a mutex, wait and signal: how often a player plays their lines
//! until it finds a run, and how few states an exact search makes of calls that are open at once.
use crate::numbers::{cond, thread};
use crate::told::Told;
use pif_history::{find_run, judge_lines};
use pif_history_machine::Verdict;
use pif_history_model::{Fact, HistoryLimits, Line, Protocol};
use pif_rules_model::no_rules;
use pif_search::{Stop, push};
use pif_types::{Answer, Kind, MutexId, Request};
use std::alloc::Global;

/// How many threads there are.
const THREADS: u32 = 6;

/// So much may be added.
const LIMITS: HistoryLimits = HistoryLimits {
    threads: THREADS,
    mutexes: 1,
    conds: 1,
    signals: 9,
};

/// What is seen of a thread.
#[derive(Clone, Copy)]
enum Seen {
    Lock,
    TryLock,
    Unlock,
    Wait,
    TimedWait(u32),
    Signal,
    Broadcast,
    Answered(Answer),
    /// It is this late, for all.
    Time(u32),
}

const DONE: Seen = Seen::Answered(0);

/// What is seen of threads, one after another.
type Sight = (u32, Seen);

/// Two threads wait, and one signal wakes both. Then two others wait. One more, which waits until a deadline, is blocked
/// behind the next signal. So the last signal has to wake one of the two, and the one before must leave it blocked.
static THREE_SIGNALS: [Sight; 48] = [
    (5, Seen::Lock),
    (5, DONE),
    (5, Seen::Wait),
    (6, Seen::Lock),
    (6, DONE),
    (6, Seen::Wait),
    (4, Seen::Lock),
    (4, DONE),
    (4, Seen::Unlock),
    (4, DONE),
    (4, Seen::Signal),
    (4, DONE),
    (5, DONE),
    (5, Seen::Unlock),
    (5, DONE),
    (6, DONE),
    (6, Seen::Unlock),
    (6, DONE),
    (1, Seen::Lock),
    (1, DONE),
    (1, Seen::Wait),
    (2, Seen::Lock),
    (2, DONE),
    (2, Seen::Wait),
    (4, Seen::Lock),
    (4, DONE),
    (4, Seen::Unlock),
    (4, DONE),
    (4, Seen::Signal),
    (4, DONE),
    (2, DONE),
    (2, Seen::Unlock),
    (2, DONE),
    (3, Seen::Lock),
    (3, DONE),
    (3, Seen::TimedWait(9)),
    (4, Seen::Lock),
    (4, DONE),
    (4, Seen::Unlock),
    (4, DONE),
    (4, Seen::Signal),
    (4, DONE),
    (1, DONE),
    (1, Seen::Unlock),
    (1, DONE),
    (3, Seen::Time(9)),
    (3, Seen::Answered(110)),
    (3, Seen::Unlock),
];

/// A broadcast wakes a thread twice: it has used its variable when it wakes the first wait, and chooses when the other
/// thread, which was blocked before it began, has run out of time.
static SLOW_BROADCAST: [Sight; 23] = [
    (3, Seen::Lock),
    (3, DONE),
    (3, Seen::TimedWait(9)),
    (1, Seen::Lock),
    (1, DONE),
    (1, Seen::Wait),
    (4, Seen::Lock),
    (4, DONE),
    (4, Seen::Unlock),
    (4, DONE),
    (4, Seen::Broadcast),
    (1, DONE),
    (1, Seen::Wait),
    (2, Seen::Lock),
    (2, DONE),
    (2, Seen::Unlock),
    (2, DONE),
    (3, Seen::Time(9)),
    (3, Seen::Answered(110)),
    (3, Seen::Unlock),
    (3, DONE),
    (1, DONE),
    (4, DONE),
];

/// Each thread waits for one variable, one after another, with the mutex that it locked.
static WAITS: [Sight; 18] = [
    (1, Seen::Lock),
    (1, DONE),
    (1, Seen::Wait),
    (2, Seen::Lock),
    (2, DONE),
    (2, Seen::Wait),
    (3, Seen::Lock),
    (3, DONE),
    (3, Seen::Wait),
    (4, Seen::Lock),
    (4, DONE),
    (4, Seen::Wait),
    (5, Seen::Lock),
    (5, DONE),
    (5, Seen::Wait),
    (6, Seen::Lock),
    (6, DONE),
    (6, Seen::Wait),
];

/// The first thread owns a mutex.
static OWNED: [Sight; 2] = [(1, Seen::Lock), (1, DONE)];

/// All others try to lock it at once.
static TRIES: [Sight; 5] = [
    (2, Seen::TryLock),
    (3, Seen::TryLock),
    (4, Seen::TryLock),
    (5, Seen::TryLock),
    (6, Seen::TryLock),
];

/// And all are told that it is busy.
static BUSY: [Sight; 5] = [
    (2, Seen::Answered(16)),
    (3, Seen::Answered(16)),
    (4, Seen::Answered(16)),
    (5, Seen::Answered(16)),
    (6, Seen::Answered(16)),
];

/// The first thread is told that it may not wait, or not unlock, though it owned the mutex.
static REFUSED: [Sight; 2] = [(1, Seen::Unlock), (1, Seen::Answered(1))];

/// The line that tells this of a thread.
fn line_of(number: u32, seen: Seen) -> Line {
    let (thread, mutex, cond) = (thread(number), MutexId::default(), cond(1));
    let request = match seen {
        Seen::Lock => Request::Lock(mutex),
        Seen::TryLock => Request::TryLock(mutex),
        Seen::Unlock => Request::Unlock(mutex),
        Seen::Wait => Request::Wait(cond, mutex),
        Seen::TimedWait(time) => Request::TimedWait(cond, mutex, time),
        Seen::Signal => Request::Signal(cond),
        Seen::Broadcast => Request::Broadcast(cond),
        Seen::Answered(answer) => return Line::Answer(thread, answer),
        Seen::Time(time) => return Line::Tick(time),
    };
    Line::Begin(thread, request)
}

/// Lines that add the threads, a mutex, and a variable that is bound to it, and then tell these parts.
fn lines_of(alloc: Global, parts: &[&[Sight]]) -> Result<Vec<Line>, Stop> {
    // The check has to be told of the types of requests and facts, which lines hold.
    let _no_request: Option<Request> = None;
    let _no_fact: Option<Fact> = None;
    let mut lines = Vec::new(alloc);
    for _ in 0..THREADS {
        push(&mut lines, Line::Thread(10))?;
    }
    push(
        &mut lines,
        Line::Mutex(Kind::Normal, false, Protocol::PrioInherit),
    )?;
    push(&mut lines, Line::Cond(MutexId::default()))?;
    for sights in parts {
        for (thread, seen) in *sights {
            push(&mut lines, line_of(*thread, *seen))?;
        }
    }
    Ok(lines)
}

/// How often the lines that tell this are played until a run is found; none if none is.
fn plays_until_found(alloc: Global, sights: &[Sight]) -> Result<Option<usize>, Stop> {
    let lines = lines_of(alloc, &[sights])?;
    let mut told = Told::new(usize::MAX);
    let found = find_run(
        alloc,
        &no_rules(),
        LIMITS,
        lines.as_slice(),
        10_000,
        &mut told,
    )?;
    Ok(found.and(Some(told.plays)))
}

#[test]
fn lines_are_played_again_if_a_wake_up_must_be_chosen(rt: HostRuntime) -> Result<(), Stop> {
    let rows: [(&[Sight], usize); 4] = [
        // Nobody runs out of time.
        (&THREE_SIGNALS[..33], 1),
        // No signal has to wake two.
        (&THREE_SIGNALS[18..], 1),
        (&THREE_SIGNALS, 3),
        (&SLOW_BROADCAST, 2),
    ];
    for (sights, plays) in rows {
        let found = plays_until_found(rt.alloc(), sights)?;
        assert!(rt;
            found == Some(plays),
            "{plays} plays of {} lines",
            sights.len()
        );
    }
    Ok(())
}

/// The most states after a line of the last search, which is exact, if it says that the last line of these parts alone
/// is impossible.
fn most_states(alloc: Global, parts: &[&[Sight]]) -> Result<Option<usize>, Stop> {
    let lines = lines_of(alloc, parts)?;
    let mut told = Told::new(usize::MAX);
    let verdict = judge_lines(
        alloc,
        &no_rules(),
        LIMITS,
        lines.as_slice(),
        10_000,
        &mut told,
    )?;
    Ok(match verdict {
        Verdict::Illegal(n) if n == lines.len() => Some(told.greatest),
        _ => None,
    })
}

/// A wait that has begun is fresh, has found the mutex, has joined those that are blocked, or has given the mutex up:
/// that makes 4 states behind its line. The waits before it have all given the mutex up, or it wouldn't have been locked
/// since. Behind the next lock's begin there is one more: the lock has taken the mutex, which the wait gave up.
///
/// A trylock that has begun is fresh, or has failed at once: that makes 2 states behind its line, since those before it
/// have failed. The lock before them made 2, too: it was fresh, or had the mutex.
#[test]
fn open_calls_make_few_states(rt: HostRuntime) -> Result<(), Stop> {
    for count in 1..7_usize {
        let wanted = if count == 1 { 4 } else { 5 };
        let most = most_states(rt.alloc(), &[&WAITS[..3 * count], &REFUSED[1..]])?;
        assert!(rt; most == Some(wanted), "{count} waits");
    }
    for count in 0..6_usize {
        let most = most_states(
            rt.alloc(),
            &[&OWNED, &TRIES[..count], &BUSY[..count], &REFUSED],
        )?;
        assert!(rt; most == Some(2), "{count} trylocks");
    }
    Ok(())
}
