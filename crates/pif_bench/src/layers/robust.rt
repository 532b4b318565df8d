//! Pairs of a lock and an unlock, and the ends of threads that hold robust mutexes.
use super::scenes::{call, lock, step, thread};
use pif_core::{Core, Event};
use pif_types::{MutexId, Request, Tid};

/// How many pairs of a lock and an unlock are measured.
pub const PAIRS: u32 = 10_000;

/// Thread 1 locks and unlocks mutex 1, for which nobody else contends, again and again.
pub fn make_pairs(core: &mut Core) {
    let mutex = MutexId::default();
    let thread = Tid::default();
    for _pair in 0..PAIRS {
        call(core, thread, Request::Lock(mutex));
        call(core, thread, Request::Unlock(mutex));
    }
}

/// How many ends are measured at most.
const MOST_ENDS: u32 = 100;

/// How many mutexes all threads that end hold together at most.
const MOST_HELD: u32 = 1000;

/// How many threads end, of which each holds so many mutexes, at most 1,000.
pub fn holders_of(held: u32) -> u32 {
    let most = MOST_HELD / held.saturating_add(1).max(1);
    most.clamp(1, MOST_ENDS)
}

/// Those that are to end lock so many mutexes each, for which others then wait, or none do.
pub fn prepare_ends(core: &mut Core, held: u32, contended: bool) {
    let holders = holders_of(held);
    let mutexes = holders.saturating_mul(held);
    lock_all(core, mutexes, 1, held);
    if contended {
        lock_all(core, mutexes, holders.saturating_add(1), 1);
    }
}

/// So many mutexes are locked, from the first on: so many by this thread, as many by the next, and so on.
fn lock_all(core: &mut Core, mutexes: u32, first: u32, each: u32) {
    for index in 0..mutexes {
        lock(core, first.saturating_add(index / each.max(1)), index + 1);
    }
}

/// The threads that hold so many mutexes each end, one after another.
pub fn end(core: &mut Core, held: u32) {
    for number in 1..=holders_of(held) {
        step(core, Event::End(thread(number)));
    }
}
