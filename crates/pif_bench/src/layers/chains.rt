//! Chains of threads, each of which holds a mutex and waits for that of the one before it, and waiters for one mutex.
use super::scenes::{call, lock, step, thread};
use pif_core::{Core, Event};
use pif_types::{MutexId, Request, Tid};

/// How many times two threads pass a mutex on.
pub const ROUNDS: u32 = 10_000;

/// How many changes of priority are measured.
pub const CHANGES: u32 = 100;

/// How many threads join a chain, each of a greater priority than the one before.
pub const JOINS: u32 = 24;

/// Threads 1 and 2 pass mutex 1 on, which thread 1 holds, again and again. A round is the lock of one, which waits, the
/// unlock of the other through the kernel, and the step in which the first finds out.
pub fn pass_on(core: &mut Core) {
    let mutex = MutexId::default();
    let mut owner = Tid::default();
    let mut other = thread(2);
    for _round in 0..ROUNDS {
        call(core, other, Request::Lock(mutex));
        call(core, owner, Request::Unlock(mutex));
        step(core, Event::Go(other));
        (owner, other) = (other, owner);
    }
}

/// Thread 1 gets the priority 99, and the others, up to this one, get priorities below it in no order. Then it locks
/// mutex 1.
pub fn scatter(core: &mut Core, last: u32) {
    set_level(core, Tid::default(), 99);
    let mut mixed = 1_u32;
    for number in 2..=last {
        mixed = mixed.wrapping_mul(1_664_525).wrapping_add(1_013_904_223);
        set_level(core, thread(number), 1 + (mixed >> 16) % 98);
    }
    lock(core, 1, 1);
}

/// Thread 1 gives a thread a priority.
fn set_level(core: &mut Core, thread: Tid, level: u32) {
    call(core, Tid::default(), Request::SetPrio(thread, level));
}

/// So many threads make a chain: the thread of each number locks the mutex of this number, and waits for that of the
/// one before it.
pub fn make_chain(core: &mut Core, depth: u32) {
    for number in 1..=depth {
        lock(core, number, number);
        if number > 1 {
            lock(core, number, number - 1);
        }
    }
}

/// So many threads make a chain, and those that are to join it get their priorities. They join it by a lock of its last
/// mutex, each of a greater priority than the one before, so that each boosts all threads of the chain.
pub fn prepare_joins(core: &mut Core, before: u32) {
    make_chain(core, before);
    for joiner in 1..=JOINS {
        set_level(core, thread(before.saturating_add(joiner)), joiner + 1);
    }
}

/// The priority of the last thread of a chain of so many changes, to 98 and to 99 in turn.
pub fn set_prio(core: &mut Core, depth: u32) {
    let last = thread(depth);
    for round in 0..CHANGES {
        set_level(core, last, 98 + round % 2);
    }
}
