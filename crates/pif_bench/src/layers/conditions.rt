//! Threads wait on condition variable 1, which is bound to mutex 1.
use super::scenes::{call, lock, step, thread};
use crate::moments::{now, picoseconds_each};
use pif_core::{Core, Event};
use pif_types::{CondId, MutexId, Request, Tid};
use std::rt::Clock;

/// How many waits are measured.
pub const WAITS: u32 = 10_000;

/// How many broadcasts are measured.
const BROADCASTS: u32 = 10;

/// The condition variable.
fn variable() -> CondId {
    match CondId::new(1) {
        Some(variable) => variable,
        None => unreachable!(),
    }
}

/// One thread after another, so many, locks the mutex and waits on the variable.
pub fn park_all(core: &mut Core, parked: u32) {
    let variable = variable();
    for number in 1..=parked {
        lock(core, number, 1);
        wait(core, variable, thread(number));
    }
}

/// A thread waits on the variable.
fn wait(core: &mut Core, variable: CondId, thread: Tid) {
    call(core, thread, Request::Wait(variable, MutexId::default()));
}

/// Of so many threads that are parked, at most 1,000, again and again one is woken by a signal of another thread,
/// answers its wait, as it finds its mutex free, and waits again.
pub fn wait_and_signal(core: &mut Core, parked: u32) {
    let caller = thread(parked.saturating_add(1));
    let variable = variable();
    for round in 0..WAITS {
        signal_one(core, variable, caller, thread(1 + round % parked.max(1)));
    }
}

/// A caller signals, and the thread that is woken answers its wait, and waits again.
fn signal_one(core: &mut Core, variable: CondId, caller: Tid, woken: Tid) {
    call(core, caller, Request::Signal(variable));
    step(core, Event::Go(woken));
    wait(core, variable, woken);
}

/// Broadcasts to so many parked threads, at most 1,000, whose caller, the thread behind them, holds the mutex, or
/// nobody does. Answers how many picoseconds one took for each of them.
pub fn time_broadcasts(rt: &impl Clock, core: &mut Core, parked: u32, held: bool) -> Option<u64> {
    let caller = thread(parked.saturating_add(1));
    let mut spent = 0_u64;
    for _round in 0..BROADCASTS {
        spent = spent.saturating_add(time_broadcast(rt, core, caller, held)?);
        wait_anew(core, parked);
    }
    let woken = parked.saturating_mul(BROADCASTS).max(1);
    Some(spent / u64::from(woken))
}

/// A broadcast by this caller, which locks the mutex before and unlocks it behind, or doesn't. Answers how many
/// picoseconds it took.
fn time_broadcast(rt: &impl Clock, core: &mut Core, caller: Tid, held: bool) -> Option<u64> {
    let mutex = MutexId::default();
    let broadcast = Request::Broadcast(variable());
    if held {
        call(core, caller, Request::Lock(mutex));
    }
    let start = now(rt);
    call(core, caller, broadcast);
    let spent = picoseconds_each(rt, start, 1);
    if held {
        call(core, caller, Request::Unlock(mutex));
    }
    spent
}

/// Each of so many threads that were woken, one after another, finds that it owns the mutex, and waits again.
fn wait_anew(core: &mut Core, parked: u32) {
    let variable = variable();
    for number in 1..=parked {
        let woken = thread(number);
        step(core, Event::Go(woken));
        wait(core, variable, woken);
    }
}
