//! Calls on a core without a desk.
use super::desks::PAIRS;
use crate::moments::{now, thousands, time_since};
use pif_core::{Core, Event, Seen};
use pif_types::{Kind, Limits, MutexId, Request, Tid};
use std::rt::Clock;

/// The most steps of a call that nobody else hinders.
const STEPS: u64 = 24;

/// Makes a call, and takes its steps until it is answered. Answers how many events that took.
fn call(core: &mut Core, thread: Tid, request: Request) -> u64 {
    let _begun = core.step(Event::Begin(thread, request));
    for step in 0..STEPS {
        if let Seen::Answered(_) = core.step(Event::Go(thread)) {
            return step + 2;
        }
    }
    STEPS
}

/// Locks and unlocks a mutex so many times. Answers how many events that took.
fn make_pairs(core: &mut Core, thread: Tid, mutex: MutexId) -> u64 {
    let mut events = 0u64;
    for _pair in 0..PAIRS {
        events = events.wrapping_add(call(core, thread, Request::Lock(mutex)));
        events = events.wrapping_add(call(core, thread, Request::Unlock(mutex)));
    }
    events
}

/// Times the pairs of a thread and a mutex that are added to this core: how many thousand events a second.
fn time_pairs(rt: &impl Clock, core: &mut Core) -> Option<u64> {
    let thread = core.add_thread(10).ok()?;
    let mutex = core.add_mutex(Kind::Normal, false).ok()?;
    let start = now(rt);
    let events = make_pairs(core, thread, mutex);
    thousands(events, time_since(rt, start))
}

/// One thread locks and unlocks one normal mutex: how many thousand events a second.
pub fn measure_core(rt: &(impl Clock + AllocGlobal)) -> Option<u64> {
    let limits = Limits::new(1, 1, 0, 1)?;
    match Core::new(rt.alloc(), limits) {
        Ok(mut core) => time_pairs(rt, &mut core),
        Err(_) => None,
    }
}
