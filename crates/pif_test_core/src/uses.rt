//! The callers to copy from. Two threads, of priority 10 and 50, take turns; below are the ways out of each caller.
pub(crate) mod ways_out;

use super::driver::{Scene, Turn, Wish};
use pif_core::Seen;
use pif_core_callers::{Awaited, Held, Next};
use pif_types::{Health, Kind, Refusal};

const DONE: Seen = Seen::Answered(0);

const IN_ORDER: Result<Held, Seen> = Ok(Held::InOrder);

const HOLD: &[Turn] = &[
    Turn::Add(1, Ok(DONE), 8),
    Turn::Hold(1, IN_ORDER),
    Turn::Add(2, Err(Seen::Waits), 8),
    Turn::Call(1, Wish::Unlock(1), DONE),
    Turn::FinishLock(2, IN_ORDER),
];

const REPAIR: &[Turn] = &[
    Turn::Repair(1, 0, IN_ORDER, 5),
    Turn::End(1, Seen::Ended),
    Turn::Repair(2, 0, Ok(Held::OwnerDied), 0),
    Turn::Health(Health::Fine),
];

/// Thread 2 signals the variable under its mutex.
const SIGNALLED: &[Turn] = &[
    Turn::AddCond(1, 1),
    Turn::Hold(1, IN_ORDER),
    Turn::Wait(false, Awaited::Not(Seen::Waits)),
    Turn::Call(2, Wish::Lock(1), DONE),
    Turn::Call(2, Wish::Signal(1), DONE),
    Turn::Call(2, Wish::Unlock(1), DONE),
    Turn::Resume(true, Awaited::Met),
];

/// Thread 2 waits up to a time for the mutex, which thread 1 holds. A tick reaches it, and the thread gives up. Then
/// thread 1 does the same with a wait.
const TOO_LATE: &[Turn] = &[
    Turn::AddCond(1, 1),
    Turn::Hold(1, IN_ORDER),
    Turn::Call(2, Wish::TimedLock(1, 5), Seen::Waits),
    Turn::Tick(4, Seen::Ticked),
    Turn::Waiting(2, Some(true)),
    Turn::Tick(5, Seen::Ticked),
    Turn::Waiting(2, Some(false)),
    Turn::FinishLock(2, Err(Seen::Answered(110))),
    Turn::Call(1, Wish::TimedWait(1, 1, 7), Seen::Waits),
    Turn::Call(2, Wish::TimedLock(1, 0), DONE),
    Turn::Call(2, Wish::Unlock(1), DONE),
    Turn::Tick(4, Seen::Refused(Refusal::Past)),
    Turn::TickOn(7, Next::Ticked),
    Turn::Finish(1, Seen::Answered(110)),
    Turn::Call(1, Wish::Unlock(1), DONE),
];

const TURNS: &[Turn] = &[
    Turn::Event(1, Next::GoOn),
    Turn::Event(2, Next::GoOn),
    Turn::Event(1, Next::GoOn),
    Turn::Event(2, Next::GoOn),
    Turn::Event(1, Next::Closed(0)),
    Turn::Event(2, Next::GoOn),
    Turn::Event(2, Next::LetOthersGo),
];

pub(crate) static SCENES: [Scene; 5] = [
    Scene {
        name: "who_locks_holds",
        kind: Kind::Normal,
        robust: false,
        levels: &[10, 50],
        turns: HOLD,
    },
    Scene {
        name: "next_owner_repairs",
        kind: Kind::Normal,
        robust: true,
        levels: &[10, 50],
        turns: REPAIR,
    },
    Scene {
        name: "who_was_signalled_tests_again",
        kind: Kind::Normal,
        robust: false,
        levels: &[10, 50],
        turns: SIGNALLED,
    },
    Scene {
        name: "who_runs_out_of_time_gives_up",
        kind: Kind::Normal,
        robust: false,
        levels: &[10, 50],
        turns: TOO_LATE,
    },
    Scene {
        name: "threads_take_turns_an_event_at_a_time",
        kind: Kind::Normal,
        robust: false,
        levels: &[10, 50],
        turns: TURNS,
    },
];
