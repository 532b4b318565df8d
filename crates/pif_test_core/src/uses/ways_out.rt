//! Each way out of the callers that do more than one call: what is answered, what is protected, and who owns the mutex.

use super::{DONE, IN_ORDER};
use crate::driver::{Scene, Turn, Wish};
use pif_core::Seen;
use pif_core_callers::{Awaited, Held};
use pif_types::{Health, Kind, Refusal};

const BUSY: Seen = Seen::Refused(Refusal::Busy);

const DEAD: Seen = Seen::Refused(Refusal::Dead);

const RESTS: Awaited = Awaited::Not(Seen::Waits);

/// The mutex is free, then thread 1 holds it, and hands it to thread 2, which gives it up. Thread 1 locks it again and
/// ends.
const ADDITIONS: &[Turn] = &[
    Turn::Add(1, Ok(DONE), 8),
    Turn::Free(1),
    Turn::Call(1, Wish::Lock(1), DONE),
    Turn::Add(1, Err(Seen::Answered(35)), 8),
    Turn::Owner(1, 1, 1),
    Turn::Add(2, Err(Seen::Waits), 8),
    Turn::Owner(1, 1, 1),
    Turn::Add(2, Err(BUSY), 8),
    Turn::Owner(1, 1, 1),
    Turn::Call(1, Wish::Unlock(1), DONE),
    Turn::Finish(2, DONE),
    Turn::Call(2, Wish::Unlock(1), DONE),
    Turn::Call(1, Wish::Lock(1), DONE),
    Turn::End(1, Seen::Ended),
    Turn::Add(1, Err(DEAD), 8),
    Turn::Free(1),
    Turn::Add(2, Ok(DONE), 11),
    Turn::Free(1),
    Turn::Add(2, Err(Seen::Answered(131)), 11),
    Turn::Free(1),
];

/// The same calls and the same end, with repairs in the place of additions.
const REPAIRS: &[Turn] = &[
    Turn::Repair(1, 7, IN_ORDER, 5),
    Turn::Health(Health::Fine),
    Turn::Owner(1, 1, 1),
    Turn::Repair(1, 7, Err(Seen::Answered(35)), 5),
    Turn::Health(Health::Fine),
    Turn::Owner(1, 1, 1),
    Turn::Repair(2, 7, Err(Seen::Waits), 5),
    Turn::Health(Health::Fine),
    Turn::Owner(1, 1, 1),
    Turn::Repair(2, 7, Err(BUSY), 5),
    Turn::Health(Health::Fine),
    Turn::Owner(1, 1, 1),
    Turn::Call(1, Wish::Unlock(1), DONE),
    Turn::Finish(2, DONE),
    Turn::Call(2, Wish::Unlock(1), DONE),
    Turn::Call(1, Wish::Lock(1), DONE),
    Turn::End(1, Seen::Ended),
    Turn::Repair(1, 7, Err(DEAD), 5),
    Turn::Health(Health::Fine),
    Turn::Free(1),
    Turn::Repair(2, 7, Ok(Held::OwnerDied), 7),
    Turn::Health(Health::Fine),
    Turn::Owner(1, 2, 1),
    Turn::Word(2),
];

/// Thread 2 is told of the end, and gives the mutex up as it is.
const UNUSABLE: &[Turn] = &[
    Turn::Call(1, Wish::Lock(1), DONE),
    Turn::End(1, Seen::Ended),
    Turn::Call(2, Wish::Lock(1), Seen::Answered(130)),
    Turn::Call(2, Wish::Unlock(1), DONE),
    Turn::Repair(2, 7, Err(Seen::Answered(131)), 5),
    Turn::Health(Health::Unusable),
    Turn::Free(1),
    Turn::Repair(2, 7, Err(Seen::Answered(131)), 5),
    Turn::Health(Health::Unusable),
    Turn::Free(1),
];

/// Thread 1 begins a wait, in which it holds the mutex no longer; both answers of its test lead to that. Thread 2
/// signals the variable twice, each time under the mutex.
const WAITS: &[Turn] = &[
    Turn::AddCond(1, 1),
    Turn::Wait(false, Awaited::Not(Seen::Answered(1))),
    Turn::Call(1, Wish::Lock(1), DONE),
    Turn::Wait(true, Awaited::Met),
    Turn::Owner(1, 1, 1),
    Turn::Wait(false, RESTS),
    Turn::Resume(true, RESTS),
    Turn::Open(1, Wish::Wait(1, 1)),
    Turn::Free(1),
    Turn::Call(2, Wish::Lock(1), DONE),
    Turn::Call(2, Wish::Signal(1), DONE),
    Turn::Call(2, Wish::Unlock(1), DONE),
    Turn::Resume(false, RESTS),
    Turn::Open(1, Wish::Wait(1, 1)),
    Turn::Free(1),
    Turn::Call(2, Wish::Lock(1), DONE),
    Turn::Call(2, Wish::Signal(1), DONE),
    Turn::Call(2, Wish::Unlock(1), DONE),
    Turn::Resume(true, Awaited::Met),
    Turn::IsIdle(1),
    Turn::Owner(1, 1, 1),
    Turn::Resume(true, Awaited::Not(Seen::Refused(Refusal::Idle))),
    Turn::IsIdle(1),
    Turn::Owner(1, 1, 1),
];

/// Thread 1 begins a wait as above. Thread 2 signals the variable under its mutex, and ends with that.
const DIED: &[Turn] = &[
    Turn::AddCond(1, 1),
    Turn::Wait(false, Awaited::Not(Seen::Answered(1))),
    Turn::Call(1, Wish::Lock(1), DONE),
    Turn::Wait(true, Awaited::Met),
    Turn::Owner(1, 1, 1),
    Turn::Wait(false, RESTS),
    Turn::Call(2, Wish::Lock(1), DONE),
    Turn::Call(2, Wish::Signal(1), DONE),
    Turn::End(2, Seen::Ended),
    Turn::Resume(true, Awaited::Not(Seen::Answered(130))),
    Turn::IsIdle(1),
    Turn::Owner(1, 1, 1),
];

pub(crate) static SCENES: [Scene; 5] = [
    Scene {
        name: "each_way_out_of_an_addition",
        kind: Kind::ErrorCheck,
        robust: true,
        levels: &[10, 50],
        turns: ADDITIONS,
    },
    Scene {
        name: "each_way_out_of_a_repair",
        kind: Kind::ErrorCheck,
        robust: true,
        levels: &[10, 50],
        turns: REPAIRS,
    },
    Scene {
        name: "an_unusable_mutex_is_not_repaired",
        kind: Kind::Normal,
        robust: true,
        levels: &[10, 50],
        turns: UNUSABLE,
    },
    Scene {
        name: "each_way_out_of_a_wait",
        kind: Kind::Normal,
        robust: true,
        levels: &[10, 50],
        turns: WAITS,
    },
    Scene {
        name: "a_wait_is_told_of_an_owner_that_ended",
        kind: Kind::Normal,
        robust: true,
        levels: &[10, 50],
        turns: DIED,
    },
];
