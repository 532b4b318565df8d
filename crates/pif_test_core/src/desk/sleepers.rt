//! Clients sleep while their threads rest, and are woken. Each thread that the limits allow has a bell.
use super::deeds::{Deed, DeedCase, LOCK, ROBUST, STALLED, UNLOCK};
use super::scenes::{EMPTY, End, Scene};
use crate::driver::Wish;

/// Three clients, of which the first holds both mutexes.
const OWNED: &[DeedCase] = &[
    (0, ROBUST, Ok(1)),
    (0, ROBUST, Ok(2)),
    (0, Deed::Enter(2, 10), Ok(2)),
    (0, Deed::Enter(1, 20), Ok(3)),
    (1, LOCK, Ok(0)),
    (1, Deed::Call(Wish::Lock(2)), Ok(0)),
];

pub(super) static SCENES: [Scene; 8] = [
    // The first client holds both mutexes, and unlocks the one for which both others wait.
    Scene {
        name: "an_unlock_wakes_the_waiter_that_gets_the_mutex",
        ends: End::Answered(7),
        before: OWNED,
        beside: &[
            (1, Deed::SeeWaits(2), Ok(1)),
            (1, UNLOCK, Ok(0)),
            (2, LOCK, Ok(0)),
            (2, UNLOCK, Ok(0)),
            (3, LOCK, Ok(0)),
            (3, UNLOCK, Ok(0)),
        ],
        told: (" = waits\n", 2),
        ..EMPTY
    },
    // The first client ends with both mutexes, of which each of the others waits for one.
    Scene {
        name: "an_end_wakes_all_waiters_that_get_a_mutex",
        ends: End::Answered(6),
        before: OWNED,
        beside: &[
            (1, Deed::SeeWaits(2), Ok(1)),
            (1, Deed::Quit, Ok(0)),
            (2, LOCK, Ok(130)),
            (2, UNLOCK, Ok(0)),
            (3, Deed::Call(Wish::Lock(2)), Ok(130)),
            (3, Deed::Call(Wish::Unlock(2)), Ok(0)),
        ],
        told: (" = waits\n", 2),
        ..EMPTY
    },
    // The first client unlocks the mutex once the last sleeps, whose bell rings by that, and locks it again. Then it
    // does so a second time. The last unlocks the mutex once the first sleeps.
    Scene {
        name: "the_last_thread_sleeps_and_is_woken",
        ends: End::Answered(7),
        limits: [65, 1, 0, 1],
        before: &[
            (0, STALLED, Ok(1)),
            (0, Deed::Enter(65, 10), Ok(65)),
            (1, LOCK, Ok(0)),
        ],
        beside: &[
            (1, Deed::SeeSleep(65), Ok(1)),
            (1, Deed::Bell(65, 0), Ok(1)),
            (1, UNLOCK, Ok(0)),
            (1, Deed::Bell(65, 1), Ok(1)),
            (1, LOCK, Ok(0)),
            (1, Deed::SeeSleep(65), Ok(1)),
            (1, UNLOCK, Ok(0)),
            (1, Deed::Rings(65, Some(2)), Ok(1)),
            (1, Deed::Rings(1, Some(1)), Ok(1)),
            (65, LOCK, Ok(0)),
            (65, Deed::SeeSleep(1), Ok(1)),
            (65, UNLOCK, Ok(0)),
            (65, LOCK, Ok(0)),
        ],
        ..EMPTY
    },
    // New desks, each with a bell for its last thread, which has not rung, and with none for the next.
    Scene {
        name: "there_is_a_bell_for_each_thread_and_no_other",
        limits: [1, 0, 0, 1],
        before: &[
            (0, Deed::Rings(1, Some(0)), Ok(1)),
            (0, Deed::Rings(2, None), Ok(1)),
        ],
        ..EMPTY
    },
    Scene {
        name: "there_is_a_bell_for_each_thread_and_no_other",
        limits: [2, 0, 0, 1],
        before: &[
            (0, Deed::Rings(2, Some(0)), Ok(1)),
            (0, Deed::Rings(3, None), Ok(1)),
        ],
        ..EMPTY
    },
    Scene {
        name: "there_is_a_bell_for_each_thread_and_no_other",
        limits: [64, 0, 0, 1],
        before: &[
            (0, Deed::Rings(64, Some(0)), Ok(1)),
            (0, Deed::Rings(65, None), Ok(1)),
        ],
        ..EMPTY
    },
    Scene {
        name: "there_is_a_bell_for_each_thread_and_no_other",
        limits: [65, 0, 0, 1],
        before: &[
            (0, Deed::Rings(65, Some(0)), Ok(1)),
            (0, Deed::Rings(66, None), Ok(1)),
        ],
        ..EMPTY
    },
    Scene {
        name: "there_is_a_bell_for_each_thread_and_no_other",
        limits: [1024, 0, 0, 1],
        before: &[
            (0, Deed::Rings(1024, Some(0)), Ok(1)),
            (0, Deed::Rings(1025, None), Ok(1)),
        ],
        ..EMPTY
    },
];
