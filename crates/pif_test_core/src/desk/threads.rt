//! Two real threads at one desk, of which the first is held inside its call while the second makes one.
use super::deeds::{Deed, DeedCase, LOCK, STALLED};
use super::scenes::{EMPTY, End, Scene};
use crate::driver::Wish;
use pif_desk::Seen;

/// Two clients and two mutexes.
const TWO: &[DeedCase] = &[
    (0, Deed::Enter(2, 10), Ok(2)),
    (0, STALLED, Ok(1)),
    (0, STALLED, Ok(2)),
];

/// Each client locks a mutex of its own, the second while the first is held inside its call.
const LOCKS: &[DeedCase] = &[
    (1, LOCK, Ok(0)),
    (2, Deed::SeeHeld, Ok(1)),
    (2, Deed::Call(Wish::Lock(2)), Ok(0)),
];

pub(super) static SCENES: [Scene; 2] = [
    // Thread 1 is held once its call has begun.
    Scene {
        name: "calls_of_two_threads_overlap",
        ends: End::Answered(2),
        held_after: Seen::Begun,
        before: TWO,
        beside: LOCKS,
        after: &[(0, Deed::Entries, Ok(10))],
        told: (
            "begin t1 lock m1 = begun\n\
             begin t2 lock m2 = begun\n\
             go t2 = went\n\
             go t2 = answer 0\n\
             go t1 = went\n\
             go t1 = answer 0\n",
            1,
        ),
        ..EMPTY
    },
    // Thread 1 is held after the first step of its call.
    Scene {
        name: "each_step_of_a_call_is_an_event_of_its_own",
        ends: End::Answered(2),
        held_after: Seen::Went,
        before: TWO,
        beside: LOCKS,
        after: &[(0, Deed::Entries, Ok(10))],
        told: (
            "begin t1 lock m1 = begun\n\
             go t1 = went\n\
             begin t2 lock m2 = begun\n\
             go t2 = went\n\
             go t2 = answer 0\n\
             go t1 = answer 0\n",
            1,
        ),
        ..EMPTY
    },
];
