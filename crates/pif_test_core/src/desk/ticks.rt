//! Time at a desk: a tick lets those sleepers go on whose deadline it reaches.
use super::deeds::{Deed, LOCK, PAST, STALLED, UNLOCK};
use super::scenes::{EMPTY, End, Scene};
use crate::driver::Wish;

pub(super) static SCENES: [Scene; 3] = [
    // The first client holds the mutex. The second, in its own thread, locks it until a tick reaches the deadline.
    Scene {
        name: "desk_ticks",
        ends: End::Answered(2),
        before: &[
            (0, STALLED, Ok(1)),
            (0, Deed::Enter(2, 10), Ok(2)),
            (1, LOCK, Ok(0)),
        ],
        beside: &[
            (1, Deed::SeeWaits(1), Ok(1)),
            (1, Deed::Tick(7), Ok(0)),
            (2, Deed::Call(Wish::TimedLock(1, 7)), Ok(110)),
        ],
        after: &[(0, Deed::Tick(6), PAST)],
        told: (
            "go t2 = went\n\
             go t2 = waits\n\
             tick 7 = ticked\n\
             go t2 = answer 110\n\
             tick 6 = refused past\n",
            1,
        ),
        ..EMPTY
    },
    // Two of three clients sleep until their deadlines. After each tick the bells of those have rung that are due, each
    // once, and these sleep no longer. No bell is there for a thread beyond the limits.
    Scene {
        name: "a_tick_wakes_who_is_due_and_nobody_else",
        ends: End::Answered(3),
        before: &[
            (0, STALLED, Ok(1)),
            (0, Deed::Enter(3, 10), Ok(3)),
            (1, LOCK, Ok(0)),
        ],
        beside: &[
            (1, Deed::SeeSleep(2), Ok(1)),
            (1, Deed::SeeSleep(3), Ok(1)),
            (1, Deed::Tick(6), Ok(0)),
            (1, Deed::Bell(2, 0), Ok(1)),
            (1, Deed::Bell(3, 0), Ok(1)),
            (1, Deed::Tick(7), Ok(0)),
            (1, Deed::Bell(2, 1), Ok(1)),
            (1, Deed::Bell(3, 0), Ok(1)),
            (1, Deed::Tick(6), PAST),
            (1, Deed::Bell(2, 1), Ok(1)),
            (1, Deed::Bell(3, 0), Ok(1)),
            (1, Deed::Tick(7), Ok(0)),
            (1, Deed::Bell(2, 1), Ok(1)),
            (1, Deed::Bell(3, 0), Ok(1)),
            (1, Deed::Tick(10), Ok(0)),
            (1, Deed::Bell(2, 1), Ok(1)),
            (1, Deed::Bell(3, 1), Ok(1)),
            (2, Deed::Call(Wish::TimedLock(1, 7)), Ok(110)),
            (3, Deed::Call(Wish::TimedLock(1, 9)), Ok(110)),
        ],
        after: &[(0, Deed::Rings(65, None), Ok(1))],
        ..EMPTY
    },
    // A client waits for its own mutex and for a variable, each time up to a time that has come. These are 3 additions,
    // 2 ticks, and the calls, of 2 steps to lock, 3 to wait for its own mutex and give up, 6 to wait for the variable,
    // give up and lock again, 2 to unlock and 2 to lock, each behind its begin.
    Scene {
        name: "desk_keeps_ticks",
        ends: End::Answered(5),
        limits: [1, 1, 1, 9],
        before: &[
            (0, STALLED, Ok(1)),
            (0, Deed::Cond(1), Ok(1)),
            (0, Deed::Enter(1, 10), Ok(1)),
            (1, LOCK, Ok(0)),
            (0, Deed::Tick(7), Ok(0)),
            (0, Deed::Tick(6), PAST),
            (1, Deed::Call(Wish::TimedLock(1, 5)), Ok(110)),
            (1, Deed::Call(Wish::TimedWait(1, 1, 7)), Ok(110)),
            (1, UNLOCK, Ok(0)),
            (1, Deed::Call(Wish::TimedLock(1, 0)), Ok(0)),
            (0, Deed::Entries, Ok(25)),
        ],
        verdict: "same 26\n",
        ..EMPTY
    },
];
