//! Books: what calls were answered, in a trace that replays the same, what was added, and what settling finds.
use super::deeds::{DEAD, Deed, IDLE, LOCK, ROBUST, STALLED, TOO_MANY, UNLOCK};
use super::scenes::{EMPTY, End, Scene, Turn, play};
use crate::driver::Wish;
use pif_desk::{DeskFault, Seen};
use pif_types::{AddFault, Kind, NoMemory};

static RECEIPTS: [Scene; 2] = [
    // The first client signals and ends with the mutex. The second takes it over, and repairs it. Behind 4 additions
    // stand 36 events.
    Scene {
        name: "a_mutex_of_the_dead_is_repaired",
        ends: End::Answered(5),
        limits: [2, 1, 1, 9],
        asks_again: true,
        before: &[
            (0, ROBUST, Ok(1)),
            (0, Deed::Cond(1), Ok(1)),
            (0, Deed::Enter(1, 10), Ok(1)),
            (0, Deed::Enter(1, 20), Ok(2)),
            (1, LOCK, Ok(0)),
            (1, Deed::Call(Wish::Signal(1)), Ok(0)),
            (1, Deed::Quit, Ok(0)),
            (2, LOCK, Ok(130)),
            (2, Deed::Call(Wish::Consistent(1)), Ok(0)),
            (2, UNLOCK, Ok(0)),
            (0, Deed::Entries, Ok(40)),
        ],
        verdict: "same 41\n",
        ..EMPTY
    },
    // The first client ends with the mutex. Then its call is refused, and it has none to go on with, which makes no
    // event, as with the second client. This takes the mutex over, and signals. Behind 4 additions stand 26 events: 8
    // to lock, an end and a begin that is refused, 12 to take the mutex over, and 4 to signal.
    Scene {
        name: "a_dead_client_is_refused",
        ends: End::Answered(3),
        limits: [2, 1, 1, 9],
        asks_again: true,
        before: &[
            (0, ROBUST, Ok(1)),
            (0, Deed::Cond(1), Ok(1)),
            (0, Deed::Enter(1, 10), Ok(1)),
            (0, Deed::Enter(1, 20), Ok(2)),
            (1, LOCK, Ok(0)),
            (0, Deed::Entries, Ok(12)),
            (1, Deed::Quit, Ok(0)),
            (0, Deed::Entries, Ok(13)),
            (1, LOCK, DEAD),
            (1, Deed::Resume, DEAD),
            (2, Deed::Resume, IDLE),
            (0, Deed::Entries, Ok(14)),
            (2, LOCK, Ok(130)),
            (2, Deed::Call(Wish::Signal(1)), Ok(0)),
            (0, Deed::Entries, Ok(30)),
        ],
        verdict: "same 31\n",
        ..EMPTY
    },
];

/// One growth of memory may be refused anywhere: what was refused is then asked again, and no answer changes.
#[test]
fn desk_keeps_receipts(rt: HostRuntime) -> Result<(), NoMemory> {
    for scene in &RECEIPTS {
        if play(&rt, scene).is_err() {
            play(&rt, scene)?;
        }
    }
    Ok(())
}

pub(super) static SCENES: [Scene; 5] = [
    // Additions up to the limits, beside what the core refuses.
    Scene {
        name: "desk_adds_what_it_is_asked_for",
        limits: [2, 3, 1, 9],
        before: &[
            (0, Deed::Mutex(Kind::Recursive, true), Ok(1)),
            (0, Deed::Mutex(Kind::ErrorCheck, false), Ok(2)),
            (0, Deed::Cond(9), Err(DeskFault::NotAdded(AddFault::NoSuch))),
            (0, Deed::Cond(2), Ok(1)),
            (
                0,
                Deed::Enter(1, 0),
                Err(DeskFault::NotAdded(AddFault::BadPrio)),
            ),
            (0, Deed::Enter(1, 7), Ok(1)),
            (0, Deed::Enter(1, 8), Ok(2)),
            (0, Deed::Enter(1, 9), TOO_MANY),
            (0, ROBUST, Ok(3)),
            (0, ROBUST, TOO_MANY),
            (0, Deed::Cond(3), TOO_MANY),
            (0, Deed::Entries, Ok(6)),
        ],
        told: (
            "limits 2 3 1 9 = ok\n\
             mutex recursive robust = m1\n\
             mutex errorcheck = m2\n\
             cond m2 = c1\n\
             thread 7 = t1\n\
             thread 8 = t2\n\
             mutex normal robust = m3\n",
            1,
        ),
        ..EMPTY
    },
    // The client plays a lock.
    Scene {
        name: "settling_finds_what_clients_do_not_know",
        ends: End::Answered(1),
        before: &[(0, STALLED, Ok(1)), (0, Deed::Enter(1, 10), Ok(1))],
        inside: &[
            (Turn::Begins(Wish::Lock(1)), Seen::Begun),
            (Turn::Goes, Seen::Went),
            (Turn::Goes, Seen::Answered(0)),
        ],
        ..EMPTY
    },
    // The client's thread begins a call of which the client doesn't know.
    Scene {
        name: "settling_finds_what_clients_do_not_know",
        ends: End::Differs(1),
        before: &[(0, STALLED, Ok(1)), (0, Deed::Enter(1, 10), Ok(1))],
        inside: &[(Turn::Turns(Wish::Lock(1)), Seen::Begun)],
        ..EMPTY
    },
    // The client is the second one of another desk.
    Scene {
        name: "settling_finds_what_clients_do_not_know",
        ends: End::Stranger(2),
        before: &[(0, Deed::Enter(1, 10), Ok(1)), (0, Deed::Swap, Ok(2))],
        ..EMPTY
    },
    // The client is lost.
    Scene {
        name: "settling_finds_what_clients_do_not_know",
        ends: End::Count,
        before: &[(0, Deed::Enter(1, 10), Ok(1)), (0, Deed::Lose, Ok(0))],
        ..EMPTY
    },
];
