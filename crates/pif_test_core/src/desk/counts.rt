//! How many entries each call makes, from none at a new desk, and that a client pauses after each of its events.
use super::deeds::{DEAD, Deed, IDLE, LOCK, PAST, STALLED, TOO_MANY, UNLOCK};
use super::scenes::{EMPTY, End, Scene};
use crate::driver::Wish;
use pif_desk::DeskFault;
use pif_types::{AddFault, Refusal};

/// The fault of a call on a mutex that was never added.
const NO_SUCH: Result<u32, DeskFault> = Err(DeskFault::Refused(Refusal::NoSuch));

/// A thread's priority is none.
const BAD_PRIO: Result<u32, DeskFault> = Err(DeskFault::NotAdded(AddFault::BadPrio));

/// A call on mutex 3, which is never added.
const LOCK_THIRD: Deed = Deed::Call(Wish::Lock(3));

pub(super) static SCENES: [Scene; 3] = [
    // Additions and ticks, at a desk with room for two of each, and then calls of two clients. A lock of a free mutex
    // is a begin and two steps, and so is its unlock. A call on a mutex that was never added is refused at its begin,
    // and one that goes on with no call makes no event. Each end is one event.
    Scene {
        name: "each_call_makes_its_entries_and_no_other",
        ends: End::Answered(3),
        limits: [2, 2, 2, 9],
        before: &[
            (0, Deed::Entries, Ok(0)),
            (0, STALLED, Ok(1)),
            (0, Deed::Entries, Ok(1)),
            (0, Deed::Cond(1), Ok(1)),
            (0, Deed::Entries, Ok(2)),
            (0, Deed::Cond(1), Ok(2)),
            (0, Deed::Entries, Ok(3)),
            (0, Deed::Cond(1), TOO_MANY),
            (0, Deed::Entries, Ok(3)),
            (0, STALLED, Ok(2)),
            (0, Deed::Entries, Ok(4)),
            (0, STALLED, TOO_MANY),
            (0, Deed::Entries, Ok(4)),
            (0, Deed::Enter(1, 10), Ok(1)),
            (0, Deed::Entries, Ok(5)),
            (0, Deed::Enter(1, 0), BAD_PRIO),
            (0, Deed::Entries, Ok(5)),
            (0, Deed::Enter(1, 10), Ok(2)),
            (0, Deed::Entries, Ok(6)),
            (0, Deed::Enter(1, 10), TOO_MANY),
            (0, Deed::Entries, Ok(6)),
            (0, Deed::Tick(5), Ok(0)),
            (0, Deed::Entries, Ok(7)),
            (0, Deed::Tick(4), PAST),
            (0, Deed::Entries, Ok(8)),
        ],
        after: &[
            (1, LOCK, Ok(0)),
            (0, Deed::Entries, Ok(11)),
            (1, UNLOCK, Ok(0)),
            (0, Deed::Entries, Ok(14)),
            (2, LOCK_THIRD, NO_SUCH),
            (0, Deed::Entries, Ok(15)),
            (2, Deed::Resume, IDLE),
            (0, Deed::Entries, Ok(15)),
            (2, LOCK, Ok(0)),
            (0, Deed::Entries, Ok(18)),
            (1, Deed::Quit, Ok(0)),
            (0, Deed::Entries, Ok(19)),
            (1, Deed::Quit, DEAD),
            (0, Deed::Entries, Ok(20)),
            (1, Deed::Resume, DEAD),
            (0, Deed::Entries, Ok(20)),
            (1, LOCK, DEAD),
            (0, Deed::Entries, Ok(21)),
        ],
        ..EMPTY
    },
    // No client has an event by additions and ticks. By calls as above, of which three are refused, it has one for each
    // entry.
    Scene {
        name: "a_client_pauses_once_after_each_event",
        ends: End::Answered(3),
        limits: [2, 2, 2, 9],
        before: &[
            (0, STALLED, Ok(1)),
            (0, Deed::Cond(1), Ok(1)),
            (0, Deed::Enter(2, 10), Ok(2)),
            (0, Deed::Tick(5), Ok(0)),
            (0, Deed::Tick(4), PAST),
            (0, Deed::Pauses, Ok(0)),
            (0, Deed::Refusals, Ok(0)),
        ],
        after: &[
            (1, LOCK, Ok(0)),
            (0, Deed::Pauses, Ok(3)),
            (1, UNLOCK, Ok(0)),
            (0, Deed::Pauses, Ok(6)),
            (0, Deed::Refusals, Ok(0)),
            (2, LOCK_THIRD, NO_SUCH),
            (2, Deed::Resume, IDLE),
            (0, Deed::Pauses, Ok(7)),
            (0, Deed::Refusals, Ok(1)),
            (2, LOCK, Ok(0)),
            (0, Deed::Pauses, Ok(10)),
            (1, Deed::Quit, Ok(0)),
            (0, Deed::Pauses, Ok(11)),
            (0, Deed::Refusals, Ok(1)),
            (1, Deed::Quit, DEAD),
            (1, Deed::Resume, DEAD),
            (0, Deed::Pauses, Ok(12)),
            (0, Deed::Refusals, Ok(2)),
            (1, LOCK, DEAD),
            (0, Deed::Pauses, Ok(13)),
            (0, Deed::Refusals, Ok(3)),
        ],
        ..EMPTY
    },
    // A new desk has no entry, and room for none. A full journal that is to grow by 1,000 entries has room for 999
    // behind the next.
    Scene {
        name: "a_new_journal_is_empty_and_grows_by_what_was_set",
        before: &[
            (0, Deed::Entries, Ok(0)),
            (0, Deed::HasRoom(1), Ok(0)),
            (0, Deed::Grow(1000), Ok(0)),
            (0, STALLED, Ok(1)),
            (0, Deed::HasRoom(999), Ok(1)),
        ],
        ..EMPTY
    },
];
