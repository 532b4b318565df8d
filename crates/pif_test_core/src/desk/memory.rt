//! The journal's growth is refused before a call or an addition, and between two events of a call.
use super::deeds::{BUSY, DEAD, Deed, DeedCase, LOCK, NO_MEMORY, ROBUST, STALLED};
use super::scenes::{EMPTY, End, Scene};

/// A call is refused memory at its second event, and stays open.
const CUT: &[DeedCase] = &[
    (0, STALLED, Ok(1)),
    (0, Deed::Enter(1, 10), Ok(1)),
    (0, Deed::Fill(1), Ok(0)),
    (1, LOCK, NO_MEMORY),
    (1, Deed::IsOpen, Ok(1)),
    (0, Deed::Entries, Ok(1)),
    (0, Deed::Grow(1), Ok(0)),
];

pub(super) static SCENES: [Scene; 4] = [
    // Additions and a tick are refused memory, and the journal stays. So does the time: a lesser one is none to the
    // past.
    Scene {
        name: "refused_additions_and_ticks_change_nothing",
        before: &[
            (0, STALLED, Ok(1)),
            (0, Deed::Fill(0), Ok(0)),
            (0, Deed::Enter(1, 1), NO_MEMORY),
            (0, ROBUST, NO_MEMORY),
            (0, Deed::Cond(1), NO_MEMORY),
            (0, Deed::Tick(5), NO_MEMORY),
            (0, Deed::Entries, Ok(0)),
            (0, Deed::Grow(1), Ok(0)),
            (0, Deed::Tick(3), Ok(0)),
        ],
        ..EMPTY
    },
    // A call is refused memory at its beginning, and none is open.
    Scene {
        name: "call_that_could_not_begin_is_not_open",
        before: &[
            (0, STALLED, Ok(1)),
            (0, Deed::Enter(1, 10), Ok(1)),
            (0, Deed::Fill(0), Ok(0)),
            (1, LOCK, NO_MEMORY),
            (1, Deed::IsOpen, Ok(0)),
            (0, Deed::Entries, Ok(0)),
        ],
        ..EMPTY
    },
    // Another call is refused meanwhile, by one event, and the open one goes on, by its two steps.
    Scene {
        name: "refused_journal_growth_leaves_call_open",
        ends: End::Answered(1),
        before: CUT,
        after: &[
            (1, LOCK, BUSY),
            (0, Deed::Entries, Ok(2)),
            (1, Deed::Resume, Ok(0)),
            (0, Deed::Entries, Ok(4)),
            (1, Deed::IsOpen, Ok(0)),
        ],
        ..EMPTY
    },
    // The client ends with its call open, by one event. The call stays open in its log, and its next step is refused.
    Scene {
        name: "quit_after_refused_memory",
        before: CUT,
        after: &[
            (1, Deed::Quit, Ok(0)),
            (0, Deed::Entries, Ok(2)),
            (1, Deed::Resume, DEAD),
            (0, Deed::Entries, Ok(3)),
        ],
        ..EMPTY
    },
];
