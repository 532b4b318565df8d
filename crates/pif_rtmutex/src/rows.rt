ghost use Rattle.std.specs.Prelude.{◌≡◌, ◌≤◌, max, unwrap_or};

use crate::priorities::ThreadPriorities;
use pif_kernel_model::Key;
use pif_types::{Prio, Tid};
use std::marker::Model;

/// What is stored of an owner state: its owner, and its row, which says where its waiters stand.
#[derive(Clone, Copy)]
pub struct State {
    pub owner: Tid,
    pub row: u32,
}

impl Model for State {
    ghost use Rattle.pif_rtmutex.specs.Fields.{State as StateSeen, state_code};

    ghost Value = { StateSeen };

    ghost coded = { state_code };

    ghost view = { λ s. record { owner = s.owner; row = s.row } };

    ghost inverse = { λ s. record { owner = s.owner; row = s.row } };
}

impl State {
    /// A state of this owner, in this row.
    pub fn of(owner: Tid, row: u32) -> State
        ensures state { result ≡ record { owner = owner; row = row } }
        ensures thread { 1 ≤ owner }
    {
        State { owner, row }
    }
}

/// What is known of a thread: its priorities, and the owner state on which it is queued.
#[derive(Clone, Copy)]
pub struct Row {
    pub priorities: ThreadPriorities,
    pub wait: Option<Key>,
}

impl Model for Row {
    ghost use Rattle.pif_kernel_model.specs.States.{Row as RowSeen, row_code};

    ghost Value = { RowSeen };

    ghost coded = { row_code };

    ghost view = { λ r. record { base = r.priorities.base; local = r.priorities.local; wait = r.wait } };

    ghost inverse = { λ s. record { priorities = record { base = s.base; local = s.local }; wait = s.wait } };
}

/// What stands at place 0, which is nobody's, and of a thread that was not admitted.
pub const NOBODY: Row = Row {
    priorities: ThreadPriorities::NONE,
    wait: None,
};

/// The greater of two priorities. `None` is less than any.
pub fn greater(one: Option<Prio>, other: Option<Prio>) -> Option<Prio>
    ensures { unwrap_or result 0 ≡ max (unwrap_or one 0) (unwrap_or other 0) }
{
    match one {
        Some(mine) => match other {
            Some(theirs) if mine.get() < theirs.get() => Some(theirs),
            _ => Some(mine),
        },
        None => other,
    }
}
