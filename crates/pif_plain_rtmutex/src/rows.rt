use pif_kernel_model::Key;
use pif_nodes::Key as Rank;
use pif_rtmutex::ThreadPriorities;
use std::marker::Model;

/// What a thread waits for: the owner state on which it is queued, the priority with which it stands there, and its
/// ticket.
#[derive(Clone, Copy)]
pub struct Wait {
    pub state: Key,
    pub rank: Rank,
}

impl Model for Wait {
    ghost use Rattle.pif_kernel_model.specs.Owners.{Wait as WaitSeen, wait_code};

    ghost Value = { WaitSeen };

    ghost coded = { wait_code };

    ghost view = { λ w. record { state = w.state; rank = w.rank } };

    ghost inverse = { λ w. record { state = w.state; rank = w.rank } };
}

/// What is known of a thread: its priorities, and what it waits for.
#[derive(Clone, Copy)]
pub struct Row {
    pub priorities: ThreadPriorities,
    pub wait: Option<Wait>,
}

impl Model for Row {
    ghost use Rattle.pif_kernel_model.specs.Owners.{Task, seat_code};

    ghost Value = { Task };

    ghost coded = { seat_code };

    ghost view = { λ r. record { base = r.priorities.base; local = r.priorities.local; wait = r.wait } };

    ghost inverse = { λ s. record { priorities = record { base = s.base; local = s.local }; wait = s.wait } };
}

/// What stands at place 0, which is nobody's, and of a thread that was not admitted.
pub const NOBODY: Row = Row {
    priorities: ThreadPriorities::NONE,
    wait: None,
};
