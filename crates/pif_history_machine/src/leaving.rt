//! Which waits are left blocked when their variable is used, and who asks.
use pif_search::{Stop, push};
use std::alloc::Global;

/// Who asks what is worth trying.
#[derive(Clone, Copy)]
pub enum Role {
    /// A search that keeps several states, or a player before any scout: a signal wakes as few as it can if some later
    /// wait for its variable runs out of time.
    Searches,
    /// A player that keeps one state, and leaves the waits blocked that a scout chose.
    Plays,
    /// A scout that keeps one state, and leaves open whom a use of a variable wakes.
    Scouts,
}

/// Which waits are left blocked when their variable is used.
#[derive(Drop)]
pub struct Leaving {
    role: Role,
    /// Of each place of an answer, up to which line the wait that is answered there is left blocked.
    until: Vec<usize>,
    /// The threads, blocked in the scout's state, which a use of their variable may have woken.
    freed: Vec<usize>,
}

impl Leaving {
    /// What a search is told, and a player before any scout: no wait is left blocked.
    pub fn for_search(alloc: Global) -> Leaving {
        Leaving {
            role: Role::Searches,
            until: Vec::new(alloc),
            freed: Vec::new(alloc),
        }
    }

    /// What a player is told: of each place of an answer, up to which line the wait that is answered there is left
    /// blocked. Behind the end of these numbers none is.
    pub fn for_player(alloc: Global, until: Vec<usize>) -> Leaving {
        Leaving {
            role: Role::Plays,
            until,
            freed: Vec::new(alloc),
        }
    }

    /// What a scout is told: nobody is freed.
    pub fn for_scout(alloc: Global) -> Leaving {
        Leaving {
            role: Role::Scouts,
            until: Vec::new(alloc),
            freed: Vec::new(alloc),
        }
    }

    /// Who asks.
    pub fn role(&self) -> Role {
        self.role
    }

    /// Whether the wait that is answered at a place is left blocked by a use before a line.
    pub fn is_left(&self, place: usize, line: usize) -> bool {
        match self.role {
            Role::Searches => false,
            Role::Plays => match self.until.get(place) {
                Some(until) => line < place && line < *until,
                None => false,
            },
            Role::Scouts => line < place,
        }
    }

    /// Whether a use of its variable may have woken a thread that is blocked in the scout's state.
    pub fn is_freed(&self, thread: usize) -> bool {
        self.freed.iter().any(|other| *other == thread)
    }

    /// A use of its variable may have woken this thread.
    ///
    /// # Errors
    ///
    /// Out of memory.
    pub fn free(&mut self, thread: usize) -> Result<(), Stop> {
        if self.is_freed(thread) {
            return Ok(());
        }
        push(&mut self.freed, thread)
    }

    /// The thread is blocked no more.
    pub fn unfree(&mut self, thread: usize) {
        self.freed.retain(|other| *other != thread);
    }
}
