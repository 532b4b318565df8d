//! Whom a use of a variable wakes: what a guide looks at in front of a line.
use crate::needs::Need;
use crate::scene::Scene;
use pif_history_machine::Role;
use pif_search::{Stop, push};
use std::alloc::Global;

impl Scene<'_> {
    /// The open signals and broadcasts of a variable, each as the place of its answer and its thread, those first that
    /// are answered first.
    pub(crate) fn uses(&self, alloc: Global, variable: u32) -> Result<Vec<(usize, usize)>, Stop> {
        let mut all = Vec::new(alloc);
        for other in 0..self.world.thread_count() {
            if self.uses_now(other, variable) {
                push(&mut all, (self.place(other), other))?;
            }
        }
        all.sort()?;
        Ok(all)
    }

    /// Whether a thread signals or broadcasts a variable.
    fn uses_now(&self, thread: usize, variable: u32) -> bool {
        match self.need(thread) {
            Need::Signals(used) | Need::Broadcasts(used) => used == variable,
            _ => false,
        }
    }

    /// Whether a thread signals a variable.
    pub(crate) fn signals(&self, thread: usize) -> bool {
        match self.need(thread) {
            Need::Signals(_) => true,
            _ => false,
        }
    }

    /// The variable that the open call of a thread signals or broadcasts; 0 if it does neither.
    pub(crate) fn used(&self, thread: usize) -> u32 {
        match self.need(thread) {
            Need::Signals(variable) | Need::Broadcasts(variable) => variable,
            _ => 0,
        }
    }

    /// Whether the open call of a thread may be answered 0.
    pub(crate) fn may_succeed(&self, thread: usize) -> bool {
        match self.known(thread) {
            Some(answer) => answer == 0,
            None => true,
        }
    }

    /// Whether a use of its variable may have woken a thread that is blocked in the scout's state.
    pub(crate) fn is_freed(&self, thread: usize) -> bool {
        self.later.leaving.is_freed(thread)
    }

    /// Whether the wait of a thread is left blocked if its variable is used.
    pub(crate) fn is_left(&self, thread: usize) -> bool {
        self.later.leaving.is_left(self.place(thread), self.line)
    }

    /// Whether a thread may come to own a mutex: its open call takes it, or waits for a variable, and may be woken or
    /// run out of time.
    pub(crate) fn may_take(&self, thread: usize, mutex: u32) -> bool {
        match self.need(thread) {
            Need::Takes(wanted) | Need::Tries(wanted) => wanted == mutex && self.may_own(thread),
            Need::Blocked(variable, wanted, _) => {
                wanted == mutex && (self.is_overdue(thread) || self.may_be_woken(thread, variable))
            }
            _ => false,
        }
    }

    /// Whether a thread that is blocked on a variable may be woken, or may have been.
    fn may_be_woken(&self, thread: usize, variable: u32) -> bool {
        if self.stays_blocked(thread) || !self.may_own(thread) {
            return false;
        }
        self.is_freed(thread) || self.has_use(variable)
    }

    /// Whether a signal or a broadcast of a variable is open that hasn't chosen whom it wakes.
    fn has_use(&self, variable: u32) -> bool {
        for other in 0..self.world.thread_count() {
            if self.uses_now(other, variable) {
                return true;
            }
        }
        false
    }

    /// Whether a thread has used its variable, and chooses at once whom it wakes. A player after the first lets a
    /// broadcast choose when a line needs that: who was blocked may run out of time before.
    pub(crate) fn chooses_at_once(&self, thread: usize) -> bool {
        match self.later.leaving.role() {
            Role::Searches => self.has_used(thread),
            Role::Plays | Role::Scouts => self.has_used(thread) && self.signals(thread),
        }
    }

    /// The first of these uses of a variable that is a signal, and that no wait will need which has yet to begin.
    pub(crate) fn spare_signal(&self, uses: &[(usize, usize)], variable: u32) -> Option<usize> {
        for i in 0..uses.len() {
            let (place, thread) = uses[i];
            if self.signals(thread) && !self.later.has_wait(variable, self.line, place) {
                return Some(thread);
            }
        }
        None
    }

    /// Whether a signal of a variable has to find somebody to wake: it is open, and a wait stays blocked whose time
    /// isn't over.
    pub(crate) fn is_awaited(&self, variable: u32) -> bool {
        let mut has_signal = false;
        let mut has_stayer = false;
        for other in 0..self.world.thread_count() {
            match self.need(other) {
                Need::Signals(used) => has_signal = has_signal || used == variable,
                _ => has_stayer = has_stayer || self.stays_on(other, variable),
            }
        }
        has_signal && has_stayer
    }

    /// Whether a thread is blocked on a variable and stays so, since its time isn't over.
    fn stays_on(&self, thread: usize, variable: u32) -> bool {
        self.is_blocked_on(thread, variable)
            && self.stays_blocked(thread)
            && !self.is_overdue(thread)
    }

    /// Whether a wait for a variable is blocked that is to stay so.
    pub(crate) fn has_stayer(&self, variable: u32) -> bool {
        for other in 0..self.world.thread_count() {
            if let Need::Blocked(wanted, _, true) = self.need(other)
                && wanted == variable
                && self.stays_blocked(other)
            {
                return true;
            }
        }
        false
    }

    /// Whether a thread was told to wait.
    fn is_told(&self, thread: usize) -> bool {
        match self.need(thread) {
            Need::Blocked(_, _, told) => told,
            _ => false,
        }
    }

    /// Whether a thread is blocked on a variable and may be woken by a use of it.
    pub(crate) fn is_wakeable(&self, thread: usize, variable: u32) -> bool {
        self.is_blocked_on(thread, variable) && !self.stays_blocked(thread)
    }

    /// The thread that a player tells to wait before it uses a variable: one that is left blocked. If somebody is, a
    /// signal has to choose one that was told to wait, so the first answered of the others is told as well.
    pub(crate) fn first_told(&self, variable: u32, is_signal: bool) -> Option<usize> {
        let mut leaves = self.has_stayer(variable);
        let mut first = None;
        let mut least = usize::MAX;
        for other in 0..self.world.thread_count() {
            if !self.is_wakeable(other, variable) {
                continue;
            }
            if self.is_left(other) {
                if !self.is_told(other) {
                    return Some(other);
                }
                leaves = true;
            } else if self.place(other) < least || first.is_none() {
                first = Some(other);
                least = self.place(other);
            }
        }
        match first {
            Some(other) if is_signal && leaves && !self.is_told(other) => Some(other),
            _ => None,
        }
    }

    /// How good it is that just these threads are blocked on a variable: where the first of those is answered that have
    /// to be woken; how many are left blocked; and where the first of these is answered.
    pub(crate) fn rank(&self, variable: u32) -> (usize, usize, usize) {
        let mut first = usize::MAX;
        let mut left = 0_usize;
        let mut first_left = usize::MAX;
        for other in 0..self.world.thread_count() {
            if !self.is_wakeable(other, variable) {
                continue;
            }
            if self.is_left(other) {
                left = left.saturating_add(1);
                first_left = usize::min(first_left, self.place(other));
            } else {
                first = usize::min(first, self.place(other));
            }
        }
        (first, left, first_left)
    }
}
