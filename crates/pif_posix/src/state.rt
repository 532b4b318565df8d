ghost use Rattle.std.specs.Prelude.{◌≡◌, ◌<◌, ◌==◌, ℕ, length, IfOk};
ghost use Rattle.std.specs.List.{list_any};
ghost use Rattle.pif_model.specs.World.{thread_at, mutex_at, variable_at, is_living, is_orphaned, is_blocked_on, sleeps, rests};
ghost use Rattle.pif_model.specs.Posix.{is_due};
ghost use Rattle.pif_posix.specs.Shapes.{health_of, call_of};

use crate::parts::{Lockable, Signalled, Task};
use crate::progress::Call;
use pif_model::Timer;
use pif_search::Stop;
use pif_types::{Health, Kind};
use std::marker::Model;

/// A state of the POSIX machine.
pub struct State {
    pub(crate) threads: Vec<Task>,
    pub(crate) mutexes: Vec<Lockable>,
    pub(crate) variables: Vec<Signalled>,
    pub(crate) waiters: Vec<(u32, u32)>,
    pub(crate) signals: u32,
    pub(crate) time: u32,
}

// A destructor of its own: what owns a state calls it, and has not to be proved to let go of each of its lists.
impl Drop for State {
    fn drop(self) {
        let State {
            threads: _,
            mutexes: _,
            variables: _,
            waiters: _,
            signals: _,
            time: _,
        } = self;
    }
}

impl Model for State {
    ghost use Rattle.pif_model.specs.World.{World};

    ghost Value = { World };

    ghost view = { λ x. record { threads = x.threads.items; mutexes = x.mutexes.items; variables = x.variables.items; waiters = x.waiters.items; signals = x.signals; time = x.time } };
}

impl State {
    /// The owner of a mutex; 0 if it has none.
    pub(crate) fn owner(&self, mutex: usize) -> u32
        requires { mutex < length self.now.mutexes }
        ensures { result ≡ (mutex_at self.now mutex).owner }
    {
        let it = &self.mutexes[mutex];
        it.owner
    }

    /// The owner of a mutex; 0 if it has none or was not added.
    pub fn owner_or_none(&self, mutex: usize) -> u32
        ensures { result ≡ (mutex_at self.now mutex).owner }
    {
        if mutex < self.mutexes.len() {
            let it = &self.mutexes[mutex];
            it.owner
        } else {
            0
        }
    }

    /// The waiters of all mutexes, in order of arrival.
    pub(crate) fn waiters(&self) -> &[(u32, u32)]
        ensures { result.now ≡ self.now.waiters }
    {
        self.waiters.as_slice()
    }

    /// How many places the threads have, with that of nobody.
    pub fn thread_count(&self) -> usize
        ensures { result ≡ length self.now.threads }
    {
        self.threads.len()
    }

    /// The base priority of a thread; 0 if it was not added.
    pub fn base(&self, thread: usize) -> u32
        ensures { result ≡ (thread_at self.now thread).base }
    {
        if thread < self.threads.len() {
            let task = &self.threads[thread];
            task.base
        } else {
            0
        }
    }

    /// How many places the mutexes have, with that of no mutex.
    pub fn mutex_count(&self) -> usize
        ensures { result ≡ length self.now.mutexes }
    {
        self.mutexes.len()
    }

    /// The health of a mutex.
    pub fn health(&self, mutex: usize) -> Health
        requires { mutex < length self.now.mutexes }
        ensures { health_of result ≡ (mutex_at self.now mutex).health }
    {
        let it = &self.mutexes[mutex];
        it.health
    }

    /// The kind of a mutex.
    pub fn kind(&self, mutex: usize) -> Kind
        requires { mutex < length self.now.mutexes }
        ensures { result ≡ (mutex_at self.now mutex).kind }
    {
        let it = &self.mutexes[mutex];
        it.kind
    }

    /// How often the owner of a mutex holds it.
    pub fn count(&self, mutex: usize) -> u32
        requires { mutex < length self.now.mutexes }
        ensures { result ≡ (mutex_at self.now mutex).count }
    {
        let it = &self.mutexes[mutex];
        it.count
    }

    /// Whether a mutex is orphaned.
    pub(crate) fn is_orphaned(&self, mutex: usize) -> bool
        requires { mutex < length self.now.mutexes }
        ensures { result ≡ is_orphaned self.now mutex }
    {
        let it = &self.mutexes[mutex];
        !it.robust && it.owner != 0 && !self.is_living(it.owner as usize)
    }

    /// Whether a thread lives.
    pub fn is_living(&self, thread: usize) -> bool
        ensures { result ≡ is_living self.now thread }
    {
        if thread < self.threads.len() {
            let task = &self.threads[thread];
            task.living
        } else {
            false
        }
    }

    /// Whether a mutex is robust.
    pub fn is_robust(&self, mutex: usize) -> bool
        requires { mutex < length self.now.mutexes }
        ensures { result ≡ (mutex_at self.now mutex).robust }
    {
        let it = &self.mutexes[mutex];
        it.robust
    }

    /// The mutex to which a variable is bound.
    pub fn bound(&self, variable: usize) -> u32
        requires { variable < length self.now.variables }
        ensures { result ≡ (variable_at self.now variable).mutex }
    {
        let it = &self.variables[variable];
        it.mutex
    }

    /// How often a variable was signalled or broadcast.
    pub(crate) fn uses(&self, variable: usize) -> u32
        requires { variable < length self.now.variables }
        ensures { result ≡ (variable_at self.now variable).uses }
    {
        let it = &self.variables[variable];
        it.uses
    }

    /// How many places the variables have, with that of no variable.
    pub fn variable_count(&self) -> usize
        ensures { result ≡ length self.now.variables }
    {
        self.variables.len()
    }

    /// The time that was handed in last, 0 at first.
    pub fn time(&self) -> u32
        ensures { result ≡ self.now.time }
    {
        self.time
    }

    /// The open call of a thread, if it has one.
    pub fn call(&self, thread: usize) -> Option<Call>
        ensures { call_of result ≡ (thread_at self.now thread).call }
    {
        if thread < self.threads.len() {
            let task = &self.threads[thread];
            task.call
        } else {
            None
        }
    }

    /// What the last call of a thread has of its deadline.
    pub fn timer(&self, thread: usize) -> Timer
        requires { thread < length self.now.threads }
        ensures { result ≡ (thread_at self.now thread).timer }
    {
        let task = &self.threads[thread];
        task.timer
    }

    /// How many waits a thread has begun.
    pub(crate) fn waits(&self, thread: usize) -> u64
        requires { thread < length self.now.threads }
        ensures { result ≡ (thread_at self.now thread).memory.waits }
    {
        let task = &self.threads[thread];
        task.waits
    }

    /// Whom the last signal or broadcast of a thread found blocked when it began, each with the number of that wait.
    pub(crate) fn found(&self, thread: usize) -> &[(u32, u64)]
        requires { thread < length self.now.threads }
        ensures { result.now ≡ (thread_at self.now thread).memory.found }
    {
        let task = &self.threads[thread];
        task.found.as_slice()
    }

    /// Whether a thread is blocked on a variable.
    pub fn is_blocked_on(&self, thread: usize, variable: u32) -> bool
        requires { thread < length self.now.threads }
        ensures { result ≡ is_blocked_on self.now variable thread }
    {
        let task = &self.threads[thread];
        task.is_blocked_on(variable)
    }

    /// Whether the open call of a thread is due: its deadline counts, and is reached.
    pub fn is_due(&self, thread: usize) -> bool
        requires { thread < length self.now.threads }
        ensures { result ≡ is_due self.now thread }
    {
        let task = &self.threads[thread];
        task.is_due(self.time)
    }

    /// Whether a thread waits for good, or is blocked and was told to wait.
    fn sleeps(&self, thread: usize) -> bool
        ensures { result ≡ sleeps (thread_at self.now thread).call }
    {
        if thread < self.threads.len() {
            let task = &self.threads[thread];
            task.sleeps()
        } else {
            false
        }
    }

    /// Whether a thread is among the waiters of a mutex.
    pub fn is_waiter(&self, thread: usize) -> bool
        ensures { result ≡ list_any (λ p. p.0 == thread) self.now.waiters }
    {
        self.waiters.iter().any(|pair| pair.0 as usize == thread)
    }

    /// Whether a thread rests: it is among the waiters of a mutex, waits for good, or is blocked and was told to wait.
    pub fn rests(&self, thread: usize) -> bool
        ensures { result ≡ rests self.now thread }
    {
        self.sleeps(thread) || self.is_waiter(thread)
    }

    /// The number of a mutex that the state has.
    ///
    /// # Errors
    ///
    /// The state has no such mutex.
    pub fn place_of_mutex(&self, mutex: u32) -> Result<usize, Stop>
        ensures { IfOk result (λ n. (n ≡ mutex) × (n < length self.now.mutexes)) }
    {
        if (mutex as usize) < self.mutexes.len() {
            Ok(mutex as usize)
        } else {
            Err(Stop::Range)
        }
    }

    /// The number of a variable that the state has.
    ///
    /// # Errors
    ///
    /// The state has no such variable.
    pub fn place_of_variable(&self, variable: u32) -> Result<usize, Stop>
        ensures { IfOk result (λ n. (n ≡ variable) × (n < length self.now.variables)) }
    {
        if (variable as usize) < self.variables.len() {
            Ok(variable as usize)
        } else {
            Err(Stop::Range)
        }
    }
}
