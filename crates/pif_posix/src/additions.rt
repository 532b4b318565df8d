ghost use Rattle.std.specs.Prelude.{◌≡◌, ◌==◌, ◌++◌, ◌∷◌, [], ℕ, false, None, nat_le, if◌then◌else◌, IfOk, OnOk};
ghost use Rattle.pif_model.specs.World.{empty_world, no_memory};
ghost use Rattle.pif_model.specs.Deadlines.{no_timer};
ghost use Rattle.pif_model.specs.Posix.{new_mutex, new_variable};
ghost use Rattle.pif_posix_steps.specs.Doing.{thread_added, mutex_added, variable_added, ticked, Does};

use crate::parts::{Lockable, Signalled, Task};
use crate::state::State;
use pif_model::Timer;
use pif_posix_steps::HistoryLimits;
use pif_search::{Stop, one, push};
use pif_types::{CondId, Health, Kind, MutexId, Prio, Tid};
use std::alloc::Global;

/// A thread of this base priority that has begun no call, and lives or not.
fn new_task(alloc: Global, base: u32, living: bool) -> Task
    ensures { result ≡ record { base = base; living = living; call = None; timer = no_timer; memory = no_memory } }
{
    Task {
        base,
        living,
        call: None,
        timer: Timer {
            deadline: None,
            expired: false,
        },
        waits: 0,
        found: Vec::new(alloc),
    }
}

/// A mutex of this kind that nobody owns.
fn new_lockable(kind: Kind, robust: bool) -> Lockable
    ensures { result ≡ new_mutex kind robust }
{
    Lockable {
        kind,
        robust,
        owner: 0,
        count: 1,
        health: Health::Fine,
    }
}

/// A variable that is bound to this mutex.
fn new_signalled(mutex: u32) -> Signalled
    ensures { result ≡ new_variable mutex }
{
    Signalled { mutex, uses: 0 }
}

/// Whether this number is the next in a list of so many places, and within a limit.
fn is_next(number: u32, places: usize, limit: u32) -> bool
    ensures { result ≡ (if number == places then nat_le number limit else false) }
{
    number as usize == places && number <= limit
}

/// The empty state, additions and ticks.
impl State {
    /// The state in which nothing was added yet, if a variable takes this many signals and broadcasts together.
    ///
    /// # Errors
    ///
    /// Out of memory.
    pub fn new(alloc: Global, signals: u32) -> Result<State, Stop>
        ensures { IfOk result (λ s. s ≡ empty_world signals) }
    {
        let threads = one(alloc, new_task(alloc, 0, false))?;
        let mutexes = one(alloc, new_lockable(Kind::Normal, false))?;
        let variables = one(alloc, new_signalled(0))?;
        Ok(State {
            threads,
            mutexes,
            variables,
            waiters: Vec::new(alloc),
            signals,
            time: 0,
        })
    }

    /// A thread is added, with this base priority; false if it isn't the next, or passes the limit.
    pub(crate) fn add_thread(
        &mut self,
        alloc: Global,
        limits: &HistoryLimits,
        thread: Tid,
        priority: Prio,
    ) -> Result<bool, Stop>
        ensures { IfOk result (λ b. Does self.old (thread_added limits.now thread priority self.old) b self.new) }
    {
        if !is_next(thread.get(), self.thread_count(), limits.most_threads()) {
            return Ok(false);
        }
        push(&mut self.threads, new_task(alloc, priority.get(), true))?;
        Ok(true)
    }

    /// A mutex of this kind is added, robust or not; false if it isn't the next, or passes the limit.
    pub(crate) fn add_mutex(
        &mut self,
        limits: &HistoryLimits,
        mutex: MutexId,
        kind: Kind,
        robust: bool,
    ) -> Result<bool, Stop>
        ensures { IfOk result (λ b. Does self.old (mutex_added limits.now mutex kind robust self.old) b self.new) }
    {
        if !is_next(mutex.get(), self.mutex_count(), limits.most_mutexes()) {
            return Ok(false);
        }
        push(&mut self.mutexes, new_lockable(kind, robust))?;
        Ok(true)
    }

    /// A variable is added, bound to this mutex; false if it isn't the next, or passes the limit, or the mutex was
    /// never added.
    pub(crate) fn add_variable(
        &mut self,
        limits: &HistoryLimits,
        cond: CondId,
        mutex: MutexId,
    ) -> Result<bool, Stop>
        ensures { IfOk result (λ b. Does self.old (variable_added limits.now cond mutex self.old) b self.new) }
    {
        if !self.is_mutex(mutex.get()) {
            return Ok(false);
        }
        if !is_next(cond.get(), self.variable_count(), limits.most_variables()) {
            return Ok(false);
        }
        push(&mut self.variables, new_signalled(mutex.get()))?;
        Ok(true)
    }

    /// The time is this from here on; false if that would set it back.
    pub(crate) fn tick(&mut self, time: u32) -> bool
        ensures { Does self.old (ticked time self.old) result self.new }
    {
        if self.tick_refusal(time).is_some() {
            return false;
        }
        self.time = time;
        true
    }
}
