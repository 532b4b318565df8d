ghost use Rattle.std.specs.Prelude.{◌≡◌, ◌<◌, ◌∷◌, ℕ, length, map, OnOk};
ghost use Rattle.pif_model.specs.World.{mutex_at, with_progress, with_call_by, with_mutex};
ghost use Rattle.pif_model.specs.Posix.{with_waiter, without_waiter, with_hold_count, with_health, with_base, after_unblocking, after_timeout, without_call, after_end, after_use, used};
ghost use Rattle.pif_model.specs.World.Progress.{Has};
ghost use Rattle.pif_model.specs.Graph.{without};
ghost use Rattle.pif_types.specs.Numbers.{number_of};
ghost use Rattle.pif_rules_model.specs.Rules.{bound_to, used_uncounted};
ghost use Rattle.pif_posix.specs.Shapes.{health_of, progress_of};

use crate::parts::Task;
use crate::progress::Progress;
use crate::state::State;
use pif_search::Stop;
use pif_types::{Errno, Health};

/// The pairs of all threads but one.
fn drop_from(waiters: &mut Vec<(u32, u32)>, thread: u32)
    ensures { waiters.new.items ≡ without waiters.old.items thread }
{
    waiters.retain(|pair| pair.0 != thread);
}

/// All threads see that a signal or broadcast uses a variable.
fn see_use(threads: &mut [Task], variable: u32)
    ensures { threads.new ≡ map (after_use variable) threads.old }
{
    for task in threads.iter_mut() {
        task.see_use(variable);
    }
}

/// Changes of one thing.
impl State {
    /// The call of a thread comes this far, whether or not a step leads there. Nothing else changes.
    pub fn set_progress(&mut self, thread: usize, progress: Progress)
        requires { thread < length self.old.threads }
        ensures { self.new ≡ with_progress thread (progress_of progress) self.old }
    {
        let task = &mut self.threads[thread];
        task.come(progress);
    }

    /// A mutex has this owner, who holds it so often.
    pub(crate) fn set_owner(&mut self, mutex: usize, owner: u32, count: u32)
        requires { mutex < length self.old.mutexes }
        ensures { self.new ≡ with_mutex mutex (record (mutex_at self.old mutex) { owner = owner; count = count }) self.old }
    {
        let it = &mut self.mutexes[mutex];
        it.owner = owner;
        it.count = count;
    }

    /// What a mutex protects is in this state, whether or not a step leads there. Nothing else changes.
    pub fn set_health(&mut self, mutex: usize, health: Health)
        requires { mutex < length self.old.mutexes }
        ensures { self.new ≡ with_health mutex (health_of health) self.old }
    {
        let it = &mut self.mutexes[mutex];
        it.health = health;
    }

    /// A mutex is held so often, whether or not a step leads there. Nothing else changes.
    pub fn set_count(&mut self, mutex: usize, count: u32)
        requires { mutex < length self.old.mutexes }
        ensures { self.new ≡ with_hold_count mutex count self.old }
    {
        let it = &mut self.mutexes[mutex];
        it.count = count;
    }

    /// A thread at the end of the waiters, for a mutex.
    pub(crate) fn push_waiter(&mut self, thread: u32, mutex: u32) -> Result<(), Stop>
        ensures { OnOk result (self.new ≡ with_waiter thread mutex self.old) }
    {
        match self.waiters.push((thread, mutex)) {
            Ok(()) => Ok(()),
            Err(_) => Err(Stop::NoMemory),
        }
    }

    /// A thread before all other waiters, for a mutex, whether or not a step leads there. Nothing else changes.
    ///
    /// # Errors
    ///
    /// Out of memory.
    pub fn put_first(&mut self, thread: u32, mutex: u32) -> Result<(), Stop>
        ensures { OnOk result (self.new ≡ record self.old { waiters = (thread, mutex) ∷ self.old.waiters }) }
    {
        match self.waiters.insert(0, (thread, mutex)) {
            Ok(()) => Ok(()),
            Err(_) => Err(Stop::NoMemory),
        }
    }

    /// A thread not among the waiters.
    pub(crate) fn drop_waiter(&mut self, thread: u32)
        ensures { self.new ≡ without_waiter thread self.old }
    {
        drop_from(&mut self.waiters, thread);
    }

    /// The call of a thread has the number of this error as its result.
    pub(crate) fn fail(&mut self, thread: usize, error: Errno)
        requires { thread < length self.old.threads }
        ensures { self.new ≡ with_progress thread (Has (number_of error)) self.old }
    {
        self.set_progress(thread, Progress::Has(error.number()));
    }

    /// A thread has this base priority.
    pub(crate) fn set_base(&mut self, thread: usize, base: u32)
        requires { thread < length self.old.threads }
        ensures { self.new ≡ with_base thread base self.old }
    {
        let task = &mut self.threads[thread];
        task.base = base;
    }

    /// A thread is unblocked, if it was blocked.
    pub(crate) fn wake(&mut self, thread: usize)
        requires { thread < length self.old.threads }
        ensures { self.new ≡ with_call_by thread after_unblocking self.old }
    {
        let task = &mut self.threads[thread];
        task.wake();
    }

    /// The call of a thread has run out of time.
    pub(crate) fn run_out(&mut self, thread: usize)
        requires { thread < length self.old.threads }
        ensures { self.new ≡ after_timeout thread self.old }
    {
        let task = &mut self.threads[thread];
        task.run_out();
    }

    /// The call of a thread closes.
    pub(crate) fn close(&mut self, thread: usize)
        requires { thread < length self.old.threads }
        ensures { self.new ≡ with_call_by thread without_call self.old }
    {
        let task = &mut self.threads[thread];
        task.call = None;
    }

    /// A thread has ended, but for the robust mutexes that it owns.
    pub(crate) fn leave_all(&mut self, thread: u32)
        requires { thread < length self.old.threads }
        ensures { self.new ≡ after_end thread self.old }
    {
        let task = &mut self.threads[thread as usize];
        task.living = false;
        task.call = None;
        drop_from(&mut self.waiters, thread);
    }

    /// A signal or broadcast uses a variable once more.
    pub(crate) fn count_use(&mut self, variable: u32) -> Result<(), Stop>
        requires { variable < length self.old.variables }
        ensures { OnOk result (self.new ≡ used variable self.old) }
    {
        let it = &mut self.variables[variable as usize];
        match it.uses.checked_add(1) {
            None => return Err(Stop::Range),
            Some(uses) => it.uses = uses,
        }
        see_use(&mut self.threads, variable);
        Ok(())
    }

    /// A signal or broadcast uses a variable, and that isn't counted.
    pub(crate) fn use_uncounted(&mut self, variable: u32)
        ensures { self.new ≡ used_uncounted variable self.old }
    {
        see_use(&mut self.threads, variable);
    }

    /// A variable is bound to a mutex.
    pub(crate) fn bind(&mut self, variable: usize, mutex: u32)
        requires { variable < length self.old.variables }
        ensures { self.new ≡ bound_to variable mutex self.old }
    {
        let it = &mut self.variables[variable];
        it.mutex = mutex;
    }
}
