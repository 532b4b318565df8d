ghost use Rattle.std.specs.Prelude.{◌≡◌, ◌<◌, ℕ, length, IfOk, OnOk};
ghost use Rattle.pif_model.specs.Posix.{thread_at};
ghost use Rattle.pif_posix_steps.specs.Doing.{priority_set, wait_checked, variable_used, expired_by, Does};

use crate::progress::Progress;
use crate::state::State;
use pif_search::Stop;
use pif_types::{Errno, Request};

/// What calls do to priorities, to variables, and when they run out of time.
impl State {
    /// A thread sets the base priority of another, or its own.
    pub(crate) fn set_priority(&mut self, thread: u32, other: u32, priority: u32)
        requires { thread < length self.old.threads }
        ensures { self.new ≡ priority_set thread other priority self.old }
    {
        if priority == 0 || priority >= 100 {
            self.fail(thread as usize, Errno::Invalid);
        } else if other as usize >= self.thread_count() {
            self.fail(thread as usize, Errno::NoSuchThread);
        } else if self.is_living(other as usize) {
            self.set_base(other as usize, priority);
            self.set_progress(thread as usize, Progress::Has(0));
        } else {
            self.fail(thread as usize, Errno::NoSuchThread);
        }
    }

    /// A wait of a thread looks at its variable and its mutex.
    pub(crate) fn check_wait(&mut self, thread: u32, variable: usize, mutex: u32) -> bool
        requires thread { thread < length self.old.threads }
        requires variable { variable < length self.old.variables }
        requires mutex { mutex < length self.old.mutexes }
        ensures { Does self.old (wait_checked thread variable mutex self.old) result self.new }
    {
        if self.bound(variable) != mutex {
            self.fail(thread as usize, Errno::Invalid);
            return true;
        }
        if self.owner(mutex as usize) != thread {
            self.fail(thread as usize, Errno::NotPermitted);
            return true;
        }
        let count = self.count(mutex as usize);
        if count == 0 {
            return false;
        }
        if count == 1 {
            self.set_progress(thread as usize, Progress::Checked);
            return true;
        }
        self.fail(thread as usize, Errno::Invalid);
        true
    }

    /// A signal or broadcast of a thread uses a variable.
    pub(crate) fn use_variable(&mut self, thread: u32, variable: u32) -> Result<(), Stop>
        requires thread { thread < length self.old.threads }
        requires variable { variable < length self.old.variables }
        ensures { OnOk result (self.new ≡ variable_used thread variable self.old) }
    {
        if self.uses(variable as usize) == self.signals {
            self.fail(thread as usize, Errno::Overflow);
            return Ok(());
        }
        self.count_use(variable)?;
        self.set_progress(thread as usize, Progress::Used);
        Ok(())
    }

    /// A call of a thread, which is due, expires.
    pub(crate) fn expire(&mut self, thread: u32, request: &Request) -> bool
        requires { thread < length self.old.threads }
        ensures { Does self.old (expired_by request.now thread self.old) result self.new }
    {
        match *request {
            Request::Lock(_) => {
                self.drop_waiter(thread);
                self.fail(thread as usize, Errno::TimedOut);
                true
            }
            Request::Wait(_, _) => {
                self.run_out(thread as usize);
                self.set_progress(thread as usize, Progress::Reacquiring);
                true
            }
            Request::TryLock(_) => false,
            Request::Unlock(_) => false,
            Request::Consistent(_) => false,
            Request::Signal(_) => false,
            Request::Broadcast(_) => false,
            Request::SetPrio(_, _) => false,
            Request::TimedLock(_, _) => false,
            Request::TimedWait(_, _, _) => false,
        }
    }
}
