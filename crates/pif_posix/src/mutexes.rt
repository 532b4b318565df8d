ghost use Rattle.std.specs.Prelude.{◌≡◌, ◌<◌, ℕ, length, IfOk, OnOk};
ghost use Rattle.pif_model.specs.Posix.{taken, mutex_at};
ghost use Rattle.pif_posix_steps.specs.Doing.{locked, locked_more, tried, passed_on, released, unlocked, given_up, left, made_consistent, Does};
ghost use Rattle.pif_posix.specs.Shapes.{progress_of};

use crate::progress::Progress;
use crate::requests::named_by;
use crate::state::State;
use pif_search::Stop;
use pif_types::{Errno, Health, Kind, Request};

/// How often a mutex may be held.
pub const MOST_HOLDS: u32 = 255;

/// What calls do to mutexes.
impl State {
    /// A thread takes a mutex, whoever owns it. Its call has the result 0 or EOWNERDEAD, or has to give the mutex up
    /// again.
    pub fn take(&mut self, thread: u32, mutex: usize)
        requires thread { thread < length self.old.threads }
        requires mutex { mutex < length self.old.mutexes }
        ensures { self.new ≡ taken thread mutex self.old }
    {
        let progress = match self.health(mutex) {
            Health::Fine => Progress::Has(0),
            Health::Inconsistent => Progress::Has(130),
            Health::Unusable => Progress::Leaving,
        };
        self.set_owner(mutex, thread, 1);
        self.set_progress(thread as usize, progress);
    }

    /// The owner of a recursive mutex locks it again.
    fn lock_more(&mut self, thread: u32, mutex: usize) -> bool
        requires thread { thread < length self.old.threads }
        requires mutex { mutex < length self.old.mutexes }
        ensures { Does self.old (locked_more thread mutex self.old) result self.new }
    {
        let count = self.count(mutex);
        if count < MOST_HOLDS {
            self.set_count(mutex, count + 1);
            self.set_progress(thread as usize, Progress::Has(0));
            true
        } else if count == MOST_HOLDS {
            self.fail(thread as usize, Errno::Again);
            true
        } else {
            false
        }
    }

    /// A thread locks a mutex.
    pub(crate) fn lock(&mut self, thread: u32, mutex: u32) -> Result<bool, Stop>
        requires thread { thread < length self.old.threads }
        requires mutex { mutex < length self.old.mutexes }
        ensures { IfOk result (λ b. Does self.old (locked thread mutex self.old) b self.new) }
    {
        let at = mutex as usize;
        let owner = self.owner(at);
        if owner == thread {
            match self.kind(at) {
                Kind::Normal => self.set_progress(thread as usize, Progress::Stuck),
                Kind::ErrorCheck => self.fail(thread as usize, Errno::Deadlock),
                Kind::Recursive => return Ok(self.lock_more(thread, at)),
            }
        } else if owner == 0 {
            self.take(thread, at);
        } else if self.is_orphaned(at) {
            self.set_progress(thread as usize, Progress::Stuck);
        } else if self.leads_to(owner as usize, thread as usize) {
            self.fail(thread as usize, Errno::Deadlock);
        } else {
            self.push_waiter(thread, mutex)?;
            self.set_progress(thread as usize, Progress::Waiting);
        }
        Ok(true)
    }

    /// A thread tries to lock a mutex.
    pub(crate) fn try_lock(&mut self, thread: u32, mutex: u32) -> bool
        requires thread { thread < length self.old.threads }
        requires mutex { mutex < length self.old.mutexes }
        ensures { Does self.old (tried thread mutex self.old) result self.new }
    {
        let at = mutex as usize;
        let owner = self.owner(at);
        if owner == 0 {
            self.take(thread, at);
            return true;
        }
        if owner != thread {
            self.fail(thread as usize, Errno::Busy);
            return true;
        }
        match self.kind(at) {
            Kind::Normal => {
                self.fail(thread as usize, Errno::Busy);
                true
            }
            Kind::ErrorCheck => {
                self.fail(thread as usize, Errno::Busy);
                true
            }
            Kind::Recursive => self.lock_more(thread, at),
        }
    }

    /// A mutex passes on: to nobody, or to its next waiter, which takes it.
    pub(crate) fn pass_on(&mut self, mutex: u32) -> Result<(), Stop>
        requires { mutex < length self.old.mutexes }
        ensures { OnOk result (self.new ≡ passed_on mutex self.old) }
    {
        let next = self.next(mutex);
        if next == 0 {
            self.set_owner(mutex as usize, 0, 1);
            return Ok(());
        }
        if next as usize >= self.thread_count() {
            return Err(Stop::Range);
        }
        self.drop_waiter(next);
        self.take(next, mutex as usize);
        Ok(())
    }

    /// The owner of a mutex, who holds it once, gives it up, and its call has then come this far.
    fn release(&mut self, thread: u32, mutex: u32, progress: Progress) -> Result<(), Stop>
        requires thread { thread < length self.old.threads }
        requires mutex { mutex < length self.old.mutexes }
        ensures { OnOk result (self.new ≡ released (mutex_at self.old mutex).health thread mutex (progress_of progress) self.old) }
    {
        match self.health(mutex as usize) {
            Health::Inconsistent => {
                self.set_health(mutex as usize, Health::Unusable);
                Ok(())
            }
            Health::Fine => {
                self.set_progress(thread as usize, progress);
                self.pass_on(mutex)
            }
            Health::Unusable => {
                self.set_progress(thread as usize, progress);
                self.pass_on(mutex)
            }
        }
    }

    /// A thread unlocks a mutex.
    pub(crate) fn unlock(&mut self, thread: u32, mutex: u32) -> Result<bool, Stop>
        requires thread { thread < length self.old.threads }
        requires mutex { mutex < length self.old.mutexes }
        ensures { IfOk result (λ b. Does self.old (unlocked thread mutex self.old) b self.new) }
    {
        let at = mutex as usize;
        let owner = self.owner(at);
        if owner != thread {
            self.fail(thread as usize, Errno::NotPermitted);
            return Ok(true);
        }
        let count = self.count(at);
        if count == 0 {
            return Ok(false);
        }
        if count == 1 {
            self.release(thread, mutex, Progress::Has(0))?;
            return Ok(true);
        }
        self.set_count(at, count - 1);
        self.set_progress(thread as usize, Progress::Has(0));
        Ok(true)
    }

    /// A wait of a thread, which is enlisted and blocked still or not, gives a mutex up.
    pub(crate) fn give_up(&mut self, thread: u32, mutex: u32, still: bool) -> Result<bool, Stop>
        requires thread { thread < length self.old.threads }
        requires mutex { mutex < length self.old.mutexes }
        ensures { IfOk result (λ b. Does self.old (given_up thread mutex still self.old) b self.new) }
    {
        if self.owner(mutex as usize) != thread {
            return Ok(false);
        }
        let progress = Progress::on_release(still);
        self.release(thread, mutex, progress)?;
        Ok(true)
    }

    /// A call of a thread, which took an unusable mutex, gives it up again.
    pub(crate) fn leave(&mut self, thread: u32, request: &Request) -> Result<(), Stop>
        requires thread { thread < length self.old.threads }
        ensures { OnOk result (self.new ≡ left thread request.now self.old) }
    {
        let mutex = named_by(request);
        if mutex as usize >= self.mutex_count() {
            return Err(Stop::Range);
        }
        self.fail(thread as usize, Errno::NotRecoverable);
        self.pass_on(mutex)
    }

    /// A thread says that what a mutex protects is in order.
    pub(crate) fn make_consistent(&mut self, thread: u32, mutex: usize)
        requires thread { thread < length self.old.threads }
        requires mutex { mutex < length self.old.mutexes }
        ensures { self.new ≡ made_consistent thread mutex self.old }
    {
        if !self.is_robust(mutex) {
            self.fail(thread as usize, Errno::Invalid);
            return;
        }
        if self.owner(mutex) != thread {
            self.fail(thread as usize, Errno::NotPermitted);
            return;
        }
        match self.health(mutex) {
            Health::Inconsistent => {
                self.set_health(mutex, Health::Fine);
                self.set_progress(thread as usize, Progress::Has(0));
            }
            Health::Fine => self.fail(thread as usize, Errno::Invalid),
            Health::Unusable => self.fail(thread as usize, Errno::Invalid),
        }
    }
}
