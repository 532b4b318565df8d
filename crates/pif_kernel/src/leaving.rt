ghost use Rattle.std.specs.Prelude.{◌≡◌, true};
ghost use Rattle.pif_model.specs.declared.lines.Status.TheVariants.{Queued};
ghost use Rattle.pif_model.specs.PiKernel.{seat_at, is_living, is_out, kernel_left_as, kernel_after_expire};
ghost use Rattle.pif_kernel_model.specs.Inside.{IsSoundInside, kernel_of};
ghost use Rattle.pif_kernel_model.specs.Leaving.{IsLeft};

use crate::chains::Chains;
use crate::parts::Parts;
use pif_model::{Status, Woken};
use pif_types::{MutexId, Tid};

impl<C: Chains + Drop> Parts<C> {
    /// The deadline of a living thread is reached: it leaves what it waits for, with all that follows, and then is
    /// ready at the end of its level.
    pub fn expire(&mut self, t: Tid)
        requires sound { IsSoundInside self.old }
        requires living { is_living (kernel_of self.old) t ≡ true }
        ensures after { kernel_of self.new ≡ kernel_after_expire t (kernel_of self.old) }
        ensures sound { IsSoundInside self.new }
    {
        // Stopped in between, on no queue and no level: it joins its level once all that it boosted is walked.
        self.leave_as(t, Status::Stopped);
        self.wake(t, Woken::Expired);
    }

    /// A living thread leaves the mutex on which it is queued, whose owner state goes if nobody else waits, or the
    /// variable on which it is parked, and the run queue, and all for whom it waited get their new priorities. It has
    /// this status then, in which it waits for nothing and may not run. What it owns is not touched.
    pub fn leave_as(&mut self, t: Tid, status: Status)
        requires sound { IsSoundInside self.old }
        requires living { is_living (kernel_of self.old) t ≡ true }
        requires out { is_out status ≡ true }
        ensures after { kernel_of self.new ≡ kernel_left_as status t (kernel_of self.old) }
        ensures sound { IsSoundInside self.new }
    {
        let start = self.take_off(t);
        self.statuses[t.get() as usize] = status;
        self.chains.walk(start);
    }

    /// Takes a living thread off the mutex on which it is queued or the variable on which it is parked, or out of the
    /// run queue. Answers for whom it waited, and itself if it waited for nobody.
    fn take_off(&mut self, t: Tid) -> Tid
        requires sound { IsSoundInside self.old }
        requires living { is_living (kernel_of self.old) t ≡ true }
        ensures { IsLeft self.old self.new t result }
    {
        match self.status(t) {
            Status::Queued(m) => self.dequeue(t, m),
            Status::Ready(_) => {
                self.chains.take_out(t);
                t
            }
            Status::Parked(_) => {
                self.chains.unpark(t);
                t
            }
            Status::Stopped | Status::Ended => t,
        }
    }

    /// Takes a thread off the mutex on which it is queued. The owner state ends if nobody else is queued on it.
    /// Answers the owner in it.
    fn dequeue(&mut self, t: Tid, m: MutexId) -> Tid
        requires sound { IsSoundInside self.old }
        requires queued { (seat_at (kernel_of self.old) t).status ≡ Queued m }
        ensures { IsLeft self.old self.new t result }
    {
        let key = self.chains.find(m).unwrap();
        let owner = self.chains.owner(key);
        self.chains.dequeue(key, t);
        if self.chains.top(key).is_none() {
            self.chains.close(m, key);
        }
        owner
    }
}
