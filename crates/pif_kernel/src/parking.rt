ghost use Rattle.std.specs.Prelude.{◌≡◌, ◌≤◌, true, false, if◌then◌else◌, Some, None};
ghost use Rattle.pif_model.specs.PiKernel.{seat_at, has_seat, is_ready, queued_on, has_parked, top_parked, kernel_after_parking, kernel_after_waking};
ghost use Rattle.pif_kernel_model.specs.Inside.{IsSoundInside, kernel_of};

use crate::chains::Chains;
use crate::parts::Parts;
use pif_model::{Status, Woken};
use pif_types::{CondId, MutexId, Tid};

impl<C: Chains + Drop> Parts<C> {
    /// Parks a ready thread on a variable, whose number is 256 at most, behind all that are parked, and out of the run
    /// queue. It is to get the mutex `m` once it is taken from there.
    pub fn park(&mut self, t: Tid, c: CondId, m: MutexId)
        requires sound { IsSoundInside self.old }
        requires added { has_seat (kernel_of self.old) t ≡ true }
        requires ready { is_ready (seat_at (kernel_of self.old) t).status ≡ true }
        requires cond { c ≤ 256 }
        ensures after { kernel_of self.new ≡ kernel_after_parking t c m (kernel_of self.old) }
        ensures sound { IsSoundInside self.new }
    {
        self.statuses[t.get() as usize] = Status::Parked(c);
        self.chains.park(t, c, m);
        // No walk: a parked thread waits for no thread, and what it owns still boosts it, so that no priority changes.
        self.chains.take_out(t);
    }

    /// Wakes a thread that is parked or stopped: it leaves its variable, and is ready at the end of its level.
    pub fn wake(&mut self, t: Tid, woken: Woken)
        requires sound { IsSoundInside self.old }
        requires added { has_seat (kernel_of self.old) t ≡ true }
        requires unready { is_ready (seat_at (kernel_of self.old) t).status ≡ false }
        requires unqueued { queued_on (seat_at (kernel_of self.old) t).status ≡ 0 }
        ensures after { kernel_of self.new ≡ kernel_after_waking t woken (kernel_of self.old) }
        ensures sound { IsSoundInside self.new }
    {
        self.chains.unpark(t);
        self.statuses[t.get() as usize] = Status::Ready(woken);
        let level = self.chains.local(t).unwrap();
        self.chains.add(t, level);
    }

    /// The thread that is taken next from a variable: of those of greatest effective priority that are parked on it the
    /// first in order of tickets. `None` if none is.
    pub fn next_parked(&self, c: CondId) -> Option<Tid>
        requires sound { IsSoundInside self.now }
        ensures next { result ≡ (if has_parked (kernel_of self.now) c then Some (top_parked (kernel_of self.now) c) else None) }
    {
        self.chains.top_parked(c)
    }
}
