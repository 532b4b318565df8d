ghost use Rattle.std.specs.Prelude.{◌≡◌, true};
ghost use Rattle.std.specs.List.{slice_get};
ghost use Rattle.pif_model.specs.PiKernel.{seat_at, has_seat, waiters_in, parked_in, ready_in, IsPathIn};
ghost use Rattle.pif_kernel_model.specs.Inside.{IsSoundInside, kernel_of};

use crate::chains::Chains;
use crate::parts::Parts;
use arrayvec::ArrayVec;
use pif_types::{CondId, MutexId, Prio, Tid};

impl<C: Chains + Drop> Parts<C> {
    /// The base priority of a thread.
    pub fn base(&self, t: Tid) -> Prio
        requires sound { IsSoundInside self.now }
        requires added { has_seat (kernel_of self.now) t ≡ true }
        ensures { result ≡ (seat_at (kernel_of self.now) t).base }
    {
        self.chains.base(t).unwrap()
    }

    /// The waiter of a mutex before which this many others get it. `None` if so few wait for it.
    pub fn waiter(&self, m: MutexId, place: u32) -> Option<Tid>
        requires { IsSoundInside self.now }
        ensures { result ≡ slice_get (waiters_in (kernel_of self.now) m) place }
    {
        let key = self.key(m)?;
        let mut at = self.chains.top(key)?;
        for _passed in 0..place {
            at = self.chains.behind(at)?;
        }
        Some(at)
    }

    /// The thread that is parked on a variable and before which this many others are taken. `None` if so few are
    /// parked on it.
    pub fn parked_at(&self, c: CondId, place: u32) -> Option<Tid>
        requires { IsSoundInside self.now }
        ensures { result ≡ slice_get (parked_in (kernel_of self.now) c) place }
    {
        self.chains.nth_parked(c, place)
    }

    /// The ready thread before which this many others run. `None` if so few are ready.
    pub fn ready(&self, place: u32) -> Option<Tid>
        requires { IsSoundInside self.now }
        ensures { result ≡ slice_get (ready_in (kernel_of self.now)) place }
    {
        self.chains.nth(place)
    }

    /// The threads from `t` on along whom each waits for, in order, up to the one that waits for nobody. None if `t`
    /// doesn't live.
    pub fn path(&self, t: Tid) -> ArrayVec<Tid, 1024>
        requires { IsSoundInside self.now }
        ensures { IsPathIn (kernel_of self.now) t result.items }
    {
        if self.lives(t) {
            self.chains.path(t)
        } else {
            ArrayVec::new()
        }
    }
}
