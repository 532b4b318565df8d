ghost use Rattle.std.specs.Prelude.{◌≡◌, ◌==◌, ◌<◌, true, length, if◌then◌else◌, IsSome, Some};
ghost use Rattle.std.specs.Option.{ForSome};
ghost use Rattle.pif_kernel_model.specs.Owners.{owner_at};
ghost use Rattle.pif_model.specs.PiKernel.{wait_answer, state_at, has_other_target, fits_state, may_queue};
ghost use Rattle.pif_kernel.specs.Answers.{wait_test_answer};
ghost use Rattle.pif_kernel_model.specs.Inside.{IsSoundInside, kernel_of, owner_under};

use crate::chains::Chains;
use crate::parts::Parts;
use pif_kernel_model::Key;
use pif_types::{CondId, Errno, MutexId, Tid};

impl<C: Chains + Drop> Parts<C> {
    /// The owner in the owner state of this key.
    pub fn owner(&self, key: Key) -> Tid
        requires { IsSome (owner_at self.now.owners key) }
        ensures { owner_at self.now.owners key ≡ Some result }
    {
        self.chains.owner(key)
    }

    /// The tests of a wait for this owner of a mutex, whose owner state has this key, if there is one: ESRCH, EINVAL or
    /// EDEADLK.
    pub fn test_wait(&self, t: Tid, owner: Tid, key: Option<Key>) -> Result<(), Errno>
        requires sound { IsSoundInside self.now }
        requires state { ForSome key (λ k. IsSome (owner_at self.now.owners k)) }
        ensures { wait_test_answer result ≡ wait_answer t owner (owner_under self.now.owners key) (kernel_of self.now) }
    {
        if !self.lives(owner) {
            return Err(Errno::NoSuchThread);
        }
        if !self.is_state_of(key, owner) {
            return Err(Errno::Invalid);
        }
        if self.chains.would_close(t, owner) {
            return Err(Errno::Deadlock);
        }
        Ok(())
    }

    /// Whether the owner state with this key, if there is one, names this owner.
    fn is_state_of(&self, key: Option<Key>, owner: Tid) -> bool
        requires { ForSome key (λ k. IsSome (owner_at self.now.owners k)) }
        ensures { let s = owner_under self.now.owners key in result ≡ (if s == 0 then true else s == owner) }
    {
        match key {
            Some(key) => self.chains.owner(key) == owner,
            None => true,
        }
    }

    /// Whether a thread that is parked on the variable has another target than this mutex.
    pub fn has_other_target(&self, c: CondId, m: MutexId) -> bool
        ensures { result ≡ has_other_target (kernel_of self.now) c m }
    {
        !self.chains.match_requeue(c, m)
    }

    /// Whether the number in a mutex's word and its owner state fit together: no number and no owner state, or that of
    /// a living thread and no owner state of another. The number of no living thread fits with any.
    pub fn fits_state(&self, number: u32, m: MutexId) -> bool
        requires sound { IsSoundInside self.now }
        requires place { m < length self.now.keys }
        ensures { result ≡ fits_state number (state_at (kernel_of self.now) m) (kernel_of self.now) }
    {
        match self.key(m) {
            None => true,
            Some(key) => match Tid::new(number) {
                None => false,
                Some(owner) => !self.lives(owner) || self.chains.owner(key) == owner,
            },
        }
    }

    /// Whether a thread may queue behind this owner: the owner lives, isn't the thread, and doesn't wait for it through
    /// any chain.
    pub fn may_queue(&self, u: Tid, owner: Tid) -> bool
        requires { IsSoundInside self.now }
        ensures { result ≡ may_queue u owner (kernel_of self.now) }
    {
        self.lives(owner) && !self.chains.would_close(u, owner)
    }
}
