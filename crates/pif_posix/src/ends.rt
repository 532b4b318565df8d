ghost use Rattle.std.specs.Prelude.{◌≡◌, ◌==◌, ◌<◌, ◌++◌, ℕ, length, IfOk, OnOk};
ghost use Rattle.std.specs.List.{list_all};
ghost use Rattle.pif_model.specs.Graph.{waited_by};
ghost use Rattle.pif_model.specs.Posix.{after_end, after_owner_death, with_no_owner};
ghost use Rattle.pif_posix_steps.specs.Doing.{owns_robust, robust_of, passed_on_by_death, inherited, inherited_below, is_orderly, all_inherited, ended};

use crate::state::State;
use crate::waiting::waited;
use pif_search::{Stop, one, push};
use pif_types::Health;
use std::alloc::Global;

/// Whether each waiter is among the waiters of one mutex alone.
fn are_apart(waiters: &[(u32, u32)]) -> bool
    ensures { result ≡ list_all (λ (x : ℕ × ℕ). waited_by waiters.now x.0 == x.1) waiters.now }
{
    waiters
        .iter()
        .all(|pair| waited(waiters, pair.0 as usize) == pair.1 as usize)
}

/// The end of a thread.
impl State {
    /// Whether a thread owns a mutex, which is robust.
    pub fn owns_robust(&self, thread: u32, mutex: usize) -> bool
        requires { mutex < length self.now.mutexes }
        ensures { result ≡ owns_robust self.now thread mutex }
    {
        self.is_robust(mutex) && self.owner(mutex) == thread
    }

    /// How many robust mutexes a thread owns.
    pub(crate) fn robust_count(&self, thread: u32) -> usize
        ensures { result ≡ length (robust_of self.now thread) }
    {
        let mut count = 0;
        for mutex in 0..self.mutex_count() {
            if self.owns_robust(thread, mutex) {
                count += 1;
            }
        }
        count
    }

    /// The number of mutexes' places, as a mutex's number.
    pub(crate) fn mutexes_end(&self) -> Result<u32, Stop>
        ensures { IfOk result (λ n. n ≡ length self.now.mutexes) }
    {
        match u32::try_from(self.mutex_count()) {
            Ok(count) => Ok(count),
            Err(_) => Err(Stop::Range),
        }
    }

    /// The owner of a mutex has ended.
    fn see_death(&mut self, mutex: usize)
        requires { mutex < length self.old.mutexes }
        ensures { self.new ≡ after_owner_death mutex self.old }
    {
        let health = match self.health(mutex) {
            Health::Fine => Health::Inconsistent,
            Health::Inconsistent => Health::Inconsistent,
            Health::Unusable => Health::Unusable,
        };
        self.set_health(mutex, health);
    }

    /// A mutex, whose owner has ended, passes on.
    fn pass_on_by_death(&mut self, mutex: u32) -> Result<(), Stop>
        requires { mutex < length self.old.mutexes }
        ensures { OnOk result (self.new ≡ passed_on_by_death mutex self.old) }
    {
        self.see_death(mutex as usize);
        self.pass_on(mutex)
    }

    /// The state once a mutex, whose owner has ended, passes on.
    pub(crate) fn passed_on_by_death(&self, alloc: Global, mutex: u32) -> Result<State, Stop>
        requires { mutex < length self.now.mutexes }
        ensures { IfOk result (λ s. s ≡ passed_on_by_death mutex self.now) }
    {
        let mut next = self.copied(alloc)?;
        next.pass_on_by_death(mutex)?;
        Ok(next)
    }

    /// The state once a mutex, whose owner has ended, is left free, whoever waits for it.
    pub(crate) fn freed_by_death(&self, alloc: Global, mutex: u32) -> Result<State, Stop>
        requires { mutex < length self.now.mutexes }
        ensures { IfOk result (λ s. s ≡ with_no_owner mutex (after_owner_death mutex self.now)) }
    {
        let mut next = self.copied(alloc)?;
        next.see_death(mutex as usize);
        next.set_owner(mutex as usize, 0, 1);
        Ok(next)
    }

    /// Whether each waiter is among the waiters of one mutex alone, and place 0, which is no mutex, has no owner. Once a
    /// thread has left all waiters, the order in which its robust mutexes pass on doesn't matter then.
    fn is_orderly(&self) -> bool
        ensures { result ≡ is_orderly self.now }
    {
        let waiters = self.waiters();
        self.owner_or_none(0) == 0 && are_apart(waiters)
    }

    /// All robust mutexes of a thread, which has ended, pass on, the one of the greatest number first.
    fn inherit_in_order(&mut self, thread: u32) -> Result<(), Stop>
        ensures { OnOk result (self.new ≡ inherited_below (length self.old.mutexes) thread self.old) }
    {
        let count = self.mutexes_end()?;
        for mutex in (0..count).rev() {
            if self.owns_robust(thread, mutex as usize) {
                self.pass_on_by_death(mutex)?;
            }
        }
        Ok(())
    }

    /// The states once so many robust mutexes of a thread, which has ended, pass on in any order.
    fn inherit(
        &self,
        alloc: Global,
        left: usize,
        thread: u32,
        all: &mut Vec<State>,
    ) -> Result<(), Stop>
        ensures { OnOk result (all.new.items ≡ all.old.items ++ inherited left thread self.now) }
    {
        if left == 0 {
            return push(all, self.copied(alloc)?);
        }
        let count = self.mutexes_end()?;
        for mutex in (0..count).rev() {
            if self.owns_robust(thread, mutex as usize) {
                let next = self.passed_on_by_death(alloc, mutex)?;
                next.inherit(alloc, left - 1, thread, all)?;
            }
        }
        Ok(())
    }

    /// The state once a thread has ended, but for the robust mutexes that it owns.
    pub(crate) fn after_end(&self, alloc: Global, thread: u32) -> Result<State, Stop>
        ensures { IfOk result (λ s. s ≡ after_end thread self.now) }
    {
        if thread as usize >= self.thread_count() {
            return Err(Stop::Range);
        }
        let mut next = self.copied(alloc)?;
        next.leave_all(thread);
        Ok(next)
    }

    /// The states once all robust mutexes of a thread, which has left all waiters, have passed on: one, if the state is
    /// orderly; else one for each order.
    pub(crate) fn all_inherited(self, alloc: Global, thread: u32) -> Result<Vec<State>, Stop>
        ensures { IfOk result (λ v. v.items ≡ all_inherited thread self) }
    {
        let mut next = self;
        if next.is_orderly() {
            next.inherit_in_order(thread)?;
            return one(alloc, next);
        }
        let mut all = Vec::new(alloc);
        next.inherit(alloc, next.robust_count(thread), thread, &mut all)?;
        Ok(all)
    }

    /// The states once a thread has ended and its robust mutexes have passed on: one, if the state is orderly, as in a
    /// run; else one for each order. None if the end is refused.
    ///
    /// # Errors
    ///
    /// Out of memory, or a number got too great for a state.
    pub fn ended(&self, alloc: Global, thread: u32) -> Result<Vec<State>, Stop>
        ensures { IfOk result (λ v. v.items ≡ ended thread self.now) }
    {
        if self.end_refusal(thread).is_some() {
            return Ok(Vec::new(alloc));
        }
        let next = self.after_end(alloc, thread)?;
        next.all_inherited(alloc, thread)
    }
}
