ghost use Rattle.std.specs.Prelude.{◌≡◌, ◌≤◌, ◌<◌, ◌++◌, ◌∷◌, [], ◌==◌, ℕ, false, length, map, drop, nat_le, if◌then◌else◌, IfOk, OnOk, vec_len};
ghost use Rattle.pif_search.specs.Stops.{IsMany};
ghost use Rattle.std.specs.List.{filter, list_all, list_any};
ghost use Rattle.pif_model.specs.Posix.{blocked_below, is_still_blocked, effective_of, with_call_by, after_unblocking};
ghost use Rattle.pif_posix_steps.specs.Doing.{signalled, broadcast, chosen, all_blocked, found_left, woken};
ghost use Rattle.pif_rules_model.specs.Ruled.{is_some_of};
ghost use Rattle.pif_posix.specs.Choices.{wakings};

use crate::progress::Progress;
use crate::state::State;
use pif_search::{Stop, push};
use pif_types::Request;
use std::alloc::Global;

/// How many states of one step are made at most: those of a broadcast with 16 threads that it may wake or not.
const MOST_AT_ONCE: usize = 65_536;

/// A further state, if not too many are made already.
///
/// # Errors
///
/// `Many` if `MOST_AT_ONCE` are made already; else out of memory.
pub(crate) fn push_within(all: &mut Vec<State>, state: State) -> Result<(), Stop>
    ensures pushed { OnOk result (all.new.items ≡ all.old.items ++ state ∷ []) }
    ensures within { OnOk result (vec_len all.old < MOST_AT_ONCE) }
    ensures full { IsMany result → MOST_AT_ONCE ≤ vec_len all.old }
{
    if all.len() >= MOST_AT_ONCE {
        return Err(Stop::Many);
    }
    match all.push(state) {
        Ok(()) => Ok(()),
        Err(_) => Err(Stop::NoMemory),
    }
}

/// Whether none of these priorities is greater than this one.
fn is_none_above(priorities: &[u32], priority: u32) -> bool
    ensures { result ≡ list_all (λ p. nat_le p priority) priorities.now }
{
    priorities.iter().all(|other| *other <= priority)
}

/// Whether a thread is among others by this wait: each stands with the number of its wait.
pub(crate) fn is_among(others: &[(u32, u64)], thread: u32, waits: u64) -> bool
    ensures { result ≡ list_any (λ p. if p.0 == thread then p.1 == waits else false) others.now }
{
    others
        .iter()
        .any(|pair| pair.0 == thread && pair.1 == waits)
}

/// Whom signals and broadcasts wake.
impl State {
    /// The number of threads' places, as a thread's number.
    pub(crate) fn threads_end(&self) -> Result<u32, Stop>
        ensures { IfOk result (λ n. n ≡ length self.now.threads) }
    {
        match u32::try_from(self.thread_count()) {
            Ok(count) => Ok(count),
            Err(_) => Err(Stop::Range),
        }
    }

    /// The threads that are blocked on a variable, each with the number of its wait, those of greatest numbers first.
    pub(crate) fn blocked(&self, alloc: Global, variable: u32) -> Result<Vec<(u32, u64)>, Stop>
        ensures { IfOk result (λ v. v.items ≡ blocked_below self.now variable (length self.now.threads)) }
    {
        let count = self.threads_end()?;
        let mut all = Vec::new(alloc);
        for u in (0..count).rev() {
            if self.is_blocked_on(u as usize, variable) {
                push(&mut all, (u, self.waits(u as usize)))?;
            }
        }
        Ok(all)
    }

    /// The threads that are blocked on a variable, those of greatest numbers first.
    ///
    /// # Errors
    ///
    /// Out of memory, or a number got too great for a state.
    pub fn all_blocked(&self, alloc: Global, variable: u32) -> Result<Vec<u32>, Stop>
        ensures { IfOk result (λ v. v.items ≡ all_blocked self.now variable) }
    {
        let count = self.threads_end()?;
        let mut all = Vec::new(alloc);
        for u in (0..count).rev() {
            if self.is_blocked_on(u as usize, variable) {
                push(&mut all, u)?;
            }
        }
        Ok(all)
    }

    /// Whether a thread is blocked on a variable.
    pub(crate) fn is_anyone_blocked(&self, variable: u32) -> bool
        ensures { result ≡ is_some_of (all_blocked self.now variable) }
    {
        for u in (0..self.thread_count()).rev() {
            if self.is_blocked_on(u, variable) {
                return true;
            }
        }
        false
    }

    /// Whether the signal or broadcast of a thread found another blocked on its variable, which still is by that wait.
    fn is_still_blocked(&self, thread: usize, variable: u32, other: u32) -> bool
        requires thread { thread < length self.now.threads }
        requires other { other < length self.now.threads }
        ensures { result ≡ is_still_blocked self.now thread variable other }
    {
        if !self.is_blocked_on(other as usize, variable) {
            return false;
        }
        is_among(self.found(thread), other, self.waits(other as usize))
    }

    /// The effective priorities of those whom the signal of a thread found, and who are blocked still.
    fn priorities_left(
        &self,
        alloc: Global,
        thread: usize,
        variable: u32,
        blocked: &[u32],
    ) -> Result<Vec<u32>, Stop>
        requires thread { thread < length self.now.threads }
        requires blocked { blocked.now ≡ all_blocked self.now variable }
        ensures { IfOk result (λ v. v.items ≡ map (effective_of self.now) (found_left self.now thread variable)) }
    {
        let mut all = Vec::new(alloc);
        for i in 0..blocked.len() {
            let other = blocked[i];
            if other as usize >= self.thread_count() {
                return Err(Stop::Range);
            }
            if self.is_still_blocked(thread, variable, other) {
                push(&mut all, self.effective(other as usize))?;
            }
        }
        Ok(all)
    }

    /// The state once the signal of a thread wakes another.
    ///
    /// # Errors
    ///
    /// Out of memory, or a number got too great for a state.
    pub fn woken(&self, alloc: Global, thread: usize, other: usize) -> Result<State, Stop>
        requires thread { thread < length self.now.threads }
        requires other { other < length self.now.threads }
        ensures { IfOk result (λ s. s ≡ woken thread other self.now) }
    {
        let mut next = self.copied(alloc)?;
        next.set_progress(thread, Progress::Has(0));
        next.wake(other);
        Ok(next)
    }

    /// The states in which the signal of a thread wakes one of these, of whom none of those left is above.
    fn wake_one(
        &self,
        alloc: Global,
        thread: usize,
        blocked: &[u32],
        left: &[u32],
    ) -> Result<Vec<State>, Stop>
        requires thread { thread < length self.now.threads }
        ensures { IfOk result (λ v. v.items ≡ map (λ u. woken thread u self.now) (filter (λ u. list_all (λ p. nat_le p (effective_of self.now u)) left.now) blocked.now)) }
    {
        let mut all = Vec::new(alloc);
        for i in 0..blocked.len() {
            let other = blocked[i] as usize;
            if other >= self.thread_count() {
                return Err(Stop::Range);
            }
            if !is_none_above(left, self.effective(other)) {
                continue;
            }
            let next = self.woken(alloc, thread, other)?;
            push(&mut all, next)?;
        }
        Ok(all)
    }

    /// The states to which a signal of a thread may lead, which has used its variable.
    fn signalled(&self, alloc: Global, thread: usize, variable: u32) -> Result<Vec<State>, Stop>
        requires { thread < length self.now.threads }
        ensures { IfOk result (λ v. v.items ≡ signalled thread variable self.now) }
    {
        let blocked = self.all_blocked(alloc, variable)?;
        let left = self.priorities_left(alloc, thread, variable, blocked.as_slice())?;
        let mut all = self.wake_one(alloc, thread, blocked.as_slice(), left.as_slice())?;
        if left.len() != 0 {
            return Ok(all);
        }
        let mut next = self.copied(alloc)?;
        next.set_progress(thread, Progress::Has(0));
        push(&mut all, next)?;
        Ok(all)
    }

    /// These threads, each with whether the broadcast of a thread has to wake it.
    fn marked(
        &self,
        alloc: Global,
        thread: usize,
        variable: u32,
        blocked: &[u32],
    ) -> Result<Vec<(u32, bool)>, Stop>
        requires { thread < length self.now.threads }
        ensures { IfOk result (λ v. v.items ≡ map (λ u. (u, is_still_blocked self.now thread variable u)) blocked.now) }
    {
        let mut all = Vec::new(alloc);
        for i in 0..blocked.len() {
            let other = blocked[i];
            if other as usize >= self.thread_count() {
                return Err(Stop::Range);
            }
            push(
                &mut all,
                (other, self.is_still_blocked(thread, variable, other)),
            )?;
        }
        Ok(all)
    }

    /// The state once a thread is unblocked, if it was blocked.
    ///
    /// # Errors
    ///
    /// Out of memory, or a number got too great for a state.
    pub fn with_awake(&self, alloc: Global, thread: usize) -> Result<State, Stop>
        requires { thread < length self.now.threads }
        ensures { IfOk result (λ s. s ≡ with_call_by thread after_unblocking self.now) }
    {
        let mut next = self.copied(alloc)?;
        next.wake(thread);
        Ok(next)
    }

    /// The states once some of the marked threads from a place on are woken, among which are all that are marked true.
    fn wake_some(
        &self,
        alloc: Global,
        marked: &[(u32, bool)],
        from: usize,
        all: &mut Vec<State>,
    ) -> Result<(), Stop>
        ensures { OnOk result (all.new.items ≡ all.old.items ++ wakings (drop from marked.now) self.now) }
    {
        if from >= marked.len() {
            return push_within(all, self.copied(alloc)?);
        }
        let (thread, has_to) = marked[from];
        if thread as usize >= self.thread_count() {
            return Err(Stop::Range);
        }
        let next = self.with_awake(alloc, thread as usize)?;
        next.wake_some(alloc, marked, from + 1, all)?;
        if has_to {
            return Ok(());
        }
        self.wake_some(alloc, marked, from + 1, all)
    }

    /// The states to which a broadcast of a thread may lead, which has used its variable.
    fn broadcast(&self, alloc: Global, thread: usize, variable: u32) -> Result<Vec<State>, Stop>
        requires { thread < length self.now.threads }
        ensures { IfOk result (λ v. v.items ≡ broadcast thread variable self.now) }
    {
        let blocked = self.all_blocked(alloc, variable)?;
        let marked = self.marked(alloc, thread, variable, blocked.as_slice())?;
        let mut next = self.copied(alloc)?;
        next.set_progress(thread, Progress::Has(0));
        let mut all = Vec::new(alloc);
        next.wake_some(alloc, marked.as_slice(), 0, &mut all)?;
        Ok(all)
    }

    /// The states to which a signal or broadcast of a thread may lead, which has used its variable.
    pub(crate) fn chosen(
        &self,
        alloc: Global,
        thread: usize,
        request: Request,
    ) -> Result<Vec<State>, Stop>
        requires { thread < length self.now.threads }
        ensures { IfOk result (λ v. v.items ≡ chosen thread request self.now) }
    {
        match request {
            Request::Signal(cond) => self.signalled(alloc, thread, cond.get()),
            Request::Broadcast(cond) => self.broadcast(alloc, thread, cond.get()),
            _ => Ok(Vec::new(alloc)),
        }
    }
}
