ghost use Rattle.std.specs.Prelude.{◌≡◌, ◌<◌, ℕ, false, length, if◌then◌else◌, IfOk};
ghost use Rattle.pif_model.specs.Kinds.{relock_of};
ghost use Rattle.pif_model.specs.World.{thread_at, leads_to};
ghost use Rattle.pif_rules_model.specs.Rules.{never_goes_on};
ghost use Rattle.pif_rules_model.specs.Ruled.{is_held_by_another, waiting_in_cycle, leads_to_no_end, deadlocks, is_hopeless, refused_cycle};
ghost use Rattle.pif_posix.specs.Waiting.{waits_for_good};

use crate::locks::failed;
use crate::next::{locked_first, locked_next};
use crate::{Call, Progress, State};
use pif_search::{Stop, one};
use pif_types::{Errno, Kind};
use std::alloc::Global;

/// Whether another thread owns a mutex, which isn't orphaned.
pub(crate) fn is_held_by_another(state: &State, thread: u32, mutex: usize) -> bool
    requires { mutex < length state.now.mutexes }
    ensures { result ≡ is_held_by_another thread state.now mutex }
{
    let owner = state.owner_or_none(mutex);
    if owner == thread {
        return false;
    }
    if owner == 0 {
        return false;
    }
    !state.is_orphaned(mutex)
}

/// The state once a thread waits for a mutex by whose lock it closes a cycle through other threads; none if it doesn't.
pub(crate) fn waiting_in_cycle(
    alloc: Global,
    state: &State,
    thread: u32,
) -> Result<Vec<State>, Stop>
    requires { thread < length state.now.threads }
    ensures { IfOk result (λ v. v.items ≡ waiting_in_cycle thread state.now) }
{
    match locked_next(state, thread as usize) {
        None => Ok(Vec::new(alloc)),
        Some(mutex) => {
            let at = state.place_of_mutex(mutex)?;
            if !is_held_by_another(state, thread, at) {
                return Ok(Vec::new(alloc));
            }
            let owner = state.owner_or_none(at);
            if !state.leads_to(owner as usize, thread as usize) {
                return Ok(Vec::new(alloc));
            }
            let mut next = state.copied(alloc)?;
            next.push_waiter(thread, mutex)?;
            next.set_progress(thread as usize, Progress::Waiting);
            one(alloc, next)
        }
    }
}

/// Whether the open call of a thread waits for good.
fn waits_for_good(state: &State, thread: usize) -> bool
    ensures { result ≡ waits_for_good (thread_at state.now thread).call }
{
    match &state.call(thread) {
        Some(
            Call {
                request: _,
                progress: Progress::Stuck,
            },
        ) => true,
        _ => false,
    }
}

/// Whether a thread never goes on: it has ended, or waits for good, or waits through a chain for itself.
fn never_goes_on(state: &State, thread: usize) -> bool
    ensures { result ≡ never_goes_on state.now thread }
{
    if !state.is_living(thread) {
        return true;
    }
    if waits_for_good(state, thread) {
        return true;
    }
    state.leads_to(state.waits_for(thread), thread)
}

/// Whether another, which never goes on, is a thread or one for which it waits through a chain.
fn leads_to_end(state: &State, thread: usize, last: usize) -> bool
    ensures { result ≡ (if leads_to state.now thread last then never_goes_on state.now last else false) }
{
    state.leads_to(thread, last) && never_goes_on(state, last)
}

/// Whether a thread, or one for which it waits through a chain, never goes on.
fn leads_to_no_end(state: &State, thread: usize) -> bool
    ensures { result ≡ leads_to_no_end state.now thread }
{
    for last in (0..state.thread_count()).rev() {
        if leads_to_end(state, thread, last) {
            return true;
        }
    }
    false
}

/// Whether a lock by the owner of a mutex of this kind waits for good.
fn deadlocks(kind: Kind) -> bool
    ensures { result ≡ deadlocks (relock_of kind) }
{
    match kind {
        Kind::Normal => true,
        Kind::ErrorCheck => false,
        Kind::Recursive => false,
    }
}

/// Whether a lock of a mutex by a thread would never be answered.
fn is_hopeless(state: &State, thread: u32, mutex: usize) -> bool
    requires { mutex < length state.now.mutexes }
    ensures { result ≡ is_hopeless thread state.now mutex }
{
    let owner = state.owner_or_none(mutex);
    if owner == thread {
        return deadlocks(state.kind(mutex));
    }
    if owner == 0 {
        return false;
    }
    if state.is_orphaned(mutex) {
        return true;
    }
    if state.leads_to(owner as usize, thread as usize) {
        return true;
    }
    leads_to_no_end(state, owner as usize)
}

/// The state once the lock of a thread is refused that would never be answered; none if it might be.
pub(crate) fn refused_cycle(alloc: Global, state: &State, thread: u32) -> Result<Vec<State>, Stop>
    requires { thread < length state.now.threads }
    ensures { IfOk result (λ v. v.items ≡ refused_cycle thread state.now) }
{
    match locked_first(state, thread as usize) {
        None => Ok(Vec::new(alloc)),
        Some(mutex) => {
            let at = state.place_of_mutex(mutex)?;
            if !is_hopeless(state, thread, at) {
                return Ok(Vec::new(alloc));
            }
            let next = failed(alloc, state, thread, Errno::Deadlock)?;
            one(alloc, next)
        }
    }
}
