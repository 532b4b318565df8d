ghost use Rattle.std.specs.Prelude.{◌≡◌, ◌<◌, ℕ, length, IfOk};
ghost use Rattle.pif_rules_model.specs.Ruled.{freed, freed_by, taken_free, barged};
ghost use Rattle.pif_posix.specs.Shapes.{progress_of};

use crate::health::is_inconsistent;
use crate::next::{given_next, waited_for};
use crate::wide_lists::joined;
use crate::{Progress, State};
use pif_search::{Stop, one};
use std::alloc::Global;

/// The state once a thread has given a mutex up, which is free then, and its call has come this far; none if it may
/// not.
fn freed(
    alloc: Global,
    state: &State,
    thread: u32,
    mutex: u32,
    progress: Progress,
) -> Result<Vec<State>, Stop>
    requires { thread < length state.now.threads }
    ensures { IfOk result (λ v. v.items ≡ freed thread state.now (mutex, progress_of progress)) }
{
    let at = state.place_of_mutex(mutex)?;
    if state.owner_or_none(at) != thread {
        return Ok(Vec::new(alloc));
    }
    if state.count(at) != 1 {
        return Ok(Vec::new(alloc));
    }
    if is_inconsistent(state, at) {
        return Ok(Vec::new(alloc));
    }
    let mut next = state.copied(alloc)?;
    next.set_progress(thread as usize, progress);
    next.set_owner(at, 0, 1);
    one(alloc, next)
}

/// The state once a thread has given up the mutex that it is about to give up, which is free then; none if it may not.
fn freed_by(alloc: Global, state: &State, thread: u32) -> Result<Vec<State>, Stop>
    requires { thread < length state.now.threads }
    ensures { IfOk result (λ v. v.items ≡ freed_by thread state.now) }
{
    match given_next(state, thread as usize) {
        None => Ok(Vec::new(alloc)),
        Some((mutex, progress)) => freed(alloc, state, thread, mutex, progress),
    }
}

/// The state once a thread has taken the mutex for which it waits; none if the mutex isn't free.
fn taken_free(alloc: Global, state: &State, thread: u32) -> Result<Vec<State>, Stop>
    requires { thread < length state.now.threads }
    ensures { IfOk result (λ v. v.items ≡ taken_free thread state.now) }
{
    match waited_for(state, thread as usize) {
        None => Ok(Vec::new(alloc)),
        Some(mutex) => {
            let at = state.place_of_mutex(mutex)?;
            if state.owner_or_none(at) != 0 {
                return Ok(Vec::new(alloc));
            }
            let mut next = state.copied(alloc)?;
            next.drop_waiter(thread);
            next.take(thread, at);
            one(alloc, next)
        }
    }
}

/// The states once a thread has left a mutex free, or has taken a free one for which it waits.
pub(crate) fn barged(alloc: Global, state: &State, thread: u32) -> Result<Vec<State>, Stop>
    requires { thread < length state.now.threads }
    ensures { IfOk result (λ v. v.items ≡ barged thread state.now) }
{
    joined(
        freed_by(alloc, state, thread),
        taken_free(alloc, state, thread),
    )
}
