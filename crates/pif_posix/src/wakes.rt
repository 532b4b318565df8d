ghost use Rattle.std.specs.Prelude.{◌≡◌, ◌<◌, ℕ, false, length, map, IfOk};
ghost use Rattle.pif_model.specs.World.{mutex_at, with_progress};
ghost use Rattle.pif_model.specs.World.Progress.{Blocked};
ghost use Rattle.pif_model.specs.Posix.{with_one_hold_less};
ghost use Rattle.pif_posix_steps.specs.Doing.{woken};
ghost use Rattle.pif_rules_model.specs.Ruled.{any_woken, woken_by_itself, waiting_held};

use crate::next::{blocked_on, signalled_next, waited_next};
use crate::{Progress, State};
use pif_search::{Stop, one, push};
use std::alloc::Global;

/// The states in which the signal of a thread wakes one of these.
fn each_woken(
    alloc: Global,
    state: &State,
    thread: usize,
    blocked: &[u32],
) -> Result<Vec<State>, Stop>
    requires { thread < length state.now.threads }
    ensures { IfOk result (λ v. v.items ≡ map (λ u. woken thread u state.now) blocked.now) }
{
    let mut all = Vec::new(alloc);
    for i in 0..blocked.len() {
        let other = blocked[i] as usize;
        if other >= state.thread_count() {
            return Err(Stop::Range);
        }
        let next = state.woken(alloc, thread, other)?;
        push(&mut all, next)?;
    }
    Ok(all)
}

/// The states in which the signal of a thread wakes any that is blocked on its variable.
pub(crate) fn any_woken(alloc: Global, state: &State, thread: u32) -> Result<Vec<State>, Stop>
    requires { thread < length state.now.threads }
    ensures { IfOk result (λ v. v.items ≡ any_woken thread state.now) }
{
    match signalled_next(state, thread as usize) {
        None => Ok(Vec::new(alloc)),
        Some(variable) => {
            let blocked = state.all_blocked(alloc, variable)?;
            each_woken(alloc, state, thread as usize, blocked.as_slice())
        }
    }
}

/// The state once a thread, whose wait is blocked, wakes by itself.
pub(crate) fn woken_by_itself(alloc: Global, state: &State, thread: u32) -> Result<Vec<State>, Stop>
    requires { thread < length state.now.threads }
    ensures { IfOk result (λ v. v.items ≡ woken_by_itself thread state.now) }
{
    match blocked_on(state, thread as usize) {
        None => Ok(Vec::new(alloc)),
        Some(_) => {
            let next = state.with_awake(alloc, thread as usize)?;
            one(alloc, next)
        }
    }
}

/// The state once a wait of a thread has given up one hold of the mutex, and is blocked.
fn held_and_blocked(alloc: Global, state: &State, thread: u32, mutex: usize) -> Result<State, Stop>
    requires thread { thread < length state.now.threads }
    requires mutex { mutex < length state.now.mutexes }
    requires held { 1 < (mutex_at state.now mutex).count }
    ensures { IfOk result (λ s. s ≡ with_progress thread (Blocked false) (with_one_hold_less mutex state.now)) }
{
    let mut next = state.copied(alloc)?;
    next.set_count(mutex, state.count(mutex) - 1);
    next.set_progress(thread as usize, Progress::Blocked(false));
    Ok(next)
}

/// The state once a thread, which holds the mutex of its wait more than once, has given up one hold and is blocked.
pub(crate) fn waiting_held(alloc: Global, state: &State, thread: u32) -> Result<Vec<State>, Stop>
    requires { thread < length state.now.threads }
    ensures { IfOk result (λ v. v.items ≡ waiting_held thread state.now) }
{
    match waited_next(state, thread as usize) {
        None => Ok(Vec::new(alloc)),
        Some((variable, mutex)) => {
            let bound_at = state.place_of_variable(variable)?;
            let at = state.place_of_mutex(mutex)?;
            if state.bound(bound_at) != mutex {
                return Ok(Vec::new(alloc));
            }
            if state.owner_or_none(at) != thread {
                return Ok(Vec::new(alloc));
            }
            if state.count(at) <= 1 {
                return Ok(Vec::new(alloc));
            }
            let next = held_and_blocked(alloc, state, thread, at)?;
            one(alloc, next)
        }
    }
}
