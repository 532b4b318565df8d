ghost use Rattle.std.specs.Prelude.{◌≡◌, ◌<◌, ℕ, length, map, IfOk};
ghost use Rattle.pif_rules_model.specs.Rules.{bound_to};
ghost use Rattle.pif_rules_model.specs.Ruled.{consumed_with, signallers, signal_consumed, bound_anew, used_by};

use crate::next::{blocked_on, is_mutex_of, signalling, used_next, waited_next};
use crate::{Progress, State};
use pif_search::{Stop, one, push};
use std::alloc::Global;

/// The state once the wait of a thread has run out of time and has taken the signal of another with it.
fn consumed_with(
    alloc: Global,
    state: &State,
    thread: usize,
    signaller: usize,
) -> Result<State, Stop>
    requires thread { thread < length state.now.threads }
    requires signaller { signaller < length state.now.threads }
    ensures { IfOk result (λ s. s ≡ consumed_with thread state.now signaller) }
{
    let mut next = state.copied(alloc)?;
    next.run_out(thread);
    next.set_progress(thread, Progress::Reacquiring);
    next.set_progress(signaller, Progress::Has(0));
    Ok(next)
}

/// The threads whose open signal of a variable has not chosen yet whom it wakes, those of greatest numbers first.
fn signallers(alloc: Global, state: &State, variable: u32) -> Result<Vec<u32>, Stop>
    ensures { IfOk result (λ v. v.items ≡ signallers state.now variable) }
{
    let count = state.threads_end()?;
    let mut all = Vec::new(alloc);
    for u in (0..count).rev() {
        if is_mutex_of(signalling(state, u as usize), variable) {
            push(&mut all, u)?;
        }
    }
    Ok(all)
}

/// The states once the wait of a thread has run out of time and has taken the signal of one of these with it.
fn each_consumed(
    alloc: Global,
    state: &State,
    thread: usize,
    signallers: &[u32],
) -> Result<Vec<State>, Stop>
    requires { thread < length state.now.threads }
    ensures { IfOk result (λ v. v.items ≡ map (consumed_with thread state.now) signallers.now) }
{
    let mut all = Vec::new(alloc);
    for i in 0..signallers.len() {
        let other = signallers[i] as usize;
        if other >= state.thread_count() {
            return Err(Stop::Range);
        }
        let next = consumed_with(alloc, state, thread, other)?;
        push(&mut all, next)?;
    }
    Ok(all)
}

/// The states once the wait of a thread, which is blocked and due, has run out of time and has taken a signal with it.
pub(crate) fn signal_consumed(alloc: Global, state: &State, thread: u32) -> Result<Vec<State>, Stop>
    requires { thread < length state.now.threads }
    ensures { IfOk result (λ v. v.items ≡ signal_consumed thread state.now) }
{
    if !state.is_due(thread as usize) {
        return Ok(Vec::new(alloc));
    }
    match blocked_on(state, thread as usize) {
        None => Ok(Vec::new(alloc)),
        Some(variable) => {
            let signallers = signallers(alloc, state, variable)?;
            each_consumed(alloc, state, thread as usize, signallers.as_slice())
        }
    }
}

/// The state once a variable is bound to a mutex.
fn bound_to(alloc: Global, state: &State, variable: usize, mutex: u32) -> Result<State, Stop>
    requires { variable < length state.now.variables }
    ensures { IfOk result (λ s. s ≡ bound_to variable mutex state.now) }
{
    let mut next = state.copied(alloc)?;
    next.bind(variable, mutex);
    Ok(next)
}

/// The state once the wait of a thread binds its variable to another mutex; none if a thread is blocked on it.
pub(crate) fn bound_anew(alloc: Global, state: &State, thread: u32) -> Result<Vec<State>, Stop>
    requires { thread < length state.now.threads }
    ensures { IfOk result (λ v. v.items ≡ bound_anew thread state.now) }
{
    match waited_next(state, thread as usize) {
        None => Ok(Vec::new(alloc)),
        Some((variable, mutex)) => {
            let at = state.place_of_variable(variable)?;
            if state.bound(at) == mutex {
                return Ok(Vec::new(alloc));
            }
            if state.is_anyone_blocked(variable) {
                return Ok(Vec::new(alloc));
            }
            let next = bound_to(alloc, state, at, mutex)?;
            one(alloc, next)
        }
    }
}

/// The state once the signal or broadcast of a thread has used its variable, which isn't counted.
pub(crate) fn used_by(alloc: Global, state: &State, thread: u32) -> Result<Vec<State>, Stop>
    requires { thread < length state.now.threads }
    ensures { IfOk result (λ v. v.items ≡ used_by thread state.now) }
{
    match used_next(state, thread as usize) {
        None => Ok(Vec::new(alloc)),
        Some(variable) => {
            let mut next = state.copied(alloc)?;
            next.use_uncounted(variable);
            next.set_progress(thread as usize, Progress::Used);
            one(alloc, next)
        }
    }
}
