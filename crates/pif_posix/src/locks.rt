ghost use Rattle.std.specs.Prelude.{◌≡◌, ◌<◌, ℕ, [], length, nat_lt, nat_le, if◌then◌else◌, IfOk};
ghost use Rattle.pif_model.specs.NamedNumbers.{EAGAIN, most_holds};
ghost use Rattle.pif_model.specs.World.{mutex_at, with_progress};
ghost use Rattle.pif_model.specs.World.Progress.{Has};
ghost use Rattle.pif_model.specs.Posix.{with_one_hold_more};
ghost use Rattle.pif_types.specs.Numbers.{number_of};
ghost use Rattle.pif_rules_model.specs.Rules.{stolen};
ghost use Rattle.pif_rules_model.specs.Ruled.{listed_of, one_if, stolen_from, stolen_by, locked_more_or_refused, beyond, locked_beyond, locked_within, tried_own};

use crate::next::{got, is_mutex_of, locked_next, tried_next};
use crate::wide_lists::joined;
use crate::{MOST_HOLDS, Progress, State};
use pif_rules_model::HoldLimits;
use pif_search::{Stop, one};
use pif_types::{Errno, Kind};
use std::alloc::Global;

/// The state once the call of a thread has the number of this error as its result.
pub(crate) fn failed(alloc: Global, state: &State, thread: u32, error: Errno) -> Result<State, Stop>
    requires { thread < length state.now.threads }
    ensures { IfOk result (λ s. s ≡ with_progress thread (Has (number_of error)) state.now) }
{
    let mut next = state.copied(alloc)?;
    next.set_progress(thread as usize, Progress::Has(error.number()));
    Ok(next)
}

/// The state once a thread takes a mutex from its owner, whose call waits again, before all others.
fn stolen(alloc: Global, state: &State, thread: u32, owner: u32, mutex: u32) -> Result<State, Stop>
    requires thread { thread < length state.now.threads }
    requires owner { owner < length state.now.threads }
    requires mutex { mutex < length state.now.mutexes }
    ensures { IfOk result (λ s. s ≡ stolen thread owner mutex state.now) }
{
    let mut next = state.copied(alloc)?;
    next.set_progress(owner as usize, Progress::Waiting);
    next.put_first(owner, mutex)?;
    next.take(thread, mutex as usize);
    Ok(next)
}

/// The state once a thread has taken a mutex from this owner; none if it may not.
fn stolen_from(
    alloc: Global,
    state: &State,
    thread: u32,
    owner: u32,
    mutex: u32,
) -> Result<Vec<State>, Stop>
    requires thread { thread < length state.now.threads }
    requires mutex { mutex < length state.now.mutexes }
    ensures { IfOk result (λ v. v.items ≡ stolen_from thread owner mutex state.now) }
{
    if !is_mutex_of(got(state, owner as usize), mutex) {
        return Ok(Vec::new(alloc));
    }
    if owner == thread {
        return Ok(Vec::new(alloc));
    }
    if owner == 0 {
        return Ok(Vec::new(alloc));
    }
    if state.count(mutex as usize) != 1 {
        return Ok(Vec::new(alloc));
    }
    if owner as usize >= state.thread_count() {
        return Err(Stop::Range);
    }
    if state.effective(owner as usize) >= state.effective(thread as usize) {
        return Ok(Vec::new(alloc));
    }
    let next = stolen(alloc, state, thread, owner, mutex)?;
    one(alloc, next)
}

/// The state once a thread has taken the mutex that it is about to lock from its owner; none if it may not.
pub(crate) fn stolen_by(alloc: Global, state: &State, thread: u32) -> Result<Vec<State>, Stop>
    requires { thread < length state.now.threads }
    ensures { IfOk result (λ v. v.items ≡ stolen_by thread state.now) }
{
    match locked_next(state, thread as usize) {
        None => Ok(Vec::new(alloc)),
        Some(mutex) => {
            let at = state.place_of_mutex(mutex)?;
            stolen_from(alloc, state, thread, state.owner_or_none(at), mutex)
        }
    }
}

/// The state once the owner of a mutex, who holds it 255 times or more, has locked it again; none if it may not.
fn locked_below(
    alloc: Global,
    state: &State,
    limits: HoldLimits,
    thread: u32,
    mutex: usize,
) -> Result<Vec<State>, Stop>
    requires thread { thread < length state.now.threads }
    requires mutex { mutex < length state.now.mutexes }
    ensures { IfOk result (λ v. v.items ≡ (if nat_le most_holds (mutex_at state.now mutex).count then one_if (nat_lt (mutex_at state.now mutex).count limits.most) (with_progress thread (Has 0) (with_one_hold_more mutex state.now)) else [])) }
{
    let count = state.count(mutex);
    if count < MOST_HOLDS {
        return Ok(Vec::new(alloc));
    }
    if count >= limits.most {
        return Ok(Vec::new(alloc));
    }
    let mut next = state.copied(alloc)?;
    next.set_count(mutex, count + 1);
    next.set_progress(thread as usize, Progress::Has(0));
    one(alloc, next)
}

/// The state once the lock of a mutex's owner was refused; none if it may not be.
fn refused_within(
    alloc: Global,
    state: &State,
    limits: HoldLimits,
    thread: u32,
    mutex: usize,
) -> Result<Vec<State>, Stop>
    requires thread { thread < length state.now.threads }
    requires mutex { mutex < length state.now.mutexes }
    ensures { IfOk result (λ v. v.items ≡ (if nat_le limits.least (mutex_at state.now mutex).count then one_if (nat_le (mutex_at state.now mutex).count limits.most) (with_progress thread (Has EAGAIN) state.now) else [])) }
{
    let count = state.count(mutex);
    if count < limits.least {
        return Ok(Vec::new(alloc));
    }
    if count > limits.most {
        return Ok(Vec::new(alloc));
    }
    let next = failed(alloc, state, thread, Errno::Again)?;
    one(alloc, next)
}

/// The states once the owner of a mutex has locked it again, or was refused, within these limits.
fn locked_or_refused(
    alloc: Global,
    state: &State,
    limits: HoldLimits,
    thread: u32,
    mutex: usize,
) -> Result<Vec<State>, Stop>
    requires thread { thread < length state.now.threads }
    requires mutex { mutex < length state.now.mutexes }
    ensures { IfOk result (λ v. v.items ≡ locked_more_or_refused limits thread mutex state.now) }
{
    joined(
        locked_below(alloc, state, limits, thread, mutex),
        refused_within(alloc, state, limits, thread, mutex),
    )
}

/// The states once a thread has locked a recursive mutex of its own again, or was refused, within these limits.
fn beyond(
    alloc: Global,
    state: &State,
    limits: HoldLimits,
    thread: u32,
    mutex: u32,
) -> Result<Vec<State>, Stop>
    requires { thread < length state.now.threads }
    ensures { IfOk result (λ v. v.items ≡ beyond limits thread state.now mutex) }
{
    let at = state.place_of_mutex(mutex)?;
    if state.owner_or_none(at) != thread {
        return Ok(Vec::new(alloc));
    }
    if state.kind(at) != Kind::Recursive {
        return Ok(Vec::new(alloc));
    }
    locked_or_refused(alloc, state, limits, thread, at)
}

/// The same for a mutex that may be there.
fn any_beyond(
    alloc: Global,
    state: &State,
    limits: HoldLimits,
    thread: u32,
    mutex: Option<u32>,
) -> Result<Vec<State>, Stop>
    requires { thread < length state.now.threads }
    ensures { IfOk result (λ v. v.items ≡ listed_of mutex (beyond limits thread state.now)) }
{
    match mutex {
        None => Ok(Vec::new(alloc)),
        Some(mutex) => beyond(alloc, state, limits, thread, mutex),
    }
}

/// The states once a thread has locked or tried a recursive mutex of its own again, or was refused, within these
/// limits.
fn locked_beyond(
    alloc: Global,
    state: &State,
    limits: HoldLimits,
    thread: u32,
) -> Result<Vec<State>, Stop>
    requires { thread < length state.now.threads }
    ensures { IfOk result (λ v. v.items ≡ locked_beyond limits thread state.now) }
{
    let locked = locked_next(state, thread as usize);
    let tried = tried_next(state, thread as usize);
    joined(
        any_beyond(alloc, state, limits, thread, locked),
        any_beyond(alloc, state, limits, thread, tried),
    )
}

/// The same for limits that may be there.
pub(crate) fn locked_within(
    alloc: Global,
    state: &State,
    limits: Option<HoldLimits>,
    thread: u32,
) -> Result<Vec<State>, Stop>
    requires { thread < length state.now.threads }
    ensures { IfOk result (λ v. v.items ≡ locked_within limits thread state.now) }
{
    match limits {
        None => Ok(Vec::new(alloc)),
        Some(limits) => locked_beyond(alloc, state, limits, thread),
    }
}

/// The state once a thread, which tries to lock an errorcheck mutex of its own, is refused as if it locked it.
pub(crate) fn tried_own(alloc: Global, state: &State, thread: u32) -> Result<Vec<State>, Stop>
    requires { thread < length state.now.threads }
    ensures { IfOk result (λ v. v.items ≡ tried_own thread state.now) }
{
    match tried_next(state, thread as usize) {
        None => Ok(Vec::new(alloc)),
        Some(mutex) => {
            let at = state.place_of_mutex(mutex)?;
            if state.owner_or_none(at) != thread {
                return Ok(Vec::new(alloc));
            }
            if state.kind(at) != Kind::ErrorCheck {
                return Ok(Vec::new(alloc));
            }
            let next = failed(alloc, state, thread, Errno::Deadlock)?;
            one(alloc, next)
        }
    }
}
