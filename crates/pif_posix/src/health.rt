ghost use Rattle.std.specs.Prelude.{◌≡◌, ◌<◌, ℕ, length, IfOk};
ghost use Rattle.pif_model.specs.World.{mutex_at};
ghost use Rattle.pif_rules_model.specs.Rules.{is_unusable};
ghost use Rattle.pif_rules_model.specs.Ruled.{is_inconsistent, mended, mending, mended_by_any, refused_free, mended_or_refused};
ghost use Rattle.pif_posix.specs.Mending.{mended_as};
ghost use Rattle.pif_posix.specs.declared.health.Treated.TheVariants.{RefusedFree};

use crate::locks::failed;
use crate::next::mended_next;
use crate::wide_lists::joined;
use crate::{Progress, State};
use pif_search::{Stop, one};
use pif_types::{Errno, Health};
use std::alloc::Global;

/// What comes of a thread that makes a robust mutex consistent which it doesn't own.
#[derive(Clone, Copy)]
pub(crate) enum Treated {
    /// It is answered as the owner is.
    AsOwner,
    /// It is refused, though the mutex is inconsistent, since nobody owns it.
    RefusedFree,
}

/// Whether a mutex is inconsistent.
pub(crate) fn is_inconsistent(state: &State, mutex: usize) -> bool
    requires { mutex < length state.now.mutexes }
    ensures { result ≡ is_inconsistent (mutex_at state.now mutex).health }
{
    match state.health(mutex) {
        Health::Inconsistent => true,
        Health::Fine => false,
        Health::Unusable => false,
    }
}

/// Whether a mutex was given up for good.
pub(crate) fn is_unusable(state: &State, mutex: usize) -> bool
    requires { mutex < length state.now.mutexes }
    ensures { result ≡ is_unusable (mutex_at state.now mutex).health }
{
    match state.health(mutex) {
        Health::Unusable => true,
        Health::Fine => false,
        Health::Inconsistent => false,
    }
}

/// The state once a thread has made a mutex consistent as if it were its owner.
fn mended(alloc: Global, state: &State, thread: u32, mutex: usize) -> Result<State, Stop>
    requires thread { thread < length state.now.threads }
    requires mutex { mutex < length state.now.mutexes }
    ensures { IfOk result (λ s. s ≡ mended thread state.now mutex) }
{
    if !is_inconsistent(state, mutex) {
        return failed(alloc, state, thread, Errno::Invalid);
    }
    let mut next = state.copied(alloc)?;
    next.set_health(mutex, Health::Fine);
    next.set_progress(thread as usize, Progress::Has(0));
    Ok(next)
}

/// The state once a thread is refused that made a free and inconsistent mutex consistent; none if the mutex isn't so.
fn refused_if_free(
    alloc: Global,
    state: &State,
    thread: u32,
    mutex: usize,
) -> Result<Vec<State>, Stop>
    requires thread { thread < length state.now.threads }
    requires mutex { mutex < length state.now.mutexes }
    ensures { IfOk result (λ v. v.items ≡ mended_as RefusedFree thread state.now mutex) }
{
    if state.owner_or_none(mutex) != 0 {
        return Ok(Vec::new(alloc));
    }
    if !is_inconsistent(state, mutex) {
        return Ok(Vec::new(alloc));
    }
    let next = failed(alloc, state, thread, Errno::Invalid)?;
    one(alloc, next)
}

/// The state once this came of a thread that made a mutex consistent; none if it can't be.
fn mended_as(
    alloc: Global,
    state: &State,
    thread: u32,
    mutex: usize,
    how: Treated,
) -> Result<Vec<State>, Stop>
    requires thread { thread < length state.now.threads }
    requires mutex { mutex < length state.now.mutexes }
    ensures { IfOk result (λ v. v.items ≡ mended_as how thread state.now mutex) }
{
    match how {
        Treated::AsOwner => {
            let next = mended(alloc, state, thread, mutex)?;
            one(alloc, next)
        }
        Treated::RefusedFree => refused_if_free(alloc, state, thread, mutex),
    }
}

/// The state once this came of a thread that made a robust mutex consistent which it doesn't own; none if it can't be.
fn mending(alloc: Global, state: &State, thread: u32, how: Treated) -> Result<Vec<State>, Stop>
    requires { thread < length state.now.threads }
    ensures { IfOk result (λ v. v.items ≡ mending (mended_as how thread state.now) thread state.now) }
{
    match mended_next(state, thread as usize) {
        None => Ok(Vec::new(alloc)),
        Some(mutex) => {
            let at = state.place_of_mutex(mutex)?;
            if !state.is_robust(at) {
                return Ok(Vec::new(alloc));
            }
            if state.owner_or_none(at) == thread {
                return Ok(Vec::new(alloc));
            }
            mended_as(alloc, state, thread, at, how)
        }
    }
}

/// The state once a thread has made a robust mutex that it doesn't own consistent as its owner does.
pub(crate) fn mended_by_any(alloc: Global, state: &State, thread: u32) -> Result<Vec<State>, Stop>
    requires { thread < length state.now.threads }
    ensures { IfOk result (λ v. v.items ≡ mended_by_any thread state.now) }
{
    mending(alloc, state, thread, Treated::AsOwner)
}

/// The state once a thread that made a free and inconsistent mutex consistent is refused; none if the mutex isn't so.
fn refused_free(alloc: Global, state: &State, thread: u32) -> Result<Vec<State>, Stop>
    requires { thread < length state.now.threads }
    ensures { IfOk result (λ v. v.items ≡ refused_free thread state.now) }
{
    mending(alloc, state, thread, Treated::RefusedFree)
}

/// The states once a thread has made a robust mutex that it doesn't own consistent, or is refused.
pub(crate) fn mended_or_refused(
    alloc: Global,
    state: &State,
    thread: u32,
) -> Result<Vec<State>, Stop>
    requires { thread < length state.now.threads }
    ensures { IfOk result (λ v. v.items ≡ mended_or_refused thread state.now) }
{
    joined(
        mended_by_any(alloc, state, thread),
        refused_free(alloc, state, thread),
    )
}
