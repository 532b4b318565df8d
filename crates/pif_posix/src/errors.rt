ghost use Rattle.std.specs.Prelude.{◌≡◌, ◌<◌, ◌∷◌, [], length, if◌then◌else◌, IfOk};
ghost use Rattle.pif_model.specs.NamedNumbers.{ETIMEDOUT};
ghost use Rattle.pif_rules_model.specs.Rules.{is_lock_error, wait_errors, errors_beside, other_errors};
ghost use Rattle.pif_rules_model.specs.Ruled.{failed_otherwise};
ghost use Rattle.pif_posix.specs.Shapes.{progress_of};

use crate::health::is_unusable;
use crate::priorities::each_answered;
use crate::requests::{is_reached, named_by};
use crate::wide_lists::joined;
use crate::{Call, Progress, State};
use pif_search::{Stop, one};
use pif_types::{Answer, Errno, Request};
use std::alloc::Global;

/// Whether this is an error of a lock that didn't get its mutex.
fn is_lock_error(answer: Answer) -> bool
    ensures { result ≡ is_lock_error answer }
{
    answer == Errno::Again.number()
        || (answer == Errno::Deadlock.number() || answer == Errno::NotRecoverable.number())
}

/// This error alone if it holds, or none.
fn error_if(alloc: Global, holds: bool, error: Answer) -> Result<Vec<Answer>, Stop>
    ensures { IfOk result (λ v. v.items ≡ (if holds then error ∷ [] else [])) }
{
    if holds {
        one(alloc, error)
    } else {
        Ok(Vec::new(alloc))
    }
}

/// What else holds of a lock with this result, if its deadline is reached or isn't.
fn lock_errors(alloc: Global, answer: Answer, late: bool) -> Result<Vec<Answer>, Stop>
    ensures { IfOk result (λ v. v.items ≡ (if is_lock_error answer then (if late then ETIMEDOUT ∷ [] else []) else [])) }
{
    if !is_lock_error(answer) {
        return Ok(Vec::new(alloc));
    }
    error_if(alloc, late, Errno::TimedOut.number())
}

/// What else holds of a wait with this result: its deadline is reached or isn't, it has run out of time or hasn't, and
/// its mutex is unusable or isn't.
fn wait_errors(
    alloc: Global,
    answer: Answer,
    late: bool,
    ran_out: bool,
    unusable: bool,
) -> Result<Vec<Answer>, Stop>
    ensures { IfOk result (λ v. v.items ≡ wait_errors answer late ran_out unusable) }
{
    if answer == Errno::NotPermitted.number() {
        let timeout = error_if(alloc, late, Errno::TimedOut.number());
        return joined(
            timeout,
            error_if(alloc, unusable, Errno::NotRecoverable.number()),
        );
    }
    if answer == Errno::OwnerDead.number() || answer == Errno::NotRecoverable.number() {
        return error_if(alloc, ran_out, Errno::TimedOut.number());
    }
    Ok(Vec::new(alloc))
}

/// The errors of its page that hold of an open call beside the one that is its result.
fn errors_beside(
    alloc: Global,
    call: &Call,
    late: bool,
    ran_out: bool,
    unusable: bool,
) -> Result<Vec<Answer>, Stop>
    ensures { IfOk result (λ v. v.items ≡ errors_beside call.now.request (progress_of call.now.progress) late ran_out unusable) }
{
    match call {
        Call {
            request: Request::Lock(_),
            progress: Progress::Has(answer),
        } => lock_errors(alloc, *answer, late),
        Call {
            request: Request::TryLock(_),
            progress: Progress::Has(answer),
        } => error_if(
            alloc,
            *answer == Errno::Again.number(),
            Errno::Busy.number(),
        ),
        Call {
            request: Request::Wait(_, _),
            progress: Progress::Has(answer),
        } => wait_errors(alloc, *answer, late, ran_out, unusable),
        _ => Ok(Vec::new(alloc)),
    }
}

/// The errors of its page that hold of the open call of a thread beside the one that is its result.
fn other_errors(alloc: Global, state: &State, thread: u32) -> Result<Vec<Answer>, Stop>
    requires { thread < length state.now.threads }
    ensures { IfOk result (λ v. v.items ≡ other_errors state.now thread) }
{
    match &state.call(thread as usize) {
        None => Ok(Vec::new(alloc)),
        Some(call) => {
            let mutex = state.place_of_mutex(named_by(&call.request))?;
            let timer = state.timer(thread as usize);
            let late = is_reached(timer.deadline, state.time);
            let unusable = is_unusable(state, mutex);
            errors_beside(alloc, call, late, timer.expired, unusable)
        }
    }
}

/// The states once the open call of a thread, which has an error as its result, has another one that holds, too.
pub(crate) fn failed_otherwise(
    alloc: Global,
    state: &State,
    thread: u32,
) -> Result<Vec<State>, Stop>
    requires { thread < length state.now.threads }
    ensures { IfOk result (λ v. v.items ≡ failed_otherwise thread state.now) }
{
    let errors = other_errors(alloc, state, thread)?;
    each_answered(alloc, state, thread, errors.as_slice())
}
