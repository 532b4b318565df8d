ghost use Rattle.std.specs.Prelude.{◌≡◌, ◌<◌, ◌∷◌, ℕ, [], length, map, if◌then◌else◌, IfOk};
ghost use Rattle.pif_model.specs.NamedNumbers.{EPERM, ESRCH, EINVAL};
ghost use Rattle.pif_rules_model.specs.Ruled.{with_result, priority_refused};

use crate::next::set_next;
use crate::{Progress, State};
use pif_search::{Stop, push};
use pif_types::{Answer, Errno};
use std::alloc::Global;

/// What a change of a priority that changes nothing may be answered, of a thread that lives or doesn't.
fn refusals(alloc: Global, living: bool) -> Result<Vec<Answer>, Stop>
    ensures { IfOk result (λ v. v.items ≡ EPERM ∷ EINVAL ∷ (if living then [] else ESRCH ∷ 0 ∷ [])) }
{
    let mut all = Vec::new(alloc);
    push(&mut all, Errno::NotPermitted.number())?;
    push(&mut all, Errno::Invalid.number())?;
    if living {
        return Ok(all);
    }
    push(&mut all, Errno::NoSuchThread.number())?;
    push(&mut all, 0)?;
    Ok(all)
}

/// The state once the call of a thread has this result.
fn with_result(alloc: Global, state: &State, thread: u32, answer: Answer) -> Result<State, Stop>
    requires { thread < length state.now.threads }
    ensures { IfOk result (λ s. s ≡ with_result thread state.now answer) }
{
    let mut next = state.copied(alloc)?;
    next.set_progress(thread as usize, Progress::Has(answer));
    Ok(next)
}

/// The states once the call of a thread has one of these results.
pub(crate) fn each_answered(
    alloc: Global,
    state: &State,
    thread: u32,
    answers: &[Answer],
) -> Result<Vec<State>, Stop>
    requires { thread < length state.now.threads }
    ensures { IfOk result (λ v. v.items ≡ map (with_result thread state.now) answers.now) }
{
    let mut all = Vec::new(alloc);
    for i in 0..answers.len() {
        let next = with_result(alloc, state, thread, answers[i])?;
        push(&mut all, next)?;
    }
    Ok(all)
}

/// The states once a thread's change of a priority is refused, or changes nothing since the other thread has ended.
pub(crate) fn priority_refused(
    alloc: Global,
    state: &State,
    thread: u32,
) -> Result<Vec<State>, Stop>
    requires { thread < length state.now.threads }
    ensures { IfOk result (λ v. v.items ≡ priority_refused thread state.now) }
{
    match set_next(state, thread as usize) {
        None => Ok(Vec::new(alloc)),
        Some(other) => {
            let answers = refusals(alloc, state.is_living(other as usize))?;
            each_answered(alloc, state, thread, answers.as_slice())
        }
    }
}
