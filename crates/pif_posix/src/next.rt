ghost use Rattle.std.specs.Prelude.{◌≡◌, ◌==◌, ◌||◌, Some, None, if◌then◌else◌};
ghost use Rattle.pif_model.specs.NamedNumbers.{EOWNERDEAD};
ghost use Rattle.pif_rules_model.specs.Rules.{of_call, locked_next_by, locked_first_by, got_by, waited_for_by, tried_next_by, mended_next_by, given_next_by, unlocked_next_by, waited_next_by, waited_with_by, used_next_by, signalled_next_by, signalling_by, blocked_by, set_next_by};
ghost use Rattle.pif_rules_model.specs.Ruled.{is_mutex_of};
ghost use Rattle.pif_posix.specs.Shapes.{given_of};

use crate::{Call, Progress, State, named_by, variable_of};
use pif_types::{Answer, Errno, Request};

/// Whether a mutex or a variable that may be there is this one.
pub(crate) fn is_mutex_of(found: Option<u32>, mutex: u32) -> bool
    ensures { result ≡ is_mutex_of found mutex }
{
    match found {
        None => false,
        Some(other) => other == mutex,
    }
}

/// The mutex, if this result says that it was locked.
fn if_locked(mutex: u32, answer: Answer) -> Option<u32>
    ensures { result ≡ (if (answer == 0) || (answer == EOWNERDEAD) then Some mutex else None) }
{
    if answer == 0 || answer == Errno::OwnerDead.number() {
        Some(mutex)
    } else {
        None
    }
}

/// The mutex that the open call of a thread is about to lock, if there is one: a lock has had no effect yet, or a wait
/// has to lock again.
pub(crate) fn locked_next(state: &State, thread: usize) -> Option<u32>
    ensures { result ≡ of_call locked_next_by state.now thread }
{
    match &state.call(thread) {
        Some(
            Call {
                request: Request::Lock(mutex),
                progress: Progress::Fresh,
            },
        ) => Some(mutex.get()),
        Some(
            Call {
                request: Request::Wait(_, mutex),
                progress: Progress::Reacquiring,
            },
        ) => Some(mutex.get()),
        _ => None,
    }
}

/// The mutex that the open call of a thread, a lock, timed or not, is about to lock, if there is one.
pub(crate) fn locked_first(state: &State, thread: usize) -> Option<u32>
    ensures { result ≡ of_call locked_first_by state.now thread }
{
    match &state.call(thread) {
        Some(
            Call {
                request: Request::Lock(mutex),
                progress: Progress::Fresh,
            },
        ) => Some(mutex.get()),
        _ => None,
    }
}

/// The mutex that a thread has got by its open call, if there is one: the call has the result 0 or EOWNERDEAD of a lock,
/// or of the lock of a wait.
pub(crate) fn got(state: &State, thread: usize) -> Option<u32>
    ensures { result ≡ of_call got_by state.now thread }
{
    match &state.call(thread) {
        Some(
            Call {
                request: Request::Lock(mutex) | Request::Wait(_, mutex),
                progress: Progress::Has(answer),
            },
        ) => if_locked(mutex.get(), *answer),
        _ => None,
    }
}

/// The mutex for which the open call of a thread waits, to lock it or to reacquire it, if there is one.
pub(crate) fn waited_for(state: &State, thread: usize) -> Option<u32>
    ensures { result ≡ of_call waited_for_by state.now thread }
{
    match &state.call(thread) {
        Some(
            Call {
                request: Request::Lock(mutex) | Request::Wait(_, mutex),
                progress: Progress::Waiting,
            },
        ) => Some(mutex.get()),
        _ => None,
    }
}

/// The mutex that the open call of a thread is about to try to lock, if there is one.
pub(crate) fn tried_next(state: &State, thread: usize) -> Option<u32>
    ensures { result ≡ of_call tried_next_by state.now thread }
{
    match &state.call(thread) {
        Some(
            Call {
                request: Request::TryLock(mutex),
                progress: Progress::Fresh,
            },
        ) => Some(mutex.get()),
        _ => None,
    }
}

/// The mutex that the open call of a thread is about to make consistent, if there is one.
pub(crate) fn mended_next(state: &State, thread: usize) -> Option<u32>
    ensures { result ≡ of_call mended_next_by state.now thread }
{
    match &state.call(thread) {
        Some(
            Call {
                request: Request::Consistent(mutex),
                progress: Progress::Fresh,
            },
        ) => Some(mutex.get()),
        _ => None,
    }
}

/// The mutex that the open call of a thread is about to give up, if there is one, and how far the call has come then.
/// The call is an unlock, a wait, or one that took an unusable mutex.
pub(crate) fn given_next(state: &State, thread: usize) -> Option<(u32, Progress)>
    ensures { given_of result ≡ of_call given_next_by state.now thread }
{
    match &state.call(thread) {
        Some(
            Call {
                request: Request::Unlock(mutex),
                progress: Progress::Fresh,
            },
        ) => Some((mutex.get(), Progress::Has(0))),
        Some(
            Call {
                request: Request::Wait(_, mutex),
                progress: Progress::Enlisted(still),
            },
        ) => Some((mutex.get(), Progress::on_release(*still))),
        Some(
            Call {
                request,
                progress: Progress::Leaving,
            },
        ) => Some((
            named_by(request),
            Progress::Has(Errno::NotRecoverable.number()),
        )),
        _ => None,
    }
}

/// The mutex that the open call of a thread, an unlock or a wait, is about to give up, if there is one.
pub(crate) fn unlocked_next(state: &State, thread: usize) -> Option<u32>
    ensures { result ≡ of_call unlocked_next_by state.now thread }
{
    match &state.call(thread) {
        Some(
            Call {
                request: Request::Unlock(mutex),
                progress: Progress::Fresh,
            },
        ) => Some(mutex.get()),
        Some(
            Call {
                request: Request::Wait(_, mutex),
                progress: Progress::Enlisted(_),
            },
        ) => Some(mutex.get()),
        _ => None,
    }
}

/// The variable and the mutex with which the open call of a thread is about to wait, if it is.
pub(crate) fn waited_next(state: &State, thread: usize) -> Option<(u32, u32)>
    ensures { result ≡ of_call waited_next_by state.now thread }
{
    match &state.call(thread) {
        Some(
            Call {
                request: Request::Wait(cond, mutex),
                progress: Progress::Fresh,
            },
        ) => Some((cond.get(), mutex.get())),
        _ => None,
    }
}

/// The mutex of the open call of a thread, a wait that has its result, if it is one.
pub(crate) fn waited_with(state: &State, thread: usize) -> Option<u32>
    ensures { result ≡ of_call waited_with_by state.now thread }
{
    match &state.call(thread) {
        Some(
            Call {
                request: Request::Wait(_, mutex),
                progress: Progress::Has(_),
            },
        ) => Some(mutex.get()),
        _ => None,
    }
}

/// The variable that the open call of a thread, a signal or a broadcast, is about to use, if there is one.
pub(crate) fn used_next(state: &State, thread: usize) -> Option<u32>
    ensures { result ≡ of_call used_next_by state.now thread }
{
    match &state.call(thread) {
        Some(
            Call {
                request: Request::Signal(cond) | Request::Broadcast(cond),
                progress: Progress::Fresh,
            },
        ) => Some(cond.get()),
        _ => None,
    }
}

/// The variable of which the open call of a thread is about to wake another, if there is one: a signal that has used it.
pub(crate) fn signalled_next(state: &State, thread: usize) -> Option<u32>
    ensures { result ≡ of_call signalled_next_by state.now thread }
{
    match &state.call(thread) {
        Some(
            Call {
                request: Request::Signal(cond),
                progress: Progress::Used,
            },
        ) => Some(cond.get()),
        _ => None,
    }
}

/// The variable of the open signal of a thread that has not chosen yet whom it wakes, if there is one.
pub(crate) fn signalling(state: &State, thread: usize) -> Option<u32>
    ensures { result ≡ of_call signalling_by state.now thread }
{
    match &state.call(thread) {
        Some(
            Call {
                request: Request::Signal(cond),
                progress: Progress::Fresh | Progress::Used,
            },
        ) => Some(cond.get()),
        _ => None,
    }
}

/// The variable on which a thread is blocked, if there is one.
pub(crate) fn blocked_on(state: &State, thread: usize) -> Option<u32>
    ensures { result ≡ of_call blocked_by state.now thread }
{
    match state.call(thread) {
        Some(call) if call.progress.is_blocked() => Some(variable_of(&call.request)),
        _ => None,
    }
}

/// The thread whose priority the open call of a thread is about to set, if there is one.
pub(crate) fn set_next(state: &State, thread: usize) -> Option<u32>
    ensures { result ≡ of_call set_next_by state.now thread }
{
    match &state.call(thread) {
        Some(
            Call {
                request: Request::SetPrio(other, _),
                progress: Progress::Fresh,
            },
        ) => Some(other.get()),
        _ => None,
    }
}
