ghost use Rattle.std.specs.Prelude.{◌≡◌};
ghost use Rattle.pif_model.specs.World.{variable_of};
ghost use Rattle.pif_model.specs.Posix.{named_by, is_use};
ghost use Rattle.pif_model.specs.Deadlines.{plain, deadline_of, is_reached, reported_result};

use pif_types::{Answer, Errno, Request};

/// The variable that a request names; 0 if it names none.
pub fn variable_of(request: &Request) -> u32
    ensures { result ≡ variable_of request.now }
{
    match *request {
        Request::Wait(cond, _)
        | Request::TimedWait(cond, _, _)
        | Request::Signal(cond)
        | Request::Broadcast(cond) => cond.get(),
        _ => 0,
    }
}

/// The mutex that a request names; 0 if it names none.
pub fn named_by(request: &Request) -> u32
    ensures { result ≡ named_by request.now }
{
    match *request {
        Request::Lock(mutex)
        | Request::TryLock(mutex)
        | Request::Unlock(mutex)
        | Request::Consistent(mutex)
        | Request::Wait(_, mutex)
        | Request::TimedLock(mutex, _)
        | Request::TimedWait(_, mutex, _) => mutex.get(),
        _ => 0,
    }
}

/// Whether a request is a signal or a broadcast.
pub(crate) fn is_use(request: &Request) -> bool
    ensures { result ≡ is_use request.now }
{
    match *request {
        Request::Signal(_) | Request::Broadcast(_) => true,
        _ => false,
    }
}

/// The request without its deadline: a timed lock is a lock, and a timed wait a wait.
pub(crate) fn plain(request: &Request) -> Request
    ensures { result ≡ plain request.now }
{
    match *request {
        Request::TimedLock(mutex, _) => Request::Lock(mutex),
        Request::TimedWait(cond, mutex, _) => Request::Wait(cond, mutex),
        _ => *request,
    }
}

/// The deadline of a request, if it has one.
pub(crate) fn deadline_of(request: &Request) -> Option<u32>
    ensures { result ≡ deadline_of request.now }
{
    match *request {
        Request::TimedLock(_, deadline) | Request::TimedWait(_, _, deadline) => Some(deadline),
        _ => None,
    }
}

/// Whether this deadline, if there is one, is reached at this time.
pub(crate) fn is_reached(deadline: Option<u32>, now: u32) -> bool
    ensures { result ≡ is_reached deadline now }
{
    match deadline {
        Some(deadline) => deadline <= now,
        None => false,
    }
}

/// What a call with this result is answered: a wait that has run out of time is answered ETIMEDOUT in place of 0
/// (POSIX, pthread_cond_timedwait).
pub fn reported_result(request: &Request, expired: bool, result_of: Answer) -> Answer
    ensures { result ≡ reported_result request.now expired result_of }
{
    match request {
        Request::Wait(_, _) if expired && result_of == 0 => Errno::TimedOut.number(),
        _ => result_of,
    }
}
