ghost use Rattle.std.specs.Prelude.{◌≡◌, Some, true};
ghost use Rattle.pif_model.specs.World.{is_blocked, is_idle, is_call_blocked};
ghost use Rattle.pif_model.specs.Posix.{on_release, on_unblocking, counts_now, is_newly_blocked};
ghost use Rattle.pif_posix.specs.Shapes.{progress_of, call_of};

use crate::requests::variable_of;
use pif_types::Request;

/// How far an open call has come.
#[derive(Clone, Copy)]
pub enum Progress {
    /// It has had no effect yet.
    Fresh,
    /// Its thread is among the waiters of a mutex.
    Waiting,
    /// Its thread waits for good.
    Stuck,
    /// It owns an unusable mutex and has to give it up.
    Leaving,
    /// It has this result: 0, or the number of an error.
    Has(u32),
    /// A wait whose thread owns the mutex and holds it once.
    Checked,
    /// A wait that has joined the variable's blocked threads, whose thread owns the mutex yet; true while it is
    /// blocked.
    Enlisted(bool),
    /// A wait that has given the mutex up and is blocked; true once it is noted that its thread was told to wait.
    Blocked(bool),
    /// A wait that has given the mutex up and is unblocked: it has to lock the mutex again.
    Reacquiring,
    /// A signal or broadcast that has used the variable, and has to choose whom it wakes.
    Used,
}

impl Progress {
    /// How far a call has come once its thread is unblocked.
    pub(crate) fn unblocked(self) -> Progress
        ensures { progress_of result ≡ on_unblocking (progress_of self) }
    {
        match self {
            Progress::Enlisted(_) => Progress::Enlisted(false),
            Progress::Blocked(_) => Progress::Reacquiring,
            _ => self,
        }
    }

    /// How far a wait that is blocked still, or isn't, has come once it has given the mutex up.
    pub(crate) fn on_release(still: bool) -> Progress
        ensures { progress_of result ≡ on_release still }
    {
        if still {
            Progress::Blocked(false)
        } else {
            Progress::Reacquiring
        }
    }

    /// Whether this is the same.
    pub(crate) fn is_same(self, other: Progress) -> bool
        ensures { result ≡ true → progress_of self ≡ progress_of other }
    {
        match (self, other) {
            (Progress::Fresh, Progress::Fresh) => true,
            (Progress::Waiting, Progress::Waiting) => true,
            (Progress::Stuck, Progress::Stuck) => true,
            (Progress::Leaving, Progress::Leaving) => true,
            (Progress::Has(a), Progress::Has(b)) => a == b,
            (Progress::Checked, Progress::Checked) => true,
            (Progress::Enlisted(a), Progress::Enlisted(b)) => a == b,
            (Progress::Blocked(a), Progress::Blocked(b)) => a == b,
            (Progress::Reacquiring, Progress::Reacquiring) => true,
            (Progress::Used, Progress::Used) => true,
            _ => false,
        }
    }

    /// Whether the thread of a call that has come this far is blocked on a variable.
    pub fn is_blocked(self) -> bool
        ensures { result ≡ is_blocked (progress_of self) }
    {
        match self {
            Progress::Enlisted(still) => still,
            Progress::Blocked(_) => true,
            _ => false,
        }
    }

    /// Whether a call that has come this far waits for good, or is blocked and was told to wait.
    pub(crate) fn is_idle(self) -> bool
        ensures { result ≡ is_idle (progress_of self) }
    {
        match self {
            Progress::Stuck => true,
            Progress::Blocked(noted) => noted,
            _ => false,
        }
    }
}

/// An open call. Its request is a plain one, without the deadline that it was begun with.
#[derive(Clone, Copy)]
pub struct Call {
    /// What was asked.
    pub request: Request,
    /// How far it has come.
    pub progress: Progress,
}

impl Call {
    /// Whether the thread of the call is blocked on this variable.
    pub(crate) fn is_blocked_on(&self, variable: u32) -> bool
        ensures { result ≡ is_call_blocked variable (call_of (Some self.now)) }
    {
        self.progress.is_blocked() && variable_of(&self.request) == variable
    }

    /// Whether the thread of the call is blocked on this variable, and was not told to wait yet.
    pub(crate) fn is_newly_blocked(&self, variable: u32) -> bool
        ensures { result ≡ is_newly_blocked variable (call_of (Some self.now)) }
    {
        !self.progress.is_idle() && self.is_blocked_on(variable)
    }

    /// Whether the deadline of the call counts, if it has one.
    pub(crate) fn is_counting(&self) -> bool
        ensures { result ≡ counts_now self.now.request (progress_of self.now.progress) }
    {
        match (self.request, self.progress) {
            (Request::Lock(_), Progress::Waiting | Progress::Stuck) => true,
            (Request::Wait(_, _), Progress::Blocked(noted)) => noted,
            _ => false,
        }
    }
}
