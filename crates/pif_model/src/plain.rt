ghost use Rattle.std.specs.Prelude.{◌≡◌};
ghost use Rattle.pif_model.specs.Deadlines.{plain, with_deadline_if_any};
ghost use Rattle.pif_model.specs.Plain.{request_of};

use pif_types::{CondId, MutexId, Request, Tid};
use std::marker::Model;

/// What an open call asks. Its deadline, if it has one, is in its thread's timer.
#[derive(Clone, Copy)]
pub enum Plain {
    /// pthread_mutex_lock and pthread_mutex_timedlock of this mutex.
    Lock(MutexId),
    /// pthread_mutex_trylock of this mutex.
    TryLock(MutexId),
    /// pthread_mutex_unlock of this mutex.
    Unlock(MutexId),
    /// pthread_mutex_consistent of this mutex.
    Consistent(MutexId),
    /// pthread_cond_wait and pthread_cond_timedwait on this variable with this mutex.
    Wait(CondId, MutexId),
    /// pthread_cond_signal of this variable.
    Signal(CondId),
    /// pthread_cond_broadcast of this variable.
    Broadcast(CondId),
    /// pthread_setschedprio: this thread gets this base priority.
    SetPrio(Tid, u32),
}

/// A request without a deadline: that of an open call.
#[derive(Clone, Copy)]
pub struct PlainRequest {
    asked: Plain,
}

impl Model for PlainRequest {
    ghost use Rattle.pif_types.specs.declared.requests.Request.{Request};
    ghost use Rattle.pif_model.specs.Plain.{request_of, asked_by, asked_again};

    ghost Value = { Request };

    ghost view = { λ r. request_of r.asked };

    ghost inverse = { λ q. record { asked = asked_by q } };

    ghost inverse_ok = { λ a h. λ i. record { asked = asked_again a.asked i } };
}

impl PlainRequest {
    /// The request without its deadline, if it has one: a timed lock is a lock, and a timed wait a wait.
    pub fn of(request: Request) -> PlainRequest
        ensures { result ≡ plain request }
    {
        let asked = match request {
            Request::Lock(m) | Request::TimedLock(m, _) => Plain::Lock(m),
            Request::TryLock(m) => Plain::TryLock(m),
            Request::Unlock(m) => Plain::Unlock(m),
            Request::Consistent(m) => Plain::Consistent(m),
            Request::Wait(c, m) | Request::TimedWait(c, m, _) => Plain::Wait(c, m),
            Request::Signal(c) => Plain::Signal(c),
            Request::Broadcast(c) => Plain::Broadcast(c),
            Request::SetPrio(t, prio) => Plain::SetPrio(t, prio),
        };
        PlainRequest { asked }
    }

    /// What it asks.
    pub fn get(&self) -> Plain
        ensures { request_of result ≡ self.now }
    {
        self.asked
    }

    /// The request that it was, with its deadline: a lock that has one is a timed lock, and a wait a timed wait.
    pub fn with_deadline_if_any(&self, deadline: Option<u32>) -> Request
        ensures { result ≡ with_deadline_if_any deadline self.now }
    {
        match self.asked {
            Plain::Lock(m) => match deadline {
                None => Request::Lock(m),
                Some(deadline) => Request::TimedLock(m, deadline),
            },
            Plain::TryLock(m) => Request::TryLock(m),
            Plain::Unlock(m) => Request::Unlock(m),
            Plain::Consistent(m) => Request::Consistent(m),
            Plain::Wait(c, m) => match deadline {
                None => Request::Wait(c, m),
                Some(deadline) => Request::TimedWait(c, m, deadline),
            },
            Plain::Signal(c) => Request::Signal(c),
            Plain::Broadcast(c) => Request::Broadcast(c),
            Plain::SetPrio(t, prio) => Request::SetPrio(t, prio),
        }
    }
}
