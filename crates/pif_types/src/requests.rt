ghost use Rattle.std.specs.Prelude.{◌≡◌};
ghost use Rattle.pif_types.specs.Shapes.{names_of};

use crate::{CondId, MutexId, Tid};

/// The type of a mutex, as pthread_mutexattr_settype has it. PTHREAD_MUTEX_DEFAULT is `Normal`.
#[derive(Clone, Copy, Debug, PartialEq, Eq)]
pub enum Kind {
    /// PTHREAD_MUTEX_NORMAL: a thread that locks a mutex that it owns waits for good.
    Normal,
    /// PTHREAD_MUTEX_ERRORCHECK: a thread that locks a mutex that it owns is answered EDEADLK.
    ErrorCheck,
    /// PTHREAD_MUTEX_RECURSIVE: a thread that locks a mutex that it owns holds it once more, and if it holds it 255
    /// times, it is answered EAGAIN. The mutex is given up once it was unlocked as often.
    Recursive,
}

/// What is known of the state that a robust mutex protects, as its health word has it (pthread_mutexattr_setrobust and
/// pthread_mutex_consistent of POSIX). That of a stalled mutex is `Fine`.
#[derive(Clone, Copy, Debug, PartialEq, Eq)]
pub enum Health {
    /// It is in order, as far as the health word says. Right after its owner ended it is so still: who takes the mutex
    /// next writes `Inconsistent`.
    Fine,
    /// An owner ended, and nobody has said since that it is in order.
    Inconsistent,
    /// The mutex was given up while it was inconsistent, and nobody can lock it again: ENOTRECOVERABLE.
    Unusable,
}

/// A pthread call that a thread may begin.
#[derive(Clone, Copy, Debug, PartialEq, Eq)]
pub enum Request {
    /// pthread_mutex_lock: waits until the caller owns the mutex. The answer is 0, or EOWNERDEAD if the caller owns it
    /// now in an inconsistent state. It is ENOTRECOVERABLE if the mutex is unusable, and EDEADLK if its kind is
    /// `Kind::ErrorCheck` and the caller owns it, or if waiting would close a cycle. It is EAGAIN if its kind is
    /// `Kind::Recursive` and the caller holds it 255 times. Who owns one of `Kind::Normal`, and who locks one that isn't
    /// robust and whose owner has ended, waits for good.
    Lock(MutexId),
    /// pthread_mutex_trylock: never waits. A mutex that is held is answered EBUSY, by its owner too, unless its kind is
    /// `Kind::Recursive`: there its owner holds it once more, as by pthread_mutex_lock.
    TryLock(MutexId),
    /// pthread_mutex_unlock: the caller holds the mutex once less. If it holds it no more, the first waiter gets it. One
    /// that is given up in an inconsistent state is unusable from then on. EPERM if the caller doesn't own it.
    Unlock(MutexId),
    /// pthread_mutex_consistent: the caller, who owns the robust mutex in an inconsistent state, says that what it
    /// protects is in order again. A mutex that isn't robust is answered EINVAL, then one that the caller doesn't own
    /// EPERM, then one that isn't inconsistent EINVAL.
    Consistent(MutexId),
    /// pthread_cond_wait: gives the mutex up, waits until the variable is signalled, and locks the mutex again. A mutex
    /// to which the variable isn't bound is answered EINVAL, then one that the caller doesn't own EPERM, then one that
    /// the caller holds more than once EINVAL. One that is given up in an inconsistent state is unusable from then on.
    /// The answer is 0, or EOWNERDEAD if the caller owns the mutex again in an inconsistent state. It is EDEADLK or
    /// ENOTRECOVERABLE, as that of a lock, if the mutex can't be locked again; then the caller doesn't hold it.
    Wait(CondId, MutexId),
    /// pthread_cond_signal: wakes one of the threads that wait on the variable, if there is one. It is answered
    /// EOVERFLOW if the variable has had all the signals and broadcasts that its limit allows.
    Signal(CondId),
    /// pthread_cond_broadcast: wakes all threads that wait on the variable. It is answered EOVERFLOW as a signal is.
    Broadcast(CondId),
    /// pthread_setschedprio: gives this thread this base priority. EINVAL if it isn't 1 to 99, then ESRCH if no living
    /// thread has that number; nothing has changed then.
    SetPrio(Tid, u32),
    /// pthread_mutex_timedlock: locks as `Lock` does, but waits only until the time, in the unit of its caller, is at
    /// least this deadline. Then the answer is ETIMEDOUT, and the caller doesn't get the mutex. A mutex that can be had
    /// at once is had whatever the deadline is. One of `Kind::Normal` that the caller owns is waited for so, too.
    TimedLock(MutexId, u32),
    /// pthread_cond_timedwait: waits as `Wait` does, but once the time is at least this deadline it waits for the
    /// variable no longer, locks the mutex again, for which no deadline counts, and is answered ETIMEDOUT in place of
    /// 0. Another answer of that lock stays: EOWNERDEAD, or EDEADLK or ENOTRECOVERABLE, after which the caller
    /// doesn't hold the mutex.
    TimedWait(CondId, MutexId, u32),
}

/// What a request names, as far as it names any.
#[derive(Clone, Copy)]
pub struct Named {
    /// The mutex that it locks, tries, unlocks or makes consistent, or with which it waits.
    pub mutex: Option<MutexId>,
    /// The condition variable that it waits for, signals or broadcasts.
    pub cond: Option<CondId>,
    /// The thread whose base priority it sets.
    pub thread: Option<Tid>,
}

impl Request {
    /// The mutex, the condition variable and the thread that this request names, each `None` if it names none. Whether
    /// there are such is not asked.
    pub fn names(&self) -> Named
        ensures value { result ≡ names_of self.now }
    {
        match *self {
            Request::Lock(m)
            | Request::TimedLock(m, _)
            | Request::TryLock(m)
            | Request::Unlock(m)
            | Request::Consistent(m) => Named {
                mutex: Some(m),
                cond: None,
                thread: None,
            },
            Request::Wait(c, m) | Request::TimedWait(c, m, _) => Named {
                mutex: Some(m),
                cond: Some(c),
                thread: None,
            },
            Request::Signal(c) | Request::Broadcast(c) => Named {
                mutex: None,
                cond: Some(c),
                thread: None,
            },
            Request::SetPrio(t, _) => Named {
                mutex: None,
                cond: None,
                thread: Some(t),
            },
        }
    }
}
