use pif_types::{MutexId, Tid};

/// What may be so in a state of the machine, of which a search is asked. Whom a thread waits for is as lending sees it: a
/// mutex of PTHREAD_PRIO_NONE lends nothing.
#[derive(Clone, Copy, PartialEq, Eq)]
pub enum Fact {
    /// POSIX leaves undefined what the open call of the thread does, which has had no effect yet.
    LeftUndefined(Tid),
    /// The mutex is owned by the thread, which may have ended.
    Held(MutexId, Tid),
    /// The mutex is owned by nobody, or by the thread.
    HeldByNoOther(MutexId, Tid),
    /// The thread waits for the mutex, and gets it next.
    Next(MutexId, Tid),
    /// The mutex is owned by the thread, or the thread gets it next.
    HeldOrNext(MutexId, Tid),
    /// The owner of the mutex is the thread, or doesn't wait for it through any chain.
    ClosesNoCycle(MutexId, Tid),
    /// The first thread waits for the second through some chain.
    WaitsFor(Tid, Tid),
    /// The thread has this effective priority.
    Priority(Tid, u32),
    /// The open call of the thread, a wait, was not unblocked but by its deadline.
    NotSignalled(Tid),
    /// The open call of the thread has this deadline, and the time is the second number, which is before it.
    NotDue(Tid, u32, u32),
    /// The thread doesn't rest: it is among no waiters, and wasn't told to wait.
    Awake(Tid),
}
