use crate::Fact;
use pif_types::{Answer, Kind, MutexId, Request, Tid};

/// What the threads that wait for a mutex lend to its owner (POSIX.1-2017, pthread_mutexattr_getprotocol).
#[derive(Clone, Copy, PartialEq, Eq)]
pub enum Protocol {
    /// PTHREAD_PRIO_INHERIT: the owner runs at the greatest effective priority of those that wait for the mutex, if that
    /// is above its own.
    PrioInherit,
    /// PTHREAD_PRIO_NONE: owning the mutex does not affect the priority of its owner.
    PrioNone,
}

/// One line of a history: what was seen of an implementation, in the order in which it was seen.
///
/// A line may name any thread, mutex or variable, also one that was never added: then no run shows it. Threads, mutexes
/// and variables are numbered from 1, each by themselves, in the order in which the history adds them.
#[derive(Clone, Copy, PartialEq, Eq)]
pub enum Line {
    /// `thread P`: a thread of this base priority, which may be out of range.
    Thread(u32),
    /// `mutex K`, `mutex K robust`, `mutex K none` or `mutex K robust none`: a mutex of this kind, robust if the second
    /// value is true, with this protocol. One of PTHREAD_PRIO_NONE is added only if `Rules::prio_none` is set.
    Mutex(Kind, bool, Protocol),
    /// `cond mN`: a condition variable that is bound to this mutex.
    Cond(MutexId),
    /// `begin tN Q`: the thread entered this call.
    Begin(Tid, Request),
    /// `answer tN A`: the open call of the thread returned 0, or the number of an error.
    Answer(Tid, Answer),
    /// `dying tN`: the thread ends at some moment from here on. Without a later `end tN` it perhaps ends.
    Dying(Tid),
    /// `end tN`: the thread has ended. Behind `dying tN` it ended somewhere between the two lines, else at this line.
    End(Tid),
    /// `tick N`: the time is this from here on. It is 0 at first, and its unit is that of deadlines.
    Tick(u32),
    /// `rests tN`: the thread was seen blocked at this line.
    Rests(Tid),
    /// `prio tN P`: the effective priority of the thread was seen to be this at this line.
    Prio(Tid, u32),
    /// `process t1 t2 ..`, one for each thread that it names: the process of this thread ends, or has ended, with all of
    /// them. Such a thread has ended, or isn't dying yet.
    Process(Tid),
    /// `halted`: from here to `resumed` nothing runs, so that all lines between tell of one state. They are `rests`, `prio`
    /// and `end`.
    Halted,
    /// `resumed`: the threads go on.
    Resumed,
    /// The fact is so if the second value is true, and isn't if it is false. No history has this line: a search is asked
    /// for it.
    Asks(Fact, bool),
}
