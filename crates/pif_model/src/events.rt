use pif_types::{Answer, CondId, Kind, MutexId, Prio, Refusal, Request, Tid};

/// What a caller hands to a core: a thread begins a call, goes on by one step of its open call, or ends; or the time.
#[derive(Clone, Copy, Debug, PartialEq, Eq)]
pub enum Event {
    /// The thread begins this call. No word is touched.
    Begin(Tid, Request),
    /// The thread takes one step of its open call: one access of one word, one kernel call, or an answer.
    Go(Tid),
    /// The thread ends, with a call open or not. Its number is never used again.
    End(Tid),
    /// The time is this from now on. It is 0 at first, it never goes back, and its unit is the caller's. It belongs to
    /// no thread, and makes none ready: whose deadline is reached goes on at its own next step.
    Tick(u32),
}

/// What a core answers to an event.
#[derive(Clone, Copy, Debug, PartialEq, Eq)]
pub enum Seen {
    /// The call is open.
    Begun,
    /// The step was taken; the call stays open and goes on.
    Went,
    /// The thread waits: it is queued on a mutex, parked on a condition variable, or stopped for good.
    Waits,
    /// The call is closed with this answer: 0, or the number of an error.
    Answered(Answer),
    /// The thread has ended, and its open call is gone.
    Ended,
    /// The time is the one that was handed in.
    Ticked,
    /// The event was refused, and nothing has changed.
    Refused(Refusal),
}

/// An order in which threads stand. Those of greatest effective priority come first.
#[derive(Clone, Copy)]
pub enum Order {
    /// The waiters of a mutex, in the order in which they get it: of equals the first in arrival comes first.
    Waiters(MutexId),
    /// The threads that are parked on a condition variable, in the order in which they are woken: of equals the first
    /// that was parked comes first.
    Parked(CondId),
    /// The ready threads, in the order in which they run: of equals the first that joined them comes first (SCHED_FIFO,
    /// sched(7)).
    Ready,
}

/// One entry of a core's history: an addition that was made, or an event with what it was answered.
#[derive(Clone, Copy, Debug, PartialEq, Eq)]
pub enum Entry {
    /// This thread was added, with this base priority.
    Thread(Tid, Prio),
    /// This mutex was added, of this kind; true if it is robust.
    Mutex(MutexId, Kind, bool),
    /// This condition variable was added, bound to this mutex.
    Cond(CondId, MutexId),
    /// This event was answered so.
    Step(Event, Seen),
}
