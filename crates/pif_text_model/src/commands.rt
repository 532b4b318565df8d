use crate::Question;
use pif_model::Event;
use pif_types::{Kind, MutexId, Request, Tid};

/// What a line of a script asks for. Threads, mutexes and condition variables are numbered from 1, each by themselves.
///
/// A request Q is `lock mN`, `trylock mN`, `unlock mN`, `consistent mN`, `wait cN mN`, `signal cN`, `broadcast cN`,
/// `setprio tN P`, `timedlock mN D` or `timedwait cN mN D`, with a deadline `D`.
#[derive(Clone, Copy, PartialEq, Eq)]
pub enum Command {
    /// `limits T M C S`: the most threads, mutexes, condition variables, and signals and broadcasts on one variable, of
    /// which any may be out of range.
    Limits(u32, u32, u32, u32),
    /// `thread P`, `mutex K`, `mutex K robust` or `cond mN`: add one more.
    Add(Addition),
    /// `begin tN Q`, `go tN`, `end tN` or `tick N`: one event.
    Event(Event),
    /// `call tN Q`: the thread begins the call, and goes on until it is answered or waits. `finish tN`, with no
    /// request: the thread goes on with the call that it has open.
    Run(Tid, Option<Request>),
    /// A question, which changes nothing.
    Ask(Question),
}

/// What is added to a core.
#[derive(Clone, Copy, PartialEq, Eq)]
pub enum Addition {
    /// `thread P`: a thread of priority `P`, which may be out of range.
    Thread(u32),
    /// `mutex normal`, `mutex default`, which is the same, `mutex errorcheck` or `mutex recursive`, each with ` robust`
    /// behind it or not: a mutex of that type, robust if the second value is true.
    Mutex(Kind, bool),
    /// `cond mN`: a condition variable that is bound to this mutex.
    Cond(MutexId),
}
