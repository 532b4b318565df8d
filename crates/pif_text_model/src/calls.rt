ghost use Rattle.std.specs.Prelude.{◌≡◌, ◌==◌, ◌+◌, ◌≤◌, length};
ghost use Rattle.pif_types.specs.Shapes.{deadline, shape_of};
ghost use Rattle.pif_text_model.specs.Calls.{arguments_of, call_named, call_numbered, kind_of, no_arguments, priority_of, request_with, row_of};
ghost use Rattle.pif_text_model.specs.CommandTexts.{room_of};

use pif_types::{CondId, MutexId, Request, Tid};

/// Which call a request is of, whatever its arguments are.
#[derive(Clone, Copy, PartialEq, Eq)]
pub enum CallKind {
    /// pthread_mutex_lock.
    Lock,
    /// pthread_mutex_trylock.
    TryLock,
    /// pthread_mutex_unlock.
    Unlock,
    /// pthread_mutex_consistent.
    Consistent,
    /// pthread_cond_wait.
    Wait,
    /// pthread_cond_signal.
    Signal,
    /// pthread_cond_broadcast.
    Broadcast,
    /// pthread_setschedprio.
    SetPrio,
    /// pthread_mutex_timedlock.
    TimedLock,
    /// pthread_cond_timedwait.
    TimedWait,
}

/// All calls, in the order in which texts list them.
pub const CALLS: [CallKind; 10] = [
    CallKind::Lock,
    CallKind::TryLock,
    CallKind::Unlock,
    CallKind::Consistent,
    CallKind::Wait,
    CallKind::Signal,
    CallKind::Broadcast,
    CallKind::SetPrio,
    CallKind::TimedLock,
    CallKind::TimedWait,
];

/// What a call takes.
#[derive(Clone, Copy, PartialEq, Eq)]
pub enum Parameter {
    /// The thread whose priority is set, as `t1`.
    Thread,
    /// The mutex, as `m1`.
    Mutex,
    /// The condition variable, as `c1`.
    Cond,
    /// The priority that is set: a number.
    Priority,
    /// The deadline: a number.
    Deadline,
}

/// What all texts know of a call.
#[derive(Clone, Copy)]
pub struct CallRow {
    /// The word of the call.
    pub name: &'static str,
    /// The form of the call, for people.
    pub form: &'static str,
    /// What stands behind the word, in this order.
    pub parameters: &'static [Parameter],
    /// The number by which C knows the call (`enum pif_kind_of_call` of `include/pif.h`).
    pub number: u32,
}

/// The arguments of a call, each `None` if it has none of that kind.
#[derive(Clone, Copy)]
pub struct Arguments {
    /// The thread whose priority is set.
    pub thread: Option<Tid>,
    /// The mutex.
    pub mutex: Option<MutexId>,
    /// The condition variable.
    pub cond: Option<CondId>,
    /// The priority that is set.
    pub priority: Option<u32>,
    /// The deadline.
    pub deadline: Option<u32>,
}

impl CallKind {
    /// The row of this call in the table of calls. It is inlined, so that a search of the table compares words alone.
    #[inline(always)]
    pub fn row(self) -> CallRow
        ensures name { result.name.now ≡ (row_of self).name }
        ensures parameters { result.parameters.now ≡ (row_of self).parameters }
        ensures number { result.number ≡ (row_of self).number }
        ensures room { length result.name.now + room_of result.parameters.now ≤ 44 }
    {
        match self {
            CallKind::Lock => CallRow {
                name: "lock",
                form: "lock mN",
                parameters: &[Parameter::Mutex],
                number: 1,
            },
            CallKind::TryLock => CallRow {
                name: "trylock",
                form: "trylock mN",
                parameters: &[Parameter::Mutex],
                number: 2,
            },
            CallKind::Unlock => CallRow {
                name: "unlock",
                form: "unlock mN",
                parameters: &[Parameter::Mutex],
                number: 3,
            },
            CallKind::Consistent => CallRow {
                name: "consistent",
                form: "consistent mN",
                parameters: &[Parameter::Mutex],
                number: 4,
            },
            CallKind::Wait => CallRow {
                name: "wait",
                form: "wait cN mN",
                parameters: &[Parameter::Cond, Parameter::Mutex],
                number: 6,
            },
            CallKind::Signal => CallRow {
                name: "signal",
                form: "signal cN",
                parameters: &[Parameter::Cond],
                number: 8,
            },
            CallKind::Broadcast => CallRow {
                name: "broadcast",
                form: "broadcast cN",
                parameters: &[Parameter::Cond],
                number: 9,
            },
            CallKind::SetPrio => CallRow {
                name: "setprio",
                form: "setprio tN P",
                parameters: &[Parameter::Thread, Parameter::Priority],
                number: 10,
            },
            CallKind::TimedLock => CallRow {
                name: "timedlock",
                form: "timedlock mN D",
                parameters: &[Parameter::Mutex, Parameter::Deadline],
                number: 5,
            },
            CallKind::TimedWait => CallRow {
                name: "timedwait",
                form: "timedwait cN mN D",
                parameters: &[Parameter::Cond, Parameter::Mutex, Parameter::Deadline],
                number: 7,
            },
        }
    }

    /// The call that has this word. `None` if none has it.
    #[tactic(auto, unfolding(crate::specs::Calls::call_named))]
    pub fn named(name: &[u8]) -> Option<CallKind>
        ensures { result ≡ call_named name.now }
    {
        for call in CALLS {
            if name == call.row().name.as_bytes() {
                return Some(call);
            }
        }
        None
    }

    /// Whether this is its number in C.
    fn has_number(self, number: u32) -> bool
        ensures { result ≡ (number == (row_of self).number) }
    {
        number == self.row().number
    }

    /// The call by its number in C. `None` if none has it.
    #[tactic(auto, unfolding(crate::specs::Calls::call_numbered))]
    pub fn numbered(number: u32) -> Option<CallKind>
        ensures { result ≡ call_numbered number }
    {
        for call in CALLS {
            if call.has_number(number) {
                return Some(call);
            }
        }
        None
    }

    /// The call of a request.
    pub fn of(request: &Request) -> CallKind
        ensures { result ≡ kind_of request.now }
    {
        match *request {
            Request::Lock(..) => CallKind::Lock,
            Request::TryLock(..) => CallKind::TryLock,
            Request::Unlock(..) => CallKind::Unlock,
            Request::Consistent(..) => CallKind::Consistent,
            Request::Wait(..) => CallKind::Wait,
            Request::Signal(..) => CallKind::Signal,
            Request::Broadcast(..) => CallKind::Broadcast,
            Request::SetPrio(..) => CallKind::SetPrio,
            Request::TimedLock(..) => CallKind::TimedLock,
            Request::TimedWait(..) => CallKind::TimedWait,
        }
    }

    /// The request of this call with these arguments. `None` if one that the call takes is missing. What it doesn't take
    /// is not looked at.
    #[tactic(auto, unfolding(crate::specs::Calls::request_with))]
    pub fn request(self, arguments: &Arguments) -> Option<Request>
        ensures { result ≡ request_with self arguments.now }
    {
        let Arguments {
            thread,
            mutex,
            cond,
            priority,
            deadline,
        } = *arguments;
        match self {
            CallKind::Lock => mutex.map(Request::Lock),
            CallKind::TryLock => mutex.map(Request::TryLock),
            CallKind::Unlock => mutex.map(Request::Unlock),
            CallKind::Consistent => mutex.map(Request::Consistent),
            CallKind::Wait => Some(Request::Wait(cond?, mutex?)),
            CallKind::Signal => cond.map(Request::Signal),
            CallKind::Broadcast => cond.map(Request::Broadcast),
            CallKind::SetPrio => Some(Request::SetPrio(thread?, priority?)),
            CallKind::TimedLock => Some(Request::TimedLock(mutex?, deadline?)),
            CallKind::TimedWait => Some(Request::TimedWait(cond?, mutex?, deadline?)),
        }
    }
}

impl Arguments {
    /// No argument.
    pub fn none() -> Arguments
        ensures { result ≡ no_arguments }
    {
        Arguments {
            thread: None,
            mutex: None,
            cond: None,
            priority: None,
            deadline: None,
        }
    }

    /// The arguments of a request.
    pub fn of(request: &Request) -> Arguments
        ensures { result ≡ arguments_of request.now }
    {
        let names = request.names();
        Arguments {
            thread: names.thread,
            mutex: names.mutex,
            cond: names.cond,
            priority: priority_of(request),
            deadline: deadline_of(request),
        }
    }
}

/// The priority that a request sets, if it sets one.
fn priority_of(request: &Request) -> Option<u32>
    ensures { result ≡ priority_of request.now }
{
    match *request {
        Request::SetPrio(_, priority) => Some(priority),
        _ => None,
    }
}

/// The deadline of a request, if it has one.
fn deadline_of(request: &Request) -> Option<u32>
    ensures { result ≡ deadline (shape_of request.now) }
{
    match *request {
        Request::TimedLock(_, deadline) | Request::TimedWait(_, _, deadline) => Some(deadline),
        _ => None,
    }
}
