ghost use Rattle.std.specs.Prelude.{◌≡◌, ◌+◌, true, false, length, IfSome, Some, None, is_some, unwrap_or};
ghost use Rattle.std.specs.List.{slice_get};
ghost use Rattle.pif_model.specs.Posix.{is_thread, is_mutex, is_variable, is_blocked_on, thread_at, mutex_at, variable_at, rests};
ghost use Rattle.pif_model.specs.Posix.{is_living as lives};
ghost use Rattle.pif_model.specs.Standing.{WhereStands, IsDoing, IsPick, call_of, owner_of, waiters_of, IsPathFrom};
ghost use Rattle.pif_model.specs.Calls.{base_answer, status_answer, open_call_answer, owner_answer, kind_answer, bound_answer, waiter_answer, parked_answer, ready_answer, order_answer, IsPathAnswer};

use crate::cores::Core;
use arrayvec::ArrayVec;
use pif_model::{Order, Status};
use pif_types::{CondId, Kind, MutexId, Prio, Request, Tid};

impl Core {
    /// How many mutexes were ever added.
    pub fn mutexes(&self) -> u32
        ensures value { result + 1 ≡ length self.now.mutexes }
        ensures added { WhereStands self.now (λ h r w. result + 1 ≡ length w.mutexes) }
    {
        self.parts.mutexes()
    }

    /// How many condition variables were ever added.
    pub fn conds(&self) -> u32
        ensures value { result + 1 ≡ length self.now.conds }
        ensures added { WhereStands self.now (λ h r w. result + 1 ≡ length w.variables) }
    {
        self.parts.conds()
    }

    /// The time: that of the last tick that was not refused, 0 before the first. Its unit is the caller's.
    pub fn time(&self) -> u32
        ensures value { result ≡ self.now.time }
        ensures time { WhereStands self.now (λ h r w. result ≡ w.time) }
    {
        self.parts.time()
    }

    /// The base priority of a thread: the one with which it was added, or which a pthread_setschedprio gave it last.
    /// `None` if no living thread has that number.
    pub fn base(&self, thread: Tid) -> Option<Prio>
        ensures value { result ≡ base_answer thread self.now }
        ensures added { WhereStands self.now (λ h r w. is_some result ≡ lives w thread) }
        ensures base { WhereStands self.now (λ h r w. IfSome result (λ p. p ≡ (thread_at w thread).base)) }
    {
        self.parts.base(thread)
    }

    /// What a thread does: it may run, is among the waiters of a mutex, is parked on a condition variable, waits for
    /// good, or has ended. `None` if it was never added.
    pub fn status(&self, thread: Tid) -> Option<Status>
        ensures value { result ≡ status_answer thread self.now }
        ensures added { WhereStands self.now (λ h r w. is_some result ≡ is_thread w thread) }
        ensures doing { WhereStands self.now (λ h r w. IfSome result (λ x. IsDoing w thread x)) }
    {
        self.doing(thread)
    }

    /// The call that a thread has open, as it was made. `None` if it has none, has ended, or was never added.
    pub fn open_call(&self, thread: Tid) -> Option<Request>
        ensures value { result ≡ open_call_answer thread self.now }
        ensures open { WhereStands self.now (λ h r w. result ≡ call_of w thread) }
    {
        self.asked(thread)
    }

    /// The owner of a mutex, also one that has ended, and how often it holds the mutex, 1 to 255. `None` if nobody owns
    /// it, or if it was never added.
    pub fn owner(&self, mutex: MutexId) -> Option<(Tid, u32)>
        ensures value { result ≡ owner_answer mutex self.now }
        ensures owner { WhereStands self.now (λ h r w. result ≡ owner_of w mutex) }
    {
        self.parts.owner(mutex)
    }

    /// The kind of a mutex, and whether it is robust. `None` if it was never added.
    pub fn kind(&self, mutex: MutexId) -> Option<(Kind, bool)>
        ensures value { result ≡ kind_answer mutex self.now }
        ensures added { WhereStands self.now (λ h r w. is_some result ≡ is_mutex w mutex) }
        ensures kind { WhereStands self.now (λ h r w.
            IfSome result (λ x. x ≡ ((mutex_at w mutex).kind, (mutex_at w mutex).robust))) }
    {
        self.parts.kind(mutex)
    }

    /// The mutex to which a condition variable is bound. `None` if the variable was never added.
    pub fn bound(&self, cond: CondId) -> Option<MutexId>
        ensures value { result ≡ bound_answer cond self.now }
        ensures added { WhereStands self.now (λ h r w. is_some result ≡ is_variable w cond) }
        ensures bound { WhereStands self.now (λ h r w. IfSome result (λ m. m ≡ (variable_at w cond).mutex)) }
    {
        self.parts.bound(cond)
    }

    /// The waiter of a mutex before which `place` others get it, 0 for the next one, as long as no priority changes and
    /// nobody comes or goes: those of greatest effective priority come first, and of equals the first in arrival.
    /// `None` if so few wait for it.
    pub fn waiter(&self, mutex: MutexId, place: u32) -> Option<Tid>
        ensures value { result ≡ waiter_answer mutex place self.now }
        ensures order { WhereStands self.now (λ h r w. result ≡ slice_get (waiters_of w mutex) place) }
    {
        self.parts.waiter(mutex, place)
    }

    /// The thread that is parked on a condition variable and before which `place` others are woken, 0 for the next one,
    /// as long as no priority changes and nobody comes or goes: those of greatest effective priority come first, and of
    /// equals the first that was parked. `None` if so few are parked on it.
    pub fn parked(&self, cond: CondId, place: u32) -> Option<Tid>
        ensures value { result ≡ parked_answer cond place self.now }
        ensures blocked { WhereStands self.now (λ h r w. IfSome result (λ t. is_blocked_on w cond t ≡ true)) }
    {
        self.parts.parked(cond, place)
    }

    /// The ready thread before which `place` others run, 0 for the one that runs next, as long as none comes or goes:
    /// those of greatest effective priority come first, and of equals the first that joined them (SCHED_FIFO,
    /// sched(7)). `None` if so few are ready.
    pub fn ready(&self, place: u32) -> Option<Tid>
        ensures value { result ≡ ready_answer place self.now }
        ensures runs { WhereStands self.now (λ h r w. IfSome result (λ t. (lives w t ≡ true) × (rests w t ≡ false))) }
        ensures next { WhereStands self.now (λ h r w. place ≡ 0
            → IsPick w (unwrap_or result 0)) }
    {
        self.parts.ready(place)
    }

    /// The thread of an order before which `place` others stand, 0 for the first: what `waiter`, `parked` or `ready`
    /// answers. `None` if so few stand in it.
    pub fn nth(&self, order: Order, place: u32) -> Option<Tid>
        ensures { result ≡ order_answer order place self.now }
    {
        match order {
            Order::Waiters(mutex) => self.waiter(mutex, place),
            Order::Parked(cond) => self.parked(cond, place),
            Order::Ready => self.ready(place),
        }
    }

    /// The threads along whom each waits for, in order: `thread`, the owner of the mutex for which it waits, also one
    /// that has ended, and so on, up to the one that waits for nobody. Each comes once, and `thread` is alone if it
    /// waits for no mutex. None if it was never added or has ended.
    pub fn path(&self, thread: Tid) -> ArrayVec<Tid, 1024>
        ensures value { IsPathAnswer thread self.now result.items }
        ensures path { WhereStands self.now (λ h r w. IsPathFrom w thread result.items) }
    {
        self.parts.path(thread)
    }

    /// What a thread does that was added.
    fn doing(&self, thread: Tid) -> Option<Status>
        ensures { result ≡ status_answer thread self.now }
    {
        if self.has_thread(thread) {
            Some(self.parts.status(thread))
        } else {
            None
        }
    }

    /// The open call of a thread that was added.
    fn asked(&self, thread: Tid) -> Option<Request>
        ensures { result ≡ open_call_answer thread self.now }
    {
        if self.has_thread(thread) {
            self.parts.open_call(thread)
        } else {
            None
        }
    }
}
