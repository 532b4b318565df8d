ghost use Rattle.std.specs.Prelude.{ℕ, ◌≡◌, ◌≢◌, ◌+◌, true, false, length, option_map, IfOk, IfSome, None};
ghost use Rattle.pif_types.specs.Bounds.{IsWithin};
ghost use Rattle.pif_model.specs.Word.{word_of};
ghost use Rattle.pif_model.specs.PiKernel.{IsKernel, new_kernel, is_living, is_ready};
ghost use Rattle.pif_model.specs.Table.{new_table, line_at, timer_at, cell_at, status_at, has_thread, has_mutex, has_thread_room, has_mutex_room, has_cond_room, thread_added, mutex_added, cond_added};
ghost use Rattle.pif_model.specs.Lines.{go_outcome, is_open, first_place, begun_table, is_due_in, table_refusal, ended_table};
ghost use Rattle.pif_model.specs.Deadlines.{with_deadline_if_any};
ghost use Rattle.pif_model.specs.Calls.{request_at, effective_answer, base_answer, owner_answer, kind_answer, bound_answer, waiter_answer, parked_answer, ready_answer, IsPathAnswer, word_answer, health_answer, cond_word_answer, pick_answer};
ghost use Rattle.pif_mutex.specs.Outcomes.{outcome_of};
ghost use Rattle.pif_mutex.specs.Mutexes.{is_of_mutexes};

use crate::deadlines::timer_of;
use crate::lines::{Lines, MutexLines};
use crate::progress::Progress;
use crate::state::State;
use arrayvec::ArrayVec;
use pif_kernel_calls::PiKernel;
use pif_model::{Event, Line, Place, PlainRequest, Status, WakeStep};
use pif_types::{CondId, Health, Kind, Limits, MutexId, NoMemory, Prio, Request, Tid};
use pif_word::number;
use std::alloc::Global;
use std::marker::Model;

/// The parts of a machine: the words, a kernel, the robust lists, and what the library keeps of threads, mutexes and
/// condition variables - kinds, counts, open calls, and to which mutex each variable is bound. They are sound at any
/// time. Only `new` takes memory.
pub struct Parts<K: PiKernel + Drop> {
    state: State<K>,
}

// A destructor of its own: what owns such parts calls it, and has not to be proved to let go of each of them.
impl<K: PiKernel + Drop> Drop for Parts<K> {
    fn drop(self) {
        let Parts { state: _ } = self;
    }
}

impl<K: PiKernel + Drop> Model for Parts<K> {
    ghost use Rattle.pif_model.specs.Table.{Table};
    ghost use Rattle.pif_model.specs.Soundness.{IsSound};

    ghost Value = { Table };

    ghost view = { λ p. p.state };

    ghost invariant = { λ p. IsSound p.state };
}

impl<K: PiKernel + Drop> Parts<K> {
    /// Parts under these limits to which nothing was added, over a kernel under the same limits to which nothing was
    /// added. It takes all the memory that it will ever need beside the kernel's, in nine pieces at most. `NoMemory` if
    /// one of them is refused.
    pub fn new(alloc: Global, limits: Limits, kernel: K) -> Result<Parts<K>, NoMemory>
        requires new { K.meaning kernel ≡ new_kernel limits }
        requires kept { IsKernel (K.meaning kernel) }
        ensures { IfOk result (λ p. p ≡ new_table limits) }
    {
        let state = State::new(alloc, limits, kernel)?;
        Ok(Parts { state })
    }

    /// The limits.
    pub fn limits(&self) -> Limits
        ensures value { result ≡ self.now.limits }
        ensures range { IsWithin self.now.limits }
    {
        self.state.limits()
    }

    /// How many threads were added.
    pub fn threads(&self) -> u32
        ensures lines { result + 1 ≡ length self.now.lines }
        ensures seats { result + 1 ≡ length self.now.kernel.seats }
    {
        self.state.line_count() - 1
    }

    /// How many mutexes were added.
    pub fn mutexes(&self) -> u32
        ensures { result + 1 ≡ length self.now.mutexes }
    {
        self.state.mutex_count() - 1
    }

    /// How many condition variables were added.
    pub fn conds(&self) -> u32
        ensures { result + 1 ≡ length self.now.conds }
    {
        self.state.cond_count() - 1
    }

    /// Adds a thread of this base priority, with no call open. There has to be room for it under the limits.
    pub fn add_thread(&mut self, prio: Prio) -> Tid
        requires { has_thread_room self.old ≡ true }
        ensures number { result ≡ length self.old.lines }
        ensures after { self.new ≡ thread_added prio self.old }
    {
        self.state.add_thread(prio)
    }

    /// Adds a mutex of this kind, robust or stalled, free and fine. There has to be room for it under the limits.
    pub fn add_mutex(&mut self, kind: Kind, robust: bool) -> MutexId
        requires { has_mutex_room self.old ≡ true }
        ensures number { result ≡ length self.old.mutexes }
        ensures after { self.new ≡ mutex_added kind robust self.old }
    {
        let mutex = MutexId::new(self.state.mutex_count()).unwrap();
        self.state.add_mutex(kind, robust);
        mutex
    }

    /// Adds a condition variable bound to this mutex, which was added: nobody waits on it, and it was never used. There
    /// has to be room for it under the limits.
    pub fn add_cond(&mut self, m: MutexId) -> CondId
        requires named { has_mutex self.old m ≡ true }
        requires room { has_cond_room self.old ≡ true }
        ensures number { result ≡ length self.old.conds }
        ensures after { self.new ≡ cond_added m self.old }
    {
        let cond = CondId::new(self.state.cond_count()).unwrap();
        self.state.add_cond(m);
        cond
    }

    /// Whether a thread lives: it was added and has not ended.
    pub fn is_living(&self, t: Tid) -> bool
        ensures { result ≡ is_living self.now.kernel t }
    {
        self.state.is_living(t)
    }

    /// Whether a thread, which was added, has a call open.
    pub fn is_open(&self, t: Tid) -> bool
        requires { has_thread self.now t ≡ true }
        ensures { result ≡ is_open (line_at self.now t) }
    {
        match self.state.line(t) {
            Line::Idle => false,
            Line::At(_, _) => true,
        }
    }

    /// Where a thread, which was added, stands in its open call: the request and the place, or that it has none.
    pub fn line(&self, t: Tid) -> Line
        requires { has_thread self.now t ≡ true }
        ensures { result ≡ line_at self.now t }
    {
        self.state.line(t)
    }

    /// The open call of a thread, which was added, as it was made. `None` if it has none.
    pub fn open_call(&self, t: Tid) -> Option<Request>
        requires { has_thread self.now t ≡ true }
        ensures { result ≡ option_map (with_deadline_if_any (timer_at self.now t).deadline) (request_at (line_at self.now t)) }
    {
        match self.state.line(t) {
            Line::Idle => None,
            Line::At(request, _) => {
                Some(request.with_deadline_if_any(self.state.timer(t).deadline))
            }
        }
    }

    /// Whether the open call of a thread, which was added, is due: its deadline counts, and is reached. Its next step
    /// is its expiry then. False if it has none.
    pub fn is_due(&self, t: Tid) -> bool
        requires { has_thread self.now t ≡ true }
        ensures { result ≡ is_due_in self.now t }
    {
        self.state.is_due(t)
    }

    /// Whether a thread, which was added, may run: it is not queued, not parked, not stopped, and has not ended.
    pub fn is_ready(&self, t: Tid) -> bool
        requires { has_thread self.now t ≡ true }
        ensures { result ≡ is_ready (status_at self.now t) }
    {
        match self.state.status(t) {
            Status::Ready(_) => true,
            Status::Queued(_) | Status::Parked(_) | Status::Stopped | Status::Ended => false,
        }
    }

    /// A thread begins a call. It lives and has no call open, and the mutex and the variable that the call names were
    /// added. A call with a deadline is that without it, and a timer.
    pub fn begin(&mut self, t: Tid, request: Request)
        requires { table_refusal self.old (Event.Begin t request) ≡ None }
        ensures { self.new ≡ begun_table t request self.old }
    {
        let line = Line::At(PlainRequest::of(request), first_place(&request));
        self.state.set_line(t, line);
        self.state.set_timer(t, timer_of(request));
    }

    /// The time that was handed in last, 0 at first.
    pub fn time(&self) -> u32
        ensures { result ≡ self.now.time }
    {
        self.state.time()
    }

    /// The time is this from now on. It may not be before the present one.
    pub fn tick(&mut self, time: u32)
        requires { table_refusal self.old (Event.Tick time) ≡ None }
        ensures { self.new ≡ record self.old { time = time } }
    {
        self.state.set_time(time);
    }

    /// A living thread ends, at any point: its call is gone, and each robust mutex that it holds, or was taking or
    /// giving up, passes to its next waiter or is free, with OWNER_DIED.
    pub fn end(&mut self, t: Tid)
        requires living { is_living self.old.kernel t ≡ true }
        ensures { self.new ≡ ended_table t self.old }
    {
        self.state.end(t);
    }

    /// The effective priority of a thread: the greatest base priority of it and of all that wait for it through any
    /// chain. `None` if no living thread has that number.
    pub fn effective(&self, t: Tid) -> Option<Prio>
        ensures { result ≡ effective_answer t self.now }
    {
        self.state.effective(t)
    }

    /// The base priority of a thread. `None` if no living thread has that number.
    pub fn base(&self, t: Tid) -> Option<Prio>
        ensures { result ≡ base_answer t self.now }
    {
        if self.is_living(t) {
            Some(self.state.base(t))
        } else {
            None
        }
    }

    /// What a thread, which was added, does: it may run, is queued on a mutex, is parked on a variable, is stopped for
    /// good, or has ended.
    pub fn status(&self, t: Tid) -> Status
        requires { has_thread self.now t ≡ true }
        ensures { result ≡ status_at self.now t }
    {
        self.state.status(t)
    }

    /// The owner of a mutex, by its word, and how often that one holds it. `None` if the mutex was never added, or if
    /// its word has no number.
    pub fn owner(&self, m: MutexId) -> Option<(Tid, u32)>
        ensures { result ≡ owner_answer m self.now }
    {
        if m.get() < self.state.mutex_count() {
            let owner = Tid::new(number(self.state.word(m)))?;
            Some((owner, self.state.count(m)))
        } else {
            None
        }
    }

    /// The kind of a mutex, and whether it is robust. `None` if it was never added.
    pub fn kind(&self, m: MutexId) -> Option<(Kind, bool)>
        ensures { result ≡ kind_answer m self.now }
    {
        if m.get() < self.state.mutex_count() {
            Some((self.state.kind(m), self.state.is_robust(m)))
        } else {
            None
        }
    }

    /// The mutex to which a variable is bound. `None` if the variable was never added.
    pub fn bound(&self, c: CondId) -> Option<MutexId>
        ensures { result ≡ bound_answer c self.now }
    {
        if c.get() < self.state.cond_count() {
            Some(self.state.bound(c))
        } else {
            None
        }
    }

    /// The waiter of a mutex before which `place` others get it, as long as no priority changes and nobody comes or
    /// goes. `None` if so few wait for it.
    pub fn waiter(&self, m: MutexId, place: u32) -> Option<Tid>
        ensures { result ≡ waiter_answer m place self.now }
    {
        self.state.kernel.waiter(m, place)
    }

    /// The thread that is parked on a variable and before which `place` others are taken from it, as long as no
    /// priority changes and nobody comes or goes. `None` if so few are parked on it.
    pub fn parked(&self, c: CondId, place: u32) -> Option<Tid>
        ensures { result ≡ parked_answer c place self.now }
    {
        self.state.kernel.parked(c, place)
    }

    /// The ready thread before which `place` others run, as long as none comes or goes. `None` if so few are ready.
    pub fn ready(&self, place: u32) -> Option<Tid>
        ensures { result ≡ ready_answer place self.now }
    {
        self.state.kernel.ready(place)
    }

    /// The threads from a living one on along whom each waits for, in order: the thread, the owner of the mutex on
    /// which it is queued, and so on, up to the one that waits for nobody. None if no living thread has that number.
    pub fn path(&self, t: Tid) -> ArrayVec<Tid, 1024>
        ensures { IsPathAnswer t self.now result.items }
    {
        self.state.kernel.path(t)
    }

    /// The 32 bits of the word of a mutex. `None` if it was never added.
    pub fn word(&self, m: MutexId) -> Option<u32>
        ensures value { result ≡ word_answer m self.now }
        ensures parts { IfSome result (λ bits. word_of bits ≡ (cell_at self.now m).word) }
    {
        if m.get() < self.state.mutex_count() {
            Some(self.state.word(m))
        } else {
            None
        }
    }

    /// The health of a mutex, by its health word; that of a stalled mutex is `Health::Fine`. `None` if it was never
    /// added.
    pub fn health(&self, m: MutexId) -> Option<Health>
        ensures value { result ≡ health_answer m self.now }
    {
        if m.get() < self.state.mutex_count() {
            Some(self.state.health(m))
        } else {
            None
        }
    }

    /// How often a condition variable was used, by its word: its signals and broadcasts together. `None` if it was
    /// never added.
    pub fn cond_word(&self, c: CondId) -> Option<u32>
        ensures { result ≡ cond_word_answer c self.now }
    {
        if c.get() < self.state.cond_count() {
            Some(self.state.uses(c))
        } else {
            None
        }
    }

    /// The thread that runs next: of the ready threads of greatest effective priority the first that joined them.
    /// `None` if no thread is ready.
    pub fn pick(&self) -> Option<Tid>
        ensures { result ≡ pick_answer self.now }
    {
        self.state.pick()
    }

    /// A thread takes one line, which is one of `L`: it lives, and stands at this place of its open call, which is this
    /// request. Whoever owns a mutex after the line and did not before holds it once.
    #[inline(always)]
    pub fn take<L: Lines>(&mut self, request: PlainRequest, place: Place, t: Tid) -> Progress
        requires living { is_living self.old.kernel t ≡ true }
        requires line { line_at self.old t ≡ Line.At request place }
        requires included { L.include (line_at self.old t) ≡ true }
        ensures line { outcome_of result self.new ≡ go_outcome (line_at self.old t) t self.old }
        ensures once { (m : ℕ) → (cell_at self.new m).word.number ≢ (cell_at self.old m).word.number
            → (cell_at self.new m).word.number ≢ 0 → (cell_at self.new m).count ≡ 1 }
    {
        L::take(&mut self.state, request, place, t)
    }
}

/// The place at which a call of this request begins.
fn first_place(request: &Request) -> Place
    ensures { result ≡ first_place request.now }
{
    match request {
        Request::Signal(_) | Request::Broadcast(_) => Place::Wake(WakeStep::ReadUses),
        Request::SetPrio(_, _) => Place::SetPriority,
        _ => Place::Load,
    }
}

/// The thread, which lives and has a call on mutexes open, or a wait that gives its mutex up or locks it again, takes
/// one step of it: one access of one word, one write of its robust list, one kernel call, or the answer after a stalled
/// mutex was handed to it; or it waits, and nothing changes. A lock that is queued or stopped and whose deadline is reached
/// expires, by the kernel call expire, and does nothing else; a wait that expired before is answered ETIMEDOUT in place
/// of 0. Whoever owns a mutex after the step and did not before, the thread or the next waiter, holds it once.
#[inline(always)]
pub fn advance<K: PiKernel + Drop>(parts: &mut Parts<K>, t: Tid) -> Progress
    requires living { is_living parts.old.kernel t ≡ true }
    requires call { is_of_mutexes (line_at parts.old t) ≡ true }
    ensures line { outcome_of result parts.new ≡ go_outcome (line_at parts.old t) t parts.old }
    ensures once { (m : ℕ) → (cell_at parts.new m).word.number ≢ (cell_at parts.old m).word.number
        → (cell_at parts.new m).word.number ≢ 0 → (cell_at parts.new m).count ≡ 1 }
{
    match parts.line(t) {
        Line::At(request, place) => parts.take::<MutexLines>(request, place, t),
        Line::Idle => unreachable!(),
    }
}
