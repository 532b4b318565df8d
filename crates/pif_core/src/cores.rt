ghost use Rattle.std.specs.Prelude.{ℕ, ◌≡◌, ◌+◌, length, true, false, [], ◌∷◌, None, IfOk, IfSome, is_some, unwrap_or, if◌then◌else◌};
ghost use Rattle.pif_model.specs.declared.events.Entry.{Entry};
ghost use Rattle.pif_model.specs.Word.{word_of, health_word};
ghost use Rattle.pif_model.specs.PiKernel.{is_living};
ghost use Rattle.pif_model.specs.Posix.{World, IsLegal, is_mutex, is_variable, is_due, names_known, thread_at, rests};
ghost use Rattle.pif_model.specs.Posix.{is_living as lives};
ghost use Rattle.pif_model.specs.History.{AlwaysOneHolder};
ghost use Rattle.pif_model.specs.Standing.{Stands, HasEffective, IsPick, IsPossible, IsPossibleHealth, IsPossibleUses, ArePossible, WhereStands};
ghost use Rattle.pif_model.specs.Table.{new_table, line_at, cell_at, has_thread, has_mutex, has_cond};
ghost use Rattle.pif_model.specs.Lines.{table_refusal, accepted_outcome, event_outcome, go_outcome, is_open, ClosesOrWaits};
ghost use Rattle.pif_model.specs.Calls.{add_thread_answer, add_thread_after, add_mutex_answer, add_mutex_after, add_cond_answer, add_cond_after, effective_answer, word_answer, health_answer, cond_word_answer, pick_answer, threads_answer, waiting_answer};
ghost use Rattle.pif_mutex.specs.Outcomes.{outcome_of};
ghost use Rattle.pif_model_simulation.specs.Calls.{finish_outcome};

use pif_cond::CondLines;
use pif_kernel_linked::LinkedKernel;
use pif_model::{Entry, Event, Line, Place, Plain, PlainRequest, Seen, Status};
use pif_mutex::{MutexLines, Parts, Progress};
use pif_types::{
    AddFault, CondId, Health, Kind, Limits, MutexId, NoMemory, Prio, Refusal, Request, Tid,
};
use std::alloc::Global;
use std::marker::Model;

/// The first ticket of a core's kernel.
const FIRST_TICKET: u64 = 1;

/// A core under limits: threads, mutexes, condition variables, and what library and kernel know of them. Only `new`
/// takes memory.
pub struct Core {
    pub(crate) parts: Parts<LinkedKernel>,
}

// A destructor of its own: what owns a core calls it, and has not to be proved to let go of each of its parts.
impl Drop for Core {
    fn drop(self) {
        let Core { parts: _ } = self;
    }
}

impl Model for Core {
    ghost use Rattle.pif_model.specs.Table.{Table};

    ghost Value = { Table };

    ghost view = { λ c. c.parts };
}

impl Core {
    /// A core under these limits to which nothing was added. It takes all the memory that it will ever need, piece by
    /// piece. `NoMemory` if a piece is refused.
    pub fn new(alloc: Global, limits: Limits) -> Result<Core, NoMemory>
        ensures made { IfOk result (λ c. c ≡ new_table limits) }
        ensures stands { IfOk result (λ c. (w : World) × Stands c [] [] w) }
    {
        let kernel = LinkedKernel::new(alloc, limits, FIRST_TICKET)?;
        let parts = Parts::new(alloc, limits, kernel)?;
        Ok(Core { parts })
    }

    /// Adds a thread of base priority `prio`, 1 to 99, with no call open: the next number from 1. `BadPrio` if the
    /// priority is outside its range, else `TooMany` if the limit is reached; nothing has changed then.
    pub fn add_thread(&mut self, prio: u32) -> Result<Tid, AddFault>
        ensures answer { result ≡ add_thread_answer prio self.old }
        ensures after { self.new ≡ add_thread_after prio result self.old }
        ensures stands { IfOk result (λ t. WhereStands self.old (λ h r w.
            (v : World) × Stands self.new (Entry.Thread t prio ∷ h) (w ∷ r) v)) }
    {
        let prio = Prio::new(prio).ok_or(AddFault::BadPrio)?;
        // This reads the priority, so that the proof has its range.
        let _level = prio.get();
        if self.parts.threads() < self.parts.limits().threads() {
            Ok(self.parts.add_thread(prio))
        } else {
            Err(AddFault::TooMany)
        }
    }

    /// Adds a mutex of this kind, free and fine, which is robust or stalled (pthread_mutexattr_settype and
    /// pthread_mutexattr_setrobust of POSIX): the next number from 1. `TooMany` if the limit is reached; nothing has
    /// changed then.
    pub fn add_mutex(&mut self, kind: Kind, robust: bool) -> Result<MutexId, AddFault>
        ensures answer { result ≡ add_mutex_answer self.old }
        ensures after { self.new ≡ add_mutex_after kind robust result self.old }
        ensures stands { IfOk result (λ m. WhereStands self.old (λ h r w.
            (v : World) × Stands self.new (Entry.Mutex m kind robust ∷ h) (w ∷ r) v)) }
    {
        if self.parts.mutexes() < self.parts.limits().mutexes() {
            Ok(self.parts.add_mutex(kind, robust))
        } else {
            Err(AddFault::TooMany)
        }
    }

    /// Adds a condition variable that was never used, and binds it to this mutex for good (pthread_cond_init of POSIX;
    /// there a wait binds it): the next number from 1. A pthread_cond_wait that names it with another mutex is answered
    /// EINVAL at its first step. `NoSuch` if the mutex was never added, else `TooMany` if the limit is reached; nothing
    /// has changed then.
    pub fn add_cond(&mut self, mutex: MutexId) -> Result<CondId, AddFault>
        ensures answer { result ≡ add_cond_answer mutex self.old }
        ensures after { self.new ≡ add_cond_after mutex result self.old }
        ensures stands { IfOk result (λ c. WhereStands self.old (λ h r w.
            (v : World) × Stands self.new (Entry.Cond c mutex ∷ h) (w ∷ r) v)) }
    {
        if !self.has_mutex(mutex) {
            return Err(AddFault::NoSuch);
        }
        if self.parts.conds() < self.parts.limits().conds() {
            Ok(self.parts.add_cond(mutex))
        } else {
            Err(AddFault::TooMany)
        }
    }

    /// One event: what it is answered. It is refused, and nothing changes, by the first of these that holds. `NoSuch`:
    /// the thread was never added. `Dead`: it has ended. `Busy`: a thread with a call open begins one. `Idle`: a thread
    /// goes on that has none. `NoSuch`: the mutex or the condition variable of a call was never added. A tick, which
    /// belongs to no thread, is refused, by `Past`, if it would set the time back. A thread may end at any point, with
    /// a call open or not. A call that is open closes or waits within 24 steps of its thread, if no other event comes
    /// between.
    #[inline(always)]
    pub fn step(&mut self, event: Event) -> Seen
        ensures seen { result ≡ (event_outcome event self.old).seen }
        ensures after { self.new ≡ (event_outcome event self.old).after }
        ensures stands { WhereStands self.old (λ h r w.
            (v : World) × Stands self.new (Entry.Step event result ∷ h) (w ∷ r) v) }
        ensures legal { WhereStands self.old (λ h r w. IsLegal self.new.limits (Entry.Step event result ∷ h)) }
        ensures holders { WhereStands self.old (λ h r w. AlwaysOneHolder (Entry.Step event result ∷ h)) }
        ensures ends { (t : ℕ) → is_living self.new.kernel t ≡ true → is_open (line_at self.new t) ≡ true
            → ClosesOrWaits (finish_outcome t self.new).seen }
    {
        self.turn(event)
    }

    /// The effective priority of a thread: the greatest base priority of it and of all that wait for it through any
    /// chain. `None` if no living thread has that number.
    pub fn effective(&self, thread: Tid) -> Option<Prio>
        ensures value { result ≡ effective_answer thread self.now }
        ensures added { WhereStands self.now (λ h r w. is_some result ≡ lives w thread) }
        ensures priority { WhereStands self.now (λ h r w. IfSome result (λ p. HasEffective w thread p)) }
    {
        self.parts.effective(thread)
    }

    /// The 32 bits of the word of a mutex. `None` if it was never added.
    pub fn word(&self, mutex: MutexId) -> Option<u32>
        ensures value { result ≡ word_answer mutex self.now }
        ensures added { WhereStands self.now (λ h r w. is_some result ≡ is_mutex w mutex) }
        ensures possible { WhereStands self.now (λ h r w. IfSome result (λ bits. IsPossible w mutex (word_of bits))) }
    {
        self.parts.word(mutex)
    }

    /// The health of a mutex, as its health word has it. Right after its owner ended it is still what it was: who takes
    /// the mutex next writes it. That of a stalled mutex is `Fine`. `None` if the mutex was never added.
    pub fn health(&self, mutex: MutexId) -> Option<Health>
        ensures value { result ≡ health_answer mutex self.now }
        ensures added { WhereStands self.now (λ h r w. is_some result ≡ is_mutex w mutex) }
        ensures possible { WhereStands self.now (λ h r w.
            IfSome result (λ x. IsPossibleHealth w mutex (health_word x))) }
        ensures both { WhereStands self.now (λ h r w.
            IfSome result (λ x. ArePossible w mutex (cell_at self.now mutex).word (health_word x))) }
    {
        self.parts.health(mutex)
    }

    /// The condition word of a variable: how often it was used, by pthread_cond_signal and pthread_cond_broadcast
    /// together, 0 up to the limit of signals. `None` if the variable was never added.
    pub fn cond_word(&self, cond: CondId) -> Option<u32>
        ensures value { result ≡ cond_word_answer cond self.now }
        ensures added { WhereStands self.now (λ h r w. is_some result ≡ is_variable w cond) }
        ensures possible { WhereStands self.now (λ h r w. IfSome result (λ n. IsPossibleUses w cond n)) }
    {
        self.parts.cond_word(cond)
    }

    /// The thread that runs next: of the ready threads of greatest effective priority the first that joined them.
    /// `None` if no thread is ready.
    pub fn pick(&self) -> Option<Tid>
        ensures value { result ≡ pick_answer self.now }
        ensures next { WhereStands self.now (λ h r w. IsPick w (unwrap_or result 0)) }
    {
        self.parts.pick()
    }

    /// Whether a thread is blocked, by a mutex, by a condition variable or for good, and its deadline, if it has one,
    /// isn't reached. False if it may take a step, also if that step is an expiry. `None` if no living thread has that
    /// number, or if that thread has no call open.
    pub fn waiting(&self, thread: Tid) -> Option<bool>
        ensures value { result ≡ waiting_answer thread self.now }
        ensures open { WhereStands self.now (λ h r w.
            is_some result ≡ (if lives w thread then is_some (thread_at w thread).call else false)) }
        ensures rests { WhereStands self.now (λ h r w.
            IfSome result (λ b. b ≡ (if rests w thread then (if is_due w thread then false else true) else false))) }
    {
        self.resting(thread)
    }

    /// The limits.
    pub fn limits(&self) -> Limits
        ensures value { result ≡ self.now.limits }
    {
        self.parts.limits()
    }

    /// How many threads were ever added.
    pub fn threads(&self) -> u32
        ensures value { result ≡ threads_answer self.now }
        ensures added { WhereStands self.now (λ h r w. result + 1 ≡ length w.threads) }
    {
        self.parts.threads()
    }

    /// Whether a living thread with a call open rests, and its next step is no expiry.
    fn resting(&self, thread: Tid) -> Option<bool>
        ensures { result ≡ waiting_answer thread self.now }
    {
        if !self.parts.is_living(thread) {
            return None;
        }
        if self.parts.is_open(thread) {
            Some(!self.parts.is_ready(thread) && !self.parts.is_due(thread))
        } else {
            None
        }
    }

    /// Whether this thread was added.
    pub(crate) fn has_thread(&self, thread: Tid) -> bool
        ensures { result ≡ has_thread self.now thread }
    {
        thread.get() <= self.parts.threads()
    }

    /// Whether this mutex was added.
    fn has_mutex(&self, mutex: MutexId) -> bool
        ensures { result ≡ has_mutex self.now mutex }
    {
        mutex.get() <= self.parts.mutexes()
    }

    /// Whether this condition variable was added.
    fn has_cond(&self, cond: CondId) -> bool
        ensures { result ≡ has_cond self.now cond }
    {
        cond.get() <= self.parts.conds()
    }

    /// Whether the mutex and the condition variable that a call names were added, as far as it names any.
    #[inline(always)]
    fn knows_names(&self, request: Request) -> bool
        ensures { result ≡ names_known (has_mutex self.now) (has_cond self.now) request }
    {
        let named = request.names();
        match (named.mutex, named.cond) {
            (Some(mutex), Some(cond)) => self.has_cond(cond) && self.has_mutex(mutex),
            (Some(mutex), None) => self.has_mutex(mutex),
            (None, Some(cond)) => self.has_cond(cond),
            (None, None) => true,
        }
    }

    /// Why a thread is refused, if it is: it was never added, or has ended.
    #[inline(always)]
    fn thread_refusal(&self, thread: Tid) -> Option<Refusal>
        ensures { result ≡ table_refusal self.now (Event.End thread) }
    {
        if !self.has_thread(thread) {
            return Some(Refusal::NoSuch);
        }
        match self.parts.status(thread) {
            Status::Ended => Some(Refusal::Dead),
            Status::Ready(_) | Status::Queued(_) | Status::Parked(_) | Status::Stopped => None,
        }
    }

    /// Why a Begin is refused, if it is: the thread was never added, has ended, has a call open, or names a mutex or a
    /// condition variable that was never added.
    #[inline(always)]
    pub(crate) fn begin_refusal(&self, thread: Tid, request: &Request) -> Option<Refusal>
        ensures { result ≡ table_refusal self.now (Event.Begin thread request.now) }
    {
        if let Some(refusal) = self.thread_refusal(thread) {
            return Some(refusal);
        }
        if self.parts.is_open(thread) {
            return Some(Refusal::Busy);
        }
        if self.knows_names(*request) {
            None
        } else {
            Some(Refusal::NoSuch)
        }
    }

    /// Why a Go is refused, if it is: the thread was never added, has ended, or has no call open.
    #[inline(always)]
    pub(crate) fn go_refusal(&self, thread: Tid) -> Option<Refusal>
        ensures { result ≡ table_refusal self.now (Event.Go thread) }
    {
        if let Some(refusal) = self.thread_refusal(thread) {
            return Some(refusal);
        }
        if self.parts.is_open(thread) {
            None
        } else {
            Some(Refusal::Idle)
        }
    }

    /// Why a tick is refused, if it is: it would set the time back.
    fn tick_refusal(&self, time: u32) -> Option<Refusal>
        ensures { result ≡ table_refusal self.now (Event.Tick time) }
    {
        if time < self.parts.time() {
            Some(Refusal::Past)
        } else {
            None
        }
    }

    /// One event.
    #[inline(always)]
    fn turn(&mut self, event: Event) -> Seen
        ensures seen { result ≡ (event_outcome event self.old).seen }
        ensures after { self.new ≡ (event_outcome event self.old).after }
    {
        match event {
            Event::Begin(thread, request) => self.begin_turn(thread, request),
            Event::Go(thread) => self.go_turn(thread),
            Event::End(thread) => self.end_turn(thread),
            Event::Tick(time) => self.tick_turn(time),
        }
    }

    /// A thread begins a call.
    #[inline(always)]
    #[tactic(auto, unfolding(pif_model::specs::Lines::event_outcome))]
    fn begin_turn(&mut self, thread: Tid, request: Request) -> Seen
        ensures seen { result ≡ (event_outcome (Event.Begin thread request) self.old).seen }
        ensures after { self.new ≡ (event_outcome (Event.Begin thread request) self.old).after }
    {
        match self.begin_refusal(thread, &request) {
            Some(refusal) => Seen::Refused(refusal),
            None => self.begin(thread, request),
        }
    }

    /// A thread takes one step of its open call.
    #[inline(always)]
    #[tactic(auto, unfolding(pif_model::specs::Lines::event_outcome))]
    fn go_turn(&mut self, thread: Tid) -> Seen
        ensures seen { result ≡ (event_outcome (Event.Go thread) self.old).seen }
        ensures after { self.new ≡ (event_outcome (Event.Go thread) self.old).after }
    {
        if let Some(refusal) = self.thread_refusal(thread) {
            return Seen::Refused(refusal);
        }
        match self.parts.line(thread) {
            Line::At(request, place) => self.go(request, place, thread),
            Line::Idle => Seen::Refused(Refusal::Idle),
        }
    }

    /// A thread ends.
    #[cold]
    #[inline(never)]
    #[tactic(auto, unfolding(pif_model::specs::Lines::event_outcome))]
    fn end_turn(&mut self, thread: Tid) -> Seen
        ensures seen { result ≡ (event_outcome (Event.End thread) self.old).seen }
        ensures after { self.new ≡ (event_outcome (Event.End thread) self.old).after }
    {
        match self.thread_refusal(thread) {
            Some(refusal) => Seen::Refused(refusal),
            None => self.end(thread),
        }
    }

    /// A time is handed in.
    #[cold]
    #[inline(never)]
    #[tactic(auto, unfolding(pif_model::specs::Lines::event_outcome))]
    fn tick_turn(&mut self, time: u32) -> Seen
        ensures seen { result ≡ (event_outcome (Event.Tick time) self.old).seen }
        ensures after { self.new ≡ (event_outcome (Event.Tick time) self.old).after }
    {
        match self.tick_refusal(time) {
            Some(refusal) => Seen::Refused(refusal),
            None => self.tick(time),
        }
    }

    /// A thread begins a call, which is not refused.
    #[inline(always)]
    #[tactic(auto, unfolding(pif_model::specs::Lines::accepted_outcome), using(crate::proofs::Turns::begun_goes))]
    pub(crate) fn begin(&mut self, thread: Tid, request: Request) -> Seen
        requires { table_refusal self.old (Event.Begin thread request) ≡ None }
        ensures seen { result ≡ (accepted_outcome (Event.Begin thread request) self.old).seen }
        ensures after { self.new ≡ (accepted_outcome (Event.Begin thread request) self.old).after }
        ensures allowed { table_refusal self.new (Event.Go thread) ≡ None }
    {
        // This counts threads, so that the proof has that each has a line.
        let _threads = self.parts.threads();
        self.parts.begin(thread, request);
        Seen::Begun
    }

    /// A thread takes one step of its open call, which is not refused.
    #[inline(always)]
    pub(crate) fn go_on(&mut self, thread: Tid) -> Seen
        requires { table_refusal self.old (Event.Go thread) ≡ None }
        ensures seen { result ≡ (event_outcome (Event.Go thread) self.old).seen }
        ensures after { self.new ≡ (event_outcome (Event.Go thread) self.old).after }
    {
        match self.parts.line(thread) {
            Line::At(request, place) => self.go(request, place, thread),
            Line::Idle => unreachable!(),
        }
    }

    /// A thread takes one step of its open call, which is this request at this place, and is not refused.
    #[inline(always)]
    #[tactic(auto, unfolding(pif_model::specs::Lines::event_outcome, pif_model::specs::Lines::accepted_outcome))]
    fn go(&mut self, request: PlainRequest, place: Place, thread: Tid) -> Seen
        requires allowed { table_refusal self.old (Event.Go thread) ≡ None }
        requires line { line_at self.old thread ≡ Line.At request place }
        ensures seen { result ≡ (event_outcome (Event.Go thread) self.old).seen }
        ensures after { self.new ≡ (event_outcome (Event.Go thread) self.old).after }
    {
        match self.advance(request, place, thread) {
            Progress::Went => Seen::Went,
            Progress::Waits => Seen::Waits,
            Progress::Done(answer) => Seen::Answered(answer),
        }
    }

    /// A thread takes one step of its open call, which is this request at this place, and is not refused: what it came
    /// to.
    #[inline(always)]
    fn advance(&mut self, request: PlainRequest, place: Place, thread: Tid) -> Progress
        requires allowed { table_refusal self.old (Event.Go thread) ≡ None }
        requires line { line_at self.old thread ≡ Line.At request place }
        ensures { outcome_of result self.new ≡ go_outcome (line_at self.old thread) thread self.old }
    {
        match request.get() {
            Plain::Wait(_, _) | Plain::Signal(_) | Plain::Broadcast(_) => {
                self.parts.take::<CondLines>(request, place, thread)
            }
            _ => self.parts.take::<MutexLines>(request, place, thread),
        }
    }

    /// A thread ends, which is not refused.
    #[tactic(auto, unfolding(pif_model::specs::Lines::accepted_outcome))]
    fn end(&mut self, thread: Tid) -> Seen
        requires { table_refusal self.old (Event.End thread) ≡ None }
        ensures seen { result ≡ (accepted_outcome (Event.End thread) self.old).seen }
        ensures after { self.new ≡ (accepted_outcome (Event.End thread) self.old).after }
    {
        self.parts.end(thread);
        Seen::Ended
    }

    /// The time is this from now on, which is not refused.
    #[tactic(auto, unfolding(pif_model::specs::Lines::accepted_outcome))]
    fn tick(&mut self, time: u32) -> Seen
        requires { table_refusal self.old (Event.Tick time) ≡ None }
        ensures seen { result ≡ (accepted_outcome (Event.Tick time) self.old).seen }
        ensures after { self.new ≡ (accepted_outcome (Event.Tick time) self.old).after }
    {
        self.parts.tick(time);
        Seen::Ticked
    }
}
