ghost use Rattle.std.specs.Prelude.{◌≤◌};
ghost use Rattle.pif_script_model.specs.CommandLines.{IsNoLimits};

use crate::Shape;
use crate::marks::{Marks, is_orphaned};
use pif_core::{Core, Event, Seen, Status};
use pif_text::{Addition, Command, Question, default_limits};
use pif_types::{CondId, Health, Kind, MutexId, NoMemory, Request, Tid};
use rand_core::Rng;
use rand_pcg::Pcg32;
use std::alloc::Global;

/// The stream of the random words; only the seed differs from script to script.
const STREAM: u64 = 54;

/// What a thread does next to a core by its open call, as far as others may have to do with it.
#[derive(Clone, Copy)]
struct Turn {
    thread: Tid,
    /// The mutex of the call.
    mutex: Option<MutexId>,
    /// Who would get that mutex next.
    waiter: Option<Tid>,
    /// Whether the call may wake threads that are parked on its condition variable.
    wakes: bool,
    /// Whether chains of waiting may lead elsewhere then.
    changes: bool,
}

/// A core that plays a script while it is made, and what is left to chance.
#[derive(Drop)]
pub struct Player {
    core: Core,
    marks: Marks,
    random: Pcg32,
    shape: Shape,
    // How many are to be added: more than at first once some threads have ended, or some mutexes are of no use any
    // more.
    threads: u32,
    mutexes: u32,
    conds: u32,
}

impl Player {
    /// A core under the default limits to which nothing was added.
    pub fn new(alloc: Global, seed: u64, shape: Shape) -> Result<Player, NoMemory> {
        Ok(Player {
            core: Core::new(alloc, default_limits())?,
            marks: Marks::new(alloc)?,
            random: Pcg32::new(seed, STREAM),
            shape,
            threads: shape.threads,
            mutexes: shape.mutexes,
            conds: shape.conds,
        })
    }

    /// A command for the next line: what is still to be added, and then what a thread may do.
    pub fn next_command(&mut self) -> Command
        ensures { IsNoLimits result }
    {
        match self.addition() {
            Some(addition) => Command::Add(addition),
            None => self.turn(),
        }
    }

    /// Plays a command on the core.
    pub fn play(&mut self, command: Command) {
        match command {
            Command::Add(addition) => self.add(addition),
            Command::Event(event) => self.step(event),
            Command::Run(thread, request) => self.run(thread, request),
            Command::Limits(..) | Command::Ask(_) => {}
        }
    }

    fn add(&mut self, addition: Addition) {
        match addition {
            Addition::Thread(priority) => {
                if let Ok(thread) = self.core.add_thread(priority) {
                    self.marks.see_thread(&self.core, thread);
                }
            }
            Addition::Mutex(kind, robust) => {
                if let Ok(mutex) = self.core.add_mutex(kind, robust) {
                    self.marks.add_mutex(mutex);
                }
            }
            Addition::Cond(mutex) => {
                let _added = self.core.add_cond(mutex);
                self.marks.expire();
            }
        }
    }

    fn run(&mut self, thread: Tid, request: Option<Request>) {
        // For the prover: each use has a value of its own.
        let asked = request;
        let turn = self.turn_before(thread, asked);
        let seen = match request {
            Some(request) => self.core.call(thread, request),
            None => self.core.finish(thread),
        };
        self.see_turn(turn, seen);
    }

    // Another thread follows one that has ended.
    fn step(&mut self, event: Event) {
        match event {
            // A thread that begins a call touches nothing yet.
            Event::Begin(thread, request) => {
                let _seen = self.core.step(Event::Begin(thread, request));
            }
            Event::Go(thread) => {
                let turn = self.turn_before(thread, None);
                let seen = self.core.step(Event::Go(thread));
                self.see_turn(turn, seen);
            }
            Event::End(thread) => {
                if let Seen::Ended = self.core.step(Event::End(thread)) {
                    self.threads = self.threads.saturating_add(1);
                    self.see_all();
                }
            }
            Event::Tick(time) => {
                let _seen = self.core.step(Event::Tick(time));
                self.marks.see_threads(&self.core);
            }
        }
    }

    // Any thread may go on, and any mutex have another owner.
    fn see_all(&mut self) {
        self.marks.see_threads(&self.core);
        self.marks.see_owners(&self.core);
        self.marks.expire();
    }

    // What a thread is about to do, by this call, or else by the one that it has open.
    fn turn_before(&self, thread: Tid, request: Option<Request>) -> Turn {
        let asked = match request {
            Some(request) => Some(request),
            None => self.core.open_call(thread),
        };
        let wakes = self.wakes(&asked);
        let mutex = match asked {
            Some(request) => request.names().mutex,
            None => None,
        };
        Turn {
            thread,
            mutex,
            waiter: self.next_owner(&mutex),
            wakes,
            changes: wakes || !self.is_ready(thread) || self.is_unusable(&mutex),
        }
    }

    // Whether a call may wake threads.
    fn wakes(&self, request: &Option<Request>) -> bool {
        match *request {
            Some(Request::Signal(cond) | Request::Broadcast(cond)) => {
                self.core.parked(cond, 0).is_some()
            }
            _ => false,
        }
    }

    fn next_owner(&self, mutex: &Option<MutexId>) -> Option<Tid> {
        match *mutex {
            Some(mutex) => self.core.waiter(mutex, 0),
            None => None,
        }
    }

    fn is_ready(&self, thread: Tid) -> bool {
        match self.core.status(thread) {
            Some(Status::Ready(_)) => true,
            _ => false,
        }
    }

    fn is_unusable(&self, mutex: &Option<MutexId>) -> bool {
        match *mutex {
            Some(mutex) => self.core.health(mutex) == Some(Health::Unusable),
            None => false,
        }
    }

    // What has become of the core by what a thread did.
    fn see_turn(&mut self, turn: Turn, seen: Seen) {
        if turn.wakes {
            self.see_all();
        }
        self.marks.see_thread(&self.core, turn.thread);
        if let Some(thread) = turn.waiter {
            self.marks.see_thread(&self.core, thread);
        }
        if turn.changes || seen == Seen::Waits || self.is_unusable(&turn.mutex) {
            self.marks.expire();
        }
        if let Some(mutex) = turn.mutex {
            self.marks.see_owner(&self.core, mutex);
        }
    }

    // Has as many mutexes and condition variables added as at first, besides those that are of no use any more.
    fn count_lost(&mut self) {
        let (mutexes, conds) = self.marks.lost(&self.core);
        self.mutexes = self.shape.mutexes.saturating_add(mutexes);
        self.conds = self.shape.conds.saturating_add(conds);
    }

    // What is still to be added, as far as the limits allow.
    fn addition(&mut self) -> Option<Addition> {
        if self.core.threads() < self.threads.min(1024) {
            Some(Addition::Thread(self.priority()))
        } else if self.core.mutexes() < self.mutexes.min(1024) {
            let robust = self.shape.robust && self.below(2) == 0;
            Some(Addition::Mutex(self.kind(), robust))
        } else if self.core.conds() < self.conds.min(256) {
            Some(Addition::Cond(self.mutex()?))
        } else {
            None
        }
    }

    // What a thread does next, or a question.
    fn turn(&mut self) -> Command
        ensures { IsNoLimits result }
    {
        match self.thread() {
            Some(thread) => self.turn_of(thread),
            None => Command::Ask(Question::Pick),
        }
    }

    fn turn_of(&mut self, thread: Tid) -> Command
        ensures { IsNoLimits result }
    {
        let chance = self.below(32);
        if chance == 0 && self.shape.ends {
            Command::Event(Event::End(thread))
        } else if chance == 1 && self.shape.times {
            Command::Event(Event::Tick(self.deadline()))
        } else if chance == 2 {
            Command::Ask(self.question(thread))
        } else if self.core.waiting(thread).is_some() {
            go_on(thread, chance)
        } else {
            match self.request(thread) {
                Some(request) => begin(thread, request, chance),
                None => Command::Ask(Question::Pick),
            }
        }
    }

    // What a thread with no call open asks for; none if there is no mutex.
    fn request(&mut self, thread: Tid) -> Option<Request> {
        let chance = self.below(16);
        if chance < 9 {
            match self.owned(thread) {
                Some(mutex) => Some(self.use_of(mutex, chance)),
                None => self.lock(),
            }
        } else if chance == 9 {
            Some(Request::SetPrio(self.named(thread), self.priority()))
        } else if chance == 10 {
            Some(Request::TryLock(self.mutex()?))
        } else if chance <= 12 {
            self.wake(chance)
        } else {
            self.lock()
        }
    }

    // What the owner of a mutex asks for.
    fn use_of(&mut self, mutex: MutexId, chance: u32) -> Request {
        if chance < 5 {
            Request::Unlock(mutex)
        } else if chance == 5 {
            Request::Consistent(mutex)
        } else {
            match self.bound_to(mutex) {
                Some(cond) => self.wait(cond, mutex),
                None => Request::Unlock(mutex),
            }
        }
    }

    fn wait(&mut self, cond: CondId, mutex: MutexId) -> Request {
        if self.shape.times && self.below(2) == 0 {
            Request::TimedWait(cond, mutex, self.deadline())
        } else {
            Request::Wait(cond, mutex)
        }
    }

    fn lock(&mut self) -> Option<Request> {
        let mutex = self.mutex()?;
        if self.shape.times && self.below(4) == 0 {
            Some(Request::TimedLock(mutex, self.deadline()))
        } else {
            Some(Request::Lock(mutex))
        }
    }

    // A signal or a broadcast; a lock if there is no condition variable.
    fn wake(&mut self, chance: u32) -> Option<Request> {
        let conds = self.core.conds();
        if conds == 0 {
            return self.lock();
        }
        let cond = self.signalled(conds)?;
        if chance % 2 == 0 {
            Some(Request::Signal(cond))
        } else {
            Some(Request::Broadcast(cond))
        }
    }

    // One of so many condition variables, mostly one on which a thread is parked.
    fn signalled(&mut self, conds: u32) -> Option<CondId> {
        let start = self.below(conds);
        if conds > 1 && self.below(4) > 0 {
            self.parked_on(start, conds)
        } else {
            CondId::new(start.saturating_add(1))
        }
    }

    // The first condition variable from this place on which a thread is parked, or else the one in it.
    fn parked_on(&self, start: u32, conds: u32) -> Option<CondId> {
        for i in 0..conds {
            let cond = CondId::new(turned(start, i, conds))?;
            if self.core.parked(cond, 0).is_some() {
                return Some(cond);
            }
        }
        CondId::new(start.saturating_add(1))
    }

    // The thread whose priority a thread changes: its own, or any, which may wait or have ended.
    fn named(&mut self, thread: Tid) -> Tid {
        let threads = self.core.threads();
        let place = self.below(threads.saturating_mul(2));
        match Tid::new(place.saturating_add(1)) {
            Some(named) if place < threads => named,
            _ => thread,
        }
    }

    fn question(&mut self, thread: Tid) -> Question {
        match self.below(8) {
            0 => Question::Pick,
            1 => self.cond_question(thread),
            chance => self.mutex_question(thread, chance),
        }
    }

    fn cond_question(&mut self, thread: Tid) -> Question {
        let conds = self.core.conds();
        match CondId::new(self.below(conds).saturating_add(1)) {
            Some(cond) if conds > 0 => Question::CondWord(cond),
            _ => Question::Prio(thread),
        }
    }

    fn mutex_question(&mut self, thread: Tid, chance: u32) -> Question {
        match self.mutex() {
            Some(mutex) if chance < 4 => Question::Word(mutex),
            Some(mutex) if chance == 4 => Question::Health(mutex),
            _ => Question::Prio(thread),
        }
    }

    // A thread that lives and doesn't rest, or else another is added: then any.
    fn thread(&mut self) -> Option<Tid> {
        let threads = self.core.threads();
        let start = self.below(threads);
        match self.marks.awake_from(start, threads) {
            Some(place) => Tid::new(place.saturating_add(1)),
            None => {
                self.threads = self.threads.saturating_add(1);
                Tid::new(start.saturating_add(1))
            }
        }
    }

    // A mutex that the thread owns.
    fn owned(&mut self, thread: Tid) -> Option<MutexId> {
        let mutexes = self.core.mutexes();
        let start = self.below(mutexes);
        let place = self.marks.held_from(thread, start, mutexes)?;
        MutexId::new(place.saturating_add(1))
    }

    // A condition variable that is bound to the mutex.
    fn bound_to(&mut self, mutex: MutexId) -> Option<CondId> {
        let conds = self.core.conds();
        let start = self.below(conds);
        for i in 0..conds {
            let cond = CondId::new(turned(start, i, conds))?;
            if self.core.bound(cond) == Some(mutex) {
                return Some(cond);
            }
        }
        None
    }

    // Any mutex, mostly one that is still of use, and now and then one that was never added; none if there is none.
    fn mutex(&mut self) -> Option<MutexId> {
        let mutexes = self.core.mutexes();
        if mutexes == 0 {
            return None;
        }
        if self.below(64) == 0 {
            return MutexId::new(mutexes.saturating_add(1));
        }
        let place = self.below(mutexes);
        let number = place.saturating_add(1);
        if !is_orphaned(&self.core, MutexId::new(number)) {
            return MutexId::new(number);
        }
        self.count_lost();
        if self.below(16) == 0 {
            MutexId::new(number)
        } else {
            self.useful(place)
        }
    }

    // The first mutex behind this place that is still of use, or else the one in it.
    fn useful(&self, start: u32) -> Option<MutexId> {
        let place = self.marks.useful_from(start, self.core.mutexes());
        MutexId::new(place.unwrap_or(start).saturating_add(1))
    }

    fn kind(&mut self) -> Kind {
        match self.below(3) {
            0 => Kind::Normal,
            1 => Kind::ErrorCheck,
            _ => Kind::Recursive,
        }
    }

    fn priority(&mut self) -> u32 {
        1 + self.below(99)
    }

    // A time that is soon reached.
    fn deadline(&mut self) -> u32 {
        let more = self.below(8);
        self.core.time().saturating_add(more)
    }

    // A random number below `count`; 0 if that is 0.
    fn below(&mut self, count: u32) -> u32
        ensures { result ≤ count }
    {
        if count == 0 {
            0
        } else {
            self.random.next_u32() % count
        }
    }
}

// The number, from 1, that is so many behind the start, of so many in a ring.
fn turned(start: u32, more: u32, count: u32) -> u32 {
    if count == 0 {
        1
    } else {
        start.saturating_add(more) % count + 1
    }
}

// A thread goes on with the call that it has open, by a step or up to its end.
fn go_on(thread: Tid, chance: u32) -> Command
    ensures { IsNoLimits result }
{
    if chance % 4 == 0 {
        Command::Run(thread, None)
    } else {
        Command::Event(Event::Go(thread))
    }
}

// A thread begins a call, or makes it whole.
fn begin(thread: Tid, request: Request, chance: u32) -> Command
    ensures { IsNoLimits result }
{
    if chance % 2 == 0 {
        Command::Run(thread, Some(request))
    } else {
        Command::Event(Event::Begin(thread, request))
    }
}
