ghost use Rattle.std.specs.Prelude.{◌≡◌, ◌<◌, ◌≤◌, ◌+◌, ◌^◌, ◌==◌, true, false, [], ◌∷◌, IfOk, Ok, Err, length, vec_capacity, if◌then◌else◌, Some, None};
ghost use Rattle.pif_types.specs.Bounds.{IsWithin};
ghost use Rattle.pif_model.specs.Word.{word_of, is_bare, health_in, health_word};
ghost use Rattle.pif_model.specs.PiKernel.{IsKernel, new_kernel, seat_at, is_living, effective_in, pick_in};
ghost use Rattle.pif_model.specs.Table.{new_table, line_at, timer_at, status_at, cell_at, bound_to, uses_of, with_line, with_timer, with_count, with_word, with_health_word, with_cond_word, has_thread, has_mutex, has_cond, has_thread_room, has_mutex_room, has_cond_room, thread_added, mutex_added, cond_added};
ghost use Rattle.pif_model.specs.Lines.{is_robust};
ghost use Rattle.pif_mutex.specs.Assembled.{IsAssembled};

use crate::mutex::Mutex;
use pif_kernel_calls::PiKernel;
use pif_model::{Line, Status, Timer};
use pif_robust::RobustLists;
use pif_types::{
    CondId, Health, Kind, Limits, MutexId, NoMemory, Prio, Tid, push_within, with_room,
};
use pif_word::{Cell, OWNER_DIED, Words, health_in, health_word};
use std::alloc::Global;
use std::marker::Model;

/// The timer of a thread that has begun no call.
const NO_TIMER: Timer = Timer {
    deadline: None,
    expired: false,
};

/// A list with room for `count` items, at least 1, which begins with this one.
fn begun_with<T: Drop>(alloc: Global, count: usize, first: T) -> Result<Vec<T>, NoMemory>
    requires { 1 ≤ count }
    ensures items { IfOk result (λ v. v.items ≡ first ∷ []) }
    ensures room { IfOk result (λ v. count ≤ vec_capacity v) }
{
    let mut items = with_room(alloc, count)?;
    push_within(&mut items, first);
    Ok(items)
}

/// What an event changes between two of its accesses: the words, the kernel and the robust lists. It has each thread's
/// line and timer, what the library knows of mutexes and of condition variables, and the time.
#[derive(Drop)]
pub struct State<K: PiKernel + Drop> {
    limits: Limits,
    pub(crate) words: Words,
    pub(crate) kernel: K,
    pub(crate) lists: RobustLists,
    lines: Vec<Line>,
    timers: Vec<Timer>,
    mutexes: Vec<Mutex>,
    conds: Vec<MutexId>,
    time: u32,
}

impl<K: PiKernel + Drop> Model for State<K> {
    ghost use Rattle.std.specs.Prelude.{◌≤◌, ◌+◌, vec_capacity};
    ghost use Rattle.pif_model.specs.Table.{Table};
    ghost use Rattle.pif_mutex.specs.Assembled.{table_of, IsAssembled};

    ghost Value = { Table };

    ghost view = { λ s. table_of s.limits s.words (K.meaning s.kernel) s.lists s.lines.items s.timers.items
        s.mutexes.items s.conds.items s.time };

    ghost invariant = { λ s. record {
      assembled : IsAssembled (table_of s.limits s.words (K.meaning s.kernel) s.lists s.lines.items s.timers.items
          s.mutexes.items s.conds.items s.time);
      lines : s.limits.threads + 1 ≤ vec_capacity s.lines;
      timers : s.limits.threads + 1 ≤ vec_capacity s.timers;
      mutexes : s.limits.mutexes + 1 ≤ vec_capacity s.mutexes;
      conds : s.limits.conds ≤ vec_capacity s.conds;
    } };
}

impl<K: PiKernel + Drop> State<K> {
    /// The state in which nothing was added, over a kernel to which nothing was added. It takes room for all that the
    /// limits allow.
    pub(crate) fn new(alloc: Global, limits: Limits, kernel: K) -> Result<State<K>, NoMemory>
        requires new { K.meaning kernel ≡ new_kernel limits }
        requires kept { IsKernel (K.meaning kernel) }
        ensures { IfOk result (λ s. s ≡ new_table limits) }
    {
        let words = Words::new(alloc, limits)?;
        let lists = RobustLists::new(alloc, limits)?;
        let lines = begun_with(alloc, limits.threads() as usize + 1, Line::Idle)?;
        let timers = begun_with(alloc, limits.threads() as usize + 1, NO_TIMER)?;
        let nobody = Mutex::new(Kind::Normal, false);
        let mutexes = begun_with(alloc, limits.mutexes() as usize + 1, nobody)?;
        let conds = with_room(alloc, limits.conds() as usize)?;
        Ok(State {
            limits,
            words,
            kernel,
            lists,
            lines,
            timers,
            mutexes,
            conds,
            time: 0,
        })
    }

    /// The limits.
    pub fn limits(&self) -> Limits
        ensures value { result ≡ self.now.limits }
        ensures range { IsWithin self.now.limits }
    {
        self.limits
    }

    /// One more than the threads that were added: 1 to 1,025.
    pub(crate) fn line_count(&self) -> u32
        ensures value { result ≡ length self.now.lines }
        ensures seats { result ≡ length self.now.kernel.seats }
        ensures least { 1 ≤ result }
        ensures most { result ≤ 1025 }
    {
        self.lines.len() as u32
    }

    /// One more than the mutexes that were added: 1 to 1,025.
    pub(crate) fn mutex_count(&self) -> u32
        ensures value { result ≡ length self.now.mutexes }
        ensures least { 1 ≤ result }
        ensures most { result ≤ 1025 }
    {
        self.mutexes.len() as u32
    }

    /// One more than the condition variables that were added: 1 to 257.
    pub fn cond_count(&self) -> u32
        ensures value { result ≡ length self.now.conds }
        ensures least { 1 ≤ result }
        ensures most { result ≤ 257 }
    {
        self.conds.len() as u32 + 1
    }

    /// The line of a thread that was added.
    pub fn line(&self, t: Tid) -> Line
        requires { has_thread self.now t ≡ true }
        ensures value { result ≡ line_at self.now t }
        ensures assembled { IsAssembled self.now }
    {
        self.lines[t.get() as usize]
    }

    /// Puts the open call of a thread that was added at this line.
    pub(crate) fn set_line(&mut self, t: Tid, line: Line)
        requires { has_thread self.old t ≡ true }
        ensures after { self.new ≡ with_line t line self.old }
        ensures assembled { IsAssembled self.old }
    {
        self.lines[t.get() as usize] = line;
    }

    /// What the last call of a thread that was added has of its deadline.
    pub fn timer(&self, t: Tid) -> Timer
        requires { has_thread self.now t ≡ true }
        ensures { result ≡ timer_at self.now t }
    {
        self.timers[t.get() as usize]
    }

    /// Makes this the timer of a thread that was added.
    pub fn set_timer(&mut self, t: Tid, timer: Timer)
        requires { has_thread self.old t ≡ true }
        ensures { self.new ≡ with_timer t timer self.old }
    {
        self.timers[t.get() as usize] = timer;
    }

    /// The time that was handed in last, 0 at first.
    pub fn time(&self) -> u32
        ensures { result ≡ self.now.time }
    {
        self.time
    }

    /// Makes this the time.
    pub(crate) fn set_time(&mut self, time: u32)
        ensures { self.new ≡ record self.old { time = time } }
    {
        self.time = time;
    }

    /// What the kernel knows of a thread that was added.
    pub fn status(&self, t: Tid) -> Status
        requires { has_thread self.now t ≡ true }
        ensures { result ≡ status_at self.now t }
    {
        self.kernel.status(t)
    }

    /// Whether a thread lives: it was added and has not ended.
    pub(crate) fn is_living(&self, t: Tid) -> bool
        ensures { result ≡ is_living self.now.kernel t }
    {
        self.kernel.effective(t).is_some()
    }

    /// The effective priority of a thread. `None` if no living thread has that number.
    pub(crate) fn effective(&self, t: Tid) -> Option<Prio>
        ensures { result ≡ (if is_living self.now.kernel t then Some (effective_in self.now.kernel t) else None) }
    {
        self.kernel.effective(t)
    }

    /// The thread that runs next. `None` if none is ready.
    pub(crate) fn pick(&self) -> Option<Tid>
        ensures { result ≡ (if pick_in self.now.kernel == 0 then None else Some (pick_in self.now.kernel)) }
    {
        self.kernel.pick()
    }

    /// The base priority of a thread that was added.
    pub(crate) fn base(&self, t: Tid) -> Prio
        requires { has_thread self.now t ≡ true }
        ensures { result ≡ (seat_at self.now.kernel t).base }
    {
        self.kernel.base(t)
    }

    /// The kind of a mutex that was added.
    pub(crate) fn kind(&self, m: MutexId) -> Kind
        requires { has_mutex self.now m ≡ true }
        ensures { result ≡ (cell_at self.now m).kind }
    {
        self.mutexes[m.get() as usize].kind
    }

    /// Whether a mutex that was added is robust.
    pub fn is_robust(&self, m: MutexId) -> bool
        requires { has_mutex self.now m ≡ true }
        ensures { result ≡ is_robust m self.now }
    {
        self.mutexes[m.get() as usize].robust
    }

    /// How often its owner holds a mutex that was added.
    pub fn count(&self, m: MutexId) -> u32
        requires { has_mutex self.now m ≡ true }
        ensures { result ≡ (cell_at self.now m).count }
    {
        self.mutexes[m.get() as usize].count
    }

    /// A mutex that was added is held this often.
    pub(crate) fn set_count(&mut self, m: MutexId, count: u32)
        requires { has_mutex self.old m ≡ true }
        ensures { self.new ≡ with_count m count self.old }
    {
        let place = m.get() as usize;
        self.mutexes[place].count = count;
    }

    /// The bits of the word of a mutex that was added.
    pub fn word(&self, m: MutexId) -> u32
        requires { has_mutex self.now m ≡ true }
        ensures { word_of result ≡ (cell_at self.now m).word }
    {
        self.words.load(Cell::Mutex(m))
    }

    /// Makes `new` the word of a mutex that was added if it was `expected`, a bare number below 2^30, and answers
    /// whether it was.
    pub(crate) fn exchange(&mut self, m: MutexId, expected: u32, new: u32) -> bool
        requires mutex { has_mutex self.old m ≡ true }
        requires bare { expected < 2 ^ 30 }
        ensures value { result ≡ is_bare (cell_at self.old m).word expected }
        ensures after { self.new ≡ (if result then with_word m (word_of new) self.old else self.old) }
    {
        self.words
            .compare_exchange(Cell::Mutex(m), expected, new)
            .is_ok()
    }

    /// Takes OWNER_DIED out of the word of a mutex that was added.
    pub(crate) fn settle_word(&mut self, m: MutexId)
        requires { has_mutex self.old m ≡ true }
        ensures { self.new ≡ with_word m (record (cell_at self.old m).word { died = false }) self.old }
    {
        self.words.fetch_and(Cell::Mutex(m), !OWNER_DIED);
    }

    /// What the health word of a mutex that was added says.
    pub(crate) fn health(&self, m: MutexId) -> Health
        requires { has_mutex self.now m ≡ true }
        ensures { result ≡ health_in (cell_at self.now m).health }
    {
        health_in(self.words.load(Cell::Health(m)))
    }

    /// Makes the health word of a mutex that was added say `health`.
    pub(crate) fn set_health(&mut self, m: MutexId, health: Health)
        requires { has_mutex self.old m ≡ true }
        ensures { self.new ≡ with_health_word m (health_word health) self.old }
    {
        self.words.store(Cell::Health(m), health_word(health));
    }

    /// The mutex to which a variable that was added is bound.
    pub fn bound(&self, c: CondId) -> MutexId
        requires { has_cond self.now c ≡ true }
        ensures { result ≡ bound_to self.now c }
    {
        self.conds[c.get() as usize - 1]
    }

    /// How often a variable that was added was used, by its condition word: its signals and broadcasts together.
    pub fn uses(&self, c: CondId) -> u32
        requires { has_cond self.now c ≡ true }
        ensures { result ≡ uses_of self.now c }
    {
        self.words.load(Cell::Cond(c))
    }

    /// Makes `new` the condition word of a variable that was added if it was `expected`, and answers `Ok` with what it
    /// was. Otherwise answers `Err` with what it is, and changes nothing.
    pub fn exchange_uses(&mut self, c: CondId, expected: u32, new: u32) -> Result<u32, u32>
        requires { has_cond self.old c ≡ true }
        ensures value { result
            ≡ (if uses_of self.old c == expected then Ok (uses_of self.old c) else Err (uses_of self.old c)) }
        ensures after { self.new
            ≡ (if uses_of self.old c == expected then with_cond_word c new self.old else self.old) }
    {
        self.words.compare_exchange(Cell::Cond(c), expected, new)
    }

    /// The number of a thread that was added, which a word has room for: it is below 2^30.
    pub(crate) fn number_of(&self, t: Tid) -> u32
        requires { has_thread self.now t ≡ true }
        ensures value { result ≡ t }
        ensures bare { result < 2 ^ 30 }
    {
        // This looks at a part, so that the proof has what the parts keep: there are at most 1,024 threads.
        let _limits = self.limits;
        t.get()
    }

    /// Adds a thread of this base priority, with no call open.
    pub(crate) fn add_thread(&mut self, prio: Prio) -> Tid
        requires { has_thread_room self.old ≡ true }
        ensures number { result ≡ length self.old.lines }
        ensures after { self.new ≡ thread_added prio self.old }
    {
        push_within(&mut self.lines, Line::Idle);
        push_within(&mut self.timers, NO_TIMER);
        self.kernel.add(prio)
    }

    /// Adds a mutex of this kind, robust or stalled, with the next number.
    pub(crate) fn add_mutex(&mut self, kind: Kind, robust: bool)
        requires { has_mutex_room self.old ≡ true }
        ensures { self.new ≡ mutex_added kind robust self.old }
    {
        push_within(&mut self.mutexes, Mutex::new(kind, robust));
    }

    /// Adds a condition variable with the next number, bound to this mutex, which was added. It was never used.
    pub fn add_cond(&mut self, m: MutexId)
        requires named { has_mutex self.old m ≡ true }
        requires room { has_cond_room self.old ≡ true }
        ensures { self.new ≡ cond_added m self.old }
    {
        push_within(&mut self.conds, m);
    }
}
