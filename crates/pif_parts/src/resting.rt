//! The state in which a history rests where it is quiet, by its lines alone.
ghost use Rattle.std.specs.Prelude.{◌≡◌, ◌++◌, ◌∷◌, [], true, map, Some, Option, OnOk, IfOk, set};
ghost use Rattle.pif_types.specs.declared.requests.Request.{Request};
ghost use Rattle.pif_parts.specs.Resting.{AreAlike, AreSame, Changes, IsRest, are_used_less, conds_after, conds_behind, each_is_less, mutexes_after, returned, threads_after, threads_behind, time_after, unused_cond, with_base, with_end, with_use};

use pif_history_model::{Fact, Line};
use pif_search::{Stop, at_or, one, push};
use pif_types::{Answer, Kind, Request};
use std::alloc::Global;

/// A thread that rests.
#[derive(Clone, Copy)]
pub struct RestingThread {
    /// Its base priority.
    pub base: u32,
    /// Whether it hasn't ended.
    pub living: bool,
}

/// A mutex that nobody holds.
#[derive(Clone, Copy)]
pub struct RestingMutex {
    /// Its type.
    pub kind: Kind,
    /// Whether it is robust.
    pub robust: bool,
}

/// A condition variable on which nobody waits.
#[derive(Clone, Copy)]
pub struct RestingCond {
    /// The number of the mutex to which it is bound.
    pub mutex: u32,
    /// How often it was signalled or broadcast.
    pub uses: usize,
}

/// The state that lines tell. Place 0 of each list stands for nobody.
#[derive(Drop)]
pub struct Rest {
    /// The threads.
    pub threads: Vec<RestingThread>,
    /// The mutexes.
    pub mutexes: Vec<RestingMutex>,
    /// The condition variables.
    pub conds: Vec<RestingCond>,
    /// The time.
    pub time: u32,
}

/// What stands at place 0 of the threads.
const NOBODY: RestingThread = RestingThread {
    base: 0,
    living: false,
};

/// What stands at place 0 of the mutexes.
const NO_MUTEX: RestingMutex = RestingMutex {
    kind: Kind::Normal,
    robust: false,
};

/// What stands at place 0 of the condition variables.
const NO_COND: RestingCond = RestingCond { mutex: 0, uses: 0 };

/// The item at a place is this one. If there is no such place, nothing changes.
fn put<T: Copy>(items: &mut [T], at: usize, item: T)
    ensures { items.new ≡ set items.old at item }
{
    if at < items.len() {
        items[at] = item;
    }
}

/// The thread of this number has this base priority.
fn set_base(threads: &mut [RestingThread], thread: usize, base: u32)
    ensures { threads.new ≡ with_base thread base threads.old }
{
    let living = at_or(threads, thread, NOBODY).living;
    put(threads, thread, RestingThread { base, living });
}

/// The thread of this number has ended.
fn set_ended(threads: &mut [RestingThread], thread: usize)
    ensures { threads.new ≡ with_end thread threads.old }
{
    let base = at_or(threads, thread, NOBODY).base;
    put(
        threads,
        thread,
        RestingThread {
            base,
            living: false,
        },
    );
}

/// The condition variable of this number was used once more.
fn count_use(conds: &mut [RestingCond], cond: usize) -> Result<(), Stop>
    ensures { OnOk result (conds.new ≡ with_use cond conds.old) }
{
    let RestingCond { mutex, uses } = at_or(conds, cond, NO_COND);
    match uses.checked_add(1) {
        Some(uses) => {
            put(conds, cond, RestingCond { mutex, uses });
            Ok(())
        }
        None => Err(Stop::Range),
    }
}

/// A call of this request returned 0: what it leaves of threads.
fn leave_threads(threads: &mut [RestingThread], request: &Request)
    ensures { threads.new ≡ threads_behind request.now threads.old }
{
    match *request {
        Request::SetPrio(thread, prio) => set_base(threads, thread.get() as usize, prio),
        _ => {}
    }
}

/// A call of this request returned 0: what it leaves of condition variables.
fn leave_conds(conds: &mut [RestingCond], request: &Request) -> Result<(), Stop>
    ensures { OnOk result (conds.new ≡ conds_behind request.now conds.old) }
{
    match *request {
        Request::Signal(cond) => count_use(conds, cond.get() as usize),
        Request::Broadcast(cond) => count_use(conds, cond.get() as usize),
        _ => Ok(()),
    }
}

/// The call of a thread that a line answers with 0, if it was this one.
fn answered(answer: Answer, call: &Option<Request>) -> Option<Request>
    ensures { result ≡ returned answer call.now }
{
    if answer == 0 { *call } else { None }
}

/// Hears what a line changes of threads, whose thread had this call open before it.
fn hear_threads(
    threads: &mut Vec<RestingThread>,
    line: &Line,
    call: &Option<Request>,
) -> Result<(), Stop>
    ensures { OnOk result (threads.new.items ≡ threads_after line.now call.now threads.old.items) }
{
    let _no_fact: Option<Fact> = None;
    match *line {
        Line::Thread(base) => return push(threads, RestingThread { base, living: true }),
        Line::Answer(_, answer) => {
            if let Some(request) = answered(answer, call) {
                leave_threads(threads.as_mut_slice(), &request);
            }
        }
        Line::End(thread) => set_ended(threads.as_mut_slice(), thread.get() as usize),
        _ => {}
    }
    Ok(())
}

/// Hears what a line changes of mutexes.
fn hear_mutexes(mutexes: &mut Vec<RestingMutex>, line: &Line) -> Result<(), Stop>
    ensures { OnOk result (mutexes.new.items ≡ mutexes_after line.now mutexes.old.items) }
{
    let _no_request: Option<Request> = None;
    let _no_fact: Option<Fact> = None;
    match *line {
        Line::Mutex(kind, robust, _) => push(mutexes, RestingMutex { kind, robust }),
        _ => Ok(()),
    }
}

/// Hears what a line changes of condition variables, whose thread had this call open before it.
fn hear_conds(conds: &mut Vec<RestingCond>, line: &Line, call: &Option<Request>) -> Result<(), Stop>
    ensures { OnOk result (conds.new.items ≡ conds_after line.now call.now conds.old.items) }
{
    let _no_fact: Option<Fact> = None;
    match *line {
        Line::Cond(mutex) => push(
            conds,
            RestingCond {
                mutex: mutex.get(),
                uses: 0,
            },
        ),
        Line::Answer(_, answer) => match answered(answer, call) {
            Some(request) => leave_conds(conds.as_mut_slice(), &request),
            None => Ok(()),
        },
        _ => Ok(()),
    }
}

/// The time behind a line.
fn time_after(line: &Line, time: u32) -> u32
    ensures { result ≡ time_after line.now time }
{
    let _no_request: Option<Request> = None;
    let _no_fact: Option<Fact> = None;
    match *line {
        Line::Tick(now) => now,
        _ => time,
    }
}

/// What is told to be the same as another.
trait Same {
    /// Whether this is the same.
    fn is_same(&self, other: &Self) -> bool
        ensures { result ≡ true → self.now ≡ other.now };
}

impl Same for RestingThread {
    fn is_same(&self, other: &RestingThread) -> bool {
        self.base == other.base && self.living == other.living
    }
}

impl Same for RestingMutex {
    fn is_same(&self, other: &RestingMutex) -> bool {
        self.kind == other.kind && self.robust == other.robust
    }
}

impl Same for RestingCond {
    fn is_same(&self, other: &RestingCond) -> bool {
        self.mutex == other.mutex && self.uses == other.uses
    }
}

/// Whether these are the same, in the same order.
fn are_same<T: Same>(items: &[T], others: &[T]) -> bool
    ensures { result ≡ true → items.now ≡ others.now }
{
    if items.len() != others.len() {
        return false;
    }
    for place in 0..items.len() {
        let item = &items[place];
        let other = &others[place];
        if !item.is_same(other) {
            return false;
        }
    }
    true
}

/// Whether these are bound to the same mutexes, in the same order.
fn are_bound_alike(conds: &[RestingCond], others: &[RestingCond]) -> bool
    ensures { result ≡ true → map unused_cond conds.now ≡ map unused_cond others.now }
{
    if conds.len() != others.len() {
        return false;
    }
    for place in 0..conds.len() {
        let cond = &conds[place];
        let other = &others[place];
        if cond.mutex != other.mutex {
            return false;
        }
    }
    true
}

/// Whether each of these variables was used less often than this.
fn is_each_less(conds: &[RestingCond], uses: usize) -> bool
    ensures { result ≡ each_is_less uses conds.now }
{
    conds.iter().all(|cond| cond.uses < uses)
}

/// Whether all variables were used less often than this, also those that weren't added yet.
fn are_used_less(conds: &[RestingCond], uses: usize) -> bool
    ensures { result ≡ are_used_less uses conds.now }
{
    0 < uses && is_each_less(conds, uses)
}

impl Rest {
    /// Before any line.
    ///
    /// # Errors
    ///
    /// Out of memory.
    pub fn new(alloc: Global) -> Result<Rest, Stop>
        ensures { IfOk result (IsRest []) }
    {
        Ok(Rest {
            threads: one(alloc, NOBODY)?,
            mutexes: one(alloc, NO_MUTEX)?,
            conds: one(alloc, NO_COND)?,
            time: 0,
        })
    }

    /// Hears one more line, whose thread had this call open before it.
    ///
    /// # Errors
    ///
    /// Out of memory. The state is of no use then.
    pub fn hear(&mut self, line: &Line, call: &Option<Request>) -> Result<(), Stop>
        ensures { OnOk result (Changes line.now call.now self.old self.new) }
    {
        hear_threads(&mut self.threads, line, call)?;
        hear_mutexes(&mut self.mutexes, line)?;
        hear_conds(&mut self.conds, line, call)?;
        self.time = time_after(line, self.time);
        Ok(())
    }

    /// Whether all variables were used less often than this, also those that weren't added yet.
    pub fn is_used_less(&self, uses: usize) -> bool
        ensures { result ≡ are_used_less uses self.now.conds.items }
    {
        are_used_less(self.conds.as_slice(), uses)
    }

    /// Whether the other is the same state, however often variables were used.
    pub fn is_alike(&self, other: &Rest) -> bool
        ensures { result ≡ true → AreAlike self.now other.now }
    {
        self.time == other.time
            && are_same(self.threads.as_slice(), other.threads.as_slice())
            && are_same(self.mutexes.as_slice(), other.mutexes.as_slice())
            && are_bound_alike(self.conds.as_slice(), other.conds.as_slice())
    }

    /// Whether the other is the same state.
    pub fn is_same(&self, other: &Rest) -> bool
        ensures { result ≡ true → AreSame self.now other.now }
    {
        self.time == other.time
            && are_same(self.threads.as_slice(), other.threads.as_slice())
            && are_same(self.mutexes.as_slice(), other.mutexes.as_slice())
            && are_same(self.conds.as_slice(), other.conds.as_slice())
    }
}
