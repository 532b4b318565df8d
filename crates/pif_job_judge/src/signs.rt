//! Which facts may be in the way of a line, by what the lines before say. No verdict rests on this: a search confirms
//! each.
use crate::holds::Holds;
use pif_history_model::{Fact, Line};
use pif_search::{Stop, push};
use pif_types::{Answer, Errno, Kind, MutexId, Request, Tid};
use std::alloc::Global;

/// The most facts that a search is asked about.
const MOST_FACTS: usize = 64;

/// A thread, by the lines that were heard.
#[derive(Clone, Copy)]
struct Row {
    thread: Tid,
    /// Its base priority.
    base: u32,
    /// Its open call, if it has one.
    call: Option<Request>,
}

/// What the lines that were heard say of threads.
#[derive(Drop)]
struct Signs {
    holds: Holds,
    rows: Vec<Row>,
    /// The kind of each mutex.
    kinds: Vec<Kind>,
    time: u32,
}

/// The mutex that a call locks, or reacquires.
fn wanted_by(request: &Request) -> Option<MutexId> {
    match *request {
        Request::Lock(mutex) | Request::TimedLock(mutex, _) | Request::TryLock(mutex) => {
            Some(mutex)
        }
        Request::Wait(_, mutex) | Request::TimedWait(_, mutex, _) => Some(mutex),
        _ => None,
    }
}

/// Whether a call waits for a variable.
fn is_wait(request: &Request) -> bool {
    match *request {
        Request::Wait(_, _) | Request::TimedWait(_, _, _) => true,
        _ => false,
    }
}

/// The deadline of a call, if it has one.
fn deadline_of(request: &Request) -> Option<u32> {
    match *request {
        Request::TimedLock(_, deadline) | Request::TimedWait(_, _, deadline) => Some(deadline),
        _ => None,
    }
}

/// Adds a fact, unless there are so many already.
fn add(facts: &mut Vec<Fact>, fact: Fact) -> Result<(), Stop> {
    if facts.len() < MOST_FACTS {
        push(facts, fact)
    } else {
        Ok(())
    }
}

impl Signs {
    /// Before any line.
    fn new(alloc: Global) -> Signs {
        Signs {
            holds: Holds::new(alloc),
            rows: Vec::new(alloc),
            kinds: Vec::new(alloc),
            time: 0,
        }
    }

    /// One thread more, with this base priority.
    fn add_thread(&mut self, base: u32) -> Result<(), Stop> {
        let Ok(count) = u32::try_from(self.rows.len()) else {
            return Err(Stop::Range);
        };
        let Some(thread) = Tid::new(count.saturating_add(1)) else {
            return Err(Stop::Range);
        };
        push(
            &mut self.rows,
            Row {
                thread,
                base,
                call: None,
            },
        )
    }

    /// The open call of a thread is this from now on, or none.
    fn set_call(&mut self, thread: Tid, call: Option<Request>) {
        let place = thread.get() as usize - 1;
        if place < self.rows.len() {
            self.rows[place].call = call;
        }
    }

    /// The open call of a thread, if it has one.
    fn call_of(&self, thread: Tid) -> Option<Request> {
        let place = thread.get() as usize - 1;
        if place < self.rows.len() {
            self.rows[place].call
        } else {
            None
        }
    }

    /// Whether a thread holds a mutex by its answers, which can't be held more than once.
    fn holds_once(&self, thread: Tid, mutex: MutexId) -> bool {
        let place = mutex.get() as usize - 1;
        place < self.kinds.len()
            && self.kinds[place] != Kind::Recursive
            && self.holds.count(thread, mutex) != 0
    }

    /// The base priority of a thread is this from now on.
    fn set_base(&mut self, thread: Tid, base: u32) {
        let place = thread.get() as usize - 1;
        if place < self.rows.len() {
            self.rows[place].base = base;
        }
    }

    /// A call was answered 0.
    fn succeed(&mut self, request: &Request) {
        match *request {
            Request::SetPrio(thread, base) => self.set_base(thread, base),
            _ => {}
        }
    }

    /// The open call of a thread was answered.
    fn answer(&mut self, thread: Tid, answer: Answer) {
        if let Some(request) = self.call_of(thread) {
            if answer == 0 {
                self.succeed(&request);
            }
        }
        self.set_call(thread, None);
    }

    /// Hears one line more.
    fn hear(&mut self, line: &Line) -> Result<(), Stop> {
        match *line {
            Line::Thread(base) => self.add_thread(base)?,
            Line::Mutex(kind, _, _) => push(&mut self.kinds, kind)?,
            Line::Begin(thread, request) => self.set_call(thread, Some(request)),
            Line::Answer(thread, answer) => self.answer(thread, answer),
            Line::End(thread) => self.set_call(thread, None),
            Line::Tick(time) => self.time = time,
            _ => {}
        }
        self.holds.hear(line)
    }

    /// What these lines say.
    fn of(alloc: Global, lines: &[Line]) -> Result<Signs, Stop> {
        let mut signs = Signs::new(alloc);
        for line in lines {
            signs.hear(line)?;
        }
        Ok(signs)
    }

    /// Adds for each thread but this one that it owns a mutex, if it holds it by its answers.
    fn add_holders(&self, thread: Tid, mutex: MutexId, facts: &mut Vec<Fact>) -> Result<(), Stop> {
        for row in self.rows.as_slice() {
            if row.thread != thread && self.holds.count(row.thread, mutex) != 0 {
                add(facts, Fact::Held(mutex, row.thread))?;
            }
        }
        Ok(())
    }

    /// Adds for each thread but this one whose open call wants a mutex that it owns it, gets it next, or one of these.
    fn add_rivals(&self, thread: Tid, mutex: MutexId, facts: &mut Vec<Fact>) -> Result<(), Stop> {
        for row in self.rows.as_slice() {
            if row.thread != thread
                && let Some(request) = row.call
                && wanted_by(&request) == Some(mutex)
            {
                add(facts, Fact::Held(mutex, row.thread))?;
                add(facts, Fact::Next(mutex, row.thread))?;
                add(facts, Fact::HeldOrNext(mutex, row.thread))?;
                add(facts, Fact::Priority(row.thread, row.base))?;
            }
        }
        Ok(())
    }

    /// Adds what may be in the way of a call that gets a mutex.
    fn add_of_getting(
        &self,
        thread: Tid,
        request: &Request,
        mutex: MutexId,
        facts: &mut Vec<Fact>,
    ) -> Result<(), Stop> {
        if is_wait(request) {
            add(facts, Fact::NotSignalled(thread))?;
        }
        self.add_holders(thread, mutex, facts)?;
        self.add_rivals(thread, mutex, facts)?;
        if !is_wait(request) && self.holds_once(thread, mutex) {
            add(facts, Fact::Held(mutex, thread))?;
        }
        Ok(())
    }

    /// Adds what may be in the way of a call that runs out of time.
    fn add_of_timeout(
        &self,
        thread: Tid,
        request: &Request,
        mutex: MutexId,
        facts: &mut Vec<Fact>,
    ) -> Result<(), Stop> {
        let Some(deadline) = deadline_of(request) else {
            return Ok(());
        };
        if self.time < deadline {
            add(facts, Fact::NotDue(thread, deadline, self.time))?;
        }
        if is_wait(request) {
            Ok(())
        } else {
            add(facts, Fact::HeldByNoOther(mutex, thread))
        }
    }

    /// Adds what may be in the way of this answer of a call that wants a mutex.
    fn add_of_answer(
        &self,
        thread: Tid,
        request: &Request,
        mutex: MutexId,
        answer: Answer,
        facts: &mut Vec<Fact>,
    ) -> Result<(), Stop> {
        if answer == 0 || answer == Errno::OwnerDead.number() {
            return self.add_of_getting(thread, request, mutex, facts);
        }
        if answer == Errno::TimedOut.number() {
            return self.add_of_timeout(thread, request, mutex, facts);
        }
        match *request {
            Request::TryLock(_) if answer == Errno::Busy.number() => {
                add(facts, Fact::HeldByNoOther(mutex, thread))
            }
            Request::Lock(_) | Request::TimedLock(_, _) if answer == Errno::Deadlock.number() => {
                add(facts, Fact::HeldByNoOther(mutex, thread))?;
                add(facts, Fact::ClosesNoCycle(mutex, thread))
            }
            _ => Ok(()),
        }
    }

    /// Adds what may be in the way of a thread that rests.
    fn add_of_rest(&self, thread: Tid, facts: &mut Vec<Fact>) -> Result<(), Stop> {
        if let Some(request) = self.call_of(thread)
            && !is_wait(&request)
            && let Some(mutex) = wanted_by(&request)
        {
            add(facts, Fact::HeldByNoOther(mutex, thread))?;
        }
        add(facts, Fact::Awake(thread))
    }

    /// Adds for each thread but this one with this base priority and an open call that it waits for this one.
    fn add_lenders_at(&self, thread: Tid, base: u32, facts: &mut Vec<Fact>) -> Result<(), Stop> {
        for row in self.rows.as_slice() {
            if row.thread != thread && row.base == base && row.call.is_some() {
                add(facts, Fact::WaitsFor(row.thread, thread))?;
                add(facts, Fact::Priority(row.thread, row.base))?;
            }
        }
        Ok(())
    }

    /// Adds who may wait for a thread and has a greater base priority than this, the greatest first.
    fn add_lenders(&self, thread: Tid, priority: u32, facts: &mut Vec<Fact>) -> Result<(), Stop> {
        for base in (0..100).rev() {
            if base > priority {
                self.add_lenders_at(thread, base, facts)?;
            }
        }
        Ok(())
    }

    /// Adds what may be in the way of a line.
    fn add_facts(&self, line: &Line, facts: &mut Vec<Fact>) -> Result<(), Stop> {
        match *line {
            Line::Answer(thread, answer) => {
                if let Some(request) = self.call_of(thread)
                    && let Some(mutex) = wanted_by(&request)
                {
                    return self.add_of_answer(thread, &request, mutex, answer, facts);
                }
                Ok(())
            }
            Line::Rests(thread) => self.add_of_rest(thread, facts),
            Line::Prio(thread, priority) => self.add_lenders(thread, priority, facts),
            _ => Ok(()),
        }
    }
}

/// Facts that may be in the way of a line after these, the most telling first.
///
/// # Errors
///
/// Out of memory, or more threads than numbers.
pub fn facts_about(alloc: Global, before: &[Line], line: &Line) -> Result<Vec<Fact>, Stop> {
    let signs = Signs::of(alloc, before)?;
    let mut facts = Vec::new(alloc);
    signs.add_facts(line, &mut facts)?;
    Ok(facts)
}
