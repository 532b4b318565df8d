//! What threads hold by the answers in lines alone. Nothing that is told rests on it: what is found by it is asked.

use pif_history_model::Line;
use pif_search::{Stop, push};
use pif_types::{Answer, Errno, MutexId, Request, Tid};
use std::alloc::Global;

/// A call that is open.
#[derive(Clone, Copy)]
struct Open {
    thread: Tid,
    request: Request,
}

/// A thread holds a mutex so often.
#[derive(Clone, Copy)]
struct Held {
    thread: Tid,
    mutex: MutexId,
    count: u32,
}

/// What threads hold by the lines that were heard.
#[derive(Drop)]
pub struct Holds {
    open: Vec<Open>,
    held: Vec<Held>,
    /// From so many holds on EAGAIN was answered; 255 if it wasn't before.
    pub least: u32,
    /// So often a mutex was held, or refused.
    pub most: u32,
}

impl Holds {
    /// Before any line.
    pub fn new(alloc: Global) -> Holds {
        Holds {
            open: Vec::new(alloc),
            held: Vec::new(alloc),
            least: 255,
            most: 0,
        }
    }

    /// How often a thread holds a mutex.
    pub fn count(&self, thread: Tid, mutex: MutexId) -> u32 {
        for held in self.held.as_slice() {
            if held.thread == thread && held.mutex == mutex {
                return held.count;
            }
        }
        0
    }

    /// A thread holds a mutex so often from now on.
    fn set_count(&mut self, thread: Tid, mutex: MutexId, count: u32) -> Result<(), Stop> {
        for place in 0..self.held.len() {
            if self.held[place].thread == thread && self.held[place].mutex == mutex {
                self.held[place].count = count;
                return Ok(());
            }
        }
        push(
            &mut self.held,
            Held {
                thread,
                mutex,
                count,
            },
        )
    }

    /// A call begins.
    fn begin(&mut self, thread: Tid, request: Request) -> Result<(), Stop> {
        for place in 0..self.open.len() {
            if self.open[place].thread == thread {
                self.open[place].request = request;
                return Ok(());
            }
        }
        push(&mut self.open, Open { thread, request })
    }

    /// The call that a thread began last, if it began one.
    fn last_of(&self, thread: Tid) -> Option<Request> {
        for open in self.open.as_slice() {
            if open.thread == thread {
                return Some(open.request);
            }
        }
        None
    }

    /// A lock of a mutex was answered.
    fn lock(&mut self, thread: Tid, mutex: MutexId, answer: Answer) -> Result<(), Stop> {
        let count = self.count(thread, mutex);
        if answer == Errno::Again.number() {
            self.least = u32::min(self.least, count);
            self.most = u32::max(self.most, count);
        } else if answer == 0 || answer == Errno::OwnerDead.number() {
            let more = count.saturating_add(1);
            self.most = u32::max(self.most, more);
            return self.set_count(thread, mutex, more);
        }
        Ok(())
    }

    /// An unlock of a mutex was answered.
    fn unlock(&mut self, thread: Tid, mutex: MutexId, answer: Answer) -> Result<(), Stop> {
        if answer != 0 {
            return Ok(());
        }
        let count = self.count(thread, mutex).saturating_sub(1);
        self.set_count(thread, mutex, count)
    }

    /// The call that a thread began last was answered.
    fn answer(&mut self, thread: Tid, answer: Answer) -> Result<(), Stop> {
        let Some(request) = self.last_of(thread) else {
            return Ok(());
        };
        match request {
            Request::Lock(mutex) | Request::TimedLock(mutex, _) | Request::TryLock(mutex) => {
                self.lock(thread, mutex, answer)
            }
            Request::Unlock(mutex) => self.unlock(thread, mutex, answer),
            _ => Ok(()),
        }
    }

    /// Hears one line more.
    ///
    /// # Errors
    ///
    /// Out of memory.
    pub fn hear(&mut self, line: &Line) -> Result<(), Stop> {
        match *line {
            Line::Begin(thread, request) => self.begin(thread, request),
            Line::Answer(thread, answer) => self.answer(thread, answer),
            _ => Ok(()),
        }
    }
}
