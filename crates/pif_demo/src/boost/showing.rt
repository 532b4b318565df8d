use super::Failure;
use pif_core::{Core, Entry, Event, Seen};
use pif_desk::{Book, DeskFault};
use pif_types::{Request, Tid};
use std::alloc::Global;

/// The number of low, which enters first.
const LOW: u32 = 1;

/// The number of middle, which enters next.
const MIDDLE: u32 = 2;

/// A moment that comes in each round: the priority with which low ran when it came first, and the number of the thread
/// that ran next, each 0 if there was none; how often it came, and how often the same was shown.
#[derive(Clone, Copy)]
pub struct Moment {
    pub low: u32,
    next: u32,
    pub came: u32,
    pub same: u32,
}

/// A moment that has not come.
const NOT_COME: Moment = Moment {
    low: 0,
    next: 0,
    came: 0,
    same: 0,
};

impl Moment {
    /// It has come, and this was shown.
    fn note(&mut self, low: u32, next: u32) {
        if self.came == 0 {
            self.low = low;
            self.next = next;
        }
        self.came = self.came.saturating_add(1);
        if self.low == low && self.next == next {
            self.same = self.same.saturating_add(1);
        }
    }

    /// The name of the thread that ran next.
    pub fn next(&self) -> &'static str {
        match self.next {
            0 => "none",
            LOW => "low",
            MIDDLE => "middle",
            _ => "high",
        }
    }
}

/// What was shown when low had locked the mutex, when high began to wait for it, and when low had unlocked it.
#[derive(Clone, Copy)]
pub struct Shown {
    pub locks: Moment,
    pub waits: Moment,
    pub unlocks: Moment,
    /// Whether the call that low has open unlocks.
    is_unlocking: bool,
    /// How many calls were answered.
    pub answered: u64,
}

impl Shown {
    /// Notes what is shown behind an event that was answered so: with which priority low runs, and which thread is to
    /// run next. Only high ever waits. A call of low is answered by 0 if it has locked or unlocked the mutex.
    fn note(&mut self, event: &Event, seen: &Seen, low: u32, next: u32) {
        match (event, seen) {
            (_, Seen::Waits) => self.waits.note(low, next),
            (Event::Begin(thread, request), Seen::Begun) if thread.get() == LOW => {
                self.is_unlocking = matches!(request, Request::Unlock(_));
            }
            (Event::Go(thread), Seen::Answered(0)) if thread.get() == LOW => {
                if self.is_unlocking {
                    self.unlocks.note(low, next);
                } else {
                    self.locks.note(low, next);
                }
            }
            _ => {}
        }
    }
}

/// The priority with which low, the first thread, runs; 0 if there is none.
fn level_of(core: &Core) -> u32 {
    match core.effective(Tid::default()) {
        Some(prio) => prio.get(),
        None => 0,
    }
}

/// The number of the thread that runs next; 0 if there is none.
fn next_of(core: &Core) -> u32 {
    match core.pick() {
        Some(thread) => thread.get(),
        None => 0,
    }
}

/// The core makes this event. Answers whether it answered so. What the core promises of it is not handed on.
fn answers(core: &mut Core, event: &Event, seen: &Seen) -> bool {
    core.step(*event) == *seen
}

/// The core makes this event, and what it then shows is noted. False if it answers otherwise.
fn show_step(core: &mut Core, event: &Event, seen: &Seen, shown: &mut Shown) -> bool {
    let same = answers(core, event, seen);
    shown.note(event, seen, level_of(core), next_of(core));
    same
}

/// The core does an entry of a journal again. False if it answers otherwise.
fn show_entry(core: &mut Core, entry: &Entry, shown: &mut Shown) -> bool {
    match entry {
        Entry::Thread(thread, prio) => core.add_thread(prio.get()) == Ok(*thread),
        Entry::Mutex(mutex, kind, robust) => core.add_mutex(*kind, *robust) == Ok(*mutex),
        Entry::Cond(variable, mutex) => core.add_cond(*mutex) == Ok(*variable),
        Entry::Step(event, seen) => show_step(core, event, seen, shown),
    }
}

/// Notes what this core shows, which does these entries again. False if it answers otherwise.
fn show_entries(core: &mut Core, entries: &[Entry], shown: &mut Shown) -> bool {
    for entry in entries {
        if !show_entry(core, entry, shown) {
            return false;
        }
    }
    true
}

/// What a core shows that does the entries of a book again, and how many calls were answered.
pub fn shown_by(alloc: Global, book: &Book) -> Result<Shown, Failure> {
    let mut shown = Shown {
        locks: NOT_COME,
        waits: NOT_COME,
        unlocks: NOT_COME,
        is_unlocking: false,
        answered: book.answered,
    };
    match Core::new(alloc, book.limits) {
        Ok(mut core) => {
            if show_entries(&mut core, book.entries.as_slice(), &mut shown) {
                Ok(shown)
            } else {
                Err(Failure::Differs)
            }
        }
        Err(_) => Err(Failure::Desk(DeskFault::NoMemory)),
    }
}
