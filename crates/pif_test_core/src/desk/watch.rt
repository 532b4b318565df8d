//! What clients do after each event: it is counted, and thread 1 may be held.
use pif_desk::{Pause, Seen};
use pif_types::Tid;
use std::sync::atomic::{AtomicU32, AtomicUsize, Ordering};
use std::thread::yield_now;

/// How often thread 1, while it is held, looks whether it may go on.
const LOOKS: u32 = 10_000_000;

/// Counts what threads were answered. Holds thread 1 after the first of its events that is answered as said, until a
/// call of another thread was answered.
#[derive(Drop)]
pub(super) struct Watch {
    after: Seen,
    /// Who is refused memory asks again.
    pub(super) asks_again: bool,
    /// How many entries the journal had when its growth was refused.
    pub(super) mark: AtomicUsize,
    pub(super) held: AtomicU32,
    answered: AtomicU32,
    pub(super) waits: AtomicU32,
    pub(super) ends: AtomicU32,
    pub(super) events: AtomicU32,
    pub(super) refused: AtomicU32,
}

impl Watch {
    /// Nothing has happened. Nobody is held after `Ticked`, since no event of a thread is answered so.
    pub(super) fn new(after: Seen, asks_again: bool) -> Watch {
        Watch {
            after,
            asks_again,
            mark: AtomicUsize::new(0),
            held: AtomicU32::new(0),
            answered: AtomicU32::new(0),
            waits: AtomicU32::new(0),
            ends: AtomicU32::new(0),
            events: AtomicU32::new(0),
            refused: AtomicU32::new(0),
        }
    }
}

impl Pause for Watch {
    fn after(&self, t: Tid, seen: Seen) {
        self.events.fetch_add(1, Ordering::SeqCst);
        match seen {
            Seen::Waits => {
                self.waits.fetch_add(1, Ordering::SeqCst);
            }
            Seen::Ended => {
                self.ends.fetch_add(1, Ordering::SeqCst);
            }
            Seen::Refused(_) => {
                self.refused.fetch_add(1, Ordering::SeqCst);
            }
            Seen::Answered(_) if t.get() != 1 => self.answered.store(1, Ordering::SeqCst),
            _ => {}
        }
        if t.get() == 1 && seen == self.after && self.held.fetch_add(1, Ordering::SeqCst) == 0 {
            // It lets others run until a call of another thread was answered.
            for _ in 0..LOOKS {
                if self.answered.load(Ordering::SeqCst) > 0 {
                    return;
                }
                yield_now();
            }
        }
    }
}
