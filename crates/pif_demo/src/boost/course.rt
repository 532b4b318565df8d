use super::Failure;
use pif_desk::{Pause, Seen};
use pif_types::Tid;
use std::sync::atomic::{AtomicBool, AtomicU64, Ordering};
use std::sync::{Mutex, Wait};
use std::thread::yield_now;

/// How far the threads are.
#[derive(Drop)]
pub struct Course {
    /// How often low has got the mutex.
    held: AtomicU64,
    /// How often a thread was answered that it waits.
    waited: AtomicU64,
    /// How many parts of rounds middle and high have done.
    done: AtomicU64,
    /// Whether a thread has met a fault, or could not be started.
    stopped: AtomicBool,
    /// What the first of these failures was.
    failure: Mutex<Option<Failure>>,
}

impl Course {
    /// No thread has done anything.
    pub fn new() -> Course {
        Course {
            held: AtomicU64::new(0),
            waited: AtomicU64::new(0),
            done: AtomicU64::new(0),
            stopped: AtomicBool::new(false),
            failure: Mutex::new(None),
        }
    }

    /// Notes a failure, unless there was one before, and lets all threads end.
    pub fn fail<R: Wait>(&self, rt: &R, failure: Failure) {
        let mut first = self.failure.lock(rt);
        if first.is_none() {
            *first = Some(failure);
        }
        self.stopped.store(true, Ordering::SeqCst);
    }

    /// Whether there was a failure, once all threads have ended, and which was the first.
    pub fn outcome<R: Wait>(&self, rt: &R) -> Result<(), Failure> {
        match *self.failure.lock(rt) {
            None => Ok(()),
            Some(failure) => Err(failure),
        }
    }

    /// Low waits until middle and high have done all rounds before this one, and they wait until low holds the mutex in
    /// it; false if the threads are to end.
    pub fn begins<R: Wait>(&self, rt: &R, low: bool, round: u32) -> bool {
        if low {
            self.comes_to(rt, &self.done, 2 * u64::from(round))
        } else {
            self.comes_to(rt, &self.held, u64::from(round) + 1)
        }
    }

    /// Low has got the mutex in this round, and waits until high waits for it, or the threads are to end.
    pub fn hold<R: Wait>(&self, rt: &R, round: u32) {
        self.held.fetch_add(1, Ordering::SeqCst);
        self.comes_to(rt, &self.waited, u64::from(round) + 1);
    }

    /// Middle or high has done its part of a round.
    pub fn end_part(&self) {
        self.done.fetch_add(1, Ordering::SeqCst);
    }

    /// Waits until a counter has come so far; false if the threads are to end.
    fn comes_to<R: Wait>(&self, rt: &R, counter: &AtomicU64, count: u64) -> bool {
        for _ in rt.forever() {
            if counter.load(Ordering::SeqCst) >= count {
                return true;
            }
            if self.stopped.load(Ordering::SeqCst) {
                return false;
            }
            yield_now();
        }
        unreachable!()
    }
}

/// Notes in a course that a thread waits.
#[derive(Drop)]
pub struct WaitCounter<'a> {
    pub course: &'a Course,
}

impl<'a> Pause for WaitCounter<'a> {
    fn after(&self, _t: Tid, seen: Seen) {
        if let Seen::Waits = seen {
            self.course.waited.fetch_add(1, Ordering::SeqCst);
        }
    }
}
