//! The threads whose clients sleep, and the bells that wake them.
ghost use Rattle.std.specs.Prelude.{◌≡◌, ◌≤◌, ◌↔◌, filter, [], IfOk, IsSome, vec_len, vec_capacity};
ghost use Rattle.pif_model.specs.PiKernel.{is_among};
ghost use Rattle.pif_desk.specs.Sleeping.{rests_in, with_sleeper};

use crate::room::Room;
use pif_types::{NoMemory, Tid, push_within, with_room};
use std::alloc::Global;
use std::marker::Model;
use std::sync::Condvar;

/// The most threads that limits allow.
const MOST: usize = 1024;

/// A bell for each thread that limits allow. A client that sleeps waits for that of its thread.
#[derive(Drop)]
pub(crate) struct Bells {
    bells: Vec<Condvar>,
}

/// Puts the bells of so many threads into a list that is empty, and has room for them.
fn put_bells(bells: &mut Vec<Condvar>, threads: u32)
    requires empty { vec_len bells.old ≡ 0 }
    requires room { threads ≤ vec_capacity bells.old }
    ensures { vec_len bells.new ≡ threads }
{
    for _thread in 0..threads {
        push_within(bells, Condvar::new());
    }
}

impl Bells {
    /// The bells of so many threads.
    pub(crate) fn new(alloc: Global, threads: u32) -> Result<Bells, NoMemory>
        ensures { IfOk result (λ b. vec_len b.bells ≡ threads) }
    {
        let mut bells = with_room(alloc, threads as usize)?;
        put_bells(&mut bells, threads);
        Ok(Bells { bells })
    }

    /// The bell of a thread; `None` if the limits allow no thread of that number.
    pub(crate) fn of(&self, t: Tid) -> Option<&Condvar>
        ensures { IsSome result ↔ (t ≤ vec_len self.now.bells) }
    {
        let place = t.get() as usize - 1;
        if place < self.bells.len() {
            Some(&self.bells[place])
        } else {
            None
        }
    }

    /// Wakes the clients of a thread that sleep.
    fn ring(&self, t: Tid) {
        if let Some(bell) = self.of(t) {
            bell.notify_all();
        }
    }
}

/// The threads whose clients sleep, each once, in the order in which they went to sleep. There is room for every thread
/// that there may be.
#[derive(Drop)]
pub(crate) struct Sleepers {
    threads: Vec<Tid>,
}

impl Model for Sleepers {
    ghost use Rattle.std.specs.Prelude.{ℕ, ◌≤◌, List, vec_capacity};
    ghost use Rattle.pif_desk.specs.Sleeping.{AreSleepers};

    ghost Value = { List ℕ };

    ghost view = { λ s. s.threads.items };

    ghost invariant = { λ s. AreSleepers s.threads.items × (1024 ≤ vec_capacity s.threads) };
}

/// Whether a thread is among these.
fn is_among(threads: &[Tid], thread: Tid) -> bool
    ensures { result ≡ is_among threads.now thread }
{
    threads.iter().any(|t| t.get() == thread.get())
}

/// Whether a thread rests; if not, its clients are woken.
fn stays_asleep(room: &Room, bells: &Bells, t: Tid) -> bool
    ensures { result ≡ rests_in room.now.core t }
{
    let rests = room.is_resting(t);
    if !rests {
        bells.ring(t);
    }
    rests
}

impl Sleepers {
    /// Nobody sleeps.
    pub(crate) fn new(alloc: Global) -> Result<Sleepers, NoMemory>
        ensures { IfOk result (λ s. s ≡ []) }
    {
        let threads = with_room(alloc, MOST)?;
        Ok(Sleepers { threads })
    }

    /// Whether a client of this thread is to sleep.
    pub(crate) fn has(&self, t: Tid) -> bool
        ensures { result ≡ is_among self.now t }
    {
        is_among(self.threads.as_slice(), t)
    }

    /// A client of this thread is to sleep.
    pub(crate) fn add(&mut self, t: Tid)
        requires { t ≤ 1024 }
        ensures { self.new ≡ with_sleeper t self.old }
    {
        if !is_among(self.threads.as_slice(), t) {
            push_within(&mut self.threads, t);
        }
    }

    /// Wakes the clients of those threads that rest no longer in this room, and no others.
    pub(crate) fn wake(&mut self, room: &Room, bells: &Bells)
        ensures { self.new ≡ filter (rests_in room.now.core) self.old }
    {
        self.threads.retain(|t| stays_asleep(room, bells, *t));
    }
}
