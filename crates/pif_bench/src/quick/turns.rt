//! Turns of several threads, on one word or on words of their own.
ghost use Rattle.std.specs.Prelude.{◌≡◌, ◌<◌, ◌≤◌, All};
ghost use Rattle.pif_quick.specs.Quick.{word_count, IsPassOf};

use super::figures::{Medians, ROUNDS, compare};
use crate::moments::{now, thousands, time_since};
use pif_quick::{Pass, Quick};
use std::alloc::{AllocError, Global};
use std::rt::Clock;
use std::sync::{Mutex, Wait};
use std::thread;
use std::thread::Threads;
use std::time::Instant;

/// How many turns each thread takes.
const TURNS: u32 = 500_000;

/// How many words there are.
const WORDS: usize = 4;

/// Which words the threads take.
#[derive(Clone, Copy)]
pub enum Words {
    /// All the same.
    One,
    /// Each one of its own.
    Own,
}

impl Words {
    /// The word of the thread with this number, from 0.
    fn of(self, thread: usize) -> usize
        ensures { result < 4 }
    {
        match self {
            Words::One => 0,
            Words::Own => thread % WORDS,
        }
    }

    /// How the figures name them.
    pub fn name(self) -> &'static str {
        match self {
            Words::One => "one word",
            Words::Own => "words of their own",
        }
    }
}

/// A mutex on a line of its own.
#[derive(Drop)]
struct Apart {
    mutex: Mutex<u64>,
    room: [u64; 8],
}

/// So many turns by `lock` and `unlock`.
fn quick_turns<R: Wait>(rt: &R, quick: &Quick<u64>, pass: &mut Pass<u64>, m: usize)
    requires { IsPassOf quick.now pass.old × (m < word_count quick.now) }
{
    for _ in 0..TURNS {
        let mut held = quick.lock(rt, pass, m);
        let value = held.value_mut();
        *value = value.wrapping_add(1);
        quick.unlock(rt, pass, held);
    }
}

/// So many turns by std's `Mutex`.
fn mutex_turns<R: Wait>(rt: &R, apart: &Apart) {
    for _ in 0..TURNS {
        let mut value = apart.mutex.lock(rt);
        *value = value.wrapping_add(1);
    }
}

/// How many thousand turns a second so many threads took together since a moment, if they ran.
fn turns_since(rt: &impl Clock, start: Option<Instant>, threads: u32, ran: bool) -> Option<u64> {
    if !ran {
        return None;
    }
    thousands(u64::from(threads) * u64::from(TURNS), time_since(rt, start))
}

/// Each pass takes its turns by the quick path, in a thread of its own: how many thousand they took a second. `None` if
/// memory is refused, a thread can't be started, or the clock has a fault.
fn time_quick<R: Clock + Threads + Wait + Sync>(
    rt: &R,
    quick: &Quick<u64>,
    passes: Vec<Pass<u64>>,
    words: Words,
    threads: u32,
) -> Option<u64>
    requires { All (IsPassOf quick.now) passes.items × (4 ≤ word_count quick.now) }
{
    let start = now(rt);
    let ran = thread::map_vec(
        rt,
        passes,
        &|pass|
            requires { IsPassOf quick.now pass × (4 ≤ word_count quick.now) }
        {
            let mut pass = pass;
            let m = words.of(usize::from(pass.number()));
            quick_turns(rt, quick, &mut pass, m);
        },
    )
    .is_ok();
    turns_since(rt, start, threads, ran)
}

/// So many threads, 1 to 64, take their turns by the quick path: how many thousand they took a second.
fn quick_round<R: Clock + Threads + Wait + Sync + AllocGlobal>(
    rt: &R,
    words: Words,
    threads: u32,
) -> Option<u64> {
    let values = [0u64; WORDS].to_vec(rt.alloc()).ok()?;
    match Quick::open(rt.alloc(), values, threads.clamp(1, 64)) {
        Ok((quick, passes)) => time_quick(rt, &quick, passes, words, threads),
        Err(_) => None,
    }
}

/// The mutexes, each 0.
fn mutexes(alloc: Global) -> Result<Vec<Apart>, AllocError> {
    let mut mutexes = Vec::new(alloc);
    for _ in 0..WORDS {
        mutexes.push(Apart {
            mutex: Mutex::new(0),
            room: [0; 8],
        })?;
    }
    Ok(mutexes)
}

/// So many threads take their turns by these mutexes: how many thousand they took a second. `None` if memory is
/// refused, a thread can't be started, or the clock has a fault.
fn time_mutexes<R: Clock + Threads + Wait + Sync>(
    rt: &R,
    alloc: Global,
    mutexes: &[Apart],
    words: Words,
    threads: u32,
) -> Option<u64> {
    let start = now(rt);
    let ran = thread::map_indices(
        rt,
        alloc,
        threads as usize,
        &|thread| {
            if let Some(apart) = mutexes.get(words.of(thread)) {
                mutex_turns(rt, apart);
            }
        },
    )
    .is_ok();
    turns_since(rt, start, threads, ran)
}

/// So many threads take their turns by std's `Mutex`: how many thousand they took a second.
fn mutex_round<R: Clock + Threads + Wait + Sync + AllocGlobal>(
    rt: &R,
    words: Words,
    threads: u32,
) -> Option<u64> {
    match mutexes(rt.alloc()) {
        Ok(mutexes) => time_mutexes(rt, rt.alloc(), mutexes.as_slice(), words, threads),
        Err(_) => None,
    }
}

/// Measures the turns of so many threads, 1 to 64, by the quick path and by std's `Mutex`, in turn. `None` if memory is
/// refused, a thread can't be started, or the clock has a fault.
pub fn measure_turns<R: Clock + Threads + Wait + Sync + AllocGlobal>(
    rt: &R,
    words: Words,
    threads: u32,
) -> Option<Medians> {
    let [mut tried, mut locked] = [[0; ROUNDS]; 2];
    for round in 0..ROUNDS {
        tried[round] = quick_round(rt, words, threads)?;
        locked[round] = mutex_round(rt, words, threads)?;
    }
    Some(compare(&tried, &locked))
}
