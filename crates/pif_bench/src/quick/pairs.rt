//! Lock and unlock by one thread, with an addition on the value between.
ghost use Rattle.std.specs.Prelude.{◌≡◌, ◌<◌, All};
ghost use Rattle.pif_quick.specs.Quick.{word_count, IsPassOf};

use super::figures::{Medians, ROUNDS, compare, median};
use crate::moments::{now, picoseconds_each};
use pif_quick::{Pass, Quick};
use std::rt::Clock;
use std::sync::atomic::{AtomicU64, Ordering};
use std::sync::{Mutex, Wait};

/// How many pairs a round takes.
const PAIRS: u32 = 100_000;

/// Two bare compare-exchanges.
fn bare_pairs(word: &AtomicU64, value: &mut u64) {
    for _ in 0..PAIRS {
        if word
            .compare_exchange(0, 1, Ordering::SeqCst, Ordering::SeqCst)
            .is_ok()
        {
            *value = value.wrapping_add(1);
            let _ = word.compare_exchange(1, 0, Ordering::SeqCst, Ordering::SeqCst);
        }
    }
}

/// `try_lock` and `unlock_quiet`.
fn quick_pairs(quick: &Quick<u64>, pass: &mut Pass<u64>)
    requires { IsPassOf quick.now pass.old × (0 < word_count quick.now) }
    ensures { IsPassOf quick.now pass.new }
{
    for _ in 0..PAIRS {
        if let Some(mut held) = quick.try_lock(pass, 0) {
            let value = held.value_mut();
            *value = value.wrapping_add(1);
            let _ = quick.unlock_quiet(pass, held);
        }
    }
}

/// `Mutex::lock`, and the end of its guard.
fn mutex_pairs<R: Wait>(rt: &R, mutex: &Mutex<u64>) {
    for _ in 0..PAIRS {
        let mut value = mutex.lock(rt);
        *value = value.wrapping_add(1);
    }
}

/// How many picoseconds a bare pair takes.
fn time_bare(rt: &impl Clock, word: &AtomicU64, value: &mut u64) -> Option<u64> {
    let start = now(rt);
    bare_pairs(word, value);
    picoseconds_each(rt, start, PAIRS)
}

/// How many picoseconds a pair of the quick path takes.
fn time_quick(rt: &impl Clock, quick: &Quick<u64>, pass: &mut Pass<u64>) -> Option<u64>
    requires { IsPassOf quick.now pass.old × (0 < word_count quick.now) }
    ensures { IsPassOf quick.now pass.new }
{
    let start = now(rt);
    quick_pairs(quick, pass);
    picoseconds_each(rt, start, PAIRS)
}

/// How many picoseconds a pair of std's `Mutex` takes.
fn time_mutex<R: Clock + Wait>(rt: &R, mutex: &Mutex<u64>) -> Option<u64> {
    let start = now(rt);
    mutex_pairs(rt, mutex);
    picoseconds_each(rt, start, PAIRS)
}

/// Pairs of bare compare-exchanges: the median of what one takes in picoseconds, and what all of them added.
#[derive(Clone, Copy)]
pub struct BarePairs {
    pub pair: u64,
    pub added: u64,
}

/// Measures pairs of bare compare-exchanges. `None` if the clock has a fault.
pub fn measure_bare(rt: &impl Clock) -> Option<BarePairs> {
    let word = AtomicU64::new(0);
    let mut added = 0u64;
    let mut bare = [0; ROUNDS];
    for round in 0..ROUNDS {
        bare[round] = time_bare(rt, &word, &mut added)?;
    }
    Some(BarePairs {
        pair: median(&bare),
        added,
    })
}

/// What was measured of the three ways, and what the bare pairs added.
#[derive(Clone, Copy)]
pub struct Pairs {
    pub to_bare: Medians,
    pub to_mutex: Medians,
    pub added: u64,
}

/// Measures the three ways in turn. `None` if memory is refused or the clock has a fault.
pub fn measure_pairs<R: Clock + Wait + AllocGlobal>(rt: &R) -> Option<Pairs> {
    let values = [0u64].to_vec(rt.alloc()).ok()?;
    match Quick::open(rt.alloc(), values, 1) {
        Ok((quick, mut passes)) => measure_last(rt, &quick, &mut passes),
        Err(_) => None,
    }
}

/// Measures with the last of these passes.
fn measure_last<R: Clock + Wait>(
    rt: &R,
    quick: &Quick<u64>,
    passes: &mut Vec<Pass<u64>>,
) -> Option<Pairs>
    requires { All (IsPassOf quick.now) passes.old.items × (0 < word_count quick.now) }
{
    match passes.pop() {
        Some(mut pass) => measure_by(rt, quick, &mut pass),
        None => None,
    }
}

/// Measures with this pass.
fn measure_by<R: Clock + Wait>(rt: &R, quick: &Quick<u64>, pass: &mut Pass<u64>) -> Option<Pairs>
    requires { IsPassOf quick.now pass.old × (0 < word_count quick.now) }
{
    let (word, mutex) = (AtomicU64::new(0), Mutex::new(0));
    let mut added = 0u64;
    let [mut bare, mut tried, mut locked] = [[0; ROUNDS]; 3];
    for round in 0..ROUNDS {
        bare[round] = time_bare(rt, &word, &mut added)?;
        tried[round] = time_quick(rt, quick, pass)?;
        locked[round] = time_mutex(rt, &mutex)?;
    }
    Some(Pairs {
        to_bare: compare(&tried, &bare),
        to_mutex: compare(&tried, &locked),
        added,
    })
}
