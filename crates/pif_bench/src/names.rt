//! The benchmarks by their names.
use crate::desk::Mutexes;
use crate::layers::{Layer, Priorities, Room, Scene};
use crate::quick::Words;
use std::io;

/// A benchmark.
#[derive(Clone, Copy)]
pub enum Benchmark {
    /// What a single layer takes, in nanoseconds.
    Layer(Layer),
    /// One thread locks and unlocks a word by the quick path, and by what that is compared with, in turn.
    Pairs,
    /// So many threads, 1 to 64, take turns on words by the quick path, and by what that is compared with, in turn.
    Turns(Words, u32),
    /// Events of one thread on a core, without a desk.
    Core,
    /// Events of so many threads at a desk.
    Desk(Mutexes, u32),
}

/// A benchmark of threads on a core with no more room than they need.
macro_rules! tight {
    ($($scene:tt)*) => {
        Benchmark::Layer(Layer::Core(Room::Tight, Scene::$($scene)*))
    };
}

/// A benchmark of threads on a core with the default limits of scripts.
macro_rules! default_limits {
    ($($scene:tt)*) => {
        Benchmark::Layer(Layer::Core(Room::Default, Scene::$($scene)*))
    };
}

/// A benchmark of so many threads that take turns.
macro_rules! turns {
    ($words:tt, $threads:tt) => {
        Benchmark::Turns(Words::$words, $threads)
    };
}

/// A benchmark of so many threads at a desk.
macro_rules! desk {
    ($mutexes:tt, $threads:tt) => {
        Benchmark::Desk(Mutexes::$mutexes, $threads)
    };
}

/// All benchmarks, in the order in which their names are printed.
static BENCHMARKS: [(&str, Benchmark); 49] = [
    (
        "plist_equal",
        Benchmark::Layer(Layer::Lists(Priorities::Equal)),
    ),
    (
        "plist_distinct",
        Benchmark::Layer(Layer::Lists(Priorities::Distinct)),
    ),
    ("new_core", Benchmark::Layer(Layer::NewCore)),
    ("hand_over", tight!(HandOver)),
    ("hand_over_default_limits", default_limits!(HandOver)),
    ("hand_over_kernel", tight!(KernelStep)),
    ("contended_round", tight!(Round)),
    ("contended_round_default_limits", default_limits!(Round)),
    ("queue_random_1000", tight!(QueueRandom)),
    ("last_lock_10", tight!(LastLock(10))),
    ("last_lock_100", tight!(LastLock(100))),
    ("last_lock_1000", tight!(LastLock(1000))),
    ("setprio_10", tight!(NewPriority(10))),
    ("setprio_100", tight!(NewPriority(100))),
    ("setprio_1000", tight!(NewPriority(1000))),
    ("stalled_pair", tight!(Pair(false))),
    ("robust_pair", tight!(Pair(true))),
    ("end_1", tight!(End(1, false))),
    ("end_10", tight!(End(10, false))),
    ("end_100", tight!(End(100, false))),
    ("end_1000", tight!(End(1000, false))),
    ("end_contended_10", tight!(End(10, true))),
    ("end_contended_100", tight!(End(100, true))),
    ("end_contended_1000", tight!(End(1000, true))),
    (
        "end_contended_100_default_limits",
        default_limits!(End(100, true)),
    ),
    ("wait_and_signal_1", tight!(WaitAndSignal(1))),
    ("wait_and_signal_1000", tight!(WaitAndSignal(1000))),
    ("broadcast_free_10", tight!(Broadcast(10, false))),
    ("broadcast_free_100", tight!(Broadcast(100, false))),
    ("broadcast_free_1000", tight!(Broadcast(1000, false))),
    ("broadcast_held_10", tight!(Broadcast(10, true))),
    ("broadcast_held_100", tight!(Broadcast(100, true))),
    ("broadcast_held_1000", tight!(Broadcast(1000, true))),
    (
        "broadcast_free_100_default_limits",
        default_limits!(Broadcast(100, false)),
    ),
    ("quick_pairs", Benchmark::Pairs),
    ("quick_one_2", turns!(One, 2)),
    ("quick_one_4", turns!(One, 4)),
    ("quick_one_8", turns!(One, 8)),
    ("quick_one_16", turns!(One, 16)),
    ("quick_own_2", turns!(Own, 2)),
    ("quick_own_4", turns!(Own, 4)),
    ("core_alone", Benchmark::Core),
    ("desk_own_1", desk!(Own, 1)),
    ("desk_own_2", desk!(Own, 2)),
    ("desk_own_4", desk!(Own, 4)),
    ("desk_own_8", desk!(Own, 8)),
    ("desk_one_2", desk!(One, 2)),
    ("desk_one_4", desk!(One, 4)),
    ("desk_one_8", desk!(One, 8)),
];

/// The benchmark of this name.
pub fn benchmark_of(name: &str) -> Option<Benchmark> {
    for (known, benchmark) in &BENCHMARKS {
        if *known == name {
            return Some(*benchmark);
        }
    }
    None
}

/// Prints the names of all benchmarks, one a line.
pub fn print_names(rt: &impl Print) -> io::Result<()> {
    for (name, _) in &BENCHMARKS {
        println!(rt; "{name}")?;
    }
    Ok(())
}
