//! What a benchmark has measured, and how it is printed.
use crate::desk::{measure_core, measure_desk};
use crate::layers::{Layer, depth_of, picoseconds_of};
use crate::names::Benchmark;
use crate::quick::{
    BarePairs, Hundredths, Medians, Pairs, Words, measure_bare, measure_pairs, measure_turns, ratio,
};
use std::io;
use std::rt::Clock;
use std::sync::Wait;
use std::thread::Threads;

/// What was measured.
#[derive(Clone, Copy)]
pub enum Report {
    /// The nanoseconds that a layer took.
    Layer(Layered),
    /// The three ways of a pair.
    Pairs(Pairs),
    /// The turns of so many threads on words.
    Turns(Words, u32, Medians),
    /// How many thousand events there were a second.
    Events(u64),
}

/// What a layer took, in nanoseconds, and pairs of bare compare-exchanges of the same run. It went along a chain of so
/// many threads, or along none if that is 0.
#[derive(Clone, Copy)]
pub struct Layered {
    nanoseconds: u64,
    depth: u32,
    bare: BarePairs,
}

/// Measures a layer, and then bare pairs.
fn measure_layer(rt: &(impl Clock + AllocGlobal), layer: Layer) -> Option<Layered> {
    let picoseconds = picoseconds_of(rt, layer)?;
    let bare = measure_bare(rt)?;
    Some(Layered {
        nanoseconds: picoseconds / 1000,
        depth: depth_of(layer),
        bare,
    })
}

/// Runs a benchmark. `None` if memory is refused, a thread can't be started, the clock has a fault, or a desk doesn't
/// settle.
pub fn report_of<R: Clock + Threads + Wait + Sync + AllocGlobal>(
    rt: &R,
    benchmark: Benchmark,
) -> Option<Report> {
    match benchmark {
        Benchmark::Layer(layer) => measure_layer(rt, layer).map(Report::Layer),
        Benchmark::Pairs => measure_pairs(rt).map(Report::Pairs),
        Benchmark::Turns(words, threads) => match measure_turns(rt, words, threads) {
            Some(medians) => Some(Report::Turns(words, threads, medians)),
            None => None,
        },
        Benchmark::Core => measure_core(rt).map(Report::Events),
        Benchmark::Desk(mutexes, threads) => measure_desk(rt, mutexes, threads).map(Report::Events),
    }
}

/// Prints a report, under the name of its benchmark or of what was measured.
pub fn print(rt: &impl Print, name: &str, report: &Report) -> io::Result<()> {
    match report {
        Report::Layer(layered) => print_layer(rt, name, layered),
        Report::Pairs(pairs) => print_pairs(rt, pairs),
        Report::Turns(words, threads, medians) => print_turns(rt, *threads, words.name(), medians),
        Report::Events(thousands) => println!(rt; "{name}: {thousands} thousand events a second"),
    }
}

/// Prints what a layer took, and how many bare pairs that is, of a chain for each hop.
fn print_layer(rt: &impl Print, name: &str, layered: &Layered) -> io::Result<()> {
    let (nanoseconds, depth) = (layered.nanoseconds, layered.depth);
    let BarePairs { pair, added } = layered.bare;
    let hop = nanoseconds.saturating_mul(1000) / u64::from(depth.max(1));
    let pairs = Hundredths(ratio(hop, pair));
    if depth == 0 {
        println!(rt;
            "{name}: {nanoseconds} ns\n{name}: {pairs} bare pairs of {pair} ps; added {added}"
        )
    } else {
        println!(rt;
            "{name}: {nanoseconds} ns\n{name}: {hop} ps a hop, {pairs} bare pairs of {pair} ps; added {added}"
        )
    }
}

/// Prints what a pair took in each of the three ways.
fn print_pairs(rt: &impl Print, pairs: &Pairs) -> io::Result<()> {
    let Medians {
        quick,
        other: bare,
        ratio: to_bare,
        ..
    } = pairs.to_bare;
    let Medians {
        other: mutex,
        ratio: to_mutex,
        ..
    } = pairs.to_mutex;
    let added = pairs.added;
    println!(rt;
        "pairs: quick {quick} ps, bare {bare} ps, Mutex {mutex} ps, added {added}\n\
        pairs: quick to bare {to_bare}, quick to Mutex {to_mutex}"
    )
}

/// Prints how many thousand turns threads took a second.
fn print_turns(rt: &impl Print, threads: u32, words: &str, medians: &Medians) -> io::Result<()> {
    let Medians {
        quick,
        other,
        ratio,
        least,
    } = *medians;
    println!(rt;
        "{threads} threads, {words}: quick {quick}, Mutex {other} thousand turns a second\n\
        {threads} threads, {words}: quick to Mutex {ratio}, least {least}"
    )
}
