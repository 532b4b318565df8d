//! Benchmarks: `pif_bench NAME` runs one and prints its figures, `pif_bench` prints the names. They measure single
//! layers, the quick path beside bare compare-exchanges and std's `Mutex`, and a desk beside the same calls on a core.
#![tactic(auto)]

mod desk;
mod layers;
mod moments;
mod names;
mod quick;
mod reports;

use anyhow::{Result, bail};
use names::{benchmark_of, print_names};
use reports::{print, report_of};
use std::process::ExitCode;
use std::rt::{Clock, Env};
use std::sync::Wait;
use std::thread::Threads;
use std::{env, io};

/// The status if the words name no benchmark.
const REFUSED: u8 = 1;

/// How the program ends, unless it fails to print.
#[derive(Clone, Copy)]
enum Ending {
    /// Names or figures are printed.
    Printed,
    /// The words name no benchmark.
    Refused,
    /// Nothing was measured.
    Unmeasured,
}

/// Says that no benchmark has this name.
fn refuse(rt: &impl Eprint, name: &str) -> io::Result<()> {
    eprintln!(rt; "no benchmark {name}; with no name its names are printed")
}

/// Ends so if something was printed.
fn ends(printed: io::Result<()>, ending: Ending) -> io::Result<Ending> {
    match printed {
        Ok(()) => Ok(ending),
        Err(error) => Err(error),
    }
}

/// Runs the benchmark of this name, if there is one, and prints its figures.
fn run_named<R: Clock + Threads + Wait + Sync + AllocGlobal + Print + Eprint>(
    rt: &R,
    name: &str,
) -> io::Result<Ending> {
    let Some(benchmark) = benchmark_of(name) else {
        return ends(refuse(rt, name), Ending::Refused);
    };
    match report_of(rt, benchmark) {
        Some(report) => ends(print(rt, name, &report), Ending::Printed),
        None => Ok(Ending::Unmeasured),
    }
}

/// Does what the words ask for, of which the first is the program's name.
fn run<R: Clock + Threads + Wait + Sync + AllocGlobal + Print + Eprint>(
    rt: &R,
    words: &[String],
) -> io::Result<Ending> {
    match words.get(1) {
        Some(name) => run_named(rt, name.as_str()),
        None => ends(print_names(rt), Ending::Printed),
    }
}

/// The words of the process.
fn words_of<R: Env + AllocGlobal>(rt: &R) -> Result<Vec<String>> {
    Ok(env::args(rt)?.collect(rt.alloc())?)
}

fn main(rt: HostRuntime) -> Result<ExitCode> {
    let words = words_of(&rt)?;
    match run(&rt, words.as_slice())? {
        Ending::Printed => Ok(ExitCode::SUCCESS),
        Ending::Refused => Ok(ExitCode::from(REFUSED)),
        Ending::Unmeasured => bail!("nothing was measured"),
    }
}
