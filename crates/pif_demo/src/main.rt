//! Demonstrations: `pif_demo first` is a first program over a core, `pif_demo boost` shows priority inheritance among
//! real threads at a desk, `pif_demo tally` a sum of two threads by the quick path, and `pif_demo` one after the other.
#![tactic(auto)]

mod boost;
mod first;
mod tally;

use anyhow::{Error, Result};
use std::alloc::Global;
use std::process::ExitCode;
use std::rt::Env;
use std::sync::Wait;
use std::thread::Threads;
use std::{env, io};

/// The status if the words name no demonstration.
const REFUSED: u8 = 1;

/// What was printed, or the error with which the program ends.
fn printed(done: io::Result<()>) -> Result<()> {
    match done {
        Ok(()) => Ok(()),
        Err(error) => Err(Error::from(error)),
    }
}

/// A demonstration.
#[derive(Clone, Copy)]
enum Demonstration {
    First,
    Boost,
    Tally,
}

/// The demonstrations by their names, in the order in which all are shown.
static DEMONSTRATIONS: [(&str, Demonstration); 3] = [
    ("first", Demonstration::First),
    ("boost", Demonstration::Boost),
    ("tally", Demonstration::Tally),
];

/// The demonstration of this name.
fn demonstration_of(name: &str) -> Option<Demonstration> {
    for (known, demonstration) in &DEMONSTRATIONS {
        if *known == name {
            return Some(*demonstration);
        }
    }
    None
}

/// Shows a demonstration.
fn show<R: Threads + Wait + Sync + Print>(
    rt: &R,
    alloc: Global,
    demonstration: Demonstration,
) -> Result<()> {
    match demonstration {
        Demonstration::First => printed(first::show(rt, alloc)),
        Demonstration::Boost => boost::show(rt, alloc),
        Demonstration::Tally => printed(tally::show(rt, alloc)),
    }
}

/// Shows all demonstrations, one after the other.
fn show_all<R: Threads + Wait + Sync + Print>(rt: &R, alloc: Global) -> Result<()> {
    for (_, demonstration) in &DEMONSTRATIONS {
        show(rt, alloc, *demonstration)?;
    }
    Ok(())
}

/// Says that no demonstration has this name.
fn refuse(rt: &impl Eprint, name: &str) -> io::Result<()> {
    eprintln!(rt; "no demonstration {name}; there are first, boost and tally")
}

/// Ends with this status if all was shown or said.
fn ends(done: Result<()>, status: u8) -> Result<u8> {
    match done {
        Ok(()) => Ok(status),
        Err(error) => Err(error),
    }
}

/// Shows the demonstration of this name. Answers the status.
fn show_named<R: Threads + Wait + Sync + Print + Eprint>(
    rt: &R,
    alloc: Global,
    name: &str,
) -> Result<u8> {
    match demonstration_of(name) {
        Some(demonstration) => ends(show(rt, alloc, demonstration), 0),
        None => ends(printed(refuse(rt, name)), REFUSED),
    }
}

/// Does what the words ask for, of which the first is the program's name. Answers the status.
fn run<R: Threads + Wait + Sync + Print + Eprint>(
    rt: &R,
    alloc: Global,
    words: &[String],
) -> Result<u8> {
    match words.get(1) {
        Some(name) => show_named(rt, alloc, name.as_str()),
        None => ends(show_all(rt, alloc), 0),
    }
}

/// The words of the process.
fn words_of<R: Env + AllocGlobal>(rt: &R) -> Result<Vec<String>> {
    Ok(env::args(rt)?.collect(rt.alloc())?)
}

fn main(rt: HostRuntime) -> Result<ExitCode> {
    let words = words_of(&rt)?;
    let status = run(&rt, rt.alloc(), words.as_slice())?;
    Ok(ExitCode::from(status))
}
