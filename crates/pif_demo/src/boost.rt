//! Priority inheritance: three real threads of low, middle and high priority at one desk, of which low and high share a
//! mutex while middle is busy with one of its own. In each round low holds the mutex until high waits for it. Then the
//! journal is done again by a core, step by step, and shows with which priority low ran, and which thread was to run
//! next. Without inheritance that would be middle while high waits, and high would wait for both.
mod course;
mod parts;
mod showing;

use crate::printed;
use anyhow::{Error, Result, anyhow};
use course::Course;
use parts::{PAIRS, run_desk};
use pif_desk::DeskFault;
use showing::{Moment, Shown, shown_by};
use std::alloc::Global;
use std::io;
use std::sync::Wait;
use std::thread::Threads;

/// How many rounds there are.
pub const ROUNDS: u32 = 100;

/// The priorities of low, middle and high.
pub const PRIORITIES: [u32; 3] = [10, 50, 90];

/// Why there is nothing to show.
#[derive(Clone, Copy)]
pub enum Failure {
    /// The limits of the desk are out of range.
    Limits,
    /// A call on the desk was not done, or memory was refused.
    Desk(DeskFault),
    /// A thread can't be started.
    Start,
    /// A thread met a fault.
    Thread(DeskFault),
    /// The desk doesn't settle with its clients.
    Unsettled,
    /// A core answers otherwise than the journal.
    Differs,
}

impl Failure {
    /// The error with which the program ends.
    fn error(self) -> Error {
        let why = match self {
            Failure::Desk(fault) => return Error::from(fault),
            Failure::Thread(fault) => return anyhow!("a thread met a fault: {fault}"),
            Failure::Limits => "these limits are out of range",
            Failure::Start => "a thread cannot be started",
            Failure::Unsettled => "the desk does not settle with its clients",
            Failure::Differs => "a core answers otherwise than the journal",
        };
        anyhow!("{why}")
    }
}

/// Prints what is to be run.
fn print_head<R: Print>(rt: &R) -> io::Result<()> {
    let [low, middle, high] = PRIORITIES;
    println!(rt;
        "low {low}, middle {middle}, high {high}, {ROUNDS} rounds, {PAIRS} pairs of middle in each"
    )
}

/// Prints what is shown of a moment.
fn print_moment<R: Print>(rt: &R, name: &str, moment: &Moment) -> io::Result<()> {
    let (low, next) = (moment.low, moment.next());
    let (same, came) = (moment.same, moment.came);
    println!(rt; "{name}: low runs at {low}, next is {next} ({same} of {came} times)")
}

/// Prints what is shown of all moments, and how many calls were answered.
fn print_all<R: Print>(rt: &R, shown: &Shown) -> io::Result<()> {
    let moments = [
        ("low locks", shown.locks),
        ("high waits", shown.waits),
        ("low unlocks", shown.unlocks),
    ];
    for (name, moment) in &moments {
        print_moment(rt, name, moment)?;
    }
    let answered = shown.answered;
    println!(rt; "{answered} calls answered, as the journal has them")
}

/// Runs the threads. Answers what their book shows.
fn run<R: Threads + Wait + Sync>(rt: &R, alloc: Global) -> Result<Shown, Failure> {
    let course = Course::new();
    match run_desk(rt, alloc, &course) {
        Ok(book) => shown_by(alloc, &book),
        Err(failure) => Err(failure),
    }
}

/// Prints what is to be run, runs the threads, and prints what their book shows.
pub fn show<R: Threads + Wait + Sync + Print>(rt: &R, alloc: Global) -> Result<()> {
    print_head(rt)?;
    match run(rt, alloc) {
        Ok(shown) => printed(print_all(rt, &shown)),
        Err(failure) => Err(failure.error()),
    }
}
