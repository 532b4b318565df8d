ghost use Rattle.std.specs.Prelude.{◌≡◌, None, Result};
ghost use Rattle.pif_job_explore.specs.Exploring.{ExploresTo};
ghost use Rattle.pif_c.specs.Explores.{explored_number, exploring_of};
ghost use Rattle.pif_c.specs.Texts.{HandsOut, Wholly};

use crate::texts::{PifText, fault_number, hand_out};
use pif_c_numbers::codes::{FAULT, UNDECIDED, WHOLE};
use pif_job_explore::{ExploreFault, Exploring, Form, Lines, WatchStates};
use std::alloc::Global;

/// Nobody is told how far it has come.
#[derive(Drop)]
struct Unwatched;

impl WatchStates for Unwatched {
    fn found(&mut self, _states: usize, _steps: usize) {}

    fn goes_on(&mut self) -> bool {
        true
    }
}

/// The number of how exploring ended. No program that is explored here is played on the core, which may lack its mutexes,
/// and each may have faults.
fn explored_number(done: Result<(), ExploreFault>) -> u32
    ensures { result ≡ explored_number done }
{
    match done {
        Ok(()) => WHOLE,
        Err(ExploreFault::Cli(fault)) => fault_number(fault),
        Err(ExploreFault::Undecided) => UNDECIDED,
        Err(ExploreFault::NotOnCore(_) | ExploreFault::Faulty) => FAULT,
    }
}

/// How a program is explored, with at most so many states kept, and with a schedule for each outcome if that is asked for.
fn exploring_of(states: u32, witness: bool) -> Exploring
    ensures { result ≡ exploring_of states witness }
{
    Exploring {
        form: Form::Lines(Lines {
            schedules: witness,
            calls: false,
        }),
        answers: true,
        states,
        core: None,
        strict: false,
    }
}

/// Explores a program into memory of its own.
fn explore_whole(
    alloc: Global,
    asked: &Exploring,
    program: &[u8],
) -> (Vec<u8>, Result<(), ExploreFault>)
    ensures { Wholly (ExploresTo asked.now) program.now result.0.items result.1 }
{
    let mut reader = program;
    let mut text = Vec::new(alloc);
    let done = pif_job_explore::explore_text(alloc, asked, &mut reader, &mut text, &mut Unwatched);
    (text, done)
}

/// Explores a small program that locks, with at most so many states kept, and writes what `pif explore` prints, with a
/// schedule for each outcome if that is asked for, to the start of `out`, if there is room for all of it; else `out` stays
/// as it is.
#[unsafe(no_mangle)]
pub extern "C" fn pif_explore(
    alloc: Global,
    program: &[u8],
    states: u32,
    witness: bool,
    out: &mut [u8],
) -> PifText
    ensures { HandsOut (ExploresTo (exploring_of states witness)) explored_number program.now out.old out.new result }
{
    let asked = exploring_of(states, witness);
    let (text, done) = explore_whole(alloc, &asked, program);
    hand_out(&text, explored_number(done), out)
}
