//! The program `pif`: `pif_cli`'s command line over the process's words and its standard streams.
#![tactic(auto)]

use pif_cli::{Input, Output, Progress, Runtime, Status, WatchFiles, WatchJob, command_of_process};
use std::io::{IsTerminal, Read, Write};
use std::rt::{Env, Files};

/// The program over a process, with what it reads, what it writes, and who is told how far it has come.
fn answer<
    P: Env + AllocGlobal + Files + Runtime + Sync,
    R: Read,
    W: Write,
    E: Write,
    V: WatchFiles + WatchJob,
>(
    process: &P,
    is_terminal: bool,
    input: &mut R,
    output: &mut W,
    errors: &mut E,
    watch: &mut V,
) -> Status {
    let (mut input, mut output) = (Input::new(input), Output::new(output));
    command_of_process(process, is_terminal, &mut input, &mut output, errors, watch)
}

fn main(rt: HostRuntime) -> Status {
    let mut input = rt.stdin();
    let mut told = rt.stderr();
    let is_terminal = input.is_terminal();
    let is_watched = told.is_terminal();
    answer(
        &rt,
        is_terminal,
        &mut input,
        &mut rt.stdout(),
        &mut rt.stderr(),
        &mut Progress::new(&rt, is_watched, &mut told),
    )
}
