//! `drive`: what a drive of clients in threads of their own comes to, as a line.
ghost use Rattle.std.specs.Prelude.{◌≡◌, ◌++◌, ◌∷◌, [], codes, decimal};
ghost use Rattle.pif_cli.specs.Driving.{Drives, SaysSo, WritesLine};

use arrayvec::ArrayVec;
use itoa::Buffer;
use pif_cli_messages::JobFault;
use pif_desk::NoPause;
use pif_job_drive::{DriveFault, drive_book};
use pif_script::{CliFault, write_whole};
use std::alloc::Global;
use std::io::Write;
use std::sync::Wait;
use std::thread::Threads;

/// Room for the line of the calls that were answered.
const LINE_ROOM: usize = 40;

/// The line of so many answered calls.
fn answered_line(answered: u64) -> ArrayVec<u8, LINE_ROOM>
    ensures { result.items ≡ codes "answered " ++ decimal answered ++ 10 ∷ [] }
{
    let mut line = ArrayVec::new();
    let mut buffer = Buffer::new();
    let _ = line.try_extend_from_slice(b"answered ");
    let _ = line.try_extend_from_slice(buffer.format(answered).as_bytes());
    let _ = line.try_extend_from_slice(b"\n");
    line
}

/// Writes a line, and answers `fault`; or `Write` if the line can't be written.
fn say<W: Write>(output: &mut W, line: &str, fault: JobFault) -> Result<(), JobFault>
    ensures { SaysSo (W.contents output.old) (W.contents output.new) line.now fault result }
{
    match write_whole(output, line.as_bytes()) {
        Ok(()) => Err(fault),
        Err(_) => Err(JobFault::Cli(CliFault::Write)),
    }
}

/// `pif drive`: so many clients, of the priorities from 1, each in a thread of its own, lock and unlock one mutex,
/// which is errorcheck and robust, 100 times each. Once all threads have ended the desk settles with the clients, and
/// the number of calls that were answered is written, in a line.
///
/// # Errors
///
/// `Threads` if a thread could not be started, and `Unsettled` if the desk didn't settle, each written in a line.
/// `Cli(NoMemory)`, with nothing written, if memory was refused; a client that meets that ends, so that the others go
/// on. `Cli(Write)` if the line can't be written.
pub fn drive<R: Threads + Wait + Sync, W: Write>(
    alloc: Global,
    rt: &R,
    clients: u32,
    output: &mut W,
) -> Result<(), JobFault>
    ensures { Drives clients (W.contents output.old) (W.contents output.new) result }
{
    match drive_book(alloc, rt, clients, NoPause) {
        Ok(book) => write_count(output, book.answered),
        Err(DriveFault::NoMemory) => Err(JobFault::Cli(CliFault::NoMemory)),
        Err(DriveFault::Threads) => say(output, "fault threads\n", JobFault::Threads),
        Err(DriveFault::Unsettled) => say(output, "unsettled\n", JobFault::Unsettled),
    }
}

/// Writes the line of so many answered calls.
fn write_count<W: Write>(output: &mut W, answered: u64) -> Result<(), JobFault>
    ensures { WritesLine (W.contents output.old) (W.contents output.new) (codes "answered " ++ decimal answered ++ 10 ∷ []) result }
{
    match write_whole(output, answered_line(answered).as_slice()) {
        Ok(()) => Ok(()),
        Err(_) => Err(JobFault::Cli(CliFault::Write)),
    }
}
