ghost use Rattle.std.specs.Prelude.{◌≡◌};
ghost use Rattle.pif_cli_messages.specs.Statuses.{fault_status, is_output, job_fault_status, parts_status};

use crate::parts::InParts;
use pif_script::CliFault;
use pif_story::Note;

/// Why a job was not done.
#[derive(Clone, Copy)]
pub enum JobFault {
    /// A fault of the script or trace, a read or a write that failed, or out of memory.
    Cli(CliFault),
    /// A thread could not be started.
    Threads,
    /// The desk didn't settle with its clients.
    Unsettled,
    /// At the line of this number, from 1, the search for a run of a history was given up; or a program has more states
    /// than may be kept, and then it is line 1.
    Undecided(u64),
    /// At the line of this number, from 1, no run shows a history, or the search was given up, and POSIX allows it.
    PosixAllows(u64),
    /// A program was to be played on the core, which has no mutex as this one: of PTHREAD_PRIO_NONE.
    NotOnCore(u32),
    /// At the line of this number, from 1, a call begins whose behaviour POSIX may leave undefined, and POSIX forbids the
    /// history from a later line on.
    PosixUndefined(u64),
    /// A history is legal and begins no call, so that nothing was judged.
    NoCall,
    /// The line of this number, from 1, of a history is a mistake of the log. If it names or asks for what isn't there,
    /// that may be noted.
    Mistake(u64, Option<Note>),
    /// A fault of a program is reported, and none was to be.
    Faulty,
    /// A history is not written in parts, or the verdicts on its parts are not joined.
    Parts(InParts),
}

/// The status of the program after this fault of a job: 5 if a fault of a program is reported and none was to be, 6 if a
/// thread could not be started, or the desk didn't settle, 7 if a history was not decided or begins no call, or not all
/// states of a program were found, 8 if POSIX allows what the machine doesn't, 9 if it may leave it undefined, and 10 for
/// a mistake of a log. It is 2 for a program that the core can't play.
pub fn job_fault_status(fault: JobFault) -> u8
    ensures { result ≡ job_fault_status fault }
{
    match fault {
        JobFault::Cli(fault) => fault_status(fault),
        JobFault::Threads | JobFault::Unsettled => 6,
        JobFault::Undecided(_) | JobFault::NoCall => 7,
        JobFault::PosixAllows(_) => 8,
        JobFault::PosixUndefined(_) => 9,
        JobFault::Mistake(_, _) => 10,
        JobFault::NotOnCore(_) => 2,
        JobFault::Faulty => 5,
        JobFault::Parts(fault) => parts_status(fault),
    }
}

/// The status of the program after this fault of parts: 3 if a file of theirs can't be read or written, and else 2.
fn parts_status(fault: InParts) -> u8
    ensures { result ≡ parts_status fault }
{
    match fault {
        InParts::File => 3,
        _ => 2,
    }
}

/// The status of the program after this fault: 2 for a fault of the script, trace, history or program, 3 for a read or a
/// write that failed, and 4 for out of memory. It is 5 for a difference, an illegal history or a broken claim.
pub fn fault_status(fault: CliFault) -> u8
    ensures { result ≡ fault_status fault }
{
    match fault {
        CliFault::Script(..) => 2,
        CliFault::Read | CliFault::Write => 3,
        CliFault::NoMemory => 4,
        CliFault::Differs(_) => 5,
    }
}

/// Whether this fault is that a write to the output has failed.
pub fn is_output(fault: JobFault) -> bool
    ensures { result ≡ is_output fault }
{
    match fault {
        JobFault::Cli(CliFault::Write) => true,
        _ => false,
    }
}
