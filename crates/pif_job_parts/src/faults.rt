ghost use Rattle.std.specs.Prelude.{◌≡◌};
ghost use Rattle.pif_script_model.specs.declared.faults.CliFault.TheVariants.{NoMemory};

use pif_script_model::CliFault;
use pif_search::Stop;

/// Why a history was not split, or was not found to be legal by the verdicts on its parts.
#[derive(Clone, Copy)]
pub enum PartsFault {
    /// A fault as of scripts. `Differs` names the line of the history, from 1, up to which there is no run.
    Cli(CliFault),
    /// The history that was to be split allows rules.
    Rules,
    /// The line of this number, from 1, of the history that was to be split adds a mutex of PTHREAD_PRIO_NONE, or is
    /// `process`, `halted` or `resumed`.
    Uncut(u64),
    /// The line of this number, from 1, of the index can't stand there.
    Index(u64),
    /// The line of this number, from 1, of the verdicts is none on a part of the index, or another than one before it.
    Foreign(u64),
    /// There is no verdict on the part of this number, from 1.
    Missing(u64),
    /// At the line of this number, from 1, of the history the search was given up.
    Undecided(u64),
    /// The history is legal, and begins no call, so that nothing was judged.
    NoCall,
    /// The line of this number, from 1, of the history is a mistake of the log.
    Log(u64),
}

/// The fault if memory is refused.
pub const NO_MEMORY: PartsFault = PartsFault::Cli(CliFault::NoMemory);

/// How it ends if cutting has stopped: that memory was refused. No history of a size that can be read has a number too
/// great for a state.
pub fn fault_of(stop: Stop) -> PartsFault
    ensures { result ≡ PartsFault.Cli NoMemory }
{
    match stop {
        Stop::NoMemory | Stop::Range | Stop::Many => PartsFault::Cli(CliFault::NoMemory),
    }
}
