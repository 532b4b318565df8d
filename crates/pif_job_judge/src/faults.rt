ghost use Rattle.std.specs.Prelude.{◌≡◌};
ghost use Rattle.pif_script_model.specs.declared.faults.CliFault.TheVariants.{NoMemory};
ghost use Rattle.pif_job_judge.specs.Endings.{legal_end, result_of};

use pif_script_model::CliFault;
use pif_search::Stop;
use pif_story::Note;

/// Why a history was not found to be legal.
#[derive(Clone, Copy)]
pub enum JudgeFault {
    /// A fault as of scripts. `Differs` names the line, from 1, up to which there is no run.
    Cli(CliFault),
    /// At the line of this number, from 1, the search was given up.
    Undecided(u64),
    /// At the line of this number, from 1, there is no run, or the search was given up, and POSIX allows the history.
    PosixAllows(u64),
    /// At the line of this number, from 1, a call begins whose behaviour POSIX leaves undefined, in some run. POSIX
    /// forbids the history at a later line.
    PosixUndefined(u64),
    /// It is legal, and begins no call, so that nothing was judged.
    NoCall,
    /// The line of this number, from 1, is a mistake of the log: the lines before it are legal, and refuse it. If it names
    /// or asks for what isn't there, that is noted.
    Log(u64, Option<Note>),
}

/// What was told of a history.
#[derive(Clone, Copy)]
pub enum Ended {
    /// It is legal, and begins a call.
    Legal,
    /// It is legal, and begins none.
    NoCall,
    /// Up to the line of this number, from 1, there is no run.
    Illegal(u64),
    /// At the line of this number, from 1, the search was given up.
    Undecided(u64),
    /// At the line of this number, from 1, there is no run, or the search was given up, and POSIX allows the history.
    PosixAllows(u64),
    /// At the line of this number, from 1, a call begins whose behaviour POSIX leaves undefined.
    PosixUndefined(u64),
    /// The line of this number, from 1, is a mistake of the log. If it names or asks for what isn't there, that is noted.
    Log(u64, Option<Note>),
}

impl Ended {
    /// What was told of a legal history that begins so many calls.
    pub fn of_legal(calls: usize) -> Ended
        ensures { result ≡ legal_end calls }
    {
        if calls == 0 {
            Ended::NoCall
        } else {
            Ended::Legal
        }
    }

    /// How judging ends once this was told.
    pub fn as_result(self) -> Result<(), JudgeFault>
        ensures { result ≡ result_of self }
    {
        match self {
            Ended::Legal => Ok(()),
            Ended::NoCall => Err(JudgeFault::NoCall),
            Ended::Illegal(line) => Err(JudgeFault::Cli(CliFault::Differs(line))),
            Ended::Undecided(line) => Err(JudgeFault::Undecided(line)),
            Ended::PosixAllows(line) => Err(JudgeFault::PosixAllows(line)),
            Ended::PosixUndefined(line) => Err(JudgeFault::PosixUndefined(line)),
            Ended::Log(line, note) => Err(JudgeFault::Log(line, note)),
        }
    }
}

/// How judging ends if a search gives no answer: out of memory. No history of a size that can be read has a number too
/// great for a state. And that each way to tell a run comes to a step of more states than are made at once ends as if
/// they didn't fit into memory.
pub fn fault_of(stop: Stop) -> JudgeFault
    ensures { result ≡ JudgeFault.Cli NoMemory }
{
    match stop {
        Stop::NoMemory | Stop::Range | Stop::Many => JudgeFault::Cli(CliFault::NoMemory),
    }
}
