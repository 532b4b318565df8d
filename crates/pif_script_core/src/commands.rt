ghost use Rattle.pif_script_model.specs.Running.{IsDone, outcome_behind};

use crate::running::{obey, open_core};
use pif_core::Core;
use pif_script_model::{Ending, OpenFault};
use pif_text::{Cause, Command, Reply};
use std::alloc::Global;

/// Has a core do what a command asks, or makes the core if it is the first one. Answers what the command is answered.
///
/// # Errors
///
/// The cause, if the command is a fault; and `NoMemory`.
pub fn do_command(
    alloc: Global,
    core: &mut Option<Core>,
    command: Command,
) -> Result<Reply, OpenFault>
    ensures { IsDone (outcome_behind core.old command) core.new result }
{
    match core {
        Some(core) => match obey(core, command) {
            Some(reply) => Ok(reply),
            None => Err(OpenFault::Ended(Ending::Fault(Cause::Command))),
        },
        None => match open_core(alloc, command) {
            Ok((made, reply)) => {
                *core = Some(made);
                Ok(reply)
            }
            Err(fault) => Err(fault),
        },
    }
}
