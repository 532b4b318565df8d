ghost use Rattle.std.specs.Prelude.{◌≡◌, List, IfOk};
ghost use Rattle.pif_script_model.specs.Rows.{AreRowsOf};
ghost use Rattle.pif_script_model.specs.Stories.{NumberedRow};
ghost use Rattle.pif_story_states.specs.States.{states_from, IsTold};

use crate::lines::append_line;
use pif_core::Core;
use pif_script::OpenFault;
use pif_script_core::do_command;
use pif_script_model::{AnsweredRow, WatchSteps};
use pif_text::{Added, Fact};
use pif_types::{AddFault, CondId, Health, MutexId, Prio, Tid};
use std::alloc::{AllocError, Global};

/// Has a core do what a command asks, or makes the core if it is the first one, and appends the state behind it, as a
/// line. Answers whether the command is no fault.
///
/// # Errors
///
/// A growth of memory was refused.
fn append_row(
    alloc: Global,
    core: &mut Option<Core>,
    names: &[u8],
    row: &AnsweredRow<'_>,
    out: &mut Vec<u8>,
) -> Result<bool, AllocError>
    ensures { IfOk result (λ more. IsTold names.now row.now core.old core.new out.old.items out.new.items more) }
{
    // The check has to be told of the types that replies hold.
    let _no_part: Option<(Added, Fact, Tid, MutexId, CondId, AddFault, Health, Prio)> = None;
    let reply = match do_command(alloc, core, row.command) {
        Ok(reply) => reply,
        Err(OpenFault::NoMemory) => return Err(AllocError),
        Err(OpenFault::Ended(_)) => return Ok(false),
    };
    match core {
        Some(core) => append_line(core, names, row.line, row.words, reply, out)?,
        None => {}
    }
    Ok(true)
}

/// The states behind the commands of a story: a line for each, up to the first fault. A core does each of them once
/// more, by what it asks for; its words are not read again, and only stand in its line. Threads have the names that
/// these comments give. `told` is told before each command how many of how many are done.
///
/// # Errors
///
/// A growth of memory was refused.
pub fn states_of<V: WatchSteps>(
    alloc: Global,
    names: &[u8],
    rows: &[AnsweredRow<'_>],
    told: &mut V,
) -> Result<Vec<u8>, AllocError>
    ensures { IfOk result (λ text. (numbered : List NumberedRow) → AreRowsOf numbered rows.now
        → text.items ≡ states_from names.now None numbered) }
{
    let mut core = None;
    let mut text = Vec::new(alloc);
    for (place, row) in rows.iter().enumerate() {
        told.step(place, rows.len());
        if !append_row(alloc, &mut core, names, row, &mut text)? {
            return Ok(text);
        }
    }
    Ok(text)
}
