ghost use Rattle.std.specs.Prelude.{◌≡◌, ◌++◌, None, List, map, IfOk, OnOk};
ghost use Rattle.pif_script_model.specs.Rows.{AreRowsOf, asked_in};
ghost use Rattle.pif_script_model.specs.Stories.{NumberedRow};
ghost use Rattle.pif_story_states.specs.Stories.{core_after, core_behind, graph_from, graph_if};

use crate::cores::append_parts;
use pif_core::Core;
use pif_script::OpenFault;
use pif_script_core::do_command;
use pif_script_model::{AnsweredRow, WatchSteps};
use pif_text::{Added, Command, Fact};
use pif_types::{AddFault, CondId, Health, MutexId, Prio, Tid};
use std::alloc::{AllocError, Global};

/// Has a core do what a command asks, or makes the core if it is the first one. A command that is a fault leaves no core.
///
/// # Errors
///
/// A growth of memory was refused.
fn obey(alloc: Global, core: &mut Option<Core>, command: Command) -> Result<(), AllocError>
    ensures { OnOk result (core.new ≡ core_after core.old command) }
{
    // The check has to be told of the types that replies hold.
    let _no_part: Option<(Added, Fact, Tid, MutexId, CondId, AddFault, Health, Prio)> = None;
    match do_command(alloc, core, command) {
        Ok(_) => Ok(()),
        Err(OpenFault::Ended(_)) => {
            *core = None;
            Ok(())
        }
        Err(OpenFault::NoMemory) => Err(AllocError),
    }
}

/// The core after the commands of a story; none if there is no command, or if one is a fault. `told` is told
/// before each command how many of how many are done.
///
/// # Errors
///
/// A growth of memory was refused.
fn core_behind<V: WatchSteps>(
    alloc: Global,
    rows: &[AnsweredRow<'_>],
    told: &mut V,
) -> Result<Option<Core>, AllocError>
    ensures { IfOk result (λ core. core ≡ core_behind None (map asked_in rows.now)) }
{
    let mut core = None;
    for (place, row) in rows.iter().enumerate() {
        told.step(place, rows.len());
        obey(alloc, &mut core, row.command)?;
        if core.is_none() {
            return Ok(core);
        }
    }
    Ok(core)
}

/// Appends the graph of a core, with nothing in it if there is none.
fn append_graph(core: &Option<Core>, out: &mut Vec<u8>) -> Result<(), AllocError>
    ensures { OnOk result (out.new.items ≡ out.old.items ++ graph_if core.now) }
{
    out.extend_from_slice(b"digraph waiting {\n  rankdir=LR\n  node [fontname=\"sans-serif\"]\n")?;
    if let Some(core) = core {
        append_parts(core, out)?;
    }
    out.extend_from_slice(b"}\n")
}

/// Who waits for whom after the commands of a story, as a graph in the language of Graphviz. A core does each of them
/// once more, by what it asks for. Without a command, and if one is a fault, the graph has nothing in it. `told` is told
/// before each command how many of how many are done.
///
/// # Errors
///
/// A growth of memory was refused.
pub fn graph_of<V: WatchSteps>(
    alloc: Global,
    rows: &[AnsweredRow<'_>],
    told: &mut V,
) -> Result<Vec<u8>, AllocError>
    ensures { IfOk result (λ text. (numbered : List NumberedRow) → AreRowsOf numbered rows.now
        → text.items ≡ graph_from numbered) }
{
    let core = core_behind(alloc, rows, told)?;
    let mut text = Vec::new(alloc);
    append_graph(&core, &mut text)?;
    Ok(text)
}
