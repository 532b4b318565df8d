ghost use Rattle.std.specs.Prelude.{◌≡◌, Err, IfErr, IfOk, [], is_some};
ghost use Rattle.std.specs.Option.{option_map_or};
ghost use Rattle.pif_script_model.specs.Running.{RunsTo};
ghost use Rattle.pif_job_run.specs.Noting.{RunsNoting};

use crate::noting::Noting;
use pif_script::{CliFault, Notice, Scanner, read_on};
use pif_story::Notes;
use std::alloc::Global;
use std::io::{Read, Write};

/// The notes that a listener has, if there is one.
fn notes_of(listener: Option<Noting>) -> Notes
    ensures { result.items ≡ option_map_or (λ n. n.tally.notes) listener [] }
{
    match listener {
        Some(noting) => noting.notes(),
        None => Notes::new(),
    }
}

/// Runs a script: reads its bytes to its end or its first fault, and writes what its lines are answered, chunk by
/// chunk, before more is read, and at last the line of the fault. `notice` keeps that line, and is left as it is if
/// there is none. Answers the notes on the script. They have room before the first line is answered, so they take no
/// memory.
///
/// # Errors
///
/// Those of `run` of `pif_script_core`.
pub fn run_noted<R: Read, W: Write>(
    alloc: Global,
    reader: &mut R,
    writer: &mut W,
    notice: &mut Notice,
) -> Result<Notes, CliFault>
    ensures noted { IfOk result (λ notes. RunsNoting (R.remaining reader.old) (R.remaining reader.new)
        (W.contents writer.old) (W.contents writer.new) notes.items) }
    ensures failed { IfErr result (λ fault. RunsTo (R.remaining reader.old) (R.remaining reader.new) (W.contents writer.old) (W.contents writer.new) (Err fault)) }
{
    let mut scanner = Scanner::<Noting>::new();
    read_on(alloc, &mut scanner, reader, writer, notice)?;
    Ok(notes_of(scanner.into_listener()))
}
