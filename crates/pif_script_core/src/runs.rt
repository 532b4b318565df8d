ghost use Rattle.pif_script_model.specs.Running.{RunsTo};

use crate::running::Running;
use pif_script::{CliFault, Notice, read_script};
use std::alloc::Global;
use std::io::{Read, Write};

/// Runs a script: reads its bytes to its end or its first fault, and writes what its lines are answered, chunk by
/// chunk, before more is read, and at last the line of the fault.
///
/// # Errors
///
/// `Script` with the first fault of the script, whose line was written then. `Read` if the reader fails; the whole
/// lines read so far were answered. `Write` if the writer fails or takes no byte. `NoMemory` if the core cannot be
/// made; nothing was written.
pub fn run<R: Read, W: Write>(alloc: Global, reader: &mut R, writer: &mut W) -> Result<(), CliFault>
    ensures { RunsTo (R.remaining reader.old) (R.remaining reader.new) (W.contents writer.old) (W.contents writer.new) result }
{
    run_noting(alloc, reader, writer, &mut Notice::new())
}

/// Runs a script as `run` does, and has `notice` keep the line of the fault; if there is none, `notice` is left as it
/// is.
///
/// # Errors
///
/// Those of `run`.
pub fn run_noting<R: Read, W: Write>(
    alloc: Global,
    reader: &mut R,
    writer: &mut W,
    notice: &mut Notice,
) -> Result<(), CliFault>
    ensures { RunsTo (R.remaining reader.old) (R.remaining reader.new) (W.contents writer.old) (W.contents writer.new) result }
{
    read_script::<Running, R, W>(alloc, reader, writer, notice)
}
