ghost use Rattle.pif_script_model.specs.Transcripts.{SameAsTraced, TracesTo};

use crate::transcribing::Transcribing;
use pif_script::{CliFault, Notice, read_script};
use std::alloc::Global;
use std::io::{Read, Write};

/// Writes the trace of a script, of version 2: runs the script as `run` does, and writes in place of its answers the
/// header, the line of the limits, and a line for each entry that the script makes, in their order, with what the core
/// answered. Those are the additions that were made, and each event, also a refused one; `call` and `finish` make the
/// events of which they consist. Refused additions and questions make none. The line of a fault is not written: the
/// trace is that of the lines before it. If no core was made, nothing is written. `replay` finds the trace the same, up
/// to the size that a trace may have: `script_trace_is_the_same`. `notice` keeps the line of the fault, and is left as it
/// is if there is none.
///
/// # Errors
///
/// Those of `run`: `Script` with the first fault of the script. `Read` if the reader fails; the trace of the whole
/// lines read so far was written. `Write` if the writer fails or takes no byte. `NoMemory` if the core cannot be made;
/// nothing was written.
pub fn trace_noting<R: Read, W: Write>(
    alloc: Global,
    reader: &mut R,
    writer: &mut W,
    notice: &mut Notice,
) -> Result<(), CliFault>
    ensures { TracesTo (R.remaining reader.old) (R.remaining reader.new) (W.contents writer.old) (W.contents writer.new) result }
{
    read_script::<Transcribing, R, W>(alloc, reader, writer, notice)
}

/// The trace that `trace_noting` writes of a script that makes a core prints `same` when it is replayed, with the number
/// of its entries and one more, for the line of the limits, as long as it has at most 16,777,216 bytes.
pub fn script_trace_is_the_same()
    ensures { SameAsTraced }
{}
