ghost use Rattle.pif_script_model.specs.StoryShowing.{TracesStoryTo};

use crate::script_traces::trace_noting;
use pif_script::{CliFault, Notice};
use pif_story::read_script_of_story;
use std::alloc::Global;
use std::io::{Read, Write};

/// Writes the trace of the script that is left of a story as `trace_noting` writes that of a script: reads the bytes of
/// the story to the end, and then runs the script, and has `notice` keep the line of its fault. A script is a story
/// too. Lines are counted in the script that is left, from 1. Answers that are written in the story are not compared.
///
/// # Errors
///
/// `Script` with the first fault of the script, and the trace of the lines before it was written; `Script` with the
/// fault `size` and the line of the story, if the story is too large, and nothing was written; `Read`, if the reader
/// fails, and `NoMemory`, and nothing was written; and `Write`, if the writer fails or takes no byte.
pub fn trace_story<R: Read, W: Write>(
    alloc: Global,
    reader: &mut R,
    writer: &mut W,
    notice: &mut Notice,
) -> Result<(), CliFault>
    ensures { TracesStoryTo (R.remaining reader.old) (R.remaining reader.new) (W.contents writer.old) (W.contents writer.new) result }
{
    let script = read_script_of_story(alloc, reader)?;
    trace_noting(alloc, &mut script.as_slice(), writer, notice)
}
