ghost use Rattle.std.specs.Prelude.{◌≡◌, OnOk};
ghost use Rattle.pif_job_draw.specs.Pictures.{PicturesTo};

use crate::texts::picture_text;
use pif_script::{CliFault, Notice, read_all, write_whole};
use pif_script_model::{Picture, WatchSteps};
use std::alloc::Global;
use std::io::{Read, Write};

/// Writes this picture of a story, or a script. The states are a line with one JSON object for each command: the
/// command, its answer, and then each thread, mutex and condition variable, the run queue, and the chains of waiting.
/// The graph says who waits for whom, through which mutex, at the end, in the language of Graphviz. The story is read to
/// its end before anything is written, and it and the picture are kept in memory. `notice` keeps the command that is a
/// fault; if there is none, it is left as it is. `watch` is told of the commands that are played for it.
///
/// # Errors
///
/// `Script` with the line of the first fault, as of `fill`; `Read`, if the reader fails; and `NoMemory`: nothing was
/// written then. `Write`, if the writer fails or takes no byte.
pub fn write_picture<R: Read, W: Write, V: WatchSteps>(
    picture: Picture,
    alloc: Global,
    reader: &mut R,
    writer: &mut W,
    notice: &mut Notice,
    watch: &mut V,
) -> Result<(), CliFault>
    ensures pictures { PicturesTo picture (R.remaining reader.old) (R.remaining reader.new) (W.contents writer.old) (W.contents writer.new) result }
    ensures unnoted { OnOk result (notice.new ≡ notice.old) }
{
    let story = read_all(alloc, reader)?;
    let text = picture_text(picture, alloc, story.as_slice(), notice, watch)?;
    write_whole(writer, text.as_slice())
}
