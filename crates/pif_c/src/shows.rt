ghost use Rattle.std.specs.Prelude.{◌≡◌, Result};
ghost use Rattle.pif_job_draw.specs.Pictures.{PicturesTo};
ghost use Rattle.pif_c.specs.Shows.{ShowsTold, detail_of};
ghost use Rattle.pif_c.specs.Texts.{HandsOut, Wholly, ended_number};

use crate::texts::{PifText, ended_number, hand_out};
use pif_job_draw::write_picture;
use pif_job_run::show_noting;
use pif_script::Notice;
use pif_script_model::{CliFault, Detail, Picture, WatchSteps};
use std::alloc::Global;
use std::io::{Read, Write};

/// What is told of the core behind each command.
fn detail_of(all: bool) -> Detail
    ensures { result ≡ detail_of all }
{
    if all { Detail::All } else { Detail::Changes }
}

/// Shows a story to nobody who wants its notes.
fn show<R: Read, W: Write>(
    detail: Detail,
    alloc: Global,
    reader: &mut R,
    writer: &mut W,
) -> Result<(), CliFault>
    ensures { ShowsTold detail (R.remaining reader.old) (R.remaining reader.new) (W.contents writer.old) (W.contents writer.new) result }
{
    let mut notice = Notice::new();
    match show_noting(detail, alloc, reader, writer, &mut notice) {
        Ok(_notes) => Ok(()),
        Err(fault) => Err(fault),
    }
}

/// Shows a story into memory of its own.
fn show_whole(alloc: Global, detail: Detail, story: &[u8]) -> (Vec<u8>, Result<(), CliFault>)
    ensures { Wholly (ShowsTold detail) story.now result.0.items result.1 }
{
    let mut reader = story;
    let mut text = Vec::new(alloc);
    let done = show(detail, alloc, &mut reader, &mut text);
    (text, done)
}

/// Shows a story, or a script: each command, its answer, and what has changed in the core, or all of the core if that is
/// asked for. Writes what `pif show` prints to the start of `out`, if there is room for all of it; else `out` stays as it
/// is.
#[unsafe(no_mangle)]
pub extern "C" fn pif_show(alloc: Global, story: &[u8], all: bool, out: &mut [u8]) -> PifText
    ensures { HandsOut (ShowsTold (detail_of all)) ended_number story.now out.old out.new result }
{
    let (text, done) = show_whole(alloc, detail_of(all), story);
    hand_out(&text, ended_number(done), out)
}

/// Nobody is told how far a picture has come.
#[derive(Drop)]
struct Unwatched;

impl WatchSteps for Unwatched {
    fn step(&mut self, _done: usize, _count: usize) {}
}

/// Makes a picture of a story into memory of its own.
fn picture_whole(alloc: Global, picture: Picture, story: &[u8]) -> (Vec<u8>, Result<(), CliFault>)
    ensures { Wholly (PicturesTo picture) story.now result.0.items result.1 }
{
    let mut reader = story;
    let mut text = Vec::new(alloc);
    let mut notice = Notice::new();
    let done = write_picture(
        picture,
        alloc,
        &mut reader,
        &mut text,
        &mut notice,
        &mut Unwatched,
    );
    (text, done)
}

/// Writes the state of the core behind each command of a story, or a script, as `pif show --json` prints it, to the start
/// of `out`, if there is room for all of it; else `out` stays as it is.
#[unsafe(no_mangle)]
pub extern "C" fn pif_show_json(alloc: Global, story: &[u8], out: &mut [u8]) -> PifText
    ensures { HandsOut (PicturesTo Picture.States) ended_number story.now out.old out.new result }
{
    let (text, done) = picture_whole(alloc, Picture::States, story);
    hand_out(&text, ended_number(done), out)
}

/// Writes who waits for whom at the end of a story, or a script, as `pif show --dot` prints it, to the start of `out`, if
/// there is room for all of it; else `out` stays as it is.
#[unsafe(no_mangle)]
pub extern "C" fn pif_show_dot(alloc: Global, story: &[u8], out: &mut [u8]) -> PifText
    ensures { HandsOut (PicturesTo Picture.Graph) ended_number story.now out.old out.new result }
{
    let (text, done) = picture_whole(alloc, Picture::Graph, story);
    hand_out(&text, ended_number(done), out)
}
