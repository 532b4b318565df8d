ghost use Rattle.std.specs.Prelude.{◌≡◌, ◌≤◌, List, Option, Some, Ok, Err, IfErr, IfOk, OnOk, map, ℕ};
ghost use Rattle.std.specs.Io.KnownBytes.{Appends};
ghost use Rattle.pif_script_model.specs.StoryShowing.{ShowsStoryTo};
ghost use Rattle.pif_script_model.specs.Stories.{script_of};
ghost use Rattle.pif_story.specs.Notes.{ShowsNoting};
ghost use Rattle.pif_job_run.specs.Shows.{WritesStory, person_name, person_names, shown_text};

use crate::showing::{Look, show_script};
use pif_script::{CliFault, Notice, read_all};
use pif_script_core::story_notes;
use pif_script_model::Detail;
use pif_story::{Notes, name_of, names_in, read_script_of_story};
use pif_types::Tid;
use std::alloc::{AllocError, Global};
use std::io::{Read, Write};
use std::str::from_utf8;

/// The most threads that there are under any limits.
const MOST_THREADS: u32 = 1024;

/// The name that these comments of a story give to the thread of this number; an empty one if they give none.
fn name_in(names: &[u8], number: u32) -> &str
    requires { 1 ≤ number }
    ensures { result.now ≡ person_name names.now number }
{
    let Some(thread) = Tid::new(number) else {
        return "";
    };
    let Some(name) = name_of(names, thread) else {
        return "";
    };
    match from_utf8(name) {
        Ok(text) => text,
        Err(_) => "",
    }
}

/// The names that these comments of a story give to threads, that of t1 first; nothing if there are no comments.
///
/// # Errors
///
/// A growth of memory was refused.
fn list_of<'n>(alloc: Global, names: &'n [u8]) -> Result<Vec<&'n str>, AllocError>
    ensures { IfOk result (λ list. map (λ name. name.now) list.items ≡ person_names names.now) }
{
    let mut list = Vec::new(alloc);
    if names.is_empty() {
        return Ok(list);
    }
    for place in 0..MOST_THREADS {
        list.push(name_in(names, place + 1))?;
    }
    Ok(list)
}

/// Shows the script that is left of a story in memory, whose threads have the names that these comments give.
///
/// # Errors
///
/// Those of `show_noting`, but for `Read`.
fn show_named<W: Write>(
    detail: Detail,
    alloc: Global,
    names: &[u8],
    story: &[u8],
    writer: &mut W,
    notice: &mut Notice,
) -> Result<(), CliFault>
    ensures ends { (left : Option (List ℕ)) × ShowsStoryTo (Some story.now) left (W.contents writer.old) (W.contents writer.new) result }
    ensures told { OnOk result (Appends (W.contents writer.old) (W.contents writer.new)
        (shown_text detail (person_names names.now) (script_of story.now))) }
{
    let mut reader = story;
    let script = read_script_of_story(alloc, &mut reader)?;
    match list_of(alloc, names) {
        Ok(list) => {
            let look = Look {
                detail,
                names: list.as_slice(),
            };
            show_script(&look, alloc, script.as_slice(), writer, notice)
        }
        Err(_) => Err(CliFault::NoMemory),
    }
}

/// Shows the script that is left of a story to a person: reads the bytes of the story to the end, and then runs the
/// script as `run` does. A script is a story too. For each line of the script it writes the line itself behind `> `,
/// what it is answered, with the name of an error behind its number, what has changed in the core by it, as
/// `pif_text_core` writes it, or all of the core if that is the detail, and an empty line. Behind the first line all
/// of the core is told. A thread to which a comment of the story gives a name has it behind its own, as `t1 low`. The
/// line of a fault is told so, too, and nothing of the core behind it; `notice` keeps it, and is left as it is if there
/// is none. Lines are counted in the script that is left, from 1. Answers that are written in the story are not
/// compared. This text is for reading, and may change. It stands behind what the writer held. Answers the notes on the
/// story, as `story_notes` does.
///
/// # Errors
///
/// `Script` with the first fault of the script, whose line was written then; `Script` with the fault `size` and the
/// line of the story, if the story is too large, and nothing was written; `Read`, if the reader fails, and `NoMemory`,
/// and nothing was written; and `Write`, if the writer fails or takes no byte.
pub fn show_noting<R: Read, W: Write>(
    detail: Detail,
    alloc: Global,
    reader: &mut R,
    writer: &mut W,
    notice: &mut Notice,
) -> Result<Notes, CliFault>
    ensures noted { IfOk result (λ notes. ShowsNoting (R.remaining reader.old) (R.remaining reader.new)
        (W.contents writer.old) (W.contents writer.new) (Ok notes.items)) }
    ensures failed { IfErr result (λ fault. ShowsNoting (R.remaining reader.old) (R.remaining reader.new)
        (W.contents writer.old) (W.contents writer.new) (Err fault)) }
    ensures told { OnOk result (WritesStory detail (R.remaining reader.old) (R.remaining reader.new)
        (W.contents writer.old) (W.contents writer.new)) }
{
    let story = read_all(alloc, reader)?;
    let text = story.as_slice();
    let notes = story_notes(alloc, text)?;
    match names_in(alloc, text) {
        Ok(names) => {
            show_named(detail, alloc, names.as_slice(), text, writer, notice)?;
            Ok(notes)
        }
        Err(_) => Err(CliFault::NoMemory),
    }
}
