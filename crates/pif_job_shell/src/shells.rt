ghost use Rattle.pif_text_model.specs.Extends.{Stays};
ghost use Rattle.pif_job_shell.specs.Talks.{PartsTo, TalksTo, TurnsTo};

use crate::deeds::{Done, obey};
use crate::keeping::Keeper;
use crate::lines::{Found, Lines};
use crate::sessions::Session;
use crate::shelves::Shelf;
use crate::telling::{tell, tell_if, tell_words, write_text};
use pif_script::CliFault;
use pif_text::Cause;
use pif_text_core::Unwritten;
use pif_text_errors::cause_words;
use std::alloc::Global;
use std::io::{Read, Write};

/// What a conversation stands on.
#[derive(Drop)]
struct Talk {
    /// The script so far.
    session: Session,
    /// The lines of the input.
    lines: Lines,
    /// Where the session is kept.
    keeper: Keeper,
    /// Whether a person sits there.
    prompt: bool,
}

/// What is said first if there is a prompt.
const GREETING: &[u8] = b"'help' names the commands; Ctrl-D ends\n";

/// What stands before each line if there is a prompt.
const PROMPT: &[u8] = b"> ";

/// Does what was found asks for.
fn hear<S: Shelf, W: Write>(
    alloc: Global,
    shelf: &S,
    talk: &mut Talk,
    writer: &mut W,
) -> Result<Done, Unwritten>
    ensures { Stays (W.contents writer.old) (W.contents writer.new) }
{
    match talk.lines.found() {
        Found::Nothing => Ok(Done::Nothing),
        Found::Long => { tell_words(cause_words(Cause::Long), writer).and(Ok(Done::Nothing)) }
        Found::Line => obey(
            alloc,
            shelf,
            &talk.keeper,
            &mut talk.session,
            talk.lines.line(),
            writer,
        ),
    }
}

/// Does what was found asks for, and keeps the session if it has changed. Answers whether the person leaves.
fn hear_and_keep<S: Shelf, W: Write>(
    alloc: Global,
    shelf: &S,
    talk: &mut Talk,
    writer: &mut W,
) -> Result<bool, Unwritten>
    ensures { Stays (W.contents writer.old) (W.contents writer.new) }
{
    match hear(alloc, shelf, talk, writer)? {
        Done::Nothing => Ok(false),
        Done::Leaves => Ok(true),
        Done::Saved => {
            talk.keeper.note_saved();
            Ok(false)
        }
        Done::Changed => {
            tell_if(talk.keeper.keep(alloc, shelf, &talk.session), writer).and(Ok(false))
        }
    }
}

/// Writes a text if there is a prompt.
fn prompt_with<W: Write>(prompt: bool, text: &[u8], writer: &mut W) -> Result<(), Unwritten>
    ensures { Stays (W.contents writer.old) (W.contents writer.new) }
{
    if prompt {
        write_text(text, writer)
    } else {
        Ok(())
    }
}

/// Reads a line and does what it asks for. Answers whether the conversation goes on.
fn turn<S: Shelf, R: Read, W: Write>(
    alloc: Global,
    shelf: &S,
    talk: &mut Talk,
    reader: &mut R,
    writer: &mut W,
) -> Result<bool, CliFault>
    ensures { TurnsTo (R.remaining reader.old) (R.remaining reader.new) (W.contents writer.old) (W.contents writer.new) result }
{
    if prompt_with(talk.prompt, PROMPT, writer).is_err() {
        return Err(CliFault::Write);
    }
    let Ok(more) = talk.lines.read_line(reader) else {
        return Err(CliFault::Read);
    };
    if !more && prompt_with(talk.prompt, b"\n", writer).is_err() {
        return Err(CliFault::Write);
    }
    match hear_and_keep(alloc, shelf, talk, writer) {
        Ok(leaves) => part_or_go_on(shelf, talk, leaves, more && !leaves, writer),
        Err(Unwritten) => Err(CliFault::Write),
    }
}

/// Parts with a person, who leaves or whose input has ended, if the conversation doesn't go on. Answers whether it does.
fn part_or_go_on<S: Shelf, W: Write>(
    shelf: &S,
    talk: &Talk,
    leaves: bool,
    goes_on: bool,
    writer: &mut W,
) -> Result<bool, CliFault>
    ensures { PartsTo (W.contents writer.old) (W.contents writer.new) result }
{
    if goes_on {
        return Ok(true);
    }
    match tell_if(talk.keeper.end(shelf, &talk.session, leaves), writer) {
        Ok(()) => Ok(false),
        Err(Unwritten) => Err(CliFault::Write),
    }
}

/// Greets if there is a prompt, and has the session kept then.
fn greet<S: Shelf, W: Write>(
    alloc: Global,
    shelf: &S,
    talk: &mut Talk,
    writer: &mut W,
) -> Result<(), Unwritten>
    ensures { Stays (W.contents writer.old) (W.contents writer.new) }
{
    if !talk.prompt {
        return Ok(());
    }
    let (keeper, remark) = Keeper::begin(alloc, shelf);
    talk.keeper = keeper;
    write_text(GREETING, writer)?;
    tell(remark, writer)
}

/// Greets if there is a prompt, and reads a line after the other and does what it asks for, up to the end of the input,
/// or until the person leaves.
fn converse<S: Shelf, R: Read, W: Write>(
    alloc: Global,
    shelf: &S,
    talk: &mut Talk,
    reader: &mut R,
    writer: &mut W,
) -> Result<(), CliFault>
    ensures { TalksTo (R.remaining reader.old) (R.remaining reader.new) (W.contents writer.old) (W.contents writer.new) result }
{
    if greet(alloc, shelf, talk, writer).is_err() {
        return Err(CliFault::Write);
    }
    for _turn in 0..u64::MAX {
        if !turn(alloc, shelf, talk, reader, writer)? {
            return Ok(());
        }
    }
    Err(CliFault::Read)
}

/// Talks with a person who writes a script: reads a line after the other, and answers each before the next is read.
/// With `prompt` a greeting is written first, and `> ` before each line; the session is kept then, as it goes on, in a
/// story of `shelf` that the greeting names.
///
/// A command of scripts is answered as `run` does, with the name of an error behind its number. A line that begins with
/// `#`, and an empty one, are passed over. `help` names the commands, and `help WORD` tells of one; `state` shows what
/// there is; `undo` takes the last command back, `undo N` the last N, and `redo` gives the last of these again; `save
/// FILE` saves the script so far as a new story by `shelf`, and `save! FILE` in place of what is there; `load FILE`
/// begins with the commands of a story; `exit` and `quit` end. A line that is none of these, or has more than 120 bytes,
/// is told so, and changes nothing. A CR at the end of a line is passed over, and the last line needs no LF.
///
/// # Errors
///
/// `Read` if the reader fails, and `Write` if the writer fails or takes no byte. Out of memory ends no conversation:
/// the line that wants it is told so, and changes nothing.
pub fn shell<S: Shelf, R: Read, W: Write>(
    alloc: Global,
    shelf: &S,
    prompt: bool,
    reader: &mut R,
    writer: &mut W,
) -> Result<(), CliFault>
    ensures { TalksTo (R.remaining reader.old) (R.remaining reader.new) (W.contents writer.old) (W.contents writer.new) result }
{
    let mut state = Talk {
        session: Session::new(alloc),
        lines: Lines::new(),
        keeper: Keeper::idle(),
        prompt,
    };
    converse(alloc, shelf, &mut state, reader, writer)
}
