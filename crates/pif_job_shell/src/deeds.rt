//! What a line asks for, done.
ghost use Rattle.pif_text_model.specs.Extends.{Stays};

use crate::helps::help_of;
use crate::keeping::Keeper;
use crate::loads::load;
use crate::notes::note_on;
use crate::remarks::{
    Remark, not_redone_words, say_not_undone, say_refusal, say_unsaved, too_many,
};
use crate::sessions::Session;
use crate::shelves::Shelf;
use crate::stories::story_of;
use crate::telling::{reply_line, tell, tell_if, tell_words, write_text};
use crate::wishes::{Wish, count_of, name_of, wish_of};
use pif_text::{Command, Reply, Text, command_text};
use pif_text_core::{Unwritten, write_state};
use std::alloc::Global;
use std::fmt::Write as _;
use std::io::Write;

/// What was done by a line.
#[derive(Clone, Copy)]
pub enum Done {
    /// Nothing has changed.
    Nothing,
    /// The commands have changed.
    Changed,
    /// They were saved.
    Saved,
    /// The person leaves.
    Leaves,
}

/// The names of threads, of which a session knows none.
const NO_NAMES: [&str; 0] = [];

/// Writes the state of the core.
fn show_state<W: Write>(session: &Session, writer: &mut W) -> Result<(), Unwritten>
    ensures { Stays (W.contents writer.old) (W.contents writer.new) }
{
    match session.core() {
        Some(core) => write_state(NO_NAMES.as_slice(), core, writer),
        None => tell_words("nothing was added yet", writer),
    }
}

/// Says a command.
fn say_command(command: Command, remark: &mut Remark) {
    let mut text = Text::new();
    command_text(command, &mut text);
    remark.show(text.as_slice());
}

/// What is said of so many commands that were taken back, the first of which is the one that is given again next.
fn undone(count: usize, session: &Session) -> Remark {
    let mut remark = Remark::new();
    remark.say("undone: ");
    if count > 1 {
        let _ = write!(remark, "{count} commands, from ");
    }
    if let Some(command) = session.undone() {
        say_command(*command, &mut remark);
    }
    remark
}

/// Takes so many commands back. Answers what is to be said, and what was done.
fn undo(alloc: Global, session: &mut Session, count: &[u8]) -> (Remark, Done) {
    let Some(count) = count_of(count) else {
        let wanted = Remark::of(&["a number of at least 1 is wanted, in 'undo N'"]);
        return (wanted, Done::Nothing);
    };
    match session.undo(alloc, count) {
        Ok(()) => (undone(count, session), Done::Changed),
        Err(why) => {
            let mut remark = Remark::new();
            say_not_undone(why, session.len(), &mut remark);
            (remark, Done::Nothing)
        }
    }
}

/// Writes what the last command of a session is answered, and what it names that isn't there.
fn tell_reply<W: Write>(session: &Session, reply: Reply, writer: &mut W) -> Result<(), Unwritten>
    ensures { Stays (W.contents writer.old) (W.contents writer.new) }
{
    let answered = reply;
    write_text(reply_line(reply).as_slice(), writer)?;
    tell_if(note_on(session, answered), writer)
}

/// Gives the command again that was taken back last, and writes it and its answer.
fn redo<W: Write>(alloc: Global, session: &mut Session, writer: &mut W) -> Result<Done, Unwritten>
    ensures { Stays (W.contents writer.old) (W.contents writer.new) }
{
    match session.redo(alloc) {
        Ok((command, reply)) => {
            let mut remark = Remark::new();
            remark.say("again: ");
            say_command(command, &mut remark);
            tell(remark, writer)?;
            tell_reply(session, reply, writer).and(Ok(Done::Changed))
        }
        Err(why) => tell_words(not_redone_words(why), writer).and(Ok(Done::Nothing)),
    }
}

/// Saves the script so far as a story under this name; if `replaces`, in place of what is there. Answers what is to be
/// said, and what was done.
fn save_as<S: Shelf>(
    alloc: Global,
    shelf: &S,
    session: &Session,
    name: &str,
    replaces: bool,
) -> (Remark, Done) {
    let Ok(story) = story_of(alloc, session) else {
        let unsaved = Remark::of(&["out of memory: nothing is saved"]);
        return (unsaved, Done::Nothing);
    };
    let saved = if replaces {
        shelf.replace(alloc, name, story.as_slice())
    } else {
        shelf.save(name, story.as_slice())
    };
    let mut remark = Remark::new();
    match saved {
        Ok(()) => {
            remark.say("saved ");
            remark.show(name.as_bytes());
            (remark, Done::Saved)
        }
        Err(why) => {
            say_unsaved(name, why, &mut remark);
            (remark, Done::Nothing)
        }
    }
}

/// What is said if a name is wanted.
fn name_wanted(form: &str) -> Remark {
    Remark::of(&["the name of a file is wanted, in '", form, "'"])
}

/// What is said if a session is to be saved into the story in which it is kept. That one is removed at its end.
fn other_name_wanted(kept: &str) -> Remark {
    Remark::of(&[
        "the shell keeps the session in ",
        kept,
        "; save it under another name",
    ])
}

/// Saves the script so far under the name that these bytes are, if it has a command and isn't kept there. Answers what
/// is to be said, and what was done.
fn save<S: Shelf>(
    alloc: Global,
    shelf: &S,
    (session, keeper): (&Session, &Keeper),
    name: &[u8],
    replaces: bool,
) -> (Remark, Done) {
    let form = if replaces { "save! FILE" } else { "save FILE" };
    let Some(name) = name_of(name) else {
        return (name_wanted(form), Done::Nothing);
    };
    if session.len() == 0 {
        let nothing = Remark::of(&["there is nothing to save"]);
        return (nothing, Done::Nothing);
    }
    match keeper.kept_in(name) {
        Some(kept) => (other_name_wanted(kept), Done::Nothing),
        None => save_as(alloc, shelf, session, name, replaces),
    }
}

/// Begins with the commands of the story of the name that these bytes are, if there is no command yet. Answers what is
/// to be said, and what was done.
fn begin_with<S: Shelf>(
    alloc: Global,
    shelf: &S,
    session: &mut Session,
    name: &[u8],
) -> (Remark, Done) {
    let Some(name) = name_of(name) else {
        return (name_wanted("load FILE"), Done::Nothing);
    };
    let mut remark = Remark::new();
    if session.len() > 0 {
        let count = session.len();
        let _ = write!(
            remark,
            "there are commands already; they are taken back by 'undo {count}'"
        );
        return (remark, Done::Nothing);
    }
    match load(alloc, shelf, name) {
        Ok(loaded) => {
            *session = loaded;
            remark.say("loaded ");
            remark.show(name.as_bytes());
            let count = session.len();
            let _ = write!(remark, ": {count} commands");
            (remark, Done::Changed)
        }
        Err(why) => (why, Done::Nothing),
    }
}

/// Has a line answered by the session, and writes the answer, with what the line names that isn't there, or why there is
/// none.
fn play<W: Write>(
    alloc: Global,
    session: &mut Session,
    line: &[u8],
    writer: &mut W,
) -> Result<Done, Unwritten>
    ensures { Stays (W.contents writer.old) (W.contents writer.new) }
{
    match session.take(alloc, line) {
        Ok(reply) => tell_reply(session, reply, writer).and(Ok(Done::Changed)),
        Err(refusal) => {
            let mut remark = Remark::new();
            say_refusal(&refusal, &mut remark);
            tell(remark, writer).and(Ok(Done::Nothing))
        }
    }
}

/// Does what a line asks for, of a session that is kept by `keeper`.
pub fn obey<S: Shelf, W: Write>(
    alloc: Global,
    shelf: &S,
    keeper: &Keeper,
    session: &mut Session,
    line: &[u8],
    writer: &mut W,
) -> Result<Done, Unwritten>
    ensures { Stays (W.contents writer.old) (W.contents writer.new) }
{
    let (said, done) = match wish_of(line) {
        Wish::Nothing => return Ok(Done::Nothing),
        Wish::Leave => return Ok(Done::Leaves),
        Wish::Help(word) => {
            return write_text(help_of(word).as_bytes(), writer).and(Ok(Done::Nothing));
        }
        Wish::State => return show_state(session, writer).and(Ok(Done::Nothing)),
        Wish::Redo => return redo(alloc, session, writer),
        Wish::Line(line) => return play(alloc, session, line, writer),
        Wish::Undo(count) => undo(alloc, session, count),
        Wish::Save(name) => save(alloc, shelf, (session, keeper), name, false),
        Wish::Replace(name) => save(alloc, shelf, (session, keeper), name, true),
        Wish::Load(name) => begin_with(alloc, shelf, session, name),
        Wish::More(word) => (too_many(word), Done::Nothing),
    };
    tell(said, writer).and(Ok(done))
}
