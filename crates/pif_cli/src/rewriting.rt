//! `check --write`: the answers of a story, written into its file.
ghost use Rattle.std.specs.Prelude.{◌≡◌, ◌⊎◌};
ghost use Rattle.std.specs.Io.KnownBytes.{Keeps};
ghost use Rattle.pif_cli_messages.specs.Messages.{TellsLine};
ghost use Rattle.pif_cli.specs.Words.{RewroteFile};

use crate::hosts::{Host, Runtime};
use crate::making::{mode_of, replace_file};
use crate::names::Name;
use crate::words::do_and_tell;
use pif_cli_messages::{Input, Replaced, Unwritten, WatchJob, unwritten_message, words_of};
use pif_cli_words::Job;
use pif_job_check::fill;
use pif_job_shell::{SaveFault, Shelf};
use pif_script::{CliFault, read_all};
use pif_story::{plain_story, row_of, split_line};
use std::alloc::{AllocError, Global};
use std::fs;
use std::fs::Permissions;
use std::io::Write;
use std::rt::Files;

/// A story as it stands in its file, and the mode of the file.
type Stored = (Vec<u8>, Permissions);

/// Reads the story in the plain file of this name.
fn read_story<P: Files>(process: &P, alloc: Global, name: &str) -> Result<Stored, Unwritten> {
    let mode = match mode_of(process, name) {
        Ok(Some(mode)) => mode,
        Ok(None) => return Err(Unwritten::NoPlainFile),
        Err(error) => return Err(Unwritten::Unread(words_of(error.kind()))),
    };
    if mode.readonly() {
        return Err(Unwritten::ReadOnly);
    }
    let mut file = match fs::open(process, name) {
        Ok(file) => file,
        Err(error) => return Err(Unwritten::Unread(words_of(error.kind()))),
    };
    match read_all(alloc, &mut file) {
        Ok(story) => Ok((story, mode)),
        Err(CliFault::NoMemory) => Err(Unwritten::NoMemory),
        Err(_) => Err(Unwritten::Unread(None)),
    }
}

/// Tells `errors` why the file of this name stays as it is. Answers the status: 4 if it is out of memory, else 3.
fn tell_unwritten<E: Write>(name: &str, why: Unwritten, errors: &mut E) -> u8
    ensures status { (result ≡ 3) ⊎ (result ≡ 4) }
    ensures told { TellsLine (E.contents errors.old) (E.contents errors.new) }
{
    unwritten_message(name, why).tell(errors);
    match why {
        Unwritten::NoMemory => 4,
        _ => 3,
    }
}

/// A story that is filled in; `None` if it has a fault.
fn filled(alloc: Global, name: &str, story: &[u8]) -> Result<Option<Vec<u8>>, Unwritten> {
    let mut text = Vec::new(alloc);
    let mut reader = story;
    match fill(alloc, name.as_bytes(), &mut reader, &mut text) {
        Ok(()) => Ok(Some(text)),
        Err(CliFault::Script(..)) => Ok(None),
        Err(_) => Err(Unwritten::NoMemory),
    }
}

/// Whether two lines with nothing but their words have answers, and not the same.
fn is_replaced(line: &[u8], other: &[u8]) -> bool {
    match (row_of(line), row_of(other)) {
        (Some((_, Some(before))), Some((_, Some(after)))) => before != after,
        _ => false,
    }
}

/// The lines of a story that have another answer in this text, which has as many lines.
fn replaced_in(alloc: Global, story: &[u8], text: &[u8]) -> Result<Replaced, AllocError> {
    let before = plain_story(alloc, story)?;
    let after = plain_story(alloc, text)?;
    let mut replaced = Replaced::nothing();
    let mut rest = Some(after.as_slice());
    let mut number = 1u64;
    for line in before.as_slice().split(|byte| *byte == b'\n') {
        let (other, behind) = split_line(rest.unwrap_or(b""));
        rest = behind;
        if is_replaced(line, other) {
            replaced.add(number);
        }
        number = number.saturating_add(1);
    }
    Ok(replaced)
}

/// Writes a text into the file of this name and mode in place of this story, if they differ.
fn put_in_place<P: Files>(
    process: &P,
    alloc: Global,
    name: &str,
    (story, mode): Stored,
    text: &[u8],
) -> Result<(), Unwritten> {
    if story.as_slice() == text {
        return Ok(());
    }
    match replace_file(process, alloc, name, Some(mode), text) {
        Ok(()) => Ok(()),
        Err(SaveFault::Taken | SaveFault::TakenBeside) => Err(Unwritten::Taken),
        Err(SaveFault::NoPlainFile) => Err(Unwritten::NoPlainFile),
        Err(SaveFault::Refused(why) | SaveFault::Cut(why)) => Err(Unwritten::Refused(why)),
        Err(SaveFault::NoMemory) => Err(Unwritten::NoMemory),
    }
}

/// Tells `errors` which answers were replaced in the file of this name, if some were.
fn tell_replaced<E: Write>(name: &str, replaced: &Replaced, errors: &mut E)
    ensures { Keeps (E.contents errors.old) (E.contents errors.new) ⊎ TellsLine (E.contents errors.old) (E.contents errors.new) }
{
    if let Some(message) = replaced.message(name) {
        message.tell(errors);
    }
}

/// Tells of what was done with the file of this name, in which these answers were to be replaced. Answers the status.
fn tell_written<E: Write>(
    name: &str,
    done: Result<(), Unwritten>,
    replaced: &Replaced,
    errors: &mut E,
) -> u8
    ensures { ((result ≡ 0) × (Keeps (E.contents errors.old) (E.contents errors.new)
        ⊎ TellsLine (E.contents errors.old) (E.contents errors.new)))
        ⊎ (((result ≡ 3) ⊎ (result ≡ 4)) × TellsLine (E.contents errors.old) (E.contents errors.new)) }
{
    match done {
        Ok(()) => {
            tell_replaced(name, replaced, errors);
            0
        }
        Err(why) => tell_unwritten(name, why, errors),
    }
}

/// Writes the text of a story with its answers into the file of this name in place of the story, and tells `errors` of
/// it. Answers the status.
fn write_and_tell<P: Files, E: Write>(
    process: &P,
    alloc: Global,
    name: &str,
    stored: Stored,
    text: &[u8],
    errors: &mut E,
) -> u8
    ensures { ((result ≡ 0) × (Keeps (E.contents errors.old) (E.contents errors.new)
        ⊎ TellsLine (E.contents errors.old) (E.contents errors.new)))
        ⊎ (((result ≡ 3) ⊎ (result ≡ 4)) × TellsLine (E.contents errors.old) (E.contents errors.new)) }
{
    let Ok(replaced) = replaced_in(alloc, stored.0.as_slice(), text) else {
        return tell_unwritten(name, Unwritten::NoMemory, errors);
    };
    let done = put_in_place(process, alloc, name, stored, text);
    tell_written(name, done, &replaced, errors)
}

/// Writes the answers of the story in the plain file of this name into it: a new file beside it, whose name ends in
/// `.new`, gets the story with its answers and the file's mode, and takes its place. Answers the status. The errors are
/// told in one line in which lines an answer took the place of another one, if it is so.
///
/// The file stays as it is if the story has a fault, which is told as `check --print` tells it; and if it is no plain
/// file, is read-only, can't be read, or can't be written, of which the errors are told in one line. It is not written
/// if the answers are there.
pub fn rewrite_file<P: Files + Runtime + Sync, S: Shelf, W: Write, E: Write, V: WatchJob>(
    name: &Name<'_>,
    host: &mut Host<P, S, W, E, V>,
) -> u8
    ensures same_output { host.new.output.ghost_name ≡ host.old.output.ghost_name }
    ensures same_errors { host.new.errors.ghost_name ≡ host.old.errors.ghost_name }
    ensures did { RewroteFile name.now (W.contents host.old.output.now) (W.contents host.new.output.now)
        (E.contents host.old.errors.now) (E.contents host.new.errors.now) result }
{
    let (process, alloc, given) = (host.process, host.alloc, name.given());
    let stored = match read_story(process, alloc, given) {
        Ok(stored) => stored,
        Err(why) => return tell_unwritten(given, why, host.errors),
    };
    match filled(alloc, given, stored.0.as_slice()) {
        Ok(Some(text)) => {
            write_and_tell(process, alloc, given, stored, text.as_slice(), host.errors)
        }
        Ok(None) => {
            let mut input = Input::new(stored.0.as_slice());
            do_and_tell(Job::Fill, "", name, &mut input, host)
        }
        Err(why) => tell_unwritten(given, why, host.errors),
    }
}
