//! What a mistake of the log names or asks for that isn't there, as it is noted of a command of a script.
ghost use Rattle.std.specs.Prelude.{◌≡◌, ◌++◌, IfOk, Some, codes};
ghost use Rattle.pif_history_text.specs.Verdicts.{line_refusal_word};
ghost use Rattle.pif_story.specs.Notes.{note_at};
ghost use Rattle.pif_job_judge.specs.Missing.{command_of, known_after, known_behind, missing_in, note_on, told_text};

use pif_history_model::{Line, LineRefusal};
use pif_history_text::{line_text, refusal_word};
use pif_model::Event;
use pif_search::Stop;
use pif_story::{Known, Missing, Note, Notes, note_at, noted};
use pif_text::{Addition, Command, Text};
use std::alloc::Global;

/// The command of a script that adds the same as a line, or names it; none if a line names nothing. A line that only
/// names a thread is like its end.
fn command_of(line: &Line) -> Option<Command>
    ensures { result ≡ command_of line.now }
{
    match *line {
        Line::Thread(priority) => Some(Command::Add(Addition::Thread(priority))),
        Line::Mutex(kind, robust, _) => Some(Command::Add(Addition::Mutex(kind, robust))),
        Line::Cond(mutex) => Some(Command::Add(Addition::Cond(mutex))),
        Line::Begin(thread, request) => Some(Command::Event(Event::Begin(thread, request))),
        Line::Tick(time) => Some(Command::Event(Event::Tick(time))),
        Line::Answer(thread, _) | Line::Prio(thread, _) => Some(Command::Event(Event::End(thread))),
        Line::Dying(thread) | Line::End(thread) => Some(Command::Event(Event::End(thread))),
        Line::Rests(thread) | Line::Process(thread) => Some(Command::Event(Event::End(thread))),
        Line::Halted | Line::Resumed | Line::Asks(_, _) => None,
    }
}

/// What is there behind a line, if this is there before it.
fn known_after(known: &Known, line: &Line) -> Known
    ensures { result ≡ known_after known.now line.now }
{
    match command_of(line) {
        Some(command) => known.behind(command, b""),
        None => *known,
    }
}

/// What is there behind these lines, oldest first.
fn known_behind(lines: &[Line]) -> Known
    ensures { result ≡ known_behind lines.now }
{
    let mut known = Known::nothing();
    for line in lines {
        known = known_after(&known, line);
    }
    known
}

/// What `run` prints for a command that is refused so.
fn printed(alloc: Global, why: LineRefusal) -> Result<Vec<u8>, Stop>
    ensures { IfOk result (λ v. v.items ≡ codes "refused " ++ line_refusal_word why) }
{
    let mut out = Vec::new(alloc);
    out.extend_from_slice(b"refused ")?;
    out.extend_from_slice(refusal_word(why))?;
    Ok(out)
}

/// What a line that is refused behind these lines names or asks for that isn't there, if that is why.
fn missing_in(
    alloc: Global,
    before: &[Line],
    line: &Line,
    why: LineRefusal,
) -> Result<Option<Missing>, Stop>
    ensures { IfOk result (λ o. o ≡ missing_in before.now line.now why) }
{
    let Some(command) = command_of(line) else {
        return Ok(None);
    };
    let known = known_behind(before);
    let given = printed(alloc, why)?;
    Ok(noted(&known, command, given.as_slice()))
}

/// The text of a line, of which a column is told. There is none of a line that tells of a process, since it may name
/// several threads.
fn told_text(line: &Line) -> Text
    ensures { result.items ≡ told_text line.now }
{
    let mut text = Text::new();
    match *line {
        Line::Process(_) => {}
        _ => line_text(*line, &mut text),
    }
    text
}

/// The note in the line of this number that this is missing.
fn note_in(number: u32, line: &Line, missing: &Missing) -> Option<Note>
    ensures { result ≡ Some (note_at number (told_text line.now) missing.now) }
{
    let text = told_text(line);
    let mut notes = Notes::new();
    note_at(&mut notes, u64::from(number), text.as_slice(), missing);
    match notes.as_slice() {
        [first, ..] => Some(*first),
        [] => None,
    }
}

/// The note on a line of this number that is refused behind these lines, if it names or asks for what isn't there.
///
/// # Errors
///
/// Out of memory.
pub fn note_on(
    alloc: Global,
    before: &[Line],
    number: u32,
    line: &Line,
    why: LineRefusal,
) -> Result<Option<Note>, Stop>
    ensures { IfOk result (λ o. o ≡ note_on before.now number line.now why) }
{
    match missing_in(alloc, before, line, why)? {
        Some(missing) => Ok(note_in(number, line, &missing)),
        None => Ok(None),
    }
}
