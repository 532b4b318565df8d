ghost use Rattle.std.specs.Prelude.{◌≡◌, ◌≤◌, ◌∷◌, [], true, false, Err, Ok, IfErr, IfOk, length, option_copied};
ghost use Rattle.pif_script_model.specs.Checks.{IsUntold, OkExactly, StrictExactly, TellsTo, WritesTelling, check_end, check_telling, checked_telling, fill_telling, flaws_beside, flaws_telling, script_fault, strict_telling, title_telling, titled_telling};
ghost use Rattle.pif_script_model.specs.Lines.{lines, lines_behind, plain_lines};
ghost use Rattle.pif_script_model.specs.Stories.{count_in, script_of};
ghost use Rattle.pif_script_model.specs.Verdicts.{faulty, flaws_of};
ghost use Rattle.pif_story.specs.Notes.{TellsNoting, story_notes};
ghost use Rattle.pif_text_model.specs.declared.replies.Cause.TheVariants.{Size};

use pif_script::{CliFault, Notice, read_all, write_whole};
use pif_script_core::run_story;
use pif_script_model::Flaw;
use pif_story::{
    MOST, Notes, compare, count_commands, filled_text, line_at_end, notes_beside, plain_story,
    script_of, titled_story, verdict_text,
};
use pif_text::Cause;
use std::alloc::{AllocError, Global};
use std::io::{Read, Write};

/// What is written for a story, and how that ends.
type Telling = (Vec<u8>, Result<(), CliFault>);

/// What a check tells of a story, and the notes on it.
type Noted = (Telling, Notes);

/// A story with nothing but its words.
///
/// # Errors
///
/// `NoMemory`.
fn words_of(alloc: Global, story: &[u8]) -> Result<Vec<u8>, CliFault>
    ensures lines { IfOk result (λ plain. lines plain.items ≡ plain_lines story.now) }
    ensures shorter { IfOk result (λ plain. length plain.items ≤ length story.now) }
    ensures failed { IfErr result IsUntold }
{
    match plain_story(alloc, story) {
        Ok(plain) => Ok(plain),
        Err(_) => Err(CliFault::NoMemory),
    }
}

/// How a check ends that finds these flaws.
fn check_end(flaws: &[Flaw<'_>]) -> Result<(), CliFault>
    ensures { result ≡ check_end (flaws_of flaws.now) }
{
    match flaws {
        [] => Ok(()),
        [flaw, ..] => match *flaw {
            Flaw::Fault(line, _, cause) => Err(CliFault::Script(line, cause)),
            Flaw::Differs(line, ..) | Flaw::Refused(line, ..) => Err(CliFault::Differs(line)),
        },
    }
}

/// Has `notice` keep the command of the first flaw, if that is a fault or a refusal.
fn note(flaws: &[Flaw<'_>], notice: &mut Notice) {
    if let Some(flaw) = flaws.first() {
        match *flaw {
            Flaw::Fault(_, command, _) | Flaw::Refused(_, command, _) => {
                notice.keep_command(command)
            }
            Flaw::Differs(..) => {}
        }
    }
}

/// What is told of a story of this name with so many commands and these flaws; `notice` keeps the command of the first
/// flaw, if that is a fault or a refusal.
fn tell(
    alloc: Global,
    name: &[u8],
    commands: usize,
    flaws: &[Flaw<'_>],
    notice: &mut Notice,
) -> Result<Telling, CliFault>
    ensures told { IfOk result (λ telling. (telling.0.items, telling.1) ≡ flaws_telling name.now commands (flaws_of flaws.now)) }
    ensures failed { IfErr result IsUntold }
{
    note(flaws, notice);
    match verdict_text(alloc, name, commands, flaws) {
        Ok(text) => Ok((text, check_end(flaws))),
        Err(_) => Err(CliFault::NoMemory),
    }
}

/// The flaw of a story that is too large.
///
/// # Errors
///
/// A growth of memory was refused.
fn too_large<'a>(alloc: Global, line: u64) -> Result<Vec<Flaw<'a>>, AllocError>
    ensures { IfOk result (λ flaws. flaws_of flaws.items ≡ faulty line [] Size ∷ []) }
{
    let mut flaws = Vec::new(alloc);
    flaws.push(Flaw::Fault(line, b"", Cause::Size))?;
    Ok(flaws)
}

/// All flaws of a story, which may be too large. `plain` is the story with nothing but its words.
///
/// # Errors
///
/// A growth of memory was refused.
#[tactic(auto, unfolding(pif_script_model::specs::Checks::flaws_beside))]
fn judge<'a>(
    alloc: Global,
    strict: bool,
    story: &[u8],
    plain: &'a [u8],
    answers: Option<&'a [u8]>,
    fault: Option<(u64, Cause)>,
) -> Result<Vec<Flaw<'a>>, AllocError>
    requires lines { lines plain.now ≡ plain_lines story.now }
    requires shorter { length plain.now ≤ length story.now }
    requires fault { fault ≡ script_fault (script_of story.now) }
    ensures { IfOk result (λ flaws. flaws_of flaws.items ≡ flaws_beside strict story.now (lines_behind (option_copied answers.entry))) }
{
    if story.len() > MOST {
        return too_large(alloc, line_at_end(&story[..MOST]));
    }
    compare(alloc, strict, plain, answers, fault)
}

/// What a check tells of a story of this name, and the notes on it.
#[tactic(auto, unfolding(pif_script_model::specs::Checks::checked_telling, pif_script_model::specs::Checks::story_flaws, pif_script_model::specs::Stories::script_of, pif_story::specs::Notes::story_notes))]
fn check_text(
    alloc: Global,
    strict: bool,
    name: &[u8],
    story: &[u8],
    notice: &mut Notice,
) -> Result<Noted, CliFault>
    ensures told { IfOk result (λ noted. (noted.0.0.items, noted.0.1) ≡ checked_telling strict name.now story.now) }
    ensures notes { IfOk result (λ noted. noted.1.items ≡ story_notes story.now) }
    ensures failed { IfErr result IsUntold }
{
    let plain = words_of(alloc, story)?;
    let words = plain.as_slice();
    let (output, fault) = run_story(alloc, words)?;
    let Ok(flaws) = judge(alloc, strict, story, words, Some(output.as_slice()), fault) else {
        return Err(CliFault::NoMemory);
    };
    let notes = notes_beside(story, words, output.as_slice());
    let telling = tell(alloc, name, count_commands(words), flaws.as_slice(), notice)?;
    Ok((telling, notes))
}

/// What is told of a story of this name that is filled in.
#[tactic(auto, unfolding(pif_script_model::specs::Checks::fill_telling, pif_script_model::specs::Stories::script_of))]
fn fill_text(
    alloc: Global,
    name: &[u8],
    story: &[u8],
    notice: &mut Notice,
) -> Result<Telling, CliFault>
    ensures told { IfOk result (λ telling. (telling.0.items, telling.1) ≡ fill_telling name.now story.now) }
    ensures failed { IfErr result IsUntold }
{
    let plain = words_of(alloc, story)?;
    let words = plain.as_slice();
    let (output, fault) = run_story(alloc, words)?;
    let Ok(flaws) = judge(alloc, false, story, words, None, fault) else {
        return Err(CliFault::NoMemory);
    };
    let found = flaws.as_slice();
    match found {
        [] => match filled_text(alloc, story, words, output.as_slice()) {
            Ok(text) => Ok((text, Ok(()))),
            Err(_) => Err(CliFault::NoMemory),
        },
        [_, ..] => tell(alloc, name, 0, found, notice),
    }
}

/// Writes what is to be told, and answers how that ends.
fn write_telling<W: Write>(telling: Telling, writer: &mut W) -> Result<(), CliFault>
    ensures { WritesTelling (W.contents writer.old) (W.contents writer.new) telling.0.items telling.1 result }
{
    let (text, end) = telling;
    write_whole(writer, text.as_slice())?;
    end
}

/// Checks a story: reads its bytes to the end, runs the script that is left when comments, empty lines and answers are
/// taken out, and asks of each answer that is written whether it says what `run` prints for its command. One line is
/// written if it does: `ok` with `name` and the number of commands. Else a line with `name` is written for each flaw,
/// and from the 21st on one line for all that are left. A flaw is a command with the answer that is written and the one
/// that the core gives, or the fault of the script, which is the last. Lines are counted in the story, from 1. It is
/// kept in memory, and so is what `run` prints.
///
/// # Errors
///
/// By the first flaw, which were all written then: `Script` with the line of the fault, and `Differs` with that of a
/// difference; `Read`, if the reader fails, and `NoMemory`, and nothing was written; and `Write`, if the writer fails
/// or takes no byte.
pub fn check<R: Read, W: Write>(
    alloc: Global,
    name: &[u8],
    reader: &mut R,
    writer: &mut W,
) -> Result<(), CliFault>
    ensures { TellsTo (check_telling name.now) (R.remaining reader.old) (R.remaining reader.new)
        (W.contents writer.old) (W.contents writer.new) result }
{
    check_noting(alloc, name, reader, writer, &mut Notice::new())?;
    Ok(())
}

/// Checks a story as `check` does, and answers the notes on it, as `story_notes` does. `notice` keeps the command of
/// the first flaw if that is a fault; else it is left as it is.
///
/// # Errors
///
/// Those of `check`.
pub fn check_noting<R: Read, W: Write>(
    alloc: Global,
    name: &[u8],
    reader: &mut R,
    writer: &mut W,
    notice: &mut Notice,
) -> Result<Notes, CliFault>
    ensures noted { IfOk result (λ notes. TellsNoting (check_telling name.now) (R.remaining reader.old) (R.remaining reader.new)
        (W.contents writer.old) (W.contents writer.new) (Ok notes.items)) }
    ensures failed { IfErr result (λ fault. TellsNoting (check_telling name.now) (R.remaining reader.old) (R.remaining reader.new)
        (W.contents writer.old) (W.contents writer.new) (Err fault)) }
{
    let story = read_all(alloc, reader)?;
    let (telling, notes) = check_text(alloc, false, name, story.as_slice(), notice)?;
    write_telling(telling, writer)?;
    Ok(notes)
}

/// Checks a story as `check` does, and finds a flaw, too, if a command has no answer behind it and the core refuses it:
/// its line has the refusal. `notice` keeps the command of the first flaw if that is a fault or such a refusal; else it
/// is left as it is.
///
/// # Errors
///
/// Those of `check`, and `Differs` with the line of such a refusal.
pub fn check_strictly<R: Read, W: Write>(
    alloc: Global,
    name: &[u8],
    reader: &mut R,
    writer: &mut W,
    notice: &mut Notice,
) -> Result<(), CliFault>
    ensures { TellsTo (strict_telling name.now) (R.remaining reader.old) (R.remaining reader.new)
        (W.contents writer.old) (W.contents writer.new) result }
{
    let story = read_all(alloc, reader)?;
    let (telling, _) = check_text(alloc, true, name, story.as_slice(), notice)?;
    write_telling(telling, writer)
}

/// Fills in a story: reads its bytes to the end, and writes it with the answer that `run` prints behind each of its
/// commands, in the place of what is written there, in one column. All else is written as it stands. A story with a
/// fault is not written, and the line is that `check` writes of it, with `name` at its front.
///
/// # Errors
///
/// `Script` with the line of the fault; `Read`, if the reader fails, and `NoMemory`, and nothing was written; and
/// `Write`, if the writer fails or takes no byte.
pub fn fill<R: Read, W: Write>(
    alloc: Global,
    name: &[u8],
    reader: &mut R,
    writer: &mut W,
) -> Result<(), CliFault>
    ensures { TellsTo (fill_telling name.now) (R.remaining reader.old) (R.remaining reader.new)
        (W.contents writer.old) (W.contents writer.new) result }
{
    fill_noting(alloc, name, reader, writer, &mut Notice::new())
}

/// Fills in a story as `fill` does, and has `notice` keep the command that is a fault; if there is none, `notice` is
/// left as it is.
///
/// # Errors
///
/// Those of `fill`.
pub fn fill_noting<R: Read, W: Write>(
    alloc: Global,
    name: &[u8],
    reader: &mut R,
    writer: &mut W,
    notice: &mut Notice,
) -> Result<(), CliFault>
    ensures { TellsTo (fill_telling name.now) (R.remaining reader.old) (R.remaining reader.new)
        (W.contents writer.old) (W.contents writer.new) result }
{
    let story = read_all(alloc, reader)?;
    let telling = fill_text(alloc, name, story.as_slice(), notice)?;
    write_telling(telling, writer)
}

/// A telling of a story of this name that is filled in, behind a comment with the name; any other one as it is.
fn title(alloc: Global, name: &[u8], telling: Telling) -> Result<Telling, CliFault>
    ensures told { IfOk result (λ titled. (titled.0.items, titled.1) ≡ title_telling name.now (telling.0.items, telling.1)) }
    ensures failed { IfErr result IsUntold }
{
    let (text, end) = telling;
    if end.is_err() {
        return Ok((text, end));
    }
    match titled_story(alloc, name, text.as_slice()) {
        Ok(titled) => Ok((titled, end)),
        Err(_) => Err(CliFault::NoMemory),
    }
}

/// What is told of a story of this name that is filled in as one of several.
#[tactic(auto, unfolding(pif_script_model::specs::Checks::titled_telling))]
fn fill_titled(
    alloc: Global,
    name: &[u8],
    story: &[u8],
    notice: &mut Notice,
) -> Result<Telling, CliFault>
    ensures told { IfOk result (λ telling. (telling.0.items, telling.1) ≡ titled_telling name.now story.now) }
    ensures failed { IfErr result IsUntold }
{
    let telling = fill_text(alloc, name, story, notice)?;
    title(alloc, name, telling)
}

/// Fills in one of several stories, as `fill_noting` does: it stands behind a comment with its name, and has an LF at
/// its end. So a story may stand behind it. A byte order mark at its front is left out.
///
/// # Errors
///
/// Those of `fill`.
pub fn fill_as_one_of_several<R: Read, W: Write>(
    alloc: Global,
    name: &[u8],
    reader: &mut R,
    writer: &mut W,
    notice: &mut Notice,
) -> Result<(), CliFault>
    ensures { TellsTo (titled_telling name.now) (R.remaining reader.old) (R.remaining reader.new)
        (W.contents writer.old) (W.contents writer.new) result }
{
    let story = read_all(alloc, reader)?;
    let telling = fill_titled(alloc, name, story.as_slice(), notice)?;
    write_telling(telling, writer)
}

/// A check of a story of at most 16,777,216 bytes is ok exactly if the script that is left has no fault, and each
/// command with an answer has one that says what `run` prints for it.
pub fn ok_is_exact()
    ensures { OkExactly }
{}

/// A strict check of a story of at most 16,777,216 bytes is ok exactly if, besides, no command without an answer is
/// refused.
pub fn strict_is_exact()
    ensures { StrictExactly }
{}
