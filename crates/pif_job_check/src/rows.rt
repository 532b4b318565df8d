ghost use Rattle.std.specs.Prelude.{◌≡◌, ◌≤◌, ◌<◌, ◌∷◌, [], ◌++◌, IfOk, OnOk, length, take};
ghost use Rattle.pif_text_model.specs.Commands.{command_in};
ghost use Rattle.pif_script_model.specs.Lines.{lines, plain_lines};
ghost use Rattle.pif_script_model.specs.Rows.{AreRowsOf, filling_end, line_outcome, size_fault};
ghost use Rattle.pif_script_model.specs.Stories.{rows_from, rows_of};
ghost use Rattle.pif_job_check.specs.Rows.{EndsSo, FillsRows, IsHeard, IsRun};

use pif_core::Core;
use pif_script::{CliFault, Ending, MOST_LINE, Notice, OpenFault};
use pif_script_core::do_command;
use pif_script_model::AnsweredRow;
use pif_story::{MOST, line_at_end, row_of, split_line};
use pif_text::{Cause, Command, Reply, command_of};
use std::alloc::{AllocError, Global};

/// Why a line of a script is a fault behind so many bytes, whatever it asks for: the script is too large with it, or it
/// is too long. These are its bytes before the LF.
#[tactic(auto, unfolding(pif_script_model::specs::Rows::size_fault))]
fn size_fault(taken: usize, words: &[u8]) -> Option<Cause>
    requires { taken ≤ 16777216 }
    ensures { result ≡ size_fault taken words.now }
{
    let size = words.len();
    if taken + size.min(MOST_LINE) >= MOST {
        Some(Cause::Size)
    } else if size > MOST_LINE {
        Some(Cause::Long)
    } else {
        None
    }
}

/// Has a core do what the words of a command ask, or makes the core if it is the first one. Answers what they ask for,
/// and what that is answered.
///
/// # Errors
///
/// The cause, if the command is a fault; and `NoMemory`.
fn do_words(
    alloc: Global,
    core: &mut Option<Core>,
    words: &[u8],
) -> Result<(Command, Reply), OpenFault>
    ensures { IsHeard core.old words.now core.new result }
{
    let Some(command) = command_of(words) else {
        return Err(OpenFault::Ended(Ending::Fault(Cause::Command)));
    };
    let asked = command;
    match do_command(alloc, core, command) {
        Ok(reply) => Ok((asked, reply)),
        Err(fault) => Err(fault),
    }
}

/// Appends an item.
fn keep<T: Copy + Drop>(items: &mut Vec<T>, item: &T) -> Result<(), AllocError>
    ensures { OnOk result (items.new.items ≡ items.old.items ++ item.now ∷ []) }
{
    items.push(*item)?;
    Ok(())
}

/// Runs the command in the line of this number, behind so many bytes of its script, and appends it with its answer.
/// Answers the cause, if it is a fault.
///
/// # Errors
///
/// A growth of memory was refused.
fn add_row<'a>(
    alloc: Global,
    core: &mut Option<Core>,
    taken: usize,
    line: u32,
    words: &'a [u8],
    rows: &mut Vec<AnsweredRow<'a>>,
) -> Result<Option<Cause>, AllocError>
    requires { taken ≤ 16777216 }
    ensures { IfOk result (λ fault. IsRun (line_outcome core.old taken words.now) (line, words.now, command_in words.now)
        core.new rows.old.items rows.new.items fault) }
{
    if let Some(cause) = size_fault(taken, words) {
        return Ok(Some(cause));
    }
    match do_words(alloc, core, words) {
        Ok((command, reply)) => {
            let row = AnsweredRow {
                line,
                words,
                command,
                reply,
            };
            keep(rows, &row)?;
            Ok(None)
        }
        Err(OpenFault::Ended(Ending::Fault(cause))) => Ok(Some(cause)),
        Err(_) => Err(AllocError),
    }
}

/// Runs the commands of a story that is not too large, of which nothing but its words is given. Answers them with their
/// answers. `notice` keeps the command that is a fault; if there is none, it is left as it is.
///
/// # Errors
///
/// Those of `fill_rows`.
#[tactic(auto, using(pif_script_model::proofs::StoriesLemmas::rows_from_passed))]
fn run_rows<'a>(
    alloc: Global,
    plain: &'a [u8],
    notice: &mut Notice,
) -> Result<Vec<AnsweredRow<'a>>, CliFault>
    requires { length plain.now ≤ 16777216 }
    ensures filled { EndsSo (filling_end (lines plain.now)) result }
    ensures rows { IfOk result (λ rows. AreRowsOf (rows_from 1 (lines plain.now)) rows.items) }
    ensures unnoted { OnOk result (notice.new ≡ notice.old) }
{
    let mut core = None;
    let mut rows = Vec::new(alloc);
    let mut rest = Some(plain);
    let mut line = 0u32;
    let mut taken = 0usize;
    'lines: while let Some(text) = rest {
        let (written, behind) = split_line(text);
        rest = behind;
        line += 1;
        if let Some((words, _)) = row_of(written) {
            match add_row(alloc, &mut core, taken, line, words, &mut rows) {
                Ok(None) => taken += words.len() + 1,
                Ok(Some(cause)) => {
                    notice.keep_command(words);
                    return Err(CliFault::Script(u64::from(line), cause));
                }
                Err(_) => return Err(CliFault::NoMemory),
            }
        }
    }
    Ok(rows)
}

/// In which line of a story the byte stands that is one too many.
fn last_line(story: &[u8]) -> u64
    requires { 16777216 < length story.now }
    ensures { result ≡ length (lines (take 16777216 story.now)) }
{
    line_at_end(&story[..MOST])
}

/// Fills in a story that is in memory, as rows. `plain` is the story with nothing but its words, as `plain_story` makes
/// it. Answers each of its commands, in their order: the number of its line, its words, what they ask for, and what that
/// is answered. Each is read and run once. `notice` keeps the command that is a fault; if there is none, it is left as it
/// is.
///
/// # Errors
///
/// `Script` with the line of the first fault, as of `fill`; and `NoMemory`.
pub fn fill_rows<'a>(
    alloc: Global,
    story: &[u8],
    plain: &'a [u8],
    notice: &mut Notice,
) -> Result<Vec<AnsweredRow<'a>>, CliFault>
    requires lines { lines plain.now ≡ plain_lines story.now }
    requires shorter { length plain.now ≤ length story.now }
    ensures filled { FillsRows story.now result }
    ensures rows { IfOk result (λ rows. AreRowsOf (rows_of story.now) rows.items) }
    ensures unnoted { OnOk result (notice.new ≡ notice.old) }
{
    if story.len() > MOST {
        notice.keep_command(b"");
        return Err(CliFault::Script(last_line(story), Cause::Size));
    }
    run_rows(alloc, plain, notice)
}
