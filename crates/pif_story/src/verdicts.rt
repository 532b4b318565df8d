ghost use Rattle.std.specs.Prelude.{◌≡◌, ◌++◌, OnOk, IfOk, codes, filter, flat_map, take};
ghost use Rattle.pif_text_model.specs.Replies.{fault_of};
ghost use Rattle.pif_script_model.specs.Lines.{is_no_blank};
ghost use Rattle.pif_script_model.specs.Verdicts.{differing_line, flaw_line, flaw_of, flaws_of, more_line, ok_line, refusing_line, same_but_blanks, shown, verdict_text};

use crate::lines::is_blank;
use crate::parts::{Part, append_parts};
use pif_script_model::Flaw;
use pif_text::{Cause, Text, fault_text};
use std::alloc::{AllocError, Global};

/// How many flaws of a story have a line of their own.
const MOST_FLAWS: usize = 20;

/// Appends the line of a story of this name that is ok, and has so many commands.
fn append_ok(text: &mut Vec<u8>, name: &[u8], commands: usize) -> Result<(), AllocError>
    ensures { OnOk result (text.new.items ≡ text.old.items ++ ok_line name.now commands) }
{
    append_parts(
        text,
        &[
            Part::Bytes(b"ok "),
            Part::Bytes(name),
            Part::Bytes(b" "),
            Part::Number(commands as u64),
            Part::Bytes(b"\n"),
        ],
    )
}

/// What is said of a fault in this line.
fn fault_words(number: u64, cause: Cause) -> Text
    ensures { result.items ≡ fault_of number cause }
{
    let mut words = Text::new();
    fault_text(number, cause, &mut words);
    words
}

/// Appends the line of a fault, of which this is said.
fn append_fault<'a>(
    text: &mut Vec<u8>,
    name: &'a [u8],
    words: &'a [u8],
    command: &'a [u8],
) -> Result<(), AllocError>
    ensures { OnOk result (text.new.items
        ≡ text.old.items ++ (name.now ++ codes ": " ++ words.now ++ codes ": " ++ shown command.now ++ codes "\n")) }
{
    append_parts(
        text,
        &[
            Part::Bytes(name),
            Part::Bytes(b": "),
            Part::Bytes(words),
            Part::Bytes(b": "),
            Part::Shown(command),
            Part::Bytes(b"\n"),
        ],
    )
}

/// A text without its blanks.
///
/// # Errors
///
/// A growth of memory was refused.
fn without_any_blank(alloc: Global, text: &[u8]) -> Result<Vec<u8>, AllocError>
    ensures { IfOk result (λ bytes. bytes.items ≡ filter is_no_blank text.now) }
{
    let mut bytes = Vec::new(alloc);
    for byte in text {
        if !is_blank(*byte) {
            bytes.push(*byte)?;
        }
    }
    Ok(bytes)
}

/// Whether two texts have the same bytes besides their blanks.
///
/// # Errors
///
/// A growth of memory was refused.
#[tactic(auto, unfolding(pif_script_model::specs::Verdicts::same_but_blanks))]
fn is_same_but_blanks(alloc: Global, one: &[u8], other: &[u8]) -> Result<bool, AllocError>
    ensures { IfOk result (λ same. same ≡ same_but_blanks one.now other.now) }
{
    let first = without_any_blank(alloc, one)?;
    let second = without_any_blank(alloc, other)?;
    Ok(first.as_slice() == second.as_slice())
}

/// Appends the line of an answer that is another one than the core gives.
fn append_difference<'a>(
    alloc: Global,
    text: &mut Vec<u8>,
    name: &'a [u8],
    number: u64,
    command: &'a [u8],
    written: &'a [u8],
    given: &'a [u8],
) -> Result<(), AllocError>
    ensures { OnOk result (text.new.items ≡ text.old.items ++ differing_line name.now number command.now written.now given.now) }
{
    let quoted = is_same_but_blanks(alloc, written, given)?;
    append_parts(
        text,
        &[
            Part::Bytes(name),
            Part::Bytes(b": differs "),
            Part::Number(number),
            Part::Bytes(b": "),
            Part::Shown(command),
            Part::Bytes(b" = "),
            Part::Quoted(quoted, written),
            Part::Bytes(b", but the core gives "),
            Part::Quoted(quoted, given),
            Part::Bytes(b"\n"),
        ],
    )
}

/// Appends the line of a refusal that has no answer beside it.
fn append_refusal<'a>(
    text: &mut Vec<u8>,
    name: &'a [u8],
    number: u64,
    command: &'a [u8],
    given: &'a [u8],
) -> Result<(), AllocError>
    ensures { OnOk result (text.new.items ≡ text.old.items ++ refusing_line name.now number command.now given.now) }
{
    append_parts(
        text,
        &[
            Part::Bytes(name),
            Part::Bytes(b": refused "),
            Part::Number(number),
            Part::Bytes(b": "),
            Part::Shown(command),
            Part::Bytes(b": "),
            Part::Shown(given),
            Part::Bytes(b"\n"),
        ],
    )
}

/// Appends the line of a flaw.
#[tactic(auto, unfolding(pif_script_model::specs::Verdicts::flaw_line))]
fn append_flaw(
    alloc: Global,
    text: &mut Vec<u8>,
    name: &[u8],
    flaw: &Flaw<'_>,
) -> Result<(), AllocError>
    ensures { OnOk result (text.new.items ≡ text.old.items ++ flaw_line name.now (flaw_of flaw.now)) }
{
    match *flaw {
        Flaw::Fault(number, command, cause) => {
            let words = fault_words(number, cause);
            append_fault(text, name, words.as_slice(), command)
        }
        Flaw::Differs(number, command, written, given) => {
            append_difference(alloc, text, name, number, command, written, given)
        }
        Flaw::Refused(number, command, given) => {
            append_refusal(text, name, number, command, given)
        }
    }
}

/// Appends the line of so many flaws that have none of their own, if there are any.
fn append_more(text: &mut Vec<u8>, name: &[u8], more: usize) -> Result<(), AllocError>
    ensures { OnOk result (text.new.items ≡ text.old.items ++ more_line name.now more) }
{
    if more == 0 {
        return Ok(());
    }
    append_parts(
        text,
        &[
            Part::Bytes(name),
            Part::Bytes(b": and "),
            Part::Number(more as u64),
            Part::Bytes(b" more\n"),
        ],
    )
}

/// Appends the lines of the first flaws.
fn append_first(
    alloc: Global,
    text: &mut Vec<u8>,
    name: &[u8],
    flaws: &[Flaw<'_>],
) -> Result<(), AllocError>
    ensures { OnOk result (text.new.items ≡ text.old.items ++ flat_map (flaw_line name.now) (take 20 (flaws_of flaws.now))) }
{
    for flaw in &flaws[..MOST_FLAWS.min(flaws.len())] {
        append_flaw(alloc, text, name, flaw)?;
    }
    Ok(())
}

/// What is said of a story of this name that has so many commands and these flaws: that it is ok, or a line for each of
/// the first flaws, and one for all behind them.
///
/// # Errors
///
/// A growth of memory was refused.
#[tactic(auto, unfolding(pif_script_model::specs::Verdicts::flaw_lines))]
pub fn verdict_text(
    alloc: Global,
    name: &[u8],
    commands: usize,
    flaws: &[Flaw<'_>],
) -> Result<Vec<u8>, AllocError>
    ensures { IfOk result (λ text. text.items ≡ verdict_text name.now commands (flaws_of flaws.now)) }
{
    let mut text = Vec::new(alloc);
    match flaws {
        [] => append_ok(&mut text, name, commands)?,
        [_, ..] => {
            append_first(alloc, &mut text, name, flaws)?;
            append_more(&mut text, name, flaws.len().saturating_sub(MOST_FLAWS))?;
        }
    }
    Ok(text)
}
