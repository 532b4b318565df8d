ghost use Rattle.std.specs.Prelude.{◌≡◌, ◌++◌, ◌≤◌, [], length, option_copied, option_map, IfOk, OnOk};
ghost use Rattle.std.specs.List.{cons_option};
ghost use Rattle.pif_script_model.specs.Comparing.{cause_at, row_flaws};
ghost use Rattle.pif_script_model.specs.Filling.{more_answers};
ghost use Rattle.pif_script_model.specs.Lines.{lines, lines_behind};
ghost use Rattle.pif_script_model.specs.Stories.{count_in, rows_from};
ghost use Rattle.pif_script_model.specs.Verdicts.{fault_flaws, flaw_beside, flaw_of, flaws_of, flaws_of_rows, is_refusal};

use crate::answers::says;
use crate::lines::{LineAndReply, row_of, split_line};
use pif_script_model::Flaw;
use pif_text::Cause;
use std::alloc::{AllocError, Global};

/// How many commands a story has, of which nothing but its words is given.
#[tactic(auto, using(pif_script_model::proofs::StoriesLemmas::count_in_nothing, pif_script_model::proofs::StoriesLemmas::count_in_passed, pif_script_model::proofs::StoriesLemmas::count_in_row))]
pub fn count_commands(story: &[u8]) -> usize
    ensures { result ≡ count_in (lines story.now) }
{
    let mut count = 0;
    let mut rest = Some(story);
    'lines: while let Some(text) = rest {
        let (line, behind) = split_line(text);
        rest = behind;
        if row_of(line).is_some() {
            count += 1;
        }
    }
    count
}

/// The cause, if the script ends at the command of this number, from 1, or before it.
fn cause_at(fault: Option<(u64, Cause)>, number: u64) -> Option<Cause>
    ensures { result ≡ cause_at fault number }
{
    match fault {
        Some((line, cause)) => if line <= number { Some(cause) } else { None },
        None => None,
    }
}

/// Whether it is printed that a command is refused.
#[tactic(auto, unfolding(pif_script_model::specs::Verdicts::is_refusal))]
pub fn is_refusal(given: &[u8]) -> bool
    ensures { result ≡ is_refusal given.now }
{
    given.starts_with(b"refused ")
}

/// The flaw of a command in the line of this number, beside what is printed for it, if it has one.
fn flaw_beside<'a>(
    strict: bool,
    number: u64,
    row: LineAndReply<'a>,
    given: &'a [u8],
) -> Option<Flaw<'a>>
    ensures { option_map flaw_of result ≡ flaw_beside strict number row.entry.0.now (option_copied row.entry.1) given.now }
{
    let (command, written) = row;
    match written {
        Some(written) => if says(written, given) {
            None
        } else {
            Some(Flaw::Differs(number, command, written, given))
        },
        None => if strict && is_refusal(given) {
            Some(Flaw::Refused(number, command, given))
        } else {
            None
        },
    }
}

/// Appends a flaw, if there is one.
fn keep_flaw<'a>(flaws: &mut Vec<Flaw<'a>>, flaw: Option<Flaw<'a>>) -> Result<(), AllocError>
    ensures { OnOk result (flaws_of flaws.new.items ≡ flaws_of flaws.old.items ++ cons_option (option_map flaw_of flaw.entry) []) }
{
    if let Some(flaw) = flaw {
        flaws.push(flaw)?;
    }
    Ok(())
}

/// Appends the flaw of a fault behind the last command, if there is one: it is in the last line.
fn keep_fault<'a>(
    flaws: &mut Vec<Flaw<'a>>,
    last: u64,
    fault: Option<(u64, Cause)>,
) -> Result<(), AllocError>
    ensures { OnOk result (flaws_of flaws.new.items ≡ flaws_of flaws.old.items ++ fault_flaws last fault []) }
{
    if let Some((_, cause)) = fault {
        flaws.push(Flaw::Fault(last, b"", cause))?;
    }
    Ok(())
}

/// Compares a command in the line of this number with the first of the lines that are printed from there on, and
/// appends its flaw, if it has one. Answers the lines behind it.
fn compare_row<'a>(
    strict: bool,
    number: u64,
    row: LineAndReply<'a>,
    answers: Option<&'a [u8]>,
    flaws: &mut Vec<Flaw<'a>>,
) -> Result<Option<&'a [u8]>, AllocError>
    ensures flaws { OnOk result (flaws_of flaws.new.items
        ≡ flaws_of flaws.old.items ++ row_flaws strict number (row.entry.0.now, option_copied row.entry.1) (lines_behind (option_copied answers.entry))) }
    ensures left { IfOk result (λ left. lines_behind (option_copied left) ≡ more_answers (lines_behind (option_copied answers.entry))) }
{
    match answers {
        Some(output) => {
            let (given, more) = split_line(output);
            keep_flaw(flaws, flaw_beside(strict, number, row, given))?;
            Ok(more)
        }
        None => Ok(None),
    }
}

/// Compares the commands of a story, of which nothing but its words is given, with the lines that are printed for its
/// script, which has this first fault or none; if no text is given, nothing is compared. Answers all flaws, in the
/// order of the lines; a strict comparison wants an answer beside each refusal.
///
/// # Errors
///
/// A growth of memory was refused.
#[tactic(auto, using(pif_script_model::proofs::ComparingLemmas::flaws_start, pif_script_model::proofs::StoriesLemmas::rows_from_passed))]
pub fn compare<'a>(
    alloc: Global,
    strict: bool,
    story: &'a [u8],
    output: Option<&'a [u8]>,
    fault: Option<(u64, Cause)>,
) -> Result<Vec<Flaw<'a>>, AllocError>
    requires { length story.now ≤ 16777216 }
    ensures { IfOk result (λ flaws. flaws_of flaws.items
        ≡ flaws_of_rows strict (length (lines story.now)) fault (rows_from 1 (lines story.now))
        (lines_behind (option_copied output.entry))) }
{
    let mut flaws = Vec::new(alloc);
    let mut rest = Some(story);
    let mut answers = output;
    let mut number = 0;
    let mut commands = 0;
    'lines: while let Some(text) = rest {
        let (line, behind) = split_line(text);
        rest = behind;
        number += 1;
        if let Some(row) = row_of(line) {
            commands += 1;
            if let Some(cause) = cause_at(fault, commands) {
                flaws.push(Flaw::Fault(number, row.0, cause))?;
                return Ok(flaws);
            }
            answers = compare_row(strict, number, row, answers, &mut flaws)?;
        }
    }
    keep_fault(&mut flaws, number, fault)?;
    Ok(flaws)
}
