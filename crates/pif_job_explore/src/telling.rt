//! What is told of schedules on cores, as bytes.
ghost use Rattle.std.specs.Prelude.{◌≡◌, ◌++◌, OnOk, flat_map};
ghost use Rattle.pif_job_explore.specs.Lines.{claim_told, count_told, mark_told, outcome_told, played_told};

use crate::playing::{Mark, Played};
use pif_explore_told::push_numbers;
use pif_search::Stop;

/// Appends the number of a mark behind a word, and whether it is met in these words.
fn push_mark(out: &mut Vec<u8>, mark: &Mark, word: &str, met: &str, unmet: &str) -> Result<(), Stop>
    ensures { OnOk result (out.new.items ≡ out.old.items ++ mark_told word.now met.now unmet.now mark.now) }
{
    let numbers = [(word, mark.number as u64)];
    if mark.is_met {
        push_numbers(out, &numbers, met)
    } else {
        push_numbers(out, &numbers, unmet)
    }
}

/// Appends whether schedules came to an outcome.
fn push_outcome(out: &mut Vec<u8>, mark: &Mark) -> Result<(), Stop>
    ensures { OnOk result (out.new.items ≡ out.old.items ++ outcome_told mark.now) }
{
    let unseen = ": not seen on the core\n";
    push_mark(out, mark, "outcome ", ": seen on the core\n", unseen)
}

/// Appends that of each outcome.
fn push_outcomes(out: &mut Vec<u8>, marks: &[Mark]) -> Result<(), Stop>
    ensures { OnOk result (out.new.items ≡ out.old.items ++ flat_map outcome_told marks.now) }
{
    for mark in marks {
        push_outcome(out, mark)?;
    }
    Ok(())
}

/// Appends whether schedules broke the claim of a line, or met the condition that some state has to meet.
fn push_claim(out: &mut Vec<u8>, mark: &Mark) -> Result<(), Stop>
    ensures { OnOk result (out.new.items ≡ out.old.items ++ claim_told mark.now) }
{
    if mark.is_wanted {
        let unmet = ": not met on the core\n";
        push_mark(out, mark, "claim at ", ": met on the core\n", unmet)
    } else {
        let unbroken = ": not broken on the core\n";
        push_mark(out, mark, "claim at ", ": broken on the core\n", unbroken)
    }
}

/// Appends that of each claim.
fn push_claims(out: &mut Vec<u8>, marks: &[Mark]) -> Result<(), Stop>
    ensures { OnOk result (out.new.items ≡ out.old.items ++ flat_map claim_told marks.now) }
{
    for mark in marks {
        push_claim(out, mark)?;
    }
    Ok(())
}

/// Appends a count and what it counts, unless it is 0.
fn push_count(out: &mut Vec<u8>, count: u32, words: &str) -> Result<(), Stop>
    ensures { OnOk result (out.new.items ≡ out.old.items ++ count_told words.now count) }
{
    if count == 0 {
        return Ok(());
    }
    push_numbers(out, &[("", u64::from(count))], words)
}

/// Appends what so many schedules came to: a line for each outcome, one for each claim, and how many schedules there were.
///
/// # Errors
///
/// Out of memory. A part of the text may have been appended then.
pub fn push_played(out: &mut Vec<u8>, played: &Played, schedules: u32) -> Result<(), Stop>
    ensures { OnOk result (out.new.items ≡ out.old.items ++ played_told played.now schedules) }
{
    push_outcomes(out, played.outcomes.as_slice())?;
    push_claims(out, played.claims.as_slice())?;
    push_count(out, played.unfinished, " schedules were given up\n")?;
    let others = " final states had an outcome that is not told\n";
    push_count(out, played.others, others)?;
    push_numbers(
        out,
        &[("", u64::from(schedules))],
        " schedules on the core\n",
    )
}
