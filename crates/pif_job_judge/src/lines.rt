ghost use Rattle.std.specs.Prelude.{◌≡◌, ◌≤◌, false, IfOk, IfSome, OnOk, vec_len};
ghost use Rattle.pif_history_machine.specs.Verdicts.{IsVerdictOf};
ghost use Rattle.pif_history_told.specs.Ways.{IsRun};
ghost use Rattle.pif_history_text.specs.Histories.{limits_of};
ghost use Rattle.pif_history_text.specs.Reading.{IsPaired, heard_of};
ghost use Rattle.pif_job_judge.specs.Endings.{is_legal};
ghost use Rattle.pif_job_judge.specs.Asked.{AppendsBrief, AppendsWhy};
ghost use Rattle.pif_job_judge.specs.Fronts.{IsFront};
ghost use Rattle.pif_job_judge.specs.Lines.{AppendsLines, TellsIllegal, TellsIllegalLine, TellsLegal, TellsRun, TellsUndecided};

use crate::clues::clues_at;
use crate::faults::Ended;
use crate::forms::{Form, Judging};
use crate::known::known_of;
use crate::open_calls::at_end_of;
use crate::unfound::unfound_behind;
use pif_history_machine::Verdict;
use pif_history_model::{HistoryLimits, Label};
use pif_history_text::{History, push_illegal};
use pif_history_told::{
    began_before, calls_in, first_unlisted, line_at, number_at, tell_clues, tell_legal,
    tell_undecided, tell_why, witness_text,
};
use pif_judge_reasons::Front;
use pif_rules_model::Rules;
use pif_search::{Stop, WatchLines};
use std::alloc::Global;

/// What is told of a run that shows a history, by the labels of its steps, newest first: nothing if that is not asked
/// for.
///
/// # Errors
///
/// Out of memory, or a run that can't be told.
pub fn told_run(
    alloc: Global,
    form: Form,
    rules: &Rules,
    limits: HistoryLimits,
    witness: &[Label],
) -> Result<Vec<u8>, Stop>
    requires { IsRun rules.now limits witness.now }
    ensures { IfOk result (λ text. TellsRun form rules.now limits witness.now text.items) }
{
    match form {
        Form::Witness => witness_text(alloc, rules, limits, witness),
        Form::Text | Form::Json | Form::Page => Ok(Vec::new(alloc)),
    }
}

/// Appends what is told of a legal history, and of a run that shows it. Answers what that is.
fn tell_verdict_legal<V: WatchLines>(
    alloc: Global,
    asked: &Judging<'_>,
    history: &History,
    witness: &[Label],
    out: &mut Vec<u8>,
    watch: &mut V,
) -> Result<Ended, Stop>
    requires paired { IsPaired history.now }
    requires run { IsRun history.now.allowed (limits_of (heard_of history.now)) witness.now }
    ensures { IfOk result (TellsLegal asked.now.form (heard_of history.now) witness.now out.old.items out.new.items) }
{
    let limits = history.limits();
    let found = first_unlisted(alloc, &history.allowed, limits, witness)?;
    let more = told_run(alloc, asked.form, &history.allowed, limits, witness)?;
    let numbers = history.numbers.as_slice();
    let calls = calls_in(history);
    let at_end = at_end_of(alloc, asked.states as usize, history, watch)?;
    tell_legal(
        history.count,
        calls,
        numbers,
        found,
        &at_end,
        more.as_slice(),
        out,
    )?;
    Ok(Ended::of_legal(calls))
}

/// Appends what is known of the nth line of a history, up to which there is no run, where its thread's open call began,
/// and clues to what is wrong.
///
/// # Errors
///
/// That of a search.
pub fn tell_why_at<V: WatchLines>(
    alloc: Global,
    states: usize,
    history: &History,
    count: usize,
    out: &mut Vec<u8>,
    watch: &mut V,
) -> Result<(), Stop>
    requires paired { IsPaired history.now }
    requires within { (1 ≤ count) × (count ≤ vec_len history.now.shown) }
    ensures { OnOk result (AppendsWhy (heard_of history.now) count out.old.items out.new.items) }
{
    let line = line_at(history, count);
    let known = known_of(alloc, states, history, count - 1, &line, watch)?;
    let began = began_before(history, count - 1, &line);
    tell_why(&line, &known, began, out)?;
    let clues = clues_at(alloc, states, history, count - 1, &known, watch)?;
    tell_clues(&clues, out)?;
    Ok(())
}

/// Appends the verdict that the nth line of a history is the first up to which there is no run. Answers what that is.
fn tell_illegal_line(history: &History, count: usize, out: &mut Vec<u8>) -> Result<Ended, Stop>
    requires paired { IsPaired history.now }
    requires within { (1 ≤ count) × (count ≤ vec_len history.now.shown) }
    ensures { IfOk result (λ end. TellsIllegalLine (heard_of history.now) count out.old.items out.new.items end) }
{
    let number = number_at(history, count);
    push_illegal(out, number, line_at(history, count))?;
    Ok(Ended::Illegal(u64::from(number)))
}

/// Appends what is told of a history whose nth line is the first up to which there is no run. Answers what that is.
fn tell_illegal<V: WatchLines>(
    alloc: Global,
    asked: &Judging<'_>,
    history: &History,
    count: usize,
    out: &mut Vec<u8>,
    watch: &mut V,
) -> Result<Ended, Stop>
    requires paired { IsPaired history.now }
    requires within { (1 ≤ count) × (count ≤ vec_len history.now.shown) }
    ensures { IfOk result (TellsIllegal (heard_of history.now) count out.old.items out.new.items) }
{
    let end = tell_illegal_line(history, count, out)?;
    tell_why_at(alloc, asked.states as usize, history, count, out, watch)?;
    Ok(end)
}

/// Appends what is told of an undecided history with this front. Answers what that is.
fn tell_verdict_undecided<V: WatchLines>(
    alloc: Global,
    asked: &Judging<'_>,
    history: &History,
    front: &Option<Front>,
    out: &mut Vec<u8>,
    watch: &mut V,
) -> Result<Ended, Stop>
    requires paired { IsPaired history.now }
    requires some { 1 ≤ vec_len history.now.shown }
    requires front { IfSome front.now (IsFront (heard_of history.now)) }
    ensures { IfOk result (TellsUndecided (heard_of history.now) out.old.items out.new.items) }
{
    let unfound = unfound_behind(alloc, asked.states as usize, history, front, watch)?;
    tell_undecided(&unfound, out)?;
    Ok(Ended::Undecided(u64::from(unfound.number)))
}

/// Appends what is told in lines of a history with this verdict, and this front. `watch` may end what is looked for
/// yet. Answers what that is.
///
/// # Errors
///
/// That of a search.
pub fn tell_lines<V: WatchLines>(
    alloc: Global,
    asked: &Judging<'_>,
    history: &History,
    verdict: Verdict,
    front: &Option<Front>,
    out: &mut Vec<u8>,
    watch: &mut V,
) -> Result<Ended, Stop>
    requires paired { IsPaired history.now }
    requires verdict { IsVerdictOf history.now.allowed (limits_of (heard_of history.now)) history.now.shown.items verdict }
    requires front { IfSome front.now (IsFront (heard_of history.now)) }
    ensures { IfOk result (λ end. AppendsLines asked.now.form (heard_of history.now) end out.old.items out.new.items) }
{
    match verdict {
        Verdict::Legal(witness) => {
            tell_verdict_legal(alloc, asked, history, witness.as_slice(), out, watch)
        }
        Verdict::Illegal(count) => tell_illegal(alloc, asked, history, count, out, watch),
        Verdict::Undecided(_) => {
            tell_verdict_undecided(alloc, asked, history, front, out, watch)
        }
    }
}

/// Appends the verdict alone, in lines, on a history that isn't legal: without what is possible at an illegal line.
/// Answers what that is.
///
/// # Errors
///
/// That of a search.
pub fn tell_briefly<V: WatchLines>(
    alloc: Global,
    asked: &Judging<'_>,
    history: &History,
    verdict: Verdict,
    front: &Option<Front>,
    out: &mut Vec<u8>,
    watch: &mut V,
) -> Result<Ended, Stop>
    requires paired { IsPaired history.now }
    requires verdict { IsVerdictOf history.now.allowed (limits_of (heard_of history.now)) history.now.shown.items verdict }
    requires front { IfSome front.now (IsFront (heard_of history.now)) }
    requires wrong { is_legal verdict ≡ false }
    ensures { IfOk result (λ end. AppendsBrief (heard_of history.now) end out.old.items out.new.items) }
{
    match verdict {
        Verdict::Legal(_witness) => Ok(Ended::Legal),
        Verdict::Illegal(count) => tell_illegal_line(history, count, out),
        Verdict::Undecided(_) => {
            tell_verdict_undecided(alloc, asked, history, front, out, watch)
        }
    }
}
