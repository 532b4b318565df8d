ghost use Rattle.std.specs.Prelude.{◌≡◌, ◌≤◌, ◌-◌, IfOk, IfSome, OnOk, vec_len};
ghost use Rattle.pif_history_machine.specs.declared.verdicts.Verdict.TheVariants.{Illegal};
ghost use Rattle.pif_history_machine.specs.Verdicts.{IsVerdictOf};
ghost use Rattle.pif_history_model.specs.Verdicts.{IsLegal};
ghost use Rattle.pif_history_told.specs.Ways.{IsRun};
ghost use Rattle.pif_history_text.specs.Histories.{limits_of};
ghost use Rattle.pif_history_text.specs.Reading.{IsPaired, heard_of};
ghost use Rattle.pif_job_judge.specs.Fronts.{IsFront};
ghost use Rattle.pif_job_judge.specs.Objects.{AppendsBefore, AppendsFront, AppendsObjects, AppendsSteps, began_with, left_out_of};

use crate::clues::clues_at;
use crate::faults::Ended;
use crate::forms::{Form, Judging};
use crate::known::known_of;
use crate::open_calls::at_end_of;
use crate::unfound::unfound_behind;
use pif_history::judge_lines;
use pif_history_machine::Verdict;
use pif_history_model::Label;
use pif_history_text::History;
use pif_history_told::{
    Began, Known, append_illegal, append_legal, append_undecided, began_before, calls_in,
    first_shown, first_unlisted, line_at, number_at, run_text,
};
use pif_judge_reasons::{Front, count_of};
use pif_search::{Stop, WatchLines};
use std::alloc::Global;

/// How many lines are left out of a run that shows so many, in this form.
pub fn left_out(form: Form, lines: usize) -> usize
    ensures { result ≡ left_out_of form lines }
{
    match form {
        Form::Page => first_shown(lines),
        Form::Text | Form::Witness | Form::Json => 0,
    }
}

/// A number of lines, as it is written.
///
/// # Errors
///
/// It is too great, which that of no history is.
pub fn written(lines: usize) -> Result<u32, Stop>
    ensures { IfOk result (λ n. n ≡ lines) }
{
    match u32::try_from(lines) {
        Ok(number) => Ok(number),
        Err(_) => Err(Stop::Range),
    }
}

/// The open call that is told with what is known of an illegal line.
fn began_with(known: &Known, began: Option<Began>) -> Option<Began>
    ensures { result ≡ began_with known.now began }
{
    match known {
        Known::Refused(_) => None,
        Known::Numbers(_) | Known::Nothing => began,
    }
}

/// Appends the lines of a run whose steps have these labels, newest first, but for so many of its first lines.
///
/// # Errors
///
/// Out of memory, or a run that can't be told.
pub fn append_steps(
    alloc: Global,
    history: &History,
    left_out: usize,
    labels: &[Label],
    out: &mut Vec<u8>,
) -> Result<(), Stop>
    requires { IsRun history.now.allowed (limits_of (heard_of history.now)) labels.now }
    ensures { OnOk result (AppendsSteps (heard_of history.now) left_out labels.now out.old.items out.new.items) }
{
    let lines = run_text(
        alloc,
        &history.allowed,
        history.limits(),
        history.numbers.as_slice(),
        left_out,
        labels,
    )?;
    out.extend_from_slice(lines.as_slice())?;
    Ok(())
}

/// Appends the lines of a run that shows the first `before` lines of a history, but for so many of its first lines, if
/// a search finds one; nothing, if it doesn't. `watch` may end it.
fn append_searched<V: WatchLines>(
    alloc: Global,
    states: usize,
    history: &History,
    before: usize,
    left_out: usize,
    out: &mut Vec<u8>,
    watch: &mut V,
) -> Result<(), Stop>
    requires { before ≤ vec_len history.now.shown }
    ensures { OnOk result (AppendsBefore (heard_of history.now) before left_out out.old.items out.new.items) }
{
    let lines = &history.shown.as_slice()[..before];
    match judge_lines(
        alloc,
        &history.allowed,
        history.limits(),
        lines,
        states,
        watch,
    )? {
        Verdict::Legal(witness) => {
            append_steps(alloc, history, left_out, witness.as_slice(), out)
        }
        Verdict::Illegal(_) => Ok(()),
        Verdict::Undecided(_) => Ok(()),
    }
}

/// Appends the run of this front in the same way, if the front has so many lines.
fn append_known<V: WatchLines>(
    alloc: Global,
    states: usize,
    history: &History,
    before: usize,
    left_out: usize,
    known: &Front,
    out: &mut Vec<u8>,
    watch: &mut V,
) -> Result<(), Stop>
    requires within { before ≤ vec_len history.now.shown }
    requires front { IsFront (heard_of history.now) known.now }
    ensures { OnOk result (AppendsBefore (heard_of history.now) before left_out out.old.items out.new.items) }
{
    if known.count == before {
        return append_steps(alloc, history, left_out, known.labels.as_slice(), out);
    }
    append_searched(alloc, states, history, before, left_out, out, watch)
}

/// Appends the run of the lines before in the same way: that of the front if it has these lines, or one that a search
/// finds.
fn append_before<V: WatchLines>(
    alloc: Global,
    states: usize,
    history: &History,
    before: usize,
    left_out: usize,
    front: &Option<Front>,
    out: &mut Vec<u8>,
    watch: &mut V,
) -> Result<(), Stop>
    requires within { before ≤ vec_len history.now.shown }
    requires front { IfSome front.now (IsFront (heard_of history.now)) }
    ensures { OnOk result (AppendsBefore (heard_of history.now) before left_out out.old.items out.new.items) }
{
    match front {
        Some(known) => append_known(alloc, states, history, before, left_out, known, out, watch),
        None => append_searched(alloc, states, history, before, left_out, out, watch),
    }
}

/// Appends the lines of the run of a front, but for so many of its first lines; nothing, if there is no front.
fn append_front(
    alloc: Global,
    history: &History,
    left_out: usize,
    front: &Option<Front>,
    out: &mut Vec<u8>,
) -> Result<(), Stop>
    requires { IfSome front.now (IsFront (heard_of history.now)) }
    ensures { OnOk result (AppendsFront (heard_of history.now) left_out front.now out.old.items out.new.items) }
{
    match front {
        Some(known) => append_steps(alloc, history, left_out, known.labels.as_slice(), out),
        None => Ok(()),
    }
}

/// Appends what is told of a legal history, and of a run that shows it. Answers what that is.
fn append_legal_history<V: WatchLines>(
    alloc: Global,
    asked: &Judging<'_>,
    history: &History,
    labels: &[Label],
    out: &mut Vec<u8>,
    watch: &mut V,
) -> Result<Ended, Stop>
    requires paired { IsPaired history.now }
    requires legal { IsLegal history.now.allowed (limits_of (heard_of history.now)) history.now.shown.items labels.now }
    ensures { IfOk result (λ end. AppendsObjects asked.now.form (heard_of history.now) end out.old.items out.new.items) }
{
    let left = left_out(asked.form, history.shown.len());
    let limits = history.limits();
    let numbers = history.numbers.as_slice();
    let found = first_unlisted(alloc, &history.allowed, limits, labels)?;
    let calls = calls_in(history);
    let count = written(calls)?;
    let at_end = at_end_of(alloc, asked.states as usize, history, watch)?;
    append_legal(
        history.count,
        count,
        written(left)?,
        numbers,
        found,
        &at_end,
        out,
    )?;
    append_steps(alloc, history, left, labels, out)?;
    Ok(Ended::of_legal(calls))
}

/// Appends what is told of a history whose nth line is the first up to which there is no run, and of a run that shows
/// the lines before it. Answers what that is.
fn append_illegal_history<V: WatchLines>(
    alloc: Global,
    asked: &Judging<'_>,
    history: &History,
    count: usize,
    front: &Option<Front>,
    out: &mut Vec<u8>,
    watch: &mut V,
) -> Result<Ended, Stop>
    requires paired { IsPaired history.now }
    requires verdict { IsVerdictOf history.now.allowed (limits_of (heard_of history.now)) history.now.shown.items (Illegal count) }
    requires front { IfSome front.now (IsFront (heard_of history.now)) }
    ensures { IfOk result (λ end. AppendsObjects asked.now.form (heard_of history.now) end out.old.items out.new.items) }
{
    let states = asked.states as usize;
    let number = number_at(history, count);
    let line = line_at(history, count);
    let known = known_of(alloc, states, history, count - 1, &line, watch)?;
    let began = began_with(&known, began_before(history, count - 1, &line));
    let left = left_out(asked.form, count - 1);
    let clues = clues_at(alloc, states, history, count - 1, &known, watch)?;
    append_illegal(number, &line, &known, began, &clues, written(left)?, out)?;
    append_before(alloc, states, history, count - 1, left, front, out, watch)?;
    Ok(Ended::Illegal(u64::from(number)))
}

/// Appends what is told of an undecided history with this front, and of the run that shows its lines. Answers what that
/// is.
fn append_undecided_history<V: WatchLines>(
    alloc: Global,
    asked: &Judging<'_>,
    history: &History,
    front: &Option<Front>,
    out: &mut Vec<u8>,
    watch: &mut V,
) -> Result<Ended, Stop>
    requires paired { IsPaired history.now }
    requires some { 1 ≤ vec_len history.now.shown }
    requires front { IfSome front.now (IsFront (heard_of history.now)) }
    ensures { IfOk result (λ end. AppendsObjects asked.now.form (heard_of history.now) end out.old.items out.new.items) }
{
    let states = asked.states as usize;
    let left = left_out(asked.form, count_of(front));
    let unfound = unfound_behind(alloc, states, history, front, watch)?;
    append_undecided(&unfound, written(left)?, out)?;
    append_front(alloc, history, left, front, out)?;
    Ok(Ended::Undecided(u64::from(unfound.number)))
}

/// Appends what is told in lines of JSON of a history with this verdict, and this front. `watch` may end what is looked
/// for yet. Answers what that is.
///
/// # Errors
///
/// That of a search.
pub fn tell_objects<V: WatchLines>(
    alloc: Global,
    asked: &Judging<'_>,
    history: &History,
    verdict: Verdict,
    front: &Option<Front>,
    out: &mut Vec<u8>,
    watch: &mut V,
) -> Result<Ended, Stop>
    requires paired { IsPaired history.now }
    requires verdict { IsVerdictOf history.now.allowed (limits_of (heard_of history.now)) history.now.shown.items verdict }
    requires front { IfSome front.now (IsFront (heard_of history.now)) }
    ensures { IfOk result (λ end. AppendsObjects asked.now.form (heard_of history.now) end out.old.items out.new.items) }
{
    match verdict {
        Verdict::Legal(witness) => {
            append_legal_history(alloc, asked, history, witness.as_slice(), out, watch)
        }
        Verdict::Illegal(count) => append_illegal_history(
            alloc, asked, history, count, front, out, watch,
        ),
        Verdict::Undecided(_) => {
            append_undecided_history(alloc, asked, history, front, out, watch)
        }
    }
}
