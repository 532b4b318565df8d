//! Mistakes of a log: a line that those before it refuse by themselves, whatever was answered.
ghost use Rattle.std.specs.Prelude.{◌≡◌, ◌≤◌, ◌++◌, false, take, vec_len, IfErr, IfOk, IfSome, OnOk};
ghost use Rattle.pif_history_machine.specs.Verdicts.{IsVerdictOf};
ghost use Rattle.pif_history_model.specs.Verdicts.{IsLegal};
ghost use Rattle.pif_history_text.specs.Histories.{Heard, limits_of};
ghost use Rattle.pif_history_text.specs.Reading.{IsPaired, heard_of};
ghost use Rattle.pif_job_judge.specs.Before.{IsFirstRefused};
ghost use Rattle.pif_job_judge.specs.Mistakes.{AppendsLog, AppendsLogLines, AppendsLogObjects, IsFound, IsMistake, IsRefused, is_found_legal, log_end, log_object, log_text};

use crate::before::{Refused, first_refused};
use crate::faults::Ended;
use crate::forms::{Form, Judging};
use crate::fronts::front_found;
use crate::judging::Numbered;
use crate::missing::note_on;
use crate::objects::{append_steps, left_out, written};
use pif_history::judge_lines;
use pif_history_machine::Verdict;
use pif_history_model::{Label, Line, LineRefusal};
use pif_history_text::{History, line_text, push_refused, refusal_word};
use pif_history_told::{line_at, number_at};
use pif_judge_reasons::Front;
use pif_search::{Stop, WatchLines};
use pif_text::{Member, Text, append_decimal, append_members};
use std::alloc::Global;

/// A line of a history that is refused, and a run that shows the lines before it.
#[derive(Drop)]
pub struct Mistake {
    /// Its place among the lines, from 1.
    pub count: usize,
    /// Why it is refused.
    pub why: LineRefusal,
    /// The labels of the steps of the run, newest first.
    pub labels: Vec<Label>,
}

/// What was found of a history.
#[derive(Drop)]
pub enum Outcome {
    /// A line is a mistake of the log.
    Log(Mistake),
    /// The verdict on the history, and the greatest front of which a run is known, if it isn't legal.
    Verdict(Verdict, Option<Front>),
}

/// The labels of the run that was found, newest first, if a history is legal; else what was found of it.
pub fn run_of(found: Outcome) -> Result<Vec<Label>, Outcome>
    ensures legal { IfOk result (λ labels. (h : Heard) → IsFound h found → IsLegal h.allowed (limits_of h) h.shown labels.items) }
    ensures wrong { IfErr result (λ other. (other ≡ found) × (is_found_legal other ≡ false)) }
{
    match found {
        Outcome::Log(mistake) => Err(Outcome::Log(mistake)),
        Outcome::Verdict(verdict, front) => match verdict {
            Verdict::Legal(labels) => Ok(labels),
            Verdict::Illegal(line) => Err(Outcome::Verdict(Verdict::Illegal(line), front)),
            Verdict::Undecided(line) => Err(Outcome::Verdict(Verdict::Undecided(line), front)),
        },
    }
}

/// The first line of a history that is refused, whatever was answered, and why.
///
/// # Errors
///
/// Out of memory.
pub fn refused_in(alloc: Global, history: &History) -> Result<Option<Refused>, Stop>
    ensures first { IfOk result (IsFirstRefused (limits_of (heard_of history.now)) history.now.shown.items) }
    ensures each { IfOk result (λ o. IfSome o (λ x. IsRefused (heard_of history.now) x.count x.why)) }
{
    first_refused(alloc, history.limits(), history.shown.as_slice())
}

/// The verdict on the first lines of a history with the rules that it allows.
///
/// # Errors
///
/// That of a search.
pub fn verdict_before<V: WatchLines>(
    alloc: Global,
    states: usize,
    history: &History,
    before: usize,
    watch: &mut V,
) -> Result<Verdict, Stop>
    requires { before ≤ vec_len history.now.shown }
    ensures { IfOk result (IsVerdictOf history.now.allowed (limits_of (heard_of history.now)) (take before history.now.shown.items)) }
{
    let lines = &history.shown.as_slice()[..before];
    let limits = history.limits();
    judge_lines(alloc, &history.allowed, limits, lines, states, watch)
}

/// What is found of a history with a line that is refused. It is a mistake of the log if the lines before it are legal.
///
/// # Errors
///
/// That of a search.
pub fn judged_before<V: WatchLines>(
    alloc: Global,
    asked: &Judging<'_>,
    history: &History,
    refused: Refused,
    watch: &mut Numbered<'_, '_, V>,
) -> Result<Outcome, Stop>
    requires { IsRefused (heard_of history.now) refused.count refused.why }
    ensures { IfOk result (IsFound (heard_of history.now)) }
{
    let Refused { count, why } = refused;
    let states = asked.states as usize;
    match verdict_before(alloc, states, history, count - 1, watch)? {
        Verdict::Legal(labels) => Ok(Outcome::Log(Mistake { count, why, labels })),
        Verdict::Illegal(line) => Ok(Outcome::Verdict(Verdict::Illegal(line), None)),
        Verdict::Undecided(line) => {
            let front = front_found(alloc, states, history, watch)?;
            Ok(Outcome::Verdict(Verdict::Undecided(line), front))
        }
    }
}

/// What is told of a mistake of the log: this line, of this number, and the note on it.
fn log_end(
    alloc: Global,
    history: &History,
    mistake: &Mistake,
    number: u32,
    line: &Line,
) -> Result<Ended, Stop>
    requires { IsMistake (heard_of history.now) mistake.now.count mistake.now.why mistake.now.labels.items }
    ensures { IfOk result (λ end. end ≡ log_end (heard_of history.now) mistake.now.count number line.now mistake.now.why) }
{
    let before = &history.shown.as_slice()[..mistake.count - 1];
    let note = note_on(alloc, before, number, line, mistake.why)?;
    Ok(Ended::Log(u64::from(number), note))
}

/// Appends the line that tells of a mistake of the log. Answers what that is.
fn tell_log_line(
    alloc: Global,
    history: &History,
    mistake: &Mistake,
    out: &mut Vec<u8>,
) -> Result<Ended, Stop>
    requires paired { IsPaired history.now }
    requires mistake { IsMistake (heard_of history.now) mistake.now.count mistake.now.why mistake.now.labels.items }
    ensures { IfOk result (λ end. AppendsLogLines (heard_of history.now) end out.old.items out.new.items) }
{
    let number = number_at(history, mistake.count);
    let line = line_at(history, mistake.count);
    let end = log_end(alloc, history, mistake, number, &line)?;
    push_log(number, mistake.why, out)?;
    Ok(end)
}

/// Appends that the line of this number is a mistake of the log, and why.
fn push_log(number: u32, why: LineRefusal, out: &mut Vec<u8>) -> Result<(), Stop>
    ensures { OnOk result (out.new.items ≡ out.old.items ++ log_text number why) }
{
    out.extend_from_slice(b"log ")?;
    append_decimal(out, u64::from(number))?;
    out.extend_from_slice(b": ")?;
    push_refused(out, why)?;
    Ok(())
}

/// Appends the same, as a line of JSON, with the text of the line. So many lines of the run after it are left out.
fn append_log(
    number: u32,
    line: Line,
    why: LineRefusal,
    left_out: u32,
    out: &mut Vec<u8>,
) -> Result<(), Stop>
    ensures { OnOk result (out.new.items ≡ out.old.items ++ log_object number line why left_out) }
{
    let mut text = Text::new();
    line_text(line, &mut text);
    append_members(
        out,
        b'{',
        &[
            Member::Quoted("verdict", b"log"),
            Member::Number("line", number),
            Member::Quoted("text", text.as_slice()),
            Member::Number("left_out", left_out),
        ],
    )?;
    append_members(out, b',', &[Member::Quoted("refused", refusal_word(why))])?;
    out.extend_from_slice(b"}\n")?;
    Ok(())
}

/// Appends what is told in lines of JSON of a mistake of the log, and of the run that shows the lines before it.
/// Answers what that is.
fn append_log_history(
    alloc: Global,
    form: Form,
    history: &History,
    mistake: &Mistake,
    out: &mut Vec<u8>,
) -> Result<Ended, Stop>
    requires paired { IsPaired history.now }
    requires mistake { IsMistake (heard_of history.now) mistake.now.count mistake.now.why mistake.now.labels.items }
    ensures { IfOk result (λ end. AppendsLogObjects form (heard_of history.now) end out.old.items out.new.items) }
{
    let number = number_at(history, mistake.count);
    let line = line_at(history, mistake.count);
    let left = left_out(form, mistake.count - 1);
    let end = log_end(alloc, history, mistake, number, &line)?;
    append_log(number, line, mistake.why, written(left)?, out)?;
    append_steps(alloc, history, left, mistake.labels.as_slice(), out)?;
    Ok(end)
}

/// Appends what is told of a mistake of the log. Answers what that is.
///
/// # Errors
///
/// Out of memory, or a run that can't be told.
pub fn tell_log(
    alloc: Global,
    form: Form,
    history: &History,
    mistake: &Mistake,
    out: &mut Vec<u8>,
) -> Result<Ended, Stop>
    requires paired { IsPaired history.now }
    requires mistake { IsMistake (heard_of history.now) mistake.now.count mistake.now.why mistake.now.labels.items }
    ensures { IfOk result (λ end. AppendsLog form (heard_of history.now) end out.old.items out.new.items) }
{
    match form {
        Form::Text | Form::Witness => tell_log_line(alloc, history, mistake, out),
        Form::Json | Form::Page => append_log_history(alloc, form, history, mistake, out),
    }
}
