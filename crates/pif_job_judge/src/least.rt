ghost use Rattle.std.specs.Prelude.{◌≡◌, IfOk, Ok, option_copied};
ghost use Rattle.pif_history_text.specs.Histories.{limits_of};
ghost use Rattle.pif_history_text.specs.Reading.{IsPaired, heard_of};
ghost use Rattle.pif_job_judge.specs.Judging.{front_of};
ghost use Rattle.pif_job_judge.specs.Least.{JudgesLeast, JudgesLeastTo};
ghost use Rattle.pif_job_judge.specs.LeastRules.{IsLeast};
ghost use Rattle.pif_history_model.specs.Verdicts.{IsLegal};
ghost use Rattle.pif_job_judge.specs.Needed.{AppendsNeeded};
ghost use Rattle.pif_rules.specs.Sets.{both};

use crate::faults::{Ended, JudgeFault, fault_of};
use crate::forms::{Form, Judging};
use crate::judging::{Numbered, allowing, front, judge_fault, judged, write_all, write_told};
use crate::mistakes::run_of;
use crate::needed::tell_needed;
use crate::search::{Needed, least};
use crate::shown::shown_lines;
use pif_history_model::Label;
use pif_history_text::{History, NamedHistory, Names, read_history};
use pif_rules_model::Rules;
use pif_script_model::CliFault;
use pif_search::{Stop, WatchLines};
use std::alloc::Global;
use std::io::{Read, Write};

/// How a history is judged with all rules, in lines for a person.
fn in_lines<'a>(asked: &Judging<'a>) -> Judging<'a>
    ensures form { result.form ≡ Form.Text }
    ensures name { option_copied result.name ≡ option_copied asked.now.name }
    ensures plain { result.plain ≡ asked.now.plain }
{
    Judging {
        name: asked.name,
        form: Form::Text,
        states: asked.states,
        allowed: asked.allowed,
        plain: asked.plain,
    }
}

/// The rules that a history needs, which is legal with all by a run of these labels.
fn needed_of<V: WatchLines>(
    alloc: Global,
    asked: &Rules,
    states: u32,
    history: &History,
    labels: &[Label],
    watch: &mut V,
) -> Result<Needed, Stop>
    requires { IsLegal (both asked.now history.now.allowed) (limits_of (heard_of history.now)) history.now.shown.items labels.now }
    ensures { IfOk result (IsLeast history.now.allowed asked.now (limits_of (heard_of history.now)) history.now.shown.items) }
{
    let limits = history.limits();
    let lines = history.shown.as_slice();
    let mut numbered = Numbered::of(history, watch);
    least(
        alloc,
        &history.allowed,
        asked,
        limits,
        lines,
        labels,
        states as usize,
        &mut numbered,
    )
}

/// Appends what is told of the rules that a history needs, which is legal with all by a run of these labels. Answers
/// what that is.
fn tell_least<V: WatchLines>(
    alloc: Global,
    asked: &Judging<'_>,
    history: &History,
    labels: &[Label],
    out: &mut Vec<u8>,
    watch: &mut V,
) -> Result<Ended, Stop>
    requires paired { IsPaired history.now }
    requires legal { IsLegal (both asked.now.allowed history.now.allowed) (limits_of (heard_of history.now)) history.now.shown.items labels.now }
    ensures { IfOk result (λ end. AppendsNeeded asked.now.allowed (heard_of history.now) end out.old.items out.new.items) }
{
    let found = needed_of(alloc, &asked.allowed, asked.states, history, labels, watch)?;
    tell_needed(alloc, &asked.allowed, history, found, out)
}

/// Writes what is told of the rules that a history needs, which is legal with all by a run of these labels, with the
/// names that its comments give.
fn write_least<W: Write, V: WatchLines>(
    alloc: Global,
    asked: &Judging<'_>,
    history: &History,
    names: &Names,
    labels: &[Label],
    writer: &mut W,
    watch: &mut V,
) -> Result<(), JudgeFault>
    requires paired { IsPaired history.now }
    requires legal { IsLegal (both asked.now.allowed history.now.allowed) (limits_of (heard_of history.now)) history.now.shown.items labels.now }
    ensures { JudgesLeast asked.now.plain asked.now.allowed (Ok (heard_of history.now)) (W.contents writer.old) (W.contents writer.new) (front_of (option_copied asked.now.name) Form.Text) result }
{
    let Ok(mut out) = front(alloc, asked.name, Form::Text) else {
        return Err(JudgeFault::Cli(CliFault::NoMemory));
    };
    let from = out.len();
    let told = match tell_least(alloc, asked, history, labels, &mut out, watch) {
        Ok(told) => told,
        Err(stop) => return Err(fault_of(stop)),
    };
    match shown_lines(alloc, names, from, out) {
        Ok(text) => write_told(text.as_slice(), told.as_result(), writer),
        Err(_) => Err(JudgeFault::Cli(CliFault::NoMemory)),
    }
}

/// Judges a history with all rules, and with sets of them if it is legal. Writes what is told of it.
fn judge_history<W: Write, V: WatchLines>(
    alloc: Global,
    asked: &Judging<'_>,
    history: History,
    names: &Names,
    writer: &mut W,
    watch: &mut V,
) -> Result<(), JudgeFault>
    requires { IsPaired history }
    ensures { JudgesLeast asked.now.plain asked.now.allowed (Ok (heard_of history)) (W.contents writer.old) (W.contents writer.new) (front_of (option_copied asked.now.name) Form.Text) result }
{
    let own = history.allowed;
    let mut history = allowing(&asked.allowed, history);
    let found = match judged(alloc, asked, &history, watch) {
        Ok(found) => found,
        Err(stop) => return Err(fault_of(stop)),
    };
    match run_of(found) {
        Ok(labels) => {
            history.allowed = own;
            write_least(
                alloc,
                asked,
                &history,
                names,
                labels.as_slice(),
                writer,
                watch,
            )
        }
        Err(wrong) => {
            let asked = in_lines(asked);
            write_all(alloc, &asked, history, names, wrong, writer, watch)
        }
    }
}

/// Reads a history, and says which of the rules of `asked` it needs to be legal, beside those that it allows itself. It
/// is judged with all rules first. If it isn't legal, that is told as `judge` does. Else sets of them are tried, by the
/// number of rules and then in the order of `RULES`. All is told in lines for a person, whatever the form. `watch` is
/// told of each search how far it has come.
///
/// # Errors
///
/// `NoCall`, if it is legal and begins no call, which was written, too. `PosixAllows` as in `judge`. `Undecided` with
/// the line at which the search was given up, and `Differs` with the first line up to which there is no run with all
/// rules, which were written, too. `Script` with the line of the first fault, which was written, too. If the reader
/// fails, `Read`; if memory ran out, `NoMemory`; then nothing was written. `Write`, if the writer fails or takes no
/// byte.
pub fn judge_least<R: Read, W: Write, V: WatchLines>(
    alloc: Global,
    asked: &Judging<'_>,
    reader: &mut R,
    writer: &mut W,
    watch: &mut V,
) -> Result<(), JudgeFault>
    ensures { JudgesLeastTo asked.now.plain asked.now.allowed (R.remaining reader.old) (R.remaining reader.new) (W.contents writer.old) (W.contents writer.new) (front_of (option_copied asked.now.name) Form.Text) result }
{
    match read_history(alloc, reader) {
        Ok(NamedHistory { history, names }) => {
            judge_history(alloc, asked, history, &names, writer, watch)
        }
        Err(fault) => judge_fault(alloc, &in_lines(asked), fault, writer),
    }
}
