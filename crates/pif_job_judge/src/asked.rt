ghost use Rattle.std.specs.Prelude.{◌≡◌, ◌≤◌, false, IfOk, IfSome, OnOk, vec_len};
ghost use Rattle.pif_history_machine.specs.Verdicts.{IsVerdictOf};
ghost use Rattle.pif_history_text.specs.Histories.{limits_of};
ghost use Rattle.pif_history_text.specs.Reading.{IsPaired, heard_of};
ghost use Rattle.pif_history_told.specs.Ways.{IsRun};
ghost use Rattle.pif_job_judge.specs.Posix.{IsSaid};
ghost use Rattle.pif_job_judge.specs.Objects.{AppendsObjects};
ghost use Rattle.pif_job_judge.specs.Endings.{is_legal};
ghost use Rattle.pif_job_judge.specs.Fronts.{IsFront};
ghost use Rattle.pif_job_judge.specs.Asked.{AppendsAllowedBy, AppendsAsked, AppendsAskedLines, AppendsAskedObjects, AppendsFirst, AppendsForbidden, AppendsRest};

use crate::faults::Ended;
use crate::forms::{Form, Judging};
use crate::fronts::front_with;
use crate::judging::Numbered;
use crate::lines::{tell_briefly, tell_lines, tell_why_at, told_run};
use crate::objects::tell_objects;
use crate::posix::{
    Says, append_says, end_of, forbidden_from, number_of, push_says, said_of, under, verdict_said,
};
use pif_history_machine::Verdict;
use pif_history_model::Label;
use pif_history_text::History;
use pif_history_told::first_unlisted;
use pif_judge_reasons::Front;
use pif_rules_model::Rules;
use pif_search::{Stop, WatchLines};
use std::alloc::Global;

/// Appends, in lines, what is told before what POSIX says. Answers what that is.
fn tell_first<V: WatchLines>(
    alloc: Global,
    asked: &Judging<'_>,
    history: &History,
    verdict: Verdict,
    front: &Option<Front>,
    says: &Says,
    out: &mut Vec<u8>,
    watch: &mut V,
) -> Result<Ended, Stop>
    requires paired { IsPaired history.now }
    requires verdict { IsVerdictOf history.now.allowed (limits_of (heard_of history.now)) history.now.shown.items verdict }
    requires front { IfSome front.now (IsFront (heard_of history.now)) }
    requires wrong { is_legal verdict ≡ false }
    ensures { IfOk result (λ end. AppendsFirst asked.now.form (heard_of history.now) says.now end out.old.items out.new.items) }
{
    let mut numbered = Numbered::of(history, watch);
    match forbidden_from(says) {
        Some(_) => tell_briefly(alloc, asked, history, verdict, front, out, &mut numbered),
        None => tell_lines(alloc, asked, history, verdict, front, out, &mut numbered),
    }
}

/// Appends that POSIX allows a history, which has the rules with which it does, by a run with these labels, newest
/// first; and the run, if it is wanted.
fn tell_allowed_by(
    alloc: Global,
    form: Form,
    base: &Rules,
    history: &History,
    says: &Says,
    number: u32,
    labels: &[Label],
    out: &mut Vec<u8>,
) -> Result<(), Stop>
    requires { IsRun history.now.allowed (limits_of (heard_of history.now)) labels.now }
    ensures { OnOk result (AppendsAllowedBy form base.now (heard_of history.now) says.now number labels.now out.old.items out.new.items) }
{
    let limits = history.limits();
    let found = first_unlisted(alloc, &history.allowed, limits, labels)?;
    let more = told_run(alloc, form, &history.allowed, limits, labels)?;
    let numbers = history.numbers.as_slice();
    push_says(alloc, base, says, number, numbers, found, out)?;
    out.extend_from_slice(more.as_slice())?;
    Ok(())
}

/// Appends that POSIX forbids a history, which has all its rules, from the nth line on, and what is possible there.
fn tell_forbidden<V: WatchLines>(
    alloc: Global,
    asked: &Judging<'_>,
    base: &Rules,
    history: &History,
    says: &Says,
    number: u32,
    count: usize,
    out: &mut Vec<u8>,
    watch: &mut V,
) -> Result<(), Stop>
    requires paired { IsPaired history.now }
    requires within { (1 ≤ count) × (count ≤ vec_len history.now.shown) }
    ensures { OnOk result (AppendsForbidden base.now (heard_of history.now) says.now number count out.old.items out.new.items) }
{
    let numbers = history.numbers.as_slice();
    push_says(alloc, base, says, number, numbers, None, out)?;
    let mut numbered = Numbered::of(history, watch);
    let states = asked.states as usize;
    tell_why_at(alloc, states, history, count, out, &mut numbered)
}

/// Appends, in lines, what POSIX says of a history, and what is told after that, with the rules with which it says so.
fn tell_said<V: WatchLines>(
    alloc: Global,
    asked: &Judging<'_>,
    history: History,
    says: &Says,
    number: u32,
    out: &mut Vec<u8>,
    watch: &mut V,
) -> Result<(), Stop>
    requires paired { IsPaired history }
    requires said { IsSaid history.allowed (limits_of (heard_of history)) history.shown.items says.now }
    ensures { OnOk result (AppendsRest asked.now.form (heard_of history) says.now number out.old.items out.new.items) }
{
    let base = history.allowed;
    let form = asked.form;
    let history = under(says, history);
    match says {
        Says::Least(e) => {
            let labels = e.labels.as_slice();
            tell_allowed_by(alloc, form, &base, &history, says, number, labels, out)
        }
        Says::Found(e) => {
            let labels = e.labels.as_slice();
            tell_allowed_by(alloc, form, &base, &history, says, number, labels, out)
        }
        Says::Forbids(count) => {
            tell_forbidden(
                alloc, asked, &base, &history, says, number, *count, out, watch,
            )
        }
        Says::Undecided(_) => {
            let numbers = history.numbers.as_slice();
            push_says(alloc, &base, says, number, numbers, None, out)
        }
        Says::Undefined(_, _) => {
            let numbers = history.numbers.as_slice();
            push_says(alloc, &base, says, number, numbers, None, out)
        }
    }
}

/// Appends what is told in lines of a history with this verdict, by which it isn't legal, and of what POSIX says.
/// Answers what that is.
fn tell_asked_lines<V: WatchLines>(
    alloc: Global,
    asked: &Judging<'_>,
    history: History,
    verdict: Verdict,
    front: &Option<Front>,
    says: &Says,
    out: &mut Vec<u8>,
    watch: &mut V,
) -> Result<Ended, Stop>
    requires paired { IsPaired history }
    requires verdict { IsVerdictOf history.allowed (limits_of (heard_of history)) history.shown.items verdict }
    requires front { IfSome front.now (IsFront (heard_of history)) }
    requires wrong { is_legal verdict ≡ false }
    requires said { IsSaid history.allowed (limits_of (heard_of history)) history.shown.items says.now }
    ensures { IfOk result (λ end. AppendsAskedLines asked.now.form (heard_of history) end out.old.items out.new.items) }
{
    let number = number_of(&history, says);
    let told = tell_first(alloc, asked, &history, verdict, front, says, out, watch)?;
    tell_said(alloc, asked, history, says, number, out, watch)?;
    Ok(end_of(told, says, number))
}

/// Appends what is told in lines of JSON of a history with the rules with which POSIX says this, which is this verdict.
fn append_behind<V: WatchLines>(
    alloc: Global,
    asked: &Judging<'_>,
    history: &History,
    verdict: Verdict,
    out: &mut Vec<u8>,
    watch: &mut V,
) -> Result<Ended, Stop>
    requires paired { IsPaired history.now }
    requires verdict { IsVerdictOf history.now.allowed (limits_of (heard_of history.now)) history.now.shown.items verdict }
    ensures { IfOk result (λ end. AppendsObjects asked.now.form (heard_of history.now) end out.old.items out.new.items) }
{
    let mut numbered = Numbered::of(history, watch);
    let states = asked.states as usize;
    let front = front_with(alloc, states, history, &verdict, &mut numbered)?;
    tell_objects(alloc, asked, history, verdict, &front, out, &mut numbered)
}

/// Appends what is told in lines of JSON of a history with this verdict, by which it isn't legal, and of what POSIX
/// says. Answers what that is.
fn tell_asked_objects<V: WatchLines>(
    alloc: Global,
    asked: &Judging<'_>,
    history: History,
    verdict: Verdict,
    front: &Option<Front>,
    says: Says,
    out: &mut Vec<u8>,
    watch: &mut V,
) -> Result<Ended, Stop>
    requires paired { IsPaired history }
    requires verdict { IsVerdictOf history.allowed (limits_of (heard_of history)) history.shown.items verdict }
    requires front { IfSome front.now (IsFront (heard_of history)) }
    requires said { IsSaid history.allowed (limits_of (heard_of history)) history.shown.items says }
    ensures { IfOk result (λ end. AppendsAskedObjects asked.now.form (heard_of history) end out.old.items out.new.items) }
{
    let number = number_of(&history, &says);
    let mut numbered = Numbered::of(&history, watch);
    let told = tell_objects(alloc, asked, &history, verdict, front, out, &mut numbered)?;
    append_says(alloc, &history.allowed, &says, number, out)?;
    let history = under(&says, history);
    let end = end_of(told, &says, number);
    append_behind(alloc, asked, &history, verdict_said(says), out, watch)?;
    Ok(end)
}

/// Appends what is told of a history with this verdict, by which it isn't legal, and this front; what POSIX says of it;
/// and what is told with the rules with which it says so. Answers what that is.
///
/// # Errors
///
/// That of a search.
pub fn tell_asked<V: WatchLines>(
    alloc: Global,
    asked: &Judging<'_>,
    history: History,
    verdict: Verdict,
    front: &Option<Front>,
    out: &mut Vec<u8>,
    watch: &mut V,
) -> Result<Ended, Stop>
    requires paired { IsPaired history }
    requires verdict { IsVerdictOf history.allowed (limits_of (heard_of history)) history.shown.items verdict }
    requires front { IfSome front.now (IsFront (heard_of history)) }
    requires wrong { is_legal verdict ≡ false }
    ensures { IfOk result (λ end. AppendsAsked asked.now.form (heard_of history) end out.old.items out.new.items) }
{
    let says = said_of(alloc, asked.states, &history, watch)?;
    match asked.form {
        Form::Text | Form::Witness => {
            tell_asked_lines(alloc, asked, history, verdict, front, &says, out, watch)
        }
        Form::Json | Form::Page => {
            tell_asked_objects(alloc, asked, history, verdict, front, says, out, watch)
        }
    }
}
