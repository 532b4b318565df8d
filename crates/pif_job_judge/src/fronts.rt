//! Up to which line a history is known to be legal: the greatest front of which a run is found.
ghost use Rattle.std.specs.Prelude.{IfOk, IfSome};
ghost use Rattle.pif_history_machine.specs.Verdicts.{IsVerdictOf};
ghost use Rattle.pif_history_text.specs.Histories.{limits_of};
ghost use Rattle.pif_history_text.specs.Reading.{IsPaired, heard_of};
ghost use Rattle.pif_history_model.specs.Verdicts.{IsLegal};
ghost use Rattle.pif_job_judge.specs.Fronts.{IsFront, IsJudgedSo, IsUpTo};

use crate::forms::Judging;
use crate::judging::{Numbered, verdict_on};
use crate::mistakes::verdict_before;
use crate::terms::terms_of;
use pif_history_machine::{Verdict, first_unwoken};
use pif_history_model::Label;
use pif_history_text::History;
use pif_history_told::number_at;
use pif_judge_reasons::{Front, count_of, greatest_front};
use pif_search::{Stop, WatchLines};
use std::alloc::Global;

/// The number of the last line of a front, if there is one.
pub fn up_to(history: &History, front: &Option<Front>) -> Option<u32>
    requires paired { IsPaired history.now }
    requires front { IfSome front.now (IsFront (heard_of history.now)) }
    ensures { IsUpTo (heard_of history.now) front.now result }
{
    match front {
        Some(front) => Some(number_at(history, front.count)),
        None => None,
    }
}

/// The greatest front of a history of which a guided search finds a run. The number of lines that `watch` saw shown is
/// tried first. The search ends as soon as the time is over.
///
/// # Errors
///
/// That of a search.
pub fn front_found<V: WatchLines>(
    alloc: Global,
    states: usize,
    history: &History,
    watch: &mut Numbered<'_, '_, V>,
) -> Result<Option<Front>, Stop>
    ensures { IfOk result (λ o. IfSome o (IsFront (heard_of history.now))) }
{
    let terms = terms_of(history, states);
    let first = watch.shown;
    greatest_front(alloc, &terms, history.shown.as_slice(), first, watch)
}

/// The front to tell with a verdict if none is known yet: the greatest that is found for an undecided history, and none
/// for another.
///
/// # Errors
///
/// That of a search.
pub fn front_with<V: WatchLines>(
    alloc: Global,
    states: usize,
    history: &History,
    verdict: &Verdict,
    watch: &mut Numbered<'_, '_, V>,
) -> Result<Option<Front>, Stop>
    ensures { IfOk result (λ o. IfSome o (IsFront (heard_of history.now))) }
{
    match verdict {
        Verdict::Undecided(_) => front_found(alloc, states, history, watch),
        Verdict::Legal(_) => Ok(None),
        Verdict::Illegal(_) => Ok(None),
    }
}

/// The verdict that no run shows one line more than so many, if a search of these lines says so. None if it doesn't, or
/// if that line is the last.
fn illegal_behind<V: WatchLines>(
    alloc: Global,
    states: usize,
    history: &History,
    count: usize,
    watch: &mut V,
) -> Result<Option<Verdict>, Stop>
    ensures { IfOk result (λ o. IfSome o (IsVerdictOf history.now.allowed (limits_of (heard_of history.now)) history.now.shown.items)) }
{
    let last = history.shown.len();
    if count >= last {
        return Ok(None);
    }
    if last - count == 1 {
        return Ok(None);
    }
    match verdict_before(alloc, states, history, count + 1, watch)? {
        Verdict::Illegal(line) => Ok(Some(Verdict::Illegal(line))),
        Verdict::Legal(_) => Ok(None),
        Verdict::Undecided(_) => Ok(None),
    }
}

/// A verdict on a history, and, if it isn't legal, how far it is known to be.
#[derive(Drop)]
pub struct Judged {
    /// The verdict.
    pub verdict: Verdict,
    /// The greatest front of which a run is known, if one is.
    pub front: Option<Front>,
}

/// The verdict on a history of which no guided search found a run, and the greatest front. The line after that front is
/// judged first.
fn by_fronts<V: WatchLines>(
    alloc: Global,
    asked: &Judging<'_>,
    history: &History,
    watch: &mut Numbered<'_, '_, V>,
) -> Result<Judged, Stop>
    ensures { IfOk result (IsJudgedSo (heard_of history.now)) }
{
    let states = asked.states as usize;
    let front = front_found(alloc, states, history, watch)?;
    let count = count_of(&front);
    match illegal_behind(alloc, states, history, count, watch)? {
        Some(verdict) => Ok(Judged { verdict, front }),
        None => {
            let verdict = verdict_on(alloc, asked, history, watch)?;
            Ok(Judged { verdict, front })
        }
    }
}

/// The verdict on a history in which a wait returns though nothing can have woken it, and the greatest front if even so
/// it is undecided: the search of all lines looks for a run of those before that return.
fn with_unwoken<V: WatchLines>(
    alloc: Global,
    asked: &Judging<'_>,
    history: &History,
    watch: &mut Numbered<'_, '_, V>,
) -> Result<Judged, Stop>
    ensures { IfOk result (IsJudgedSo (heard_of history.now)) }
{
    let verdict = verdict_on(alloc, asked, history, watch)?;
    let front = front_with(alloc, asked.states as usize, history, &verdict, watch)?;
    Ok(Judged { verdict, front })
}

/// A run that shows all lines of a history, if guided searches find one.
fn run_of_all<V: WatchLines>(
    alloc: Global,
    states: usize,
    history: &History,
    watch: &mut V,
) -> Result<Option<Vec<Label>>, Stop>
    ensures { IfOk result (λ o. IfSome o (λ v. IsLegal history.now.allowed (limits_of (heard_of history.now)) history.now.shown.items v.items)) }
{
    let terms = terms_of(history, states);
    terms.run_of(alloc, history.shown.as_slice(), watch)
}

/// The verdict on a history with the rules that it allows, and the greatest front of which a run is known, if it isn't
/// legal.
///
/// # Errors
///
/// That of a search.
pub fn judged_by_fronts<V: WatchLines>(
    alloc: Global,
    asked: &Judging<'_>,
    history: &History,
    watch: &mut Numbered<'_, '_, V>,
) -> Result<Judged, Stop>
    ensures { IfOk result (IsJudgedSo (heard_of history.now)) }
{
    if first_unwoken(alloc, history.shown.as_slice())?.is_some() {
        return with_unwoken(alloc, asked, history, watch);
    }
    match run_of_all(alloc, asked.states as usize, history, watch)? {
        Some(labels) => Ok(Judged {
            verdict: Verdict::Legal(labels),
            front: None,
        }),
        None => by_fronts(alloc, asked, history, watch),
    }
}
