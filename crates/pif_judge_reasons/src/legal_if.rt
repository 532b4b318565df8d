//! Another answer before the last of some lines, with which they would be legal.
ghost use Rattle.std.specs.Prelude.{◌≡◌, ◌<◌, ◌+◌, true, length, IfOk, IfSome};
ghost use Rattle.pif_judge_reasons.specs.LegalIf.{IsLegalIf, IsLegalWith, IsOtherAnswer};

use crate::terms::Terms;
use pif_history_machine::{answers_of, numbers_of};
use pif_history_model::Line;
use pif_search::{Stop, WatchLines};
use pif_types::{Answer, Tid};
use std::alloc::Global;

/// The most answers that are changed.
const MOST_CHANGED: usize = 64;

/// The most lines that all searches together go through, for histories of which ten searches stay below this.
const MOST_LINES: usize = 100_000;

/// The most states that are made for one line.
const MOST_STATES: usize = 1_000;

/// Another answer in a line.
#[derive(Clone, Copy)]
pub struct OtherAnswer {
    /// The place of the line, from 0.
    pub place: usize,
    /// The answer.
    pub answer: Answer,
}

/// How many answers are changed at most if so many lines are gone through in each search.
fn most_changed(lines: usize) -> usize {
    let searches = MOST_LINES / usize::max(lines, 1);
    usize::max(1, usize::min(MOST_CHANGED, searches / 10))
}

/// Whether a search finds a run of these lines with this one in another place.
fn is_legal_with<V: WatchLines>(
    alloc: Global,
    terms: &Terms,
    lines: &[Line],
    place: usize,
    line: Line,
    watch: &mut V,
) -> Result<bool, Stop>
    requires { place < length lines.now }
    ensures { IfOk result (λ b. b ≡ true → IsLegalWith terms.now.rules terms.now.limits lines.now place line) }
{
    let mut changed = Vec::from_slice(alloc, lines)?;
    changed[place] = line;
    match terms.run_of(alloc, changed.as_slice(), watch)? {
        Some(_) => Ok(true),
        None => Ok(false),
    }
}

/// Whether an answer differs from the one in this place, and a search finds a run of the lines with it.
fn mends<V: WatchLines>(
    alloc: Global,
    terms: &Terms,
    lines: &[Line],
    place: usize,
    thread: Tid,
    answer: Answer,
    other: Answer,
    watch: &mut V,
) -> Result<bool, Stop>
    requires { place < length lines.now }
    ensures { IfOk result (λ b. b ≡ true → IsOtherAnswer terms.now.rules terms.now.limits lines.now place thread answer other) }
{
    if other == answer {
        return Ok(false);
    }
    let line = Line::Answer(thread, other);
    is_legal_with(alloc, terms, lines, place, line, watch)
}

/// The least answer in this place, other than the one that is there, with which a search finds a run of the lines; None
/// if none is found.
fn other_answer<V: WatchLines>(
    alloc: Global,
    terms: &Terms,
    lines: &[Line],
    place: usize,
    thread: Tid,
    answer: Answer,
    watch: &mut V,
) -> Result<Option<Answer>, Stop>
    requires { place < length lines.now }
    ensures { IfOk result (λ o. IfSome o (IsOtherAnswer terms.now.rules terms.now.limits lines.now place thread answer)) }
{
    let labels = answers_of(alloc, thread)?;
    let answers = numbers_of(alloc, labels.as_slice())?;
    for other in answers.as_slice() {
        if mends(alloc, terms, lines, place, thread, answer, *other, watch)? {
            return Ok(Some(*other));
        }
        if !watch.goes_on() {
            return Ok(None);
        }
    }
    Ok(None)
}

/// The least other answer in this place, if an answer stands there; None if none is found.
fn other_at<V: WatchLines>(
    alloc: Global,
    terms: &Terms,
    lines: &[Line],
    place: usize,
    watch: &mut V,
) -> Result<Option<OtherAnswer>, Stop>
    requires { place + 1 < length lines.now }
    ensures { IfOk result (λ o. IfSome o (IsLegalIf terms.now.rules terms.now.limits lines.now)) }
{
    let Line::Answer(thread, answer) = lines[place] else {
        return Ok(None);
    };
    let found = other_answer(alloc, terms, lines, place, thread, answer, watch)?;
    match found {
        Some(other) => Ok(Some(OtherAnswer {
            place,
            answer: other,
        })),
        None => Ok(None),
    }
}

/// The last answer before the last of these lines which can be replaced so that a search finds a run of all, and the
/// least answer that does this; None if none is found. `watch` may end the search.
///
/// # Errors
///
/// That of a search.
pub fn legal_if_of<V: WatchLines>(
    alloc: Global,
    terms: &Terms,
    lines: &[Line],
    watch: &mut V,
) -> Result<Option<OtherAnswer>, Stop>
    ensures { IfOk result (λ o. IfSome o (IsLegalIf terms.now.rules terms.now.limits lines.now)) }
{
    let few = Terms {
        states: usize::min(terms.states, MOST_STATES),
        ..*terms
    };
    let mut left = most_changed(lines.len());
    for back in 1..lines.len() {
        if left == 0 || !watch.goes_on() {
            return Ok(None);
        }
        let place = lines.len() - 1 - back;
        let found = other_at(alloc, &few, lines, place, watch)?;
        if found.is_some() {
            return Ok(found);
        }
        if let Line::Answer(_, _) = lines[place] {
            left = left.saturating_sub(1);
        }
    }
    Ok(None)
}
