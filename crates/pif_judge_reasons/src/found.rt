//! With which numbers in the next line a run was found.
ghost use Rattle.std.specs.Prelude.{◌≡◌, All, IfOk, IfSome};
ghost use Rattle.pif_judge_reasons.specs.Found.{AreFound, IsFound, MayStand, with_number};

use crate::terms::Terms;
use pif_history_machine::{answers_of, numbers_of, priorities_of};
use pif_history_model::Line;
use pif_search::{Stop, WatchLines, push};
use std::alloc::Global;

/// A line with this number for its answer, or its priority; the line itself, if it has neither.
fn with_number(line: &Line, number: u32) -> Line
    ensures { result ≡ with_number line.now number }
{
    match *line {
        Line::Answer(thread, _) => Line::Answer(thread, number),
        Line::Prio(thread, _) => Line::Prio(thread, number),
        _ => *line,
    }
}

/// The labels of what may stand in a line as its answer or its priority; none if it has neither.
fn candidates_of(alloc: Global, line: &Line) -> Result<Option<Vec<u32>>, Stop>
    ensures { IfOk result (λ o. IfSome o (λ v. All (MayStand line.now) v.items)) }
{
    match *line {
        Line::Answer(thread, _) => {
            let labels = answers_of(alloc, thread)?;
            Ok(Some(numbers_of(alloc, labels.as_slice())?))
        }
        Line::Prio(thread, _) => {
            let labels = priorities_of(alloc, thread)?;
            Ok(Some(numbers_of(alloc, labels.as_slice())?))
        }
        _ => Ok(None),
    }
}

/// Those of these numbers with which a search finds a run that shows the lines before and then this one. `None` if
/// `watch` ended a search.
fn found_among<V: WatchLines>(
    alloc: Global,
    terms: &Terms,
    before: &[Line],
    line: &Line,
    candidates: &[u32],
    watch: &mut V,
) -> Result<Option<Vec<u32>>, Stop>
    requires { All (MayStand line.now) candidates.now }
    ensures { IfOk result (λ o. IfSome o (λ v. AreFound terms.now.rules terms.now.limits before.now line.now v.items)) }
{
    let mut found = Vec::new(alloc);
    for number in candidates {
        let next = with_number(line, *number);
        if terms.finds_next(alloc, before, next, watch)? {
            push(&mut found, *number)?;
        }
        if !watch.goes_on() {
            return Ok(None);
        }
    }
    Ok(Some(found))
}

/// The numbers with which a guided search finds a run that shows the lines before and then this line, in place of its
/// answer or of its priority. `None` if the line has neither, or if `watch` ended a search. It says nothing of other
/// numbers.
///
/// # Errors
///
/// That of a search.
pub fn found_next<V: WatchLines>(
    alloc: Global,
    terms: &Terms,
    before: &[Line],
    line: &Line,
    watch: &mut V,
) -> Result<Option<Vec<u32>>, Stop>
    ensures { IfOk result (λ o. IfSome o (λ v. AreFound terms.now.rules terms.now.limits before.now line.now v.items)) }
{
    match candidates_of(alloc, line)? {
        Some(numbers) => found_among(alloc, terms, before, line, numbers.as_slice(), watch),
        None => Ok(None),
    }
}
