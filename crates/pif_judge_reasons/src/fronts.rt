//! How many first lines of a history are known to be legal: the greatest front of which a run is found.
ghost use Rattle.std.specs.Prelude.{◌≡◌, IfOk, IfSome};
ghost use Rattle.pif_judge_reasons.specs.Fronts.{IsFront, count_of};

use crate::terms::Terms;
use pif_history_model::{Label, Line};
use pif_search::{Stop, WatchLines};
use std::alloc::Global;

/// The most states that are made for one line in the search for a front.
const MOST_STATES: usize = 10_000;

/// The first lines of a history, of which a run was found.
#[derive(Drop)]
pub struct Front {
    /// How many lines they are: at least one, and not all.
    pub count: usize,
    /// The labels of the steps of the run, newest first.
    pub labels: Vec<Label>,
}

/// How many lines a front has; none, if there is none.
pub fn count_of(front: &Option<Front>) -> usize
    ensures { result ≡ count_of front.now }
{
    match front {
        Some(front) => front.count,
        None => 0,
    }
}

/// So many first lines as a front, if a search finds a run of them.
fn front_of<V: WatchLines>(
    alloc: Global,
    terms: &Terms,
    lines: &[Line],
    count: usize,
    watch: &mut V,
) -> Result<Option<Front>, Stop>
    ensures { IfOk result (λ o. IfSome o (IsFront terms.now.rules terms.now.limits lines.now)) }
{
    if count == 0 {
        return Ok(None);
    }
    if count >= lines.len() {
        return Ok(None);
    }
    match terms.run_of(alloc, &lines[..count], watch)? {
        Some(labels) => Ok(Some(Front { count, labels })),
        None => Ok(None),
    }
}

/// How many lines are tried next, if a run of so many was found, and none of so many others: few more than the former,
/// since the mistake is mostly near.
fn next_count(shown: usize, unfound: usize, reach: usize) -> usize {
    let gap = unfound.saturating_sub(shown);
    let more = usize::max(1, usize::min(reach, gap / 2));
    shown.saturating_add(more)
}

/// The greatest front of these lines of which a guided search finds a run, by trying more and more lines, and then by
/// halving. So many lines are tried first. The search ends as soon as the time is over.
///
/// # Errors
///
/// That of a search.
pub fn greatest_front<V: WatchLines>(
    alloc: Global,
    terms: &Terms,
    lines: &[Line],
    first: usize,
    watch: &mut V,
) -> Result<Option<Front>, Stop>
    ensures { IfOk result (λ o. IfSome o (IsFront terms.now.rules terms.now.limits lines.now)) }
{
    let few = Terms {
        states: usize::min(terms.states, MOST_STATES),
        ..*terms
    };
    let mut front = None;
    let mut unfound = lines.len();
    let mut count = usize::max(1, usize::min(first, unfound.saturating_sub(1)));
    let mut reach = 0_usize;
    for _ in 0..2 * usize::BITS {
        if count >= unfound || !watch.goes_on() {
            return Ok(front);
        }
        match front_of(alloc, &few, lines, count, watch)? {
            Some(found) => {
                front = Some(found);
                reach = reach.saturating_mul(2).saturating_add(1);
            }
            None => unfound = count,
        }
        count = next_count(count_of(&front), unfound, reach);
    }
    Ok(front)
}
