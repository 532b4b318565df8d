//! A history judged component by component.
ghost use Rattle.std.specs.Prelude.{◌≡◌, ◌<◌, ◌≤◌, ◌+◌, length, reverse, take, IfOk};
ghost use Rattle.pif_components.specs.Groups.{AreGroupsOf};
ghost use Rattle.pif_components.specs.Sides.{IsOfSide, side_of};
ghost use Rattle.pif_parts.specs.Parts.{IsOf};
ghost use Rattle.pif_components.specs.Judging.{AreJudged, IsTold, told, verdict_by, verdict_of, within};

use crate::groups::Groups;
use crate::hearing::groups_of;
use crate::sides::{lines_of, place_of};
use pif_history::judge_lines;
use pif_history_machine::Verdict;
use pif_history_model::{Fact, HistoryLimits, Line};
use pif_parts::PartVerdict;
use pif_rules_model::no_rules;
use pif_search::{Stop, WatchLines};
use pif_types::Request;
use std::alloc::Global;

/// What is known of a history once some of its components were judged.
#[derive(Clone, Copy)]
struct Standing {
    /// The least line of all, from 1, at which one of them is illegal, if one is.
    illegal: Option<usize>,
    /// Whether it isn't known of one of them whether its lines before that are legal.
    undecided: bool,
}

/// How many lines of a history are still to be judged: those before the least that is known to be illegal.
fn within(illegal: Option<usize>, count: usize) -> usize
    ensures { result ≡ within illegal count }
{
    match illegal {
        Some(line) => line.saturating_sub(1).min(count),
        None => count,
    }
}

/// What is known once one more component was judged.
fn told(standing: &Standing, verdict: &PartVerdict) -> Standing
    ensures { result ≡ told standing.now verdict.now }
{
    let Standing { illegal, undecided } = *standing;
    match *verdict {
        PartVerdict::Legal => Standing { illegal, undecided },
        PartVerdict::Illegal(line) => Standing {
            illegal: Some(line),
            undecided,
        },
        PartVerdict::Undecided => Standing {
            illegal,
            undecided: true,
        },
    }
}

/// The verdict on the history, once all components were judged.
fn verdict_of(standing: &Standing) -> PartVerdict
    ensures { result ≡ verdict_of standing.now }
{
    if standing.undecided {
        return PartVerdict::Undecided;
    }
    match standing.illegal {
        Some(line) => PartVerdict::Illegal(line),
        None => PartVerdict::Legal,
    }
}

/// The verdict on a history by that of a search.
fn verdict_by(found: Verdict) -> PartVerdict
    ensures { result ≡ verdict_by found }
{
    match found {
        Verdict::Legal(_) => PartVerdict::Legal,
        Verdict::Illegal(line) => PartVerdict::Illegal(line),
        Verdict::Undecided(_) => PartVerdict::Undecided,
    }
}

/// Judges lines as a whole.
fn judge_whole<W: WatchLines>(
    alloc: Global,
    limits: HistoryLimits,
    lines: &[Line],
    states: usize,
    watch: &mut W,
) -> Result<PartVerdict, Stop>
    ensures { IfOk result (IsOf limits lines.now) }
{
    let found = judge_lines(alloc, &no_rules(), limits, lines, states, watch)?;
    Ok(verdict_by(found))
}

/// Judges a component. An illegal line of it is told by its number among all lines.
fn judge_side<W: WatchLines>(
    alloc: Global,
    limits: HistoryLimits,
    groups: &Groups,
    number: usize,
    lines: &[Line],
    states: usize,
    watch: &mut W,
) -> Result<PartVerdict, Stop>
    ensures { IfOk result (IsOfSide limits (side_of groups.now number) lines.now) }
{
    let own = lines_of(alloc, groups, number, lines)?;
    match judge_whole(alloc, limits, own.as_slice(), states, watch)? {
        PartVerdict::Legal => Ok(PartVerdict::Legal),
        PartVerdict::Illegal(line) => {
            Ok(PartVerdict::Illegal(place_of(groups, number, lines, line)))
        }
        PartVerdict::Undecided => Ok(PartVerdict::Undecided),
    }
}

/// Judges one more component, up to the least line at which one is known to be illegal.
fn judge_next<W: WatchLines>(
    alloc: Global,
    limits: HistoryLimits,
    groups: &Groups,
    number: usize,
    lines: &[Line],
    standing: &Standing,
    states: usize,
    watch: &mut W,
) -> Result<Standing, Stop>
    ensures { IfOk result (λ s. number < groups.now.count → AreJudged limits lines.now groups.now number standing.now → AreJudged limits lines.now groups.now (number + 1) s) }
{
    let _no_request: Option<Request> = None;
    let _no_fact: Option<Fact> = None;
    let count = within(standing.illegal, lines.len());
    let open = &lines[..count];
    let verdict = judge_side(alloc, limits, groups, number, open, states, watch)?;
    Ok(told(standing, &verdict))
}

/// Judges all components, up to this line, at which one is illegal, if one is known to be.
fn judge_each<W: WatchLines>(
    alloc: Global,
    limits: HistoryLimits,
    groups: &Groups,
    lines: &[Line],
    illegal: Option<usize>,
    states: usize,
    watch: &mut W,
) -> Result<Standing, Stop>
    ensures { IfOk result (λ s. IsTold limits lines.now groups.now illegal → AreJudged limits lines.now groups.now groups.now.count s) }
{
    let _no_request: Option<Request> = None;
    let _no_fact: Option<Fact> = None;
    let mut standing = Standing {
        illegal,
        undecided: false,
    };
    for number in 0..groups.count() {
        standing = judge_next(
            alloc, limits, groups, number, lines, &standing, states, watch,
        )?;
    }
    Ok(standing)
}

/// Judges all components. If one is illegal, and another one was undecided before that was known, they are judged again,
/// up to that line.
fn judge_all<W: WatchLines>(
    alloc: Global,
    limits: HistoryLimits,
    groups: &Groups,
    lines: &[Line],
    states: usize,
    watch: &mut W,
) -> Result<Standing, Stop>
    ensures { IfOk result (AreJudged limits lines.now groups.now groups.now.count) }
{
    let _no_request: Option<Request> = None;
    let _no_fact: Option<Fact> = None;
    let standing = judge_each(alloc, limits, groups, lines, None, states, watch)?;
    if standing.undecided && standing.illegal.is_some() {
        return judge_each(
            alloc,
            limits,
            groups,
            lines,
            standing.illegal,
            states,
            watch,
        );
    }
    Ok(standing)
}

/// Judges the lines of a history, oldest first, component by component. No rule is allowed. Of a component at most so many
/// states are made for a line. `watch` is told of each component how far its searches have come. If a line names what
/// wasn't added before, the history is judged as a whole.
///
/// # Errors
///
/// Out of memory, or a number got too great for a state. Then nothing is claimed.
pub fn judge_components<W: WatchLines>(
    alloc: Global,
    limits: HistoryLimits,
    lines: &[Line],
    states: usize,
    watch: &mut W,
) -> Result<PartVerdict, Stop>
    ensures { IfOk result (IsOf limits lines.now) }
{
    let _no_request: Option<Request> = None;
    let _no_fact: Option<Fact> = None;
    let Some(groups) = groups_of(alloc, lines)? else {
        return judge_whole(alloc, limits, lines, states, watch);
    };
    let standing = judge_all(alloc, limits, &groups, lines, states, watch)?;
    Ok(verdict_of(&standing))
}
