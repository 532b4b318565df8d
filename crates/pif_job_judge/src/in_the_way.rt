//! What is in the way of an illegal line, with the begin of the call of the thread that stands in the way.
ghost use Rattle.std.specs.Prelude.{◌≤◌, IfOk, IfSome, take, vec_len};
ghost use Rattle.pif_history_text.specs.Histories.{limits_of};
ghost use Rattle.pif_history_text.specs.Reading.{IsPaired, heard_of};
ghost use Rattle.pif_judge_reasons.specs.InTheWay.{IsInTheWay as IsObstacle};
ghost use Rattle.pif_job_judge.specs.InTheWay.{IsInTheWay};

use crate::signs::facts_about;
use crate::terms::terms_of;
use pif_history_model::Line;
use pif_history_text::History;
use pif_history_told::{InTheWay, began_of};
use pif_judge_reasons::{Obstacle, blocker_of, in_the_way_behind};
use pif_search::{Stop, WatchLines};
use std::alloc::Global;

/// What is told of this, if it is in the way after the first `before` lines of a history.
fn told_of(history: &History, before: usize, found: &Obstacle) -> InTheWay
    requires paired { IsPaired history.now }
    requires within { before ≤ vec_len history.now.shown }
    ensures { IsObstacle history.now.allowed (limits_of (heard_of history.now)) (take before history.now.shown.items) found.now → IsInTheWay (heard_of history.now) before result }
{
    InTheWay {
        fact: found.fact,
        priority: found.priority,
        began: began_of(history, blocker_of(&found.fact), before),
    }
}

/// What is in the way of this line after the first `before` lines of a history, up to which there is no run: the first
/// of the facts about it that is so in the last state of every run that shows these lines. None if none of them is, or
/// if `watch` ended the search.
///
/// # Errors
///
/// That of a search.
pub fn in_the_way_at<V: WatchLines>(
    alloc: Global,
    states: usize,
    history: &History,
    before: usize,
    line: &Line,
    watch: &mut V,
) -> Result<Option<InTheWay>, Stop>
    requires paired { IsPaired history.now }
    requires within { before ≤ vec_len history.now.shown }
    ensures { IfOk result (λ o. IfSome o (IsInTheWay (heard_of history.now) before)) }
{
    let lines = &history.shown.as_slice()[..before];
    let facts = facts_about(alloc, lines, line)?;
    let terms = terms_of(history, states);
    match in_the_way_behind(alloc, &terms, lines, facts.as_slice(), watch)? {
        Some(found) => Ok(Some(told_of(history, before, &found))),
        None => Ok(None),
    }
}
