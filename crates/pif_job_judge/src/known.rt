ghost use Rattle.std.specs.Prelude.{◌≤◌, IfOk, None, take, vec_len};
ghost use Rattle.pif_history_machine.specs.Verdicts.{IsRefusalThere};
ghost use Rattle.pif_history_text.specs.Histories.{limits_of};
ghost use Rattle.pif_history_text.specs.Reading.{heard_of};
ghost use Rattle.pif_history_told.specs.Why.{IsKnown};

use pif_history::{possible_answers, possible_priorities};
use pif_history_machine::refusal;
use pif_history_model::Line;
use pif_history_text::History;
use pif_history_told::Known;
use pif_search::{Stop, WatchLines};
use std::alloc::Global;

/// What is known of the line after the first `before` lines of a history, if it isn't refused.
fn numbers_of<V: WatchLines>(
    alloc: Global,
    states: usize,
    history: &History,
    before: usize,
    line: &Line,
    watch: &mut V,
) -> Result<Known, Stop>
    requires within { before ≤ vec_len history.now.shown }
    requires refused { IsRefusalThere (limits_of (heard_of history.now)) (take before history.now.shown.items) line.now None }
    ensures { IfOk result (IsKnown (heard_of history.now) before line.now) }
{
    let lines = &history.shown.as_slice()[..before];
    let limits = history.limits();
    let rules = &history.allowed;
    match line {
        Line::Answer(thread, _) => {
            let answers = possible_answers(alloc, rules, limits, lines, *thread, states, watch)?;
            Ok(Known::Numbers(answers))
        }
        Line::Prio(thread, _) => {
            let priorities = possible_priorities(
                alloc, rules, limits, lines, *thread, states, watch,
            )?;
            Ok(Known::Numbers(priorities))
        }
        _ => Ok(Known::Nothing),
    }
}

/// What is known of the line after the first `before` lines of a history. `watch` may end the search for it.
///
/// # Errors
///
/// That of a search.
pub fn known_of<V: WatchLines>(
    alloc: Global,
    states: usize,
    history: &History,
    before: usize,
    line: &Line,
    watch: &mut V,
) -> Result<Known, Stop>
    requires { before ≤ vec_len history.now.shown }
    ensures { IfOk result (IsKnown (heard_of history.now) before line.now) }
{
    let lines = &history.shown.as_slice()[..before];
    match refusal(history.limits(), lines, line)? {
        Some(why) => Ok(Known::Refused(why)),
        None => numbers_of(alloc, states, history, before, line, watch),
    }
}
