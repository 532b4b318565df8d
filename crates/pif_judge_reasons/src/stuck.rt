//! Whether an open call can be answered after the lines.
ghost use Rattle.std.specs.Prelude.{◌≡◌, [], true, IfOk};
ghost use Rattle.pif_history_model.specs.Verdicts.{ArePossibleAnswers};

use crate::terms::Terms;
use pif_history::possible_answers;
use pif_history_model::Line;
use pif_search::{Stop, WatchLines};
use pif_types::Tid;
use std::alloc::Global;

/// The most states that are made for one line in the search for an answer of an open call.
const MOST_STATES: usize = 10_000;

/// Whether a search finds that no answer of a thread is possible after these lines. A guided search looks first for a
/// run in which it is answered 0. `watch` may end the search; then the answer is no.
///
/// # Errors
///
/// That of a search.
pub fn is_stuck<V: WatchLines>(
    alloc: Global,
    terms: &Terms,
    lines: &[Line],
    thread: Tid,
    watch: &mut V,
) -> Result<bool, Stop>
    ensures { IfOk result (λ b. b ≡ true → ArePossibleAnswers terms.now.rules terms.now.limits lines.now thread []) }
{
    let few = Terms {
        states: usize::min(terms.states, MOST_STATES),
        ..*terms
    };
    if few.finds_next(alloc, lines, Line::Answer(thread, 0), watch)? {
        return Ok(false);
    }
    let Terms {
        rules,
        limits,
        states,
    } = few;
    match possible_answers(alloc, &rules, limits, lines, thread, states, watch)? {
        Some(answers) => Ok(answers.is_empty()),
        None => Ok(false),
    }
}
