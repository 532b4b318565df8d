ghost use Rattle.std.specs.Prelude.{IfOk};
ghost use Rattle.pif_history_text.specs.Histories.{limits_of};
ghost use Rattle.pif_history_text.specs.Reading.{IsPaired, heard_of};
ghost use Rattle.pif_job_judge.specs.LeastRules.{IsLeast};
ghost use Rattle.pif_job_judge.specs.Needed.{AppendsNeeded};

use crate::faults::Ended;
use crate::search::Needed;
use pif_history_text::History;
use pif_history_told::{calls_in, number_at, push_legal_with, push_undecided_with};
use pif_rules_model::Rules;
use pif_search::Stop;
use std::alloc::Global;

/// Appends what is told of a history by what was found of the rules that it needs, of those that are asked for. Answers
/// what that is.
///
/// # Errors
///
/// Out of memory, or that of a run.
pub fn tell_needed(
    alloc: Global,
    asked: &Rules,
    history: &History,
    found: Needed,
    out: &mut Vec<u8>,
) -> Result<Ended, Stop>
    requires paired { IsPaired history.now }
    requires found { IsLeast history.now.allowed asked.now (limits_of (heard_of history.now)) history.now.shown.items found }
    ensures { IfOk result (λ end. AppendsNeeded asked.now (heard_of history.now) end out.old.items out.new.items) }
{
    match found {
        Needed::Legal(found) => {
            let calls = calls_in(history);
            let rules = &found.rules;
            push_legal_with(alloc, history.count, calls, &history.allowed, rules, out)?;
            Ok(Ended::of_legal(calls))
        }
        Needed::Undecided(rules, count) => {
            let number = number_at(history, count);
            push_undecided_with(alloc, number, &history.allowed, &rules, out)?;
            Ok(Ended::Undecided(u64::from(number)))
        }
    }
}
