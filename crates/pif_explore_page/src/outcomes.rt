ghost use Rattle.std.specs.Prelude.{◌≡◌, ◌++◌, IfOk, OnOk, flat_map, true};
ghost use Rattle.pif_explore_told.specs.OutcomeLines.{outcome_line};
ghost use Rattle.pif_explore_page.specs.Objects.{bool_told, counts_object, outcome_object};

use crate::schedules::push_way_member;
use crate::texts::{push_between, without_end};
use pif_explore::{Plan, Situation, Told};
use pif_explore_model::Label;
use pif_explore_told::{push_numbers, push_outcome};
use pif_reach::Node;
use pif_search::Stop;
use std::alloc::Global;

/// The line of an outcome, with its calls.
fn line_of(alloc: Global, plan: &Plan, spans: &[usize], told: &Told) -> Result<Vec<u8>, Stop>
    ensures { IfOk result (λ v. v.items ≡ outcome_line true plan.now.points spans.now told.now.outcome) }
{
    let mut line = Vec::new(alloc);
    let points = plan.points.as_slice();
    push_outcome(alloc, true, points, spans, &told.outcome, &mut line)?;
    Ok(line)
}

/// Appends an outcome.
fn push_outcome_object(
    alloc: Global,
    plan: &Plan,
    spans: &[usize],
    nodes: &[Node<Situation, Label>],
    told: &Told,
    out: &mut Vec<u8>,
) -> Result<(), Stop>
    ensures { OnOk result (out.new.items ≡ out.old.items ++ outcome_object plan.now spans.now nodes.now told.now) }
{
    let line = line_of(alloc, plan, spans, told)?;
    push_between(out, "{\"outcome\":\"", without_end(line.as_slice()), "\"")?;
    push_way_member(alloc, plan, nodes, told.place, out)
}

/// Appends outcomes. The points of thread t are those from the number at place t - 1 of `spans` on, and below that at
/// place t.
///
/// # Errors
///
/// Out of memory, or a number got too great for a state. A part of it may have been appended.
pub fn push_outcome_objects(
    alloc: Global,
    plan: &Plan,
    spans: &[usize],
    nodes: &[Node<Situation, Label>],
    outcomes: &[Told],
    out: &mut Vec<u8>,
) -> Result<(), Stop>
    ensures { OnOk result (out.new.items ≡ out.old.items ++ flat_map (outcome_object plan.now spans.now nodes.now) outcomes.now) }
{
    for told in outcomes {
        push_outcome_object(alloc, plan, spans, nodes, told, out)?;
    }
    Ok(())
}

/// Whether something is so, in a word.
fn bool_told(is_so: bool) -> &'static str
    ensures { result.now ≡ bool_told is_so }
{
    if is_so { "true" } else { "false" }
}

/// Appends how much was found, and whether that is all.
///
/// # Errors
///
/// Out of memory. A part of it may have been appended.
pub fn push_counts_object(
    is_whole: bool,
    outcomes: usize,
    states: usize,
    steps: usize,
    out: &mut Vec<u8>,
) -> Result<(), Stop>
    ensures { OnOk result (out.new.items ≡ out.old.items ++ counts_object is_whole outcomes states steps) }
{
    let numbers = [
        ("{\"outcomes\":", outcomes as u64),
        (",\"states\":", states as u64),
        (",\"steps\":", steps as u64),
    ];
    push_numbers(out, &numbers, "")?;
    push_between(out, ",\"whole\":", bool_told(is_whole).as_bytes(), "}\n")
}
