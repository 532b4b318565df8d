ghost use Rattle.std.specs.Prelude.{◌≡◌, ◌++◌, OnOk};
ghost use Rattle.pif_explore_page.specs.Objects.{objects_told};

use crate::claims::push_ruling_objects;
use crate::delays::push_delay_objects;
use crate::faults::FaultObjects;
use crate::outcomes::{push_counts_object, push_outcome_objects};
use crate::program::push_program;
use pif_explore::{Explored, Plan};
use pif_explore_orders::AllFaults;
use pif_explore_told::{Held, Ruling, push_faults};
use pif_search::Stop;
use std::alloc::Global;

/// Appends what was found of a program with this text, as lines of JSON. The points of thread t are those from the number
/// at place t - 1 of `spans` on, and below that at place t.
///
/// # Errors
///
/// Out of memory, or a number got too great for a state. A part of it may have been appended.
pub fn push_objects(
    alloc: Global,
    program: &[u8],
    plan: &Plan,
    spans: &[usize],
    explored: &Explored,
    rulings: &[Ruling],
    delays: &[Held],
    faults: &AllFaults,
    out: &mut Vec<u8>,
) -> Result<(), Stop>
    ensures { OnOk result (out.new.items ≡ out.old.items ++ objects_told program.now plan.now spans.now explored.now rulings.now delays.now faults.now) }
{
    let nodes = explored.nodes.as_slice();
    let outcomes = explored.outcomes.as_slice();
    push_program(alloc, program, plan, nodes, out)?;
    push_ruling_objects(alloc, plan, nodes, rulings, out)?;
    push_delay_objects(alloc, plan, nodes, delays, out)?;
    push_faults(alloc, &FaultObjects { plan }, nodes, faults, out)?;
    push_outcome_objects(alloc, plan, spans, nodes, outcomes, out)?;
    let count = outcomes.len();
    let states = nodes.len();
    let edges = explored.edges.as_slice();
    let steps = edges.len();
    push_counts_object(explored.is_whole, count, states, steps, out)
}
