ghost use Rattle.std.specs.Prelude.{◌≡◌, ◌++◌, ◌∷◌, [], List, IfOk, OnOk};
ghost use Rattle.pif_explore_page.specs.Objects.{scheduled, way_member};
ghost use Rattle.pif_explore_page.specs.Steps.{Step, leg_step, leg_steps, step_to, steps_to, steps_told};

use crate::elements::push_comma;
use crate::steps::push_step_object;
use crate::texts::push_between;
use pif_explore::{Leg, Plan, Situation};
use pif_explore_model::Label;
use pif_explore_told::back_from;
use pif_reach::Node;
use pif_search::Stop;
use std::alloc::Global;

/// Appends a step from a state to another, as a further element.
fn add_step(
    alloc: Global,
    plan: &Plan,
    label: &Label,
    from: &Situation,
    to: &Situation,
    steps: &mut Vec<u8>,
) -> Result<(), Stop>
    ensures { OnOk result ((done : List Step) → steps.old.items ≡ steps_told plan.now done → steps.new.items ≡ steps_told plan.now (done ++ (label.now, from.now, to.now) ∷ [])) }
{
    push_comma(steps)?;
    push_step_object(alloc, plan, label, from, to, steps)
}

/// Appends the step by which the node at a place was found, if it was by a step.
fn add_step_to(
    alloc: Global,
    plan: &Plan,
    nodes: &[Node<Situation, Label>],
    at: usize,
    steps: &mut Vec<u8>,
) -> Result<(), Stop>
    ensures { OnOk result ((done : List Step) → steps.old.items ≡ steps_told plan.now done → steps.new.items ≡ steps_told plan.now (done ++ step_to nodes.now at)) }
{
    if at >= nodes.len() {
        return Ok(());
    }
    let node = &nodes[at];
    let Some(way) = &node.way else {
        return Ok(());
    };
    if way.from >= nodes.len() {
        return Ok(());
    }
    let first = &nodes[way.from];
    add_step(alloc, plan, &way.label, &first.state, &node.state, steps)
}

/// The steps by which the node at a place was found, as elements.
///
/// # Errors
///
/// Out of memory, or a number got too great for a state.
#[tactic(auto, unfolding(crate::specs::Steps::steps_to))]
pub fn steps_to(
    alloc: Global,
    plan: &Plan,
    nodes: &[Node<Situation, Label>],
    place: usize,
) -> Result<Vec<u8>, Stop>
    ensures { IfOk result (λ v. v.items ≡ steps_told plan.now (steps_to nodes.now place)) }
{
    let mut steps = Vec::new(alloc);
    let mut back = back_from(alloc, nodes, place)?;
    while let Some(at) = back.pop() {
        add_step_to(alloc, plan, nodes, at, &mut steps)?;
    }
    Ok(steps)
}

/// Appends the step from one node to another, as a further element.
fn add_leg(
    alloc: Global,
    plan: &Plan,
    nodes: &[Node<Situation, Label>],
    leg: &Leg,
    steps: &mut Vec<u8>,
) -> Result<(), Stop>
    ensures { OnOk result ((done : List Step) → steps.old.items ≡ steps_told plan.now done → steps.new.items ≡ steps_told plan.now (done ++ leg_step nodes.now leg.now)) }
{
    if leg.from >= nodes.len() || leg.to >= nodes.len() {
        return Ok(());
    }
    let first = &nodes[leg.from];
    let second = &nodes[leg.to];
    add_step(alloc, plan, &leg.label, &first.state, &second.state, steps)
}

/// Appends the steps of a stretch, as further elements.
///
/// # Errors
///
/// Out of memory, or a number got too great for a state. Some of them may have been appended.
pub fn push_legs(
    alloc: Global,
    plan: &Plan,
    nodes: &[Node<Situation, Label>],
    legs: &[Leg],
    steps: &mut Vec<u8>,
) -> Result<(), Stop>
    ensures { OnOk result ((done : List Step) → steps.old.items ≡ steps_told plan.now done → steps.new.items ≡ steps_told plan.now (done ++ leg_steps nodes.now legs.now)) }
{
    for leg in legs {
        add_leg(alloc, plan, nodes, leg, steps)?;
    }
    Ok(())
}

/// Ends an object with these steps, as its schedule.
///
/// # Errors
///
/// Out of memory. A part of it may have been appended.
pub fn push_scheduled(out: &mut Vec<u8>, steps: &[u8]) -> Result<(), Stop>
    ensures { OnOk result (out.new.items ≡ out.old.items ++ scheduled steps.now) }
{
    push_between(out, ",\"schedule\":[", steps, "]}\n")
}

/// Ends an object with the schedule of the node at a place.
///
/// # Errors
///
/// Out of memory, or a number got too great for a state. A part of it may have been appended.
pub fn push_way_member(
    alloc: Global,
    plan: &Plan,
    nodes: &[Node<Situation, Label>],
    place: usize,
    out: &mut Vec<u8>,
) -> Result<(), Stop>
    ensures { OnOk result (out.new.items ≡ out.old.items ++ way_member plan.now nodes.now place) }
{
    let steps = steps_to(alloc, plan, nodes, place)?;
    push_scheduled(out, steps.as_slice())
}
