//! Delays. If out of memory, a part of what is appended may have been.
ghost use Rattle.std.specs.Prelude.{◌≡◌, ◌++◌, OnOk, codes, flat_map};
ghost use Rattle.pif_explore_told.specs.DelayLines.{delay_line, delay_told, leg_told, legs_told, stretch_told};
ghost use Rattle.pif_explore_told.specs.FoundSchedules.{schedule};

use crate::found_schedules::{push_schedule, push_step};
use crate::pieces::{push_all, push_numbers};
use pif_explore::{Delay, Leg, Plan, Situation, Stretch};
use pif_explore_model::Label;
use pif_reach::Node;
use pif_search::Stop;
use std::alloc::Global;

/// For how long a thread is held up at the most.
#[derive(Drop)]
pub struct Held {
    /// The thread.
    pub thread: usize,
    /// What was found of it.
    pub delay: Delay,
}

/// Appends the step from one node to another.
fn push_leg(
    out: &mut Vec<u8>,
    plan: &Plan,
    nodes: &[Node<Situation, Label>],
    leg: &Leg,
) -> Result<(), Stop>
    ensures { OnOk result (out.new.items ≡ out.old.items ++ leg_told plan.now nodes.now leg.now) }
{
    if leg.from >= nodes.len() || leg.to >= nodes.len() {
        return Ok(());
    }
    let first = &nodes[leg.from];
    let second = &nodes[leg.to];
    push_step(out, plan, &leg.label, &first.state, &second.state)
}

/// Appends the steps of a stretch.
fn push_legs(
    out: &mut Vec<u8>,
    plan: &Plan,
    nodes: &[Node<Situation, Label>],
    legs: &[Leg],
) -> Result<(), Stop>
    ensures { OnOk result (out.new.items ≡ out.old.items ++ flat_map (leg_told plan.now nodes.now) legs.now) }
{
    for leg in legs {
        push_leg(out, plan, nodes, leg)?;
    }
    Ok(())
}

/// Appends the schedule of the state at which a stretch begins, and its steps.
fn push_stretch(
    alloc: Global,
    plan: &Plan,
    nodes: &[Node<Situation, Label>],
    stretch: &Stretch,
    out: &mut Vec<u8>,
) -> Result<(), Stop>
    ensures { OnOk result (out.new.items ≡ out.old.items ++ (schedule plan.now nodes.now stretch.now.place ++ legs_told plan.now nodes.now stretch.now)) }
{
    push_schedule(alloc, plan, nodes, stretch.place, out)?;
    push_legs(out, plan, nodes, stretch.legs.as_slice())
}

/// Appends the schedule of the state at which a stretch begins that goes round, and its steps.
fn push_round(
    alloc: Global,
    plan: &Plan,
    nodes: &[Node<Situation, Label>],
    stretch: &Stretch,
    out: &mut Vec<u8>,
) -> Result<(), Stop>
    ensures { OnOk result (out.new.items ≡ out.old.items ++ (schedule plan.now nodes.now stretch.now.place ++ (codes "  again and again:\n" ++ legs_told plan.now nodes.now stretch.now))) }
{
    push_schedule(alloc, plan, nodes, stretch.place, out)?;
    push_all(out, b"  again and again:\n")?;
    push_legs(out, plan, nodes, stretch.legs.as_slice())
}

/// Appends the line of a thread's delay.
fn push_line(out: &mut Vec<u8>, thread: usize, delay: &Delay) -> Result<(), Stop>
    ensures { OnOk result (out.new.items ≡ out.old.items ++ delay_line thread delay.now) }
{
    let named = ("delay t", thread as u64);
    match delay {
        Delay::Longest(stretch) => {
            push_numbers(out, &[named, (": ", stretch.count as u64)], "\n")
        }
        Delay::Endless(_) => push_numbers(out, &[named], ": without bound\n"),
        Delay::Open => push_numbers(out, &[named], ": undecided\n"),
    }
}

/// Appends the steps of a delay that is told.
fn push_steps(
    alloc: Global,
    plan: &Plan,
    nodes: &[Node<Situation, Label>],
    delay: &Delay,
    out: &mut Vec<u8>,
) -> Result<(), Stop>
    ensures { OnOk result (out.new.items ≡ out.old.items ++ stretch_told plan.now nodes.now delay.now) }
{
    match delay {
        Delay::Longest(stretch) => push_stretch(alloc, plan, nodes, stretch, out),
        Delay::Endless(stretch) => push_round(alloc, plan, nodes, stretch, out),
        Delay::Open => Ok(()),
    }
}

/// Appends a delay with its schedule.
fn push_delay(
    alloc: Global,
    plan: &Plan,
    nodes: &[Node<Situation, Label>],
    held: &Held,
    out: &mut Vec<u8>,
) -> Result<(), Stop>
    ensures { OnOk result (out.new.items ≡ out.old.items ++ delay_told plan.now nodes.now held.now) }
{
    push_line(out, held.thread, &held.delay)?;
    push_steps(alloc, plan, nodes, &held.delay, out)
}

/// Appends delays, each with its schedule.
///
/// # Errors
///
/// Out of memory.
pub fn push_delays(
    alloc: Global,
    plan: &Plan,
    nodes: &[Node<Situation, Label>],
    delays: &[Held],
    out: &mut Vec<u8>,
) -> Result<(), Stop>
    ensures { OnOk result (out.new.items ≡ out.old.items ++ flat_map (delay_told plan.now nodes.now) delays.now) }
{
    for held in delays {
        push_delay(alloc, plan, nodes, held, out)?;
    }
    Ok(())
}
