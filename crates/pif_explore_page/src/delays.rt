ghost use Rattle.std.specs.Prelude.{◌≡◌, ◌++◌, OnOk, codes, decimal, flat_map};
ghost use Rattle.pif_explore_page.specs.Objects.{delay_members, delay_object, scheduled, way_member};
ghost use Rattle.pif_explore_page.specs.Steps.{leg_steps, steps_to, steps_told};

use crate::schedules::{push_legs, push_scheduled, push_way_member, steps_to};
use crate::texts::push_between;
use pif_explore::{Delay, Plan, Situation, Stretch};
use pif_explore_model::Label;
use pif_explore_told::{Held, push_all, push_numbers};
use pif_reach::Node;
use pif_search::Stop;
use std::alloc::Global;

/// Ends an object with how many steps of a stretch count, and with a schedule that leads through them.
fn push_longest(
    alloc: Global,
    plan: &Plan,
    nodes: &[Node<Situation, Label>],
    stretch: &Stretch,
    out: &mut Vec<u8>,
) -> Result<(), Stop>
    ensures { OnOk result (out.new.items ≡ out.old.items ++ (codes ",\"steps\":" ++ (decimal stretch.now.count ++ scheduled (steps_told plan.now (steps_to nodes.now stretch.now.place ++ leg_steps nodes.now stretch.now.legs.items))))) }
{
    let mut steps = steps_to(alloc, plan, nodes, stretch.place)?;
    push_legs(alloc, plan, nodes, stretch.legs.as_slice(), &mut steps)?;
    push_numbers(out, &[(",\"steps\":", stretch.count as u64)], "")?;
    push_scheduled(out, steps.as_slice())
}

/// Ends an object with the steps of a stretch that goes round, and the schedule of the state at which it begins.
fn push_endless(
    alloc: Global,
    plan: &Plan,
    nodes: &[Node<Situation, Label>],
    stretch: &Stretch,
    out: &mut Vec<u8>,
) -> Result<(), Stop>
    ensures { OnOk result (out.new.items ≡ out.old.items ++ (codes ",\"steps\":null,\"again\":[" ++ (steps_told plan.now (leg_steps nodes.now stretch.now.legs.items) ++ (codes "]" ++ way_member plan.now nodes.now stretch.now.place)))) }
{
    let mut legs = Vec::new(alloc);
    push_legs(alloc, plan, nodes, stretch.legs.as_slice(), &mut legs)?;
    push_between(out, ",\"steps\":null,\"again\":[", legs.as_slice(), "]")?;
    push_way_member(alloc, plan, nodes, stretch.place, out)
}

/// Ends an object with what was found of a delay.
fn push_delay_members(
    alloc: Global,
    plan: &Plan,
    nodes: &[Node<Situation, Label>],
    delay: &Delay,
    out: &mut Vec<u8>,
) -> Result<(), Stop>
    ensures { OnOk result (out.new.items ≡ out.old.items ++ delay_members plan.now nodes.now delay.now) }
{
    match delay {
        Delay::Longest(stretch) => push_longest(alloc, plan, nodes, stretch, out),
        Delay::Endless(stretch) => push_endless(alloc, plan, nodes, stretch, out),
        Delay::Open => push_all(out, b"}\n"),
    }
}

/// Appends for how long a thread is held up.
#[tactic(auto, unfolding(crate::specs::Objects::delay_object))]
fn push_delay_object(
    alloc: Global,
    plan: &Plan,
    nodes: &[Node<Situation, Label>],
    held: &Held,
    out: &mut Vec<u8>,
) -> Result<(), Stop>
    ensures { OnOk result (out.new.items ≡ out.old.items ++ delay_object plan.now nodes.now held.now) }
{
    push_numbers(out, &[("{\"delay\":\"t", held.thread as u64)], "\"")?;
    push_delay_members(alloc, plan, nodes, &held.delay, out)
}

/// Appends for how long threads are held up.
///
/// # Errors
///
/// Out of memory, or a number got too great for a state. A part of it may have been appended.
pub fn push_delay_objects(
    alloc: Global,
    plan: &Plan,
    nodes: &[Node<Situation, Label>],
    delays: &[Held],
    out: &mut Vec<u8>,
) -> Result<(), Stop>
    ensures { OnOk result (out.new.items ≡ out.old.items ++ flat_map (delay_object plan.now nodes.now) delays.now) }
{
    for held in delays {
        push_delay_object(alloc, plan, nodes, held, out)?;
    }
    Ok(())
}
