ghost use Rattle.std.specs.Prelude.{◌≡◌, ◌++◌, OnOk, flat_map};
ghost use Rattle.pif_explore_page.specs.Objects.{ruling_object, verdict_members, verdict_way, verdict_word};

use crate::schedules::push_way_member;
use crate::texts::{push_between, push_escaped_between};
use pif_explore::{Plan, Situation};
use pif_explore_model::Label;
use pif_explore_told::{Ruling, Verdict, push_all, push_numbers};
use pif_reach::Node;
use pif_search::Stop;
use std::alloc::Global;

/// What was found of a claim, in a word.
fn verdict_word(verdict: Verdict) -> &'static str
    ensures { result.now ≡ verdict_word verdict }
{
    match verdict {
        Verdict::Kept | Verdict::Met(_) => "kept",
        Verdict::Idle => "idle",
        Verdict::Broken(_) | Verdict::Unmet => "broken",
        Verdict::Open => "undecided",
    }
}

/// Ends an object with the schedule of the state that breaks a claim, or meets it, if one does.
fn push_verdict_way(
    alloc: Global,
    plan: &Plan,
    nodes: &[Node<Situation, Label>],
    verdict: Verdict,
    out: &mut Vec<u8>,
) -> Result<(), Stop>
    ensures { OnOk result (out.new.items ≡ out.old.items ++ verdict_way plan.now nodes.now verdict) }
{
    match verdict {
        Verdict::Broken(place) | Verdict::Met(place) => {
            push_way_member(alloc, plan, nodes, place, out)
        }
        _ => push_all(out, b"}\n"),
    }
}

/// Ends an object with what was found of a claim.
fn push_verdict(
    alloc: Global,
    plan: &Plan,
    nodes: &[Node<Situation, Label>],
    verdict: Verdict,
    out: &mut Vec<u8>,
) -> Result<(), Stop>
    ensures { OnOk result (out.new.items ≡ out.old.items ++ verdict_members plan.now nodes.now verdict) }
{
    push_between(
        out,
        ",\"verdict\":\"",
        verdict_word(verdict).as_bytes(),
        "\"",
    )?;
    push_verdict_way(alloc, plan, nodes, verdict, out)
}

/// Appends what was found of a claim.
fn push_ruling_object(
    alloc: Global,
    plan: &Plan,
    nodes: &[Node<Situation, Label>],
    ruling: &Ruling,
    out: &mut Vec<u8>,
) -> Result<(), Stop>
    ensures { OnOk result (out.new.items ≡ out.old.items ++ ruling_object plan.now nodes.now ruling.now) }
{
    let number = u64::from(ruling.number);
    push_numbers(out, &[("{\"claim\":", number)], "")?;
    push_escaped_between(out, ",\"text\":\"", ruling.text.as_slice(), "\"")?;
    push_verdict(alloc, plan, nodes, ruling.verdict, out)
}

/// Appends what was found of claims.
///
/// # Errors
///
/// Out of memory, or a number got too great for a state. A part of it may have been appended.
pub fn push_ruling_objects(
    alloc: Global,
    plan: &Plan,
    nodes: &[Node<Situation, Label>],
    rulings: &[Ruling],
    out: &mut Vec<u8>,
) -> Result<(), Stop>
    ensures { OnOk result (out.new.items ≡ out.old.items ++ flat_map (ruling_object plan.now nodes.now) rulings.now) }
{
    for ruling in rulings {
        push_ruling_object(alloc, plan, nodes, ruling, out)?;
    }
    Ok(())
}
