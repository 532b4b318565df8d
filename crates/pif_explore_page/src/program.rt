ghost use Rattle.std.specs.Prelude.{◌≡◌, ◌++◌, OnOk, slice_get};
ghost use Rattle.pif_explore_page.specs.Objects.{limits_told, program_object, program_told};

use crate::steps::push_state;
use crate::texts::push_escaped_between;
use pif_explore::{Plan, Situation};
use pif_explore_model::Label;
use pif_explore_told::{push_all, push_numbers};
use pif_posix_steps::HistoryLimits;
use pif_reach::Node;
use pif_search::Stop;
use std::alloc::Global;

/// Appends limits.
fn push_limits(out: &mut Vec<u8>, limits: &HistoryLimits) -> Result<(), Stop>
    ensures { OnOk result (out.new.items ≡ out.old.items ++ limits_told limits.now) }
{
    let numbers = [
        ("{\"threads\":", u64::from(limits.threads)),
        (",\"mutexes\":", u64::from(limits.mutexes)),
        (",\"conds\":", u64::from(limits.conds)),
        (",\"signals\":", u64::from(limits.signals)),
    ];
    push_numbers(out, &numbers, "}")
}

/// Appends the text of a program, its limits, and the state in which it starts.
fn push_program_object(
    alloc: Global,
    program: &[u8],
    plan: &Plan,
    start: &Situation,
    out: &mut Vec<u8>,
) -> Result<(), Stop>
    ensures { OnOk result (out.new.items ≡ out.old.items ++ program_object program.now plan.now start.now) }
{
    push_escaped_between(out, "{\"program\":\"", program, "\",\"limits\":")?;
    push_limits(out, &plan.limits)?;
    push_state(alloc, true, plan, start, start, out)?;
    push_all(out, b"\n")
}

/// Appends the text of a program, its limits, and the state that was found first.
///
/// # Errors
///
/// Out of memory, or a number got too great for a state. A part of it may have been appended.
pub fn push_program(
    alloc: Global,
    program: &[u8],
    plan: &Plan,
    nodes: &[Node<Situation, Label>],
    out: &mut Vec<u8>,
) -> Result<(), Stop>
    ensures { OnOk result (out.new.items ≡ out.old.items ++ program_told program.now plan.now (slice_get nodes.now 0)) }
{
    match nodes {
        [] => Ok(()),
        [first, ..] => push_program_object(alloc, program, plan, &first.state, out),
    }
}
