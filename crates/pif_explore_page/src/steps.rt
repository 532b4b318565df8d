ghost use Rattle.std.specs.Prelude.{◌≡◌, ◌++◌, OnOk, codes, decimal, flat_map};
ghost use Rattle.pif_rules.specs.Sets.{names_of};
ghost use Rattle.pif_history_told.specs.Runs.{move_object};
ghost use Rattle.pif_explore_model.specs.Situations.{wide_of};
ghost use Rattle.pif_explore_page.specs.Steps.{cells_told, rule_kind, state_members, step_object, text_object};

use crate::texts::{push_between, trimmed};
use pif_explore::{Plan, Situation};
use pif_explore_model::Label;
use pif_explore_told::{push_all, push_numbers, push_step};
use pif_history_told::{Change, Leap, append_changes, append_move};
use pif_rules::{only, push_names};
use pif_rules_model::{Rule, Rules, no_rules};
use pif_search::Stop;
use pif_types::{Request, Tid};
use std::alloc::Global;

/// Appends the values of cells, each behind a comma.
fn push_more_cells(elements: &mut Vec<u8>, cells: &[u8]) -> Result<(), Stop>
    ensures { OnOk result (elements.new.items ≡ elements.old.items ++ flat_map (λ x. codes "," ++ decimal x) cells.now) }
{
    for cell in cells {
        push_numbers(elements, &[(",", u64::from(*cell))], "")?;
    }
    Ok(())
}

/// Appends the values of cells, as elements.
fn push_cells(elements: &mut Vec<u8>, cells: &[u8]) -> Result<(), Stop>
    ensures { OnOk result (elements.new.items ≡ elements.old.items ++ cells_told cells.now) }
{
    match cells {
        [] => Ok(()),
        [_, cells @ ..] => match cells {
            [] => Ok(()),
            [first, more @ ..] => {
                push_numbers(elements, &[("", u64::from(*first))], "")?;
                push_more_cells(elements, more)
            }
        },
    }
}

/// Appends the cells of a state, and its threads, mutexes and variables: those that are other than in another one, or all.
/// They end an object.
///
/// # Errors
///
/// Out of memory, or a number got too great for a state. A part of them may have been appended.
pub fn push_state(
    alloc: Global,
    whole: bool,
    plan: &Plan,
    from: &Situation,
    to: &Situation,
    out: &mut Vec<u8>,
) -> Result<(), Stop>
    ensures { OnOk result (out.new.items ≡ out.old.items ++ state_members whole plan.now from.now to.now) }
{
    let mut cells = Vec::new(alloc);
    push_cells(&mut cells, to.cells.as_slice())?;
    let before = from.wide(alloc, plan)?;
    let behind = to.wide(alloc, plan)?;
    let change = Change {
        from: &before,
        to: &behind,
        is_whole: whole,
    };
    push_between(out, ",\"cells\":[", cells.as_slice(), "]")?;
    append_changes(alloc, &change, out)?;
    push_all(out, b"}")
}

/// Appends a step that has a line of its own.
fn push_text_step(
    alloc: Global,
    plan: &Plan,
    label: &Label,
    from: &Situation,
    to: &Situation,
    out: &mut Vec<u8>,
) -> Result<(), Stop>
    ensures { OnOk result (out.new.items ≡ out.old.items ++ text_object plan.now label.now from.now to.now) }
{
    let mut line = Vec::new(alloc);
    push_step(&mut line, plan, label, from, to)?;
    push_between(out, "{\"text\":\"", trimmed(line.as_slice()), "\"")?;
    push_state(alloc, false, plan, from, to, out)
}

/// Appends a move of a thread, or its end, by these rules.
fn push_move(
    alloc: Global,
    plan: &Plan,
    kind: &str,
    thread: Tid,
    by: &Rules,
    from: &Situation,
    to: &Situation,
    out: &mut Vec<u8>,
) -> Result<(), Stop>
    ensures { OnOk result (out.new.items ≡ out.old.items ++ move_object kind.now thread (names_of by.now) (wide_of plan.now from.now) (wide_of plan.now to.now)) }
{
    let mut names = Vec::new(alloc);
    push_names(by, &mut names)?;
    let before = from.wide(alloc, plan)?;
    let behind = to.wide(alloc, plan)?;
    let leap = Leap {
        names: names.as_slice(),
        from: &before,
        to: &behind,
    };
    append_move(alloc, kind, thread, &leap, out)
}

/// What a step of a thread by a rule is: a mutex that passes on by `ends_apart` is a step of the end of its thread.
fn rule_kind(rule: Rule) -> &'static str
    ensures { result.now ≡ rule_kind rule }
{
    match rule {
        Rule::EndsApart => "end",
        _ => "move",
    }
}

/// Appends a step from a state to another, as an object.
///
/// # Errors
///
/// Out of memory, or a number got too great for a state. A part of it may have been appended.
#[tactic(auto, unfolding(crate::specs::Steps::step_object))]
pub fn push_step_object(
    alloc: Global,
    plan: &Plan,
    label: &Label,
    from: &Situation,
    to: &Situation,
    out: &mut Vec<u8>,
) -> Result<(), Stop>
    ensures { OnOk result (out.new.items ≡ out.old.items ++ step_object plan.now label.now from.now to.now) }
{
    // The check has to be told of the type of requests, which points hold.
    let _no_request: Option<Request> = None;
    match *label {
        Label::Moves(thread) => {
            push_move(alloc, plan, "move", thread, &no_rules(), from, to, out)
        }
        Label::Ends(thread) => push_move(alloc, plan, "end", thread, &no_rules(), from, to, out),
        Label::ByRule(thread, rule) => {
            let by = only(&plan.rules, rule);
            push_move(alloc, plan, rule_kind(rule), thread, &by, from, to, out)
        }
        Label::EndsByRule(thread, rule) => {
            let by = only(&plan.rules, rule);
            push_move(alloc, plan, "end", thread, &by, from, to, out)
        }
        _ => push_text_step(alloc, plan, label, from, to, out),
    }
}
