ghost use Rattle.std.specs.Prelude.{◌≡◌, ◌<◌, [], ◌∷◌, ◌++◌, Some, filter, length, map, slice_get, IfOk, OnOk};
ghost use Rattle.pif_rules_model.specs.Sets.{has, no_rules, rules_in_order};
ghost use Rattle.pif_rules.specs.Sets.{only as only_of};
ghost use Rattle.pif_history_model.specs.Searched.{Configuration, Advances};
ghost use Rattle.pif_history_model.specs.Listed.{behind};
ghost use Rattle.pif_history_told.specs.Sets.{sets_in_order};
ghost use Rattle.pif_history_told.specs.Steps.{AreSteps, IsLedTo, asked_with, led_by, of_ends, of_lines, sets_for, steps_of};

use crate::sets::sets_but_all;
use pif_history_machine::{HistoryMachine, Position};
use pif_history_model::{HistoryLimits, Label};
use pif_rules::{RULES, Rule, both, has, no_rules, only};
use pif_rules_model::Rules;
use pif_search::{Stop, push};
use std::alloc::Global;

/// A step of a run.
#[derive(Drop)]
pub struct Step {
    /// The rules by which it is.
    pub by: Rules,
    /// The position to which it leads.
    pub position: Position,
}

/// Of these rules those that change what the end of a thread does at one moment.
fn of_lines(rules: &Rules) -> Rules
    ensures { result ≡ of_lines rules.now }
{
    Rules {
        revives: rules.revives,
        barge: rules.barge,
        stays_locked: rules.stays_locked,
        cut_unlock: rules.cut_unlock,
        ..no_rules()
    }
}

/// Of these rules all that change what the end of a thread does.
fn of_ends(rules: &Rules) -> Rules
    ensures { result ≡ of_ends rules.now }
{
    Rules {
        ends_apart: rules.ends_apart,
        ..of_lines(rules)
    }
}

/// All sets of these rules, in the order in which they are tried.
fn all_sets(alloc: Global, rules: &Rules) -> Result<Vec<Rules>, Stop>
    ensures { IfOk result (λ v. v.items ≡ sets_in_order no_rules rules.now) }
{
    let mut sets = sets_but_all(alloc, &no_rules(), rules)?;
    push(&mut sets, both(rules, &no_rules()))?;
    Ok(sets)
}

/// Adds a rule alone to sets, if it is one of these.
fn push_alone(rules: &Rules, rule: Rule, sets: &mut Vec<Rules>) -> Result<(), Stop>
    ensures { OnOk result (sets.new.items ≡ sets.old.items ++ map (only_of rules.now) (filter (has rules.now) (rule ∷ []))) }
{
    if has(rules, rule) {
        push(sets, only(rules, rule))
    } else {
        Ok(())
    }
}

/// No rule, and each of these rules alone.
fn sets_of_moves(alloc: Global, rules: &Rules) -> Result<Vec<Rules>, Stop>
    ensures { IfOk result (λ v. v.items ≡ no_rules ∷ map (only_of rules.now) (filter (has rules.now) rules_in_order)) }
{
    let mut sets = Vec::new(alloc);
    push(&mut sets, no_rules())?;
    for rule in RULES.as_slice() {
        push_alone(rules, *rule, &mut sets)?;
    }
    Ok(sets)
}

/// The sets of these rules by which a step of a label may be, those of fewer rules first.
#[tactic(auto, unfolding(crate::specs::Steps::sets_for))]
fn sets_for(alloc: Global, rules: &Rules, label: &Label) -> Result<Vec<Rules>, Stop>
    ensures { IfOk result (λ v. v.items ≡ sets_for rules.now label.now) }
{
    match *label {
        Label::Shown(_) => all_sets(alloc, &of_lines(rules)),
        Label::Moves(_) => sets_of_moves(alloc, rules),
        Label::Ends(_) => all_sets(alloc, &of_ends(rules)),
    }
}

/// The rules with which a step of a label is one by these alone. If `ends_apart` is allowed, the line of an end asks
/// whether the thread has released its mutexes. A line adds a mutex of PTHREAD_PRIO_NONE if these rules let one be
/// added, and may be `process`, `halted` or `resumed` if they let these stand.
fn asked_with(rules: &Rules, label: &Label, by: &Rules) -> Rules
    ensures { result ≡ asked_with rules.now label.now by.now }
{
    match *label {
        Label::Shown(_) => Rules {
            ends_apart: rules.ends_apart,
            prio_none: rules.prio_none,
            extra_lines: rules.extra_lines,
            ..*by
        },
        Label::Moves(_) | Label::Ends(_) => *by,
    }
}

/// Adds the steps of a label by these rules alone, of those that are allowed.
fn add_by(
    alloc: Global,
    rules: &Rules,
    by: &Rules,
    limits: HistoryLimits,
    from: &Position,
    label: &Label,
    found: &mut Vec<Step>,
) -> Result<(), Stop>
    ensures { OnOk result (found.new.items ≡ found.old.items ++ led_by rules.now limits from.now label.now by.now) }
{
    let machine = HistoryMachine::new(limits, asked_with(rules, label, by));
    for position in machine.behind(alloc, from, label)?.into_iter() {
        push(found, Step { by: *by, position })?;
    }
    Ok(())
}

/// The steps of this label from a position, and no others: first those of the plain machine, and then those that each
/// set of rules allows, in the order of the sets. A step stands there with each set that allows it.
///
/// # Errors
///
/// Out of memory, or a number got too great for a state.
pub fn steps(
    alloc: Global,
    rules: &Rules,
    limits: HistoryLimits,
    from: &Position,
    label: &Label,
) -> Result<Vec<Step>, Stop>
    ensures listed { IfOk result (λ v. v.items ≡ steps_of rules.now limits from.now label.now) }
    ensures sound { IfOk result (λ v. AreSteps rules.now limits from.now label.now v.items) }
    ensures complete { IfOk result (λ v. (n : Configuration) → Advances rules.now limits from.now label.now n → IsLedTo v.items n) }
{
    let found = listed(alloc, rules, limits, from, label)?;
    Ok(found)
}

/// The same steps.
#[tactic(auto, unfolding(crate::specs::Steps::steps_of))]
fn listed(
    alloc: Global,
    rules: &Rules,
    limits: HistoryLimits,
    from: &Position,
    label: &Label,
) -> Result<Vec<Step>, Stop>
    ensures { IfOk result (λ v. v.items ≡ steps_of rules.now limits from.now label.now) }
{
    let sets = sets_for(alloc, rules, label)?;
    let mut found = Vec::new(alloc);
    for by in sets.as_slice() {
        add_by(alloc, rules, by, limits, from, label, &mut found)?;
    }
    Ok(found)
}

/// The step at this place among those of a label from a position.
pub(crate) fn step_at(
    alloc: Global,
    rules: &Rules,
    limits: HistoryLimits,
    from: &Position,
    label: &Label,
    place: usize,
) -> Result<Step, Stop>
    requires { place < length (steps_of rules.now limits from.now label.now) }
    ensures { IfOk result (λ step. slice_get (steps_of rules.now limits from.now label.now) place ≡ Some step) }
{
    let mut found = listed(alloc, rules, limits, from, label)?;
    Ok(found.swap_remove(place))
}
