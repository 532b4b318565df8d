ghost use Rattle.std.specs.Prelude.{◌≡◌, ◌++◌, IfOk, OnOk};
ghost use Rattle.pif_history_told.specs.Sets.{added, adds, are_wider, sets_but_all, sets_of_size};

use pif_rules::{RULES, Rule, both, has, only};
use pif_rules_model::{HoldLimits, Rules};
use pif_search::{Stop, push};
use std::alloc::Global;

/// Whether bounds of `recursion` allow what others don't, or are there alone.
fn are_wider(base: Option<HoldLimits>, asked: Option<HoldLimits>) -> bool
    ensures { result ≡ are_wider base asked }
{
    match (base, asked) {
        (_, None) => false,
        (None, Some(_)) => true,
        (Some(one), Some(other)) => other.least < one.least || one.most < other.most,
    }
}

/// Whether a rule of those that are asked for adds to those that hold in any case.
fn adds(base: &Rules, asked: &Rules, rule: Rule) -> bool
    ensures { result ≡ adds base.now asked.now rule }
{
    match rule {
        Rule::Recursion => are_wider(base.recursion, asked.recursion),
        _ => has(asked, rule) && !has(base, rule),
    }
}

/// The rules of those that are asked for that add to those that hold in any case, in the order of `RULES`.
pub fn added(alloc: Global, base: &Rules, asked: &Rules) -> Result<Vec<Rule>, Stop>
    ensures { IfOk result (λ v. v.items ≡ added base.now asked.now) }
{
    let mut found = Vec::new(alloc);
    for rule in RULES.as_slice() {
        if adds(base, asked, *rule) {
            push(&mut found, *rule)?;
        }
    }
    Ok(found)
}

/// Adds the sets of so many of these rules, each with those that hold, in the order of the rules.
fn push_sets(
    held: Rules,
    asked: &Rules,
    size: usize,
    rules: &[Rule],
    sets: &mut Vec<Rules>,
) -> Result<(), Stop>
    ensures { OnOk result (sets.new.items ≡ sets.old.items ++ sets_of_size asked.now size held rules.now) }
{
    if size == 0 {
        return push(sets, held);
    }
    match rules {
        [] => Ok(()),
        [first, rest @ ..] => {
            let more = both(&only(asked, *first), &held);
            push_sets(more, asked, size - 1, rest, sets)?;
            push_sets(held, asked, size, rest, sets)
        }
    }
}

/// The sets of so many of these rules, in the order in which they are tried. Each has the rules that hold in any case.
///
/// # Errors
///
/// Out of memory.
pub fn sets_of_size(
    alloc: Global,
    base: &Rules,
    asked: &Rules,
    size: usize,
    rules: &[Rule],
) -> Result<Vec<Rules>, Stop>
    ensures { IfOk result (λ v. v.items ≡ sets_of_size asked.now size base.now rules.now) }
{
    let mut sets = Vec::new(alloc);
    push_sets(*base, asked, size, rules, &mut sets)?;
    Ok(sets)
}

/// The sets of rules that are tried, but for that of all, in the order in which they are: those of fewer rules come
/// first. Each has the rules that hold in any case.
///
/// # Errors
///
/// Out of memory.
pub fn sets_but_all(alloc: Global, base: &Rules, asked: &Rules) -> Result<Vec<Rules>, Stop>
    ensures { IfOk result (λ v. v.items ≡ sets_but_all base.now asked.now) }
{
    let rules = added(alloc, base, asked)?;
    let mut sets = Vec::new(alloc);
    for size in 0..rules.len() {
        push_sets(*base, asked, size, rules.as_slice(), &mut sets)?;
    }
    Ok(sets)
}
