//! What is in the way of the next line: a fact that is so in all states to which the lines before lead.
ghost use Rattle.std.specs.Prelude.{◌≡◌, List, All, IfOk, IfSome};
ghost use Rattle.pif_types.specs.Bounds.{Bounds};
ghost use Rattle.pif_rules_model.specs.declared.rules.Rules.{Rules};
ghost use Rattle.pif_history_model.specs.declared.lines.Line.{Line};
ghost use Rattle.pif_history_model.specs.declared.facts.Fact.TheVariants.{Priority};
ghost use Rattle.pif_judge_reasons.specs.InTheWay.{IsInTheWay, IsSoBehind, blocker_of};

use crate::terms::Terms;
use pif_history::certain_among;
use pif_history_model::{Fact, Line};
use pif_search::{Stop, WatchLines};
use pif_types::Tid;
use std::alloc::Global;

/// What is in the way of a line.
#[derive(Clone, Copy)]
pub struct Obstacle {
    /// The fact.
    pub fact: Fact,
    /// The priority of the thread that stands in the way, if it is always the same.
    pub priority: Option<u32>,
}

/// The thread that stands in the way by a fact, if the fact says that a thread holds, gets or waits for something.
pub fn blocker_of(fact: &Fact) -> Option<Tid>
    ensures { result ≡ blocker_of fact.now }
{
    match *fact {
        Fact::Held(_, thread) => Some(thread),
        Fact::Next(_, thread) => Some(thread),
        Fact::HeldOrNext(_, thread) => Some(thread),
        Fact::WaitsFor(thread, _) => Some(thread),
        _ => None,
    }
}

/// Whether a fact is told beside another, of a thread that stands in the way.
fn is_beside(fact: &Fact) -> bool {
    match *fact {
        Fact::Priority(_, _) => true,
        _ => false,
    }
}

/// The first of these facts that is told by itself.
fn first_told(found: &[Fact]) -> Option<Fact>
    ensures { (r : Rules) (l : Bounds) (lines : List Line) → All (IsSoBehind r l lines) found.now → IfSome result (IsSoBehind r l lines) }
{
    for fact in found {
        if !is_beside(fact) {
            return Some(*fact);
        }
    }
    None
}

/// The priority that a thread has by a fact, if it tells of that.
fn priority_by(fact: &Fact, thread: Tid) -> Option<u32>
    ensures { IfSome result (λ p. fact.now ≡ Priority thread p) }
{
    match *fact {
        Fact::Priority(other, priority) if other == thread => Some(priority),
        _ => None,
    }
}

/// The priority that a thread has by one of these facts.
fn priority_in(found: &[Fact], thread: Tid) -> Option<u32>
    ensures { (r : Rules) (l : Bounds) (lines : List Line) → All (IsSoBehind r l lines) found.now → IfSome result (λ p. IsSoBehind r l lines (Priority thread p)) }
{
    for fact in found {
        let priority = priority_by(fact, thread);
        if priority.is_some() {
            return priority;
        }
    }
    None
}

/// The priority of the thread that stands in the way by a fact, by one of these facts.
fn blocker_priority(found: &[Fact], fact: &Fact) -> Option<u32>
    ensures { (r : Rules) (l : Bounds) (lines : List Line) → All (IsSoBehind r l lines) found.now → IfSome (blocker_of fact.now) (λ t. IfSome result (λ p. IsSoBehind r l lines (Priority t p))) }
{
    match blocker_of(fact) {
        Some(thread) => priority_in(found, thread),
        None => None,
    }
}

/// What is told of these facts, if all are so behind the same lines.
fn obstacle_in(found: &[Fact]) -> Option<Obstacle>
    ensures { (r : Rules) (l : Bounds) (lines : List Line) → All (IsSoBehind r l lines) found.now → IfSome result (IsInTheWay r l lines) }
{
    match first_told(found) {
        Some(fact) => Some(Obstacle {
            fact,
            priority: blocker_priority(found, &fact),
        }),
        None => None,
    }
}

/// What is in the way of the line after these: the first of these facts that is so in the last state of every run that
/// shows them. None if none is, or if `watch` ended the search. A fact that tells the priority of a thread is told
/// beside another alone.
///
/// # Errors
///
/// That of a search.
pub fn in_the_way_behind<V: WatchLines>(
    alloc: Global,
    terms: &Terms,
    before: &[Line],
    facts: &[Fact],
    watch: &mut V,
) -> Result<Option<Obstacle>, Stop>
    ensures { IfOk result (λ o. IfSome o (IsInTheWay terms.now.rules terms.now.limits before.now)) }
{
    if facts.is_empty() {
        return Ok(None);
    }
    let rules = &terms.rules;
    match certain_among(
        alloc,
        rules,
        terms.limits,
        before,
        facts,
        terms.states,
        watch,
    )? {
        Some(found) => Ok(obstacle_in(found.as_slice())),
        None => Ok(None),
    }
}
