ghost use Rattle.std.specs.Prelude.{◌≡◌, ◌||◌, ◌&&◌, ◌++◌, OnOk};
ghost use Rattle.pif_rules_model.specs.Sets.{has, posix_rules};
ghost use Rattle.pif_rules.specs.Sets.{both, first_of, greater, have_common, is_any, lesser, name_in, names_of, only, wider};

use crate::rules::name_of;
use pif_rules_model::{HoldLimits, RULES, Rule, Rules, has, no_rules};
use std::alloc::AllocError;

/// All that POSIX allows. It names no greatest number of holds. Whether there are mutexes of PTHREAD_PRIO_NONE is said
/// beside it.
pub fn posix_rules() -> Rules
    ensures { result ≡ posix_rules }
{
    Rules {
        steal: false,
        any_waiter: true,
        spurious: true,
        recursion: Some(HoldLimits {
            least: 1,
            most: u32::MAX,
        }),
        own_errorcheck: false,
        any_consistent: false,
        held_wait: true,
        lost_signal: false,
        revives: false,
        barge: true,
        cycle_waits: true,
        cycle_refused: true,
        timeout_consumes: true,
        ends_apart: true,
        stays_locked: true,
        rebinds: true,
        more_uses: true,
        refuses_setprio: true,
        consistent_by_any: true,
        cut_unlock: true,
        other_error: true,
        wait_gives_all: true,
        prio_none: false,
        extra_lines: false,
    }
}

/// Of these rules this one alone, if it is one of them.
pub fn only(rules: &Rules, rule: Rule) -> Rules
    ensures is { result ≡ only rules.now rule }
{
    let mut alone = no_rules();
    match rule {
        Rule::Steal => alone.steal = rules.steal,
        Rule::AnyWaiter => alone.any_waiter = rules.any_waiter,
        Rule::Spurious => alone.spurious = rules.spurious,
        Rule::Recursion => alone.recursion = rules.recursion,
        Rule::OwnErrorcheck => alone.own_errorcheck = rules.own_errorcheck,
        Rule::AnyConsistent => alone.any_consistent = rules.any_consistent,
        Rule::HeldWait => alone.held_wait = rules.held_wait,
        Rule::LostSignal => alone.lost_signal = rules.lost_signal,
        Rule::Revives => alone.revives = rules.revives,
        Rule::Barge => alone.barge = rules.barge,
        Rule::CycleWaits => alone.cycle_waits = rules.cycle_waits,
        Rule::CycleRefused => alone.cycle_refused = rules.cycle_refused,
        Rule::TimeoutConsumes => alone.timeout_consumes = rules.timeout_consumes,
        Rule::EndsApart => alone.ends_apart = rules.ends_apart,
        Rule::StaysLocked => alone.stays_locked = rules.stays_locked,
        Rule::Rebinds => alone.rebinds = rules.rebinds,
        Rule::MoreUses => alone.more_uses = rules.more_uses,
        Rule::RefusesSetprio => alone.refuses_setprio = rules.refuses_setprio,
        Rule::ConsistentByAny => alone.consistent_by_any = rules.consistent_by_any,
        Rule::CutUnlock => alone.cut_unlock = rules.cut_unlock,
        Rule::OtherError => alone.other_error = rules.other_error,
        Rule::WaitGivesAll => alone.wait_gives_all = rules.wait_gives_all,
    }
    alone
}

/// The lesser of two numbers.
fn lesser(a: u32, b: u32) -> u32
    ensures { result ≡ lesser a b }
{
    if b < a { b } else { a }
}

/// The greater of two numbers.
fn greater(a: u32, b: u32) -> u32
    ensures { result ≡ greater a b }
{
    if a < b { b } else { a }
}

/// The bounds within which all is allowed that either of two allows.
fn wider(a: Option<HoldLimits>, b: Option<HoldLimits>) -> Option<HoldLimits>
    ensures { result ≡ wider a b }
{
    match (a, b) {
        (None, _) => b,
        (Some(_), None) => a,
        (Some(one), Some(other)) => Some(HoldLimits {
            least: lesser(one.least, other.least),
            most: greater(one.most, other.most),
        }),
    }
}

/// Whether one of two is so.
fn either(a: bool, b: bool) -> bool
    ensures { result ≡ (a || b) }
{
    a || b
}

/// The rules of both. Of two bounds of `recursion` the wider count, on each side. Mutexes of PTHREAD_PRIO_NONE may be added,
/// and lines as `halted` may stand, if either has them.
pub fn both(a: &Rules, b: &Rules) -> Rules
    ensures { result ≡ both a.now b.now }
{
    Rules {
        steal: either(a.steal, b.steal),
        any_waiter: either(a.any_waiter, b.any_waiter),
        spurious: either(a.spurious, b.spurious),
        recursion: wider(a.recursion, b.recursion),
        own_errorcheck: either(a.own_errorcheck, b.own_errorcheck),
        any_consistent: either(a.any_consistent, b.any_consistent),
        held_wait: either(a.held_wait, b.held_wait),
        lost_signal: either(a.lost_signal, b.lost_signal),
        revives: either(a.revives, b.revives),
        barge: either(a.barge, b.barge),
        cycle_waits: either(a.cycle_waits, b.cycle_waits),
        cycle_refused: either(a.cycle_refused, b.cycle_refused),
        timeout_consumes: either(a.timeout_consumes, b.timeout_consumes),
        ends_apart: either(a.ends_apart, b.ends_apart),
        stays_locked: either(a.stays_locked, b.stays_locked),
        rebinds: either(a.rebinds, b.rebinds),
        more_uses: either(a.more_uses, b.more_uses),
        refuses_setprio: either(a.refuses_setprio, b.refuses_setprio),
        consistent_by_any: either(a.consistent_by_any, b.consistent_by_any),
        cut_unlock: either(a.cut_unlock, b.cut_unlock),
        other_error: either(a.other_error, b.other_error),
        wait_gives_all: either(a.wait_gives_all, b.wait_gives_all),
        prio_none: either(a.prio_none, b.prio_none),
        extra_lines: either(a.extra_lines, b.extra_lines),
    }
}

/// Whether a rule is one of both.
fn is_common(a: &Rules, b: &Rules, rule: Rule) -> bool
    ensures { result ≡ (has a.now rule && has b.now rule) }
{
    has(a, rule) && has(b, rule)
}

/// Whether a rule is one of both.
#[tactic(auto, unfolding(crate::specs::Sets::have_common))]
pub fn have_common(a: &Rules, b: &Rules) -> bool
    ensures { result ≡ have_common a.now b.now }
{
    RULES.iter().any(|rule| is_common(a, b, *rule))
}

/// Whether there is a rule.
#[tactic(auto, unfolding(crate::specs::Sets::is_any))]
pub fn is_any(rules: &Rules) -> bool
    ensures { result ≡ is_any rules.now }
{
    RULES.iter().any(|rule| has(rules, *rule))
}

/// The first of these rules, in the order of `RULES`, if there is one.
#[tactic(auto, unfolding(crate::specs::Sets::first_of))]
pub fn first_of(rules: &Rules) -> Option<Rule>
    ensures { result ≡ first_of rules.now }
{
    RULES.iter().copied().find(|rule| has(rules, *rule))
}

/// Appends the name of a rule behind a space, if it is one of these.
fn push_name(rules: &Rules, rule: Rule, out: &mut Vec<u8>) -> Result<(), AllocError>
    ensures { OnOk result (out.new.items ≡ out.old.items ++ name_in rules.now rule) }
{
    if !has(rules, rule) {
        return Ok(());
    }
    out.extend_from_slice(b" ")?;
    out.extend_from_slice(name_of(rule))
}

/// Appends the names of these rules, in the order of `RULES`, each behind a space.
///
/// # Errors
///
/// Out of memory.
#[tactic(auto, unfolding(crate::specs::Sets::names_of))]
pub fn push_names(rules: &Rules, out: &mut Vec<u8>) -> Result<(), AllocError>
    ensures { OnOk result (out.new.items ≡ out.old.items ++ names_of rules.now) }
{
    for rule in RULES.as_slice() {
        push_name(rules, *rule, out)?;
    }
    Ok(())
}
