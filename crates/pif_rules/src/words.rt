ghost use Rattle.std.specs.Prelude.{◌≡◌, ◌≤◌, length, IfSome};
ghost use Rattle.pif_rules.specs.Words.{all_rules, are_beyond, are_bounds, bounds_before, bounds_between, bounds_in, bounds_of, first_dot, in_range, is_named, just, recursion_in, rule_in, rules_named, set_in};

use crate::rules::name_of;
use crate::sets::{only, posix_rules};
use pif_rules_model::{HoldLimits, RULES, Rule, Rules, no_rules};
use pif_text::{is_word, number_of};

/// The least number that may stand behind `recursion` alone.
pub const LEAST_RECURSION: u32 = 256;

/// From so many holds on the machine itself refuses a lock.
const MOST_HOLDS: u32 = 255;

/// What stands in front of the bounds of `recursion`, and how long it is.
const RECURSION: &[u8; 10] = b"recursion=";

/// What stands between two bounds, and how long it is.
const DOTS: &[u8; 2] = b"..";

/// All rules. A recursive mutex may be held as often as a number can say, and refused from one hold on.
pub fn all_rules() -> Rules
    ensures { result ≡ all_rules }
{
    Rules {
        steal: true,
        any_waiter: true,
        spurious: true,
        recursion: Some(HoldLimits {
            least: 1,
            most: u32::MAX,
        }),
        own_errorcheck: true,
        any_consistent: true,
        held_wait: true,
        lost_signal: true,
        revives: true,
        barge: true,
        cycle_waits: true,
        cycle_refused: true,
        timeout_consumes: true,
        ends_apart: true,
        stays_locked: true,
        rebinds: true,
        more_uses: true,
        refuses_setprio: true,
        consistent_by_any: true,
        cut_unlock: true,
        other_error: true,
        wait_gives_all: true,
        prio_none: false,
        extra_lines: false,
    }
}

/// Whether a word names a rule that has no bounds.
fn is_named(word: &[u8], rule: Rule) -> bool
    ensures { result ≡ is_named word.now rule }
{
    match rule {
        Rule::Recursion => false,
        _ => word == name_of(rule),
    }
}

/// The rule that a word names, if it is one without bounds: each but `recursion`.
#[tactic(auto, unfolding(crate::specs::Words::rule_in))]
pub fn rule_in(word: &[u8]) -> Option<Rule>
    ensures { result ≡ rule_in word.now }
{
    RULES.iter().copied().find(|rule| is_named(word, *rule))
}

/// This rule alone, or no rule.
pub fn just(rule: Option<Rule>) -> Rules
    ensures { result ≡ just rule }
{
    match rule {
        Some(rule) => only(&all_rules(), rule),
        None => no_rules(),
    }
}

/// The rules that a word names by itself: one without bounds, or by `posix` all those of POSIX. None if it names none.
pub fn set_in(word: &[u8]) -> Option<Rules>
    ensures { result ≡ set_in word.now }
{
    if is_word(word, b"posix") {
        return Some(posix_rules());
    }
    match rule_in(word) {
        Some(rule) => Some(only(&all_rules(), rule)),
        None => None,
    }
}

/// The bounds of two numbers.
fn bounds_of(least: Option<u32>, most: Option<u32>) -> Option<HoldLimits>
    ensures { result ≡ bounds_of least most }
{
    match (least, most) {
        (Some(least), Some(most)) => Some(HoldLimits { least, most }),
        _ => None,
    }
}

/// The bounds of a number, and of what follows it: two dots, and another number.
fn bounds_before(least: &[u8], behind: &[u8]) -> Option<HoldLimits>
    ensures { result ≡ bounds_before least.now behind.now }
{
    if behind.len() < DOTS.len() {
        return None;
    }
    let (dots, most) = behind.split_at(DOTS.len());
    if is_word(dots, DOTS) {
        bounds_of(number_of(least), number_of(most))
    } else {
        None
    }
}

/// Where the first dot of a word stands.
#[tactic(auto, unfolding(crate::specs::Words::first_dot))]
fn first_dot(word: &[u8]) -> Option<usize>
    ensures is { result ≡ first_dot word.now }
    ensures within { IfSome result (λ place. place ≤ length word.now) }
{
    word.iter().position(|byte| *byte == b'.')
}

/// The bounds that a word writes by two numbers, of which the first ends at its first dot.
fn bounds_between(word: &[u8]) -> Option<HoldLimits>
    ensures { result ≡ bounds_between word.now }
{
    match first_dot(word) {
        Some(place) => {
            let (least, behind) = word.split_at(place);
            bounds_before(least, behind)
        }
        None => None,
    }
}

/// The bounds of `recursion` that a word writes: two numbers as `1..300`, or one as `300`, which is `255..300`. None if it
/// writes none. They may be out of their range.
pub fn bounds_in(word: &[u8]) -> Option<HoldLimits>
    ensures { result ≡ bounds_in word.now }
{
    match number_of(word) {
        Some(most) => Some(HoldLimits {
            least: MOST_HOLDS,
            most,
        }),
        None => bounds_between(word),
    }
}

/// Whether bounds are in their range, which is from 1 on, rising. Those of the machine itself, 255 for both, aren't.
fn are_bounds(limits: &HoldLimits) -> bool
    ensures { result ≡ are_bounds limits.now }
{
    limits.least > 0
        && limits.least <= limits.most
        && !(limits.least == MOST_HOLDS && limits.most == MOST_HOLDS)
}

/// Whether these are bounds that are out of their range: from 1 on, rising, and not those of the machine itself, 255 for
/// both.
pub fn are_beyond(limits: Option<HoldLimits>) -> bool
    ensures { result ≡ are_beyond limits }
{
    match limits {
        None => false,
        Some(bounds) => !are_bounds(&bounds),
    }
}

/// The bounds, if they are in their range.
fn in_range(limits: Option<HoldLimits>) -> Option<HoldLimits>
    ensures { result ≡ in_range limits }
{
    match limits {
        Some(bounds) if are_bounds(&bounds) => Some(bounds),
        _ => None,
    }
}

/// The bounds of `recursion` that a word names, if it does.
fn recursion_in(word: &[u8]) -> Option<HoldLimits>
    ensures { result ≡ recursion_in word.now }
{
    if word.len() < RECURSION.len() {
        return None;
    }
    let (name, bounds) = word.split_at(RECURSION.len());
    if is_word(name, RECURSION) {
        in_range(bounds_in(bounds))
    } else {
        None
    }
}

/// The rules that a word of the command line names: a rule by its name, `recursion` as `recursion=300` or
/// `recursion=1..300`, those of POSIX by `posix`, or all by `all`. None if it names none, or bounds out of their range.
pub fn rules_named(word: &[u8]) -> Option<Rules>
    ensures { result ≡ rules_named word.now }
{
    if is_word(word, b"all") {
        return Some(all_rules());
    }
    match (set_in(word), recursion_in(word)) {
        (Some(rules), _) => Some(rules),
        (None, Some(limits)) => Some(Rules {
            recursion: Some(limits),
            ..no_rules()
        }),
        (None, None) => None,
    }
}
