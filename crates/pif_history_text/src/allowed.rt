ghost use Rattle.std.specs.Prelude.{◌≡◌, ◌<◌, length, option_copied, None, IfSome, IfNone};
ghost use Rattle.pif_text_model.specs.Words.{words, words_behind};
ghost use Rattle.pif_history_text.specs.Allowed.{allowed_in, rules_in, some_rules_in, with_recursion, with_rule};

use pif_rules::{both, bounds_in, have_common, no_rules, set_in};
use pif_rules_model::{HoldLimits, Rules};
use pif_text::{is_word, split_first};

/// These rules, and those that a word names by itself; none if it names none, or one of these.
#[tactic(auto, unfolding(crate::specs::Allowed::with_rule))]
fn with_rule(rules: &Rules, word: &[u8]) -> Option<Rules>
    ensures { result ≡ with_rule rules.now word.now }
{
    let more = set_in(word)?;
    if have_common(rules, &more) {
        return None;
    }
    Some(both(rules, &more))
}

/// These rules, and `recursion` with bounds, unless it is one of these.
fn with_recursion(rules: Rules, bounds: Option<HoldLimits>) -> Option<Rules>
    ensures { result ≡ with_recursion rules bounds }
{
    match bounds {
        None => None,
        Some(_) if rules.recursion.is_some() => None,
        Some(bounds) => Some(Rules {
            recursion: Some(bounds),
            ..rules
        }),
    }
}

/// These rules and the first that a text names, and what stands after that.
#[tactic(auto, unfolding(crate::specs::Allowed::rules_in), using(crate::proofs::AllowedLemmas::rule_first, crate::proofs::AllowedLemmas::recursion_first))]
fn next_rule(rules: Rules, text: &[u8]) -> Option<(Rules, Option<&[u8]>)>
    ensures found { IfSome result (λ x. rules_in rules (words text.now) ≡ rules_in x.0 (words_behind (option_copied x.1))) }
    ensures shorter { IfSome result (λ x. length (words_behind (option_copied x.1)) < length (words text.now)) }
    ensures none { IfNone result (rules_in rules (words text.now) ≡ None) }
{
    let (word, behind) = split_first(text);
    let Some(behind) = behind else {
        return Some((with_rule(&rules, word)?, None));
    };
    if is_word(word, b"recursion") {
        let (bounds, more) = split_first(behind);
        Some((with_recursion(rules, bounds_in(bounds))?, more))
    } else {
        Some((with_rule(&rules, word)?, Some(behind)))
    }
}

/// The rules that a text names.
#[tactic(auto, unfolding(crate::specs::Allowed::rules_in), using(crate::proofs::AllowedLemmas::some_are_named))]
fn rules_of(text: &[u8]) -> Option<Rules>
    ensures { result ≡ some_rules_in (words text.now) }
{
    let mut rules = no_rules();
    let mut rest = Some(text);
    'words: while let Some(left) = rest {
        let (more, behind) = next_rule(rules, left)?;
        rules = more;
        rest = behind;
    }
    Some(rules)
}

/// The rules that a line allows, or `None` if it is no such line.
pub(crate) fn allowed_of(text: &[u8]) -> Option<Rules>
    ensures { result ≡ allowed_in (words text.now) }
{
    let (name, rest) = split_first(text);
    if is_word(name, b"allow") {
        rules_of(rest?)
    } else {
        None
    }
}
