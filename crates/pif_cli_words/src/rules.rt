//! The rules that `judge` is told to allow.
ghost use Rattle.std.specs.Prelude.{◌≡◌, map};
ghost use Rattle.clap.specs.Words.{found_of, rows_of};
ghost use Rattle.pif_rules_model.specs.Sets.{no_rules};
ghost use Rattle.pif_cli_words.specs.Rules.{allow_all, allowed_in, are_rules, rules_of};

use pif_rules::{both, no_rules, rules_named};
use pif_rules_model::Rules;

/// The rules that words name; none if one of them names none.
fn allow_all(words: &[&str]) -> Option<Rules>
    ensures { result ≡ allow_all no_rules (map (λ word. word.now) words.now) }
{
    let mut rules = no_rules();
    for word in words {
        match rules_named(word.as_bytes()) {
            Some(more) => rules = both(&rules, &more),
            None => return None,
        }
    }
    Some(rules)
}

/// The rules that are given; none if a word names none.
fn rules_of(given: &clap::ArgMatches) -> Option<Rules>
    ensures { result ≡ rules_of (rows_of (found_of given.now)) }
{
    match given.get_strs("allow") {
        Some(words) => allow_all(words),
        None => Some(no_rules()),
    }
}

/// Whether each word that is given names rules.
pub fn are_rules(given: &clap::ArgMatches) -> bool
    ensures { result ≡ are_rules (rows_of (found_of given.now)) }
{
    rules_of(given).is_some()
}

/// The rules that are given, if each word names rules.
pub fn allowed_in(given: &clap::ArgMatches) -> Rules
    ensures { result ≡ allowed_in (rows_of (found_of given.now)) }
{
    match rules_of(given) {
        Some(rules) => rules,
        None => no_rules(),
    }
}
