//! The rules that a history may allow, one by one: their names, sets of them, and words that name them.
//!
//! | Module | What it has |
//! |---|---|
//! | `rules` | the rules, and their names |
//! | `sets` | one rule of a set, and the rules of two sets |
//! | `words` | the rules that a word names |
#![tactic(auto)]

mod rules;
mod sets;
mod words;

pub use pif_rules_model::{HoldLimits, RULES, Rule, Rules, has, no_rules};
pub use rules::{is_of_posix, name_of};
pub use sets::{both, first_of, have_common, is_any, only, posix_rules, push_names};
pub use words::{
    LEAST_RECURSION, all_rules, are_beyond, bounds_in, just, rule_in, rules_named, set_in,
};
