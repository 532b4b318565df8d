//! What implementations do otherwise than the POSIX machine, as rules that a history or a program may allow: definitions,
//! with lemmas.
//!
//! The functions of `laws` do nothing, and state laws in their contracts. From each state there are finitely many
//! steps, which are listed. With rules there is each step that there is without them, and with more rules each that
//! there is with fewer.
#![tactic(auto)]

mod laws;
mod rules;

pub use laws::{
    more_rules_allow_more, steps_lead_to_those_listed, without_rules_the_machine_is_plain,
};
pub use rules::{HoldLimits, RULES, Rule, Rules, has, no_rules};
