//! Reasons that searches find beside a verdict on the lines of a history. Each function says what holds of the machine;
//! nothing is told here.
//!
//! | Module | What it has |
//! |---|---|
//! | `terms` | by which rules, within which limits, and how long is searched |
//! | `fronts` | how many first lines are legal for certain |
//! | `found` | with which numbers in the next line a run was found |
//! | `legal_if` | another answer, with which the lines would be legal |
//! | `in_the_way` | what is in the way of the next line |
//! | `stuck` | whether an open call can be answered yet |
#![tactic(auto)]

mod found;
mod fronts;
mod in_the_way;
mod legal_if;
mod stuck;
mod terms;

pub use found::found_next;
pub use fronts::{Front, count_of, greatest_front};
pub use in_the_way::{Obstacle, blocker_of, in_the_way_behind};
pub use legal_if::{OtherAnswer, legal_if_of};
pub use stuck::is_stuck;
pub use terms::Terms;
