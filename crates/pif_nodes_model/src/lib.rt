//! Node tables, sorted lists and the levels of a run queue, as contracts see them: the definitions are in `specs/`, and
//! what follows from them in `proofs/`, for each crate that has such lists. The one type is the key of a node.
//!
//! ```text
//!  list 0   4, 6, 2      sorted: the higher priority first, and of equal priorities the lower ticket
//!  keys     4 (30, 1)   6 (20, 2)   2 (20, 3)
//!  list 1   5, 1         a level of a run queue: in the order in which its threads joined it
//! ```
#![tactic(auto)]

mod keys;

pub use keys::Key;
