//! One list of a node table, kept in the order of its nodes' keys: the higher priority first, and of equal priorities
//! the lower ticket. No call takes memory.
//!
//! ```text
//!  head                                end
//!  b (20, 2) ⇄ c (20, 3) ⇄ a (10, 1)         a came first, with the lowest priority
//!
//!  rekey b to 30, then back to 20:  b (20, 2) ⇄ c (20, 3) ⇄ a (10, 1)   its ticket keeps its place among equals
//!  insert d with (20, 4):           b ⇄ c ⇄ d ⇄ a                       behind its equals
//! ```
//!
//! Putting a node at the head or at the end takes constant time, so a thousand equals queue in linear time; anywhere
//! else the list is walked from its head.
#![tactic(auto)]

mod order;
mod plist;

pub use order::precedes;
pub use plist::PList;
