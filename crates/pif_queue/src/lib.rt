//! The owner states of words, found through 64 buckets, and the threads that are parked on condition variables. Both
//! stand in lists of a node table, and no call but `new` takes memory.
//!
//! ```text
//!  bucket 3     word 3 (key 7, row 0) ⇄ word 67 (key 2, row 5)     67 is 3 modulo 64
//!  variable 1   t4 (40, 2) ⇄ t2 (10, 1) ⇄ t3 (10, 3)               t4 is taken first, for the mutex that it named
//! ```
//!
//! | Call | From the picture |
//! |---|---|
//! | `find` 67 | key 2 |
//! | `forget` 3 | bucket 3 has word 67 alone |
//! | `top_parked` 1 | t4 |
//! | `rekey` t3 to 20 | t4, t3, t2: its ticket stays |
//! | `match_requeue` 1 and a mutex | whether all three are to get it |
//!
//! A parked thread stands among the others by the priority that `park` or `rekey` last handed in, and of equals by its
//! ticket. A thread is parked or queued on an owner state, and never both, so that one node serves for both.
#![tactic(auto)]

mod buckets;
mod entries;
mod parked_lists;

pub use buckets::Buckets;
pub use entries::BUCKETS;
