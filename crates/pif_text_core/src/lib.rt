//! What a core does, as text that a person reads at a glance: the time, each thread, mutex and condition variable, the
//! run queue, and who waits for whom; or only what of it has changed.
//!
//! ```text
//!   t1: priority 50 (base 10); ready; holds m1
//!   t2: priority 50 (base 20); waits for m1, held by t1; in lock m1; holds m2
//!   t3: priority 50; waits for m2, held by t2; in lock m2
//!   m1: normal; word t1 + WAITERS; owner t1; waiters t2
//!   m2: normal; word t2 + WAITERS; owner t2; waiters t3
//!   run queue: t1
//!   chain: t3 -> m2 -> t2 -> m1 -> t1
//! ```
//!
//! What is empty is left out, and a time of 0. Of changes the lines are written that weren't there before, and `none`
//! for a run queue, or for chains, of which nothing is left. A thread that has a name for a person stands there as
//! `t1 low`, but not in a call or a word. The text is written in parts, and takes no memory.
//!
//! Other texts and drawings of a core go by these too, which are what its readers answer:
//!
//! | Module | What it has |
//! |---|---|
//! | `counts` | how many mutexes and condition variables were added |
//! | `holds` | who holds a mutex |
//! | `orders` | which thread stands at a place of an order |
//! | `waits` | for which mutex a thread waits, who holds it, and where a chain of waiting begins |
#![tactic(auto)]

mod calls;
mod chains;
mod changes;
mod conds;
mod counts;
mod holders;
mod holds;
mod mutexes;
mod names;
mod orders;
mod pages;
mod parts;
mod queues;
mod states;
mod threads;
mod waits;

pub use counts::{conds_added, mutexes_added};
pub use holds::{has, owner_of};
pub use orders::nth;
pub use pages::Unwritten;
pub use states::{write_changes, write_state};
pub use waits::{awaited, begins_chain, blocker};
