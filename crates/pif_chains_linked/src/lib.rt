//! The chains of the kernel in a core: `LinkedChains`, whose parts stand in one table of nodes. For T threads that table
//! has these lists and nodes:
//!
//! ```text
//! lists              of                                  nodes           of
//! 0 to T - 1         the waiters of the state in a row   0 to T - 1      a thread as a waiter, or parked
//! T to 2T - 1        the top waiters of a thread         T to 2T - 1     a thread as a top waiter
//! 2T to 2T + 98      the levels of the run queue         2T to 3T - 1    a thread as a ready one
//! 2T + 99, 64 of it  the buckets of words                3T to 4T - 1    the row of an owner state
//! 2T + 163, 256      the parked threads of a variable
//! ```
//!
//! A thread is queued on a state or parked on a variable, and never both, so that one node serves. From a mutex to its
//! waiters a call goes through the bucket of its word, which has its number, to the key and the row of its owner state.
//!
//! A parked thread stands in the list of its variable by its effective priority, and then by its ticket. Those tickets
//! have a counter of their own, which begins where that of the waiters does. At its last number the tickets of the
//! parked threads are renumbered, in their order.
//! A walk can give one parked thread another priority, the last thread of its chain: that one is moved in its list.
#![tactic(auto)]

mod chains;

pub use chains::LinkedChains;
