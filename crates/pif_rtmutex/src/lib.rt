//! Owner states of a kernel: which thread owns each, which threads are queued on it, and for each thread its base and
//! effective priority and what it waits for. No thread ever waits for itself through any chain.
//!
//! The waiters of a state stand in a list of a node table, in order, and its top waiter also among the top waiters of
//! its owner. So a value and its table together are the owner states, and each call but `new` takes the table. No call
//! but `new` takes memory or looks at every thread: each takes constant time if its nodes come to stand at the head
//! or the end of a list.
//!
//! ```text
//!  state of t1   waiters      t3 (30, 5) ⇄ t2 (20, 1)      t1 owns two states, so it has two top waiters,
//!  state of t1   waiters      t4 (10, 2)                   and its maximum is 30
//!  t1            top waiters  t3 (30) ⇄ t4 (10)
//! ```
//!
//! | Owner state | Call | Then it is |
//! |---|---|---|
//! | none | `make` | owned, with nobody queued |
//! | owned, with nobody queued | `enqueue` | owned, with threads queued |
//! | | `end` | none |
//! | owned, with threads queued | `enqueue`, `dequeue` | owned, with one more or one less |
//! | | `hand_over` | owned by its top waiter, which waits no longer; the others wait for that one |
//!
//! A waiter stands among the others by the priority that `enqueue` or `rekey` last handed in, and of equals by its
//! ticket. `local` is the effective priority as it was last set; nothing here keeps the two the same (`pif_boost`
//! does).
#![tactic(auto)]

mod priorities;
mod rows;
mod rt_mutexes;

pub use pif_kernel_model::Key;
pub use priorities::ThreadPriorities;
pub use rt_mutexes::RtMutexes;
