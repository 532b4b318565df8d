//! Owner states of a kernel: which thread owns each, which threads are queued on it, and for each thread its base and
//! effective priority and what it waits for. No thread ever waits for itself through any chain. No call but `new` takes
//! memory.
//!
//! | Owner state | Call | Then it is |
//! |---|---|---|
//! | none | `make` | owned, with nobody queued |
//! | owned, with nobody queued | `enqueue` | owned, with threads queued |
//! | | `end` | none |
//! | owned, with threads queued | `enqueue`, `dequeue` | owned, with one more or one less |
//! | | `hand_over` | owned by its top waiter, which waits no longer; the others wait for that one |
//!
//! | Row of a thread | `base`, `local` | `waits_on`, `ticket` |
//! |---|---|---|
//! | not admitted, or no row | `None` | `None` |
//! | after `admit`, `dequeue`, or `hand_over` to it | `Some`, if it was admitted | `None` |
//! | after `enqueue` | `Some`, if it was admitted | the state on which it is queued, and its ticket there |
//!
//! A waiter stands among the others by the priority that `enqueue` or `rekey` last handed in, and of equals by its
//! ticket. `local` is the effective priority as it was last set; nothing here keeps the two the same (the walks of
//! `pif_plain` do).
#![tactic(auto)]

mod rows;
mod rt_mutexes;
mod standing;

pub use rt_mutexes::RtMutexes;
