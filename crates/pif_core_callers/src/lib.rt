//! Callers of a core, to copy from: an event at a time, and callers that make whole calls and rest on what a core shows
//! after a history.
//!
//! | Module | What it has |
//! |---|---|
//! | `events` | `one_event` and `next_after`: an event at a time, and what its answer means |
//! | `locking` | `lock_and_hold`, `finish_lock`, `add_under`, `lock_and_repair`: who holds a mutex afterwards |
//! | `waiting` | `wait_unless` and `resume_wait`: the loop of who waits on a condition variable |
#![tactic(auto)]

mod events;
mod locking;
mod waiting;

pub use events::{Next, next_after, one_event};
pub use locking::{Held, add_under, finish_lock, lock_and_hold, lock_and_repair};
pub use pif_core::{Core, Entry, Event, Seen};
pub use waiting::{Awaited, resume_wait, wait_unless};
