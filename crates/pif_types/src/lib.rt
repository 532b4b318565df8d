//! The numbers, kinds, requests, limits and errors that all crates of this workspace share, and lists whose room is
//! taken once.
//!
//! | Type | Its number |
//! |---|---|
//! | `Tid`, `MutexId`, `CondId` | from 1, in the order in which they are added; 0 is nobody and nothing |
//! | `Prio` | 1 to 99, as sched(7) has them for SCHED_FIFO; a larger number is a higher priority |
//! | `Limits` | 1 to 1,024 threads, up to 1,024 mutexes, up to 256 variables, 1 to 4,294,967,295 uses of one variable |
//! | `Answer` | 0, or the number that an `Errno` has in <errno.h> |
#![tactic(auto)]

mod errors;
mod limits;
mod numbers;
mod requests;
mod room;

pub use errors::{AddFault, Answer, Errno, NoMemory, Refusal};
pub use limits::Limits;
pub use numbers::{CondId, MutexId, Prio, Tid};
pub use requests::{Health, Kind, Named, Request};
pub use room::{push_within, with_room};
