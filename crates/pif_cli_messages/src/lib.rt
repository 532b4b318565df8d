//! What is told of a job: its faults and where they stand, and how far it has come; and the status with which the
//! program ends then. What a job reads and writes keeps what of that is asked for.
//!
//! | Module | What it has |
//! |---|---|
//! | `messages` | a line for the standard error |
//! | `places` | where in an input a fault stands |
//! | `causes` | what a person is told of a fault |
//! | `parts` | what a person is told of a history in parts |
//! | `replaced` | which answers of a story were replaced |
//! | `statuses` | faults of jobs, and their statuses |
//! | `streams` | what jobs read and write, and why that has failed |
//! | `progress` | how far a job has come |
#![tactic(auto)]

mod causes;
mod messages;
mod parts;
mod places;
mod progress;
mod replaced;
mod statuses;
mod streams;

pub use causes::{Given, Unwritten, plain_message, unread_message, unwritten_message};
pub use messages::{Message, are_printable};
pub use parts::InParts;
pub use progress::{Progress, Unwatched, WatchFiles, WatchJob, WatchParts};
pub use replaced::Replaced;
pub use statuses::{JobFault, fault_status, is_output, job_fault_status};
pub use streams::{Input, Keeps, Kept, Output, words_of};
