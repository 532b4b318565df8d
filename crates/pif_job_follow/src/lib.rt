//! `pif judge --follow`: a history that is judged while it is read. What was judged is forgotten.
//!
//! | Module | What it has |
//! |---|---|
//! | `fronts` | one line of a text, heard behind lines that are forgotten |
//! | `followed` | a history that is followed |
//! | `watching` | who is told how far it was judged |
//! | `open_calls` | the calls that are open at its end |
//! | `telling` | what is told of it |
//! | `following` | the job |
#![tactic(auto)]

mod followed;
mod following;
mod fronts;
mod open_calls;
mod telling;
mod watching;

pub use followed::Following;
pub use following::follow;
pub use watching::WatchParts;
