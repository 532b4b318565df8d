//! Scripts, traces and stories, as definitions. The definitions are in `specs/`; the types here are those that they and
//! the code speak of. `proofs/` has the lemmas on them, which `pif_script`, `pif_story` and the crates above cite.
//!
//! - Scripts and traces: what their bytes come to, line by line, and what a run, a replay, a trace, a migration or a
//!   show of them reads, writes and answers.
//! - Stories: their lines, the script that is left of one, its answers beside the lines that a run prints, filling in,
//!   the line that says what a story comes to, and what checking, filling in, showing or tracing one reads, writes and
//!   answers (`StoryShowing` in place of `Showing`).
//!
//! Who is told how far a long job on them has come is here, too (`WatchSteps`).
#![tactic(auto)]

mod details;
mod ending;
mod faults;
mod flaws;
mod forms;
mod pictures;
mod rows;
mod watching;

pub use details::Detail;
pub use ending::{End, Ending, OpenFault, Stop};
pub use faults::CliFault;
pub use flaws::Flaw;
pub use forms::Form;
pub use pictures::Picture;
pub use rows::AnsweredRow;
pub use watching::{Part, Unwatched, WatchSteps};
