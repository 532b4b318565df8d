//! Scripts and stories that a core answers: what it is asked by a command, and runs of them.
//!
//! | Module | What it has |
//! |---|---|
//! | `running` | what a core answers a command; a core as a listener |
//! | `commands` | a core that does commands one by one, and is made by the first |
//! | `runs` | a script that a core runs |
//! | `stories` | the script of a story, run in memory, and the notes on a story |
#![tactic(auto)]

mod commands;
mod running;
mod runs;
mod stories;

pub use commands::do_command;
pub use running::{Running, first_limits, obey, open_core, tell};
pub use runs::{run, run_noting};
pub use stories::{Ran, run_story, story_notes};
