//! A shell for scripts: a person types one command after the other, and each is answered at once. A line that is no
//! command changes nothing, the last command can be taken back, and the script so far is saved as a story.
//!
//! | Module | What it has |
//! |---|---|
//! | `sessions` | a script while it is written, one command after the other, and the core behind it |
//! | `lines` | the lines of an input, one after the other |
//! | `wishes` | what a line asks of a shell |
//! | `remarks` | what a shell says: syntax errors, and why a command is not accepted or not taken back |
//! | `helps` | the help on each word |
//! | `stories`, `shelves` | the session as a story, and where it is saved |
//! | `loads` | a session with the commands of a story |
//! | `notes` | what is said of a command that names what isn't there |
//! | `keeping` | the story in which a session at a terminal is kept as it goes on |
//! | `deeds`, `telling` | what a line asks for, done, and what is said of it |
//! | `shells` | the talk: line by line, to the end of the input |
#![tactic(auto)]

mod deeds;
mod helps;
mod keeping;
mod lines;
mod loads;
mod notes;
mod remarks;
mod sessions;
mod shells;
mod shelves;
mod stories;
mod telling;
mod wishes;

pub use sessions::{
    NotLoaded, NotRedone, NotUndone, Refusal, Session, Unplayed, session_of, sessions_are_runs,
};
pub use shells::shell;
pub use shelves::{LoadFault, NoShelf, SaveFault, Shelf};
pub use stories::story_of;
