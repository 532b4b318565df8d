//! The jobs that run a script or a story: run, trace and show.
//!
//! `pif run` has a core run a script as its lines are read, and tells the notes on it. They are made as the lines are
//! answered, in room that is there before the first.
//!
//! `pif trace` writes what a script or a story asks of its core, and what a core did, as the lines of a trace. A script
//! may have every command. A line of a trace has `limits`, `thread`, `mutex`, `cond`, `begin`, `go` or `end`, and the
//! answer that was recorded. These make and change a core; the others only read it, or go on several steps at once.
//!
//! `pif show` shows scripts and stories to a person: each line with what it is answered, and behind it what has changed
//! in the core, or all of the core.
//!
//! | Module | What it has |
//! |---|---|
//! | `noting` | a core as a listener that keeps the notes on its lines |
//! | `runs` | a script run as its lines are read, and the notes on it |
//! | `tracing` | entries as lines; the trace of a history |
//! | `transcribing` | a core as a listener whose trace is written while it does what a script asks |
//! | `script_traces` | the trace of a script |
//! | `story_traces` | the trace of the script that is left of a story |
//! | `shown` | a core as a listener that is shown, and a second one, which does the same a command later |
//! | `showing` | a script that is in memory, shown |
//! | `story_shows` | the script that is left of a story, shown |
#![tactic(auto)]

mod noting;
mod runs;
mod script_traces;
mod showing;
mod shown;
mod story_shows;
mod story_traces;
mod tracing;
mod transcribing;

pub use runs::run_noted;
pub use script_traces::{script_trace_is_the_same, trace_noting};
pub use story_shows::show_noting;
pub use story_traces::trace_story;
pub use tracing::{write_trace, written_trace_is_the_same};
