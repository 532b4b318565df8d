//! Whether the lines of a history are shown by a run of the POSIX machine, or of the machine with the rules that the
//! history allows. A history is what the threads of another implementation began and were answered, with calls that
//! overlap.
//!
//! | Function | What it answers |
//! |---|---|
//! | `judge_lines` | a witness, the first line up to which no run exists, or that the search gave up |
//! | `find_run` | a witness, if a guided search finds one |
//! | `certain_among` | which facts are so in all states to which the lines can lead |
//! | `possible_answers`, `possible_priorities` | with which answers, or priorities, a line would be shown |
//!
//! Without rules a scan for a wait that nothing can have woken comes first: only the lines before it can have a witness.
//! Then comes a player that keeps one state of `pif_posix`. If it gets stuck in both of its ways to wake waits, a scout
//! looks which it has to leave blocked. Then comes `find` of `pif_search`, guided by what later lines say, as the player
//! is, and once more with rules. All of these find witnesses alone. Last comes the exact search, `judge` of `pif_decide`.
//! Without rules it first takes the lines as a whole, with all answers known. Then it goes line by line. What is legal
//! without rules is legal with them. A verdict is a theorem: `IsVerdictOf`.
#![tactic(auto)]

mod certain;
mod extras;
mod failing;
mod guide;
mod judge;
mod known;
mod lazy;
mod line_by_line;
mod needed;
mod needs;
mod plans;
mod player;
mod refuting;
mod scene;
mod scout;
mod stepping;
mod tries;
mod uses;

pub use certain::certain_among;
pub use judge::{find_run, judge_lines, possible_answers, possible_priorities};
pub use pif_search::{Stop, Unwatched, WatchLines};
