//! The POSIX machine as a program: its state, and where one move of a thread or one entry of a history leads, also by
//! rules that allow what implementations do otherwise.
#![tactic(auto)]

mod acts;
mod additions;
mod alike;
mod apart;
mod barging;
mod calls;
mod changes;
mod choices;
mod copies;
mod cycles;
mod deeds;
mod ends;
mod entries;
mod errors;
mod given;
mod health;
mod keys;
mod lending;
mod locks;
mod lost;
mod moves;
mod mutexes;
mod next;
mod parts;
mod playing;
mod priorities;
mod progress;
mod readers;
mod refusals;
mod requests;
mod ruled_ends;
mod ruled_entries;
mod ruled_moves;
mod ruled_variables;
mod same;
mod state;
mod undefined;
mod variables;
mod waiting;
mod wakes;
mod wide;
mod wide_lists;

pub use keys::mixed;
pub use mutexes::MOST_HOLDS;
pub use parts::{Lockable, Signalled, Task};
pub use progress::{Call, Progress};
pub use requests::{named_by, reported_result, variable_of};
pub use state::State;
pub use wide::Wide;
