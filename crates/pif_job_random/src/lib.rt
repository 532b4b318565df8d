//! Random scripts, by a seed. Each line is a command that any core answers, so that a run of the script has no fault.
//! While a script is made, a core plays it, so that most of its calls are possible: threads lock, unlock, wait and are
//! woken, chains grow and cycles are refused, and if asked for, threads end between two steps of a call.
#![tactic(auto)]

mod laws;
mod marks;
mod player;
mod rings;
mod scripts;
mod shapes;
mod written;

pub use laws::commands_have_no_fault;
pub use scripts::write_random_script;
pub use shapes::Shape;
