//! The POSIX machine with one effect at a time, as definitions: moves of one thread, and entries beside which nothing
//! moves; and each of them as a function. Beside them it says which states no later step tells apart (`specs/Alike.antt`),
//! and which steps are independent of one another (`specs/Independence.antt`). `proofs/` has lemmas on all of them.
//!
//! The functions here do nothing, and state laws in their contracts: a step of the POSIX machine is made up of moves
//! and entries, each of those is a step, and the end of a thread leads to one state. Moves and entries lead to the
//! states that are listed, and to no others. Alike states have the same steps. Begins and answers are independent of
//! what others do.
#![tactic(auto)]

mod alike_laws;
mod independence_laws;
mod laws;
mod limits;
mod listed;

pub use alike_laws::{
    alike_states_have_the_same_answers, alike_states_have_the_same_begins,
    alike_states_have_the_same_ends, alike_states_have_the_same_moves,
    alike_states_have_the_same_ticks,
};
pub use independence_laws::{answers_are_independent, begins_are_independent};
pub use laws::{
    entries_are_steps, hidden_steps_are_moves, orders_of_passing_on_at_an_end_are_one,
    shown_steps_are_moves_and_an_entry, single_moves_are_steps,
};
pub use limits::HistoryLimits;
pub use listed::{
    ends_of_runs_are_listed_once, entries_lead_to_those_listed, moves_lead_to_those_listed,
};
