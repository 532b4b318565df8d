//! Threads that are alike up to their names: states of the POSIX machine in which threads have exchanged their names, and
//! lemmas that they have the same steps.
//!
//! The definitions are in `specs/`, the lemmas in `proofs/`.
//!
//! The functions here do nothing, and state laws in their contracts.
#![tactic(auto)]

mod laws;

pub use laws::{
    conditions_are_met_by_other_names, exchanged_names_are_a_renaming,
    one_state_of_each_class_is_enough, outcomes_come_with_their_renamings,
    renamed_states_have_the_same_steps, renamed_states_reach_the_same,
    renamed_threads_have_the_same_entries, renamed_threads_have_the_same_moves,
    renamed_threads_have_the_same_moves_as_lending_sees_them,
    sameness_but_for_names_is_an_equivalence,
};
