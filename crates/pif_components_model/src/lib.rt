//! The components of a history, as definitions, and lemmas on what the threads of one do to the others.
//!
//! The definitions are in `specs/`: what joins what, and the lines of a component (`Components.antt`); states as one
//! side of the names sees them (`Sides.antt`); and what it is for a history to be judged by its components
//! (`Laws.antt`). `proofs/` has the lemmas.
//!
//! The functions do nothing, and state laws in their contracts.
#![tactic(auto)]

mod laws;

pub use laws::{
    an_illegal_line_is_that_of_a_component, components_judge_a_history,
    components_of_legal_histories_are_legal, components_stay_together,
    entries_depend_on_their_side, entries_stay_on_their_side, lines_join_names_one_by_one,
    lines_of_sides_have_places, moves_depend_on_their_side, moves_of_two_sides_commute,
    moves_stay_on_their_side, the_least_illegal_line_is_that_of_the_whole,
    verdicts_on_sides_tell_of_earlier_lines,
};
