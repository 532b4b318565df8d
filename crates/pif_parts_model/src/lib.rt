//! Histories in parts, as definitions: where a history may be cut, so that each part is judged by itself.
//!
//! The definitions are in `specs/`: where a history is quiet by its lines alone (`Quiet.antt`), the state in which it
//! rests there (`Resting.antt`), what it is for the lines behind to be legal from that state on (`Parts.antt`), the same
//! at a later time (`Later.antt`), and lines by which no variable is used too often (`FewUses.antt`). `proofs/` has the
//! lemmas.
//!
//! The functions do nothing, and state laws in their contracts.
#![tactic(auto)]

mod laws;

pub use laws::{
    a_part_may_begin_with_fewer_uses, histories_that_rest_alike_go_on_alike,
    parts_have_the_verdict_of_the_whole, quiet_lines_cut_a_history, quiet_lines_tell_the_state,
    times_count_from_any_moment, uses_below_the_limit_change_nothing,
};
