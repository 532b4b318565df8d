//! Stories: scripts for people, with comments and with the answers beside the commands, which check themselves.
//!
//! `pif_story` says what a line of a story is, and which script is left of one. Here that script is run, and the
//! answers are checked, or filled in, or handed on with the commands.
//!
//! | Module | What it has |
//! |---|---|
//! | `checking` | stories checked, and filled in |
//! | `rows` | the commands of a story with their answers, for a caller that does the commands again |
#![tactic(auto)]

mod checking;
mod rows;

pub use checking::{
    check, check_noting, check_strictly, fill, fill_as_one_of_several, fill_noting, ok_is_exact,
    strict_is_exact,
};
pub use rows::fill_rows;
