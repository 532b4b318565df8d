//! A history judged part by part: the verdict is that of the whole.
//!
//! | Module | What it has |
//! |---|---|
//! | `judging` | a history that was read, judged in parts |
//! | `following` | one that is judged while it is read |
#![tactic(auto)]

mod following;
mod judging;

pub use following::{Judged, Step};
pub use judging::judge_parts;
