//! A history judged component by component: the threads, mutexes and variables that its lines join.
//!
//! | Module | What it has |
//! |---|---|
//! | `groups` | groups of threads, mutexes and variables |
//! | `hearing` | the groups that lines make |
//! | `sides` | the lines of a component |
//! | `judging` | the verdict on a history by those on its components |
#![tactic(auto)]

mod groups;
mod hearing;
mod judging;
mod sides;

pub use judging::judge_components;
