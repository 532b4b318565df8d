//! Which thread goes next, and which schedule is visited next, when a scheduler tries the schedules of a program.
#![tactic(auto)]

mod choice;
mod counts;
mod laws;
mod next;
mod points;
mod standing;

pub use choice::{Candidate, Strategy, choose};
pub use counts::Counts;
pub use laws::searches_visit_each_once;
pub use next::next_schedule;
pub use points::{Change, Point};
pub use standing::{Link, Standing, chain, is_deadlock};
