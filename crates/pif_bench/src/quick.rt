//! Benchmarks of the quick path beside bare compare-exchanges and std's `Mutex`, all of them in turn in each of 15
//! rounds.
mod figures;
mod pairs;
mod turns;

pub use figures::{Hundredths, Medians, ratio};
pub use pairs::{BarePairs, Pairs, measure_bare, measure_pairs};
pub use turns::{Words, measure_turns};
