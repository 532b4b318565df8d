//! Benchmarks of a desk, and of the same calls on a core without one.
mod cores;
mod desks;

pub use cores::measure_core;
pub use desks::{Mutexes, measure_desk};
