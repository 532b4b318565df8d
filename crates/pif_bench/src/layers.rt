//! Benchmarks of single layers: lists, and hand-overs, chains, ends and broadcasts through a core.
mod chains;
mod conditions;
mod hand_overs;
mod lists;
mod robust;
mod scenes;

pub use lists::Priorities;
pub use scenes::{Room, Scene};
use std::rt::Clock;

/// What is measured.
#[derive(Clone, Copy)]
pub enum Layer {
    /// A node is inserted into a sorted list, or removed.
    Lists(Priorities),
    /// A core with the default limits is made.
    NewCore,
    /// What threads do on a core with such limits.
    Core(Room, Scene),
}

/// How many threads the chain has along which a benchmark goes; 0 if it goes along none.
pub fn depth_of(layer: Layer) -> u32 {
    match layer {
        Layer::Core(_, Scene::LastLock(depth) | Scene::NewPriority(depth)) => depth,
        _ => 0,
    }
}

/// Runs a benchmark. Answers how many picoseconds what it measures took. `None` if memory is refused or the clock has a
/// fault.
pub fn picoseconds_of(rt: &(impl Clock + AllocGlobal), layer: Layer) -> Option<u64> {
    match layer {
        Layer::Lists(priorities) => lists::measure_lists(rt, priorities),
        Layer::NewCore => scenes::new_core(rt),
        Layer::Core(room, scene) => scenes::picoseconds_on_core(rt, room, scene),
    }
}
