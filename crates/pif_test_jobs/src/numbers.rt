//! Threads, mutexes and variables of numbers that are none's at 0 alone.
use pif_types::{CondId, MutexId, Tid};

/// The thread of this number. Nobody has number 0, for which it is thread 1.
pub fn thread(number: u32) -> Tid {
    Tid::new(number.max(1)).unwrap()
}

/// The mutex of this number, as `thread`.
pub fn mutex(number: u32) -> MutexId {
    MutexId::new(number.max(1)).unwrap()
}

/// The variable of this number, as `thread`.
pub fn cond(number: u32) -> CondId {
    CondId::new(number.max(1)).unwrap()
}
