//! What tests see, and the threads, mutexes, variables and priorities that they have.
ghost use Rattle.std.specs.Prelude.{◌≡◌, ◌≤◌};

use pif_types::{CondId, MutexId, Prio, Tid};
use std::process::Abort;

/// Stops the test if what was read at this place is not what is wanted.
pub fn see<T: PartialEq + Copy>(rt: &impl Abort, read: T, wanted: T, place: u32) {
    assert!(rt; read == wanted, "at place {place}");
}

/// The thread of this number. Nobody has number 0, for which it is thread 1.
pub fn thread(number: u32) -> Tid
    ensures { 1 ≤ number → result ≡ number }
{
    Tid::new(number.max(1)).unwrap()
}

/// The mutex of this number, as `thread`.
pub fn mutex(number: u32) -> MutexId
    ensures { 1 ≤ number → result ≡ number }
{
    MutexId::new(number.max(1)).unwrap()
}

/// The variable of this number, as `thread`.
pub fn cond(number: u32) -> CondId {
    CondId::new(number.max(1)).unwrap()
}

pub fn priority(level: u32) -> Prio
    requires least { 1 ≤ level }
    requires most { level ≤ 99 }
    ensures { result ≡ level }
{
    Prio::new(level).unwrap()
}
