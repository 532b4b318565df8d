//! Moments, the time since one, and what came in such a time. Each fault of the clock is told here, as `None`.
use std::rt::Clock;
use std::time::{Duration, Instant};

/// The present moment. `None` if the clock has a fault.
pub fn now(rt: &impl Clock) -> Option<Instant> {
    Instant::now(rt).ok()
}

/// The time since a moment. `None` if the clock has a fault, or had one at that moment.
pub fn time_since(rt: &impl Clock, start: Option<Instant>) -> Option<Duration> {
    start?.elapsed(rt).ok()
}

/// How many picoseconds each of so many rounds took since a moment. `None` if the clock has a fault, or had one at that
/// moment.
pub fn picoseconds_each(rt: &impl Clock, start: Option<Instant>, rounds: u32) -> Option<u64> {
    let picoseconds = time_since(rt, start)?.as_nanos() * 1000 / u128::from(rounds.max(1));
    Some(u64::try_from(picoseconds).unwrap_or(u64::MAX))
}

/// How many thousand events a second there were, if so many came in this time. `None` if the time isn't known.
pub fn thousands(events: u64, time: Option<Duration>) -> Option<u64> {
    let microseconds = time?.as_micros();
    if microseconds == 0 {
        return Some(0);
    }
    let thousands = u128::from(events) * 1000 / microseconds;
    Some(u64::try_from(thousands).unwrap_or(u64::MAX))
}
