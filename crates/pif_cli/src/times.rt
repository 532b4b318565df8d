//! The time that a search may take.
use pif_job_explore::WatchStates;
use pif_job_judge::WatchLines;
use std::time::{Clock, Instant};

/// Who watches a search that ends after so many seconds, or whose time isn't counted.
#[derive(Drop)]
pub struct Timed<'c, 'v, C, V> {
    clock: &'c C,
    /// After how many seconds the search ends, if at all.
    seconds: Option<u32>,
    /// When the time began; none if it isn't counted, or the clock couldn't be read.
    begun: Option<Instant>,
    /// Who is told.
    watch: &'v mut V,
}

impl<'c, 'v, C: Clock, V> Timed<'c, 'v, C, V> {
    /// Who watches a search whose time begins now: what it is told, `watch` is told. If the clock can't be read, the
    /// time isn't counted.
    pub fn new(clock: &'c C, seconds: Option<u32>, watch: &'v mut V) -> Timed<'c, 'v, C, V> {
        let begun = match seconds {
            Some(_) => Instant::now(clock).ok(),
            None => None,
        };
        Timed {
            clock,
            seconds,
            begun,
            watch,
        }
    }

    /// Whether the time is over.
    fn is_over(&self) -> bool {
        let (Some(seconds), Some(begun)) = (self.seconds, self.begun) else {
            return false;
        };
        match Instant::now(self.clock) {
            Ok(now) => now.saturating_duration_since(begun).as_secs() >= u64::from(seconds),
            Err(_) => false,
        }
    }
}

impl<C: Clock, V: WatchLines> WatchLines for Timed<'_, '_, C, V> {
    fn line(&mut self, line: usize, states: usize) {
        self.watch.line(line, states);
    }

    fn goes_on(&mut self) -> bool {
        self.watch.goes_on() && !self.is_over()
    }
}

impl<C: Clock, V: WatchStates> WatchStates for Timed<'_, '_, C, V> {
    fn found(&mut self, states: usize, steps: usize) {
        self.watch.found(states, steps);
    }

    fn goes_on(&mut self) -> bool {
        self.watch.goes_on() && !self.is_over()
    }
}
