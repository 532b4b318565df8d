/// What is told how far a job has come, whose steps all take about as long.
pub trait WatchSteps {
    /// So many of `count` steps are done.
    fn step(&mut self, done: usize, count: usize);
}

/// Who watches a part of a job: its steps are told as steps of the whole, in proportion and rounded down. A part that
/// has no steps is told as not begun.
#[derive(Drop)]
pub struct Part<'w, V> {
    whole: &'w mut V,
    /// How many steps of the whole are done before the part.
    before: usize,
    /// How many steps of the whole the part is.
    length: usize,
    /// How many steps the whole has.
    count: usize,
}

impl<'w, V> Part<'w, V> {
    /// Who watches a part that is `length` of `count` steps, behind so many of them.
    pub fn new(whole: &'w mut V, before: usize, length: usize, count: usize) -> Part<'w, V> {
        Part {
            whole,
            before,
            length,
            count,
        }
    }
}

impl<V: WatchSteps> WatchSteps for Part<'_, V> {
    fn step(&mut self, done: usize, count: usize) {
        let passed = if count == 0 {
            0
        } else {
            done.saturating_mul(self.length) / count
        };
        self.whole
            .step(self.before.saturating_add(passed), self.count);
    }
}

/// Nobody is told.
#[derive(Drop)]
pub struct Unwatched;

impl WatchSteps for Unwatched {
    fn step(&mut self, _done: usize, _count: usize) {}
}
