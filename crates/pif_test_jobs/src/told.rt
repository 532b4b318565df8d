//! What a search tells the tests.
use pif_search::WatchLines;

/// Keeps what it was told, and ends a search behind `most` lines.
#[derive(Drop)]
pub struct Told {
    /// The lines and the states of which it was told last.
    pub lines: usize,
    pub states: usize,
    /// How often a first line came, and the most states behind a line since then.
    pub plays: usize,
    pub greatest: usize,
    pub most: usize,
}

impl Told {
    pub fn new(most: usize) -> Told {
        Told {
            lines: 0,
            states: 0,
            plays: 0,
            greatest: 0,
            most,
        }
    }
}

impl WatchLines for Told {
    fn goes_on(&mut self) -> bool {
        self.lines < self.most
    }

    fn line(&mut self, line: usize, states: usize) {
        if line == 1 {
            self.plays = self.plays.saturating_add(1);
            self.greatest = 0;
        }
        self.lines = line;
        self.states = states;
        self.greatest = usize::max(self.greatest, states);
    }
}
