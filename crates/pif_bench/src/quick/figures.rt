//! Figures of several rounds, and ratios of two of them.
use std::fmt;

/// How many rounds are measured.
pub const ROUNDS: usize = 15;

/// A figure of each round.
pub type Figures = [u64; ROUNDS];

/// These figures, the least first.
fn sorted(figures: &Figures) -> Figures {
    let mut sorted = *figures;
    sorted.sort_unstable();
    sorted
}

/// The median of these figures.
pub fn median(figures: &Figures) -> u64 {
    sorted(figures)[ROUNDS / 2]
}

/// The medians of what the quick path and another way took, and of the ratios of each round, of which it has the least,
/// too.
#[derive(Clone, Copy)]
pub struct Medians {
    pub quick: u64,
    pub other: u64,
    pub ratio: Hundredths,
    pub least: Hundredths,
}

/// Compares the figures of the quick path with those of another way.
pub fn compare(quick: &Figures, other: &Figures) -> Medians {
    let mut ratios = [0; ROUNDS];
    for round in 0..ROUNDS {
        ratios[round] = ratio(quick[round], other[round]);
    }
    let ratios = sorted(&ratios);
    Medians {
        quick: median(quick),
        other: median(other),
        ratio: Hundredths(ratios[ROUNDS / 2]),
        least: Hundredths(ratios[0]),
    }
}

/// A ratio in hundredths.
#[derive(Clone, Copy)]
pub struct Hundredths(pub u64);

impl fmt::Display for Hundredths {
    fn fmt<W: fmt::Write>(&self, f: &mut fmt::Formatter<W>) -> fmt::Result {
        write!(f, "{}.{:02}", self.0 / 100, self.0 % 100)
    }
}

/// How many hundredths of the second figure the first is; 0 if the second is 0.
pub fn ratio(figure: u64, of: u64) -> u64 {
    if of == 0 {
        return 0;
    }
    figure.saturating_mul(100) / of
}
