//! `random`: the words that ask for a random script.
ghost use Rattle.std.specs.Prelude.{◌≡◌};
ghost use Rattle.clap.specs.Words.{found_of, rows_of};
ghost use Rattle.pif_cli_words.specs.Random.{recipe_in, shape_in};

use crate::options::{is_given, number_between, small_number_between};
use pif_job_random::Shape;

/// Which random script is asked for.
#[derive(Clone, Copy)]
pub struct Recipe {
    /// What is left to chance: each seed has a script of its own.
    pub seed: u64,
    /// How many lines it has, 1 to 262,144.
    pub lines: u32,
    /// What it is made of.
    pub shape: Shape,
}

/// The highest seed.
pub const MOST_SEED: u64 = 18_446_744_073_709_551_615;

/// What a script is made of, by what was given to `random`.
fn shape_in(given: &clap::ArgMatches) -> Shape
    ensures { result ≡ shape_in (rows_of (found_of given.now)) }
{
    Shape {
        threads: small_number_between(given, "threads", 1, 1_024),
        mutexes: small_number_between(given, "mutexes", 0, 1_024),
        conds: small_number_between(given, "conds", 0, 256),
        robust: is_given(given, "robust"),
        ends: is_given(given, "ends"),
        times: is_given(given, "times"),
    }
}

/// The script that is asked for, by what was given to `random`.
pub fn recipe_in(given: &clap::ArgMatches) -> Recipe
    ensures { result ≡ recipe_in (rows_of (found_of given.now)) }
{
    Recipe {
        seed: number_between(given, "seed", 0, MOST_SEED),
        lines: small_number_between(given, "lines", 1, 262_144),
        shape: shape_in(given),
    }
}
