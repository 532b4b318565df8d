//! The arguments of the program `pif`: which job its words ask for, over which files, and why they are refused if they
//! ask for none. What the program does then, and what it writes, is `pif_cli`'s.
//!
//! | Module | What it has |
//! |---|---|
//! | `jobs` | words as a job and its files |
//! | `tables` | the commands as tables: what help shows of each, and its arguments |
//! | `commands` | the commands, as `clap` takes them |
//! | `random` | the script that `random` asks for |
//! | `defaults` | numbers that may be left out of the words |
//! | `options` | flags, numbers and files |
//! | `rules` | the rules that `judge` is told to allow |
//! | `clashes` | words that ask for what cannot be had together |
//! | `helps` | the texts of help |
//! | `near` | the command that is meant if there is none of its name |
//! | `laws` | which words ask for which job |
#![tactic(auto)]

mod clashes;
mod commands;
mod defaults;
mod helps;
mod jobs;
mod laws;
mod near;
mod options;
mod random;
mod rules;
mod tables;

pub use jobs::{
    Asked, Drawn, Exploring, Followed, Job, Judging, STANDARD_NAME, first_name, read_words,
};
pub use laws::{random_lines_have_a_bound, words_of_the_program};
pub use near::near_command;
pub use random::Recipe;
