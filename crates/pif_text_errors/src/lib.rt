//! Why a line of a script is no command, or none of a history or of a program. What is wrong with it, where, with which
//! word, and which word is near. Where it stands in a story, whose lines have comments, and more blanks between their
//! words.
//!
//! | Module | What it has |
//! |---|---|
//! | `forms`, `tables`, `calls` | the forms of all lines, and their tables |
//! | `near`, `parts` | the word that is near to another, and what is wrong with a word |
//! | `wrongs` | what may be wrong, in words |
//! | `syntax_errors` | a syntax error, and its text |
//! | `bytes`, `walk` | why a line of a script is no command |
//! | `marks`, `lines` | a line of a history or a program, word by word |
//! | `histories`, `programs` | why such a line is a fault |
//! | `texts` | of which kind of text a line is |
//! | `places` | where a command of a story is written |
#![tactic(auto)]

mod bytes;
mod calls;
mod forms;
mod given;
mod histories;
mod lines;
mod marks;
mod near;
mod parts;
mod places;
mod programs;
mod syntax_errors;
mod tables;
mod texts;
mod walk;
mod wrongs;

pub use forms::{Part, Shape};
pub use histories::history_error;
pub use near::{Named, nearest_name};
pub use places::{line_of_command, line_of_number, without_mark, written_column};
pub use programs::program_error;
pub use syntax_errors::SyntaxError;
pub use texts::{TextKind, other_kind};
pub use walk::read_command;
pub use wrongs::{Misplaced, Wrong, cause_words};
