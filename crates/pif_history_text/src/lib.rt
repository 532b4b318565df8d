//! The texts of histories: bytes are read chunk by chunk and cut into lines, and what each line says is kept; lines and
//! verdicts are written.
//!
//! | Module | What it has |
//! |---|---|
//! | `said` | what a line says |
//! | `allowed` | the rules that a line allows |
//! | `lines` | a line, read |
//! | `heard` | a history, line by line |
//! | `names` | the names that comments give |
//! | `reading` | a history, read whole |
//! | `writing` | lines as text |
//! | `deeds` | what happens to a thread at a move, as words |
//! | `tellings` | one step of a run as lines: a line of a history, or a move, and what it changes |
#![tactic(auto)]

mod allowed;
mod deeds;
mod heard;
mod lines;
mod names;
mod reading;
mod said;
mod tellings;
mod texts;
mod verdicts;
mod writing;

pub use deeds::Deed;
pub use heard::{History, MOST_BYTES};
pub use lines::{answer_of, said_of};
pub use names::Names;
pub use reading::{NamedHistory, read_history};
pub use said::Said;
pub use tellings::push_step;
pub use texts::text_of_line;
pub use verdicts::{
    push_answer, push_began, push_fault, push_found, push_illegal, push_legal, push_possible,
    push_possible_undecided, push_refused, refusal_word,
};
pub use writing::{line_reads_back, line_text, lines_of_texts_are_written};
