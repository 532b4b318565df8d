//! Pictures of a story, or of a script, which is a story without answers: its drawing for people, its states after each
//! line and its graph for programs.
//!
//! A story is read to its end, and its script is run, which gives each command with its answer. So a picture is made
//! only of a story without a fault, and a story with one ends as filling it in ends. Then a core plays the commands
//! again, of which none is read again, and what it shows is written down, by `pif_story_drawing` or `pif_story_states`.
//! Each picture is kept in memory, and written whole.
//!
//! - A drawing shows what each thread does, what it holds, and its priority, command by command. A page has it beside
//!   the states.
//! - The states are lines of JSON: of a command, its answer, each thread, mutex and condition variable, the run queue,
//!   and the chains of waiting.
//! - The graph says who waits for whom at the end of a story, in the language of Graphviz (DOT).
//!
//! | Module | What it has |
//! |---|---|
//! | `pictures` | a picture that is read and written |
//! | `drawings` | a drawing or a page of some lines, read and written |
//! | `texts` | the text of a picture |
//! | `pages` | a page with a drawing and the states |
#![tactic(auto)]

mod drawings;
mod pages;
mod pictures;
mod texts;

pub use drawings::{Drawn, write_drawn};
pub use pictures::write_picture;
