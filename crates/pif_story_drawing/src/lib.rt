//! Drawings of stories as texts, for people.
//!
//! The commands of a story come with their answers, and so the story has no fault. A core plays its commands again, one
//! by one, and what it shows after each is written down. A drawing is kept in memory.
//!
//! | Module | What it has |
//! |---|---|
//! | `spans` | which lines are drawn |
//! | `plays`, `rows` | the commands, played by a core, and each with its words |
//! | `plans` | where everything is drawn |
//! | `looks`, `levels` | what a thread does, and its priorities |
//! | `lanes`, `bars`, `arrows` | threads, mutexes that are held, and what threads do to one another |
//! | `growing_text`, `sheets` | a text that is made in memory, and what was drawn, by layers |
//! | `heads`, `styles` | the frame with the names of the lanes, and how it looks |
//! | `story_drawing` | a drawing while it is made |
#![tactic(auto)]

mod arrows;
mod bars;
mod growing_text;
mod heads;
mod lanes;
mod levels;
mod looks;
mod plans;
mod plays;
mod rows;
mod sheets;
mod spans;
mod story_drawing;
mod styles;

pub use spans::Span;
pub use story_drawing::drawing_of;
