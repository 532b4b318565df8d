//! A history in parts, each of which stands alone, so that it is judged by itself.
//!
//! | Module | What it has |
//! |---|---|
//! | `calls` | the calls that are open behind lines |
//! | `holdings` | how often threads hold mutexes by the answers |
//! | `watch` | behind which lines a history is quiet |
//! | `resting` | the state in which it rests there |
//! | `standing` | the lines with which a part begins |
//! | `past` | what is known of lines that were heard, and lines that stand for them |
//! | `parts` | the parts of a history |
//! | `joining` | the verdict on a history by those on its parts |
#![tactic(auto)]

mod calls;
mod holdings;
mod joining;
mod parts;
mod past;
mod resting;
mod standing;
mod watch;

pub use joining::{PartVerdict, WholeVerdict, joined};
pub use parts::{Part, Span, parts_of};
pub use past::Past;
