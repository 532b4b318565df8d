//! `pif judge --split` and `pif judge --joined`: a history in parts, each of which stands alone, with an index; and the
//! verdict on the history, by the index and the verdicts on its parts.
//!
//! | Module | What it has |
//! |---|---|
//! | `faults` | why a history was not split, or found to be legal by its parts |
//! | `indexes` | the index of the parts: what it says, as a text |
//! | `numbers` | the numbers of lines in the text of the history |
//! | `reading` | an index, read |
//! | `splitting` | the parts of a history as texts |
//! | `told` | what is told of a part |
//! | `finding` | the verdicts on the parts, found in a text |
//! | `joining` | the verdict on the history |
#![tactic(auto)]

mod faults;
mod finding;
mod indexes;
mod joining;
mod numbers;
mod reading;
mod splitting;
mod told;

pub use faults::PartsFault;
pub use joining::join;
pub use splitting::{Parts, split};
