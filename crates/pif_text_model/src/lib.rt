//! The grammar that scripts and traces share, as definitions: the command of a line, and the texts of commands, replies
//! and faults. The definitions are in `specs/`; the types here are those that they and the code speak of. `proofs/` has
//! the lemmas on them, which `pif_text` and the crates above cite.
#![tactic(auto)]

mod calls;
mod commands;
mod questions;
mod replies;
mod traces;

pub use calls::{Arguments, CALLS, CallKind, CallRow, Parameter};
pub use commands::{Addition, Command};
pub use questions::Question;
pub use replies::{Added, Cause, Fact, Reply};
pub use traces::Version;
