//! Traces again: compared with the answers of a fresh core, and written in today's version.
#![tactic(auto)]

mod migrating;
mod replaying;

pub use migrating::{migrate, migrate_noting, migrated_trace_has_its_verdict};
pub use replaying::{replay, replay_noting};
