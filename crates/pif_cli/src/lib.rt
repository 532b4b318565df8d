//! The command line of the program `pif`: what it does over the words that `pif_cli_words` reads, and the status with
//! which it ends. Each job is done by the crate of its command; `drive` writes what a drive of `pif_job_drive` comes
//! to. The calls that run a script, replay a trace and write one are handed on.
#![tactic(auto)]

mod apart;
mod drive;
mod files;
mod hosts;
mod judging;
mod making;
mod names;
mod parts;
mod process;
mod random;
mod rewriting;
mod shelves;
mod statuses;
mod times;
mod told;
mod words;

pub use hosts::Runtime;
pub use pif_cli_messages::{Input, Output, Progress, WatchFiles, WatchJob};
pub use pif_job_replay::replay;
pub use pif_job_run::write_trace;
pub use pif_script::CliFault;
pub use pif_script_core::run;
pub use pif_text::Cause;
pub use process::command_of_process;
pub use statuses::Status;
pub use words::command;
