//! The grammar that scripts and traces share: the command of a line, and the texts of replies and faults. The names of
//! errors stand here too.
//!
//! Pieces of JSON (RFC 8259) are appended to bytes by three modules. What each call appends is a definition
//! (`specs/Json.antt`, `specs/Members.antt`). If memory is refused, a part of it may have been appended.
//!
//! | Module | What it has |
//! |---|---|
//! | `pieces` | strings, names and numbers |
//! | `members` | members of objects, and objects |
//! | `lists` | members that are arrays of what has numbers |
#![tactic(auto)]

mod command_texts;
mod errors;
mod kinds;
mod limits;
mod lines;
mod lists;
mod members;
mod numbers;
mod pieces;
mod questions;
mod reading;
mod text;
mod traces;
mod words;
mod writing;

pub use command_texts::{
    COMMAND_ROOM, REQUEST_ROOM, append_request, command_reads_back, command_text,
    commands_of_lines_are_written, mutex_text,
};
pub use errors::{ERRORS, errno_name, errno_named, errno_of};
pub use kinds::{DEFAULT_WORD, ERROR_CHECK_WORD, NORMAL_WORD, RECURSIVE_WORD, kind_word};
pub use limits::default_limits;
pub use lines::{before_feed, is_mark, without_return};
pub use lists::{Listed, Sequence, append_array, append_names};
pub use members::{Member, append_members, append_object};
pub use numbers::{number_behind, number_of, number_reads_back, thread_of};
pub use pieces::{append_decimal, append_name};
pub use pif_text_model::{
    Added, Addition, Arguments, Cause, Command, Fact, Question, Reply, Version,
};
pub use reading::{command_of, request_of};
pub use text::{TEXT_ROOM, Text};
pub use traces::{
    HEADER_ROOM, RECORDED_ROOM, VERDICT_ROOM, differs_text, header_text, if_traced, recorded_text,
    same_text, split_answer, version_of,
};
pub use words::{is_word, split_first};
pub use writing::{
    NAMED_ROOM, REPLY_ROOM, add_fault_word, append, append_number, append_thread, fault_text,
    health_word, named_reply_text, refusal_word, reply_text,
};
