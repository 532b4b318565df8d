use crate::causes::{MISTAKE, file_message, line_message, words_message};
use crate::messages::Message;
use crate::places::Place;
use crate::statuses::JobFault;
use pif_cli_words::STANDARD_NAME;
use pif_script::{CliFault, Notice};
use std::fmt::Write;
use std::str::from_utf8;

/// Why a history is not written in parts, or the verdicts on its parts are not joined.
#[derive(Clone, Copy)]
pub enum InParts {
    /// The history allows rules.
    Rules,
    /// The line of this number, from 1, keeps the history from being cut.
    Uncut(u64),
    /// The line of this number, from 1, of the index can't stand there. The name of the index is kept.
    Index(u64),
    /// The line of this number, from 1, of the verdicts is none on a part of the index, or another than before.
    Foreign(u64),
    /// There is no verdict on the part of this number, from 1.
    Missing(u64),
    /// A file of parts can't be read or written. Its name is kept, with the reason.
    File,
}

/// The name that is kept, or the name and the reason.
fn kept_name(notice: &Notice) -> &str {
    from_utf8(notice.line()).unwrap_or("")
}

/// What is told of an input of this name by these words.
fn input_message(name: &str, words: &str) -> Message {
    if name == STANDARD_NAME {
        words_message(words)
    } else {
        file_message(name, words)
    }
}

/// What is told of verdicts in the input of this name, that lack one on the part of this number.
fn missing_message(name: &str, part: u64) -> Message {
    let mut message = input_message(name, "there is no verdict on ");
    let _ = write!(message, "part-{part}.history");
    message
}

/// What is told of an input of this name. `notice` keeps the name of the file that is meant, if it is another.
pub(crate) fn parts_message(name: &str, fault: InParts, notice: &Notice) -> Message {
    match fault {
        InParts::Rules => input_message(name, "a history that allows rules isn't cut into parts"),
        InParts::Uncut(number) => {
            line_message(
                &Place::of_line(name, number, None),
                "a history with such a line isn't cut into parts",
            )
        }
        InParts::Index(number) => {
            line_message(
                &Place::of_line(kept_name(notice), number, None),
                "this line can't stand here in an index",
            )
        }
        InParts::Foreign(number) => {
            line_message(
                &Place::of_line(name, number, None),
                "a verdict on no part of the index, or one that contradicts an earlier one",
            )
        }
        InParts::Missing(part) => missing_message(name, part),
        InParts::File => words_message(kept_name(notice)),
    }
}

/// What is told of a history whose parts have verdicts that come to this, if they do.
pub(crate) fn joined_message(fault: JobFault) -> Option<Message> {
    let (number, words) = match fault {
        JobFault::Cli(CliFault::Differs(number)) => (
            number,
            "no run of the POSIX machine shows the lines up to here",
        ),
        JobFault::Undecided(number) => (number, "too many states were made to decide it"),
        JobFault::Mistake(number, _) => (number, MISTAKE),
        JobFault::NoCall => {
            return Some(words_message("no call begins, so that nothing was judged"));
        }
        _ => return None,
    };
    let mut message = Message::new();
    let _ = write!(message, "line {number} of the history: {words}");
    Some(message)
}
