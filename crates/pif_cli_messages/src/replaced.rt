use crate::causes::file_message;
use crate::messages::Message;
use arrayvec::ArrayVec;
use std::fmt::Write;

/// The most lines of a story that are told by their numbers.
const MOST_TOLD: usize = 20;

/// The lines of a story in which another answer took the place of the one that was written there.
#[derive(Drop)]
pub struct Replaced {
    /// Their numbers, from 1, as far as they are told.
    lines: ArrayVec<u64, MOST_TOLD>,
    /// How many more there are.
    more: u64,
}

impl Replaced {
    /// No line.
    pub fn nothing() -> Replaced {
        Replaced {
            lines: ArrayVec::new(),
            more: 0,
        }
    }

    /// One more line, by its number.
    pub fn add(&mut self, line: u64) {
        if self.lines.len() < MOST_TOLD {
            self.lines.push(line);
        } else {
            self.more = self.more.saturating_add(1);
        }
    }

    /// What a person is told of these lines of the file of this name; `None` if there is none.
    pub fn message(&self, name: &str) -> Option<Message> {
        let words = match self.lines.as_slice() {
            [] => return None,
            [_] => "has another answer now in line",
            _ => "has other answers now in lines",
        };
        let mut message = file_message(name, words);
        let mut before = " ";
        for line in self.lines.as_slice() {
            let _ = write!(message, "{before}{line}");
            before = ", ";
        }
        if self.more > 0 {
            let _ = write!(message, " and in {} more", self.more);
        }
        Some(message)
    }
}
