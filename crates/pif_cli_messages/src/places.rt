use crate::messages::Message;
use pif_text_errors::{line_of_command, line_of_number, written_column};
use std::fmt::Write;

/// Where a fault stands: in a line of the input of this name, `-` for the standard input.
#[derive(Clone, Copy)]
pub struct Place<'n, 's> {
    name: &'n str,
    /// The number of the line, from 1, if it is known.
    line: Option<u64>,
    /// The line as it is written, if its words may stand there otherwise than with one space between them.
    written: Option<&'s [u8]>,
}

impl<'n, 's> Place<'n, 's> {
    /// The line of this number in an input. If that is a story whose text was kept, it is given.
    pub fn of_line(name: &'n str, number: u64, story: Option<&'s [u8]>) -> Place<'n, 's> {
        Place {
            name,
            line: Some(number),
            written: match story {
                Some(text) => line_of_number(text, number),
                None => None,
            },
        }
    }

    /// The line of the command of this number in a story, both from 1. Without the text that was kept no line is known.
    pub fn of_command(name: &'n str, number: u64, story: Option<&'s [u8]>) -> Place<'n, 's> {
        let found = match story {
            Some(text) => line_of_command(text, number),
            None => None,
        };
        match found {
            Some((line, written)) => Place {
                name,
                line: Some(line),
                written: Some(written),
            },
            None => Place {
                name,
                line: None,
                written: None,
            },
        }
    }

    /// Says the place of a byte, whose column is counted from 1 in the line with one space between its words. That is
    /// name, line and column, with a colon after each, or the name alone if no line is known.
    pub fn say(&self, column: usize, message: &mut Message) {
        message.show_name(self.name);
        if let Some(line) = self.line {
            let column = match self.written {
                Some(written) => written_column(written, column),
                None => column,
            };
            let _ = write!(message, ":{line}:{column}");
        }
        message.say(": ");
    }
}
