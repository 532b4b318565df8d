ghost use Rattle.std.specs.Prelude.{◌≡◌, ◌<◌, true};
ghost use Rattle.arrayvec.specs.ArrayString.{array_string_len};
ghost use Rattle.pif_cli_messages.specs.Messages.{are_printable, is_printable, is_shown};

use arrayvec::ArrayString;
use pif_script::{MOST_LINE, write_whole};
use std::fmt::Write;
use std::{fmt, io};

/// The most bytes of a message, its LF included.
const MESSAGE_ROOM: usize = 512;

/// A line for the standard error while it is made, of printable characters. It stands on the stack; what has no room is
/// left out.
#[derive(Drop)]
pub struct Message {
    text: ArrayString<MESSAGE_ROOM>,
    ghost shown: { is_shown text.bytes ≡ true },
    ghost room: { array_string_len text < 512 },
}

impl Message {
    ghost use Rattle.pif_cli_messages.specs.Messages.{TellsLine};

    /// A message of the program, which begins with its name.
    pub fn new() -> Message {
        let mut message = Message::empty();
        message.say("pif: ");
        message
    }

    /// A message that is to begin with a place.
    #[tactic(auto, using(crate::proofs::ShownLemmas::nothing_shown))]
    pub fn empty() -> Message {
        Message {
            text: ArrayString::new(),
        }
    }

    /// Appends a character if it is printable.
    #[tactic(auto, using(crate::proofs::ShownLemmas::shown_behind))]
    fn put(&mut self, character: char) {
        if is_printable(character) && self.text.len() + character.len_utf8() < MESSAGE_ROOM {
            self.text.push(character);
        }
    }

    /// Appends a text.
    pub fn say(&mut self, text: &str) {
        for character in text.chars() {
            self.put(character);
        }
    }

    /// Appends a byte, or what stands for it if it is no printable ASCII.
    fn show_byte(&mut self, byte: u8) {
        match byte {
            b'\r' => self.say("\\r"),
            b'\t' => self.say("\\t"),
            b' '..=b'~' => self.put(char::from(byte)),
            _ => {
                let _ = write!(self, "\\x{byte:02x}");
            }
        }
    }

    /// Appends the bytes of a line so that each can be seen, cut where what is shown is as long as a line may be.
    pub fn show(&mut self, line: &[u8]) {
        let end = self.text.len() + MOST_LINE;
        for byte in line {
            if self.text.len() + shown_length(*byte) > end {
                return;
            }
            self.show_byte(*byte);
        }
    }

    /// Appends a character, or what stands for its bytes if it is not printable.
    fn show_character(&mut self, character: char) {
        if is_printable(character) {
            self.put(character);
        } else {
            let mut bytes = [0; 4];
            for byte in character.encode_utf8(&mut bytes).as_bytes() {
                self.show_byte(*byte);
            }
        }
    }

    /// Appends the name of a file as it is, but for what is not printable, cut likewise.
    pub fn show_name(&mut self, name: &str) {
        let end = self.text.len() + MOST_LINE;
        for character in name.chars() {
            if self.text.len() + shown_width(character) > end {
                return;
            }
            self.show_character(character);
        }
    }

    /// Writes the message and LF. A failed write is passed over, since there is nobody left to tell.
    pub fn tell<E: io::Write>(self, errors: &mut E)
        ensures { TellsLine (E.contents errors.old) (E.contents errors.new) }
    {
        let Message { mut text } = self;
        text.push_str("\n");
        let _ = write_whole(errors, text.as_str().as_bytes());
    }
}

impl Write for Message {
    fn write_str(&mut self, text: &str) -> fmt::Result {
        self.say(text);
        Ok(())
    }
}

/// Whether a character is printable: in ASCII from a space to a tilde, and beyond it each that is no control.
fn is_printable(character: char) -> bool
    ensures { result ≡ is_printable character }
{
    let code = character as u32;
    (32 <= code && code <= 126) || 160 <= code
}

/// Whether each character of a text is printable, as in a message.
pub fn are_printable(text: &str) -> bool
    ensures { result ≡ are_printable text.now }
{
    for character in text.chars() {
        if !is_printable(character) {
            return false;
        }
    }
    true
}

/// How many bytes show a byte.
fn shown_length(byte: u8) -> usize
    ensures { result < 5 }
{
    match byte {
        b'\r' | b'\t' => 2,
        b' '..=b'~' => 1,
        _ => 4,
    }
}

/// How many bytes show a character.
fn shown_width(character: char) -> usize
    ensures { result < 17 }
{
    match character {
        '\r' | '\t' => 2,
        _ if is_printable(character) => character.len_utf8(),
        _ => 4 * character.len_utf8(),
    }
}
