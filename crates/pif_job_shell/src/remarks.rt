use crate::sessions::{NotRedone, NotUndone, Refusal, Unplayed};
use crate::shelves::{LoadFault, SaveFault};
use arrayvec::ArrayVec;
use pif_text::Cause;
use pif_text_errors::{
    SyntaxError, Wrong, cause_words, line_of_command, nearest_name, written_column,
};
use std::fmt;
use std::fmt::Write;

/// The most bytes of a remark.
const REMARK_ROOM: usize = 512;

/// A line that a shell says to a person, while it is made. It stands on the stack; what has no room is left out.
#[derive(Drop)]
pub struct Remark {
    bytes: ArrayVec<u8, REMARK_ROOM>,
}

impl Remark {
    /// An empty remark.
    pub fn new() -> Remark {
        Remark {
            bytes: ArrayVec::new(),
        }
    }

    /// A remark of these texts, one behind the other.
    pub fn of(texts: &[&str]) -> Remark {
        let mut remark = Remark::new();
        for text in texts {
            remark.say(text);
        }
        remark
    }

    /// The text of the remark.
    pub fn as_slice(&self) -> &[u8] {
        self.bytes.as_slice()
    }

    /// Appends a byte.
    fn put(&mut self, byte: u8) {
        let _ = self.bytes.try_push(byte);
    }

    /// Appends a text.
    pub fn say(&mut self, text: &str) {
        for byte in text.as_bytes() {
            self.put(*byte);
        }
    }

    /// Appends bytes that somebody typed; what is no printable ASCII as a question mark.
    pub fn show(&mut self, text: &[u8]) {
        for byte in text {
            match *byte {
                b' '..=b'~' => self.put(*byte),
                _ => self.put(b'?'),
            }
        }
    }
}

impl Write for Remark {
    fn write_str(&mut self, text: &str) -> fmt::Result {
        self.say(text);
        Ok(())
    }
}

/// What a line of the shell begins with that is no command of scripts.
const OWN_WORDS: [&str; 8] = [
    "help", "state", "undo", "redo", "save", "load", "exit", "quit",
];

/// The right word that is nearest to what is wrong, if one is near. A word that no command begins with may be meant as
/// one of the shell's own.
fn near_of(syntax_error: &SyntaxError<'_>) -> Option<&'static str> {
    match syntax_error.near {
        None if matches!(syntax_error.wrong, Wrong::NoCommand) => {
            nearest_name(syntax_error.word, OWN_WORDS.as_slice())
        }
        near => near,
    }
}

/// Says what is wrong with a line, as `run` does, with the nearest word and the form of the command, if there are such,
/// and that `help` names the commands. Here a line may be a comment, as in a history.
fn say_wrong(syntax_error: &SyntaxError<'_>, remark: &mut Remark) {
    let near = near_of(syntax_error);
    let wrong = match syntax_error.wrong {
        Wrong::Comment => Wrong::CommentBehind,
        wrong => wrong,
    };
    let told = SyntaxError {
        wrong,
        near,
        ..*syntax_error
    };
    let _ = write!(remark, "{told}");
    if matches!(syntax_error.wrong, Wrong::NoCommand) && near.is_none() {
        remark.say("; 'help' names them all");
    }
}

/// What is said if memory is refused.
pub const OUT_OF_MEMORY: &str = "out of memory: nothing has changed";

/// Why a command is not accepted, in words.
fn unplayed_words(why: Unplayed) -> &'static str {
    match why {
        Unplayed::Fault(cause) => cause_words(cause),
        Unplayed::Full => "the script has 131072 commands, and takes no more",
        Unplayed::NoMemory => OUT_OF_MEMORY,
    }
}

/// Says why a line is not accepted, of one that is no command with the column.
pub fn say_refusal(refusal: &Refusal<'_>, remark: &mut Remark) {
    match refusal {
        Refusal::SyntaxError(syntax_error) => {
            let _ = write!(remark, "column {}: ", syntax_error.column);
            say_wrong(syntax_error, remark);
        }
        Refusal::Unplayed(why) => remark.say(unplayed_words(*why)),
    }
}

/// What is said of one of the shell's words that has more behind it.
pub fn too_many(word: &'static str) -> Remark {
    Remark::of(&[Wrong::TooMany.words(), ", in '", word, "'"])
}

/// Says why so many commands were not taken back, of those that there are.
pub fn say_not_undone(why: NotUndone, count: usize, remark: &mut Remark) {
    match why {
        NotUndone::NoMemory => remark.say(OUT_OF_MEMORY),
        NotUndone::Fewer => match count {
            0 => remark.say("there is nothing to undo"),
            _ => {
                let _ = write!(remark, "there are no more to undo than {count}");
            }
        },
    }
}

/// Why nothing was given again, in words.
pub fn not_redone_words(why: NotRedone) -> &'static str {
    match why {
        NotRedone::Nothing => "there is nothing to give again",
        NotRedone::NoMemory => OUT_OF_MEMORY,
    }
}

/// Says a file's name, and behind it why something was not done, in the system's words or else in these.
fn say_reason(name: &str, why: Option<&'static str>, else_words: &str, remark: &mut Remark) {
    let (between, words) = match why {
        Some(words) => (": ", words),
        None => (" ", else_words),
    };
    remark.show(name.as_bytes());
    remark.say(between);
    remark.say(words);
}

/// Says why a file of this name was not saved.
pub fn say_unsaved(name: &str, why: SaveFault, remark: &mut Remark) {
    let (why, else_words) = match why {
        SaveFault::Taken => (
            None,
            "is there already, and is left as it is; 'save! FILE' replaces it",
        ),
        SaveFault::TakenBeside => (
            None,
            "stays as it is, since there is a file of its name with '.new' after it",
        ),
        SaveFault::NoPlainFile => (None, "is no plain file, and is left as it is"),
        SaveFault::Refused(why) => (why, "cannot be made"),
        SaveFault::Cut(why) => (why, "cannot be written whole"),
        SaveFault::NoMemory => (Some("out of memory"), ""),
    };
    say_reason(name, why, else_words, remark)
}

/// Says why a file of this name was not read.
pub fn say_unread(name: &str, why: LoadFault, remark: &mut Remark) {
    match why {
        LoadFault::Unread(why) => say_reason(name, why, "cannot be read", remark),
        LoadFault::NoMemory => remark.say(OUT_OF_MEMORY),
    }
}

/// Says a place in a file: its name, line and column, with a colon behind each.
fn say_place(name: &str, line: u64, column: usize, remark: &mut Remark) {
    remark.show(name.as_bytes());
    let _ = write!(remark, ":{line}:{column}: ");
}

/// Says that the file of this name is too large, at a line of this number.
pub fn say_too_large(name: &str, line: u64, remark: &mut Remark) {
    say_place(name, line, 1, remark);
    remark.say(cause_words(Cause::Size));
}

/// Says why the command of this number is not accepted in the story of this name.
pub fn say_not_loaded(
    name: &str,
    story: &[u8],
    number: u64,
    refusal: &Refusal<'_>,
    remark: &mut Remark,
) {
    let (line, written) = line_of_command(story, number).unwrap_or((number, b"".as_slice()));
    match refusal {
        Refusal::SyntaxError(syntax_error) => {
            let column = written_column(written, syntax_error.column);
            say_place(name, line, column, remark);
            say_wrong(syntax_error, remark);
        }
        Refusal::Unplayed(why) => {
            say_place(name, line, 1, remark);
            remark.say(unplayed_words(*why));
        }
    }
}
