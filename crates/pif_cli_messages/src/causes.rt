use crate::messages::Message;
use crate::parts::{joined_message, parts_message};
use crate::places::Place;
use crate::statuses::JobFault;
use crate::streams::Kept;
use pif_cli_words::{Job, STANDARD_NAME};
use pif_script::{CliFault, MOST_BYTES, MOST_LINE, Notice};
use pif_story::{Note, append_missing};
use pif_text::{Cause, Command, Text, errno_name, errno_of};
use pif_text_errors::{
    SyntaxError, TextKind, Wrong, cause_words, history_error, other_kind, program_error,
    read_command,
};
use pif_types::Errno;
use std::fmt::Write;
use std::str::from_utf8;

/// What is said of a mistake of the log, if nothing is noted.
pub(crate) const MISTAKE: &str = "a mistake of the log: the lines before this one refuse it";

/// Why the answers of a story are not written into its file.
#[derive(Clone, Copy)]
pub enum Unwritten {
    /// It is no plain file, but a folder, a link or a device.
    NoPlainFile,
    /// It can't be read, for this reason in the system's words, if there are such.
    Unread(Option<&'static str>),
    /// Nobody may write it.
    ReadOnly,
    /// The new file beside it is there already.
    Taken,
    /// The new file can't be made or written, or can't take its place, for this reason likewise.
    Refused(Option<&'static str>),
    /// Out of memory.
    NoMemory,
}

/// What a job was asked for, and what is known of its input.
#[derive(Clone, Copy)]
pub struct Given<'n, 's> {
    /// The job.
    pub job: Job,
    /// The name of the input, `-` for the standard input.
    pub name: &'n str,
    /// What was kept of the text of the input.
    pub kept: Option<Kept<'s>>,
    /// Why a read of the input has failed, in the system's words, if there are such.
    pub why: Option<&'static str>,
}

/// Whether a job reads a story, and tells its faults and differences without showing the line.
fn is_of_story(job: Job) -> bool {
    match job {
        Job::Check | Job::Strict | Job::Fill | Job::FillSeveral => true,
        Job::Picture(_) | Job::Draw(_) => true,
        _ => false,
    }
}

impl<'n, 's> Given<'n, 's> {
    /// What a person is told of a fault of the job. `notice` keeps the line that ended it, if there is one. Of a story
    /// that is shown or traced, the line's number is not told if its text was not kept.
    ///
    /// There is no error, and nothing is written. What has no room in a message is left out.
    pub fn message(&self, fault: JobFault, notice: &Notice) -> Message {
        if let Job::Joined = self.job {
            if let Some(message) = joined_message(fault) {
                return message;
            }
        }
        match fault {
            JobFault::Parts(fault) => parts_message(self.name, fault, notice),
            JobFault::Cli(CliFault::Read) => unread_message(self.name, self.why),
            JobFault::Cli(CliFault::Script(number, cause)) => {
                self.fault_message(number, cause, notice)
            }
            JobFault::Cli(CliFault::Differs(number)) => self.difference_message(number, notice),
            JobFault::Cli(fault) => plain_message(fault),
            JobFault::Threads => words_message("a thread cannot be started"),
            JobFault::Unsettled => words_message("the desk does not settle with its clients"),
            JobFault::Undecided(number) => {
                line_message(&self.place(number), undecided_words(self.job))
            }
            JobFault::PosixAllows(number) => {
                line_message(
                    &self.place(number),
                    "POSIX allows it, and the machine doesn't",
                )
            }
            JobFault::PosixUndefined(number) => {
                line_message(
                    &self.place(number),
                    "POSIX may leave undefined what this call does",
                )
            }
            JobFault::Mistake(number, None) => line_message(&self.place(number), MISTAKE),
            JobFault::Mistake(number, Some(note)) => noted_message(&self.place(number), &note),
            JobFault::NotOnCore(mutex) => off_core_message(self.name, mutex),
            JobFault::Faulty => {
                line_message(
                    &self.place(1),
                    "a fault of the program is reported, and --strict wants none",
                )
            }
            JobFault::NoCall => {
                line_message(&self.place(1), "no call begins, so that nothing was judged")
            }
        }
    }

    /// The text of a story, if it was kept.
    fn story(&self) -> Option<&'s [u8]> {
        match (self.job, self.kept) {
            (Job::Judge(_) | Job::Split(_) | Job::Follow(_) | Job::Explore(_), _) => None,
            (_, Some(kept)) => Some(kept.text),
            (_, None) => None,
        }
    }

    /// The line of this number, from 1, in the text that was given.
    fn place(&self, number: u64) -> Place<'n, 's> {
        Place::of_line(self.name, number, self.story())
    }

    /// Where the fault of this cause stands, at a line of this number. `show` and `trace` count the commands of a
    /// story, unless it is too large.
    fn place_of_fault(&self, number: u64, cause: Cause) -> Place<'n, 's> {
        match (self.job, cause) {
            (_, Cause::Size) => self.place(number),
            (Job::Show(_) | Job::Trace, _) => Place::of_command(self.name, number, self.story()),
            _ => self.place(number),
        }
    }

    /// What is told of the fault of this cause, at a line of this number.
    fn fault_message(&self, number: u64, cause: Cause, notice: &Notice) -> Message {
        let mut message = Message::empty();
        let place = self.place_of_fault(number, cause);
        match (self.job, cause) {
            (Job::Judge(_) | Job::Split(_) | Job::Follow(_) | Job::Explore(_), _) => {
                self.say_text_fault(&place, number, cause, &mut message)
            }
            (Job::Replay | Job::Migrate, Cause::Command) => {
                no_traced(&place, number, notice, &mut message)
            }
            (Job::Run, Cause::Command) => no_script(&place, notice.line(), &mut message),
            (Job::Run, Cause::Cut) => {
                let line = notice.line();
                let column = column_of(MOST_LINE, cause, line);
                say_line_of_story(&place, column, cause_words(cause), line, &mut message)
            }
            (_, Cause::Command) => no_row(&place, notice.line(), &mut message),
            (Job::Draw(_), Cause::Size) => {
                say_line(&place, 1, size_of_drawing(self.story()), b"", &mut message)
            }
            (job, _) => {
                let line = if is_of_story(job) {
                    b"".as_slice()
                } else {
                    notice.line()
                };
                let column = column_of(MOST_LINE, cause, line);
                say_line(&place, column, cause_words(cause), line, &mut message)
            }
        }
        message
    }

    /// Says why the line of this number is a fault of a history, or of a program.
    fn say_text_fault(
        &self,
        place: &Place<'_, '_>,
        number: u64,
        cause: Cause,
        message: &mut Message,
    ) {
        let kind = match self.job {
            Job::Explore(_) => TextKind::Program,
            _ => TextKind::History,
        };
        let line = self.kept.and_then(|kept| kept.line(number));
        match (cause, self.kept, line) {
            (Cause::Command | Cause::Limits, Some(kept), Some(line)) => {
                let syntax_error = match kind {
                    TextKind::Program => program_error(kept.text, number, line, cause),
                    _ => history_error(line),
                };
                say_wrong_line(place, kind, syntax_error, line, message)
            }
            (Cause::Long, _, Some(line)) if is_of_program(line, kind) => {
                say_other_kind(place, TextKind::Program, kind, line, message)
            }
            _ => {
                let column = column_of(most_bytes(kind), cause, b"");
                say_line(place, column, cause_in(kind, cause), b"", message)
            }
        }
    }

    /// What is told of a difference in the line of this number.
    fn difference_message(&self, number: u64, notice: &Notice) -> Message {
        let place = self.place(number);
        let words = match self.job {
            job if is_of_story(job) => story_difference(notice),
            Job::Explore(_) => "the claim is broken",
            Job::Judge(_) | Job::Follow(_) => {
                "no run of the POSIX machine shows the lines up to here"
            }
            _ => {
                let mut message = Message::empty();
                say_difference(&place, notice, &mut message);
                return message;
            }
        };
        line_message(&place, words)
    }
}

/// What a person is told of an input of this name that cannot be read, with the reason in the system's words, if there
/// are such.
pub fn unread_message(name: &str, why: Option<&'static str>) -> Message {
    if name != STANDARD_NAME {
        return file_message(name, why.unwrap_or("cannot be read"));
    }
    let mut message = Message::new();
    message.say("the input cannot be read");
    if let Some(words) = why {
        message.say(": ");
        message.say(words);
    }
    message
}

/// What a person is told of a file of this name into which the answers of its story are not written.
pub fn unwritten_message(name: &str, why: Unwritten) -> Message {
    match why {
        Unwritten::Unread(why) => unread_message(name, why),
        Unwritten::NoMemory => plain_message(CliFault::NoMemory),
        Unwritten::NoPlainFile => file_message(name, "is no plain file"),
        Unwritten::ReadOnly => file_message(name, "is read-only"),
        Unwritten::Taken => {
            let words = "stays as it is, since there is a file of its name with '.new' after it";
            file_message(name, words)
        }
        Unwritten::Refused(why) => file_message(name, why.unwrap_or("cannot be written")),
    }
}

/// What is told of the file of this name by these words. A name without a letter stands in quotes.
pub(crate) fn file_message(name: &str, words: &str) -> Message {
    let mut message = Message::new();
    if name.is_empty() {
        message.say("''");
    } else {
        message.show_name(name);
    }
    message.say(": ");
    message.say(words);
    message
}

/// What a person is told of a fault by its own text alone.
pub fn plain_message(fault: CliFault) -> Message {
    let mut message = Message::new();
    let _ = write!(message, "{fault}");
    message
}

/// How a story differs: `notice` keeps a command that is refused and has no answer.
fn story_difference(notice: &Notice) -> &'static str {
    if notice.line().is_empty() {
        "the core gives another answer"
    } else {
        "a refused command has no answer beside it"
    }
}

/// What is told by these words alone.
pub(crate) fn words_message(words: &str) -> Message {
    let mut message = Message::new();
    message.say(words);
    message
}

/// What is told of a program of this name that has this mutex of PTHREAD_PRIO_NONE, and was to be played on the core.
fn off_core_message(name: &str, mutex: u32) -> Message {
    let words = "the core has no mutex of PTHREAD_PRIO_NONE, as ";
    let mut message = if name == STANDARD_NAME {
        words_message(words)
    } else {
        file_message(name, words)
    };
    let _ = write!(message, "m{mutex} is");
    message
}

/// What is told of a line by its place and these words.
pub(crate) fn line_message(place: &Place<'_, '_>, words: &str) -> Message {
    let mut message = Message::empty();
    say_line(place, 1, words, b"", &mut message);
    message
}

/// What is told of a line by its place and what is noted of it, in the words of the notes on scripts.
fn noted_message(place: &Place<'_, '_>, note: &Note) -> Message {
    let mut text = Text::new();
    append_missing(&mut text, &note.missing);
    let mut message = Message::empty();
    place.say(note.column as usize, &mut message);
    message.show(text.as_slice());
    message
}

/// Says of a column of a line these words, and its text.
fn say_line(place: &Place<'_, '_>, column: usize, words: &str, line: &[u8], message: &mut Message) {
    place.say(column, message);
    message.say(words);
    show_line(line, message);
}

/// Says of a column of a line of a script these words, that a story may have such a line, and its text.
fn say_line_of_story(
    place: &Place<'_, '_>,
    column: usize,
    words: &str,
    line: &[u8],
    message: &mut Message,
) {
    place.say(column, message);
    message.say(words);
    message.say("; 'pif check' takes the file as a story");
    show_line(line, message);
}

/// Whether a line that is too long for a text of this kind is one of a program, whose lines may be longer.
fn is_of_program(line: &[u8], kind: TextKind) -> bool {
    kind != TextKind::Program && other_kind(line, kind) == Some(TextKind::Program)
}

/// How many bytes a line of a text of this kind has at most.
fn most_bytes(kind: TextKind) -> usize {
    match kind {
        TextKind::Program => 500,
        _ => MOST_LINE,
    }
}

/// In which column of a line a fault of this cause stands, which is none of a command. A line has so many bytes at
/// most.
fn column_of(most: usize, cause: Cause, line: &[u8]) -> usize {
    match cause {
        Cause::Long => most.saturating_add(1),
        Cause::Cut => line.len().saturating_add(1),
        _ => 1,
    }
}

/// What is said if not all was decided.
fn undecided_words(job: Job) -> &'static str {
    match job {
        Job::Explore(asked) if asked.seconds.is_some() => {
            "there are more states than may be kept or made at once, or the time was over"
        }
        Job::Explore(_) => "there are more states than may be kept or made at once",
        Job::Judge(asked) if asked.seconds.is_some() => {
            "too many states were made to decide it, or the time was over"
        }
        _ => "too many states were made to decide it",
    }
}

/// The words of a cause, of a text of this kind: of a history, or of a program that is explored.
fn cause_in(kind: TextKind, cause: Cause) -> &'static str {
    match (kind, cause) {
        (TextKind::Program, Cause::Long) => {
            "the line has more than 500 bytes, or the lines of its program more than 4000"
        }
        (TextKind::Program, Cause::Limits) => {
            "there is no room left for it, or a number is out of its range"
        }
        (TextKind::Program, Cause::Command) =>
            "not a line of a program, or one that stands too late or twice, or names what is not there",
        (TextKind::History, Cause::Size) => "the input has more than 268435456 bytes",
        (TextKind::History, Cause::Limits) =>
            "recursion takes 256 to 4294967295, or bounds as 1..300",
        (TextKind::History, Cause::Command) => {
            "not a line of a history, or one that stands too late or twice"
        }
        _ => cause_words(cause),
    }
}

/// Appends the text of a line after what was said of it; nothing if the line is empty.
fn show_line(line: &[u8], message: &mut Message) {
    if !line.is_empty() {
        message.say(": ");
        message.show(line);
    }
}

/// Says how a line differs, at its answer.
fn say_difference(place: &Place<'_, '_>, notice: &Notice, message: &mut Message) {
    let (command, recorded) = notice.parts().unwrap_or((b"".as_slice(), b"".as_slice()));
    place.say(command.len().saturating_add(4), message);
    message.say("recorded '");
    show_answer(recorded, message);
    message.say("', but the core gives '");
    show_answer(notice.given(), message);
    message.say("'");
    show_line(notice.line(), message);
}

/// Appends what a line is answered, with the name of an error after its number.
fn show_answer(answer: &[u8], message: &mut Message) {
    message.show(answer);
    if let Some(error) = error_in(answer) {
        message.say(" ");
        message.say(errno_name(error));
    }
}

/// The error that an answer has, if it is that of a call that failed.
fn error_in(answer: &[u8]) -> Option<Errno> {
    let text = from_utf8(answer).ok()?;
    errno_of(text.strip_prefix("answer ")?.parse::<u32>().ok()?)
}

/// What is said of a story that is too large to be drawn: it has too many bytes, or else too many commands.
fn size_of_drawing(story: Option<&[u8]>) -> &'static str {
    match story {
        Some(text) if text.len() > MOST_BYTES as usize => cause_words(Cause::Size),
        _ =>
            "no browser opens a drawing of more than 5000 commands; choose lines by --from and --to",
    }
}

/// Says what is wrong with a line: the place, the syntax error, and the text of the line.
fn say_syntax_error(
    place: &Place<'_, '_>,
    syntax_error: SyntaxError,
    line: &[u8],
    message: &mut Message,
) {
    place.say(syntax_error.column, message);
    let _ = write!(message, "{syntax_error}");
    show_line(line, message);
}

/// Says that a line is one of another kind of texts than the one that is wanted, and which command takes it.
fn say_other_kind(
    place: &Place<'_, '_>,
    found: TextKind,
    wanted: TextKind,
    line: &[u8],
    message: &mut Message,
) {
    let (name, other, command) = (found.name(), wanted.name(), found.command());
    place.say(1, message);
    let _ = write!(message, "a {name} is no {other}: 'pif {command}' takes it");
    show_line(line, message);
}

/// Says what is wrong with a line of a text of this kind: that it is one of another kind, or else the syntax error.
fn say_wrong_line(
    place: &Place<'_, '_>,
    wanted: TextKind,
    syntax_error: SyntaxError,
    line: &[u8],
    message: &mut Message,
) {
    match other_kind(line, wanted) {
        Some(found) => say_other_kind(place, found, wanted, line, message),
        None => say_syntax_error(place, syntax_error, line, message),
    }
}

/// Says why a line of a story is no command there.
fn no_row(place: &Place<'_, '_>, line: &[u8], message: &mut Message) {
    match wrong_mark(line) {
        Some(words) => {
            let mark = line.iter().position(|byte| *byte == b'=').unwrap_or(0);
            say_line(place, mark.saturating_add(1), words, line, message)
        }
        None => no_command(place, line, message),
    }
}

/// What is wrong with the `=` of a line of a story that is no command and has no ` = `, if there is one.
fn wrong_mark(line: &[u8]) -> Option<&'static str> {
    if line.starts_with(b"= ") || line == b"=".as_slice() {
        Some("no command stands in front of '='")
    } else if line.ends_with(b" =") {
        Some("no answer stands after '='; without '=' none is compared")
    } else if line.contains(&b'=') {
        Some("an answer stands after ' = ', with a blank on both sides of '='")
    } else {
        None
    }
}

/// Whether what is wrong with a line of a script is right in a story.
fn is_right_in_story(wrong: Wrong) -> bool {
    match wrong {
        Wrong::Empty | Wrong::CarriageReturn | Wrong::Comment => true,
        _ => false,
    }
}

/// Says why a line that is run is no command, and of one that a story may have which command takes stories.
fn no_script(place: &Place<'_, '_>, line: &[u8], message: &mut Message) {
    match read_command(line) {
        Err(syntax_error) if is_right_in_story(syntax_error.wrong) => {
            let (column, words) = (syntax_error.column, syntax_error.wrong.words());
            say_line_of_story(place, column, words, line, message)
        }
        _ => no_command(place, line, message),
    }
}

/// Says why a line of a script is no command there.
fn no_command(place: &Place<'_, '_>, line: &[u8], message: &mut Message) {
    if line.starts_with(b"\xef\xbb\xbf") {
        let words = "the line begins with a byte order mark, which a script has not";
        return say_line(place, 1, words, line, message);
    }
    match read_command(line) {
        Ok(_) => say_line(place, 1, cause_words(Cause::Command), line, message),
        Err(syntax_error) => {
            say_wrong_line(place, TextKind::Script, syntax_error, line, message)
        }
    }
}

/// Says why a line of a trace, of this number, is no command there.
fn no_traced(place: &Place<'_, '_>, number: u64, notice: &Notice, message: &mut Message) {
    let line = notice.line();
    if line.ends_with(b"\r") {
        return say_line(
            place,
            line.len(),
            Wrong::CarriageReturn.words(),
            line,
            message,
        );
    }
    if number == 1 {
        return no_header(place, line, message);
    }
    let Some((command, _)) = notice.parts() else {
        let words = "no ' = ' with an answer after it";
        return say_line(place, line.len().saturating_add(1), words, line, message);
    };
    match read_command(command) {
        Ok(command) => say_line(place, 1, not_traced(command), line, message),
        Err(syntax_error) => say_syntax_error(place, syntax_error, line, message),
    }
}

/// Says why a first line is none of a trace.
fn no_header(place: &Place<'_, '_>, line: &[u8], message: &mut Message) {
    if line.starts_with(b"pif-trace ") {
        let words = "there are traces of version 1 and of version 2 only";
        return say_line(place, 1, words, line, message);
    }
    let found = if read_command(line).is_ok() {
        Some(TextKind::Script)
    } else {
        other_kind(line, TextKind::Trace)
    };
    match found {
        Some(found) => say_other_kind(place, found, TextKind::Trace, line, message),
        None => {
            let words = "the first line of a trace is 'pif-trace 1' or 'pif-trace 2'";
            say_line(place, 1, words, line, message)
        }
    }
}

/// Why a command has no place in a trace.
fn not_traced(command: Command) -> &'static str {
    match command {
        Command::Limits(_, _, _, _) => "limits may stand on the second line only",
        Command::Ask(_) => "a question has no place in a trace",
        Command::Run(_, _) => "a trace has 'begin' and 'go' in place of 'call' and 'finish'",
        Command::Add(_) | Command::Event(_) =>
            "a trace of version 1 has no deadlines and no 'tick'",
    }
}
