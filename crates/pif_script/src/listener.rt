ghost use Rattle.std.specs.Prelude.{ℕ, ◌≡◌, ◌+◌, ◌≤◌, ◌++◌, List, Option, Some, None, length};
ghost use Rattle.arrayvec.specs.ArrayVec.{array_vec_len};
ghost use Rattle.pif_script_model.specs.Scripts.{Hearing, Opens, Hears, Tells};
ghost use Rattle.pif_script_model.specs.Runs.{end_line};

use arrayvec::ArrayVec;
use pif_script_model::{End, Ending, OpenFault};
use pif_text::{
    COMMAND_ROOM, Cause, HEADER_ROOM, RECORDED_ROOM, Text, VERDICT_ROOM, Version, differs_text,
    fault_text,
};
use std::alloc::Global;

/// Room for a command and the answer to it.
pub const ROW_ROOM: usize = COMMAND_ROOM + RECORDED_ROOM;

/// The most bytes that a line of a trace has, its LF included.
pub const LINE_ROOM: usize = ROW_ROOM + 1;

/// The most bytes of the first two lines of a trace: the header, and the line of the limits.
pub const FRONT_ROOM: usize = HEADER_ROOM + 1 + LINE_ROOM;

/// The most bytes that a reply has, its LF included.
pub const REPLY_ROOM: usize = pif_text::REPLY_ROOM + 1;

/// The most events that one line of a script makes: a `call` begins, and is answered or waits within 24 steps. That
/// there are no more is proved where they are written.
pub const MOST_EVENTS: usize = 25;

/// The most bytes that the answer to a line has. The longest is what the first line of a script makes of a trace: the
/// two lines in front, and those of the events of a `call`.
pub const ANSWER_ROOM: usize = FRONT_ROOM + MOST_EVENTS * LINE_ROOM;

/// The most bytes that are said at an end, its LF included. The longest is the verdict on a trace.
pub const END_ROOM: usize = VERDICT_ROOM + 1;

/// The most bytes that are read at once.
pub const CHUNK: usize = 4096;

/// How many bytes of answers are written before there are more. Replies to the lines of a chunk, of which each byte
/// ends at most one, are no more.
pub const FULL: usize = CHUNK * REPLY_ROOM;

/// Room for answers that are not yet too many, for one more, and for what is said at an end.
pub const OUTPUT_ROOM: usize = FULL + ANSWER_ROOM + END_ROOM;

/// The answers to lines of a chunk that were not written yet.
pub type Output = ArrayVec<u8, OUTPUT_ROOM>;

/// Appends bytes.
pub fn append(output: &mut Output, text: &[u8])
    requires { array_vec_len output.old + length text.now ≤ OUTPUT_ROOM }
    ensures { output.new.items ≡ output.old.items ++ text.now }
{
    let _ = output.try_extend_from_slice(text);
}

/// Appends the line of an end, and LF.
pub fn append_end(end: End, output: &mut Output)
    requires { array_vec_len output.old + END_ROOM ≤ OUTPUT_ROOM }
    ensures { output.new.items ≡ output.old.items ++ end_line end }
{
    let End { line, ending } = end;
    let mut text = Text::new();
    match ending {
        Ending::Fault(cause) => fault_text(line, cause, &mut text),
        Ending::Differs(reply) => differs_text(line, reply, &mut text),
    }
    append(output, text.as_slice());
    output.push(b'\n');
}

/// Who answers the lines of a script or a trace.
pub trait Listener: Sized {
    // How this listener hears a script.
    ghost hearing: { Hearing Self };

    /// The listener that a line makes while there is none, or `None` if the line is passed over. `version` is the one
    /// that the first line named, if that line was passed over. The answer to the line is appended to `output`.
    ///
    /// # Errors
    ///
    /// `Ended` if the line ends the script, and `NoMemory`; `output` is then unchanged.
    fn open(
        alloc: Global,
        version: Option<Version>,
        line: &[u8],
        output: &mut Output,
    ) -> Result<Option<Self>, OpenFault>
        requires { array_vec_len output.old + ANSWER_ROOM ≤ OUTPUT_ROOM }
        ensures answer { Opens (hearing.first_meaning version line.now) output.old.items output.new.items result }
        ensures room { array_vec_len output.new ≤ array_vec_len output.old + ANSWER_ROOM };

    /// Hears a later line. Its answer is appended to `output`.
    ///
    /// # Errors
    ///
    /// How the line ends the script; `output` is then unchanged.
    fn hear(&mut self, line: &[u8], output: &mut Output) -> Result<(), Ending>
        requires { array_vec_len output.old + ANSWER_ROOM ≤ OUTPUT_ROOM }
        ensures answer { Hears (hearing.meaning self.old line.now) output.old.items output.new.items self.new result }
        ensures room { array_vec_len output.new ≤ array_vec_len output.old + ANSWER_ROOM };

    /// Appends to `output` what is said at the end of a script, where the next line would have this number.
    ///
    /// # Errors
    ///
    /// The cause if the end is a fault; `output` is then unchanged.
    fn close(number: u64, output: &mut Output) -> Result<(), Cause>
        requires { array_vec_len output.old + END_ROOM ≤ OUTPUT_ROOM }
        ensures { Tells (hearing.end_text number) output.old.items output.new.items result };

    /// Appends to `output` what is said of the line that ends a script.
    fn report(end: End, output: &mut Output)
        requires { array_vec_len output.old + END_ROOM ≤ OUTPUT_ROOM }
        ensures { output.new.items ≡ output.old.items ++ hearing.said_of end };
}
