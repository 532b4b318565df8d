ghost use Rattle.std.specs.Prelude.{◌≡◌, Option, Some, None, Ok, Err, MatchOption, option_map, bytes_eq, if◌then◌else◌};
ghost use Rattle.pif_text_model.specs.Replies.{text_of};
ghost use Rattle.pif_text_model.specs.Traces.{version_in};
ghost use Rattle.pif_script_model.specs.Traces.{Replay, ReplaysTo, traced_in, trace_hearing};

use pif_core::Core;
use pif_script::{
    CliFault, End, Ending, Listener, Notice, OpenFault, Output, append, append_end, read_script,
};
use pif_script_core::{obey, open_core};
use pif_text::{
    Cause, Command, Reply, Text, Version, command_of, if_traced, reply_text, same_text,
    split_answer, version_of,
};
use std::alloc::Global;
use std::io::{Read, Write};
use std::marker::Model;

/// A core that is given the commands of a trace of a version, and whose answers are compared with the recorded ones.
#[derive(Drop)]
pub struct Replayed {
    version: Version,
    core: Core,
}

impl Model for Replayed {
    ghost Value = { Replay };

    ghost view = { λ r. record { version = r.version; core = r.core } };
}

/// The command of a line of a trace of a version, and the answer that it records.
#[tactic(auto, unfolding(pif_script_model::specs::Traces::traced_in))]
pub fn traced_of(version: Version, line: &[u8]) -> Option<(Command, &[u8])>
    ensures { option_map (λ traced. (traced.0, traced.1.now)) result ≡ traced_in version line.now }
{
    let (text, recorded) = split_answer(line)?;
    let command = if_traced(version, command_of(text)?)?;
    Some((command, recorded))
}

/// Passes the first line of a trace over, which names its version and makes no listener.
///
/// # Errors
///
/// The fault `command` if it names none.
pub fn open_header<L>(line: &[u8]) -> Result<Option<L>, OpenFault>
    ensures { MatchOption (version_in line.now) (result ≡ Err (OpenFault.Ended (Ending.Fault Cause.Command)))
        (λ version. result ≡ Ok None) }
{
    match version_of(line) {
        Some(_) => Ok(None),
        None => Err(OpenFault::Ended(Ending::Fault(Cause::Command))),
    }
}

/// Compares the recorded answer with the one that is given.
///
/// # Errors
///
/// `Differs` if they are not the same.
fn compare(reply: Reply, recorded: &[u8]) -> Result<(), Ending>
    ensures { result ≡ (if bytes_eq (text_of reply) recorded.now then Ok tt else Err (Ending.Differs reply)) }
{
    let given = reply;
    let mut text = Text::new();
    reply_text(reply, &mut text);
    if text.as_slice() == recorded {
        Ok(())
    } else {
        Err(Ending::Differs(given))
    }
}

impl Listener for Replayed {
    ghost hearing = { trace_hearing };

    #[tactic(auto, unfolding(pif_script_model::specs::Traces::second_line_meaning))]
    fn open(
        alloc: Global,
        version: Option<Version>,
        line: &[u8],
        _output: &mut Output,
    ) -> Result<Option<Replayed>, OpenFault> {
        let Some(version) = version else {
            return open_header(line);
        };
        let Some((command, recorded)) = traced_of(version, line) else {
            return Err(OpenFault::Ended(Ending::Fault(Cause::Command)));
        };
        let (core, reply) = open_core(alloc, command)?;
        match compare(reply, recorded) {
            Ok(()) => Ok(Some(Replayed { version, core })),
            Err(ending) => Err(OpenFault::Ended(ending)),
        }
    }

    #[tactic(auto, unfolding(pif_script_model::specs::Traces::traced_meaning))]
    fn hear(&mut self, line: &[u8], _output: &mut Output) -> Result<(), Ending> {
        let Some((command, recorded)) = traced_of(self.version, line) else {
            return Err(Ending::Fault(Cause::Command));
        };
        let Some(reply) = obey(&mut self.core, command) else {
            return Err(Ending::Fault(Cause::Command));
        };
        compare(reply, recorded)
    }

    fn close(number: u64, output: &mut Output) -> Result<(), Cause> {
        if number < 2 {
            return Err(Cause::Command);
        }
        let mut text = Text::new();
        same_text(number - 2, &mut text);
        append(output, text.as_slice());
        output.push(b'\n');
        Ok(())
    }

    fn report(end: End, output: &mut Output) {
        append_end(end, output);
    }
}

/// Replays a trace of version 1 or 2: gives its commands to a fresh core, and compares each answer with the recorded
/// one. At its end `same N` is written, with the number of lines after the first; at the first difference `differs L
/// X`, with the number of the line and what the core gives there, and at the first fault the line of the fault. Nothing
/// is read behind the chunk in which that is found.
///
/// # Errors
///
/// `Script` with the first fault of the trace, and `Differs` with the line of the first difference, which were written
/// then. `Read` if the reader fails; nothing was written. `Write` if the writer fails or takes no byte. `NoMemory` if
/// the core cannot be made; nothing was written.
pub fn replay<R: Read, W: Write>(
    alloc: Global,
    reader: &mut R,
    writer: &mut W,
) -> Result<(), CliFault>
    ensures { ReplaysTo (R.remaining reader.old) (R.remaining reader.new) (W.contents writer.old) (W.contents writer.new) result }
{
    replay_noting(alloc, reader, writer, &mut Notice::new())
}

/// Replays a trace as `replay` does, and has `notice` keep the line of the fault or of the difference; if there is
/// none, `notice` is left as it is.
///
/// # Errors
///
/// Those of `replay`.
pub fn replay_noting<R: Read, W: Write>(
    alloc: Global,
    reader: &mut R,
    writer: &mut W,
    notice: &mut Notice,
) -> Result<(), CliFault>
    ensures { ReplaysTo (R.remaining reader.old) (R.remaining reader.new) (W.contents writer.old) (W.contents writer.new) result }
{
    read_script::<Replayed, R, W>(alloc, reader, writer, notice)
}
