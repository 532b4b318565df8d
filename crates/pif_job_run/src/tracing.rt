ghost use Rattle.std.specs.Prelude.{◌≡◌, ◌+◌, ◌≤◌, ◌++◌};
ghost use Rattle.pif_script_model.specs.Runs.{Writes};
ghost use Rattle.pif_script_model.specs.Traces.{SameAgain, entry_command, entry_reply, entry_text, entry_line, front_lines, limits_text, trace};
ghost use Rattle.arrayvec.specs.ArrayVec.{array_vec_len};

use pif_core::Entry;
use pif_script::{CliFault, FRONT_ROOM, ROW_ROOM, write_whole};
use pif_text::{
    Added, Addition, Command, Reply, TEXT_ROOM, Text, command_text, header_text, recorded_text,
};
use pif_types::Limits;
use std::io::Write;

/// The command that an entry asks for.
fn entry_command(entry: Entry) -> Command
    ensures { result ≡ entry_command entry }
{
    match entry {
        Entry::Thread(_, priority) => Command::Add(Addition::Thread(priority.get())),
        Entry::Mutex(_, kind, robust) => Command::Add(Addition::Mutex(kind, robust)),
        Entry::Cond(_, mutex) => Command::Add(Addition::Cond(mutex)),
        Entry::Step(event, _) => Command::Event(event),
    }
}

/// The answer that an entry records.
fn entry_reply(entry: Entry) -> Reply
    ensures { result ≡ entry_reply entry }
{
    match entry {
        Entry::Thread(thread, _) => Reply::Added(Added::Thread(thread)),
        Entry::Mutex(mutex, ..) => Reply::Added(Added::Mutex(mutex)),
        Entry::Cond(cond, _) => Reply::Added(Added::Cond(cond)),
        Entry::Step(_, seen) => Reply::Seen(seen),
    }
}

/// Appends an entry as a command and the answer to it.
#[tactic(auto, unfolding(pif_script_model::specs::Traces::entry_text))]
fn append_entry(entry: Entry, text: &mut Text)
    requires { array_vec_len text.old + ROW_ROOM ≤ TEXT_ROOM }
    ensures written { text.new.items ≡ text.old.items ++ entry_text entry }
    ensures within { array_vec_len text.new ≤ array_vec_len text.old + ROW_ROOM }
{
    let answered = entry;
    command_text(entry_command(entry), text);
    recorded_text(entry_reply(answered), text);
}

/// Appends limits as the command that names them, and the answer to it.
fn append_limits(limits: Limits, text: &mut Text)
    requires { array_vec_len text.old + ROW_ROOM ≤ TEXT_ROOM }
    ensures written { text.new.items ≡ text.old.items ++ limits_text limits }
    ensures within { array_vec_len text.new ≤ array_vec_len text.old + ROW_ROOM }
{
    let command = Command::Limits(
        limits.threads(),
        limits.mutexes(),
        limits.conds(),
        limits.signals(),
    );
    command_text(command, text);
    recorded_text(Reply::Done, text);
}

/// The first two lines of a trace.
#[tactic(auto, unfolding(pif_script_model::specs::Traces::front_lines))]
pub fn front_lines(limits: Limits) -> Text
    ensures written { result.items ≡ front_lines limits }
    ensures within { array_vec_len result ≤ FRONT_ROOM }
{
    let mut text = Text::new();
    header_text(&mut text);
    text.push(b'\n');
    append_limits(limits, &mut text);
    text.push(b'\n');
    text
}

/// An entry as a line of a trace.
fn entry_line(entry: Entry) -> Text
    ensures { result.items ≡ entry_line entry }
{
    let mut text = Text::new();
    append_entry(entry, &mut text);
    text.push(b'\n');
    text
}

/// Writes the trace of a history, of version 2: the header, the line of the limits, and a line for each entry, in the
/// order given, which is that of the history. No memory is taken. Of a core's own history it is what `replay` finds the
/// same, up to the size that a trace may have: `written_trace_is_the_same`.
///
/// # Errors
///
/// `Write` alone, if the writer fails or takes no byte; a proper part of the trace is written then.
pub fn write_trace<W: Write>(
    limits: Limits,
    entries: &[Entry],
    writer: &mut W,
) -> Result<(), CliFault>
    ensures { Writes (W.contents writer.old) (W.contents writer.new) (trace limits entries.now) result }
{
    write_whole(writer, front_lines(limits).as_slice())?;
    for entry in entries {
        write_whole(writer, entry_line(*entry).as_slice())?;
    }
    Ok(())
}

/// The trace of what a core did prints `same` when it is replayed, with the number of its entries and one more, for the
/// line of the limits.
pub fn written_trace_is_the_same()
    ensures { SameAgain }
{}
