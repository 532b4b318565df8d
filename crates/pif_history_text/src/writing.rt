ghost use Rattle.std.specs.Prelude.{◌≡◌, ℕ, ◌+◌, ◌≤◌, ◌++◌, List, Some, codes, decimal, length};
ghost use Rattle.arrayvec.specs.ArrayVec.{array_vec_len};
ghost use Rattle.pif_text_model.specs.CommandTexts.{mutex_text};
ghost use Rattle.pif_text_model.specs.Replies.{thread_name};
ghost use Rattle.pif_history_model.specs.declared.lines.Line.{Line};
ghost use Rattle.pif_history_text.specs.declared.said.Said.TheVariants.{Shown};
ghost use Rattle.pif_history_text.specs.Lines.{said_in};
ghost use Rattle.pif_history_text.specs.Texts.{IsLineWritten, line_text, protocol_text};

use pif_history_model::{Line, Protocol};
use pif_model::Event;
use pif_text::{
    Addition, COMMAND_ROOM, Command, TEXT_ROOM, Text, append, append_number, append_thread,
    command_text, mutex_text,
};
use pif_types::{Kind, Tid};

/// Appends a name with its space, and a thread.
fn append_of_thread(out: &mut Text, name: &[u8], thread: Tid)
    requires { array_vec_len out.old + length name.now + 11 ≤ TEXT_ROOM }
    ensures items { out.new.items ≡ out.old.items ++ (name.now ++ thread_name thread) }
    ensures len { array_vec_len out.new ≤ array_vec_len out.old + length name.now + 11 }
{
    append(out, name);
    append_thread(out, thread);
}

/// Appends a number after a space.
fn append_last(out: &mut Text, number: u32)
    requires { array_vec_len out.old + 11 ≤ TEXT_ROOM }
    ensures items { out.new.items ≡ out.old.items ++ (codes " " ++ decimal number) }
    ensures len { array_vec_len out.new ≤ array_vec_len out.old + 11 }
{
    append(out, b" ");
    append_number(out, number);
}

/// Appends the addition of a mutex.
fn append_mutex(out: &mut Text, kind: Kind, robust: bool, protocol: Protocol)
    requires { array_vec_len out.old + COMMAND_ROOM ≤ TEXT_ROOM }
    ensures items { out.new.items ≡ out.old.items ++ (mutex_text kind robust ++ protocol_text protocol) }
    ensures len { array_vec_len out.new ≤ array_vec_len out.old + COMMAND_ROOM }
{
    mutex_text(kind, robust, out);
    match protocol {
        Protocol::PrioInherit => {}
        Protocol::PrioNone => append(out, b" none"),
    }
}

/// Appends a line of a history, with no line feed, at most `COMMAND_ROOM` bytes. What stands in `out` stays. `Asks` is
/// no line of a history: what is written for it can't be read.
#[tactic(auto, unfolding(crate::specs::Texts::line_text))]
pub fn line_text(line: Line, out: &mut Text)
    requires { array_vec_len out.old + COMMAND_ROOM ≤ TEXT_ROOM }
    ensures written { out.new.items ≡ out.old.items ++ line_text line }
    ensures within { array_vec_len out.new ≤ array_vec_len out.old + COMMAND_ROOM }
{
    match line {
        Line::Thread(priority) => command_text(Command::Add(Addition::Thread(priority)), out),
        Line::Mutex(kind, robust, protocol) => append_mutex(out, kind, robust, protocol),
        Line::Cond(mutex) => command_text(Command::Add(Addition::Cond(mutex)), out),
        Line::Begin(thread, request) => {
            command_text(Command::Event(Event::Begin(thread, request)), out)
        }
        Line::End(thread) => command_text(Command::Event(Event::End(thread)), out),
        Line::Tick(time) => command_text(Command::Event(Event::Tick(time)), out),
        Line::Dying(thread) => append_of_thread(out, b"dying ", thread),
        Line::Rests(thread) => append_of_thread(out, b"rests ", thread),
        Line::Answer(thread, answer) => {
            append_of_thread(out, b"answer ", thread);
            append_last(out, answer);
        }
        Line::Prio(thread, priority) => {
            append_of_thread(out, b"prio ", thread);
            append_last(out, priority);
        }
        Line::Process(thread) => append_of_thread(out, b"process ", thread),
        Line::Halted => append(out, b"halted"),
        Line::Resumed => append(out, b"resumed"),
        Line::Asks(_, _) => append(out, b"asks"),
    }
}

/// Each line of a history is read from the text that `line_text` writes for it, as that very line.
pub fn line_reads_back()
    ensures { (line : Line) → IsLineWritten line → said_in (line_text line) ≡ Some (Shown line) }
{}

/// Each line that a text says has numbers that `line_text` can write.
pub fn lines_of_texts_are_written()
    ensures { (text : List ℕ) (line : Line) → said_in text ≡ Some (Shown line) → IsLineWritten line }
{}
