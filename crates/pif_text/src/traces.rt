ghost use Rattle.std.specs.Prelude.{◌≡◌, ℕ, ◌+◌, ◌≤◌, ◌<◌, ◌++◌, drop, get_or, length, option_map, None, Some, true, false};
ghost use Rattle.arrayvec.specs.ArrayVec.{array_vec_len};
ghost use Rattle.pif_text_model.specs.declared.traces.Version.TheVariants as version;
ghost use Rattle.pif_text_model.specs.Traces.{if_traced, is_of_two, knows, version_in, parts_of, is_marked, header_text, answer_text, same_of, differs_of};

use crate::writing::{REPLY_ROOM, append, append_decimal, reply_text};
use crate::{Command, Reply, TEXT_ROOM, Text, Version};
use pif_model::Event;
use pif_text_model::Arguments;

/// How many bytes the first line of a trace has before its line feed.
pub const HEADER_ROOM: usize = 11;

/// How many bytes of room `recorded_text` asks for: no answer is longer, with the 3 bytes ` = ` before it.
pub const RECORDED_ROOM: usize = REPLY_ROOM + 3;

/// How many bytes of room `same_text` and `differs_text` ask for: neither is longer. The longest is `differs N X`: an
/// answer behind 29 bytes, with a number of 20 digits.
pub const VERDICT_ROOM: usize = REPLY_ROOM + 30;

/// Cuts a line of a trace, given as its bytes without the line feed, at its first ` = `: what stands before it, the
/// command, and what stands behind it, the answer. `None` if it has no ` = `. Any bytes and any length may be given.
pub fn split_answer(line: &[u8]) -> Option<(&[u8], &[u8])>
    ensures { option_map (λ parts. (parts.0.now, parts.1.now)) result ≡ parts_of line.now }
{
    for (place, byte) in line.iter().enumerate() {
        if *byte == b' ' && line[place + 1..].starts_with(b"= ") {
            return Some((&line[..place], &line[place + 3..]));
        }
    }
    None
}

/// The version of a trace that begins with this line, given as its bytes without the line feed; `None` if no trace
/// begins so. Any bytes and any length may be given.
#[tactic(auto, unfolding(pif_text_model::specs::Traces::version_in))]
pub fn version_of(line: &[u8]) -> Option<Version>
    ensures { result ≡ version_in line.now }
{
    if line == b"pif-trace 1".as_slice() {
        Some(Version::One)
    } else if line == b"pif-trace 2".as_slice() {
        Some(Version::Two)
    } else {
        None
    }
}

/// Whether an event stands in traces of version 2 alone: a tick, and the begin of a request with a deadline.
fn is_of_two(event: Event) -> bool
    ensures { result ≡ is_of_two event }
{
    match event {
        Event::Begin(_, request) => Arguments::of(&request).deadline.is_some(),
        Event::Tick(_) => true,
        _ => false,
    }
}

/// Whether an event stands in traces of a version.
fn knows(version: Version, event: Event) -> bool
    ensures { result ≡ knows version event }
{
    match version {
        Version::One => !is_of_two(event),
        Version::Two => true,
    }
}

/// The command, if it stands in traces of a version: limits, additions and events that the version knows do.
pub fn if_traced(version: Version, command: Command) -> Option<Command>
    ensures { result ≡ if_traced version command }
{
    match command {
        Command::Event(event) => {
            // For the prover: each use has a value of its own.
            let traced = event;
            if knows(version, event) {
                Some(Command::Event(traced))
            } else {
                None
            }
        }
        Command::Run(..) => None,
        Command::Ask(_) => None,
        traced => Some(traced),
    }
}

/// Appends the first line of a trace of version 2, with no line feed, at most `HEADER_ROOM` bytes. What stands in `out`
/// stays.
pub fn header_text(out: &mut Text)
    requires { array_vec_len out.old + HEADER_ROOM ≤ TEXT_ROOM }
    ensures written { out.new.items ≡ out.old.items ++ header_text version.Two }
    ensures within { array_vec_len out.new ≤ array_vec_len out.old + HEADER_ROOM }
{
    append(out, b"pif-trace 2");
}

/// Appends ` = ` and an answer, as they stand behind the command in a line of a trace, with no line feed, at most
/// `RECORDED_ROOM` bytes. What stands in `out` stays.
pub fn recorded_text(reply: Reply, out: &mut Text)
    requires { array_vec_len out.old + RECORDED_ROOM ≤ TEXT_ROOM }
    ensures written { out.new.items ≡ out.old.items ++ answer_text reply }
    ensures within { array_vec_len out.new ≤ array_vec_len out.old + RECORDED_ROOM }
{
    append(out, b" = ");
    reply_text(reply, out);
}

/// Appends `same N`, what a trace of so many lines behind the first comes to if each answer is the recorded one, with
/// no line feed, at most `VERDICT_ROOM` bytes. What stands in `out` stays.
#[tactic(auto, unfolding(pif_text_model::specs::Traces::same_of))]
pub fn same_text(lines: u64, out: &mut Text)
    requires { array_vec_len out.old + VERDICT_ROOM ≤ TEXT_ROOM }
    ensures written { out.new.items ≡ out.old.items ++ same_of lines }
    ensures within { array_vec_len out.new ≤ array_vec_len out.old + VERDICT_ROOM }
{
    append(out, b"same ");
    append_decimal(out, lines);
}

/// Appends `differs N X`, the first difference of a trace: at this line, counted from 1, the answer is `reply`. There
/// is no line feed, and it is at most `VERDICT_ROOM` bytes. What stands in `out` stays.
#[tactic(auto, unfolding(pif_text_model::specs::Traces::differs_of))]
pub fn differs_text(line_number: u64, reply: Reply, out: &mut Text)
    requires { array_vec_len out.old + VERDICT_ROOM ≤ TEXT_ROOM }
    ensures written { out.new.items ≡ out.old.items ++ differs_of line_number reply }
    ensures within { array_vec_len out.new ≤ array_vec_len out.old + VERDICT_ROOM }
{
    append(out, b"differs ");
    append_decimal(out, line_number);
    append(out, b" ");
    reply_text(reply, out);
}
