//! What is told at the end of a legal history, of the calls that are open there.
ghost use Rattle.std.specs.Prelude.{◌≡◌, ◌++◌, OnOk, codes, decimal};
ghost use Rattle.std.specs.List.{flat_map};
ghost use Rattle.pif_text_model.specs.CommandTexts.{request_text};
ghost use Rattle.pif_types.specs.Shapes.{names_of};
ghost use Rattle.pif_history_told.specs.Ends.{at_end_text, call_text, calls_line, deadlock_text, object_name, part_text};
ghost use Rattle.pif_history_told.specs.Verdicts.{at_end_members, begin_object, open_member};

use crate::verdicts::Began;
use pif_history_model::Line;
use pif_history_text::line_text;
use pif_text::{
    Member, Text, append, append_decimal, append_object, append_request, append_thread,
};
use pif_types::Request;
use std::alloc::AllocError;

/// What is told at the end of a legal history.
#[derive(Drop)]
pub struct AtEnd {
    /// The calls that are open there, in the order of the threads' numbers.
    pub calls: Vec<Began>,
    /// Whether none of them can be answered, though some are open.
    pub deadlock: bool,
}

/// What is told of an open call after its thread.
#[derive(Clone, Copy)]
enum Part {
    /// The call, as in its begin.
    Call,
    /// The condition variable that it names, or else the mutex.
    Object,
}

/// Appends a call as in its begin.
fn push_request(request: &Request, out: &mut Vec<u8>) -> Result<(), AllocError>
    ensures { OnOk result (out.new.items ≡ out.old.items ++ (codes " " ++ request_text request.now)) }
{
    let mut text = Text::new();
    append(&mut text, b" ");
    append_request(&mut text, *request);
    out.extend_from_slice(text.as_slice())
}

/// Appends a number after these bytes.
pub(crate) fn push_numbered(head: &[u8], number: u32, out: &mut Vec<u8>) -> Result<(), AllocError>
    ensures { OnOk result (out.new.items ≡ out.old.items ++ (head.now ++ decimal number)) }
{
    out.extend_from_slice(head)?;
    append_decimal(out, u64::from(number))
}

/// Appends the condition variable that a call names, or else the mutex.
fn push_object(request: &Request, out: &mut Vec<u8>) -> Result<(), AllocError>
    ensures { OnOk result (out.new.items ≡ out.old.items ++ object_name (names_of request.now).mutex (names_of request.now).cond) }
{
    let named = request.names();
    match (named.mutex, named.cond) {
        (_, Some(cond)) => push_numbered(b" c", cond.get(), out),
        (Some(mutex), None) => push_numbered(b" m", mutex.get(), out),
        (None, None) => Ok(()),
    }
}

/// Appends a part of what is told of an open call.
fn push_part(part: Part, call: &Began, out: &mut Vec<u8>) -> Result<(), AllocError>
    ensures { OnOk result (out.new.items ≡ out.old.items ++ part_text part call.now) }
{
    match part {
        Part::Call => push_request(&call.request, out),
        Part::Object => push_object(&call.request, out),
    }
}

/// Appends an open call, by its thread and this part.
fn push_call(part: Part, call: &Began, out: &mut Vec<u8>) -> Result<(), AllocError>
    ensures { OnOk result (out.new.items ≡ out.old.items ++ call_text part call.now) }
{
    let mut thread = Text::new();
    append_thread(&mut thread, call.thread);
    out.extend_from_slice(thread.as_slice())?;
    push_part(part, call, out)
}

/// Appends further calls, each after a comma.
fn push_further(part: Part, calls: &[Began], out: &mut Vec<u8>) -> Result<(), AllocError>
    ensures { OnOk result (out.new.items ≡ out.old.items ++ flat_map (λ x. codes ", " ++ call_text part x) calls.now) }
{
    for call in calls {
        out.extend_from_slice(b", ")?;
        push_call(part, call, out)?;
    }
    Ok(())
}

/// Appends calls in a line after these words, if there are some.
fn push_calls(
    words: &[u8],
    part: Part,
    calls: &[Began],
    out: &mut Vec<u8>,
) -> Result<(), AllocError>
    ensures { OnOk result (out.new.items ≡ out.old.items ++ calls_line words.now part calls.now) }
{
    match calls {
        [] => Ok(()),
        [first, rest @ ..] => {
            out.extend_from_slice(words)?;
            push_call(part, first, out)?;
            push_further(part, rest, out)?;
            out.extend_from_slice(b"\n")
        }
    }
}

/// Appends the line that says that none of these calls can be answered, if that is so.
fn push_deadlock(deadlock: bool, calls: &[Began], out: &mut Vec<u8>) -> Result<(), AllocError>
    ensures { OnOk result (out.new.items ≡ out.old.items ++ deadlock_text deadlock calls.now) }
{
    if deadlock {
        push_calls(b"deadlock at the end: ", Part::Object, calls, out)
    } else {
        Ok(())
    }
}

/// Appends which calls are open at the end, and whether none of them can be answered.
///
/// # Errors
///
/// Out of memory.
pub fn tell_at_end(at_end: &AtEnd, out: &mut Vec<u8>) -> Result<(), AllocError>
    ensures { OnOk result (out.new.items ≡ out.old.items ++ at_end_text at_end.now) }
{
    let calls = at_end.calls.as_slice();
    push_calls(b"open at the end: ", Part::Call, calls, out)?;
    push_deadlock(at_end.deadlock, calls, out)
}

/// Appends the begin of a call as an object.
#[tactic(auto, unfolding(crate::specs::Verdicts::begin_object))]
fn append_begin(call: &Began, out: &mut Vec<u8>) -> Result<(), AllocError>
    ensures { OnOk result (out.new.items ≡ out.old.items ++ begin_object call.now) }
{
    let mut text = Text::new();
    line_text(Line::Begin(call.thread, call.request), &mut text);
    append_object(
        out,
        &[
            Member::Number("line", call.number),
            Member::Quoted("text", text.as_slice()),
        ],
    )
}

/// Appends further begins of calls, each after a comma.
fn append_further(calls: &[Began], out: &mut Vec<u8>) -> Result<(), AllocError>
    ensures { OnOk result (out.new.items ≡ out.old.items ++ flat_map (λ x. codes "," ++ begin_object x) calls.now) }
{
    for call in calls {
        out.extend_from_slice(b",")?;
        append_begin(call, out)?;
    }
    Ok(())
}

/// Appends the calls that are open, as a member, if there are some.
#[tactic(auto, unfolding(crate::specs::Verdicts::open_member))]
fn append_open(calls: &[Began], out: &mut Vec<u8>) -> Result<(), AllocError>
    ensures { OnOk result (out.new.items ≡ out.old.items ++ open_member calls.now) }
{
    match calls {
        [] => Ok(()),
        [first, rest @ ..] => {
            out.extend_from_slice(b",\"open\":[")?;
            append_begin(first, out)?;
            append_further(rest, out)?;
            out.extend_from_slice(b"]")
        }
    }
}

/// Appends what is told at the end of a legal history, as members.
#[tactic(auto, unfolding(crate::specs::Verdicts::deadlock_member))]
pub(crate) fn append_at_end(at_end: &AtEnd, out: &mut Vec<u8>) -> Result<(), AllocError>
    ensures { OnOk result (out.new.items ≡ out.old.items ++ at_end_members at_end.now) }
{
    append_open(at_end.calls.as_slice(), out)?;
    if at_end.deadlock {
        out.extend_from_slice(b",\"deadlock\":true")?;
    }
    Ok(())
}
