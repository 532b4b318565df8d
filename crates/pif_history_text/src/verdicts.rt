//! The lines of verdicts. Each is appended to `out`; if out of memory, a part of it may be.
ghost use Rattle.std.specs.Prelude.{◌≡◌, ◌++◌, OnOk, codes, flat_map};
ghost use Rattle.pif_text_model.specs.Replies.{error_text};
ghost use Rattle.pif_history_text.specs.Verdicts.{answer_text, at_number, began_line, colon_line, fault_line, found_line, illegal_line, legal_line, line_refusal_word, number_text, numbers_text, possible_line, possible_undecided, refused_line};

use crate::writing::line_text;
use itoa::Buffer;
use pif_history_model::{Line, LineRefusal};
use pif_text::{
    Cause, Text, add_fault_word, append, append_decimal, errno_name, errno_of, fault_text,
};
use pif_types::{Answer, Errno, Request, Tid};
use std::alloc::AllocError;

/// Appends these parts, one after the other.
fn push_parts(out: &mut Vec<u8>, parts: &[&[u8]]) -> Result<(), AllocError>
    ensures { OnOk result (out.new.items ≡ out.old.items ++ flat_map (λ part. part.now) parts.now) }
{
    for part in parts {
        out.extend_from_slice(part)?;
    }
    Ok(())
}

/// Appends a number after what it counts or numbers, and what stands after it.
fn push_at(out: &mut Vec<u8>, head: &[u8], number: u32, tail: &[u8]) -> Result<(), AllocError>
    ensures { OnOk result (out.new.items ≡ out.old.items ++ (at_number head.now number ++ tail.now)) }
{
    let mut buffer = Buffer::new();
    let digits = buffer.format(u64::from(number)).as_bytes();
    push_parts(out, &[head, digits, tail])
}

/// Appends a number after what it numbers, and after a colon a line of a history.
fn push_line_at(out: &mut Vec<u8>, head: &[u8], number: u32, line: Line) -> Result<(), AllocError>
    ensures { OnOk result (out.new.items ≡ out.old.items ++ (at_number head.now number ++ colon_line line)) }
{
    let mut tail = Text::new();
    append(&mut tail, b": ");
    line_text(line, &mut tail);
    append(&mut tail, b"\n");
    push_at(out, head, number, tail.as_slice())
}

/// Appends the line of a legal history.
///
/// # Errors
///
/// Out of memory.
pub fn push_legal(out: &mut Vec<u8>, lines: u32) -> Result<(), AllocError>
    ensures { OnOk result (out.new.items ≡ out.old.items ++ legal_line lines) }
{
    push_at(out, b"legal ", lines, b"\n")
}

/// Appends the line of a history that is illegal at the line of this number.
///
/// # Errors
///
/// Out of memory.
pub fn push_illegal(out: &mut Vec<u8>, number: u32, line: Line) -> Result<(), AllocError>
    ensures { OnOk result (out.new.items ≡ out.old.items ++ illegal_line number line) }
{
    push_line_at(out, b"illegal at ", number, line)
}

/// Appends the line of a fault.
///
/// # Errors
///
/// Out of memory.
pub fn push_fault(out: &mut Vec<u8>, number: u64, cause: Cause) -> Result<(), AllocError>
    ensures { OnOk result (out.new.items ≡ out.old.items ++ fault_line number cause) }
{
    let mut text = Text::new();
    fault_text(number, cause, &mut text);
    append(&mut text, b"\n");
    out.extend_from_slice(text.as_slice())
}

/// Why no run has a line, in one word, as `busy`.
pub fn refusal_word(why: LineRefusal) -> &'static [u8]
    ensures { result.now ≡ line_refusal_word why }
{
    match why {
        LineRefusal::Addition(fault) => add_fault_word(fault),
        LineRefusal::Event(refusal) => pif_text::refusal_word(refusal),
        LineRefusal::Halt => b"halted",
    }
}

/// Appends the line that says why no run has a line, whatever was answered.
///
/// # Errors
///
/// Out of memory.
pub fn push_refused(out: &mut Vec<u8>, why: LineRefusal) -> Result<(), AllocError>
    ensures { OnOk result (out.new.items ≡ out.old.items ++ refused_line why) }
{
    push_parts(out, &[b"refused ", refusal_word(why), b"\n"])
}

/// Appends the name of an error after a space, if there is one.
fn push_error(out: &mut Vec<u8>, error: Option<Errno>) -> Result<(), AllocError>
    ensures { OnOk result (out.new.items ≡ out.old.items ++ error_text error) }
{
    match error {
        Some(errno) => push_parts(out, &[b" ", errno_name(errno).as_bytes()]),
        None => Ok(()),
    }
}

/// Appends an answer, and after it the name of its error, if it is one: `16 EBUSY`.
///
/// # Errors
///
/// Out of memory.
pub fn push_answer(out: &mut Vec<u8>, answer: Answer) -> Result<(), AllocError>
    ensures { OnOk result (out.new.items ≡ out.old.items ++ answer_text answer) }
{
    append_decimal(out, u64::from(answer))?;
    push_error(out, errno_of(answer))
}

/// Appends a number that may stand in a line: of an answer with its name.
fn push_number(out: &mut Vec<u8>, line: &Line, number: u32) -> Result<(), AllocError>
    ensures { OnOk result (out.new.items ≡ out.old.items ++ number_text line.now number) }
{
    match *line {
        Line::Answer(_, _) => push_answer(out, number),
        _ => append_decimal(out, u64::from(number)),
    }
}

/// Appends further numbers that may stand in a line, each after a comma.
fn push_further(out: &mut Vec<u8>, line: &Line, numbers: &[u32]) -> Result<(), AllocError>
    ensures { OnOk result (out.new.items ≡ out.old.items ++ flat_map (λ k. codes ", " ++ number_text line.now k) numbers.now) }
{
    for number in numbers {
        out.extend_from_slice(b", ")?;
        push_number(out, line, *number)?;
    }
    Ok(())
}

/// Appends numbers that may stand in a line, with a comma between them, or `none`.
fn push_numbers(out: &mut Vec<u8>, line: &Line, numbers: &[u32]) -> Result<(), AllocError>
    ensures { OnOk result (out.new.items ≡ out.old.items ++ numbers_text line.now numbers.now) }
{
    match numbers {
        [] => out.extend_from_slice(b"none"),
        [first, rest @ ..] => {
            push_number(out, line, *first)?;
            push_further(out, line, rest)
        }
    }
}

/// Appends numbers after what they are, and the end of the line.
fn push_numbers_of(
    out: &mut Vec<u8>,
    head: &[u8],
    line: &Line,
    numbers: &[u32],
) -> Result<(), AllocError>
    ensures { OnOk result (out.new.items ≡ out.old.items ++ (head.now ++ numbers_text line.now numbers.now ++ codes "\n")) }
{
    out.extend_from_slice(head)?;
    push_numbers(out, line, numbers)?;
    out.extend_from_slice(b"\n")
}

/// Appends the line that says which numbers may stand in this line in the place of its answer or its priority.
///
/// # Errors
///
/// Out of memory.
pub fn push_possible(out: &mut Vec<u8>, line: &Line, numbers: &[u32]) -> Result<(), AllocError>
    ensures { OnOk result (out.new.items ≡ out.old.items ++ possible_line line.now numbers.now) }
{
    push_numbers_of(out, b"possible there: ", line, numbers)
}

/// Appends the line that says that the search for such numbers was given up.
///
/// # Errors
///
/// Out of memory.
pub fn push_possible_undecided(out: &mut Vec<u8>) -> Result<(), AllocError>
    ensures { OnOk result (out.new.items ≡ out.old.items ++ possible_undecided) }
{
    out.extend_from_slice(b"possible there: undecided\n")
}

/// Appends the line that says with which numbers, in the place of the answer or the priority of this line, a search
/// found a run.
///
/// # Errors
///
/// Out of memory.
pub fn push_found(out: &mut Vec<u8>, line: &Line, numbers: &[u32]) -> Result<(), AllocError>
    ensures { OnOk result (out.new.items ≡ out.old.items ++ found_line line.now numbers.now) }
{
    push_numbers_of(out, b"found there: ", line, numbers)
}

/// Appends the line that says where the open call of a thread began.
///
/// # Errors
///
/// Out of memory.
pub fn push_began(
    out: &mut Vec<u8>,
    number: u32,
    thread: Tid,
    request: Request,
) -> Result<(), AllocError>
    ensures { OnOk result (out.new.items ≡ out.old.items ++ began_line number thread request) }
{
    push_line_at(
        out,
        b"its call began at ",
        number,
        Line::Begin(thread, request),
    )
}
