//! What is told of a verdict.
ghost use Rattle.std.specs.Prelude.{◌≡◌, ◌≤◌, ◌++◌, OnOk, Some, vec_len};
ghost use Rattle.pif_history_model.specs.Lines.{thread_of};
ghost use Rattle.pif_history_text.specs.Texts.{line_text};
ghost use Rattle.pif_history_text.specs.Reading.{IsPaired, heard_of};
ghost use Rattle.pif_history_told.specs.Why.{open_of, said_of};
ghost use Rattle.pif_history_told.specs.WhyTexts.{began_text, found_text, known_text, legal_up_to_text, undecided_from_text, up_to_text, why_text};

use crate::ends::push_numbered;
use crate::verdicts::{Began, Known, Unfound};
use pif_history_machine::thread_of;
use pif_history_model::Line;
use pif_history_text::{
    History, line_text, push_began, push_found, push_possible, push_possible_undecided,
    push_refused,
};
use pif_text::Text;
use pif_types::{Request, Tid};
use std::alloc::AllocError;

/// What a line says of the call of a thread.
enum Says {
    /// It began.
    Begins(Request),
    /// It was answered.
    Answers,
    /// Nothing.
    Nothing,
}

/// What a line says of the call of a thread.
fn said_of(line: &Line, thread: Tid) -> Says
    ensures { result ≡ said_of thread line.now }
{
    match *line {
        Line::Begin(other, request) if other == thread => Says::Begins(request),
        Line::Answer(other, _) if other == thread => Says::Answers,
        _ => Says::Nothing,
    }
}

/// The call that a thread has open after the first `before` lines of a history.
fn open_call(history: &History, thread: Tid, before: usize) -> Option<Began>
    requires paired { IsPaired history.now }
    requires within { before ≤ vec_len history.now.shown }
    ensures { result ≡ open_of (Some thread) (heard_of history.now) before }
{
    let mut left = before;
    while left > 0 {
        left -= 1;
        match said_of(&history.shown[left], thread) {
            Says::Begins(request) => {
                return Some(Began {
                    number: history.numbers[left],
                    thread,
                    request,
                });
            }
            Says::Answers => return None,
            Says::Nothing => {}
        }
    }
    None
}

/// The call that a thread, if it is one, has open after the first `before` lines of a history.
pub fn began_of(history: &History, thread: Option<Tid>, before: usize) -> Option<Began>
    requires paired { IsPaired history.now }
    requires within { before ≤ vec_len history.now.shown }
    ensures { result ≡ open_of thread (heard_of history.now) before }
{
    open_call(history, thread?, before)
}

/// The call that the thread of a line after the first `before` lines has open there; none if it is no line of a
/// thread.
pub fn began_before(history: &History, before: usize, line: &Line) -> Option<Began>
    requires paired { IsPaired history.now }
    requires within { before ≤ vec_len history.now.shown }
    ensures { result ≡ open_of (thread_of line.now) (heard_of history.now) before }
{
    began_of(history, thread_of(line), before)
}

/// Appends the line that says where an open call began, if there is one.
fn tell_began(began: Option<Began>, out: &mut Vec<u8>) -> Result<(), AllocError>
    ensures { OnOk result (out.new.items ≡ out.old.items ++ began_text began) }
{
    match began {
        Some(call) => push_began(out, call.number, call.thread, call.request),
        None => Ok(()),
    }
}

/// Appends the line that says what is known of a line.
fn tell_known(line: &Line, known: &Known, out: &mut Vec<u8>) -> Result<(), AllocError>
    ensures { OnOk result (out.new.items ≡ out.old.items ++ known_text line.now known.now) }
{
    match known {
        Known::Refused(why) => push_refused(out, *why),
        Known::Numbers(Some(numbers)) => push_possible(out, line, numbers.as_slice()),
        Known::Numbers(None) => push_possible_undecided(out),
        Known::Nothing => Ok(()),
    }
}

/// Appends what is known of a line up to which there is no run, and where its thread's open call began, unless the line
/// is refused whatever was answered.
///
/// # Errors
///
/// Out of memory.
pub fn tell_why(
    line: &Line,
    known: &Known,
    began: Option<Began>,
    out: &mut Vec<u8>,
) -> Result<(), AllocError>
    ensures { OnOk result (out.new.items ≡ out.old.items ++ why_text line.now known.now began) }
{
    match known {
        Known::Refused(why) => push_refused(out, *why),
        Known::Numbers(_) => {
            tell_known(line, known, out)?;
            tell_began(began, out)
        }
        Known::Nothing => tell_began(began, out),
    }
}

/// Appends up to which line a history is legal, if one is known.
fn tell_up_to(number: Option<u32>, out: &mut Vec<u8>) -> Result<(), AllocError>
    ensures { OnOk result (out.new.items ≡ out.old.items ++ up_to_text number) }
{
    match number {
        Some(known) => {
            push_numbered(b"legal up to ", known, out)?;
            out.extend_from_slice(b"; ")
        }
        None => Ok(()),
    }
}

/// Appends the text of a line.
fn tell_line(line: Line, out: &mut Vec<u8>) -> Result<(), AllocError>
    ensures { OnOk result (out.new.items ≡ out.old.items ++ line_text line) }
{
    let mut text = Text::new();
    line_text(line, &mut text);
    out.extend_from_slice(text.as_slice())
}

/// Appends the number and the text of a line up to which the history may be legal or not.
fn tell_undecided_from(number: u32, line: Line, out: &mut Vec<u8>) -> Result<(), AllocError>
    ensures { OnOk result (out.new.items ≡ out.old.items ++ undecided_from_text number line) }
{
    push_numbered(b"undecided from ", number, out)?;
    out.extend_from_slice(b": ")?;
    tell_line(line, out)
}

/// Appends with which numbers in a line a search found a run, if it looked, and the end of the line.
fn tell_found(line: &Line, found: &Option<Vec<u32>>, out: &mut Vec<u8>) -> Result<(), AllocError>
    ensures { OnOk result (out.new.items ≡ out.old.items ++ found_text line.now found.now) }
{
    match found {
        Some(numbers) => {
            out.extend_from_slice(b"; ")?;
            push_found(out, line, numbers.as_slice())
        }
        None => out.extend_from_slice(b"\n"),
    }
}

/// Appends up to which line a history is legal, and the next line, up to which it may be legal or not.
///
/// # Errors
///
/// Out of memory.
pub fn tell_undecided(unfound: &Unfound, out: &mut Vec<u8>) -> Result<(), AllocError>
    ensures { OnOk result (out.new.items ≡ out.old.items ++ legal_up_to_text unfound.now) }
{
    tell_up_to(unfound.up_to, out)?;
    tell_undecided_from(unfound.number, unfound.line, out)?;
    tell_found(&unfound.line, &unfound.found, out)
}
