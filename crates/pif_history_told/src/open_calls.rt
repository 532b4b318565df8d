//! The calls that are open after all lines of a history.
ghost use Rattle.std.specs.Prelude.{◌≡◌, IfOk, length, slice_set};
ghost use Rattle.pif_history_text.specs.Reading.{IsPaired, heard_of};
ghost use Rattle.pif_history_told.specs.OpenTables.{AreOpenBehind, once_heard};
ghost use Rattle.pif_history_told.specs.Why.{open_at_end, threads_in};

use crate::verdicts::Began;
use pif_history_model::Line;
use pif_history_text::History;
use pif_types::{Request, Tid};
use std::alloc::{AllocError, Global};

/// How many threads a history adds.
fn threads_in(history: &History) -> usize
    ensures { result ≡ threads_in (heard_of history.now) }
{
    history
        .shown
        .iter()
        .filter(|line| matches!(**line, Line::Thread(_)))
        .count()
}

/// Takes note of the open call of a thread, or that it has none, if there is such a thread.
fn note(calls: &mut [Option<Began>], thread: Tid, call: Option<Began>)
    ensures { calls.new ≡ slice_set calls.old thread call }
{
    let place = thread.get() as usize;
    if place < calls.len() {
        calls[place] = call;
    }
}

/// Hears the next line, of this number.
fn hear(calls: &mut [Option<Began>], line: &Line, number: u32)
    ensures { calls.new ≡ once_heard line.now number calls.old }
{
    match *line {
        Line::Begin(thread, request) => {
            let call = Began {
                number,
                thread,
                request,
            };
            note(calls, thread, Some(call));
        }
        Line::Answer(thread, _) => note(calls, thread, None),
        _ => {}
    }
}

/// The open calls after all lines, each at the place of its thread.
fn open_table(alloc: Global, history: &History) -> Result<Vec<Option<Began>>, AllocError>
    requires paired { IsPaired history.now }
    ensures { IfOk result (λ v. AreOpenBehind (heard_of history.now) (length (heard_of history.now).shown) v.items) }
{
    let mut calls = vec![in alloc; None; threads_in(history) + 1]?;
    for place in 0..history.shown.len() {
        let number = history.numbers[place];
        hear(calls.as_mut_slice(), &history.shown[place], number);
    }
    Ok(calls)
}

/// The calls that are open after all lines of a history, in the order of the threads' numbers.
///
/// # Errors
///
/// Out of memory.
pub fn open_at_end(alloc: Global, history: &History) -> Result<Vec<Began>, AllocError>
    requires paired { IsPaired history.now }
    ensures { IfOk result (λ v. v.items ≡ open_at_end (heard_of history.now)) }
{
    // The check has to be told of the type of requests, which calls hold.
    let _no_request: Option<Request> = None;
    let table = open_table(alloc, history)?;
    let mut open = Vec::new(alloc);
    for thread in 1..table.len() {
        match table[thread] {
            Some(call) => open.push(call)?,
            None => {}
        }
    }
    Ok(open)
}
