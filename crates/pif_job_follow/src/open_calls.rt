use pif_history_model::{Fact, Line};
use pif_history_told::Began;
use pif_types::{Request, Tid};
use std::alloc::{AllocError, Global};

/// The place of the first call of a thread whose number isn't less than this.
fn place_of(calls: &[Began], thread: Tid) -> usize {
    calls
        .iter()
        .position(|call| call.thread.get() >= thread.get())
        .unwrap_or(calls.len())
}

/// Hears the next line, of this number.
fn hear(calls: &mut Vec<Began>, line: &Line, number: u32) -> Result<(), AllocError> {
    let _no_fact: Option<Fact> = None;
    match *line {
        Line::Begin(thread, request) => {
            let place = place_of(calls.as_slice(), thread).min(calls.len());
            let call = Began {
                number,
                thread,
                request,
            };
            calls.insert(place, call)?;
            Ok(())
        }
        Line::Answer(thread, _) | Line::End(thread) => {
            calls.retain(|call| call.thread.get() != thread.get());
            Ok(())
        }
        _ => Ok(()),
    }
}

/// The calls that are open behind these lines, which have these numbers, in the order of the threads' numbers.
///
/// # Errors
///
/// Out of memory.
pub fn open_calls(
    alloc: Global,
    lines: &[Line],
    numbers: &[u32],
) -> Result<Vec<Began>, AllocError> {
    let _no_request: Option<Request> = None;
    let _no_fact: Option<Fact> = None;
    let mut calls = Vec::new(alloc);
    for place in 0..lines.len().min(numbers.len()) {
        let line = &lines[place];
        hear(&mut calls, line, numbers[place])?;
    }
    Ok(calls)
}
