ghost use Rattle.std.specs.Prelude.{◌≡◌, IfOk};
ghost use Rattle.pif_job_parts.specs.Indexes.{index_text};

use crate::faults::{NO_MEMORY, PartsFault};
use crate::indexes::{HEADER, Index, Run, index_text};
use pif_parts::Span;
use pif_text::{before_feed, is_word, number_of, split_first};
use std::alloc::{AllocError, Global};

/// A row of an index.
#[derive(Clone, Copy)]
enum Row {
    /// How many lines the history has.
    Lines(u32),
    /// How many calls it begins.
    Calls(u32),
    /// The place of its next part.
    Part(Span),
    /// The numbers of its next lines.
    At(Run),
}

/// Two numbers with a space between them.
fn two_of(text: &[u8]) -> Option<(u32, u32)> {
    let (first, rest) = split_first(text);
    Some((number_of(first)?, number_of(rest?)?))
}

/// The place of a part, by its numbers.
fn span_of(text: &[u8]) -> Option<Span> {
    let (first, rest) = split_first(text);
    let (count, before) = two_of(rest?)?;
    Some(Span {
        first: number_of(first)? as usize,
        count: count as usize,
        before: before as usize,
    })
}

/// A run, by its numbers.
fn run_of(text: &[u8]) -> Option<Run> {
    let (number, count) = two_of(text)?;
    Some(Run { number, count })
}

/// The row that a line is, if it is one.
fn row_of(line: &[u8]) -> Option<Row> {
    let (word, rest) = split_first(line);
    let text = rest?;
    if is_word(word, b"lines") {
        Some(Row::Lines(number_of(text)?))
    } else if is_word(word, b"calls") {
        Some(Row::Calls(number_of(text)?))
    } else if is_word(word, b"part") {
        Some(Row::Part(span_of(text)?))
    } else if is_word(word, b"at") {
        Some(Row::At(run_of(text)?))
    } else {
        None
    }
}

/// Takes a row into an index.
fn take(index: &mut Index, row: &Row) -> Result<(), AllocError> {
    match row {
        Row::Lines(count) => {
            index.lines = *count;
            Ok(())
        }
        Row::Calls(count) => {
            index.calls = *count;
            Ok(())
        }
        Row::Part(span) => {
            index.spans.push(*span)?;
            Ok(())
        }
        Row::At(run) => {
            index.runs.push(*run)?;
            Ok(())
        }
    }
}

/// What the rows of an index say, as far as they can be read. Their order isn't looked at.
fn rows_in(alloc: Global, text: &[u8]) -> Result<Index, PartsFault> {
    let mut index = Index {
        lines: 0,
        calls: 0,
        spans: Vec::new(alloc),
        runs: Vec::new(alloc),
    };
    let mut rest = text;
    let mut number = 1_u64;
    while !rest.is_empty() {
        let end = before_feed(rest);
        if number > 1 {
            let Some(row) = row_of(&rest[..end]) else {
                return Err(PartsFault::Index(number));
            };
            match take(&mut index, &row) {
                Ok(()) => {}
                Err(_) => return Err(NO_MEMORY),
            }
        }
        rest = &rest[rest.len().min(end.saturating_add(1))..];
        number = number.saturating_add(1);
    }
    Ok(index)
}

/// The number of the first line, from 1, in which one text isn't as the other.
fn first_difference(text: &[u8], other: &[u8]) -> u64 {
    let mut number = 1_u64;
    for (place, byte) in text.iter().enumerate() {
        if place >= other.len() || other[place] != *byte {
            return number;
        }
        if *byte == b'\n' {
            number = number.saturating_add(1);
        }
    }
    number
}

/// The index that this text is.
///
/// # Errors
///
/// `Index`, with the first line that can't stand there, and `NoMemory`.
pub fn read_index(alloc: Global, text: &[u8]) -> Result<Index, PartsFault>
    ensures { IfOk result (λ index. text.now ≡ index_text index) }
{
    if !text.starts_with(HEADER) {
        return Err(PartsFault::Index(1));
    }
    let index = rows_in(alloc, text)?;
    let Ok(written) = index_text(alloc, &index) else {
        return Err(NO_MEMORY);
    };
    if text == written.as_slice() {
        Ok(index)
    } else {
        Err(PartsFault::Index(first_difference(text, written.as_slice())))
    }
}
