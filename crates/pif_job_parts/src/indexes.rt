ghost use Rattle.std.specs.Prelude.{◌≡◌, ◌++◌, OnOk, codes, decimal, flat_map, map, IfOk};
ghost use Rattle.pif_job_parts.specs.Indexes.{index_text, row_text, run_row, span_row};

use pif_parts::Span;
use pif_text::append_decimal;
use std::alloc::{AllocError, Global};

/// Lines of a history whose numbers in its text follow one another.
#[derive(Clone, Copy)]
pub struct Run {
    /// The number of the first, from 1.
    pub number: u32,
    /// How many there are.
    pub count: u32,
}

/// What the index of a history in parts says.
#[derive(Drop)]
pub struct Index {
    /// How many lines the text of the history has, all of them counted.
    pub lines: u32,
    /// How many calls the history begins.
    pub calls: u32,
    /// The places of its parts, in order.
    pub spans: Vec<Span>,
    /// The numbers of its lines in the text, in order.
    pub runs: Vec<Run>,
}

/// The first line of an index.
pub const HEADER: &[u8] = b"pif-parts 1\n";

/// Appends numbers, each after a space.
fn push_numbers(out: &mut Vec<u8>, numbers: &[u64]) -> Result<(), AllocError>
    ensures { OnOk result (out.new.items ≡ out.old.items ++ flat_map (λ n. codes " " ++ decimal n) numbers.now) }
{
    for number in numbers {
        out.extend_from_slice(b" ")?;
        append_decimal(out, *number)?;
    }
    Ok(())
}

/// Appends a row: its word and its numbers.
fn push_row(out: &mut Vec<u8>, word: &[u8], numbers: &[u64]) -> Result<(), AllocError>
    ensures { OnOk result (out.new.items ≡ out.old.items ++ row_text word.now numbers.now) }
{
    out.extend_from_slice(word)?;
    push_numbers(out, numbers)?;
    out.extend_from_slice(b"\n")
}

/// Appends the row of a part.
fn push_span(out: &mut Vec<u8>, span: &Span) -> Result<(), AllocError>
    ensures { OnOk result (out.new.items ≡ out.old.items ++ span_row span.now) }
{
    let numbers = [span.first as u64, span.count as u64, span.before as u64];
    push_row(out, b"part", &numbers)
}

/// Appends the row of a run.
fn push_run(out: &mut Vec<u8>, run: &Run) -> Result<(), AllocError>
    ensures { OnOk result (out.new.items ≡ out.old.items ++ run_row run.now) }
{
    let numbers = [u64::from(run.number), u64::from(run.count)];
    push_row(out, b"at", &numbers)
}

/// Appends the rows of parts.
fn push_spans(out: &mut Vec<u8>, spans: &[Span]) -> Result<(), AllocError>
    ensures { OnOk result (out.new.items ≡ out.old.items ++ flat_map span_row spans.now) }
{
    for span in spans {
        push_span(out, span)?;
    }
    Ok(())
}

/// Appends the rows of runs.
fn push_runs(out: &mut Vec<u8>, runs: &[Run]) -> Result<(), AllocError>
    ensures { OnOk result (out.new.items ≡ out.old.items ++ flat_map run_row runs.now) }
{
    for run in runs {
        push_run(out, run)?;
    }
    Ok(())
}

/// The text of an index.
///
/// # Errors
///
/// Memory was refused.
pub fn index_text(alloc: Global, index: &Index) -> Result<Vec<u8>, AllocError>
    ensures { IfOk result (λ text. text.items ≡ index_text index.now) }
{
    let mut out = Vec::new(alloc);
    out.extend_from_slice(HEADER)?;
    push_row(&mut out, b"lines", &[u64::from(index.lines)])?;
    push_row(&mut out, b"calls", &[u64::from(index.calls)])?;
    push_spans(&mut out, index.spans.as_slice())?;
    push_runs(&mut out, index.runs.as_slice())?;
    Ok(out)
}
