ghost use Rattle.std.specs.Prelude.{◌≡◌, ◌∷◌, ◌++◌, ◌+◌, ◌≤◌, [], Err, IfErr, IfOk, Ok, OnOk, codes, drop, false, flat_map, map, take, true};
ghost use Rattle.pif_text_model.specs.CommandTexts.{command_text};
ghost use Rattle.pif_history_text.specs.Histories.{Heard, limits_of};
ghost use Rattle.pif_history_text.specs.Reading.{IsPaired, ReadsHistory, heard_of};
ghost use Rattle.pif_history_text.specs.Texts.{line_text};
ghost use Rattle.pif_parts.specs.Parts.{ArePartsOf, span_of};
ghost use Rattle.pif_job_parts.specs.Splitting.{HasNoRules, IsIndexOf, IsSplit, SplitsTo, lines_text, part_text};

use crate::faults::{NO_MEMORY, PartsFault, fault_of};
use crate::indexes::{Index, index_text};
use crate::numbers::runs_of;
use pif_history_model::{Fact, HistoryLimits, Line, Protocol};
use pif_history_text::{History, line_text, read_history};
use pif_parts::{Part, Span, parts_of};
use pif_rules::is_any;
use pif_rules_model::Rules;
use pif_text::{Command, Text, append, command_text};
use pif_types::Request;
use std::alloc::{AllocError, Global};
use std::io::Read;

/// The parts of a history as texts, in order, and their index.
#[derive(Drop)]
pub struct Parts {
    /// The text of each part, which is a history.
    pub texts: Vec<Vec<u8>>,
    /// The text of the index.
    pub index: Vec<u8>,
}

/// Appends a line of a history, and LF.
fn push_line(out: &mut Vec<u8>, line: &Line) -> Result<(), AllocError>
    ensures { OnOk result (out.new.items ≡ out.old.items ++ (line_text line.now ++ codes "\n")) }
{
    let _no_request: Option<Request> = None;
    let _no_fact: Option<Fact> = None;
    let mut text = Text::new();
    line_text(*line, &mut text);
    append(&mut text, b"\n");
    out.extend_from_slice(text.as_slice())
}

/// Appends lines of a history.
fn push_lines(out: &mut Vec<u8>, lines: &[Line]) -> Result<(), AllocError>
    ensures { OnOk result (out.new.items ≡ out.old.items ++ lines_text lines.now) }
{
    let _no_request: Option<Request> = None;
    let _no_fact: Option<Fact> = None;
    for line in lines {
        push_line(out, line)?;
    }
    Ok(())
}

/// Appends the line of limits.
fn push_limits(out: &mut Vec<u8>, limits: HistoryLimits) -> Result<(), AllocError>
    ensures { OnOk result (out.new.items ≡ out.old.items ++ (command_text (Command.Limits limits.threads limits.mutexes limits.conds limits.signals) ++ codes "\n")) }
{
    let mut text = Text::new();
    let command = Command::Limits(limits.threads, limits.mutexes, limits.conds, limits.signals);
    command_text(command, &mut text);
    append(&mut text, b"\n");
    out.extend_from_slice(text.as_slice())
}

/// The text of a part.
fn part_text(
    alloc: Global,
    limits: HistoryLimits,
    lines: &[Line],
    part: &Part,
) -> Result<Vec<u8>, AllocError>
    ensures { IfOk result (λ text. text.items ≡ part_text limits lines.now part.now) }
{
    let _no_request: Option<Request> = None;
    let _no_fact: Option<Fact> = None;
    let mut out = Vec::new(alloc);
    push_limits(&mut out, limits)?;
    push_lines(&mut out, part.before.as_slice())?;
    let rest = &lines[part.first.min(lines.len())..];
    push_lines(&mut out, &rest[..part.count.min(rest.len())])?;
    Ok(out)
}

/// The texts of parts.
fn texts_of(
    alloc: Global,
    limits: HistoryLimits,
    lines: &[Line],
    parts: &[Part],
) -> Result<Vec<Vec<u8>>, AllocError>
    ensures { IfOk result (λ texts. map (λ text. text.items) texts.items ≡ map (part_text limits lines.now) parts.now) }
{
    let _no_request: Option<Request> = None;
    let _no_fact: Option<Fact> = None;
    let mut texts = Vec::new(alloc);
    for part in parts {
        texts.push(part_text(alloc, limits, lines, part)?)?;
    }
    Ok(texts)
}

/// The place of a part.
fn span_of(part: &Part) -> Span
    ensures { result ≡ span_of part.now }
{
    Span {
        first: part.first,
        count: part.count,
        before: part.before.len(),
    }
}

/// The places of parts.
fn spans_of(alloc: Global, parts: &[Part]) -> Result<Vec<Span>, AllocError>
    ensures { IfOk result (λ spans. spans.items ≡ map span_of parts.now) }
{
    let _no_request: Option<Request> = None;
    let _no_fact: Option<Fact> = None;
    let mut spans = Vec::new(alloc);
    for part in parts {
        spans.push(span_of(part))?;
    }
    Ok(spans)
}

/// How many of these lines begin a call.
fn calls_in(lines: &[Line]) -> u32 {
    let _no_fact: Option<Fact> = None;
    let mut count = 0_u32;
    for line in lines {
        if let Line::Begin(_, _) = *line {
            count = count.saturating_add(1);
        }
    }
    count
}

/// The text of the index of these parts of a history.
fn index_of(alloc: Global, history: &History, parts: &[Part]) -> Result<Vec<u8>, AllocError>
    ensures { IfOk result (λ text. IsIndexOf (heard_of history.now) parts.now text.items) }
{
    let _no_request: Option<Request> = None;
    let _no_fact: Option<Fact> = None;
    let spans = spans_of(alloc, parts)?;
    let runs = runs_of(alloc, history.numbers.as_slice())?;
    let index = Index {
        lines: history.count,
        calls: calls_in(history.shown.as_slice()),
        spans,
        runs,
    };
    let text = index_text(alloc, &index)?;
    Ok(text)
}

/// These parts of a history as texts, and their index.
fn written(alloc: Global, history: &History, parts: &[Part]) -> Result<Parts, AllocError>
    requires rules { HasNoRules history.now.allowed }
    requires parts { ArePartsOf (limits_of (heard_of history.now)) history.now.shown.items parts.now }
    ensures { IfOk result (λ written. IsSplit (heard_of history.now) written) }
{
    let _no_request: Option<Request> = None;
    let _no_fact: Option<Fact> = None;
    let texts = texts_of(alloc, history.limits(), history.shown.as_slice(), parts)?;
    let index = index_of(alloc, history, parts)?;
    Ok(Parts { texts, index })
}

/// Whether a line is one of those with which a history isn't cut.
fn keeps_together(line: &Line) -> bool {
    let _no_request: Option<Request> = None;
    let _no_fact: Option<Fact> = None;
    matches!(
        *line,
        Line::Mutex(_, _, Protocol::PrioNone)
            | Line::Process(_)
            | Line::Halted
            | Line::Resumed
            | Line::Asks(_, _)
    )
}

/// Why a history isn't cut that has rules, or lines that need some.
fn fault_in(history: &History) -> PartsFault {
    let _no_request: Option<Request> = None;
    let _no_fact: Option<Fact> = None;
    for place in 0..history.shown.len().min(history.numbers.len()) {
        if keeps_together(&history.shown[place]) {
            return PartsFault::Uncut(u64::from(history.numbers[place]));
        }
    }
    PartsFault::Rules
}

/// Whether there are no rules, no mutexes of PTHREAD_PRIO_NONE, and no lines `process`, `halted` and `resumed`.
fn has_no_rules(rules: &Rules) -> bool
    ensures { result ≡ true → HasNoRules rules.now }
{
    !is_any(rules) && !rules.prio_none && !rules.extra_lines
}

/// A history in parts.
fn split_history(alloc: Global, least: usize, history: &History) -> Result<Parts, PartsFault>
    ensures { IfOk result (IsSplit (heard_of history.now)) }
{
    let _no_request: Option<Request> = None;
    let _no_fact: Option<Fact> = None;
    if !has_no_rules(&history.allowed) {
        return Err(fault_in(history));
    }
    let parts = match parts_of(alloc, history.limits(), history.shown.as_slice(), least) {
        Ok(parts) => parts,
        Err(stop) => return Err(fault_of(stop)),
    };
    match written(alloc, history, parts.as_slice()) {
        Ok(parts) => Ok(parts),
        Err(_) => Err(NO_MEMORY),
    }
}

/// Reads a history, and cuts it where it is quiet: each part but the last has at least so many lines, and is a history
/// that stands alone. The index says which line of the history is which of a part.
///
/// # Errors
///
/// That of reading; `Rules` or `Uncut` if it allows rules, or has lines with which it isn't cut; `NoMemory`.
pub fn split<R: Read>(alloc: Global, least: usize, reader: &mut R) -> Result<Parts, PartsFault>
    ensures { SplitsTo (R.remaining reader.old) (R.remaining reader.new) result }
{
    match read_history(alloc, reader) {
        Ok(read) => split_history(alloc, least, &read.history),
        Err(fault) => Err(PartsFault::Cli(fault)),
    }
}
