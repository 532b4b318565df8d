ghost use Rattle.std.specs.Prelude.{◌≡◌, ◌∷◌, ◌++◌, ◌+◌, [], IfOk, IfSome, OnOk, Ok, Err, codes, decimal};
ghost use Rattle.pif_parts.specs.declared.joining.WholeVerdict.{WholeVerdict};
ghost use Rattle.pif_job_parts.specs.Joining.{ComeTo, IsAgainstAt, IsJoined, IsSaid, IsUndecidedAt, JoinsTo, WritesSaid, calls_text, legal_end, legal_text};
ghost use Rattle.pif_job_parts.specs.Indexes.{index_text};
ghost use Rattle.pif_job_parts.specs.Told.{AreTold, IsTold};

use crate::faults::{NO_MEMORY, PartsFault};
use crate::finding::{Found, all_found};
use crate::indexes::Index;
use crate::numbers::number_at;
use crate::reading::read_index;
use crate::told::{Word, verdict_at};
use pif_parts::{PartVerdict, Span, WholeVerdict, joined};
use pif_script::write_whole;
use pif_script_model::CliFault;
use pif_text::{append_decimal, before_feed};
use std::alloc::{AllocError, Global};
use std::io::Write;

/// What is told of a history, and how that ends.
#[derive(Drop)]
struct Said {
    /// What is written.
    text: Vec<u8>,
    /// How it ends.
    end: Result<(), PartsFault>,
}

/// Whether a verdict is that a part is legal.
fn is_legal(verdict: &PartVerdict) -> bool {
    matches!(*verdict, PartVerdict::Legal)
}

/// The verdict on the part of this number, from 0, if all before it are legal: what was found of it in the text. Of one
/// behind another part nothing is said.
fn verdict_next(
    alloc: Global,
    text: &[u8],
    span: &Span,
    number: usize,
    found: &Option<Found>,
    are_legal: bool,
) -> Result<PartVerdict, PartsFault>
    ensures { IfOk result (IsTold text.now (number + 1) span.now) }
{
    if !are_legal {
        return Ok(PartVerdict::Undecided);
    }
    let Some(found) = found else {
        return Err(PartsFault::Missing((number as u64).saturating_add(1)));
    };
    if found.told.part == 0 || found.told.part as usize - 1 != number {
        return Ok(PartVerdict::Undecided);
    }
    match verdict_at(alloc, text, found.place, span, &found.told) {
        Ok(verdict) => Ok(verdict),
        Err(_) => Err(NO_MEMORY),
    }
}

/// Adds a verdict.
fn push(verdicts: &mut Vec<PartVerdict>, verdict: PartVerdict) -> Result<(), PartsFault>
    ensures { OnOk result (verdicts.new.items ≡ verdicts.old.items ++ verdict ∷ []) }
{
    match verdicts.push(verdict) {
        Ok(()) => Ok(()),
        Err(_) => Err(NO_MEMORY),
    }
}

/// The verdicts on the parts at these places, by what was found of them in the text.
fn verdicts_in(
    alloc: Global,
    text: &[u8],
    spans: &[Span],
    all: &[Option<Found>],
) -> Result<Vec<PartVerdict>, PartsFault>
    ensures { IfOk result (λ verdicts. AreTold text.now 0 spans.now verdicts.items) }
{
    let mut verdicts = Vec::new(alloc);
    let mut are_legal = true;
    for number in 0..spans.len() {
        let found = if number < all.len() {
            all[number]
        } else {
            None
        };
        let span = &spans[number];
        let verdict = verdict_next(alloc, text, span, number, &found, are_legal)?;
        are_legal = is_legal(&verdict);
        push(&mut verdicts, verdict)?;
    }
    Ok(verdicts)
}

/// Appends how many calls a history begins.
fn push_calls(calls: u32, out: &mut Vec<u8>) -> Result<(), AllocError>
    ensures { OnOk result (out.new.items ≡ out.old.items ++ calls_text calls) }
{
    if calls == 0 {
        return out.extend_from_slice(b", with no call");
    }
    if calls == 1 {
        return out.extend_from_slice(b", 1 call");
    }
    out.extend_from_slice(b", ")?;
    append_decimal(out, u64::from(calls))?;
    out.extend_from_slice(b" calls")
}

/// What is told of a legal history.
fn legal_text(alloc: Global, lines: u32, calls: u32) -> Result<Vec<u8>, AllocError>
    ensures { IfOk result (λ text. text.items ≡ legal_text lines calls) }
{
    let mut out = Vec::new(alloc);
    out.extend_from_slice(b"legal ")?;
    append_decimal(&mut out, u64::from(lines))?;
    push_calls(calls, &mut out)?;
    out.extend_from_slice(b"\n")?;
    Ok(out)
}

/// How it ends for a legal history of so many calls.
fn legal_end(calls: u32) -> Result<(), PartsFault>
    ensures { result ≡ legal_end calls }
{
    if calls == 0 {
        Err(PartsFault::NoCall)
    } else {
        Ok(())
    }
}

/// The rest of the line from this place of a text on.
fn rest_of(text: &[u8], place: usize) -> &[u8] {
    let rest = &text[place.min(text.len())..];
    &rest[..before_feed(rest)]
}

/// A word, a number, the rest of a line, and LF.
fn line_at(alloc: Global, word: &[u8], number: u32, rest: &[u8]) -> Result<Vec<u8>, AllocError>
    ensures { IfOk result (λ text. text.items ≡ word.now ++ decimal number ++ (rest.now ++ codes "\n")) }
{
    let mut out = Vec::new(alloc);
    out.extend_from_slice(word)?;
    append_decimal(&mut out, u64::from(number))?;
    out.extend_from_slice(rest)?;
    out.extend_from_slice(b"\n")?;
    Ok(out)
}

/// The first of these verdicts that isn't that a part is legal.
fn first_found(all: &[Option<Found>]) -> Option<Found> {
    for found in all {
        if let Some(found) = found {
            if found.told.word != Word::Legal {
                return Some(*found);
            }
        }
    }
    None
}

/// What is told of a history of whose line of this number in the text something is told by this verdict on a part.
fn said_against(alloc: Global, text: &[u8], found: &Found, number: u32) -> Result<Said, AllocError>
    ensures { IfOk result (λ said. IsAgainstAt number said.text.items said.end) }
{
    let rest = rest_of(text, found.rest);
    if found.told.word == Word::Log {
        return Ok(Said {
            text: line_at(alloc, b"log ", number, rest)?,
            end: Err(PartsFault::Log(u64::from(number))),
        });
    }
    Ok(Said {
        text: line_at(alloc, b"illegal at ", number, rest)?,
        end: Err(PartsFault::Cli(CliFault::Differs(u64::from(number)))),
    })
}

/// What is told of a history of which it isn't known from the line of this number on whether it is legal, by this verdict
/// on a part.
fn said_open(alloc: Global, text: &[u8], found: &Found, number: u32) -> Result<Said, AllocError>
    ensures { IfOk result (λ said. IsUndecidedAt number said.text.items said.end) }
{
    let rest = rest_of(text, found.rest);
    Ok(Said {
        text: line_at(alloc, b"undecided from ", number, rest)?,
        end: Err(PartsFault::Undecided(u64::from(number))),
    })
}

/// The place, from 0, in the history of the line of a part that is told by this number: the first of the part if that is
/// a line that stands for others.
fn place_told(span: &Span, number: u32) -> usize {
    let line = (number as usize).saturating_sub(2);
    span.first.saturating_add(line.saturating_sub(span.before))
}

/// What is told of a history of whose part, from 0, it isn't known whether it is legal.
fn said_undecided(
    alloc: Global,
    index: &Index,
    text: &[u8],
    found: &Found,
    part: usize,
) -> Result<Said, PartsFault>
    ensures { IfOk result (λ said. IsSaid index.now (WholeVerdict.Undecided part) said.text.items said.end) }
{
    if part >= index.spans.len() {
        return Err(PartsFault::Missing((part as u64).saturating_add(1)));
    }
    let place = place_told(&index.spans[part], found.told.number);
    let Some(number) = number_at(index.runs.as_slice(), place) else {
        return Err(PartsFault::Index(1));
    };
    match said_open(alloc, text, found, number) {
        Ok(said) => Ok(said),
        Err(_) => Err(NO_MEMORY),
    }
}

/// What is told of a history whose line of this place, from 1, is the first up to which it isn't legal.
fn said_illegal(
    alloc: Global,
    index: &Index,
    text: &[u8],
    found: &Found,
    line: usize,
) -> Result<Said, PartsFault>
    ensures { IfOk result (λ said. IsSaid index.now (WholeVerdict.Illegal line) said.text.items said.end) }
{
    if line == 0 {
        return Err(PartsFault::Index(1));
    }
    let Some(number) = number_at(index.runs.as_slice(), line - 1) else {
        return Err(PartsFault::Index(1));
    };
    match said_against(alloc, text, found, number) {
        Ok(said) => Ok(said),
        Err(_) => Err(NO_MEMORY),
    }
}

/// What is told of a legal history.
fn said_legal(alloc: Global, index: &Index) -> Result<Said, PartsFault>
    ensures { IfOk result (λ said. IsSaid index.now WholeVerdict.Legal said.text.items said.end) }
{
    match legal_text(alloc, index.lines, index.calls) {
        Ok(text) => Ok(Said {
            text,
            end: legal_end(index.calls),
        }),
        Err(_) => Err(NO_MEMORY),
    }
}

/// What is told of a history by the verdict on it, and by what was found in the text of its parts.
fn said_of(
    alloc: Global,
    index: &Index,
    text: &[u8],
    all: &[Option<Found>],
    verdict: &WholeVerdict,
) -> Result<Said, PartsFault>
    ensures { IfOk result (λ said. IsSaid index.now verdict.now said.text.items said.end) }
{
    match (*verdict, first_found(all)) {
        (WholeVerdict::Legal, _) => said_legal(alloc, index),
        (WholeVerdict::Illegal(line), Some(found)) => {
            said_illegal(alloc, index, text, &found, line)
        }
        (WholeVerdict::Undecided(part), Some(found)) => {
            said_undecided(alloc, index, text, &found, part)
        }
        (WholeVerdict::Illegal(_), None) => Err(PartsFault::Index(1)),
        (WholeVerdict::Undecided(part) | WholeVerdict::Foreign(part), _) => {
            Err(PartsFault::Missing((part as u64).saturating_add(1)))
        }
    }
}

/// What is told of a history by the index of its parts, and by the text of the verdicts on them.
fn said_by(alloc: Global, index: &Index, text: &[u8]) -> Result<Said, PartsFault>
    ensures { IfOk result (λ said. IsJoined index.now text.now said.text.items said.end) }
{
    let all = all_found(alloc, index.spans.as_slice(), text)?;
    let verdicts = verdicts_in(alloc, text, index.spans.as_slice(), all.as_slice())?;
    let verdict = joined(index.spans.as_slice(), verdicts.as_slice());
    said_of(alloc, index, text, all.as_slice(), &verdict)
}

/// Writes what is told, and ends so.
fn write_said<W: Write>(said: &Said, writer: &mut W) -> Result<(), PartsFault>
    ensures { WritesSaid (W.contents writer.old) (W.contents writer.new) said.now.text.items said.now.end result }
{
    match write_whole(writer, said.text.as_slice()) {
        Ok(()) => said.end,
        Err(fault) => Err(PartsFault::Cli(fault)),
    }
}

/// Writes what these verdicts come to, which are on the parts of this index.
fn join_by<W: Write>(
    alloc: Global,
    text: &[u8],
    index: &Index,
    verdicts: &[u8],
    writer: &mut W,
) -> Result<(), PartsFault>
    requires { text.now ≡ index_text index.now }
    ensures { JoinsTo text.now verdicts.now (W.contents writer.old) (W.contents writer.new) result }
{
    match said_by(alloc, index, verdicts) {
        Ok(said) => write_said(&said, writer),
        Err(fault) => Err(fault),
    }
}

/// Joins verdicts, as `pif judge` writes them of several files, on the parts of this index, in any order; and writes the
/// verdict on the history, by the numbers of its lines. A line counts that has the name of a part's file, without its
/// folder, and then `: ` or a tab before what is told. Of a part behind the first that isn't legal nothing is wanted.
///
/// # Errors
///
/// - `Index`: the text is no index; its first line at fault is named.
/// - `Foreign`: a line of the verdicts is on no such part, is another verdict than one before it, or says that the file
///   of a part has a fault. `Missing`: there is no verdict on a part. Then nothing is written.
/// - `Cli` with `Differs`, `Log`, `Undecided` and `NoCall`: the history isn't legal, or that isn't known; this is
///   written.
/// - `Cli` with `Write` and `NoMemory`.
pub fn join<W: Write>(
    alloc: Global,
    index: &[u8],
    verdicts: &[u8],
    writer: &mut W,
) -> Result<(), PartsFault>
    ensures { JoinsTo index.now verdicts.now (W.contents writer.old) (W.contents writer.new) result }
{
    match read_index(alloc, index) {
        Ok(read) => join_by(alloc, index, &read, verdicts, writer),
        Err(fault) => Err(fault),
    }
}
