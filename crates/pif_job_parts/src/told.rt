ghost use Rattle.std.specs.Prelude.{◌≡◌, ◌++◌, IfOk, decimal, true};
ghost use Rattle.pif_job_parts.specs.Indexes.{file_name};
ghost use Rattle.pif_job_parts.specs.Told.{IsBy, IsTold, Stands, between, mark_of, told_text, word_text};

use pif_parts::{PartVerdict, Span};
use pif_text::append_decimal;
use std::alloc::{AllocError, Global};

/// A verdict.
#[derive(Clone, Copy, PartialEq, Eq)]
pub enum Word {
    /// `legal`
    Legal,
    /// `illegal`
    Illegal,
    /// `log`: a mistake of the log
    Log,
    /// `undecided`
    Undecided,
}

/// The front of the line that tells the verdict on a part.
#[derive(Clone, Copy, PartialEq, Eq)]
pub struct Told {
    /// The number of the part, from 1.
    pub part: u32,
    /// Whether a tab stands behind the name of its file.
    pub tab: bool,
    /// The verdict.
    pub word: Word,
    /// How many lines its file has, if it is legal; otherwise the number of the line that isn't, from 1.
    pub number: u32,
}

/// The word of a verdict, before the number of its line.
pub fn word_text(word: &Word) -> &'static [u8]
    ensures { result.now ≡ word_text word.now }
{
    match *word {
        Word::Legal => b"legal ",
        Word::Illegal => b"illegal at ",
        Word::Log => b"log ",
        Word::Undecided => b"undecided from ",
    }
}

/// What stands behind that number.
fn mark_of(word: &Word) -> &'static [u8]
    ensures { result.now ≡ mark_of word.now }
{
    match *word {
        Word::Legal => b",",
        Word::Illegal | Word::Log | Word::Undecided => b":",
    }
}

/// What stands behind the name of a file.
fn between(tab: bool) -> &'static [u8]
    ensures { result.now ≡ between tab }
{
    if tab { b"\t" } else { b": " }
}

/// The front of the line.
fn told_text(alloc: Global, told: &Told) -> Result<Vec<u8>, AllocError>
    ensures { IfOk result (λ text. text.items ≡ told_text told.now) }
{
    let mut out = Vec::new(alloc);
    out.extend_from_slice(b"part-")?;
    append_decimal(&mut out, u64::from(told.part))?;
    out.extend_from_slice(b".history")?;
    out.extend_from_slice(between(told.tab))?;
    out.extend_from_slice(word_text(&told.word))?;
    append_decimal(&mut out, u64::from(told.number))?;
    out.extend_from_slice(mark_of(&told.word))?;
    Ok(out)
}

/// Whether these bytes stand at this place of a text.
fn stands_at(text: &[u8], place: usize, bytes: &[u8]) -> bool
    ensures { result ≡ true → Stands text.now bytes.now }
{
    if place > text.len() {
        return false;
    }
    text[place..].starts_with(bytes)
}

/// Whether this is told at this place of a text.
fn is_told_at(alloc: Global, text: &[u8], place: usize, told: &Told) -> Result<bool, AllocError>
    ensures { IfOk result (λ told_there. told_there ≡ true → Stands text.now (told_text told.now)) }
{
    let front = told_text(alloc, told)?;
    Ok(stands_at(text, place, front.as_slice()))
}

/// The verdict on a part at this place, by what is told of it.
fn verdict_by(span: &Span, told: &Told) -> PartVerdict
    ensures { IsBy told.now span.now result }
{
    match told.word {
        Word::Legal => {
            match span.before.checked_add(span.count) {
                Some(lines) if told.number >= 1 && told.number as usize - 1 == lines => {
                    PartVerdict::Legal
                }
                _ => PartVerdict::Undecided,
            }
        }
        Word::Illegal | Word::Log if told.number >= 1 => {
            PartVerdict::Illegal(told.number as usize - 1)
        }
        Word::Illegal | Word::Log | Word::Undecided => PartVerdict::Undecided,
    }
}

/// The verdict on a part at this place, if this is told of it at a place of a text; undecided, if it isn't told there.
///
/// # Errors
///
/// Memory was refused.
#[tactic(auto, using(crate::proofs::ToldLemmas::told_by))]
pub fn verdict_at(
    alloc: Global,
    text: &[u8],
    place: usize,
    span: &Span,
    told: &Told,
) -> Result<PartVerdict, AllocError>
    ensures { IfOk result (IsTold text.now told.now.part span.now) }
{
    if is_told_at(alloc, text, place, told)? {
        Ok(verdict_by(span, told))
    } else {
        Ok(PartVerdict::Undecided)
    }
}
