use crate::faults::{NO_MEMORY, PartsFault};
use crate::told::{Told, Word, word_text};
use pif_parts::Span;
use pif_text::{before_feed, number_of};
use std::alloc::Global;

/// What is told of a part, and where.
#[derive(Clone, Copy)]
pub struct Found {
    /// What is told.
    pub told: Told,
    /// Where the name of the part's file stands in the text.
    pub place: usize,
    /// Where that stands which is told behind the number of the line, and its mark.
    pub rest: usize,
}

/// The number between a word and a mark, at the front of a text; and where the mark stands.
fn number_between(text: &[u8], word: &[u8], mark: u8) -> Option<(u32, usize)> {
    if !text.starts_with(word) {
        return None;
    }
    let digits = &text[word.len()..];
    let end = digits.iter().position(|byte| *byte == mark)?;
    Some((number_of(&digits[..end])?, word.len() + end))
}

/// What stands at this place of a text, and behind it.
fn from(text: &[u8], place: usize) -> &[u8] {
    &text[place.min(text.len())..]
}

/// The verdict at the front of a text, its number, and where its mark stands.
fn verdict_in(text: &[u8]) -> Option<(Word, u32, usize)> {
    if let Some((_, behind)) = number_between(text, b"legal up to ", b';') {
        let (word, number, end) = undecided_in(from(text, behind))?;
        return Some((word, number, behind.saturating_add(end)));
    }
    if let Some((number, end)) = number_between(text, word_text(&Word::Legal), b',') {
        return Some((Word::Legal, number, end));
    }
    if let Some((number, end)) = number_between(text, word_text(&Word::Illegal), b':') {
        return Some((Word::Illegal, number, end));
    }
    if let Some((number, end)) = number_between(text, word_text(&Word::Log), b':') {
        return Some((Word::Log, number, end));
    }
    let (number, end) = number_between(text, word_text(&Word::Undecided), b':')?;
    Some((Word::Undecided, number, end))
}

/// The same of what stands behind `legal up to K`.
fn undecided_in(text: &[u8]) -> Option<(Word, u32, usize)> {
    let (number, end) = number_between(text, b"; undecided from ", b':')?;
    Some((Word::Undecided, number, end))
}

/// What a line of verdicts tells.
#[derive(Clone, Copy)]
enum Heard {
    /// Nothing that counts.
    Nothing,
    /// The file of a part has a fault.
    Fault,
    /// A verdict on a part.
    Verdict(Found),
}

/// The part whose file's name stands at the front of a text; whether a tab stands behind it; and where what is told of it
/// begins.
fn part_in(text: &[u8]) -> Option<(u32, bool, usize)> {
    let (part, end) = number_between(text, b"part-", b'.')?;
    let rest = from(text, end);
    if rest.starts_with(b".history: ") {
        Some((part, false, end.saturating_add(10)))
    } else if rest.starts_with(b".history\t") {
        Some((part, true, end.saturating_add(9)))
    } else {
        None
    }
}

/// What a line tells whose first part's name stands at this place of it, before all that is told of that part. The line
/// itself stands at another place of the text.
fn told_behind(line: &[u8], start: usize, place: usize) -> Option<Heard> {
    let (part, tab, begin) = part_in(from(line, place))?;
    let told = from(line, place.saturating_add(begin));
    match verdict_in(told) {
        Some((word, number, end)) => Some(Heard::Verdict(Found {
            told: Told {
                part,
                tab,
                word,
                number,
            },
            place: start.saturating_add(place),
            rest: start
                .saturating_add(place)
                .saturating_add(begin)
                .saturating_add(end),
        })),
        None if told.starts_with(b"fault ") => Some(Heard::Fault),
        None => Some(Heard::Nothing),
    }
}

/// What a line tells that stands at this place of the text.
fn heard_in(line: &[u8], start: usize) -> Heard {
    for place in 0..line.len() {
        if let Some(heard) = told_behind(line, start, place) {
            return heard;
        }
    }
    Heard::Nothing
}

/// Whether this can be told of a part at this place. In its file stands one line more, before all others: the limits.
fn is_of_part(span: &Span, told: &Told) -> bool {
    let number = told.number as usize;
    let last = span.before.saturating_add(span.count).saturating_add(1);
    match told.word {
        Word::Legal => number == last,
        Word::Illegal | Word::Log => number > span.before.saturating_add(1) && number <= last,
        Word::Undecided => 1 < number && number <= last,
    }
}

/// Whether two verdicts on a part are the same, or one of them is that it isn't decided.
fn agree(one: &Told, other: &Told) -> bool {
    if one.word == Word::Undecided || other.word == Word::Undecided {
        return true;
    }
    one.word == other.word && one.number == other.number
}

/// Takes a verdict. Answers whether it is one on a part that there is, and agrees with what was told of it before.
fn take(spans: &[Span], all: &mut [Option<Found>], found: &Found) -> bool {
    let place = (found.told.part as usize).wrapping_sub(1);
    if place >= spans.len() || place >= all.len() || !is_of_part(&spans[place], &found.told) {
        return false;
    }
    let before = all[place];
    if let Some(old) = before {
        if !agree(&old.told, &found.told) {
            return false;
        }
        if found.told.word == Word::Undecided {
            return true;
        }
    }
    all[place] = Some(*found);
    true
}

/// Nothing was found of so many parts.
fn nothing_found(alloc: Global, count: usize) -> Result<Vec<Option<Found>>, PartsFault> {
    let mut all = Vec::new(alloc);
    for _ in 0..count {
        match all.push(None) {
            Ok(()) => {}
            Err(_) => return Err(NO_MEMORY),
        }
    }
    Ok(all)
}

/// What a text tells of each of these parts, in any order: the verdict on it, if there is one. Of several the first that
/// is decided counts.
///
/// # Errors
///
/// `Foreign`, with the first line that tells a verdict on no such part, or another than before, and `NoMemory`.
pub fn all_found(
    alloc: Global,
    spans: &[Span],
    text: &[u8],
) -> Result<Vec<Option<Found>>, PartsFault> {
    let mut all = nothing_found(alloc, spans.len())?;
    let mut start = 0;
    let mut number = 1_u64;
    while start < text.len() {
        let end = start + before_feed(&text[start..]);
        let is_taken = match heard_in(&text[start..end], start) {
            Heard::Nothing => true,
            Heard::Fault => false,
            Heard::Verdict(found) => take(spans, all.as_mut_slice(), &found),
        };
        if !is_taken {
            return Err(PartsFault::Foreign(number));
        }
        start = end + 1;
        number = number.saturating_add(1);
    }
    Ok(all)
}
