use crate::Wrong;
use crate::calls::Table;
use crate::forms::Part;
use crate::near::nearest_name;
use crate::tables::{LENDING, MODIFIERS, RESERVED, ROBUST};
use pif_text::{ERRORS, errno_named, number_behind, number_of};
use pif_text_model::CallKind;

/// What is wrong with a word where a name with this letter is wanted.
fn wrong_with_name(word: &[u8], letter: u8, part: Part) -> Option<Wrong> {
    let [first, digits @ ..] = word else {
        return Some(Wrong::Not(part));
    };
    let is_name = number_of(digits).is_some_and(|number| number > 0);
    let is_number = !digits.is_empty() && digits.iter().all(|digit| digit.is_ascii_digit());
    if *first == letter && is_name {
        None
    } else if *first == letter && is_number {
        Some(Wrong::NameNumber)
    } else if first.to_ascii_lowercase() == letter && is_name {
        Some(Wrong::Capitals)
    } else {
        Some(Wrong::Not(part))
    }
}

/// What is wrong with a word that is no name of this table; `other` if it would be none in small letters either.
pub fn wrong_with_word(word: &[u8], table: Table, other: Wrong) -> Wrong {
    match table.first_within(word, 0) {
        Some(_) => Wrong::Capitals,
        None => other,
    }
}

/// Whether a word is a number of this range.
fn is_between(word: &[u8], least: u32, most: u32) -> bool {
    number_of(word).is_some_and(|number| number >= least && number <= most)
}

/// The two numbers of a word as `1..300`.
fn bounds_of(word: &[u8]) -> Option<(u32, u32)> {
    let end = word.iter().position(|byte| *byte == b'.')?;
    let least = number_of(&word[..end])?;
    let most = number_of(word[end..].strip_prefix(b"..")?)?;
    Some((least, most))
}

/// Whether a word has bounds of `recursion`: a number from 256 on, or two that don't fall, as `1..300`. Those of the machine
/// itself, 255 for both, are none.
fn is_recursion(word: &[u8]) -> bool {
    match bounds_of(word) {
        Some((255, 255)) => false,
        Some((least, most)) => least > 0 && least <= most,
        None => is_between(word, 256, u32::MAX),
    }
}

/// Whether a word has the least and the greatest of some values of a cell, as `0..3`.
fn is_range(word: &[u8]) -> bool {
    bounds_of(word).is_some_and(|(least, most)| least <= most && most < 256)
}

/// Whether a word is an answer: a number, or the name of an error.
pub fn is_answer(word: &[u8]) -> bool {
    number_of(word).is_some() || errno_named(word).is_some()
}

/// Whether a word is the name of a cell.
pub fn is_cell(word: &[u8]) -> bool {
    number_behind(b'x', word).is_some_and(|number| number <= 64)
}

/// Whether a word says by itself how often a mutex is held.
fn is_count_word(word: &[u8]) -> bool {
    word == b"once".as_slice() || word == b"twice".as_slice()
}

/// Whether the form ends behind a word that is right where this part is wanted, though parts follow it.
pub fn ends_early(word: &[u8], part: Part) -> bool {
    match part {
        // Behind `none` a line ends.
        Part::Modifier => is_lending(word),
        // Behind a name, too.
        Part::ModifierOrName => !is_modifier(word),
        Part::LendingOrName => !is_lending(word),
        Part::PriorityOrLeast => word != b"least".as_slice(),
        Part::Count => is_count_word(word),
        _ => false,
    }
}

/// Whether a word is a number behind the letter of a name.
fn is_numbered(word: &[u8]) -> bool {
    [b't', b'm', b'c', b'x']
        .iter()
        .any(|letter| number_behind(*letter, word).is_some())
}

/// Whether a program may name something so.
fn is_new_name(word: &[u8]) -> bool {
    word.first()
        .is_some_and(|first| first.is_ascii_alphabetic())
        && !is_numbered(word)
        && !is_answer(word)
        && CallKind::named(word).is_none()
        && !RESERVED.iter().any(|reserved| word == reserved.as_bytes())
}

/// Whether a word is `none`.
fn is_lending(word: &[u8]) -> bool {
    word == b"none".as_slice()
}

/// Whether a word is `robust` or `none`.
fn is_modifier(word: &[u8]) -> bool {
    word == b"robust".as_slice() || is_lending(word)
}

/// Whether a word that is no name is what this part wants.
fn is_plain(word: &[u8], part: Part) -> bool {
    match part {
        Part::Number => number_of(word).is_some(),
        Part::Answer => is_answer(word),
        Part::Recursion => is_recursion(word),
        Part::Priority => is_between(word, 1, 99),
        Part::Cell => is_cell(word),
        Part::Value => is_between(word, 0, 255),
        Part::Processors => is_between(word, 1, 64),
        Part::Robust => word == b"robust".as_slice(),
        Part::Modifier => is_modifier(word),
        Part::Lending => is_lending(word),
        Part::Colon => word == b":".as_slice(),
        Part::Equals => word == b"=".as_slice(),
        Part::Operand => is_between(word, 0, 255) || is_cell(word),
        Part::Values => is_range(word),
        Part::By => word == b"by".as_slice(),
        Part::At => word == b"at".as_slice(),
        Part::For => word == b"for".as_slice(),
        Part::On => word == b"on".as_slice(),
        Part::PriorityOrLeast => is_between(word, 1, 99) || word == b"least".as_slice(),
        Part::Count => is_count_word(word) || number_of(word).is_some(),
        Part::Times => word == b"times".as_slice(),
        Part::WakeUp => word == b"wake-up".as_slice(),
        Part::Name => is_new_name(word),
        Part::NewCell => is_cell(word) || is_new_name(word),
        Part::ModifierOrName => is_modifier(word) || is_new_name(word),
        Part::LendingOrName => is_lending(word) || is_new_name(word),
        _ => false,
    }
}

/// What is wrong with a word that is no answer.
fn wrong_with_answer(word: &[u8]) -> Wrong {
    match word {
        [b'-', answer @ ..] if is_answer(answer) => Wrong::Signed,
        _ => Wrong::Not(Part::Answer),
    }
}

/// What is wrong with a word where this part is wanted, or `None` if it is right.
pub fn wrong_with_part(word: &[u8], part: Part) -> Option<Wrong> {
    match part {
        Part::Thread => wrong_with_name(word, b't', part),
        Part::Mutex => wrong_with_name(word, b'm', part),
        Part::Cond => wrong_with_name(word, b'c', part),
        _ if is_plain(word, part) => None,
        Part::Robust => Some(wrong_with_word(word, Table::of(&ROBUST), Wrong::Not(part))),
        Part::Modifier => Some(wrong_with_word(word, Table::of(&MODIFIERS), Wrong::Not(part))),
        Part::Lending => Some(wrong_with_word(word, Table::of(&LENDING), Wrong::Not(part))),
        Part::Answer => Some(wrong_with_answer(word)),
        _ => Some(Wrong::Not(part)),
    }
}

/// The right word that is nearest to one that is wrong where this part is wanted.
pub fn near_part(word: &[u8], part: Part) -> Option<&'static str> {
    match part {
        Part::Robust => nearest_name(word, ROBUST.as_slice()),
        Part::Modifier => nearest_name(word, MODIFIERS.as_slice()),
        Part::Lending => nearest_name(word, LENDING.as_slice()),
        Part::Answer => nearest_name(word, ERRORS.as_slice()),
        _ => None,
    }
}

/// The number of the name that a word is where this part is wanted.
pub fn number_named(word: &[u8], part: Part) -> Option<u32> {
    match part {
        Part::Thread => number_behind(b't', word),
        Part::Mutex => number_behind(b'm', word),
        Part::Cond => number_behind(b'c', word),
        _ => None,
    }
}
