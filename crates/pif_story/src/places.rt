//! Where in a line what isn't there is named.
ghost use Rattle.std.specs.Prelude.{◌≡◌, ◌+◌, ◌≤◌, ◌++◌, ◌&&◌, [], true, length, decimal};
ghost use Rattle.std.specs.Option.{option_map_or};
ghost use Rattle.arrayvec.specs.ArrayVec.{array_vec_len};
ghost use Rattle.pif_script_model.specs.Lines.{without_mark};
ghost use Rattle.pif_story.specs.Notes.{begins_with, column_from, column_of, ends_word, line_in, missing_word};

use crate::lines::is_blank;
use crate::missing::Missing;
use crate::{commentless, split_line, without_mark};
use pif_text::{Text, append, append_number};

/// The word of what is missing up to its number, and that, if it has one.
#[tactic(auto, unfolding(crate::specs::Notes::missing_word))]
fn named(missing: &Missing) -> (&'static [u8], Option<u32>)
    ensures word { missing_word missing.now ≡ result.0.now ++ option_map_or decimal result.1 [] }
    ensures len { length result.0.now + option_map_or (λ n. 10) result.1 0 ≤ 11 }
{
    match *missing {
        Missing::Thread(number) => (b"t", Some(number)),
        Missing::Mutex(number) => (b"m", Some(number)),
        Missing::Cond(number) => (b"c", Some(number)),
        Missing::Priority(number) | Missing::Time(number, _) => (b"", Some(number)),
        Missing::ThreadRoom(_) => (b"thread", None),
        Missing::MutexRoom(_) => (b"mutex", None),
        Missing::CondRoom(_) => (b"cond", None),
    }
}

/// The word in a command that is missing.
pub fn missing_word(missing: &Missing) -> Text
    ensures word { result.items ≡ missing_word missing.now }
    ensures len { array_vec_len result ≤ 11 }
{
    let (letters, number) = named(missing);
    let mut word = Text::new();
    append(&mut word, letters);
    if let Some(number) = number {
        append_number(&mut word, number);
    }
    word
}

/// Whether a text is at an end of a word.
fn ends_word(text: &[u8]) -> bool
    ensures { result ≡ ends_word text.now }
{
    match text {
        [] => true,
        [first, ..] => is_blank(*first),
    }
}

/// Whether a text begins with this word.
fn begins_with(word: &[u8], text: &[u8]) -> bool
    ensures { result ≡ begins_with word.now text.now }
{
    text.starts_with(word) && ends_word(&text[word.len()..])
}

/// Whether a word stands at the front of this text, if a word may begin there.
fn is_here(begins: bool, word: &[u8], text: &[u8]) -> bool
    ensures { result ≡ (begins && begins_with word.now text.now) }
{
    begins && begins_with(word, text)
}

/// The column of a word in a line, from 1; that behind the line if it has no such word.
fn column_in(word: &[u8], line: &[u8]) -> u64
    ensures { result ≡ column_from 1 true word.now line.now }
{
    let mut begins = true;
    for (place, byte) in line.iter().enumerate() {
        if is_here(begins, word, &line[place..]) {
            return place as u64 + 1;
        }
        begins = is_blank(*byte);
    }
    line.len() as u64 + 1
}

/// The line of this number in a text, from 1; an empty one if there is no such.
#[tactic(auto, using(crate::proofs::NoteLemmas::line_first, crate::proofs::NoteLemmas::line_later, crate::proofs::NoteLemmas::line_missing))]
fn line_in(text: &[u8], number: u64) -> &[u8]
    ensures { result.now ≡ line_in text.now number }
{
    let mut rest = Some(text);
    let mut before = number.saturating_sub(1);
    'lines: while let Some(left) = rest {
        let (line, behind) = split_line(left);
        if before == 0 {
            return line;
        }
        before -= 1;
        rest = behind;
    }
    b"".as_slice()
}

/// The column of what isn't there in a line, as it is written, from 1.
pub fn column_of(missing: &Missing, line: &[u8]) -> u64
    ensures { result ≡ column_of (missing_word missing.now) line.now }
{
    let word = missing_word(missing);
    column_in(word.as_slice(), commentless(line))
}

/// The line of this number in a story, as it is written, from 1; an empty one if there is no such.
pub fn line_of(story: &[u8], number: u64) -> &[u8]
    ensures { result.now ≡ line_in (without_mark story.now) number }
{
    line_in(without_mark(story), number)
}
