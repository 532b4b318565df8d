ghost use Rattle.std.specs.Prelude.{◌≡◌, option_map};
ghost use Rattle.std.specs.List.{list_all};
ghost use Rattle.pif_story.specs.Names.{comment_of, is_name, is_name_byte, naming_in, thread_named};

use crate::commentless;
use pif_text::{split_first, thread_of, without_return};
use pif_types::Tid;

/// What stands in a line behind its first `#`, without a CR at its end.
pub fn comment_of(line: &[u8]) -> &[u8]
    ensures { result.now ≡ comment_of line.now }
{
    let text = without_return(line);
    let front = commentless(line).len();
    if front < text.len() {
        &text[front + 1..]
    } else {
        &text[text.len()..]
    }
}

/// Whether a byte may stand in a name.
#[tactic(auto, unfolding(crate::specs::Names::is_name_byte))]
fn is_name_byte(byte: u8) -> bool
    ensures { result ≡ is_name_byte byte }
{
    97 <= byte && byte <= 122
        || 65 <= byte && byte <= 90
        || 48 <= byte && byte <= 57
        || byte == b'_'
        || byte == b'-'
        || byte == b'.'
}

/// Whether a word has no byte that may not stand in a name.
fn are_name_bytes(word: &[u8]) -> bool
    ensures { result ≡ list_all is_name_byte word.now }
{
    word.iter().all(|byte| is_name_byte(*byte))
}

/// Whether a word may name a thread for a person: it has 1 to 24 bytes, each a letter, a digit, `_`, `-` or `.`.
#[tactic(auto, using(crate::proofs::NameLemmas::name_within, crate::proofs::NameLemmas::name_long, crate::proofs::NameLemmas::name_empty))]
fn is_name(word: &[u8]) -> bool
    ensures { result ≡ is_name word.now }
{
    if word.is_empty() || word.len() > 24 {
        false
    } else {
        are_name_bytes(word)
    }
}

/// The thread of a word `tN:`.
fn thread_named(word: &[u8]) -> Option<Tid>
    ensures { result ≡ thread_named word.now }
{
    let end = word.len();
    if 0 < end && word[end - 1] == b':' {
        thread_of(&word[..end - 1])
    } else {
        None
    }
}

/// What a text names that has one space between its words: a thread, and its name.
#[tactic(auto, unfolding(crate::specs::Names::naming_in), using(crate::proofs::NameLemmas::words_many))]
pub fn naming_of(text: &[u8]) -> Option<(Tid, &[u8])>
    ensures { option_map (λ naming. (naming.0, naming.1.now)) result ≡ naming_in text.now }
{
    let (first, rest) = split_first(text);
    let Some(rest) = rest else {
        return None;
    };
    let (second, more) = split_first(rest);
    if more.is_some() || !is_name(second) {
        return None;
    }
    match thread_named(first) {
        Some(thread) => Some((thread, second)),
        None => None,
    }
}
