ghost use Rattle.std.specs.Prelude.{◌≡◌, ◌≢◌, ◌<◌, ◌≤◌, ◌∷◌, ◌+◌, ℕ, length, slice_index, IfSome, option_copied, option_map};
ghost use Rattle.std.specs.Option.{option_map_or};
ghost use Rattle.pif_script_model.specs.Lines.{commentless, without_comment, without_mark, lines, lines_behind, is_blank, without_blanks, is_passed, row_in};

use pif_text::{split_answer, without_return};

/// A command of a story, and the answer that is written behind it, if there is one.
pub type LineAndReply<'a> = (&'a [u8], Option<&'a [u8]>);

/// A text without a byte order mark at its front.
#[tactic(auto, unfolding(pif_script_model::specs::Lines::without_mark))]
pub fn without_mark(text: &[u8]) -> &[u8]
    ensures text { result.now ≡ without_mark text.now }
    ensures shorter { length result.now ≤ length text.now }
{
    if text.starts_with(b"\xef\xbb\xbf") {
        &text[3..]
    } else {
        text
    }
}

/// The first place of a byte in a text, or the text's length if it has none.
fn first_of(text: &[u8], wanted: u8) -> usize
    ensures within { result ≤ length text.now }
    ensures before { (k : ℕ) → k < result → slice_index text.now k ≢ wanted }
    ensures found { result < length text.now → slice_index text.now result ≡ wanted }
{
    for (place, byte) in text.iter().enumerate() {
        if *byte == wanted {
            return place;
        }
    }
    text.len()
}

/// The first line of a text without its LF, and what stands behind that, or `None` if the line has no LF.
#[tactic(auto, using(pif_script_model::proofs::LinesLemmas::split_at_end, pif_script_model::proofs::LinesLemmas::split_nowhere))]
pub fn split_line(text: &[u8]) -> (&[u8], Option<&[u8]>)
    ensures split { lines text.now ≡ result.0.now ∷ lines_behind (option_copied result.1) }
    ensures shorter { IfSome result.1 (λ behind. length behind.now < length text.now) }
    ensures parts { length result.0.now + option_map_or (λ behind. length behind.now + 1) result.1 0 ≡ length text.now }
{
    let end = first_of(text, b'\n');
    if end < text.len() {
        (&text[..end], Some(&text[end + 1..]))
    } else {
        (text, None)
    }
}

/// What stands in a text before its first comment.
fn without_comment(text: &[u8]) -> &[u8]
    ensures text { result.now ≡ without_comment text.now }
    ensures shorter { length result.now ≤ length text.now }
{
    let end = first_of(text, b'#');
    &text[..end]
}

/// A line without a CR at its end, and without the comment before that.
pub fn commentless(line: &[u8]) -> &[u8]
    ensures text { result.now ≡ commentless line.now }
    ensures shorter { length result.now ≤ length line.now }
{
    without_comment(without_return(line))
}

/// Whether a byte is a space or a tab.
pub fn is_blank(byte: u8) -> bool
    ensures { result ≡ is_blank byte }
{
    byte == b' ' || byte == b'\t'
}

/// A text without the blanks at its end.
#[tactic(auto, using(pif_script_model::proofs::LinesLemmas::blanks_none, pif_script_model::proofs::LinesLemmas::blanks_step, pif_script_model::proofs::LinesLemmas::blanks_stop))]
pub fn without_blanks(text: &[u8]) -> &[u8]
    ensures text { result.now ≡ without_blanks text.now }
    ensures shorter { length result.now ≤ length text.now }
{
    for place in (0..text.len()).rev() {
        if !is_blank(text[place]) {
            return &text[..place + 1];
        }
    }
    &text[..0]
}

/// Whether a line is empty or a comment.
fn is_passed(text: &[u8]) -> bool
    ensures { result ≡ is_passed text.now }
{
    match text {
        [] => true,
        [first, ..] => *first == b'#',
    }
}

/// What a line with nothing but its words says: a command and the answer that is written behind it, if there is one;
/// `None` if the line is empty.
#[tactic(auto, unfolding(pif_script_model::specs::Lines::row_in))]
pub fn row_of(line: &[u8]) -> Option<LineAndReply<'_>>
    ensures { option_map (λ row. (row.0.now, option_copied row.1)) result ≡ row_in line.now }
{
    if is_passed(line) {
        return None;
    }
    match split_answer(line) {
        Some((command, written)) => Some((command, Some(written))),
        None => Some((line, None)),
    }
}

/// In which line of a text the byte stands that comes next, from 1.
#[tactic(auto, using(pif_script_model::proofs::LinesLemmas::count_lines))]
pub fn line_at_end(text: &[u8]) -> u64
    requires { length text.now ≤ 16777216 }
    ensures { result ≡ length (lines text.now) }
{
    let mut number = 1;
    for byte in text {
        if *byte == b'\n' {
            number += 1;
        }
    }
    number
}
