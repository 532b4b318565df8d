ghost use Rattle.std.specs.Prelude.{◌≡◌};
ghost use Rattle.pif_script_model.specs.Lines.{is_passed, without_mark};
ghost use Rattle.pif_history_text.specs.Lines.{text_of_line};

use pif_text::without_return;

/// The most bytes of the text of a line.
pub const MOST_TEXT: usize = 120;

/// A text without a byte order mark at its front.
#[tactic(auto, unfolding(pif_script_model::specs::Lines::without_mark))]
fn without_mark(text: &[u8]) -> &[u8]
    ensures { result.now ≡ without_mark text.now }
{
    if text.starts_with(b"\xef\xbb\xbf") {
        &text[3..]
    } else {
        text
    }
}

/// The text of a line of this number: without the byte order mark at the front of a history, and without a CR at the
/// line's end.
#[tactic(auto, unfolding(crate::specs::Lines::text_of_line))]
pub fn text_of_line(number: u32, line: &[u8]) -> &[u8]
    ensures { result.now ≡ text_of_line number line.now }
{
    let text = without_return(line);
    if number == 1 {
        without_mark(text)
    } else {
        text
    }
}

/// Whether a text is empty or a comment.
pub fn is_passed(text: &[u8]) -> bool
    ensures { result ≡ is_passed text.now }
{
    match text {
        [] => true,
        [first, ..] => *first == b'#',
    }
}
