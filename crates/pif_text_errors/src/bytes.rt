ghost use Rattle.std.specs.Prelude.{◌≤◌, length, IfSome};
ghost use Rattle.pif_text_errors.specs.SyntaxErrors.{IsIn};

use crate::syntax_errors::syntax_error_at;
use crate::{SyntaxError, Wrong};

/// The first place in a line that has a tab, or a space at an end of the line or behind another space.
fn wrong_blank(line: &[u8]) -> Option<usize>
    ensures { IfSome result (λ place. place ≤ length line.now) }
{
    let mut before = b' ';
    for (place, byte) in line.iter().enumerate() {
        let is_last = place + 1 == line.len();
        if *byte == b'\t' || (*byte == b' ' && (before == b' ' || is_last)) {
            return Some(place);
        }
        before = *byte;
    }
    None
}

/// The first place of a byte in a line.
pub fn place_of(line: &[u8], wanted: u8) -> Option<usize>
    ensures { IfSome result (λ place. place ≤ length line.now) }
{
    for (place, byte) in line.iter().enumerate() {
        if *byte == wanted {
            return Some(place);
        }
    }
    None
}

/// The syntax error of the bytes of a line, whatever its words are: a `#`, which is wrong in this way, and then a wrong
/// blank. Between words stands one space if `has_one_space`, and else at least one.
pub fn syntax_error_of_bytes(
    line: &[u8],
    comment: Wrong,
    has_one_space: bool,
) -> Option<SyntaxError>
    ensures { IfSome result (IsIn line.now) }
{
    if let Some(place) = place_of(line, b'#') {
        return Some(syntax_error_at(line, place, comment, None, None));
    }
    if has_one_space {
        let place = wrong_blank(line)?;
        Some(syntax_error_at(line, place, Wrong::Spaces, None, None))
    } else {
        let place = place_of(line, b'\t')?;
        Some(syntax_error_at(line, place, Wrong::Tab, None, None))
    }
}
