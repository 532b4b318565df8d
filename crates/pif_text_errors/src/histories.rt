ghost use Rattle.std.specs.Prelude.{◌≤◌, length, IfSome};
ghost use Rattle.pif_text_errors.specs.SyntaxErrors.{IsIn};

use crate::bytes::syntax_error_of_bytes;
use crate::calls::Table;
use crate::forms::{Form, form_of};
use crate::given::GivenNames;
use crate::lines::{Added, LineSoFar};
use crate::marks::word_from;
use crate::parts::wrong_with_word;
use crate::syntax_errors::syntax_error_at;
use crate::tables::HISTORY;
use crate::{Misplaced, SyntaxError, Wrong};

/// The syntax error of a line whose first word begins none of these forms.
pub fn syntax_error_of_front<'a>(
    line: &'a [u8],
    forms: &'static [Form],
    other: Wrong,
) -> SyntaxError<'a>
    ensures { IsIn line.now result }
{
    let spot = word_from(line, 0);
    let word = &line[spot.start..spot.end];
    let table = Table::of(forms);
    let wrong = wrong_with_word(word, table, other);
    syntax_error_at(line, spot.start, wrong, None, table.nearest(word))
}

/// The first syntax error of the words of a line of this form, from this place on, or none. They may name what was
/// added.
pub fn syntax_error_of_form(
    line: &[u8],
    from: usize,
    form: Form,
    added: Added,
) -> Option<SyntaxError>
    ensures { IfSome result (IsIn line.now) }
{
    let mut read = LineSoFar::new(form, added);
    syntax_error_of_words(line, from, &mut read, &GivenNames::nothing())
}

/// The first syntax error of the words of a line from this place on, or none. Some of them may be names.
pub fn syntax_error_of_words<'a>(
    line: &'a [u8],
    from: usize,
    read: &mut LineSoFar,
    names: &GivenNames,
) -> Option<SyntaxError<'a>>
    ensures { IfSome result (IsIn line.now) }
{
    let mut place = from;
    for _ in 0..line.len() {
        let spot = word_from(line, place);
        let word = &line[spot.start..spot.end];
        if word.is_empty() {
            break;
        }
        if let Err(slip) = read.take(names.meant(word)) {
            return Some(syntax_error_at(line, spot.start, slip.wrong, slip.form, slip.near));
        }
        place = spot.end;
    }
    match read.end() {
        Ok(()) => None,
        Err(slip) => Some(syntax_error_at(line, line.len(), slip.wrong, slip.form, slip.near)),
    }
}

/// Why a line that is right by itself has no place in a history.
fn misplaced(form: Form) -> Misplaced {
    match form.name {
        "limits" => Misplaced::Limits,
        "allow" => Misplaced::HistoryRules,
        _ => Misplaced::Other,
    }
}

/// Why a line of a history is a fault, given as its bytes without LF and CR, and without a byte order mark at the front
/// of the text. Any bytes and any length may be given. The first syntax error is told: a `#`, a wrong blank or a tab,
/// and then the words, from the left. If there is none, the line has no place where it stands.
pub fn history_error(line: &[u8]) -> SyntaxError
    ensures { IsIn line.now result }
{
    if let Some(syntax_error) = syntax_error_of_bytes(line, Wrong::CommentBehind, true) {
        return syntax_error;
    }
    let spot = word_from(line, 0);
    let Some(form) = form_of(&line[spot.start..spot.end], &HISTORY) else {
        return syntax_error_of_front(line, &HISTORY, Wrong::NoHistory);
    };
    match syntax_error_of_form(line, spot.end, form, Added::all()) {
        Some(syntax_error) => syntax_error,
        None => {
            let wrong = Wrong::Misplaced(misplaced(form));
            syntax_error_at(line, 0, wrong, None, None)
        }
    }
}
