ghost use Rattle.std.specs.Prelude.{◌≡◌, ◌+◌, ◌≤◌, length, IfOk, IfErr};
ghost use Rattle.std.specs.Result.{result_ok};
ghost use Rattle.pif_text_model.specs.Commands.{command_in};
ghost use Rattle.pif_text_errors.specs.SyntaxErrors.{IsIn};

use crate::bytes::{place_of, syntax_error_of_bytes};
use crate::calls::{BEHIND_BEGIN, BEHIND_CALL, Table, calls};
use crate::forms::{Parts, Rest, Shape, form_of};
use crate::parts::{near_part, wrong_with_part, wrong_with_word};
use crate::syntax_errors::{end_of_word, syntax_error_at};
use crate::tables::{COMMANDS, KINDS};
use crate::{SyntaxError, Wrong};
use pif_text::{Command, command_of};

/// The syntax error of a word that is no name of a table, where one is wanted.
fn syntax_error_of_name<'a>(
    line: &'a [u8],
    place: usize,
    form: Option<Shape>,
    table: Table,
    other: Wrong,
) -> SyntaxError<'a>
    requires { place ≤ length line.now }
    ensures { IsIn line.now result }
{
    let word = &line[place..end_of_word(line, place)];
    let wrong = wrong_with_word(word, table, other);
    syntax_error_at(line, place, wrong, form, table.nearest(word))
}

/// The end of the parts that stand behind the word that ends at `end`, in a command of this form, or their first syntax
/// error.
fn end_of_parts<'a>(
    line: &'a [u8],
    end: usize,
    parts: Parts,
    form: Shape,
) -> Result<usize, SyntaxError<'a>>
    requires { end ≤ length line.now }
    ensures end { IfOk result (λ place. place ≤ length line.now) }
    ensures syntax_error { IfErr result (IsIn line.now) }
{
    let mut at = end;
    let mut parts = parts;
    for _ in 0..parts.count() {
        let Some((part, more)) = parts.split() else {
            return Ok(at);
        };
        if at == line.len() {
            return Err(syntax_error_at(line, at, Wrong::Missing, Some(form), None));
        }
        let place = at + 1;
        at = end_of_word(line, place);
        let word = &line[place..at];
        if let Some(wrong) = wrong_with_part(word, part) {
            return Err(syntax_error_at(line, place, wrong, Some(form), near_part(word, part)));
        }
        parts = more;
    }
    Ok(at)
}

/// The syntax error of a line whose words are right up to `end`, where the form ends: what stands behind that.
fn syntax_error_behind<'a>(line: &'a [u8], end: usize, form: Shape) -> SyntaxError<'a>
    requires { end ≤ length line.now }
    ensures { IsIn line.now result }
{
    let place = if end < line.len() { end + 1 } else { end };
    syntax_error_at(line, place, Wrong::TooMany, Some(form), None)
}

/// The syntax error behind the word that ends at `end` in a command of this form. A word of a table is wanted there,
/// and then the parts of its form, behind what stands before a call.
fn syntax_error_of_rest<'a>(
    line: &'a [u8],
    end: usize,
    form: Shape,
    table: Table,
    before: &'static str,
    other: Wrong,
) -> SyntaxError<'a>
    requires { end ≤ length line.now }
    ensures { IsIn line.now result }
{
    if end == line.len() {
        return syntax_error_at(line, end, Wrong::Missing, Some(form), None);
    }
    let place = end + 1;
    let end = end_of_word(line, place);
    let Some(found) = table.find(&line[place..end]) else {
        return syntax_error_of_name(line, place, Some(form), table, other);
    };
    let form = found.behind(before);
    match end_of_parts(line, end, found.parts, form) {
        Ok(end) => syntax_error_behind(line, end, form),
        Err(syntax_error) => syntax_error,
    }
}

/// The syntax error of the words of a line that is no command.
fn syntax_error_of_words(line: &[u8]) -> SyntaxError
    ensures { IsIn line.now result }
{
    let end = end_of_word(line, 0);
    let Some(found) = form_of(&line[..end], &COMMANDS) else {
        return syntax_error_of_name(line, 0, None, Table::of(&COMMANDS), Wrong::NoCommand);
    };
    let form = found.shape();
    let end = match end_of_parts(line, end, found.parts, form) {
        Ok(end) => end,
        Err(syntax_error) => return syntax_error,
    };
    match found.rest {
        Rest::Call => { syntax_error_of_rest(line, end, form, calls(), BEHIND_CALL, Wrong::NoCall) }
        Rest::Begin => {
            syntax_error_of_rest(line, end, form, calls(), BEHIND_BEGIN, Wrong::NoCall)
        }
        Rest::Kind => {
            syntax_error_of_rest(line, end, form, Table::of(&KINDS), "", Wrong::NoKind)
        }
        _ => syntax_error_behind(line, end, form),
    }
}

/// The command of a line, given as its bytes without the line feed, or why the line is none. Any bytes and any length
/// may be given, and nothing is changed. A line is a command here exactly if `pif_text` has one for it, and it is that
/// one. Of a line with several syntax errors the first of these is told: a `#`, a CR at the end, a wrong blank or a
/// tab, and then the words, from the left.
pub fn read_command(line: &[u8]) -> Result<Command, SyntaxError>
    ensures command { result_ok result ≡ command_in line.now }
    ensures syntax_error { IfErr result (IsIn line.now) }
{
    if let Some(command) = command_of(line) {
        return Ok(command);
    }
    if line.is_empty() {
        return Err(syntax_error_at(line, 0, Wrong::Empty, None, None));
    }
    if line.ends_with(b"\r") && place_of(line, b'#').is_none() {
        return Err(syntax_error_at(line, line.len() - 1, Wrong::CarriageReturn, None, None));
    }
    match syntax_error_of_bytes(line, Wrong::Comment, true) {
        Some(syntax_error) => Err(syntax_error),
        None => Err(syntax_error_of_words(line)),
    }
}
