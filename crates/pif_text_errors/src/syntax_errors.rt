ghost use Rattle.std.specs.Prelude.{◌≤◌, length};
ghost use Rattle.pif_text_errors.specs.SyntaxErrors.{IsIn};

use crate::Wrong;
use crate::calls::Table;
use crate::forms::Shape;
use crate::near::Named;
use pif_text_model::CallKind;
use std::fmt;
use std::str::from_utf8;

/// The first syntax error of a line that is no command. As a text it is what is wrong, the nearest word, or else what
/// is allowed in its place, and the form that is wanted, as far as there are such. A name that nobody has is told
/// behind what is wrong.
#[derive(Clone, Copy)]
pub struct SyntaxError<'a> {
    /// What is wrong.
    pub wrong: Wrong,
    /// The column where it is wrong: that of the byte, from 1. One more than the line has bytes, if the line ends too
    /// early.
    pub column: usize,
    /// What stands there, up to the next space or the end of the line; nothing, if a space stands there. A tab is a
    /// part of it.
    pub word: &'a [u8],
    /// The form of the command that the line has begun, if that is known.
    pub form: Option<Shape>,
    /// The right word that is nearest, if one is near.
    pub near: Option<&'static str>,
}

/// The place behind the word that begins here: that of the next space, or the line's length.
pub fn end_of_word(line: &[u8], place: usize) -> usize
    requires { place ≤ length line.now }
    ensures behind { place ≤ result }
    ensures within { result ≤ length line.now }
{
    for (count, byte) in line[place..].iter().enumerate() {
        if *byte == b' ' {
            return place + count;
        }
    }
    line.len()
}

/// The syntax error at a place of a line, which is counted from 0, in a command of this form.
pub fn syntax_error_at<'a>(
    line: &'a [u8],
    place: usize,
    wrong: Wrong,
    form: Option<Shape>,
    near: Option<&'static str>,
) -> SyntaxError<'a>
    requires { place ≤ length line.now }
    ensures { IsIn line.now result }
{
    let end = end_of_word(line, place);
    SyntaxError {
        wrong,
        column: place + 1,
        word: &line[place..end],
        form,
        near,
    }
}

/// Writes these texts, one behind the other.
fn write_all<W: fmt::Write>(texts: &[&str], f: &mut fmt::Formatter<W>) -> fmt::Result {
    for text in texts {
        f.write_str(text)?;
    }
    Ok(())
}

/// Writes these names, the first behind `before`, and the others behind a comma. Answers what stands before one more.
fn write_each<N: Named, W: fmt::Write>(
    names: &[N],
    before: &'static str,
    f: &mut fmt::Formatter<W>,
) -> Result<&'static str, fmt::Error> {
    let mut before = before;
    for named in names {
        write_all(&[before, named.name()], f)?;
        before = ", ";
    }
    Ok(before)
}

/// Writes the words of a table, in brackets, if it has any.
fn write_names<W: fmt::Write>(table: Table, f: &mut fmt::Formatter<W>) -> fmt::Result {
    let before = write_each(table.calls, " (", f)?;
    write_each(table.forms, before, f)?;
    if table.calls.is_empty() && table.forms.is_empty() {
        Ok(())
    } else {
        f.write_str(")")
    }
}

/// Writes how the call is written that this word begins, behind what stands before a call.
fn write_call<W: fmt::Write>(
    word: &[u8],
    before: &'static str,
    f: &mut fmt::Formatter<W>,
) -> fmt::Result {
    match CallKind::named(word) {
        Some(call) => write_all(&["; calls are written '", before, call.row().form, "'"], f),
        None => Ok(()),
    }
}

/// The name at the front of a text, which ends before the first byte that is no letter or digit.
fn name_in(text: &[u8]) -> &str {
    let end = text.iter().position(|byte| !byte.is_ascii_alphanumeric());
    from_utf8(&text[..end.unwrap_or(text.len())]).unwrap_or("")
}

impl SyntaxError<'_> {
    /// Writes the name that nobody has, if that is what is wrong.
    fn write_missing<W: fmt::Write>(&self, f: &mut fmt::Formatter<W>) -> fmt::Result {
        match self.wrong {
            Wrong::NotAdded(_) => write_all(&[" ", name_in(self.word)], f),
            _ => Ok(()),
        }
    }

    /// Writes what is allowed in place of the wrong word.
    fn write_allowed<W: fmt::Write>(&self, f: &mut fmt::Formatter<W>) -> fmt::Result {
        if let Some(before) = self.wrong.before_call() {
            write_call(self.word, before, f)?;
        }
        write_names(self.wrong.allowed(), f)
    }
}

impl fmt::Display for SyntaxError<'_> {
    fn fmt<W: fmt::Write>(&self, f: &mut fmt::Formatter<W>) -> fmt::Result {
        f.write_str(self.wrong.words())?;
        self.write_missing(f)?;
        match self.near {
            Some(near) => write_all(&[", perhaps '", near, "'"], f)?,
            None => self.write_allowed(f)?,
        }
        match self.form {
            Some(form) => write_all(&[", in '", form.front, form.text, "'"], f),
            None => Ok(()),
        }
    }
}
