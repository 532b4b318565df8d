ghost use Rattle.pif_text_errors.specs.SyntaxErrors.{IsIn};

use crate::bytes::syntax_error_of_bytes;
use crate::forms::{Form, form_of};
use crate::given::GivenNames;
use crate::histories::{syntax_error_of_front, syntax_error_of_words};
use crate::lines::{Added, LineSoFar};
use crate::marks::word_from;
use crate::places::without_mark;
use crate::syntax_errors::syntax_error_at;
use crate::tables::PROGRAM;
use crate::{Misplaced, SyntaxError, Wrong};
use pif_text::Cause;

/// What the lines before another one come to.
#[derive(Drop)]
struct Before<'p> {
    /// What they add.
    added: Added,
    /// The names that they give.
    names: GivenNames<'p>,
    /// The program whose block is open, if one is.
    program: Option<LineSoFar>,
}

impl<'p> Before<'p> {
    /// Takes a line, which is right.
    fn take(&mut self, line: &'p [u8]) {
        if line.starts_with(b"#") {
            return;
        }
        let spot = word_from(line, 0);
        let mut from = spot.start;
        let mut program = match self.program.take() {
            Some(program) => program,
            None => {
                self.added.count(line);
                self.names.take(line);
                let Some(form) = form_of(&line[spot.start..spot.end], &PROGRAM) else {
                    return;
                };
                from = spot.end;
                LineSoFar::new(form, self.added)
            }
        };
        let _ = syntax_error_of_words(line, from, &mut program, &self.names);
        if program.is_open() {
            program.begin_line();
            self.program = Some(program);
        }
    }
}

/// What the lines before the one of this number come to, which is counted from 1, in a program whose lines so far are
/// right.
fn lines_before<'p>(program: &'p [u8], number: u64) -> Before<'p> {
    let mut all = Before {
        added: Added::nothing(),
        names: GivenNames::nothing(),
        program: None,
    };
    let mut line = 1_u64;
    for written in without_mark(program).split(|byte| *byte == b'\n') {
        if line >= number {
            break;
        }
        line = line.saturating_add(1);
        all.take(written);
    }
    all
}

/// Why a line in a block that is open is a fault.
fn inner_error<'a>(line: &'a [u8], program: &mut LineSoFar, names: &GivenNames) -> SyntaxError<'a>
    ensures { IsIn line.now result }
{
    if let Some(syntax_error) = syntax_error_of_bytes(line, Wrong::CommentBehind, false) {
        return syntax_error;
    }
    match syntax_error_of_words(line, 0, program, names) {
        Some(syntax_error) => syntax_error,
        None => syntax_error_at(line, line.len(), Wrong::OpenBlock, None, None),
    }
}

/// Why a line of this form, which is right by itself, is a fault of this cause.
fn misplaced(form: Form, cause: Cause) -> Wrong {
    let why = match (form.name, cause) {
        ("limits", Cause::Limits) => return Wrong::Limits,
        ("limits", _) => Misplaced::Limits,
        ("allow", _) => Misplaced::ProgramRules,
        ("thread" | "mutex" | "cond", Cause::Limits) => Misplaced::NoRoom,
        ("thread" | "mutex" | "cond" | "cell", _) => Misplaced::Addition,
        ("ends" | "ticks", _) => Misplaced::Second,
        ("delay", _) => Misplaced::Unscheduled,
        _ => Misplaced::Other,
    };
    Wrong::Misplaced(why)
}

/// Why the line of this number, from 1, is a fault of this cause in a program that is explored, whose lines before it
/// are right. In a block that is open its words are statements. The line is given as its bytes without LF and CR, and
/// without a byte order mark at the front of the program. Any bytes and any length may be given. The first syntax error
/// is told: a `#`, a wrong blank or a tab, and then the words, from the left. If there is none, the line has no place
/// where it stands.
pub fn program_error<'a>(
    program: &[u8],
    number: u64,
    line: &'a [u8],
    cause: Cause,
) -> SyntaxError<'a>
    ensures { IsIn line.now result }
{
    let Before {
        added,
        names,
        program: open,
    } = lines_before(program, number);
    if let Some(mut open) = open {
        return inner_error(line, &mut open, &names);
    }
    let spot = word_from(line, 0);
    let word = &line[spot.start..spot.end];
    // The words of limits and rules are separated as those of histories are.
    let has_one_space = word == b"limits".as_slice() || word == b"allow".as_slice();
    if let Some(syntax_error) = syntax_error_of_bytes(line, Wrong::CommentBehind, has_one_space) {
        return syntax_error;
    }
    let Some(form) = form_of(word, &PROGRAM) else {
        return syntax_error_of_front(line, &PROGRAM, Wrong::NoProgram);
    };
    let mut read = LineSoFar::new(form, added);
    match syntax_error_of_words(line, spot.end, &mut read, &names) {
        Some(syntax_error) => syntax_error,
        None if read.is_open() => {
            syntax_error_at(line, line.len(), Wrong::OpenBlock, None, None)
        }
        None => syntax_error_at(line, 0, misplaced(form, cause), None, None),
    }
}
