ghost use Rattle.std.specs.Prelude.{◌≡◌, ◌++◌, ◌-◌, length, OnOk, IfOk, option_copied};
ghost use Rattle.pif_script_model.specs.Answers.{in_form};
ghost use Rattle.pif_script_model.specs.Filling.{answered_row, answers_behind, filled_line, filled_text, behind_words, form_from, form_or, next_answer, more_answers, width_from};
ghost use Rattle.pif_script_model.specs.Lines.{lines, lines_behind, plain_lines};

use crate::answers::{append_in_form, form_written};
use crate::lines::{commentless, row_of, split_line, without_blanks, without_mark};
use crate::parts::{Part, append_parts};
use crate::plain::append_plain;
use pif_script_model::Form;
use std::alloc::{AllocError, Global};

/// The length of the longest command of a story, of which nothing but its words is given.
#[tactic(auto, using(pif_script_model::proofs::FillingLemmas::width_from_nothing, pif_script_model::proofs::FillingLemmas::width_from_passed, pif_script_model::proofs::FillingLemmas::width_from_row))]
fn width_of(story: &[u8]) -> usize
    ensures { result ≡ width_from 0 (lines story.now) }
{
    let mut width = 0;
    let mut rest = Some(story);
    'lines: while let Some(text) = rest {
        let (line, behind) = split_line(text);
        rest = behind;
        if let Some((command, _)) = row_of(line) {
            width = width.max(command.len());
        }
    }
    width
}

/// The first form in which a story, of which nothing but its words is given, has the answer of an error; that by
/// numbers, if it has none.
#[tactic(auto, using(pif_script_model::proofs::FillingLemmas::form_from_nothing, pif_script_model::proofs::FillingLemmas::form_from_passed, pif_script_model::proofs::FillingLemmas::form_from_row))]
fn form_of(story: &[u8]) -> Form
    ensures { result ≡ form_from (lines story.now) }
{
    let mut rest = Some(story);
    'lines: while let Some(text) = rest {
        let (line, behind) = split_line(text);
        rest = behind;
        if let Some((_, written)) = row_of(line) {
            if let Some(form) = form_written(written) {
                return form;
            }
        }
    }
    Form::Number
}

/// The first of these lines, and those behind it; if there is none, an empty one.
fn next_answer(answers: Option<&[u8]>) -> (&[u8], Option<&[u8]>)
    ensures first { result.0.now ≡ next_answer (lines_behind (option_copied answers.entry)) }
    ensures more { lines_behind (option_copied result.1) ≡ more_answers (lines_behind (option_copied answers.entry)) }
{
    match answers {
        Some(text) => split_line(text),
        None => (b"", None),
    }
}

/// Appends a command and its answer in a form, which stands behind so many columns.
fn append_row(
    text: &mut Vec<u8>,
    width: usize,
    command: &[u8],
    form: Form,
    answer: &[u8],
) -> Result<(), AllocError>
    ensures { OnOk result (text.new.items ≡ text.old.items ++ answered_row width command.now (in_form form answer.now)) }
{
    append_parts(
        text,
        &[
            Part::Bytes(command),
            Part::Spaces(width.saturating_sub(command.len())),
            Part::Bytes(b" = "),
        ],
    )?;
    append_in_form(text, form, answer)
}

/// This form, or else another one.
fn form_or(form: Option<Form>, other: Form) -> Form
    ensures { result ≡ form_or form other }
{
    match form {
        Some(form) => form,
        None => other,
    }
}

/// What stands behind the words of a line: blanks, a comment, and a CR.
#[tactic(auto, unfolding(pif_script_model::specs::Filling::behind_words))]
fn behind_words(line: &[u8]) -> &[u8]
    ensures { result.now ≡ behind_words line.now }
{
    &line[without_blanks(commentless(line)).len()..]
}

/// Appends a line, with the first of these answers if it has a command: in the form of the one that is written, or else
/// in this one. Answers those that are left. What `words` holds is lost.
fn append_line<'a>(
    text: &mut Vec<u8>,
    words: &mut Vec<u8>,
    width: usize,
    form: Form,
    line: &[u8],
    answers: Option<&'a [u8]>,
) -> Result<Option<&'a [u8]>, AllocError>
    ensures text { OnOk result (text.new.items
        ≡ text.old.items ++ filled_line width form line.now (lines_behind (option_copied answers.entry))) }
    ensures left { IfOk result (λ left. lines_behind (option_copied left)
        ≡ answers_behind line.now (lines_behind (option_copied answers.entry))) }
{
    words.clear();
    append_plain(words, commentless(line))?;
    match row_of(words.as_slice()) {
        Some((command, written)) => {
            let (answer, more) = next_answer(answers);
            let own = form_or(form_written(written), form);
            append_row(text, width, command, own, answer)?;
            text.extend_from_slice(behind_words(line))?;
            Ok(more)
        }
        None => {
            text.extend_from_slice(line)?;
            Ok(answers)
        }
    }
}

/// A story with the lines of this output as the answers to its commands, in the column behind the longest, and in the
/// form that the story has; all else stays. `plain` is the story with nothing but its words.
///
/// # Errors
///
/// A growth of memory was refused.
#[tactic(auto, using(pif_script_model::proofs::FillingLemmas::filled_last, pif_script_model::proofs::FillingLemmas::filled_more), unfolding(pif_script_model::specs::Filling::filled_text))]
pub fn filled_text(
    alloc: Global,
    story: &[u8],
    plain: &[u8],
    output: &[u8],
) -> Result<Vec<u8>, AllocError>
    requires { lines plain.now ≡ plain_lines story.now }
    ensures { IfOk result (λ text. text.items ≡ filled_text story.now (lines output.now)) }
{
    let width = width_of(plain);
    let form = form_of(plain);
    let mut words = Vec::new(alloc);
    let without_mark = without_mark(story);
    let mut text = Vec::from_slice(alloc, &story[..story.len() - without_mark.len()])?;
    let mut rest = Some(without_mark);
    let mut answers = Some(output);
    'lines: while let Some(left) = rest {
        let (line, behind) = split_line(left);
        rest = behind;
        answers = append_line(&mut text, &mut words, width, form, line, answers)?;
        if rest.is_some() {
            text.push(b'\n')?;
        }
    }
    Ok(text)
}
