ghost use Rattle.std.specs.Prelude.{◌≡◌, ◌++◌, bytes_eq, option_copied, OnOk};
ghost use Rattle.pif_script_model.specs.Answers.{answer_by, error_answer, error_in, form_in, in_form, is_named, says};
ghost use Rattle.pif_script_model.specs.Filling.{form_written};

use pif_script_model::Form;
use pif_text::{ERRORS, Text, append, append_number, errno_name};
use pif_types::Errno;
use std::alloc::AllocError;

/// The answer of a call that is this error, in this form.
fn error_answer(form: Form, errno: Errno) -> Text
    ensures { result.items ≡ error_answer form errno }
{
    let name = errno_name(errno).as_bytes();
    let number = errno.number();
    let mut text = Text::new();
    append(&mut text, b"answer ");
    match form {
        Form::Number => append_number(&mut text, number),
        Form::Name => append(&mut text, name),
        Form::Both => {
            append_number(&mut text, number);
            append(&mut text, b" ");
            append(&mut text, name);
        }
    }
    text
}

/// Whether a text is the answer of a call that is this error, in this form.
fn is_error_answer(form: Form, errno: Errno, text: &[u8]) -> bool
    ensures { result ≡ bytes_eq text.now (error_answer form errno) }
{
    text == error_answer(form, errno).as_slice()
}

/// The error whose answer in this form a text is.
#[tactic(auto, unfolding(pif_script_model::specs::Answers::error_in))]
fn error_in(form: Form, text: &[u8]) -> Option<Errno>
    ensures { result ≡ error_in form text.now }
{
    for errno in ERRORS {
        if is_error_answer(form, errno, text) {
            return Some(errno);
        }
    }
    None
}

/// Whether an answer that is written says what `run` prints: it is the same text, or names the same error.
#[tactic(auto, unfolding(pif_script_model::specs::Answers::says))]
pub fn says(written: &[u8], given: &[u8]) -> bool
    ensures { result ≡ says written.now given.now }
{
    written == given || is_named(written, error_in(Form::Number, given))
}

/// Whether a text is the answer of this error with its name, if there is an error.
fn is_named(text: &[u8], errno: Option<Errno>) -> bool
    ensures { result ≡ is_named text.now errno }
{
    match errno {
        Some(errno) => {
            is_error_answer(Form::Name, errno, text) || is_error_answer(Form::Both, errno, text)
        }
        None => false,
    }
}

/// The form of an answer that is that of an error.
#[tactic(auto, unfolding(pif_script_model::specs::Answers::form_in))]
fn form_in(text: &[u8]) -> Option<Form>
    ensures { result ≡ form_in text.now }
{
    if error_in(Form::Number, text).is_some() {
        Some(Form::Number)
    } else if error_in(Form::Name, text).is_some() {
        Some(Form::Name)
    } else if error_in(Form::Both, text).is_some() {
        Some(Form::Both)
    } else {
        None
    }
}

/// The form in which an answer is written, if it is that of an error.
pub fn form_written(written: Option<&[u8]>) -> Option<Form>
    ensures { result ≡ form_written (option_copied written.entry) }
{
    form_in(written?)
}

/// Appends what `run` prints, in a form.
///
/// # Errors
///
/// A growth of memory was refused.
#[tactic(auto, unfolding(pif_script_model::specs::Answers::in_form))]
pub fn append_in_form(text: &mut Vec<u8>, form: Form, given: &[u8]) -> Result<(), AllocError>
    ensures { OnOk result (text.new.items ≡ text.old.items ++ in_form form given.now) }
{
    match error_in(Form::Number, given) {
        Some(errno) => text.extend_from_slice(error_answer(form, errno).as_slice()),
        None => text.extend_from_slice(given),
    }
}
