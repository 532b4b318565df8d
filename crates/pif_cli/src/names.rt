//! The names of inputs.
ghost use Rattle.std.specs.Prelude.{◌≡◌, IfOk, bytes_eq, map};
ghost use Rattle.pif_cli.specs.Names.{noted_name, shown_name};
ghost use Rattle.pif_cli_words.specs.Words.{inputs_of, standard_name};

use pif_cli_messages::are_printable;
use pif_cli_words::STANDARD_NAME;
use pif_story::printable;
use std::alloc::{AllocError, Global};
use std::marker::Model;

/// The inputs of a job whose words name no files.
const STANDARD_INPUT: [&str; 1] = [STANDARD_NAME];

/// The name of an input. In contracts it is the word that was given.
#[derive(Drop)]
pub struct Name<'a> {
    given: &'a str,
    shown: Vec<u8>,
}

impl<'a> Model for Name<'a> {
    ghost use Rattle.std.specs.Prelude.{◌≡◌, List, ℕ};
    ghost use Rattle.pif_cli.specs.Names.{shown_name};

    ghost Value = { List ℕ };

    ghost view = { λ s. s.given.now };

    ghost invariant = { λ s. s.shown.items ≡ shown_name s.given.now };
}

impl<'a> Name<'a> {
    /// The name that this word gives.
    ///
    /// # Errors
    ///
    /// Memory was refused.
    pub fn new(alloc: Global, given: &'a str) -> Result<Name<'a>, AllocError>
        ensures { IfOk result (λ name. name ≡ given.now) }
    {
        Ok(Name {
            given,
            shown: shown_name(alloc, given.as_bytes())?,
        })
    }

    /// Whether it is that of the standard input.
    pub fn is_standard(&self) -> bool
        ensures { result ≡ bytes_eq self.now standard_name }
    {
        self.given == STANDARD_NAME
    }

    /// The word that was given, by which a file is opened; `-` for the standard input.
    pub fn given(&self) -> &'a str
        ensures { result.now ≡ self.now }
    {
        self.given
    }

    /// The name as it is told in verdicts, so that it makes no line of its own.
    pub fn shown(&self) -> &[u8]
        ensures { result.now ≡ shown_name self.now }
    {
        self.shown.as_slice()
    }

    /// The name as it is told in notes: as it is, if it is printable.
    #[tactic(auto, unfolding(crate::specs::Names::noted_name))]
    pub fn noted(&self) -> &[u8]
        ensures { result.now ≡ noted_name self.now }
    {
        if are_printable(self.given) {
            self.given.as_bytes()
        } else {
            self.shown()
        }
    }
}

/// A name with `?` for each byte that is no printable ASCII.
#[tactic(auto, unfolding(crate::specs::Names::shown_name))]
fn shown_name(alloc: Global, name: &[u8]) -> Result<Vec<u8>, AllocError>
    ensures { IfOk result (λ shown. shown.items ≡ shown_name name.now) }
{
    let mut shown = Vec::new(alloc);
    for byte in name {
        shown.push(printable(*byte))?;
    }
    Ok(shown)
}

/// The inputs of a job over these files: the standard input if there is none.
fn inputs_of<'f, 'a>(files: &'f [&'a str]) -> &'f [&'a str]
    ensures { map (λ name. name.now) result.now ≡ inputs_of (map (λ file. file.now) files.now) }
{
    match files {
        [] => STANDARD_INPUT.as_slice(),
        [_, ..] => files,
    }
}

/// The names of the inputs of a job over these files.
///
/// # Errors
///
/// Memory was refused.
pub fn names_of<'a>(alloc: Global, files: &[&'a str]) -> Result<Vec<Name<'a>>, AllocError>
    ensures { IfOk result (λ names. names.items ≡ inputs_of (map (λ file. file.now) files.now)) }
{
    let inputs = inputs_of(files);
    let mut names = Vec::new(alloc);
    for input in inputs {
        names.push(Name::new(alloc, *input)?)?;
    }
    Ok(names)
}
