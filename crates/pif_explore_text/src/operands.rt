ghost use Rattle.std.specs.Prelude.{◌≡◌, ◌≤◌, ◌+◌, IfSome, IsTrue, length};
ghost use Rattle.pif_explore_text.specs.Operands.{begins_dots, dots_at, operand_in, range_in, sign_in, wanted_by};
ghost use Rattle.pif_explore_text.specs.Results.{Gives};

use crate::Trouble;
use crate::names::{cell_there, value_of};
use pif_explore_model::{Operand, Wanted};
use pif_text::{Cause, is_word};

/// How the value of a cell is compared.
#[derive(Clone, Copy)]
pub(crate) enum Sign {
    /// `=`
    Is,
    /// `<`
    IsBelow,
    /// `>`
    IsAbove,
}

/// The sign that a word is.
pub(crate) fn sign_of(word: &[u8]) -> Option<Sign>
    ensures { result ≡ sign_in word.now }
{
    if is_word(word, b"=") {
        Some(Sign::Is)
    } else if is_word(word, b"<") {
        Some(Sign::IsBelow)
    } else if is_word(word, b">") {
        Some(Sign::IsAbove)
    } else {
        None
    }
}

/// What is asked by a sign and the operand behind it.
pub(crate) fn wanted_by(sign: Sign, operand: Operand) -> Wanted
    ensures { result ≡ wanted_by sign operand }
{
    match sign {
        Sign::Is => Wanted::Is(operand),
        Sign::IsBelow => Wanted::IsBelow(operand),
        Sign::IsAbove => Wanted::IsAbove(operand),
    }
}

/// The operand that a word writes: a cell, or a value of 0 to 255.
#[tactic(auto, unfolding(crate::specs::Operands::operand_in))]
pub(crate) fn operand_of(word: &[u8]) -> Result<Operand, Trouble>
    ensures { Gives (λ o. o) (operand_in word.now) result }
{
    match cell_there(word) {
        Some(cell) => Ok(Operand::Held(cell)),
        None => Ok(Operand::Value(value_of(word)?)),
    }
}

/// Whether a text begins with `..`.
fn begins_dots(text: &[u8]) -> bool
    ensures is { result ≡ begins_dots text.now }
    ensures long { IsTrue result → 2 ≤ length text.now }
{
    match text {
        [first, second, ..] => *first == b'.' && *second == b'.',
        _ => false,
    }
}

/// Where the first `..` of a text stands.
fn dots_at(text: &[u8]) -> Option<usize>
    ensures is { result ≡ dots_at text.now }
    ensures within { IfSome result (λ at. at + 2 ≤ length text.now) }
{
    if begins_dots(text) {
        return Some(0);
    }
    match text {
        [] => None,
        [_, rest @ ..] => match dots_at(rest) {
            Some(at) => Some(at + 1),
            None => None,
        },
    }
}

/// The least and the greatest of the values that a word writes: `V..W`.
#[tactic(auto, unfolding(crate::specs::Operands::range_in))]
pub(crate) fn range_of(word: &[u8]) -> Result<(u8, u8), Trouble>
    ensures { Gives (λ x. x) (range_in word.now) result }
{
    let Some(at) = dots_at(word) else {
        return Err(Trouble::Fault(Cause::Command));
    };
    let least = value_of(&word[..at])?;
    let most = value_of(&word[at + 2..])?;
    if least <= most {
        Ok((least, most))
    } else {
        Err(Trouble::Fault(Cause::Limits))
    }
}
