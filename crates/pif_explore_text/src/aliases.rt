ghost use Rattle.std.specs.Prelude.{◌≡◌, ◌∷◌, IfOk, decimal, map};
ghost use Rattle.pif_explore_text.specs.Aliases.{last_word, meant_by, meant_text, text_before_last};
ghost use Rattle.pif_explore_text.specs.Views.{alias_of};
ghost use Rattle.pif_explore_text.specs.Words.{filled};

use crate::words::next_word;
use pif_text::append_decimal;
use std::alloc::{AllocError, Global};

/// A name that a file gives, and the word for which it stands.
#[derive(Drop)]
pub struct Alias {
    /// The name.
    pub name: Vec<u8>,
    /// The word for which it stands, as `t1`.
    pub meant: Vec<u8>,
}

/// What a word stands for.
fn meant_by<'w>(aliases: &'w [Alias], word: &'w [u8]) -> &'w [u8]
    ensures { result.now ≡ meant_by (map alias_of aliases.now) word.now }
{
    for alias in aliases {
        if word == alias.name.as_slice() {
            return alias.meant.as_slice();
        }
    }
    word
}

/// What the words of a text stand for, each behind a space.
pub(crate) fn meant_text(
    alloc: Global,
    aliases: &[Alias],
    text: &[u8],
) -> Result<Vec<u8>, AllocError>
    ensures { IfOk result (λ v. v.items ≡ meant_text (map alias_of aliases.now) (filled text.now)) }
{
    let mut out = Vec::new(alloc);
    let mut rest = text;
    while let Some((word, behind)) = next_word(rest) {
        out.push(b' ')?;
        out.extend_from_slice(meant_by(aliases, word))?;
        rest = behind;
    }
    Ok(out)
}

/// The words of a text but the last, each behind a space, and the last.
pub(crate) fn split_last(alloc: Global, text: &[u8]) -> Result<(Vec<u8>, &[u8]), AllocError>
    ensures front { IfOk result (λ x. x.0.items ≡ text_before_last (filled text.now)) }
    ensures last { IfOk result (λ x. x.1.now ≡ last_word (filled text.now)) }
{
    let mut front = Vec::new(alloc);
    let Some((first, rest)) = next_word(text) else {
        return Ok((front, &[]));
    };
    let mut last = first;
    let mut rest = rest;
    while let Some((word, behind)) = next_word(rest) {
        front.push(b' ')?;
        front.extend_from_slice(last)?;
        last = word;
        rest = behind;
    }
    Ok((front, last))
}

/// A number behind a letter.
pub(crate) fn numbered(alloc: Global, letter: u8, number: u64) -> Result<Vec<u8>, AllocError>
    ensures { IfOk result (λ v. v.items ≡ letter ∷ decimal number) }
{
    let mut out = Vec::new(alloc);
    out.push(letter)?;
    append_decimal(&mut out, number)?;
    Ok(out)
}
