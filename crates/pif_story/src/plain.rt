ghost use Rattle.std.specs.Prelude.{◌≡◌, ◌++◌, ◌∷◌, [], ◌≤◌, if◌then◌else◌, length, IfOk, OnOk};
ghost use Rattle.pif_script_model.specs.Lines.{lines, plain, plain_lines};

use crate::lines::{commentless, is_blank, split_line, without_mark};
use std::alloc::{AllocError, Global};

/// Appends a byte of a word, and before it the space that is due.
fn append_byte(out: &mut Vec<u8>, gap: bool, byte: u8) -> Result<(), AllocError>
    ensures { OnOk result (out.new.items ≡ out.old.items ++ (if gap then 32 ∷ byte ∷ [] else byte ∷ [])) }
{
    if gap {
        out.extend_from_slice(&[b' ', byte])
    } else {
        out.extend_from_slice(&[byte])
    }
}

/// Appends a text with one space between its words, and no other blank.
///
/// # Errors
///
/// A growth of memory was refused.
pub fn append_plain(out: &mut Vec<u8>, text: &[u8]) -> Result<(), AllocError>
    ensures { OnOk result (out.new.items ≡ out.old.items ++ plain text.now) }
{
    let mut begun = false;
    let mut gap = false;
    for byte in text {
        if is_blank(*byte) {
            gap = begun;
            continue;
        }
        append_byte(out, gap, *byte)?;
        begun = true;
        gap = false;
    }
    Ok(())
}

/// A story with nothing but its words: each of its lines without comments, with one space between its words, and no
/// other blank. A byte order mark at the front and a CR at the end of a line are left out.
///
/// # Errors
///
/// A growth of memory was refused.
#[tactic(auto, using(pif_script_model::proofs::RowLemmas::plain_joined))]
pub fn plain_story(alloc: Global, story: &[u8]) -> Result<Vec<u8>, AllocError>
    ensures lines { IfOk result (λ plain. lines plain.items ≡ plain_lines story.now) }
    ensures shorter { IfOk result (λ plain. length plain.items ≤ length story.now) }
{
    let mut text = Vec::new(alloc);
    let mut rest = Some(without_mark(story));
    'lines: while let Some(left) = rest {
        let (line, behind) = split_line(left);
        rest = behind;
        append_plain(&mut text, commentless(line))?;
        if rest.is_some() {
            text.push(b'\n')?;
        }
    }
    Ok(text)
}
