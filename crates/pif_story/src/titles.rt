ghost use Rattle.std.specs.Prelude.{◌≡◌, ◌++◌, IfOk, OnOk, codes, map};
ghost use Rattle.pif_script_model.specs.Filling.{titled};
ghost use Rattle.pif_script_model.specs.Verdicts.{printable};

use crate::lines::without_mark;
use crate::parts::{Part, append_parts};
use std::alloc::{AllocError, Global};

/// Appends a comment with this name, as a line.
fn append_title(text: &mut Vec<u8>, name: &[u8]) -> Result<(), AllocError>
    ensures { OnOk result (text.new.items ≡ text.old.items ++ (codes "# " ++ map printable name.now ++ codes "\n")) }
{
    append_parts(
        text,
        &[
            Part::Bytes(b"# "),
            Part::Printable(name),
            Part::Bytes(b"\n"),
        ],
    )
}

/// A story behind a comment with its name, and with an LF at its end, so that another one may stand behind it. A byte
/// order mark at its front is left out.
///
/// # Errors
///
/// A growth of memory was refused.
#[tactic(auto, unfolding(pif_script_model::specs::Filling::titled, pif_script_model::specs::Filling::ended))]
pub fn titled_story(alloc: Global, name: &[u8], story: &[u8]) -> Result<Vec<u8>, AllocError>
    ensures { IfOk result (λ text. text.items ≡ titled name.now story.now) }
{
    let text = without_mark(story);
    let mut titled = Vec::new(alloc);
    append_title(&mut titled, name)?;
    titled.extend_from_slice(text)?;
    if !text.ends_with(b"\n") {
        titled.extend_from_slice(b"\n")?;
    }
    Ok(titled)
}
