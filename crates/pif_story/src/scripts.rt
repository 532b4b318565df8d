ghost use Rattle.std.specs.Prelude.{◌≡◌, IfOk};
ghost use Rattle.pif_script_model.specs.Lines.{lines};
ghost use Rattle.pif_script_model.specs.Stories.{rows_from, script_by};

use crate::lines::{row_of, split_line};
use std::alloc::{AllocError, Global};

/// The script that is left of a story, of which nothing but its words is given, when its empty lines and its answers
/// are taken out: a line for each of its commands.
///
/// # Errors
///
/// A growth of memory was refused.
#[tactic(auto, using(pif_script_model::proofs::StoriesLemmas::script_in_whole, pif_script_model::proofs::StoriesLemmas::script_in_nothing, pif_script_model::proofs::StoriesLemmas::script_in_passed, pif_script_model::proofs::StoriesLemmas::script_in_row))]
pub fn script_of(alloc: Global, story: &[u8]) -> Result<Vec<u8>, AllocError>
    ensures { IfOk result (λ script. script.items ≡ script_by (rows_from 1 (lines story.now))) }
{
    let mut script = Vec::new(alloc);
    let mut rest = Some(story);
    'lines: while let Some(text) = rest {
        let (line, behind) = split_line(text);
        rest = behind;
        if let Some((command, _)) = row_of(line) {
            script.extend_from_slice(command)?;
            script.push(b'\n')?;
        }
    }
    Ok(script)
}
