ghost use Rattle.std.specs.Prelude.{◌≡◌, Err, IfErr, IfOk, Ok};
ghost use Rattle.pif_script_model.specs.StoryShowing.{LeavesScriptTo};
ghost use Rattle.pif_script_model.specs.Stories.{script_of};

use crate::lines::line_at_end;
use crate::plain::plain_story;
use crate::scripts::script_of;
use pif_script::{CliFault, MOST_BYTES, read_all};
use pif_text::Cause;
use std::alloc::{AllocError, Global};
use std::io::Read;

/// The most bytes of a story.
pub const MOST: usize = MOST_BYTES as usize;

/// Reads the bytes of a story to the end. Answers the script that is left of it.
///
/// # Errors
///
/// `Script` with the fault `size`, if the story is too large; `Read`, if the reader fails; and `NoMemory`.
pub fn read_script_of_story<R: Read>(alloc: Global, reader: &mut R) -> Result<Vec<u8>, CliFault>
    ensures left { IfOk result (λ script. LeavesScriptTo (R.remaining reader.old) (R.remaining reader.new) (Ok script.items)) }
    ensures failed { IfErr result (λ fault. LeavesScriptTo (R.remaining reader.old) (R.remaining reader.new) (Err fault)) }
{
    let story = read_all(alloc, reader)?;
    let text = story.as_slice();
    if text.len() > MOST {
        return Err(CliFault::Script(line_at_end(&text[..MOST]), Cause::Size));
    }
    match script_left(alloc, text) {
        Ok(script) => Ok(script),
        Err(_) => Err(CliFault::NoMemory),
    }
}

/// The script that is left of a story.
///
/// # Errors
///
/// A growth of memory was refused.
#[tactic(auto, using(pif_script_model::proofs::StoriesLemmas::script_in_all), unfolding(pif_script_model::specs::Stories::script_of))]
fn script_left(alloc: Global, story: &[u8]) -> Result<Vec<u8>, AllocError>
    ensures { IfOk result (λ script. script.items ≡ script_of story.now) }
{
    let plain = plain_story(alloc, story)?;
    script_of(alloc, plain.as_slice())
}
