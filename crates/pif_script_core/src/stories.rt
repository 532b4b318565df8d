ghost use Rattle.std.specs.Prelude.{◌≡◌, IfErr, IfOk};
ghost use Rattle.pif_script_model.specs.Checks.{IsUntold, script_fault, text_of_run};
ghost use Rattle.pif_script_model.specs.Lines.{lines};
ghost use Rattle.pif_script_model.specs.Stories.{rows_from, script_by};
ghost use Rattle.pif_story.specs.Notes.{story_notes};

use crate::runs::run;
use pif_script::CliFault;
use pif_story::{Notes, notes_beside, plain_story, script_of};
use pif_text::Cause;
use std::alloc::Global;

/// What is printed for a script, and its first fault.
pub type Ran = (Vec<u8>, Option<(u64, Cause)>);

/// Runs the script of a story, of which nothing but its words is given. Answers what is printed for it, and its first
/// fault, if it has one.
///
/// # Errors
///
/// `NoMemory`.
pub fn run_story(alloc: Global, plain: &[u8]) -> Result<Ran, CliFault>
    ensures printed { IfOk result (λ ran. ran.0.items ≡ text_of_run (script_by (rows_from 1 (lines plain.now)))) }
    ensures fault { IfOk result (λ ran. ran.1 ≡ script_fault (script_by (rows_from 1 (lines plain.now)))) }
    ensures failed { IfErr result IsUntold }
{
    let Ok(script) = script_of(alloc, plain) else {
        return Err(CliFault::NoMemory);
    };
    let mut output = Vec::new(alloc);
    match run(alloc, &mut script.as_slice(), &mut output) {
        Ok(()) => Ok((output, None)),
        Err(CliFault::Script(line, cause)) => Ok((output, Some((line, cause)))),
        Err(CliFault::Write) => Err(CliFault::NoMemory),
        Err(fault) => Err(fault),
    }
}

/// The notes on a story.
///
/// # Errors
///
/// `NoMemory`.
#[tactic(auto, unfolding(pif_story::specs::Notes::story_notes, pif_script_model::specs::Stories::script_of))]
pub fn story_notes(alloc: Global, story: &[u8]) -> Result<Notes, CliFault>
    ensures notes { IfOk result (λ notes. notes.items ≡ story_notes story.now) }
    ensures failed { IfErr result IsUntold }
{
    let Ok(plain) = plain_story(alloc, story) else {
        return Err(CliFault::NoMemory);
    };
    let words = plain.as_slice();
    let (output, _) = run_story(alloc, words)?;
    Ok(notes_beside(story, words, output.as_slice()))
}
