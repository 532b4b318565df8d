ghost use Rattle.std.specs.Prelude.{IfOk};
ghost use Rattle.pif_job_shell.specs.Stories.{IsStoryOf};

use crate::sessions::Session;
use pif_job_check::fill;
use pif_types::NoMemory;
use std::alloc::Global;

/// The commands of a session as a story: each has the answer behind it that `run` prints for it.
///
/// # Errors
///
/// A growth of memory was refused.
pub fn story_of(alloc: Global, session: &Session) -> Result<Vec<u8>, NoMemory>
    ensures { IfOk result (λ story. IsStoryOf session.now.commands story.items) }
{
    let Ok(script) = session.script(alloc) else {
        return Err(NoMemory);
    };
    let mut story = Vec::new(alloc);
    match fill(alloc, b"", &mut script.as_slice(), &mut story) {
        Ok(()) => Ok(story),
        Err(_) => Err(NoMemory),
    }
}
