use crate::remarks::{OUT_OF_MEMORY, Remark, say_not_loaded, say_too_large, say_unread};
use crate::sessions::{Session, session_of};
use crate::shelves::Shelf;
use pif_script::CliFault;
use pif_story::read_script_of_story;
use std::alloc::{AllocError, Global};

/// The lines of a script, each of which ends in LF, without that.
fn lines_of(alloc: Global, script: &[u8]) -> Result<Vec<&[u8]>, AllocError> {
    let mut lines = Vec::new(alloc);
    for line in script.split(|byte| *byte == b'\n') {
        lines.push(line)?;
    }
    // Behind the last LF stands nothing.
    let _ = lines.pop();
    Ok(lines)
}

/// A session with the commands of the story of this name, of which this is the text.
///
/// # Errors
///
/// What is to be said of why there is none.
fn session_of_story(alloc: Global, name: &str, story: &[u8]) -> Result<Session, Remark> {
    let mut rest = story;
    match read_script_of_story(alloc, &mut rest) {
        Ok(script) => session_of_script(alloc, name, story, script.as_slice()),
        Err(CliFault::Script(line, _)) => {
            let mut remark = Remark::new();
            say_too_large(name, line, &mut remark);
            Err(remark)
        }
        Err(_) => Err(Remark::of(&[OUT_OF_MEMORY])),
    }
}

/// A session with the commands of this script, which is that of the story of this name.
///
/// # Errors
///
/// What is to be said of why there is none.
fn session_of_script(
    alloc: Global,
    name: &str,
    story: &[u8],
    script: &[u8],
) -> Result<Session, Remark> {
    let Ok(lines) = lines_of(alloc, script) else {
        return Err(Remark::of(&[OUT_OF_MEMORY]));
    };
    match session_of(alloc, lines.as_slice()) {
        Ok(session) => Ok(session),
        Err(why) => {
            let mut remark = Remark::new();
            say_not_loaded(name, story, why.number, &why.refusal, &mut remark);
            Err(remark)
        }
    }
}

/// A session with the commands of the story that is the file of this name.
///
/// # Errors
///
/// What is to be said of why there is none.
pub fn load<S: Shelf>(alloc: Global, shelf: &S, name: &str) -> Result<Session, Remark> {
    match shelf.load(alloc, name) {
        Ok(story) => session_of_story(alloc, name, story.as_slice()),
        Err(why) => {
            let mut remark = Remark::new();
            say_unread(name, why, &mut remark);
            Err(remark)
        }
    }
}
