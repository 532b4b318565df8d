ghost use Rattle.std.specs.Prelude.{◌≡◌, ◌++◌, IfOk, OnOk, option_copied};
ghost use Rattle.pif_story.specs.Names.{name_of, names_in, naming_line};

use crate::namings::{comment_of, naming_of};
use crate::{append_plain, split_line, without_mark};
use pif_types::Tid;
use std::alloc::{AllocError, Global};

/// Appends the comment of a line, as a line, if it names a thread. What `words` holds is lost.
fn append_naming(names: &mut Vec<u8>, words: &mut Vec<u8>, line: &[u8]) -> Result<(), AllocError>
    ensures { OnOk result (names.new.items ≡ names.old.items ++ naming_line line.now) }
{
    words.clear();
    append_plain(words, comment_of(line))?;
    if naming_of(words.as_slice()).is_some() {
        names.extend_from_slice(words.as_slice())?;
        names.push(b'\n')?;
    }
    Ok(())
}

/// The comments of a story that name threads, as lines.
///
/// # Errors
///
/// A growth of memory was refused.
#[tactic(auto, unfolding(crate::specs::Names::names_in))]
pub fn names_in(alloc: Global, story: &[u8]) -> Result<Vec<u8>, AllocError>
    ensures { IfOk result (λ names. names.items ≡ names_in story.now) }
{
    let mut words = Vec::new(alloc);
    let mut names = Vec::new(alloc);
    let mut rest = Some(without_mark(story));
    'lines: while let Some(text) = rest {
        let (line, behind) = split_line(text);
        rest = behind;
        append_naming(&mut names, &mut words, line)?;
    }
    Ok(names)
}

/// The name of a thread by these lines, of which each names one; if several name it, the first counts.
pub fn name_of(names: &[u8], thread: Tid) -> Option<&[u8]>
    ensures { option_copied result ≡ name_of names.now thread }
{
    let mut rest = Some(names);
    'lines: while let Some(text) = rest {
        let (line, behind) = split_line(text);
        rest = behind;
        if let Some((named, name)) = naming_of(line) {
            if named.get() == thread.get() {
                return Some(name);
            }
        }
    }
    None
}
