ghost use Rattle.std.specs.Prelude.{◌≡◌, OnOk};
ghost use Rattle.pif_history_told.specs.Pages.{IsPageOf};

use crate::page_body::{BODY, FRONT};
use crate::page_script::{HEAD, TAIL};
use pif_history_told::{PageParts, append_page_with};
use pif_search::Stop;

/// Appends a page that shows these lines of JSON: what was found of a program. It needs nothing from elsewhere.
///
/// # Errors
///
/// Out of memory. A part of it may have been appended.
pub fn push_page(lines: &[u8], out: &mut Vec<u8>) -> Result<(), Stop>
    ensures { OnOk result (IsPageOf lines.now out.old.items out.new.items) }
{
    let parts = PageParts {
        front: FRONT,
        body: BODY,
        head: HEAD,
        tail: TAIL,
    };
    append_page_with(&parts, lines, b"", out)?;
    Ok(())
}
