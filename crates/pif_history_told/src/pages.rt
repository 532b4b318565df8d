ghost use Rattle.std.specs.Prelude.{◌≡◌, ◌-◌, ◌++◌, OnOk, flat_map};
ghost use Rattle.pif_history_told.specs.Pages.{IsPageOf};

use crate::page_body::{BODY, FRONT};
use crate::page_lanes::{BEGIN, LANES};
use crate::page_script::{HEAD, TAIL};
use crate::page_style::SHEET;
use std::alloc::AllocError;

/// How many lines of a history a page shows at most.
pub const PAGE_LINES: usize = 10_000;

/// How many lines are left out of the page of a history, of which so many lines have a run: all but the last
/// `PAGE_LINES`.
pub fn first_shown(lines: usize) -> usize
    ensures { result ≡ lines - PAGE_LINES }
{
    lines.saturating_sub(PAGE_LINES)
}

/// Appends these parts, one after the other.
pub fn append_parts(
    before: &[u8],
    lines: &[u8],
    behind: &[u8],
    out: &mut Vec<u8>,
) -> Result<(), AllocError>
    ensures { OnOk result (out.new.items ≡ out.old.items ++ (before.now ++ lines.now ++ behind.now)) }
{
    out.extend_from_slice(before)?;
    out.extend_from_slice(lines)?;
    out.extend_from_slice(behind)
}

/// Appends these texts, one after the other.
fn append_texts(texts: &[&str], out: &mut Vec<u8>) -> Result<(), AllocError>
    ensures { OnOk result (out.new.items ≡ out.old.items ++ flat_map (λ x. x.now) texts.now) }
{
    for text in texts {
        out.extend_from_slice(text.as_bytes())?;
    }
    Ok(())
}

/// What is of one command alone in a page that shows steps on lanes.
#[derive(Clone, Copy)]
pub struct PageParts<'a> {
    /// What stands before the looks: the title.
    pub front: &'a str,
    /// What stands behind them: the parts that the script fills.
    pub body: &'a str,
    /// The script, up to what all pages have.
    pub head: &'a str,
    /// The script behind that. It ends the page.
    pub tail: &'a str,
}

/// Appends a page with these parts that shows these lines of JSON, and `beside` them further ones. It needs nothing from
/// elsewhere.
///
/// # Errors
///
/// Out of memory.
pub fn append_page_with(
    parts: &PageParts<'_>,
    lines: &[u8],
    beside: &[u8],
    out: &mut Vec<u8>,
) -> Result<(), AllocError>
    ensures { OnOk result (IsPageOf lines.now out.old.items out.new.items) }
{
    append_texts(&[parts.front, SHEET, parts.body], out)?;
    append_parts(b"", lines, beside, out)?;
    append_texts(&[BEGIN, parts.head, LANES, parts.tail], out)?;
    Ok(())
}

/// Appends a page that shows these lines of JSON: a verdict, and a run after it; and `beside` them lines that have
/// names. It needs nothing from elsewhere.
///
/// # Errors
///
/// Out of memory.
pub fn append_page(lines: &[u8], beside: &[u8], out: &mut Vec<u8>) -> Result<(), AllocError>
    ensures { OnOk result (IsPageOf lines.now out.old.items out.new.items) }
{
    let parts = PageParts {
        front: FRONT,
        body: BODY,
        head: HEAD,
        tail: TAIL,
    };
    append_page_with(&parts, lines, beside, out)
}
