ghost use Rattle.std.specs.Prelude.{◌≡◌, IfOk, OnOk, true};
ghost use Rattle.pif_script_model.specs.Rows.{AreRowsOf};
ghost use Rattle.pif_script_model.specs.Stories.{rows_of};
ghost use Rattle.pif_job_draw.specs.Pictures.{DrawsTo, FillsOrLarge, IsDrawn};

use crate::pages::page_of;
use crate::texts::{drawing_text, states_text};
use pif_job_check::fill_rows;
use pif_script::{CliFault, Notice, read_all, write_whole};
use pif_script_model::{AnsweredRow, Part, WatchSteps};
use pif_story::plain_story;
use pif_story_drawing::Span;
use pif_text::Cause;
use pif_types::NoMemory;
use std::alloc::Global;
use std::io::{Read, Write};

/// How many commands are drawn at most: browsers open no wider image.
const MOST_COMMANDS: u32 = 5000;

/// What of a story is drawn, and how.
#[derive(Clone, Copy)]
pub struct Drawn {
    /// Whether it is a page with the states behind the commands, and not an image alone.
    pub page: bool,
    /// The first line of the story whose command is drawn.
    pub from: u32,
    /// The last one; 0 for the last of all.
    pub to: u32,
}

/// The line of the first command that is too many to be drawn. A page has the states behind all commands, and so all
/// are counted.
fn line_too_far(page: bool, span: &Span, rows: &[AnsweredRow<'_>]) -> Option<u32> {
    let mut left = MOST_COMMANDS;
    for row in rows {
        if page || span.has(row.line) {
            if left == 0 {
                return Some(row.line);
            }
            left -= 1;
        }
    }
    None
}

/// The page of a story without a fault. The commands are played twice for the drawing, and once for the states.
///
/// # Errors
///
/// `NoMemory`.
fn page_text<V: WatchSteps>(
    alloc: Global,
    span: &Span,
    story: &[u8],
    rows: &[AnsweredRow<'_>],
    watch: &mut V,
) -> Result<Vec<u8>, NoMemory>
    requires { AreRowsOf (rows_of story.now) rows.now }
    ensures { IfOk result (λ text. IsDrawn true story.now text.items) }
{
    let count = rows.len();
    let twice = count.saturating_mul(2);
    let whole = count.saturating_mul(3);
    let drawing = drawing_text(
        alloc,
        span,
        story,
        rows,
        &mut Part::new(watch, 0, twice, whole),
    )?;
    let states = states_text(
        alloc,
        story,
        rows,
        &mut Part::new(watch, twice, count, whole),
    )?;
    match page_of(alloc, drawing.as_slice(), states.as_slice()) {
        Ok(page) => Ok(page),
        Err(_) => Err(NoMemory),
    }
}

/// The drawing of a story without a fault, or the page.
///
/// # Errors
///
/// `NoMemory`.
fn text_of<V: WatchSteps>(
    page: bool,
    alloc: Global,
    span: &Span,
    story: &[u8],
    rows: &[AnsweredRow<'_>],
    watch: &mut V,
) -> Result<Vec<u8>, NoMemory>
    requires { AreRowsOf (rows_of story.now) rows.now }
    ensures { IfOk result (λ text. IsDrawn page story.now text.items) }
{
    if page {
        page_text(alloc, span, story, rows, watch)
    } else {
        drawing_text(alloc, span, story, rows, watch)
    }
}

/// The drawing of a story that is in memory, or the page; `notice` keeps the command that is a fault.
///
/// # Errors
///
/// Those of `fill_rows`; and `Script` with the line of the first command that is too many, and the cause `Size`.
fn drawn_text<V: WatchSteps>(
    drawn: Drawn,
    alloc: Global,
    story: &[u8],
    notice: &mut Notice,
    watch: &mut V,
) -> Result<Vec<u8>, CliFault>
    ensures filled { FillsOrLarge story.now result }
    ensures shown { IfOk result (λ text. IsDrawn drawn.page story.now text.items) }
    ensures unnoted { OnOk result (notice.new ≡ notice.old) }
{
    let span = Span::new(drawn.from, drawn.to);
    let Ok(plain) = plain_story(alloc, story) else {
        return Err(CliFault::NoMemory);
    };
    let rows = fill_rows(alloc, story, plain.as_slice(), notice)?;
    if let Some(line) = line_too_far(drawn.page, &span, rows.as_slice()) {
        return Err(CliFault::Script(u64::from(line), Cause::Size));
    }
    match text_of(drawn.page, alloc, &span, story, rows.as_slice(), watch) {
        Ok(text) => Ok(text),
        Err(NoMemory) => Err(CliFault::NoMemory),
    }
}

/// Draws a story, or a script, as an SVG image, or as a page of HTML that needs nothing else: the image, and the state
/// behind a command that one chooses. Of the commands those are drawn that stand in the lines named. The story is read
/// to its end before anything is written, and it and the drawing are kept in memory. `notice` keeps the command that is
/// a fault, or an empty one if the story is too large. If no command is a fault, or there are too many to be drawn, it
/// is left as it is. `watch` is told of the commands that are played for the drawing and the states.
///
/// # Errors
///
/// `Script` with the line of the first fault, as of `fill`; or if more than 5,000 commands are to be drawn, with the
/// line of the first that is too many, and the cause `Size`; `Read`, if the reader fails; and `NoMemory`: nothing was
/// written then. `Write`, if the writer fails or takes no byte.
pub fn write_drawn<R: Read, W: Write, V: WatchSteps>(
    drawn: Drawn,
    alloc: Global,
    reader: &mut R,
    writer: &mut W,
    notice: &mut Notice,
    watch: &mut V,
) -> Result<(), CliFault>
    ensures draws { DrawsTo drawn.page (R.remaining reader.old) (R.remaining reader.new) (W.contents writer.old) (W.contents writer.new) result }
    ensures unnoted { OnOk result (notice.new ≡ notice.old) }
{
    let story = read_all(alloc, reader)?;
    let text = drawn_text(drawn, alloc, story.as_slice(), notice, watch)?;
    write_whole(writer, text.as_slice())
}
