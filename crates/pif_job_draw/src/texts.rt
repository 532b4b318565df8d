ghost use Rattle.std.specs.Prelude.{◌≡◌, IfOk, OnOk};
ghost use Rattle.pif_script_model.specs.declared.pictures.Picture.{Picture};
ghost use Rattle.pif_job_check.specs.Rows.{FillsRows};
ghost use Rattle.pif_script_model.specs.Rows.{AreRowsOf};
ghost use Rattle.pif_script_model.specs.Stories.{rows_of};
ghost use Rattle.pif_job_draw.specs.Pictures.{IsPictureOf};
ghost use Rattle.pif_story_states.specs.States.{states_text};

use pif_job_check::fill_rows;
use pif_script::{CliFault, Notice};
use pif_script_model::{AnsweredRow, Picture, WatchSteps};
use pif_story::{names_in, plain_story};
use pif_story_drawing::{Span, drawing_of};
use pif_story_states::{graph_of, states_of};
use pif_types::NoMemory;
use std::alloc::Global;

/// The states behind the commands of a story without a fault, which are these, as lines of JSON. `watch` is told how far
/// it has come.
///
/// # Errors
///
/// `NoMemory`.
#[tactic(auto, unfolding(pif_story_states::specs::States::states_text))]
pub fn states_text<V: WatchSteps>(
    alloc: Global,
    story: &[u8],
    rows: &[AnsweredRow<'_>],
    watch: &mut V,
) -> Result<Vec<u8>, NoMemory>
    requires { AreRowsOf (rows_of story.now) rows.now }
    ensures { IfOk result (λ text. text.items ≡ states_text story.now) }
{
    let Ok(names) = names_in(alloc, story) else {
        return Err(NoMemory);
    };
    match states_of(alloc, names.as_slice(), rows, watch) {
        Ok(text) => Ok(text),
        Err(_) => Err(NoMemory),
    }
}

/// The drawing of these lines of a story without a fault, whose commands are these. `watch` is told how far it has come.
///
/// # Errors
///
/// `NoMemory`.
pub fn drawing_text<V: WatchSteps>(
    alloc: Global,
    span: &Span,
    story: &[u8],
    rows: &[AnsweredRow<'_>],
    watch: &mut V,
) -> Result<Vec<u8>, NoMemory> {
    match names_in(alloc, story) {
        Ok(names) => {
            let drawing = drawing_of(alloc, span, names.as_slice(), rows, watch)?;
            Ok(drawing.into_bytes())
        }
        Err(_) => Err(NoMemory),
    }
}

/// This picture of a story without a fault, whose commands are these. `watch` is told how far it has come.
///
/// # Errors
///
/// `NoMemory`.
fn text_of<V: WatchSteps>(
    picture: Picture,
    alloc: Global,
    story: &[u8],
    rows: &[AnsweredRow<'_>],
    watch: &mut V,
) -> Result<Vec<u8>, NoMemory>
    requires { AreRowsOf (rows_of story.now) rows.now }
    ensures { IfOk result (λ text. IsPictureOf picture story.now text.items) }
{
    match picture {
        Picture::States => states_text(alloc, story, rows, watch),
        Picture::Graph => match graph_of(alloc, rows, watch) {
            Ok(text) => Ok(text),
            Err(_) => Err(NoMemory),
        },
    }
}

/// This picture of a story that is in memory; `notice` keeps the command that is a fault. `watch` is told how far it
/// has come, once the story is known to have none.
///
/// # Errors
///
/// Those of `fill_rows`.
pub fn picture_text<V: WatchSteps>(
    picture: Picture,
    alloc: Global,
    story: &[u8],
    notice: &mut Notice,
    watch: &mut V,
) -> Result<Vec<u8>, CliFault>
    ensures filled { FillsRows story.now result }
    ensures shown { IfOk result (λ text. IsPictureOf picture story.now text.items) }
    ensures unnoted { OnOk result (notice.new ≡ notice.old) }
{
    let Ok(plain) = plain_story(alloc, story) else {
        return Err(CliFault::NoMemory);
    };
    let rows = fill_rows(alloc, story, plain.as_slice(), notice)?;
    match text_of(picture, alloc, story, rows.as_slice(), watch) {
        Ok(text) => Ok(text),
        Err(NoMemory) => Err(CliFault::NoMemory),
    }
}
