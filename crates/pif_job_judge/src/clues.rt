//! Clues to what is wrong with an illegal line, which are told after what is possible there.
ghost use Rattle.std.specs.Prelude.{◌<◌, IfOk, vec_len};
ghost use Rattle.pif_history_text.specs.Reading.{IsPaired, heard_of};
ghost use Rattle.pif_job_judge.specs.Clues.{AreClues};

use crate::in_the_way::in_the_way_at;
use crate::legal_if::legal_if_at;
use pif_history_text::History;
use pif_history_told::{Clues, Known};
use pif_search::{Stop, WatchLines};
use std::alloc::Global;

/// The clues to what is wrong with the line after the first `before` lines of a history, up to which there is no run,
/// as far as they are found; none if the line is refused whatever was answered. `watch` may end the searches for them.
///
/// # Errors
///
/// That of a search.
pub fn clues_at<V: WatchLines>(
    alloc: Global,
    states: usize,
    history: &History,
    before: usize,
    known: &Known,
    watch: &mut V,
) -> Result<Clues, Stop>
    requires paired { IsPaired history.now }
    requires within { before < vec_len history.now.shown }
    ensures { IfOk result (AreClues (heard_of history.now) before) }
{
    if let Known::Refused(_) = known {
        return Ok(Clues {
            in_the_way: None,
            legal_if: None,
        });
    }
    let line = &history.shown[before];
    let in_the_way = in_the_way_at(alloc, states, history, before, line, watch)?;
    let legal_if = legal_if_at(alloc, states, history, before, watch)?;
    Ok(Clues {
        in_the_way,
        legal_if,
    })
}
