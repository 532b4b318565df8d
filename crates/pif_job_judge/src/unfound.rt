ghost use Rattle.std.specs.Prelude.{◌≤◌, IfOk, IfSome, vec_len};
ghost use Rattle.pif_history_text.specs.Reading.{IsPaired, heard_of};
ghost use Rattle.pif_job_judge.specs.Fronts.{IsFront, IsUndecided};

use crate::fronts::up_to;
use crate::terms::terms_of;
use pif_history_text::History;
use pif_history_told::{Unfound, line_at, number_at};
use pif_judge_reasons::{Front, count_of, found_next};
use pif_search::{Stop, WatchLines};
use std::alloc::Global;

/// What is told of an undecided history: how far it is legal by this front, and with which answers or priorities in the
/// next line a search finds a run, if there is time to look.
///
/// # Errors
///
/// That of a search.
pub fn unfound_behind<V: WatchLines>(
    alloc: Global,
    states: usize,
    history: &History,
    front: &Option<Front>,
    watch: &mut V,
) -> Result<Unfound, Stop>
    requires paired { IsPaired history.now }
    requires some { 1 ≤ vec_len history.now.shown }
    requires front { IfSome front.now (IsFront (heard_of history.now)) }
    ensures { IfOk result (IsUndecided (heard_of history.now) front.now) }
{
    let known = count_of(front);
    let number = number_at(history, known + 1);
    let line = line_at(history, known + 1);
    let up_to = up_to(history, front);
    let terms = terms_of(history, states);
    let before = &history.shown.as_slice()[..known];
    let found = found_next(alloc, &terms, before, &line, watch)?;
    Ok(Unfound {
        up_to,
        number,
        line,
        found,
    })
}
