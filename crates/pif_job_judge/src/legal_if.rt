//! Another answer before an illegal line, with which the lines up to it would be legal.
ghost use Rattle.std.specs.Prelude.{◌<◌, vec_len, IfOk, IfSome};
ghost use Rattle.pif_history_text.specs.Reading.{IsPaired, heard_of};
ghost use Rattle.pif_job_judge.specs.LegalIf.{IsLegalIf};

use crate::terms::terms_of;
use pif_history_text::History;
use pif_history_told::{LegalIf, number_at};
use pif_judge_reasons::legal_if_of;
use pif_search::{Stop, WatchLines};
use std::alloc::Global;

/// The last answer in the first `before` lines of a history which can be replaced so that a search finds a run up to
/// the next line, and the least answer that does this; None if none is found.
///
/// # Errors
///
/// That of a search.
pub fn legal_if_at<V: WatchLines>(
    alloc: Global,
    states: usize,
    history: &History,
    before: usize,
    watch: &mut V,
) -> Result<Option<LegalIf>, Stop>
    requires paired { IsPaired history.now }
    requires within { before < vec_len history.now.shown }
    ensures { IfOk result (λ o. IfSome o (IsLegalIf (heard_of history.now) before)) }
{
    let lines = &history.shown.as_slice()[..before + 1];
    let terms = terms_of(history, states);
    match legal_if_of(alloc, &terms, lines, watch)? {
        Some(found) => Ok(Some(LegalIf {
            number: number_at(history, found.place + 1),
            answer: found.answer,
        })),
        None => Ok(None),
    }
}
