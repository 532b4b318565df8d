//! A history judged as a whole and in parts, as it is and with one answer changed.
use crate::cuts::whole;
use pif_history::judge_lines;
use pif_history_machine::Verdict;
use pif_history_model::{Fact, HistoryLimits, Line};
use pif_parts::WholeVerdict;
use pif_parts_judged::judge_parts;
use pif_rules_model::no_rules;
use pif_search::{Stop, Unwatched};
use pif_types::Request;
use std::alloc::Global;
use std::rt::HostRuntime;

/// So much may be added.
const LIMITS: HistoryLimits = HistoryLimits {
    threads: 2,
    mutexes: 1,
    conds: 1,
    signals: 9,
};

/// Whether the verdict in parts is that on the whole, which is known.
fn agree(alloc: Global, lines: &[Line]) -> Result<bool, Stop> {
    let _no_request: Option<Request> = None;
    let _no_fact: Option<Fact> = None;
    let found = judge_lines(alloc, &no_rules(), LIMITS, lines, 10_000, &mut Unwatched)?;
    let parts = judge_parts(alloc, LIMITS, lines, 10, 10_000, &mut Unwatched)?;
    Ok(match found {
        Verdict::Legal(_) => parts == WholeVerdict::Legal,
        Verdict::Illegal(line) => parts == WholeVerdict::Illegal(line),
        Verdict::Undecided(_) => false,
    })
}

/// The same line, with EBUSY in the place of an answer.
fn busy(line: &Line) -> Line {
    let _no_request: Option<Request> = None;
    let _no_fact: Option<Fact> = None;
    match *line {
        Line::Answer(thread, _) => Line::Answer(thread, 16),
        other => other,
    }
}

/// Whether they agree on these lines with the one at a place changed.
fn agree_changed(alloc: Global, lines: &[Line], place: usize) -> Result<bool, Stop> {
    let _no_request: Option<Request> = None;
    let _no_fact: Option<Fact> = None;
    let mut all = Vec::from_slice(alloc, lines)?;
    if place < all.len() {
        let changed = busy(&all[place]);
        all[place] = changed;
    }
    agree(alloc, all.as_slice())
}

#[test]
fn parts_have_the_verdict_of_the_whole(rt: HostRuntime) -> Result<(), Stop> {
    let lines = whole(rt.alloc())?;
    // Past the last line nothing is changed.
    for place in 0..22_usize {
        let agree = agree_changed(rt.alloc(), lines.as_slice(), place)?;
        assert!(rt; agree, "line {place} is changed");
    }
    Ok(())
}
