ghost use Rattle.std.specs.Prelude.{◌≡◌, ◌++◌, take, drop, map, IfOk, OnOk};
ghost use Rattle.pif_parts.specs.Parts.{ArePartsOf, IsOfPart, IsOfWhole, alone, span_of};

use pif_components::judge_components;
use pif_history_model::{Fact, HistoryLimits, Line};
use pif_parts::{Part, PartVerdict, Span, WholeVerdict, joined, parts_of};
use pif_search::{Stop, WatchLines, push};
use pif_types::Request;
use std::alloc::Global;

/// The lines of a part as it stands alone.
fn alone(alloc: Global, lines: &[Line], part: &Part) -> Result<Vec<Line>, Stop>
    ensures { IfOk result (λ v. v.items ≡ alone lines.now part.now) }
{
    let _no_request: Option<Request> = None;
    let _no_fact: Option<Fact> = None;
    let mut all = Vec::from_slice(alloc, part.before.as_slice())?;
    let rest = &lines[part.first.min(lines.len())..];
    all.extend_from_slice(&rest[..part.count.min(rest.len())])?;
    Ok(all)
}

/// The place of a part.
fn span_of(part: &Part) -> Span
    ensures { result ≡ span_of part.now }
{
    Span {
        first: part.first,
        count: part.count,
        before: part.before.len(),
    }
}

/// Whether a verdict is that a part is legal.
fn is_legal(verdict: &PartVerdict) -> bool {
    match *verdict {
        PartVerdict::Legal => true,
        PartVerdict::Illegal(_) | PartVerdict::Undecided => false,
    }
}

/// Judges a part.
fn judge_part<W: WatchLines>(
    alloc: Global,
    limits: HistoryLimits,
    lines: &[Line],
    part: &Part,
    states: usize,
    watch: &mut W,
) -> Result<PartVerdict, Stop>
    ensures { IfOk result (IsOfPart limits lines.now part.now) }
{
    let all = alone(alloc, lines, part)?;
    judge_components(alloc, limits, all.as_slice(), states, watch)
}

/// Judges a part, if all before it are legal. Of one behind another part nothing is said.
fn judge_next<W: WatchLines>(
    alloc: Global,
    limits: HistoryLimits,
    lines: &[Line],
    part: &Part,
    are_legal: bool,
    states: usize,
    watch: &mut W,
) -> Result<PartVerdict, Stop>
    ensures { IfOk result (IsOfPart limits lines.now part.now) }
{
    let _no_request: Option<Request> = None;
    let _no_fact: Option<Fact> = None;
    if are_legal {
        return judge_part(alloc, limits, lines, part, states, watch);
    }
    Ok(PartVerdict::Undecided)
}

/// Judges these parts of a history, up to the first that isn't legal.
fn judge_all<W: WatchLines>(
    alloc: Global,
    limits: HistoryLimits,
    lines: &[Line],
    parts: &[Part],
    states: usize,
    watch: &mut W,
) -> Result<WholeVerdict, Stop>
    ensures { IfOk result (λ v. ArePartsOf limits lines.now parts.now → IsOfWhole limits lines.now v) }
{
    let _no_request: Option<Request> = None;
    let _no_fact: Option<Fact> = None;
    let mut spans = Vec::new(alloc);
    let mut verdicts = Vec::new(alloc);
    let mut are_legal = true;
    for number in 0..parts.len() {
        let part = &parts[number];
        let verdict = judge_next(alloc, limits, lines, part, are_legal, states, watch)?;
        are_legal = is_legal(&verdict);
        push(&mut verdicts, verdict)?;
        push(&mut spans, span_of(part))?;
    }
    Ok(joined(spans.as_slice(), verdicts.as_slice()))
}

/// Judges the lines of a history part by part, up to the first part that isn't legal. No rule is allowed. Each part but the
/// last has at least `least` lines, and of a part at most so many states are made for a line.
///
/// # Errors
///
/// Out of memory, or a number got too great for a state. Then nothing is claimed.
pub fn judge_parts<W: WatchLines>(
    alloc: Global,
    limits: HistoryLimits,
    lines: &[Line],
    least: usize,
    states: usize,
    watch: &mut W,
) -> Result<WholeVerdict, Stop>
    ensures { IfOk result (IsOfWhole limits lines.now) }
{
    let parts = parts_of(alloc, limits, lines, least)?;
    judge_all(alloc, limits, lines, parts.as_slice(), states, watch)
}
