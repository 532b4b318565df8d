//! What is known of the lines of a history that were heard; and the lines that stand for them.
ghost use Rattle.std.specs.Prelude.{◌≡◌, ◌-◌, ◌∷◌, [], List, true, reverse, IfOk, IfSome, OnOk};
ghost use Rattle.pif_types.specs.Bounds.{Bounds};
ghost use Rattle.pif_history_model.specs.declared.lines.Line.{Line};
ghost use Rattle.pif_parts_model.specs.Quiet.{IsQuiet};
ghost use Rattle.pif_parts_model.specs.Resting.{world_by};
ghost use Rattle.pif_parts.specs.Resting.{IsRest, are_used_less};
ghost use Rattle.pif_parts.specs.Standing.{GoOnAlike, IsPast, StandFor};

use crate::resting::Rest;
use crate::standing::{Uses, standing_lines};
use crate::watch::Watch;
use pif_history_model::{Fact, HistoryLimits, Line};
use pif_search::Stop;
use pif_types::Request;
use std::alloc::Global;

/// What is known of the lines that were heard.
#[derive(Drop)]
pub struct Past {
    /// Whether the history is quiet behind them.
    watch: Watch,
    /// The state in which it rests then.
    rest: Rest,
}

impl Past {
    /// Before any line.
    ///
    /// # Errors
    ///
    /// Out of memory.
    pub fn new(alloc: Global) -> Result<Past, Stop>
        ensures { IfOk result (IsPast []) }
    {
        Ok(Past {
            watch: Watch::new(alloc),
            rest: Rest::new(alloc)?,
        })
    }

    /// Hears one more line.
    ///
    /// # Errors
    ///
    /// Out of memory. What is known is of no use then.
    pub fn hear(&mut self, line: &Line) -> Result<(), Stop>
        ensures { OnOk result ((lines : List Line) → IsPast lines self.old → IsPast (line.now ∷ lines) self.new) }
    {
        let call = self.watch.call_answered(line);
        self.rest.hear(line, &call)?;
        self.watch.hear(line)
    }

    /// Whether the history is quiet behind the lines that were heard.
    pub fn is_quiet(&self) -> bool
        ensures quiet { (lines : List Line) → IsPast lines self.now → result ≡ true → IsQuiet lines }
        ensures told { (lines : List Line) → IsPast lines self.now → IsQuiet lines → result ≡ true }
    {
        self.watch.is_quiet()
    }

    /// Whether no variable comes to the limit of uses with so many lines more.
    fn stays_below(&self, limits: HistoryLimits, later: usize) -> bool
        ensures { result ≡ are_used_less (limits.signals - later) self.now.rest.conds.items }
    {
        let _no_request: Option<Request> = None;
        let _no_fact: Option<Fact> = None;
        let signals = limits.signals as usize;
        self.rest.is_used_less(signals.saturating_sub(later))
    }

    /// Whether two states are one, or so many lines more go on alike from both, though variables were used more often in
    /// one.
    fn rests_as(&self, other: &Past, limits: HistoryLimits, later: usize) -> bool
        ensures { (lines others : List Line) → IsRest lines self.now.rest → IsRest others other.now.rest → result ≡ true
            → GoOnAlike later (world_by limits lines) (world_by limits others) }
    {
        if self.rest.is_same(&other.rest) {
            return true;
        }
        if !self.rest.is_alike(&other.rest) {
            return false;
        }
        if !self.stays_below(limits, later) {
            return false;
        }
        other.stays_below(limits, later)
    }

    /// Whether the lines that were heard stand for those of another, if at most so many follow: the history is quiet
    /// behind both, and they go on alike.
    fn stands_for(&self, other: &Past, limits: HistoryLimits, later: usize) -> bool
        ensures { (lines others : List Line) → IsPast lines self.now → IsPast others other.now → result ≡ true → StandFor limits later lines others }
    {
        if !self.is_quiet() {
            return false;
        }
        if !other.is_quiet() {
            return false;
        }
        self.rests_as(other, limits, later)
    }

    /// Lines, oldest first, that stand for those that were heard, with these limits and if at most `later` lines follow;
    /// `None` if the history isn't quiet, or if more than about `most` would be needed. They signal each variable as
    /// often as it was used if one of them might come to the limit of uses, and signal none if not.
    ///
    /// # Errors
    ///
    /// Out of memory.
    pub fn stand_in(
        &self,
        alloc: Global,
        limits: HistoryLimits,
        most: usize,
        later: usize,
    ) -> Result<Option<Vec<Line>>, Stop>
        ensures { IfOk result (λ o. IfSome o (λ v. (lines : List Line) → IsPast lines self.now → StandFor limits later (reverse v.items) lines)) }
    {
        let uses = if self.stays_below(limits, later) {
            Uses::Untold
        } else {
            Uses::Told
        };
        let Some(lines) = standing_lines(alloc, &self.rest, most, &uses)? else {
            return Ok(None);
        };
        let past = past_of(alloc, lines.as_slice())?;
        if past.stands_for(self, limits, later) {
            Ok(Some(lines))
        } else {
            Ok(None)
        }
    }
}

/// What is known of these lines, oldest first.
fn past_of(alloc: Global, lines: &[Line]) -> Result<Past, Stop>
    ensures { IfOk result (IsPast (reverse lines.now)) }
{
    let mut past = Past::new(alloc)?;
    for place in 0..lines.len() {
        let line = &lines[place];
        past.hear(line)?;
    }
    Ok(past)
}
