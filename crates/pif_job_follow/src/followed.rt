ghost use Rattle.std.specs.Prelude.{◌≡◌, ◌≢◌, ◌+◌, ◌≤◌, ◌∷◌, ◌++◌, [], ℕ, List, None, Some, IfOk, OnOk, count_by, drop, length, take};
ghost use Rattle.pif_types.specs.Bounds.{Bounds};
ghost use Rattle.pif_history_model.specs.declared.lines.Line.{Line};
ghost use Rattle.pif_history_text.specs.Histories.{Heard, is_begin};
ghost use Rattle.pif_history_text.specs.Reading.{HasNoFeed, IsPaired, heard_of};
ghost use Rattle.pif_parts_judged.specs.Following.{IsJudged};
ghost use Rattle.pif_job_follow.specs.Followed.{EndsTo, HeardLast, HeardNext, forgotten, last_or, IsFollowed, IsOf, IsReading, JudgesTo, TakesTo};

use crate::fronts::hear_line;
use crate::watching::{Numbered, WatchParts};
use arrayvec::ArrayVec;
use pif_history_model::{Fact, HistoryLimits, Line};
use pif_history_text::History;
use pif_job_parts::PartsFault;
use pif_parts::WholeVerdict;
use pif_parts_judged::{Judged, Step};
use pif_script_model::CliFault;
use pif_search::WatchLines;
use pif_text::{Cause, before_feed};
use pif_types::Request;
use std::alloc::Global;

/// How many bytes of a line are kept at most: those of the longest text, of a byte order mark and of a CR. A line with
/// more has a text that is too long.
const LINE_ROOM: usize = 124;

/// How a history is followed.
#[derive(Clone, Copy)]
pub struct Following {
    /// Lines are judged, and forgotten, once there are so many of them, and the history rests behind them.
    pub least: u32,
    /// How many states are made for a line at most.
    pub states: u32,
}

/// A history that is followed.
#[derive(Drop)]
pub struct Followed {
    /// Where memory comes from.
    alloc: Global,
    /// Its lines that aren't judged yet, with its limits.
    pub later: History,
    /// The bytes of the line that is being read.
    line: ArrayVec<u8, LINE_ROOM>,
    /// What was judged.
    pub judged: Judged,
    /// How many calls it begins.
    pub calls: usize,
    /// The number of the last line that was judged; none before that.
    pub up_to: Option<u32>,
}

/// The last of these numbers; or what there was before, if there is none.
fn last_of(numbers: &[u32], before: Option<u32>) -> Option<u32>
    ensures { result ≡ last_or numbers.now before }
{
    match numbers {
        [.., last] => Some(*last),
        [] => before,
    }
}

/// The fault if memory is refused.
const NO_MEMORY: PartsFault = PartsFault::Cli(CliFault::NoMemory);

/// Hears the lines from this place on.
fn hear_from(judged: &mut Judged, lines: &[Line], from: usize) -> Result<(), PartsFault>
    ensures { OnOk result ((limits : Bounds) (front : List Line) → IsJudged limits front (take from lines.now) judged.old
        → IsJudged limits front lines.now judged.new) }
{
    let _no_request: Option<Request> = None;
    let _no_fact: Option<Fact> = None;
    for place in from..lines.len() {
        let line = &lines[place];
        match judged.hear(line) {
            Ok(()) => {}
            Err(_) => return Err(NO_MEMORY),
        }
    }
    Ok(())
}

/// How many of these lines begin a call.
fn calls_in(lines: &[Line]) -> usize
    ensures { result ≡ count_by is_begin lines.now }
{
    lines
        .iter()
        .filter(|line| matches!(**line, Line::Begin(_, _)))
        .count()
}

impl Followed {
    /// Before the first byte.
    ///
    /// # Errors
    ///
    /// Out of memory.
    pub fn new(alloc: Global) -> Result<Followed, PartsFault>
        ensures { IfOk result (IsReading []) }
    {
        match Judged::new(alloc) {
            Ok(judged) => {
                Ok(Followed {
                    alloc,
                    later: History::new(alloc),
                    line: ArrayVec::new(),
                    judged,
                    calls: 0,
                    up_to: None,
                })
            }
            Err(_) => Err(NO_MEMORY),
        }
    }

    /// Takes bytes of a line.
    fn keep(&mut self, bytes: &[u8]) -> Result<(), PartsFault>
        requires plain { HasNoFeed bytes.now }
        ensures { OnOk result ((read : List ℕ) → IsReading read self.old → IsReading (read ++ bytes.now) self.new) }
    {
        if bytes.len() > LINE_ROOM - self.line.len() {
            let number = u64::from(self.later.count).saturating_add(1);
            return Err(PartsFault::Cli(CliFault::Script(number, Cause::Long)));
        }
        let _ = self.line.try_extend_from_slice(bytes);
        Ok(())
    }

    /// Hears the lines that the last line of the text has added behind so many.
    fn take_more(&mut self, before: usize) -> Result<(), PartsFault>
        requires { before ≤ length self.old.later.shown.items }
        ensures later { OnOk result (self.new.later ≡ self.old.later) }
        ensures line { OnOk result (self.new.line.items ≡ self.old.line.items) }
        ensures judged { OnOk result ((limits : Bounds) (front : List Line) → IsJudged limits front (take before self.old.later.shown.items) self.old.judged
            → IsJudged limits front self.old.later.shown.items self.new.judged) }
        ensures up_to { OnOk result (self.new.up_to ≡ self.old.up_to) }
        ensures calls { OnOk result (self.new.calls ≡ self.old.calls + count_by is_begin (drop before self.old.later.shown.items)) }
    {
        hear_from(&mut self.judged, self.later.shown.as_slice(), before)?;
        let more = calls_in(&self.later.shown[before..]);
        match self.calls.checked_add(more) {
            Some(calls) => {
                self.calls = calls;
                Ok(())
            }
            None => Err(NO_MEMORY),
        }
    }

    /// Hears the line so far.
    fn hear(&mut self) -> Result<(), PartsFault>
        ensures heard { OnOk result ((full : Heard) → IsFollowed full self.old → HeardNext full self.old.line.items self.new) }
        ensures line { OnOk result (self.new.line.items ≡ self.old.line.items) }
    {
        let before = self.later.shown.len();
        hear_line(&mut self.later, self.line.as_slice())?;
        self.take_more(before)?;
        Ok(())
    }

    /// Takes the rest of a line, and the LF behind it.
    fn take_line(&mut self, bytes: &[u8]) -> Result<(), PartsFault>
        requires plain { HasNoFeed bytes.now }
        ensures { OnOk result ((read : List ℕ) → IsReading read self.old → IsReading (read ++ (bytes.now ++ 10 ∷ [])) self.new) }
    {
        self.keep(bytes)?;
        self.hear()?;
        self.line.clear();
        Ok(())
    }

    /// Forgets the open lines, which were judged.
    fn forget(&mut self, limits: HistoryLimits)
        ensures later { heard_of self.new.later ≡ forgotten limits (heard_of self.old.later) }
        ensures judged { self.new.judged ≡ self.old.judged }
        ensures line { self.new.line ≡ self.old.line }
        ensures calls { self.new.calls ≡ self.old.calls }
        ensures up_to { self.new.up_to ≡ last_or self.old.later.numbers.items self.old.up_to }
    {
        let _no_request: Option<Request> = None;
        let _no_fact: Option<Fact> = None;
        self.up_to = last_of(self.later.numbers.as_slice(), self.up_to);
        self.later = History {
            named: Some(limits),
            allowed: self.later.allowed,
            shown: Vec::new(self.alloc),
            numbers: Vec::new(self.alloc),
            count: self.later.count,
        };
    }

    /// Judges the open lines if there are enough, and the history rests behind them.
    fn judge_due<V: WatchLines + WatchParts>(
        &mut self,
        asked: Following,
        watch: &mut V,
    ) -> Result<Option<WholeVerdict>, PartsFault>
        ensures judged { IfOk result (λ v. (full : Heard) → IsFollowed full self.old → JudgesTo full self.new v) }
        ensures line { IfOk result (λ v. self.new.line.items ≡ self.old.line.items) }
    {
        let _no_request: Option<Request> = None;
        let _no_fact: Option<Fact> = None;
        let count = self.later.shown.len();
        let least = asked.least as usize;
        if count == 0 || count < least {
            return Ok(None);
        }
        let limits = self.later.limits();
        let mut numbered = Numbered {
            numbers: self.later.numbers.as_slice(),
            watch: &mut *watch,
        };
        let step = match self.judged.judge_part(
            self.alloc,
            limits,
            self.later.shown.as_slice(),
            least.max(count),
            asked.states as usize,
            &mut numbered,
        ) {
            Ok(step) => step,
            Err(_) => return Err(NO_MEMORY),
        };
        match step {
            Step::Waits => Ok(None),
            Step::Legal => {
                self.forget(limits);
                if let Some(line) = self.up_to {
                    watch.legal_up_to(line);
                }
                Ok(None)
            }
            Step::Ends(verdict) => Ok(Some(verdict)),
        }
    }

    /// Takes bytes, and judges lines. Answers what is so of the history as soon as it isn't known to be legal.
    ///
    /// # Errors
    ///
    /// That of a line, or of memory.
    pub fn take<V: WatchLines + WatchParts>(
        &mut self,
        asked: Following,
        bytes: &[u8],
        watch: &mut V,
    ) -> Result<Option<WholeVerdict>, PartsFault>
        ensures { IfOk result (λ v. (read : List ℕ) → IsReading read self.old → TakesTo read bytes.now self.new v) }
    {
        let mut rest = bytes;
        while !rest.is_empty() {
            let plain = before_feed(rest);
            if plain == rest.len() {
                self.keep(rest)?;
                return Ok(None);
            }
            self.take_line(&rest[..plain])?;
            rest = &rest[plain + 1..];
            match self.judge_due(asked, watch)? {
                Some(verdict) => return Ok(Some(verdict)),
                None => {}
            }
        }
        Ok(None)
    }

    /// Ends the text, and judges what is open.
    ///
    /// # Errors
    ///
    /// That of the last line, or of memory.
    pub fn end<V: WatchLines>(
        &mut self,
        asked: Following,
        watch: &mut V,
    ) -> Result<WholeVerdict, PartsFault>
        ensures { IfOk result (λ v. (read : List ℕ) → IsReading read self.old → EndsTo read self.new v) }
    {
        let _no_request: Option<Request> = None;
        let _no_fact: Option<Fact> = None;
        self.hear_rest()?;
        self.judge_rest(asked, watch)
    }

    /// Hears what stands behind the last LF.
    fn hear_rest(&mut self) -> Result<(), PartsFault>
        ensures { OnOk result ((full : Heard) → IsFollowed full self.old → HeardLast full self.old.line.items self.new) }
    {
        if self.line.is_empty() {
            return Ok(());
        }
        self.hear()
    }

    /// Judges the open lines behind which there is nothing.
    fn judge_rest<V: WatchLines>(
        &self,
        asked: Following,
        watch: &mut V,
    ) -> Result<WholeVerdict, PartsFault>
        ensures { IfOk result (λ v. (full : Heard) → IsFollowed full self.now → IsOf full v) }
    {
        let _no_request: Option<Request> = None;
        let _no_fact: Option<Fact> = None;
        let mut numbered = Numbered {
            numbers: self.later.numbers.as_slice(),
            watch,
        };
        match self.judged.judge(
            self.alloc,
            self.later.limits(),
            self.later.shown.as_slice(),
            asked.states as usize,
            &mut numbered,
        ) {
            Ok(verdict) => Ok(verdict),
            Err(_) => Err(NO_MEMORY),
        }
    }
}
