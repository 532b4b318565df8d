ghost use Rattle.std.specs.Prelude.{◌≡◌, ◌≤◌, ◌++◌, ◌∷◌, [], List, length, reverse, IfOk, IfSome, OnOk};
ghost use Rattle.pif_types.specs.Bounds.{Bounds};
ghost use Rattle.pif_history_model.specs.declared.lines.Line.{Line};
ghost use Rattle.pif_history_model.specs.Shown.{IsShown};
ghost use Rattle.pif_parts.specs.Parts.{IsOfWhole};
ghost use Rattle.pif_parts.specs.Standing.{StandFor};
ghost use Rattle.pif_parts_judged.specs.Following.{ComesTo, IsJudged, IsOfOpen, both, lines_most, span};

use pif_components::judge_components;
use pif_history_model::{Fact, HistoryLimits, Line};
use pif_parts::{PartVerdict, Past, Span, WholeVerdict, joined};
use pif_search::{Stop, WatchLines};
use pif_types::Request;
use std::alloc::Global;

/// The most lines that are judged at once. A history that is read whole has at most so many bytes.
const LINES_MOST: usize = 268_435_456;

/// A history that is judged while it is read: its front was judged and found to be legal, and is forgotten.
#[derive(Drop)]
pub struct Judged {
    /// What is known of all lines.
    past: Past,
    /// How many lines the front has.
    count: usize,
    /// The lines that stand for it.
    before: Vec<Line>,
}

/// What judging the open lines of a history came to.
#[derive(Clone, Copy)]
pub enum Step {
    /// They weren't judged, since the history doesn't rest behind them.
    Waits,
    /// They are legal, and belong to the front.
    Legal,
    /// This is so of all lines that were read, which aren't known to be legal.
    Ends(WholeVerdict),
}

/// The lines that stand for the front, and those behind it.
fn both(alloc: Global, before: &[Line], later: &[Line]) -> Result<Vec<Line>, Stop>
    ensures { IfOk result (λ v. v.items ≡ both before.now later.now) }
{
    let _no_request: Option<Request> = None;
    let _no_fact: Option<Fact> = None;
    let mut all = Vec::from_slice(alloc, before)?;
    all.extend_from_slice(later)?;
    Ok(all)
}

/// The place of so many lines behind so many, which begin with these if they stand alone.
fn span(first: usize, count: usize, before: &[Line]) -> Span
    ensures { result ≡ span first count before.now }
{
    let _no_request: Option<Request> = None;
    let _no_fact: Option<Fact> = None;
    Span {
        first,
        count,
        before: before.len(),
    }
}

impl Judged {
    /// Before any line.
    ///
    /// # Errors
    ///
    /// Out of memory.
    pub fn new(alloc: Global) -> Result<Judged, Stop>
        ensures { IfOk result (λ j. (limits : Bounds) → IsJudged limits [] [] j) }
    {
        let _no_request: Option<Request> = None;
        let _no_fact: Option<Fact> = None;
        Ok(Judged {
            past: Past::new(alloc)?,
            count: 0,
            before: Vec::new(alloc),
        })
    }

    /// Hears one more line, which is open.
    ///
    /// # Errors
    ///
    /// Out of memory. What is known is of no use then.
    pub fn hear(&mut self, line: &Line) -> Result<(), Stop>
        ensures { OnOk result ((limits : Bounds) (front later : List Line) → IsJudged limits front later self.old → IsJudged limits front (later ++ line.now ∷ []) self.new) }
    {
        let _no_request: Option<Request> = None;
        let _no_fact: Option<Fact> = None;
        self.past.hear(line)
    }

    /// How many lines the front has.
    pub fn count(&self) -> usize
        ensures { (limits : Bounds) (front later : List Line) → IsJudged limits front later self.now → result ≡ length front }
    {
        let _no_request: Option<Request> = None;
        let _no_fact: Option<Fact> = None;
        self.count
    }

    /// The verdict on all lines, by that on the open ones, of which there are so many, with those that stand for the front.
    fn whole(&self, alloc: Global, later: usize, verdict: PartVerdict) -> WholeVerdict
        ensures { (limits : Bounds) (front lines : List Line) → IsJudged limits front lines self.now → length lines ≡ later
            → later ≤ lines_most → IsOfOpen limits self.now lines verdict → IsOfWhole limits (front ++ lines) result }
    {
        let _no_request: Option<Request> = None;
        let _no_fact: Option<Fact> = None;
        let none: Vec<Line> = Vec::new(alloc);
        let first = span(0, self.count, none.as_slice());
        let last = span(self.count, later, self.before.as_slice());
        joined(&[first, last], &[PartVerdict::Legal, verdict])
    }

    /// The verdict on all lines, of which these are open: these are judged component by component, each with at most so
    /// many states for a line. Nothing is known if more are open than are judged at once.
    ///
    /// # Errors
    ///
    /// Out of memory, or a number got too great for a state. Then nothing is claimed.
    pub fn judge<W: WatchLines>(
        &self,
        alloc: Global,
        limits: HistoryLimits,
        later: &[Line],
        states: usize,
        watch: &mut W,
    ) -> Result<WholeVerdict, Stop>
        ensures { IfOk result (λ v. (front : List Line) → IsJudged limits front later.now self.now → IsOfWhole limits (front ++ later.now) v) }
    {
        let _no_request: Option<Request> = None;
        let _no_fact: Option<Fact> = None;
        if later.len() > LINES_MOST {
            return Ok(WholeVerdict::Undecided(1));
        }
        let all = both(alloc, self.before.as_slice(), later)?;
        let verdict = judge_components(alloc, limits, all.as_slice(), states, watch)?;
        Ok(self.whole(alloc, later.len(), verdict))
    }

    /// The open lines, of which there are so many, are legal and belong to the front, and these lines stand for it. If
    /// there are none, all stays as it is.
    fn forget(&mut self, later: usize, before: Vec<Line>) -> Result<(), Stop>
        ensures { OnOk result ((limits : Bounds) (front lines : List Line) → IsJudged limits front lines self.old → length lines ≡ later
            → IsShown limits (reverse (front ++ lines)) → StandFor limits lines_most (reverse before.items) (reverse (front ++ lines))
            → IsJudged limits (front ++ lines) [] self.new) }
    {
        let _no_request: Option<Request> = None;
        let _no_fact: Option<Fact> = None;
        if later == 0 {
            return Ok(());
        }
        match self.count.checked_add(later) {
            Some(count) => {
                self.count = count;
                self.before = before;
                Ok(())
            }
            None => Err(Stop::Range),
        }
    }

    /// What the verdict on all lines comes to, of which so many are open, and for which these can stand.
    fn settle(
        &mut self,
        later: usize,
        before: Vec<Line>,
        verdict: WholeVerdict,
    ) -> Result<Step, Stop>
        ensures { IfOk result (λ s. (limits : Bounds) (front lines : List Line) → IsJudged limits front lines self.old → length lines ≡ later
            → IsOfWhole limits (front ++ lines) verdict → StandFor limits lines_most (reverse before.items) (reverse (front ++ lines))
            → ComesTo limits front lines self.new s) }
    {
        let _no_request: Option<Request> = None;
        let _no_fact: Option<Fact> = None;
        match verdict {
            WholeVerdict::Legal => {
                self.forget(later, before)?;
                Ok(Step::Legal)
            }
            other => Ok(Step::Ends(other)),
        }
    }

    /// Judges the open lines, if the history rests behind them, and not more than about so many lines stand for all. At
    /// most so many states are made for a line.
    ///
    /// # Errors
    ///
    /// Out of memory, or a number got too great for a state. Then nothing is claimed.
    pub fn judge_part<W: WatchLines>(
        &mut self,
        alloc: Global,
        limits: HistoryLimits,
        later: &[Line],
        most: usize,
        states: usize,
        watch: &mut W,
    ) -> Result<Step, Stop>
        ensures { IfOk result (λ s. (front : List Line) → IsJudged limits front later.now self.old → ComesTo limits front later.now self.new s) }
    {
        let _no_request: Option<Request> = None;
        let _no_fact: Option<Fact> = None;
        if !self.past.is_quiet() {
            return Ok(Step::Waits);
        }
        let Some(before) = self.past.stand_in(alloc, limits, most, LINES_MOST)? else {
            return Ok(Step::Waits);
        };
        let verdict = self.judge(alloc, limits, later, states, watch)?;
        self.settle(later.len(), before, verdict)
    }
}
