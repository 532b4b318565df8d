//! The parts of a history, each of which stands alone.
ghost use Rattle.std.specs.Prelude.{◌≡◌, ◌≤◌, ◌<◌, ◌-◌, [], List, take, reverse, length, IfOk, OnOk};
ghost use Rattle.pif_types.specs.Bounds.{Bounds};
ghost use Rattle.pif_history_model.specs.declared.lines.Line.{Line};
ghost use Rattle.pif_parts.specs.Standing.{IsPast};
ghost use Rattle.pif_parts.specs.Parts.{ArePartsOf, IsCutting, StandForFirst};

use crate::past::Past;
use pif_history_model::{Fact, HistoryLimits, Line};
use pif_search::{Stop, push};
use pif_types::Request;
use std::alloc::Global;

/// A part of a history.
#[derive(Drop)]
pub struct Part {
    /// How many lines of the history come before it.
    pub first: usize,
    /// How many lines it has.
    pub count: usize,
    /// The lines with which it begins if it stands alone, in place of those before it.
    pub before: Vec<Line>,
}

/// The place of a part.
#[derive(Clone, Copy)]
pub struct Span {
    /// How many lines of the history come before it.
    pub first: usize,
    /// How many lines it has.
    pub count: usize,
    /// With how many others it begins if it stands alone.
    pub before: usize,
}

/// How lines were cut so far.
#[derive(Drop)]
pub struct Cutting {
    /// The parts that have ended.
    parts: Vec<Part>,
    /// How many lines they have.
    first: usize,
    /// What the next part begins with.
    before: Vec<Line>,
}

impl Cutting {
    /// Nothing was cut.
    fn new(alloc: Global) -> Cutting
        ensures first { result.first ≡ 0 }
        ensures cut { (limits : Bounds) (lines : List Line) → IsCutting limits lines result }
    {
        let _no_request: Option<Request> = None;
        let _no_fact: Option<Fact> = None;
        Cutting {
            parts: Vec::new(alloc),
            first: 0,
            before: Vec::new(alloc),
        }
    }

    /// The next part ends before the line at this place. The one after it begins with these lines.
    fn cut(&mut self, place: usize, before: Vec<Line>) -> Result<(), Stop>
        requires { self.old.first ≤ place }
        ensures { OnOk result ((self.new.first ≡ place) × ((limits : Bounds) (lines : List Line) → IsCutting limits lines self.old → StandForFirst limits lines place before.items → IsCutting limits lines self.new)) }
    {
        let _no_request: Option<Request> = None;
        let _no_fact: Option<Fact> = None;
        let first = self.first;
        let count = place - first;
        let before = std::mem::replace(&mut self.before, before);
        push(
            &mut self.parts,
            Part {
                first,
                count,
                before,
            },
        )?;
        self.first = place;
        Ok(())
    }

    /// Cuts before the line at this place of so many lines, if the history rests there. The part that ends has at least
    /// `least` lines, and not more than about as many stand for all lines before the place.
    fn cut_if_quiet(
        &mut self,
        alloc: Global,
        limits: HistoryLimits,
        place: usize,
        count: usize,
        past: &Past,
        least: usize,
    ) -> Result<(), Stop>
        requires { self.old.first ≤ place }
        ensures { OnOk result ((self.new.first ≤ place) × ((lines : List Line) → length lines ≡ count → IsCutting limits lines self.old → IsPast (reverse (take place lines)) past.now → IsCutting limits lines self.new)) }
    {
        let _no_request: Option<Request> = None;
        let _no_fact: Option<Fact> = None;
        if place - self.first < least || !past.is_quiet() {
            return Ok(());
        }
        match past.stand_in(alloc, limits, least, count.saturating_sub(place))? {
            Some(before) => self.cut(place, before),
            None => Ok(()),
        }
    }

    /// The parts of so many lines, of which the last ends with them.
    fn ended(self, count: usize) -> Result<Vec<Part>, Stop>
        requires { self.first ≤ count }
        ensures { IfOk result (λ v. (limits : Bounds) (lines : List Line) → length lines ≡ count → IsCutting limits lines self → ArePartsOf limits lines v.items) }
    {
        let _no_request: Option<Request> = None;
        let _no_fact: Option<Fact> = None;
        let Cutting {
            mut parts,
            first,
            before,
        } = self;
        push(
            &mut parts,
            Part {
                first,
                count: count - first,
                before,
            },
        )?;
        Ok(parts)
    }
}

/// The parts of these lines, oldest first, each but the last with at least so many. The first part begins with no other
/// lines, and each other one with about as many at most. If more are needed, the last part goes on to the end: that is so
/// if very much was added, or if a variable was used very often and might come to the limit of uses.
///
/// # Errors
///
/// Out of memory.
pub fn parts_of(
    alloc: Global,
    limits: HistoryLimits,
    lines: &[Line],
    least: usize,
) -> Result<Vec<Part>, Stop>
    ensures { IfOk result (λ v. ArePartsOf limits lines.now v.items) }
{
    let _no_request: Option<Request> = None;
    let _no_fact: Option<Fact> = None;
    let mut past = Past::new(alloc)?;
    let mut cutting = Cutting::new(alloc);
    for place in 0..lines.len() {
        cutting.cut_if_quiet(alloc, limits, place, lines.len(), &past, least)?;
        let line = &lines[place];
        past.hear(line)?;
    }
    cutting.ended(lines.len())
}
