ghost use Rattle.std.specs.Prelude.{◌≡◌, All, Contains, IfOk};
ghost use Rattle.pif_model.specs.Posix.{World};
ghost use Rattle.pif_posix_steps.specs.Once.{Enters};
ghost use Rattle.pif_posix_steps.specs.Doing.{entered};
ghost use Rattle.pif_posix.specs.Results.{if_done, entered_in_place};

use crate::state::State;
use pif_model::{Entry, Event, Seen};
use pif_posix_steps::HistoryLimits;
use pif_search::{Stop, one};
use pif_types::Request;
use std::alloc::Global;

/// The state, if a function did what it was to do.
pub(crate) fn if_done(alloc: Global, did: bool, state: State) -> Result<Vec<State>, Stop>
    ensures { IfOk result (λ v. v.items ≡ if_done did state) }
{
    if did {
        one(alloc, state)
    } else {
        Ok(Vec::new(alloc))
    }
}

/// Where entries of a history lead.
impl State {
    /// The state to which one entry leads; none if it can't happen, and for the end of a thread.
    fn entered_in_place(
        &self,
        alloc: Global,
        limits: &HistoryLimits,
        entry: &Entry,
    ) -> Result<Vec<State>, Stop>
        ensures { IfOk result (λ v. v.items ≡ entered_in_place limits.now self.now entry.now) }
    {
        let mut next = self.copied(alloc)?;
        let did = next.comes(alloc, limits, entry)?;
        if_done(alloc, did, next)
    }

    /// The states to which one entry leads, in the order of the definitions.
    fn entered(
        &self,
        alloc: Global,
        limits: &HistoryLimits,
        entry: &Entry,
    ) -> Result<Vec<State>, Stop>
        ensures { IfOk result (λ v. v.items ≡ entered limits.now self.now entry.now) }
    {
        match *entry {
            Entry::Step(Event::End(thread), Seen::Ended) => self.ended(alloc, thread.get()),
            Entry::Step(Event::End(_), _) => Ok(Vec::new(alloc)),
            Entry::Step(Event::Go(thread), Seen::Answered(answer))
                if !self.is_answered(thread.get() as usize, answer) => { Ok(Vec::new(alloc)) }
            _ => self.entered_in_place(alloc, limits, entry),
        }
    }

    /// The states to which one entry of a history leads that a line shows: an addition, the begin of a call, an answer,
    /// the end of a thread or a tick. Nothing moves beside it. None if it can't happen, and for an entry that is
    /// refused or closes no call; several for an end, by the order in which robust mutexes pass on. This state stays as
    /// it is.
    ///
    /// # Errors
    ///
    /// Out of memory, or a number got too great for a state.
    pub fn enter(
        &self,
        alloc: Global,
        limits: &HistoryLimits,
        entry: &Entry,
    ) -> Result<Vec<State>, Stop>
        ensures sound { IfOk result (λ vs. All (λ v. Enters limits.now self.now entry.now v) vs.items) }
        ensures complete { IfOk result (λ vs. (v : World) → Enters limits.now self.now entry.now v → Contains vs.items v) }
        ensures value { IfOk result (λ vs. vs.items ≡ entered limits.now self.now entry.now) }
    {
        self.entered(alloc, limits, entry)
    }
}
