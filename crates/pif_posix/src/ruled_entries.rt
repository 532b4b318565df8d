ghost use Rattle.std.specs.Prelude.{◌≡◌, [], map, if◌then◌else◌, All, Contains, IfOk};
ghost use Rattle.pif_posix_steps.specs.Doing.{entered};
ghost use Rattle.pif_rules_model.specs.Rules.{Wide as Widened, WideEnters, has_all_again, end_of};
ghost use Rattle.pif_rules_model.specs.Ruled.{beside, ended_remembering, widely_ended, widely_entered};

use crate::deeds::Deed;
use crate::ruled_ends::ended_by;
use crate::wide::Wide;
use pif_model::{Entry, Event, Seen};
use pif_posix_steps::HistoryLimits;
use pif_rules_model::Rules;
use pif_search::Stop;
use std::alloc::Global;

/// The thread whose end an entry is, if it is one.
fn end_of(entry: &Entry) -> Option<u32>
    ensures { result ≡ end_of entry.now }
{
    match *entry {
        Entry::Step(Event::End(thread), Seen::Ended) => Some(thread.get()),
        _ => None,
    }
}

/// Where entries of a history lead, with rules.
impl Wide {
    /// A thread ends, and it is remembered: all states to which that leads, if each mutex inherits.
    pub(crate) fn ended_remembering(
        &self,
        alloc: Global,
        thread: u32,
        rules: &Rules,
    ) -> Result<Vec<Wide>, Stop>
        ensures { IfOk result (λ v. v.items ≡ ended_remembering rules.now thread self.now) }
    {
        let states = ended_by(alloc, &self.state, rules, thread);
        self.remembering(alloc, thread, states)
    }

    /// A thread ends: all states to which that leads.
    fn widely_ended(&self, alloc: Global, thread: u32, rules: &Rules) -> Result<Vec<Wide>, Stop>
        ensures { IfOk result (λ v. v.items ≡ widely_ended rules.now thread self.now) }
    {
        self.seeing_own(alloc, thread, rules, &Deed::Ends)
    }

    /// One entry that is no end: all states to which it leads.
    fn entered_beside(
        &self,
        alloc: Global,
        limits: &HistoryLimits,
        entry: &Entry,
    ) -> Result<Vec<Wide>, Stop>
        ensures { IfOk result (λ v. v.items ≡ (if has_all_again self.now entry.now then map (beside self.now) (entered limits.now self.now.world entry.now) else [])) }
    {
        if !self.has_all_again(entry) {
            return Ok(Vec::new(alloc));
        }
        self.beside(alloc, self.state.enter(alloc, limits, entry))
    }

    /// One entry: all states to which it leads.
    fn widely_entered(
        &self,
        alloc: Global,
        limits: &HistoryLimits,
        rules: &Rules,
        entry: &Entry,
    ) -> Result<Vec<Wide>, Stop>
        ensures { IfOk result (λ v. v.items ≡ widely_entered rules.now limits.now self.now entry.now) }
    {
        match end_of(entry) {
            None => self.entered_beside(alloc, limits, entry),
            Some(thread) => self.widely_ended(alloc, thread, rules),
        }
    }

    /// The states to which one entry of a history leads that a line shows. By the rules `revives` and `cut_unlock`, the
    /// end of a thread may revive a mutex that it is giving up; by `barge` its robust mutexes may be left free, and by
    /// `stays_locked` they may stay with it. It is remembered if the thread is blocked on a variable. All other entries
    /// lead where `State::enter` says, but the answer of a wait leads nowhere that has holds to take again, by
    /// `wait_gives_all`. This state stays as it is.
    ///
    /// # Errors
    ///
    /// Out of memory, or a number got too great for a state.
    pub fn enter(
        &self,
        alloc: Global,
        limits: &HistoryLimits,
        rules: &Rules,
        entry: &Entry,
    ) -> Result<Vec<Wide>, Stop>
        ensures sound { IfOk result (λ vs. All (λ v. WideEnters rules.now limits.now self.now entry.now v) vs.items) }
        ensures complete { IfOk result (λ vs. (v : Widened) → WideEnters rules.now limits.now self.now entry.now v → Contains vs.items v) }
        ensures value { IfOk result (λ vs. vs.items ≡ widely_entered rules.now limits.now self.now entry.now) }
    {
        self.widely_entered(alloc, limits, rules, entry)
    }
}
