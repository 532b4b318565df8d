ghost use Rattle.std.specs.Prelude.{◌≡◌, [], map, if◌then◌else◌, All, Contains, IfOk};
ghost use Rattle.pif_rules_model.specs.Rules.{Wide as Widened, WideEndsApart, has_ended_apart};
ghost use Rattle.pif_rules_model.specs.Ruled.{beside, passed_apart, passing_later, passed_later, ended_in_steps, ended_apart, has_released};

use crate::deeds::Deed;
use crate::ruled_ends::{left_apart, passed_apart};
use crate::wide::Wide;
use crate::wide_lists::joined;
use pif_rules_model::Rules;
use pif_search::Stop;
use std::alloc::Global;

/// Ends that happen piece by piece.
impl Wide {
    /// The states once one of the robust mutexes that a thread, which has ended, still owns has passed on, or is left
    /// free, if each mutex inherits.
    pub(crate) fn passing_later(
        &self,
        alloc: Global,
        thread: u32,
        rules: &Rules,
    ) -> Result<Vec<Wide>, Stop>
        ensures { IfOk result (λ v. v.items ≡ passing_later rules.now thread self.now) }
    {
        let passed = passed_apart(alloc, &self.state, rules, thread);
        self.beside(alloc, passed)
    }

    /// The same of a thread that ended by `ends_apart`.
    fn passed_apart(&self, alloc: Global, thread: u32, rules: &Rules) -> Result<Vec<Wide>, Stop>
        ensures { IfOk result (λ v. v.items ≡ (if has_ended_apart self.now thread then map (beside self.now) (passed_apart rules.now thread self.now.world) else [])) }
    {
        if !self.has_ended_apart(thread) {
            return Ok(Vec::new(alloc));
        }
        self.passing_later(alloc, thread, rules)
    }

    /// The states to which a step of a thread's end leads that no line shows, if each mutex inherits.
    pub(crate) fn ended_in_steps(
        &self,
        alloc: Global,
        thread: u32,
        rules: &Rules,
    ) -> Result<Vec<Wide>, Stop>
        ensures { IfOk result (λ v. v.items ≡ ended_in_steps rules.now thread self.now) }
    {
        let left = left_apart(alloc, &self.state, rules, thread);
        joined(
            self.remembering_apart(alloc, thread, left),
            self.passed_apart(alloc, thread, rules),
        )
    }

    /// By `ends_apart`: the states to which a step of a thread's end leads that no line shows.
    fn ended_apart(&self, alloc: Global, thread: u32, rules: &Rules) -> Result<Vec<Wide>, Stop>
        ensures { IfOk result (λ v. v.items ≡ ended_apart rules.now thread self.now) }
    {
        if !rules.ends_apart {
            return Ok(Vec::new(alloc));
        }
        self.seeing_own(alloc, thread, rules, &Deed::EndsInSteps)
    }

    /// The states to which one step of a thread's end leads that no line shows, by the rule `ends_apart`: the thread
    /// lives no more, or one of the robust mutexes that it still owns after that passes on. None without the rule, for
    /// a thread that was never added, and for one that ended otherwise. This state stays as it is.
    ///
    /// # Errors
    ///
    /// Out of memory, or a number got too great for a state.
    pub fn ends_apart(&self, alloc: Global, thread: u32, rules: &Rules) -> Result<Vec<Wide>, Stop>
        ensures sound { IfOk result (λ vs. All (λ v. WideEndsApart rules.now thread self.now v) vs.items) }
        ensures complete { IfOk result (λ vs. (v : Widened) → WideEndsApart rules.now thread self.now v → Contains vs.items v) }
        ensures value { IfOk result (λ vs. vs.items ≡ ended_apart rules.now thread self.now) }
    {
        self.ended_apart(alloc, thread, rules)
    }

    /// The states to which it leads that no line shows if the process of a thread, which has ended, ends, too: one of the
    /// robust mutexes that had stayed with the thread by the rule `stays_locked` passes on, or by `barge` is left free.
    /// None for a thread that lives or was never added. This state stays as it is.
    ///
    /// # Errors
    ///
    /// Out of memory, or a number got too great for a state.
    pub fn passed_later(&self, alloc: Global, thread: u32, rules: &Rules) -> Result<Vec<Wide>, Stop>
        ensures { IfOk result (λ v. v.items ≡ passed_later rules.now thread self.now) }
    {
        self.seeing_own(alloc, thread, rules, &Deed::PassesLater)
    }

    /// Whether a thread, which has ended, has released its robust mutexes as it has to: if it ended by `ends_apart`, it
    /// owns none any more, or may keep those that are left by `stays_locked`. Other threads did so when they ended.
    pub fn has_released(&self, thread: u32, rules: &Rules) -> bool
        ensures { result ≡ has_released rules.now thread self.now }
    {
        if !self.has_ended_apart(thread) {
            return true;
        }
        if rules.stays_locked {
            return true;
        }
        self.state.robust_count(thread) == 0
    }
}
