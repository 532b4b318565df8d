ghost use Rattle.std.specs.Prelude.{◌≡◌, ◌==◌, ◌<◌, ℕ, length, All, Contains, IfOk};
ghost use Rattle.std.specs.List.{list_any};
ghost use Rattle.pif_model.specs.World.{with_progress};
ghost use Rattle.pif_model.specs.World.Progress.{Has};
ghost use Rattle.pif_rules_model.specs.Lending.{not_named};
ghost use Rattle.pif_rules_model.specs.Rules.{Wide as Widened, WideMoves, hidden_from, without_one};
ghost use Rattle.pif_rules_model.specs.Ruled.{one_if, seeing_lending, plainly_moved, signal_lost, done_by, moved_by_rule, widely_moved};

use crate::barging::barged;
use crate::cycles::{refused_cycle, waiting_in_cycle};
use crate::deeds::Deed;
use crate::errors::failed_otherwise;
use crate::health::{mended_by_any, mended_or_refused};
use crate::lending::moved_or_waiting;
use crate::locks::{locked_within, stolen_by, tried_own};
use crate::lost::{is_there, without_one};
use crate::next::signalled_next;
use crate::priorities::priority_refused;
use crate::ruled_variables::{bound_anew, signal_consumed, used_by};
use crate::wakes::{any_woken, waiting_held, woken_by_itself};
use crate::wide::Wide;
use crate::wide_lists::{append, joined};
use crate::{Progress, State};
use pif_rules_model::{RULES, Rule, Rules, has};
use pif_search::{Stop, one};
use std::alloc::Global;

/// Where moves lead, by the plain machine and by rules.
impl Wide {
    /// The state once a signal of a thread on a variable is lost.
    fn with_signal_lost(&self, alloc: Global, thread: u32, variable: u32) -> Result<Wide, Stop>
        requires { thread < length self.now.world.threads }
        ensures { IfOk result (λ n. n ≡ record self.now { world = with_progress thread (Has 0) self.now.world; lost = without_one variable self.now.lost }) }
    {
        let mut state = self.state.copied(alloc)?;
        state.set_progress(thread as usize, Progress::Has(0));
        let lost = without_one(alloc, variable, self.lost.as_slice())?;
        self.with(alloc, state, lost.as_slice(), self.given.as_slice())
    }

    /// The same as a list; none if no signal on the variable can be lost.
    fn signal_lost_on(&self, alloc: Global, thread: u32, variable: u32) -> Result<Vec<Wide>, Stop>
        requires { thread < length self.now.world.threads }
        ensures { IfOk result (λ v. v.items ≡ one_if (list_any (λ x. x == variable) self.now.lost) (record self.now { world = with_progress thread (Has 0) self.now.world; lost = without_one variable self.now.lost })) }
    {
        if !is_there(self.lost.as_slice(), variable) {
            return Ok(Vec::new(alloc));
        }
        let next = self.with_signal_lost(alloc, thread, variable)?;
        one(alloc, next)
    }

    /// The state once a signal of a thread is lost; none if it can't be lost.
    fn signal_lost(&self, alloc: Global, thread: u32) -> Result<Vec<Wide>, Stop>
        requires { thread < length self.now.world.threads }
        ensures { IfOk result (λ v. v.items ≡ signal_lost thread self.now) }
    {
        match signalled_next(&self.state, thread as usize) {
            None => Ok(Vec::new(alloc)),
            Some(variable) => self.signal_lost_on(alloc, thread, variable),
        }
    }

    /// What a thread does by a rule: all states to which it leads.
    pub(crate) fn done_by(
        &self,
        alloc: Global,
        thread: u32,
        rules: &Rules,
        rule: Rule,
    ) -> Result<Vec<Wide>, Stop>
        requires { thread < length self.now.world.threads }
        ensures { IfOk result (λ v. v.items ≡ done_by rules.now rule thread self.now) }
    {
        let state = &self.state;
        match rule {
            Rule::Steal => self.beside(alloc, stolen_by(alloc, state, thread)),
            Rule::AnyWaiter => self.beside(alloc, any_woken(alloc, state, thread)),
            Rule::Spurious => self.beside(alloc, woken_by_itself(alloc, state, thread)),
            Rule::Recursion => {
                self.beside(alloc, locked_within(alloc, state, rules.recursion, thread))
            }
            Rule::OwnErrorcheck => self.beside(alloc, tried_own(alloc, state, thread)),
            Rule::AnyConsistent => self.beside(alloc, mended_or_refused(alloc, state, thread)),
            Rule::HeldWait => self.beside(alloc, waiting_held(alloc, state, thread)),
            Rule::LostSignal => self.signal_lost(alloc, thread),
            Rule::Barge => self.beside(alloc, barged(alloc, state, thread)),
            Rule::CycleWaits => self.beside(alloc, waiting_in_cycle(alloc, state, thread)),
            Rule::CycleRefused => self.beside(alloc, refused_cycle(alloc, state, thread)),
            Rule::TimeoutConsumes => self.beside(alloc, signal_consumed(alloc, state, thread)),
            Rule::Rebinds => self.beside(alloc, bound_anew(alloc, state, thread)),
            Rule::MoreUses => self.beside(alloc, used_by(alloc, state, thread)),
            Rule::RefusesSetprio => self.beside(alloc, priority_refused(alloc, state, thread)),
            Rule::ConsistentByAny => self.beside(alloc, mended_by_any(alloc, state, thread)),
            Rule::OtherError => self.beside(alloc, failed_otherwise(alloc, state, thread)),
            Rule::WaitGivesAll => self.hold_moved(alloc, thread),
            Rule::Revives | Rule::EndsApart | Rule::StaysLocked | Rule::CutUnlock => {
                Ok(Vec::new(alloc))
            }
        }
    }

    /// The mutexes that look free to what a thread does by a rule.
    fn hidden_from(&self, alloc: Global, thread: u32, rule: Rule) -> Result<Vec<u32>, Stop>
        ensures { IfOk result (λ v. v.items ≡ hidden_from rule thread self.now) }
    {
        let none = self.prio_none.as_slice();
        self.state.hidden_from(alloc, thread, &rule, none)
    }

    /// What a thread does by a rule in this state as lending sees it: all states to which it leads.
    fn done_seeing_lending(
        &self,
        alloc: Global,
        thread: u32,
        rules: &Rules,
        rule: Rule,
    ) -> Result<Vec<Wide>, Stop>
        ensures { IfOk result (λ v. v.items ≡ seeing_lending (hidden_from rule thread self.now) (done_by rules.now rule thread) self.now) }
    {
        let hidden = self.hidden_from(alloc, thread, rule);
        self.seeing_lending(alloc, thread, rules, &Deed::By(rule), hidden)
    }

    /// A move of a thread by a rule: all states to which it leads.
    fn moved_by_rule(&self, alloc: Global, thread: u32, rules: &Rules) -> Result<Vec<Wide>, Stop>
        ensures { IfOk result (λ v. v.items ≡ moved_by_rule rules.now thread self.now) }
    {
        let mut all = Vec::new(alloc);
        for rule in &RULES {
            if has(rules, *rule) {
                append(
                    &mut all,
                    self.done_seeing_lending(alloc, thread, rules, *rule),
                )?;
            }
        }
        Ok(all)
    }

    /// A move of a thread by the plain machine, or its waiting in a cycle that nobody sees, if these mutexes lend nothing.
    pub(crate) fn plainly_moved(
        &self,
        alloc: Global,
        thread: u32,
        none: &[u32],
    ) -> Result<Vec<Wide>, Stop>
        ensures { IfOk result (λ v. v.items ≡ plainly_moved thread none.now self.now) }
    {
        self.beside(alloc, moved_or_waiting(alloc, &self.state, none, thread))
    }

    /// The same in this state as lending sees it.
    fn moved_seeing_lending(
        &self,
        alloc: Global,
        thread: u32,
        rules: &Rules,
    ) -> Result<Vec<Wide>, Stop>
        ensures { IfOk result (λ v. v.items ≡ seeing_lending (not_named self.now.world thread self.now.prio_none) (plainly_moved thread self.now.prio_none) self.now) }
    {
        let none = self.prio_none.as_slice();
        let hidden = self.state.not_named(alloc, thread, none);
        self.seeing_lending(alloc, thread, rules, &Deed::Moves, hidden)
    }

    /// A move of a thread, by the plain machine or by a rule: all states to which it leads.
    fn widely_moved(&self, alloc: Global, thread: u32, rules: &Rules) -> Result<Vec<Wide>, Stop>
        ensures { IfOk result (λ v. v.items ≡ widely_moved rules.now thread self.now) }
    {
        let plain = self.moved_seeing_lending(alloc, thread, rules);
        if self.state.go_refusal(thread).is_some() {
            return plain;
        }
        joined(plain, self.moved_by_rule(alloc, thread, rules))
    }

    /// The states to which one move of a thread leads, by the plain machine or by one of the rules that are allowed.
    /// First come those of `State::moves`. None if it can do nothing, or was never added. This state stays as it is.
    ///
    /// # Errors
    ///
    /// Out of memory, or a number got too great for a state.
    pub fn moves(&self, alloc: Global, thread: u32, rules: &Rules) -> Result<Vec<Wide>, Stop>
        ensures sound { IfOk result (λ vs. All (λ v. WideMoves rules.now thread self.now v) vs.items) }
        ensures complete { IfOk result (λ vs. (v : Widened) → WideMoves rules.now thread self.now v → Contains vs.items v) }
        ensures value { IfOk result (λ vs. vs.items ≡ widely_moved rules.now thread self.now) }
    {
        self.widely_moved(alloc, thread, rules)
    }
}
