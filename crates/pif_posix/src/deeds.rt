ghost use Rattle.std.specs.Prelude.{◌≡◌, ℕ, List, map, IfOk};
ghost use Rattle.pif_rules_model.specs.Lending.{not_owned};
ghost use Rattle.pif_rules_model.specs.Rules.{seen_by_lending, owned_as_before};
ghost use Rattle.pif_rules_model.specs.Ruled.{seeing_lending, done_by};
ghost use Rattle.pif_posix.specs.Deeds.{done_as};

use crate::wide::Wide;
use pif_rules_model::{Rule, Rules};
use pif_search::Stop;
use std::alloc::Global;

/// What a thread does.
#[derive(Clone, Copy)]
pub(crate) enum Deed {
    /// It moves by the plain machine, or waits in a cycle that nobody sees.
    Moves,
    /// It moves by a rule.
    By(Rule),
    /// It ends at one moment.
    Ends,
    /// It does a step of an end that no line shows.
    EndsInSteps,
    /// It has ended, and what had stayed with it passes on, since its process ends.
    PassesLater,
}

/// Where a thread leads that does something, if mutexes lend nothing.
impl Wide {
    /// What a thread does by a rule, if the thread was added.
    fn done_by_rule(
        &self,
        alloc: Global,
        thread: u32,
        rules: &Rules,
        rule: Rule,
    ) -> Result<Vec<Wide>, Stop>
        ensures { IfOk result (λ v. v.items ≡ done_by rules.now rule thread self.now) }
    {
        if thread as usize >= self.state.thread_count() {
            return Err(Stop::Range);
        }
        self.done_by(alloc, thread, rules, rule)
    }

    /// The states to which a thread leads that does this, if all mutexes look as they are, and these lend nothing.
    fn done_as(
        &self,
        alloc: Global,
        thread: u32,
        rules: &Rules,
        deed: &Deed,
        none: &[u32],
    ) -> Result<Vec<Wide>, Stop>
        ensures { IfOk result (λ v. v.items ≡ done_as deed.now rules.now thread none.now self.now) }
    {
        match deed {
            Deed::Moves => self.plainly_moved(alloc, thread, none),
            Deed::By(rule) => self.done_by_rule(alloc, thread, rules, *rule),
            Deed::Ends => self.ended_remembering(alloc, thread, rules),
            Deed::EndsInSteps => self.ended_in_steps(alloc, thread, rules),
            Deed::PassesLater => self.passing_later(alloc, thread, rules),
        }
    }

    /// The same, if these mutexes look free. Behind it they have their owners again.
    fn done_behind(
        &self,
        alloc: Global,
        thread: u32,
        rules: &Rules,
        deed: &Deed,
        none: &[u32],
        hidden: &[u32],
    ) -> Result<Vec<Wide>, Stop>
        ensures { IfOk result (λ v. v.items ≡ map (owned_as_before hidden.now self.now) (done_as deed.now rules.now thread none.now (seen_by_lending hidden.now self.now))) }
    {
        let seen = self.seen_by_lending(alloc, hidden)?;
        let done = seen.done_as(alloc, thread, rules, deed, none);
        self.owned_as_before(alloc, hidden, done)
    }

    /// The states to which a thread leads that does this, if those that look free are these mutexes.
    fn done_seeing(
        &self,
        alloc: Global,
        thread: u32,
        rules: &Rules,
        deed: &Deed,
        none: &[u32],
        hidden: &[u32],
    ) -> Result<Vec<Wide>, Stop>
        ensures { IfOk result (λ v. v.items ≡ seeing_lending hidden.now (done_as deed.now rules.now thread none.now) self.now) }
    {
        if hidden.is_empty() {
            return self.done_as(alloc, thread, rules, deed, none);
        }
        self.done_behind(alloc, thread, rules, deed, none, hidden)
    }

    /// The same, if those look free that the thread doesn't own.
    pub(crate) fn seeing_own(
        &self,
        alloc: Global,
        thread: u32,
        rules: &Rules,
        deed: &Deed,
    ) -> Result<Vec<Wide>, Stop>
        ensures { IfOk result (λ v. v.items ≡ seeing_lending (not_owned self.now.world thread self.now.prio_none) (done_as deed.now rules.now thread self.now.prio_none) self.now) }
    {
        let none = self.prio_none.as_slice();
        let hidden = self.state.not_owned(alloc, thread, none);
        self.seeing_lending(alloc, thread, rules, deed, hidden)
    }

    /// The same, if those that look free could be listed.
    pub(crate) fn seeing_lending(
        &self,
        alloc: Global,
        thread: u32,
        rules: &Rules,
        deed: &Deed,
        hidden: Result<Vec<u32>, Stop>,
    ) -> Result<Vec<Wide>, Stop>
        ensures { (ms : List ℕ) → IfOk hidden (λ v. v.items ≡ ms) → IfOk result (λ v. v.items ≡ seeing_lending ms (done_as deed.now rules.now thread self.now.prio_none) self.now) }
    {
        let hidden = hidden?;
        let none = self.prio_none.as_slice();
        self.done_seeing(alloc, thread, rules, deed, none, hidden.as_slice())
    }
}
