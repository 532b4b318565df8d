//! A state in which steps are made in place.
ghost use Rattle.std.specs.Prelude.{◌≡◌, ◌∷◌, [], true, false, is_some, IfSome};
ghost use Rattle.pif_posix_steps.specs.Doing.{entered};
ghost use Rattle.pif_rules_model.specs.Lending.{not_named};
ghost use Rattle.pif_rules_model.specs.Rules.{end_of};
ghost use Rattle.pif_rules_model.specs.Ruled.{beside, widely_entered, widely_moved};
ghost use Rattle.pif_rules_model.specs.Sets.{no_rules};
ghost use Rattle.pif_rules_model.specs.declared.rules.Rules.{Rules};
ghost use Rattle.pif_c.specs.Machines.{ClosesNone, MovesUnseen, are_owned_alike, opens_no_cycle};

use pif_model::{Entry, Event, Seen};
use pif_posix::{State, Wide, named_by};
use pif_posix_steps::HistoryLimits;
use pif_types::Request;
use std::alloc::Global;
use std::marker::Model;

/// A state of the machine with rules, kept twice, so that a step in place can be undone.
#[derive(Drop)]
pub struct Kept {
    wide: Wide,
    second: Option<State>,
}

impl Model for Kept {
    ghost use Rattle.std.specs.Prelude.{◌≡◌, IfSome};
    ghost use Rattle.pif_rules_model.specs.Rules.{Wide as Widened};

    ghost Value = { Widened };

    ghost view = { λ x. x.wide };

    ghost invariant = { λ x. IfSome x.second (λ w. w ≡ x.wide.world) };
}

/// Whether an entry is the end of a thread.
fn is_end(entry: &Entry) -> bool
    ensures { result ≡ is_some (end_of entry.now) }
{
    match *entry {
        Entry::Step(Event::End(_), Seen::Ended) => true,
        _ => false,
    }
}

/// Where an entry leads in place, if it can be made.
fn entered(alloc: Global, state: State, limits: &HistoryLimits, entry: &Entry) -> Option<State>
    ensures { IfSome result (λ n. entered limits.now state entry.now ≡ n ∷ []) }
{
    let mut next = state;
    match next.come(alloc, limits, entry) {
        Ok(true) => Some(next),
        _ => None,
    }
}

/// Whether a mutex is free, or its owner is this thread or doesn't wait for it.
fn opens_no_cycle(state: &State, thread: u32, mutex: u32) -> bool
    ensures { result ≡ opens_no_cycle thread state.now mutex }
{
    let owner = state.owner_or_none(mutex as usize);
    owner == 0 || owner == thread || !state.leads_to(owner as usize, thread as usize)
}

/// Whether a thread closes no cycle that nobody sees, since the mutex that its call names opens none.
fn closes_none(state: &State, thread: u32) -> bool
    ensures { result ≡ true → ClosesNone thread state.now }
{
    let _no_event: Option<Event> = None;
    match &state.call(thread as usize) {
        None => false,
        Some(call) => opens_no_cycle(state, thread, named_by(&call.request)),
    }
}

/// Where a move of a thread leads, made in place, to which these mutexes look free; they have then the owners that they
/// have in the other state. None if it doesn't lead to one state alone, or can't be made so.
fn moved_unseen(
    alloc: Global,
    state: State,
    thread: u32,
    hidden: &[u32],
    owners: &State,
) -> Option<State>
    ensures { IfSome result (λ n. MovesUnseen hidden.now thread state owners.now n) }
{
    let _no_event: Option<Event> = None;
    let mut next = state;
    next.look_free(hidden).ok()?;
    if !closes_none(&next, thread) || !next.go(alloc, thread).ok()? {
        return None;
    }
    next.own_as_in(owners, hidden).ok()?;
    Some(next)
}

/// Whether each of these mutexes has the same owner in both states.
fn are_owned_alike(mutexes: &[u32], state: &State, other: &State) -> bool
    ensures { result ≡ are_owned_alike mutexes.now state.now other.now }
{
    mutexes.iter().all(|m| state.owner_or_none(*m as usize) == other.owner_or_none(*m as usize))
}

/// Where the same move of a thread leads from a copy of the state before, if this state is where it has led; none if it
/// can't be made again.
fn in_step(
    alloc: Global,
    before: State,
    thread: u32,
    hidden: &[u32],
    state: &State,
) -> Option<State>
    ensures { MovesUnseen hidden.now thread before before state.now → IfSome result (λ w. w ≡ state.now) }
{
    if are_owned_alike(hidden, state, &before) {
        moved_unseen(alloc, before, thread, hidden, state)
    } else {
        None
    }
}

impl Kept {
    /// This state.
    pub(crate) fn of(wide: Wide) -> Kept
        ensures { result ≡ wide }
    {
        Kept { wide, second: None }
    }

    /// The state.
    pub(crate) fn wide(&self) -> &Wide
        ensures { result.now ≡ self.now }
    {
        &self.wide
    }

    /// It is another state now.
    pub(crate) fn set(&mut self, wide: Wide)
        ensures { self.new ≡ wide }
    {
        self.wide = wide;
        self.second = None;
    }

    /// The second one, taken out; none if there is no memory for it.
    fn take_second(&mut self, alloc: Global) -> Option<State>
        ensures second { IfSome result (λ w. w ≡ self.old.world) }
        ensures same { self.new ≡ self.old }
    {
        match std::mem::replace(&mut self.second, None) {
            Some(state) => Some(state),
            None => self.wide.state.copied(alloc).ok(),
        }
    }

    /// One entry in place, if it leads to one state and that can be made; else nothing changes.
    pub(crate) fn enter(&mut self, alloc: Global, limits: &HistoryLimits, entry: &Entry) -> bool
        ensures came { result ≡ true → (r : Rules) → widely_entered r limits.now self.old entry.now ≡ self.new ∷ [] }
        ensures same { result ≡ false → self.new ≡ self.old }
    {
        if is_end(entry) || !self.wide.has_all_again(entry) {
            return false;
        }
        let Some(second) = self.take_second(alloc) else {
            return false;
        };
        match self.wide.state.come(alloc, limits, entry) {
            Ok(true) => {
                self.second = entered(alloc, second, limits, entry);
                true
            }
            _ => {
                self.wide.state = second;
                false
            }
        }
    }

    /// The mutexes that look free to a move of a thread; none if there is no memory for them.
    fn hidden(&self, alloc: Global, thread: u32) -> Option<Vec<u32>>
        ensures { IfSome result (λ v. v.items ≡ not_named self.now.world thread self.now.prio_none) }
    {
        let prio_none = self.wide.prio_none.as_slice();
        self.wide.state.not_named(alloc, thread, prio_none).ok()
    }

    /// One move of a thread in place, to which these mutexes look free, if it leads to one state alone and can be made so;
    /// else nothing changes.
    fn go_unseen(&mut self, alloc: Global, thread: u32, hidden: &[u32]) -> bool
        ensures went { result ≡ true → MovesUnseen hidden.now thread self.old.world self.old.world self.new.world }
        ensures beside { self.new ≡ beside self.old self.new.world }
        ensures same { result ≡ false → self.new ≡ self.old }
    {
        let Some(second) = self.take_second(alloc) else {
            return false;
        };
        let first = std::mem::replace(&mut self.wide.state, second);
        let Some(next) = moved_unseen(alloc, first, thread, hidden, &self.wide.state) else {
            return false;
        };
        let before = std::mem::replace(&mut self.wide.state, next);
        self.second = in_step(alloc, before, thread, hidden, &self.wide.state);
        true
    }

    /// One move of a thread by the machine itself in place, if it leads to one state alone and can be made so; else nothing
    /// changes.
    pub(crate) fn go(&mut self, alloc: Global, thread: u32) -> bool
        ensures went { result ≡ true → widely_moved no_rules thread self.old ≡ self.new ∷ [] }
        ensures same { result ≡ false → self.new ≡ self.old }
    {
        match self.hidden(alloc, thread) {
            Some(hidden) => self.go_unseen(alloc, thread, hidden.as_slice()),
            None => false,
        }
    }
}
