ghost use Rattle.std.specs.Prelude.{◌≡◌, ◌≤◌, ◌-◌, map, length, option_map, slice_get, IfOk};
ghost use Rattle.pif_rules_model.specs.Sets.{rules_in_order};
ghost use Rattle.pif_model.specs.declared.events.Entry.TheVariants as entry;
ghost use Rattle.pif_rules_model.specs.Ruled.{widely_entered, widely_moved};
ghost use Rattle.pif_c.specs.Machines.{HappensInPlace, by_numbered, lending_nothing, new_running, next_states, rules_by};

use crate::kept::Kept;
use pif_model::{Entry, Event};
use pif_posix::{State, Wide};
use pif_posix_steps::HistoryLimits;
use pif_rules::{RULES, Rule, Rules, no_rules, only};
use pif_search::{Stop, push};
use pif_types::{Kind, MutexId, Request};
use std::alloc::Global;
use std::marker::Model;

/// By what a thread moves.
#[derive(Clone, Copy)]
pub enum By {
    /// By the POSIX machine itself.
    Itself,
    /// By the POSIX machine itself, or by any rule that is allowed.
    Any,
    /// By the POSIX machine itself, or by this rule, if it is allowed.
    One(Rule),
}

/// What may happen to a machine next.
#[derive(Clone, Copy)]
pub enum Ask {
    /// What a line of a history shows: an addition, the begin of a call, its answer, the end of a thread, or a tick.
    Line(Entry),
    /// The addition of a mutex of PTHREAD_PRIO_NONE, of this kind; true if it is robust.
    AddsNone(MutexId, Kind, bool),
    /// A move of this thread, by this.
    Move(u32, By),
    /// A step of the end of this thread that no line shows.
    EndsApart(u32),
}

/// The POSIX machine in a state, the rules by which it goes, and how much it takes.
#[derive(Drop)]
pub struct Machine {
    pub(crate) kept: Kept,
    pub(crate) rules: Rules,
    pub(crate) limits: HistoryLimits,
}

impl Model for Machine {
    ghost use Rattle.pif_c.specs.Running.{Running};

    ghost Value = { Running };

    ghost view = { λ x. record { wide = x.kept; rules = x.rules; limits = x.limits } };
}

/// The rule of a number, from 1 on, as that by which a thread moves.
fn one_numbered(number: u32) -> Option<By>
    requires { 1 ≤ number }
    ensures { result ≡ option_map By.One (slice_get rules_in_order (number - 1)) }
{
    match RULES.as_slice().get(number as usize - 1) {
        Some(rule) => Some(By::One(*rule)),
        None => None,
    }
}

/// By what a thread moves, of this number: 0 for the machine itself, the greatest for any rule, and else the place of a
/// rule, from 1 on.
pub(crate) fn by_numbered(number: u32) -> Option<By>
    ensures { result ≡ by_numbered number }
{
    match number {
        0 => Some(By::Itself),
        u32::MAX => Some(By::Any),
        _ => one_numbered(number),
    }
}

impl Machine {
    /// A machine to which nothing was added, and which allows no rule.
    pub(crate) fn new(alloc: Global, limits: HistoryLimits) -> Result<Machine, Stop>
        ensures { IfOk result (λ x. x ≡ new_running limits) }
    {
        let state = State::new(alloc, limits.signals)?;
        Ok(Machine {
            kept: Kept::of(Wide::new(alloc, state)),
            rules: no_rules(),
            limits,
        })
    }

    /// The rules that count for a move.
    fn rules_by(&self, by: By) -> Rules
        ensures { result ≡ rules_by by self.now.rules }
    {
        match by {
            By::Itself => no_rules(),
            By::Any => self.rules,
            By::One(rule) => only(&self.rules, rule),
        }
    }

    /// Where an entry of a history leads.
    fn entered(&self, alloc: Global, entry: &Entry) -> Result<Vec<Wide>, Stop>
        ensures { IfOk result (λ v. v.items ≡ widely_entered self.now.rules self.now.limits self.now.wide entry.now) }
    {
        self.kept
            .wide()
            .enter(alloc, &self.limits, &self.rules, entry)
    }

    /// Where a move leads.
    fn moved(&self, alloc: Global, thread: u32, by: By) -> Result<Vec<Wide>, Stop>
        ensures { IfOk result (λ v. v.items ≡ widely_moved (rules_by by self.now.rules) thread self.now.wide) }
    {
        let rules = self.rules_by(by);
        self.kept.wide().moves(alloc, thread, &rules)
    }

    /// What is asked happens in place, and goes to the state at this place, if that is the only one, by the machine itself,
    /// and can be made so; else nothing changes.
    pub(crate) fn happens_in_place(&mut self, alloc: Global, ask: &Ask, place: u32) -> bool
        ensures { HappensInPlace ask.now place self.old self.new result }
    {
        if place != 0 {
            return false;
        }
        match *ask {
            Ask::Line(entry) => self.kept.enter(alloc, &self.limits, &entry),
            Ask::Move(thread, By::Itself) => self.kept.go(alloc, thread),
            _ => false,
        }
    }

    /// The states to which it leads, in the order of the definitions.
    fn next(&self, alloc: Global, ask: &Ask) -> Result<Vec<Wide>, Stop>
        ensures { IfOk result (λ v. v.items ≡ next_states ask.now self.now) }
    {
        match *ask {
            Ask::Line(entry) => self.entered(alloc, &entry),
            Ask::AddsNone(mutex, kind, robust) => self.added_none(alloc, mutex, kind, robust),
            Ask::Move(thread, by) => self.moved(alloc, thread, by),
            Ask::EndsApart(thread) => self.kept.wide().ends_apart(alloc, thread, &self.rules),
        }
    }

    /// Where the addition of a mutex leads that lends nothing.
    fn added_none(
        &self,
        alloc: Global,
        mutex: MutexId,
        kind: Kind,
        robust: bool,
    ) -> Result<Vec<Wide>, Stop>
        ensures { IfOk result (λ v. v.items ≡ map (lending_nothing mutex) (widely_entered self.now.rules self.now.limits self.now.wide (entry.Mutex mutex kind robust))) }
    {
        let added = self.entered(alloc, &Entry::Mutex(mutex, kind, robust))?;
        lending_nothing(alloc, added, mutex.get())
    }

    /// How many states there are to which it leads.
    pub(crate) fn count(&self, alloc: Global, ask: &Ask) -> Result<usize, Stop>
        ensures { IfOk result (λ n. n ≡ length (next_states ask.now self.now)) }
    {
        let all = self.next(alloc, ask)?;
        Ok(all.len())
    }

    /// The state at this place, from 0, of those to which it leads; none if there are so few.
    pub(crate) fn next_at(&self, alloc: Global, ask: &Ask, place: u32) -> Result<Option<Wide>, Stop>
        ensures { IfOk result (λ n. n ≡ slice_get (next_states ask.now self.now) place) }
    {
        let mut all = self.next(alloc, ask)?;
        if place as usize >= all.len() {
            return Ok(None);
        }
        Ok(Some(all.swap_remove(place as usize)))
    }
}

/// These states, of each of which a mutex lends nothing.
fn lending_nothing(alloc: Global, states: Vec<Wide>, mutex: u32) -> Result<Vec<Wide>, Stop>
    ensures { IfOk result (λ v. v.items ≡ map (lending_nothing mutex) states.items) }
{
    let mut all = Vec::new(alloc);
    for wide in states {
        push(&mut all, wide.with_prio_none(alloc, mutex)?)?;
    }
    Ok(all)
}
