ghost use Rattle.std.specs.Prelude.{◌≡◌, ◌<◌, ◌++◌, ◌∷◌, [], ℕ, length, map, IfOk, OnOk};
ghost use Rattle.std.specs.List.{flat_map};
ghost use Rattle.pif_model.specs.Posix.{after_end};
ghost use Rattle.pif_posix_steps.specs.Doing.{robust_of};
ghost use Rattle.pif_rules_model.specs.Ruled.{one_if, may_revive, revived_if, found_by, passed_by_death, released_by, all_released, ended_found, ended_by, left_apart, passed_apart};

use crate::State;
use crate::choices::push_within;
use crate::health::is_unusable;
use crate::next::{is_mutex_of, unlocked_next};
use crate::wide_lists::append;
use pif_rules_model::Rules;
use pif_search::{Stop, one, push};
use pif_types::Health;
use std::alloc::Global;

/// Whether an end of a thread may find a mutex that it owns inconsistent again.
fn may_revive(state: &State, rules: &Rules, thread: u32, mutex: u32) -> Result<bool, Stop>
    ensures { IfOk result (λ b. b ≡ may_revive rules.now thread state.now mutex) }
{
    let at = state.place_of_mutex(mutex)?;
    if !is_unusable(state, at) {
        return Ok(false);
    }
    if rules.revives {
        return Ok(true);
    }
    if !rules.cut_unlock {
        return Ok(false);
    }
    Ok(is_mutex_of(unlocked_next(state, thread as usize), mutex))
}

/// The state in which a mutex is inconsistent again, if an end of a thread may find it so.
fn revived_if(
    alloc: Global,
    state: &State,
    rules: &Rules,
    thread: u32,
    mutex: u32,
) -> Result<Vec<State>, Stop>
    ensures { IfOk result (λ v. v.items ≡ revived_if rules.now thread state.now mutex) }
{
    if !may_revive(state, rules, thread, mutex)? {
        return Ok(Vec::new(alloc));
    }
    let at = state.place_of_mutex(mutex)?;
    let mut next = state.copied(alloc)?;
    next.set_health(at, Health::Inconsistent);
    one(alloc, next)
}

/// The states in which an end of a thread may find its mutexes.
fn found_by(alloc: Global, state: &State, rules: &Rules, thread: u32) -> Result<Vec<State>, Stop>
    ensures { IfOk result (λ v. v.items ≡ found_by rules.now thread state.now) }
{
    let count = state.mutexes_end()?;
    let mut all = one(alloc, state.copied(alloc)?)?;
    for mutex in (0..count).rev() {
        if state.owns_robust(thread, mutex as usize) {
            append(&mut all, revived_if(alloc, state, rules, thread, mutex))?;
        }
    }
    Ok(all)
}

/// The states once a mutex, whose owner has ended, passes on or is left free. What it protects is as it is after that.
fn passed_by_death(
    alloc: Global,
    state: &State,
    rules: &Rules,
    mutex: u32,
) -> Result<Vec<State>, Stop>
    requires { mutex < length state.now.mutexes }
    ensures { IfOk result (λ v. v.items ≡ passed_by_death rules.now state.now mutex) }
{
    let passed = state.passed_on_by_death(alloc, mutex)?;
    let mut all = one(alloc, passed)?;
    if !rules.barge {
        return Ok(all);
    }
    let freed = state.freed_by_death(alloc, mutex)?;
    push(&mut all, freed)?;
    Ok(all)
}

/// The states once one of the robust mutexes of a thread, which has ended, passes on or is left free.
fn passed_once(alloc: Global, state: &State, rules: &Rules, thread: u32) -> Result<Vec<State>, Stop>
    ensures { IfOk result (λ v. v.items ≡ flat_map (passed_by_death rules.now state.now) (robust_of state.now thread)) }
{
    let count = state.mutexes_end()?;
    let mut all = Vec::new(alloc);
    for mutex in (0..count).rev() {
        if state.owns_robust(thread, mutex as usize) {
            append(&mut all, passed_by_death(alloc, state, rules, mutex))?;
        }
    }
    Ok(all)
}

/// A state as it is, if it may be so.
fn stay_if(alloc: Global, state: &State, may: bool, all: &mut Vec<State>) -> Result<(), Stop>
    ensures { OnOk result (all.new.items ≡ all.old.items ++ one_if may state.now) }
{
    if !may {
        return Ok(());
    }
    push_within(all, state.copied(alloc)?)
}

/// The states once so many robust mutexes of a thread, which has ended, have passed on or are free, in any order, or
/// those that are left stay.
fn released_by(
    alloc: Global,
    state: &State,
    rules: &Rules,
    left: usize,
    thread: u32,
    all: &mut Vec<State>,
) -> Result<(), Stop>
    ensures { OnOk result (all.new.items ≡ all.old.items ++ released_by rules.now left thread state.now) }
{
    if left == 0 {
        return push_within(all, state.copied(alloc)?);
    }
    let passed = passed_once(alloc, state, rules, thread)?;
    for next in passed {
        released_by(alloc, &next, rules, left - 1, thread, all)?;
    }
    stay_if(alloc, state, rules.stays_locked, all)?;
    Ok(())
}

/// The states once all robust mutexes of a thread, which has left all waiters, have passed on, are free or stay.
fn all_released(alloc: Global, state: State, rules: &Rules, thread: u32) -> Result<Vec<State>, Stop>
    ensures { IfOk result (λ v. v.items ≡ all_released rules.now thread state) }
{
    if !rules.barge && !rules.stays_locked {
        return state.all_inherited(alloc, thread);
    }
    let mut all = Vec::new(alloc);
    let left = state.robust_count(thread);
    released_by(alloc, &state, rules, left, thread, &mut all)?;
    Ok(all)
}

/// The states once a thread has ended that found its mutexes as they are here.
fn ended_found(alloc: Global, state: &State, rules: &Rules, thread: u32) -> Result<Vec<State>, Stop>
    ensures { IfOk result (λ v. v.items ≡ ended_found rules.now thread state.now) }
{
    let next = state.after_end(alloc, thread)?;
    all_released(alloc, next, rules, thread)
}

/// The states once a thread has ended, however it found its mutexes.
fn each_ended(
    alloc: Global,
    found: Vec<State>,
    rules: &Rules,
    thread: u32,
) -> Result<Vec<State>, Stop>
    ensures { IfOk result (λ v. v.items ≡ flat_map (ended_found rules.now thread) found.items) }
{
    let mut all = Vec::new(alloc);
    for state in found {
        append(&mut all, ended_found(alloc, &state, rules, thread))?;
    }
    Ok(all)
}

/// The states once a thread has ended and its robust mutexes have passed on, are free or stay. None if the end is
/// refused.
pub(crate) fn ended_by(
    alloc: Global,
    state: &State,
    rules: &Rules,
    thread: u32,
) -> Result<Vec<State>, Stop>
    ensures { IfOk result (λ v. v.items ≡ ended_by rules.now thread state.now) }
{
    if state.end_refusal(thread).is_some() {
        return Ok(Vec::new(alloc));
    }
    let found = found_by(alloc, state, rules, thread)?;
    each_ended(alloc, found, rules, thread)
}

/// The states once a thread has ended, but for its robust mutexes, however it found them.
fn each_left(alloc: Global, found: Vec<State>, thread: u32) -> Result<Vec<State>, Stop>
    ensures { IfOk result (λ v. v.items ≡ map (after_end thread) found.items) }
{
    let mut all = Vec::new(alloc);
    for state in found {
        push(&mut all, state.after_end(alloc, thread)?)?;
    }
    Ok(all)
}

/// The states once a thread has ended and keeps its robust mutexes for the moment. None if the end is refused.
pub(crate) fn left_apart(
    alloc: Global,
    state: &State,
    rules: &Rules,
    thread: u32,
) -> Result<Vec<State>, Stop>
    ensures { IfOk result (λ v. v.items ≡ left_apart rules.now thread state.now) }
{
    if state.end_refusal(thread).is_some() {
        return Ok(Vec::new(alloc));
    }
    let found = found_by(alloc, state, rules, thread)?;
    each_left(alloc, found, thread)
}

/// The states once one of the robust mutexes that a thread still owns has passed on or is free. None if the thread
/// lives.
pub(crate) fn passed_apart(
    alloc: Global,
    state: &State,
    rules: &Rules,
    thread: u32,
) -> Result<Vec<State>, Stop>
    ensures { IfOk result (λ v. v.items ≡ passed_apart rules.now thread state.now) }
{
    if state.is_living(thread as usize) {
        return Ok(Vec::new(alloc));
    }
    passed_once(alloc, state, rules, thread)
}
