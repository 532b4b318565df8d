ghost use Rattle.std.specs.Prelude.{◌≡◌, ◌==◌, ◌<◌, ◌∷◌, ℕ, length, map, IfOk};
ghost use Rattle.std.specs.List.{list_any};
ghost use Rattle.pif_rules_model.specs.Rules.{without_one, given_by_others, lost_by};
ghost use Rattle.pif_posix.specs.Beside.{with_lists};

use crate::State;
use crate::next::blocked_on;
use crate::wide::Wide;
use crate::wide_lists::joined;
use pif_search::{Stop, one, push};
use std::alloc::Global;

/// Whether a variable, or a thread, is among these.
pub(crate) fn is_there(numbers: &[u32], number: u32) -> bool
    ensures { result ≡ list_any (λ x. x == number) numbers.now }
{
    numbers.iter().any(|other| *other == number)
}

/// These without the first that is this variable.
pub(crate) fn without_one(alloc: Global, variable: u32, lost: &[u32]) -> Result<Vec<u32>, Stop>
    ensures { IfOk result (λ v. v.items ≡ without_one variable lost.now) }
{
    let mut all = Vec::from_slice(alloc, lost)?;
    for i in 0..lost.len() {
        if lost[i] == variable {
            all.remove(i);
            return Ok(all);
        }
    }
    Ok(all)
}

/// A number before these.
pub(crate) fn with_first(alloc: Global, first: u32, rest: &[u32]) -> Result<Vec<u32>, Stop>
    ensures { IfOk result (λ v. v.items ≡ first ∷ rest.now) }
{
    let copy = Vec::from_slice(alloc, rest)?;
    joined(one(alloc, first), Ok(copy))
}

/// These, with the variable on which a thread of this state is blocked before them, if it is.
pub(crate) fn lost_by(
    alloc: Global,
    state: &State,
    thread: u32,
    lost: &[u32],
) -> Result<Vec<u32>, Stop>
    ensures { IfOk result (λ v. v.items ≡ lost_by state.now thread lost.now) }
{
    match blocked_on(state, thread as usize) {
        None => {
            let copy = Vec::from_slice(alloc, lost)?;
            Ok(copy)
        }
        Some(variable) => with_first(alloc, variable, lost),
    }
}

/// These threads without this one.
pub(crate) fn given_by_others(alloc: Global, thread: u32, given: &[u32]) -> Result<Vec<u32>, Stop>
    ensures { IfOk result (λ v. v.items ≡ given_by_others thread given.now) }
{
    let mut all = Vec::new(alloc);
    for i in 0..given.len() {
        if given[i] != thread {
            push(&mut all, given[i])?;
        }
    }
    Ok(all)
}

/// These states, with the same variables, threads, mutexes and threads remembered beside each.
pub(crate) fn all_beside(
    alloc: Global,
    states: Vec<State>,
    lost: &[u32],
    apart: &[u32],
    prio_none: &[u32],
    given: &[u32],
) -> Result<Vec<Wide>, Stop>
    ensures { IfOk result (λ v. v.items ≡ map (with_lists lost.now apart.now prio_none.now given.now) states.items) }
{
    let mut all = Vec::new(alloc);
    for state in states {
        let next = Wide::of(alloc, state, lost, apart, prio_none, given)?;
        push(&mut all, next)?;
    }
    Ok(all)
}
