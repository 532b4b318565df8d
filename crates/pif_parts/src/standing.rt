//! The lines with which a part begins, so that it stands alone: they lead to the state in which the history rests.
//!
//! Nothing is claimed of them here. Who uses them hears them, and compares the state.

use crate::resting::{Rest, RestingCond, RestingMutex, RestingThread};
use pif_history_model::{Fact, Line, Protocol};
use pif_search::{Stop, push};
use pif_types::{CondId, MutexId, Request, Tid};
use std::alloc::Global;

/// Adds the threads, with the priorities that they were given last.
fn push_threads(lines: &mut Vec<Line>, threads: &[RestingThread]) -> Result<(), Stop> {
    let _no_request: Option<Request> = None;
    let _no_fact: Option<Fact> = None;
    for place in 1..threads.len() {
        push(lines, Line::Thread(threads[place].base))?;
    }
    Ok(())
}

/// Adds the mutexes.
fn push_mutexes(lines: &mut Vec<Line>, mutexes: &[RestingMutex]) -> Result<(), Stop> {
    let _no_request: Option<Request> = None;
    let _no_fact: Option<Fact> = None;
    for place in 1..mutexes.len() {
        let RestingMutex { kind, robust } = mutexes[place];
        push(lines, Line::Mutex(kind, robust, Protocol::PrioInherit))?;
    }
    Ok(())
}

/// Adds the condition variables.
fn push_conds(lines: &mut Vec<Line>, conds: &[RestingCond]) -> Result<(), Stop> {
    let _no_request: Option<Request> = None;
    let _no_fact: Option<Fact> = None;
    for place in 1..conds.len() {
        if let Some(mutex) = MutexId::new(conds[place].mutex) {
            push(lines, Line::Cond(mutex))?;
        }
    }
    Ok(())
}

/// The number of a place, if it is one of 32 bits.
fn number_of(place: usize) -> Option<u32> {
    match u32::try_from(place) {
        Ok(number) => Some(number),
        Err(_) => None,
    }
}

/// The variable of a number.
fn cond_of(place: usize) -> Option<CondId> {
    match number_of(place) {
        Some(number) => CondId::new(number),
        None => None,
    }
}

/// The thread of a number.
fn thread_of(place: usize) -> Option<Tid> {
    match number_of(place) {
        Some(number) => Tid::new(number),
        None => None,
    }
}

/// Signals a variable so often.
fn push_signals(
    lines: &mut Vec<Line>,
    thread: Tid,
    cond: CondId,
    count: usize,
) -> Result<(), Stop> {
    let _no_fact: Option<Fact> = None;
    for _ in 0..count {
        push(lines, Line::Begin(thread, Request::Signal(cond)))?;
        push(lines, Line::Answer(thread, 0))?;
    }
    Ok(())
}

/// Signals the variables as often as they were used.
fn push_uses(lines: &mut Vec<Line>, thread: Tid, conds: &[RestingCond]) -> Result<(), Stop> {
    let _no_request: Option<Request> = None;
    let _no_fact: Option<Fact> = None;
    for place in 1..conds.len() {
        if let Some(cond) = cond_of(place) {
            push_signals(lines, thread, cond, conds[place].uses)?;
        }
    }
    Ok(())
}

/// Ends the threads that have ended.
fn push_ends(lines: &mut Vec<Line>, threads: &[RestingThread]) -> Result<(), Stop> {
    let _no_request: Option<Request> = None;
    let _no_fact: Option<Fact> = None;
    for place in 1..threads.len() {
        if threads[place].living {
            continue;
        }
        if let Some(thread) = thread_of(place) {
            push(lines, Line::End(thread))?;
        }
    }
    Ok(())
}

/// How many lines signal the variables as often as they were used.
fn signal_lines(conds: &[RestingCond]) -> usize {
    let mut count = 0_usize;
    for cond in conds {
        count = count.saturating_add(cond.uses.saturating_mul(2));
    }
    count
}

/// Whether uses of variables are told.
#[derive(Clone, Copy, PartialEq, Eq)]
pub enum Uses {
    /// Each variable is signalled as often as it was used.
    Told,
    /// No variable is signalled.
    Untold,
}

/// How many lines tell the uses of these variables.
fn use_lines(conds: &[RestingCond], uses: &Uses) -> usize {
    match *uses {
        Uses::Told => signal_lines(conds),
        Uses::Untold => 0,
    }
}

/// Tells the uses of variables.
fn push_told(lines: &mut Vec<Line>, conds: &[RestingCond], uses: &Uses) -> Result<(), Stop> {
    let _no_request: Option<Request> = None;
    let _no_fact: Option<Fact> = None;
    match *uses {
        Uses::Told => match Tid::new(1) {
            Some(first) => push_uses(lines, first, conds),
            None => Ok(()),
        },
        Uses::Untold => Ok(()),
    }
}

/// Whether at most so many additions and signals lead to this state.
fn is_near(rest: &Rest, most: usize, uses: &Uses) -> bool {
    let added = rest
        .threads
        .len()
        .saturating_add(rest.mutexes.len())
        .saturating_add(rest.conds.len())
        .saturating_sub(3);
    added.saturating_add(use_lines(rest.conds.as_slice(), uses)) <= most
}

/// Lines, oldest first, that lead to this state, or to the one in which no variable was used, if uses aren't told; `None`
/// if it takes more than so many.
///
/// # Errors
///
/// Out of memory.
pub fn standing_lines(
    alloc: Global,
    rest: &Rest,
    most: usize,
    uses: &Uses,
) -> Result<Option<Vec<Line>>, Stop> {
    let _no_request: Option<Request> = None;
    let _no_fact: Option<Fact> = None;
    if !is_near(rest, most, uses) {
        return Ok(None);
    }
    let mut lines = Vec::new(alloc);
    push_threads(&mut lines, rest.threads.as_slice())?;
    push_mutexes(&mut lines, rest.mutexes.as_slice())?;
    push_conds(&mut lines, rest.conds.as_slice())?;
    push_told(&mut lines, rest.conds.as_slice(), uses)?;
    push_ends(&mut lines, rest.threads.as_slice())?;
    if rest.time != 0 {
        push(&mut lines, Line::Tick(rest.time))?;
    }
    Ok(Some(lines))
}
