ghost use Rattle.std.specs.Prelude.{◌≡◌, ◌-◌, ◌≤◌, ◌++◌, ◌||◌, IfOk, OnOk, codes};
ghost use Rattle.pif_text.specs.Members.{array_member};
ghost use Rattle.pif_history_told.specs.StateObjects.{change_members, cond_object, is_cond_changed, is_mutex_changed, is_thread_changed, mutex_object, thread_object, told};

use crate::state_objects::{
    append_cond, append_mutex, append_thread, is_mutex_changed, is_thread_changed,
};
use pif_posix::{State, Wide};
use pif_search::Stop;
use pif_text::{Listed, append_array};
use pif_types::Tid;
use std::alloc::{AllocError, Global};

/// A step from a state to a state, of which what it changes is told, or the whole state after it.
#[derive(Clone, Copy)]
pub struct Change<'a> {
    /// The state before it.
    pub from: &'a Wide,
    /// The state after it.
    pub to: &'a Wide,
    /// Whether the whole state is told.
    pub is_whole: bool,
}

/// Two states, of which what is other in the second is told, or all that is there.
#[derive(Clone, Copy)]
struct Pair<'a> {
    from: &'a State,
    to: &'a State,
    is_whole: bool,
}

/// The state of the POSIX machine.
fn world(wide: &Wide) -> &State
    ensures { result.now ≡ wide.now.world }
{
    &wide.state
}

/// The threads that are told.
#[derive(Clone, Copy)]
struct Threads<'a>(Pair<'a>);

impl Listed for Threads<'_> {
    ghost stands = { λ list number. list.0.is_whole || is_thread_changed list.0.from.now list.0.to.now number };

    ghost text = { λ list number. thread_object list.0.to.now number };

    fn stands(&self, number: u32) -> bool {
        match Tid::new(number) {
            Some(thread) => { self.0.is_whole || is_thread_changed(self.0.from, self.0.to, thread) }
            None => false,
        }
    }

    fn append(&self, number: u32, out: &mut Vec<u8>) -> Result<(), AllocError> {
        match Tid::new(number) {
            Some(thread) => append_thread(self.0.to, thread, out),
            None => Ok(()),
        }
    }
}

/// The mutexes that are told.
#[derive(Clone, Copy)]
struct Mutexes<'a>(Pair<'a>);

impl Listed for Mutexes<'_> {
    ghost stands = { λ list number. list.0.is_whole || is_mutex_changed list.0.from.now list.0.to.now number };

    ghost text = { λ list number. mutex_object list.0.to.now number };

    fn stands(&self, number: u32) -> bool {
        self.0.is_whole || is_mutex_changed(self.0.from, self.0.to, number as usize)
    }

    fn append(&self, number: u32, out: &mut Vec<u8>) -> Result<(), AllocError> {
        append_mutex(self.0.to, number, out)
    }
}

/// The condition variables that are told.
#[derive(Clone, Copy)]
struct Conds<'a>(Pair<'a>);

/// Whether a condition variable was not there before.
#[tactic(auto, unfolding(crate::specs::StateObjects::is_cond_changed))]
fn is_cond_changed(from: &State, to: &State, cond: usize) -> bool
    ensures { result ≡ is_cond_changed from.now to.now cond }
{
    cond >= from.variable_count()
}

impl Listed for Conds<'_> {
    ghost stands = { λ list number. list.0.is_whole || is_cond_changed list.0.from.now list.0.to.now number };

    ghost text = { λ list number. cond_object list.0.to.now number };

    fn stands(&self, number: u32) -> bool {
        self.0.is_whole || is_cond_changed(self.0.from, self.0.to, number as usize)
    }

    fn append(&self, number: u32, out: &mut Vec<u8>) -> Result<(), AllocError> {
        append_cond(self.0.to, number, out)
    }
}

/// The number of the last thing, if they have so many places with that of nothing.
fn last(count: usize) -> Result<u32, Stop>
    ensures { IfOk result (λ n. n ≡ count - 1) }
{
    match u32::try_from(count.saturating_sub(1)) {
        Ok(number) => Ok(number),
        Err(_) => Err(Stop::Range),
    }
}

/// Appends the threads that are told, up to this number, as a member.
fn append_threads<'a>(
    from: &'a State,
    to: &'a State,
    is_whole: bool,
    most: u32,
    out: &mut Vec<u8>,
) -> Result<(), AllocError>
    ensures { OnOk result (out.new.items ≡ out.old.items ++ array_member (codes "threads") (told is_whole (is_thread_changed from.now to.now) (thread_object to.now) most)) }
{
    let threads = Threads(Pair { from, to, is_whole });
    append_array(out, "threads", &threads, most)
}

/// Appends the mutexes that are told, up to this number, as a member.
fn append_mutexes<'a>(
    from: &'a State,
    to: &'a State,
    is_whole: bool,
    most: u32,
    out: &mut Vec<u8>,
) -> Result<(), AllocError>
    ensures { OnOk result (out.new.items ≡ out.old.items ++ array_member (codes "mutexes") (told is_whole (is_mutex_changed from.now to.now) (mutex_object to.now) most)) }
{
    let mutexes = Mutexes(Pair { from, to, is_whole });
    append_array(out, "mutexes", &mutexes, most)
}

/// Appends the condition variables that are told, up to this number, as a member.
fn append_conds<'a>(
    from: &'a State,
    to: &'a State,
    is_whole: bool,
    most: u32,
    out: &mut Vec<u8>,
) -> Result<(), AllocError>
    ensures { OnOk result (out.new.items ≡ out.old.items ++ array_member (codes "conds") (told is_whole (is_cond_changed from.now to.now) (cond_object to.now) most)) }
{
    let conds = Conds(Pair { from, to, is_whole });
    append_array(out, "conds", &conds, most)
}

/// Appends what a step changes, or the whole state after it, as members. Of threads the states as lending sees them are
/// told, in which they have their priorities.
///
/// # Errors
///
/// Out of memory, or a number got too great for a state. A part of the text may have been appended.
pub fn append_changes(alloc: Global, change: &Change<'_>, out: &mut Vec<u8>) -> Result<(), Stop>
    ensures { OnOk result (out.new.items ≡ out.old.items ++ change_members change.now.is_whole change.now.from.now change.now.to.now) }
{
    let from = change.from.as_lending_sees(alloc)?;
    let to = change.to.as_lending_sees(alloc)?;
    let seen_from = world(&from);
    let seen_to = world(&to);
    let before = world(change.from);
    let behind = world(change.to);
    let threads = last(behind.thread_count())?;
    let mutexes = last(behind.mutex_count())?;
    let conds = last(behind.variable_count())?;
    append_threads(seen_from, seen_to, change.is_whole, threads, out)?;
    append_mutexes(before, behind, change.is_whole, mutexes, out)?;
    append_conds(before, behind, change.is_whole, conds, out)?;
    Ok(())
}
