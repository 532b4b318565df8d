//! The groups that the lines of a history make.
ghost use Rattle.std.specs.Prelude.{◌≡◌, ◌∷◌, List, reverse, true, IfOk, IfSome};
ghost use Rattle.pif_history_model.specs.declared.lines.Line.{Line};
ghost use Rattle.pif_history_model.specs.declared.lines.Line.TheVariants.{Cond};
ghost use Rattle.pif_components.specs.Groups.{AreBounded, AreGroupsOf, name_of};
ghost use Rattle.pif_components.specs.Hearing.{AreJoinedIf, AreNamed, mutex_named, thread_named, variable_named};

use crate::groups::{Groups, Object};
use pif_history_model::{Fact, Line};
use pif_search::Stop;
use pif_types::{MutexId, Named, Request, Tid};
use std::alloc::Global;

/// The mutex that a request names.
fn mutex_named(named: &Named) -> Option<Object>
    ensures { result ≡ mutex_named named.now }
{
    match named.mutex {
        Some(mutex) => Some(Object::Mutex(mutex.get() as usize)),
        None => None,
    }
}

/// The variable that a request names.
fn variable_named(named: &Named) -> Option<Object>
    ensures { result ≡ variable_named named.now }
{
    match named.cond {
        Some(cond) => Some(Object::Variable(cond.get() as usize)),
        None => None,
    }
}

/// The thread that a request names.
fn thread_named(named: &Named) -> Option<Object>
    ensures { result ≡ thread_named named.now }
{
    match named.thread {
        Some(thread) => Some(Object::Thread(thread.get() as usize)),
        None => None,
    }
}

/// The two are in one group from now on, if there is a second. False: one of them wasn't added.
fn join_if(groups: &mut Groups, one: Object, other: Option<Object>) -> Result<bool, Stop>
    ensures { IfOk result (λ b. b ≡ true → AreBounded groups.old → AreJoinedIf (name_of one) other groups.old groups.new) }
{
    match other {
        Some(other) => groups.join(one, other),
        None => Ok(true),
    }
}

/// A thread begins a call, and is in one group from now on with all that the request names. False: one of these wasn't
/// added.
fn hear_call(groups: &mut Groups, thread: Tid, request: &Request) -> Result<bool, Stop>
    ensures { IfOk result (λ b. b ≡ true → AreBounded groups.old → AreNamed thread request.now groups.old groups.new) }
{
    let own = Object::Thread(thread.get() as usize);
    let named = request.names();
    if !join_if(groups, own, mutex_named(&named))? {
        return Ok(false);
    }
    if !join_if(groups, own, variable_named(&named))? {
        return Ok(false);
    }
    join_if(groups, own, thread_named(&named))
}

/// A variable is added, and is in one group from now on with the mutex to which it is bound. False: that wasn't added.
fn hear_cond(groups: &mut Groups, mutex: MutexId) -> Result<bool, Stop>
    ensures { IfOk result (λ b. (lines : List Line) → b ≡ true → AreGroupsOf lines groups.old → AreGroupsOf (Cond mutex ∷ lines) groups.new) }
{
    let variable = groups.add_variable()?;
    groups.join(
        Object::Variable(variable),
        Object::Mutex(mutex.get() as usize),
    )
}

/// Hears one more line. False: it names a thread, a mutex or a variable that wasn't added, and the groups are of no use.
fn hear(groups: &mut Groups, line: &Line) -> Result<bool, Stop>
    ensures { IfOk result (λ b. (lines : List Line) → b ≡ true → AreGroupsOf lines groups.old → AreGroupsOf (line.now ∷ lines) groups.new) }
{
    let _no_fact: Option<Fact> = None;
    match *line {
        Line::Thread(_) => groups.add_thread()?,
        Line::Mutex(_, _, _) => groups.add_mutex()?,
        Line::Cond(mutex) => return hear_cond(groups, mutex),
        Line::Begin(thread, request) => return hear_call(groups, thread, &request),
        _ => {}
    }
    Ok(true)
}

/// Groups of what these lines, oldest first, join. `None`: a call names a thread, a mutex or a variable that wasn't added
/// before, or a variable is bound to such a mutex.
///
/// # Errors
///
/// Out of memory, or a number got too great.
pub fn groups_of(alloc: Global, lines: &[Line]) -> Result<Option<Groups>, Stop>
    ensures { IfOk result (λ o. IfSome o (AreGroupsOf (reverse lines.now))) }
{
    let _no_request: Option<Request> = None;
    let _no_fact: Option<Fact> = None;
    let mut groups = Groups::new(alloc)?;
    for place in 0..lines.len() {
        let line = &lines[place];
        if !hear(&mut groups, line)? {
            return Ok(None);
        }
    }
    Ok(Some(groups))
}
