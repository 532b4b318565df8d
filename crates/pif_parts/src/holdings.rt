//! How often threads hold mutexes behind lines, by the answers.
ghost use Rattle.std.specs.Prelude.{◌≡◌, ◌-◌, IfOk, OnOk};
ghost use Rattle.pif_model.specs.History.{hold_count_locked, hold_count_waited};
ghost use Rattle.pif_parts.specs.Holdings.{count_after, count_in, held_after, held_of_call, held_of_mutex, is_of, with_count, without, without_thread};

use crate::calls::{OpenCall, call_in};
use pif_history_model::{Fact, Line};
use pif_search::{Stop, push};
use pif_types::{Answer, Errno, MutexId, Request, Tid};

/// A thread holds a mutex so often.
#[derive(Clone, Copy)]
pub struct Holding {
    /// The thread.
    pub thread: Tid,
    /// The mutex.
    pub mutex: MutexId,
    /// How often; never 0.
    pub count: usize,
}

/// Whether it is this thread's holding of this mutex.
fn is_of(holding: &Holding, thread: Tid, mutex: MutexId) -> bool
    ensures { result ≡ is_of thread mutex holding.now }
{
    holding.thread.get() == thread.get() && holding.mutex.get() == mutex.get()
}

/// How often a thread holds a mutex by these.
fn count_in(held: &[Holding], thread: Tid, mutex: MutexId) -> usize
    ensures { result ≡ count_in held.now thread mutex }
{
    for place in 0..held.len() {
        let holding = &held[place];
        if is_of(holding, thread, mutex) {
            return holding.count;
        }
    }
    0
}

/// Leaves out a thread's holding of a mutex.
fn forget(held: &mut Vec<Holding>, thread: Tid, mutex: MutexId)
    ensures { held.new.items ≡ without thread mutex held.old.items }
{
    held.retain(|holding| !is_of(holding, thread, mutex));
}

/// Leaves out all that a thread holds.
fn forget_thread(held: &mut Vec<Holding>, thread: Tid)
    ensures { held.new.items ≡ without_thread thread held.old.items }
{
    held.retain(|holding| holding.thread.get() != thread.get());
}

/// A thread holds a mutex so often from now on.
fn set_count(held: &mut Vec<Holding>, thread: Tid, mutex: MutexId, count: usize) -> Result<(), Stop>
    ensures { OnOk result (held.new.items ≡ with_count thread mutex count held.old.items) }
{
    forget(held, thread, mutex);
    if count == 0 {
        return Ok(());
    }
    push(
        held,
        Holding {
            thread,
            mutex,
            count,
        },
    )
}

/// How often a mutex is held once a lock of it was answered.
fn count_locked(answer: Answer, count: usize) -> Result<usize, Stop>
    ensures { IfOk result (λ n. n ≡ hold_count_locked answer count) }
{
    if answer == 0 || answer == Errno::OwnerDead.number() {
        return match count.checked_add(1) {
            Some(more) => Ok(more),
            None => Err(Stop::Range),
        };
    }
    Ok(count)
}

/// How often a mutex is held once a wait with it was answered.
fn count_waited(answer: Answer, count: usize) -> usize
    ensures { result ≡ hold_count_waited answer count }
{
    if answer == Errno::NotRecoverable.number() || answer == Errno::Deadlock.number() {
        0
    } else {
        count
    }
}

/// How often the mutex that a request names is held once its call was answered, if it was held so often before.
fn count_after(request: &Request, answer: Answer, count: usize) -> Result<usize, Stop>
    ensures { IfOk result (λ n. n ≡ count_after request.now answer count) }
{
    match *request {
        Request::Lock(_) | Request::TryLock(_) => count_locked(answer, count),
        Request::Unlock(_) => Ok(if answer == 0 {
            count.saturating_sub(1)
        } else {
            count
        }),
        Request::Wait(_, _) => Ok(count_waited(answer, count)),
        _ => Ok(count),
    }
}

/// A call of a thread was answered.
fn answer_call(
    held: &mut Vec<Holding>,
    thread: Tid,
    answer: Answer,
    request: &Request,
) -> Result<(), Stop>
    ensures { OnOk result (held.new.items ≡ held_of_call thread answer (Some request.now) held.old.items) }
{
    match request.names().mutex {
        Some(mutex) => {
            let before = count_in(held.as_slice(), thread, mutex);
            let count = count_after(request, answer, before)?;
            set_count(held, thread, mutex, count)
        }
        None => Ok(()),
    }
}

/// Hears one more line, before which these calls were open.
///
/// # Errors
///
/// Out of memory.
pub fn hear_holding(held: &mut Vec<Holding>, calls: &[OpenCall], line: &Line) -> Result<(), Stop>
    ensures { OnOk result (held.new.items ≡ held_after line.now calls.now held.old.items) }
{
    let _no_fact: Option<Fact> = None;
    match *line {
        Line::Answer(thread, answer) => {
            if let Some(request) = call_in(calls, thread) {
                return answer_call(held, thread, answer, &request);
            }
        }
        Line::End(thread) => forget_thread(held, thread),
        _ => {}
    }
    Ok(())
}
