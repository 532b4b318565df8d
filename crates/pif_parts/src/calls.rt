//! The calls that are open behind lines.
ghost use Rattle.std.specs.Prelude.{◌≡◌, ◌==◌, OnOk};
ghost use Rattle.pif_model.specs.Deadlines.{plain};
ghost use Rattle.pif_parts_model.specs.Quiet.{changed_by};
ghost use Rattle.pif_parts.specs.Calls.{any_changes, call_in, calls_after, changes, changes_alone, closed, none_changes, opened};

use pif_history_model::{Fact, Line};
use pif_search::{Stop, push};
use pif_types::{Request, Tid};

/// A call that is open.
#[derive(Clone, Copy)]
pub struct OpenCall {
    /// Whose call it is.
    pub thread: Tid,
    /// What it asks for, without a deadline.
    pub request: Request,
}

/// A request without its deadline.
fn plain(request: &Request) -> Request
    ensures { result ≡ plain request.now }
{
    match *request {
        Request::TimedLock(mutex, _) => Request::Lock(mutex),
        Request::TimedWait(cond, mutex, _) => Request::Wait(cond, mutex),
        other => other,
    }
}

/// The call that a thread has open among these, if it has one.
pub fn call_in(calls: &[OpenCall], thread: Tid) -> Option<Request>
    ensures { result ≡ call_in calls.now thread }
{
    for place in 0..calls.len() {
        let call = &calls[place];
        if call.thread.get() == thread.get() {
            return Some(call.request);
        }
    }
    None
}

/// Leaves out the call of a thread.
fn close(calls: &mut Vec<OpenCall>, thread: Tid)
    ensures { calls.new.items ≡ closed thread calls.old.items }
{
    calls.retain(|call| call.thread.get() != thread.get());
}

/// A thread has this call open, and no other.
fn open(calls: &mut Vec<OpenCall>, thread: Tid, request: &Request) -> Result<(), Stop>
    ensures { OnOk result (calls.new.items ≡ opened thread request.now calls.old.items) }
{
    close(calls, thread);
    let request = plain(request);
    push(calls, OpenCall { thread, request })
}

/// Hears one more line.
///
/// # Errors
///
/// Out of memory.
pub fn hear_call(calls: &mut Vec<OpenCall>, line: &Line) -> Result<(), Stop>
    ensures { OnOk result (calls.new.items ≡ calls_after line.now calls.old.items) }
{
    let _no_fact: Option<Fact> = None;
    match *line {
        Line::Begin(thread, request) => return open(calls, thread, &request),
        Line::Answer(thread, _) => close(calls, thread),
        Line::End(thread) => close(calls, thread),
        _ => {}
    }
    Ok(())
}

/// The thread whose priority a call changes, if it changes one.
fn changed_by(request: &Request) -> Option<Tid>
    ensures { result ≡ changed_by (Some request.now) }
{
    match *request {
        Request::SetPrio(thread, _) => Some(thread),
        _ => None,
    }
}

/// Whether a call changes the priority of this thread.
fn changes(request: &Request, thread: Tid) -> bool
    ensures { result ≡ changes thread request.now }
{
    match changed_by(request) {
        Some(other) => other.get() == thread.get(),
        None => false,
    }
}

/// Whether one of these calls changes the priority of this thread.
fn any_changes(calls: &[OpenCall], thread: Tid) -> bool
    ensures { result ≡ any_changes thread calls.now }
{
    calls.iter().any(|call| changes(&call.request, thread))
}

/// Whether none of these calls changes the priority that this one changes, if it changes one.
pub fn changes_alone(calls: &[OpenCall], request: &Request) -> bool
    ensures { result ≡ changes_alone request.now calls.now }
{
    match changed_by(request) {
        Some(thread) => !any_changes(calls, thread),
        None => true,
    }
}
