//! Waits that return though nothing can have woken them. A scan of the lines finds the first, with no search.
ghost use Rattle.std.specs.Prelude.{◌≡◌, ◌<◌, true, length, map, slice_get, slice_set, IfOk, IfSome};
ghost use Rattle.std.specs.List.{list_any};
ghost use Rattle.pif_history_machine.specs.declared.wakeups.OpenCall.TheVariants.{Other};
ghost use Rattle.pif_history_machine.specs.Wakeups.{is_use, once_used, wait_begun, begun, once_begun, heard, WasAdded, is_unwoken, is_refuted, IsRefutedAt};

use pif_history_model::Line;
use pif_search::{Stop, one, push};
use pif_types::Request;
use std::alloc::Global;

/// What the open call of a thread is to the waits.
#[derive(Clone, Copy)]
enum OpenCall {
    /// A wait for this variable. Nothing can have woken it so far.
    Unwoken(u32),
    /// A signal or a broadcast of this variable.
    Use(u32),
    /// A wait that may have been woken, or another call, or none.
    Other,
}

impl OpenCall {
    /// Whether it signals or broadcasts this variable.
    fn is_use(&self, variable: u32) -> bool
        ensures { result ≡ is_use variable self.now }
    {
        match *self {
            OpenCall::Use(other) => other == variable,
            _ => false,
        }
    }

    /// It may have been woken, if it waits for this variable, which is used.
    fn see_use(&mut self, variable: u32)
        ensures { self.new ≡ once_used variable self.old }
    {
        match *self {
            OpenCall::Unwoken(other) if variable == other => *self = OpenCall::Other,
            _ => {}
        }
    }
}

/// Whether one of these open calls signals or broadcasts this variable.
fn is_used(calls: &[OpenCall], variable: u32) -> bool
    ensures { result ≡ list_any (is_use variable) calls.now }
{
    calls.iter().any(|call| call.is_use(variable))
}

/// A wait for this variable that begins beside these open calls.
fn wait_begun(calls: &[OpenCall], variable: u32) -> OpenCall
    ensures { result ≡ wait_begun calls.now variable }
{
    if is_used(calls, variable) {
        OpenCall::Other
    } else {
        OpenCall::Unwoken(variable)
    }
}

/// The call of this request that begins beside these open calls.
fn begun(calls: &[OpenCall], request: &Request) -> OpenCall
    ensures { result ≡ begun calls.now request.now }
{
    match *request {
        Request::Wait(variable, _) => wait_begun(calls, variable.get()),
        Request::TimedWait(variable, _, _) => wait_begun(calls, variable.get()),
        Request::Signal(variable) | Request::Broadcast(variable) => OpenCall::Use(variable.get()),
        _ => OpenCall::Other,
    }
}

/// All waits for this variable may have been woken, since it is used.
fn wake(calls: &mut [OpenCall], variable: u32)
    ensures { calls.new ≡ map (once_used variable) calls.old }
{
    for call in calls.iter_mut() {
        call.see_use(variable);
    }
}

/// Waits may have been woken by a call of this request, which begins beside them.
fn wake_for(calls: &mut [OpenCall], request: &Request)
    ensures { calls.new ≡ once_begun request.now calls.old }
{
    match *request {
        Request::Signal(variable) | Request::Broadcast(variable) => wake(calls, variable.get()),
        _ => {}
    }
}

/// The thread of this number begins a call of this request. False: no such thread was added.
fn begin(calls: &mut [OpenCall], thread: usize, request: &Request) -> bool
    ensures known { result ≡ true → thread < length calls.old }
    ensures calls { result ≡ true → calls.new ≡ slice_set (once_begun request.now calls.old) thread (begun calls.old request.now) }
{
    if thread >= calls.len() {
        return false;
    }
    let call = begun(calls, request);
    wake_for(calls, request);
    calls[thread] = call;
    true
}

/// The open call of the thread of this number was answered.
fn close(calls: &mut [OpenCall], thread: usize)
    ensures { calls.new ≡ slice_set calls.old thread Other }
{
    if thread < calls.len() {
        calls[thread] = OpenCall::Other;
    }
}

/// Hears one line more. False: it begins a call of a thread that was not added.
fn hear(calls: &mut Vec<OpenCall>, line: &Line) -> Result<bool, Stop>
    ensures { IfOk result (λ known. known ≡ true → WasAdded calls.old.items line.now × (calls.new.items ≡ heard line.now calls.old.items)) }
{
    match *line {
        Line::Thread(_) => push(calls, OpenCall::Other)?,
        Line::Begin(thread, request) => {
            return Ok(begin(calls.as_mut_slice(), thread.get() as usize, &request));
        }
        Line::Answer(thread, _) => close(calls.as_mut_slice(), thread.get() as usize),
        _ => {}
    }
    Ok(true)
}

/// Whether the open call of the thread of this number is a wait that nothing can have woken.
fn is_unwoken(calls: &[OpenCall], thread: usize) -> bool
    ensures { result ≡ is_unwoken (slice_get calls.now thread) }
{
    match calls.get(thread) {
        Some(OpenCall::Unwoken(_)) => true,
        _ => false,
    }
}

/// Whether a wait returns by this line that nothing can have woken.
fn is_refuted(calls: &[OpenCall], line: &Line) -> bool
    ensures { result ≡ is_refuted calls.now line.now }
{
    match *line {
        Line::Answer(thread, answer) => answer == 0 && is_unwoken(calls, thread.get() as usize),
        _ => false,
    }
}

/// The number of the first line, from 1, by which a wait returns that nothing can have woken: no run shows the lines up
/// to it. None: there is no such line, or a thread begins a call before it is added.
///
/// # Errors
///
/// Out of memory.
pub fn first_unwoken(alloc: Global, lines: &[Line]) -> Result<Option<usize>, Stop>
    ensures { IfOk result (λ o. IfSome o (IsRefutedAt lines.now)) }
{
    let mut calls = one(alloc, OpenCall::Other)?;
    for place in 0..lines.len() {
        let line = &lines[place];
        if is_refuted(calls.as_slice(), line) {
            return Ok(Some(place + 1));
        }
        if !hear(&mut calls, line)? {
            return Ok(None);
        }
    }
    Ok(None)
}
