//! The calls that are open at the end of a legal history, and whether any of them can be answered yet.
ghost use Rattle.std.specs.Prelude.{◌≡◌, [], true, All, IfOk};
ghost use Rattle.std.specs.List.{list_any};
ghost use Rattle.pif_history_model.specs.Verdicts.{ArePossibleAnswers};
ghost use Rattle.pif_history_text.specs.Histories.{limits_of};
ghost use Rattle.pif_history_text.specs.Reading.{IsPaired, heard_of};
ghost use Rattle.pif_job_judge.specs.OpenCalls.{IsAtEnd, IsDeadlock, all_ended, has_deadline, is_end_of, is_ended};

use crate::holds::Holds;
use crate::terms::terms_of;
use pif_history_model::Line;
use pif_history_text::History;
use pif_history_told::{AtEnd, Began, open_at_end};
use pif_judge_reasons::is_stuck;
use pif_search::{Stop, WatchLines, push};
use pif_types::{MutexId, Request, Tid};
use std::alloc::Global;

/// Whether a call has a deadline.
fn has_deadline(request: &Request) -> bool
    ensures { result ≡ has_deadline request.now }
{
    matches!(
        *request,
        Request::TimedLock(_, _) | Request::TimedWait(_, _, _)
    )
}

/// Whether one of these calls has a deadline.
fn any_deadline(calls: &[Began]) -> bool
    ensures { result ≡ list_any (λ b. has_deadline b.request) calls.now }
{
    calls.iter().any(|call| has_deadline(&call.request))
}

/// Whether a line is the end of a thread.
fn is_end_of(thread: Tid, line: &Line) -> bool
    ensures { result ≡ is_end_of thread line.now }
{
    match *line {
        Line::End(other) => other == thread,
        _ => false,
    }
}

/// Whether one of these lines is the end of a thread.
fn ends_in(thread: Tid, lines: &[Line]) -> bool
    ensures { result ≡ list_any (is_end_of thread) lines.now }
{
    lines.iter().any(|line| is_end_of(thread, line))
}

/// Whether the thread that is about to end by a line, if one is, has ended by the lines after it.
fn is_ended(line: &Line, behind: &[Line]) -> bool
    ensures { result ≡ is_ended line.now behind.now }
{
    match *line {
        Line::Dying(thread) | Line::Process(thread) => ends_in(thread, behind),
        _ => true,
    }
}

/// Whether each thread that was about to end has ended.
fn all_ended(lines: &[Line]) -> bool
    ensures { result ≡ all_ended lines.now }
{
    for place in 0..lines.len() {
        if !is_ended(&lines[place], &lines[place + 1..]) {
            return false;
        }
    }
    true
}

/// What the lines tell of a thread.
#[derive(Clone, Copy)]
struct Seen {
    /// Whether it lives and has no call open.
    idle: bool,
    /// Whether the call that it began last is on one of the mutexes that are asked for.
    concerned: bool,
}

/// What the lines tell of the threads that could help others, and of these mutexes. No verdict rests on this.
#[derive(Drop)]
struct Helpers {
    mutexes: Vec<MutexId>,
    holds: Holds,
    /// The threads, by their numbers. Nobody has the number 0.
    threads: Vec<Seen>,
}

impl Helpers {
    /// Whether a call names one of the mutexes.
    fn concerns(&self, request: &Request) -> bool {
        match request.names().mutex {
            Some(mutex) => self.mutexes.iter().any(|other| *other == mutex),
            None => false,
        }
    }

    /// Whether the call that a thread began last is on one of them.
    fn is_concerned(&self, thread: Tid) -> bool {
        let place = thread.get() as usize;
        place < self.threads.len() && self.threads[place].concerned
    }

    /// Takes note of a thread, if it was added.
    fn note(&mut self, thread: Tid, idle: bool, concerned: bool) {
        let place = thread.get() as usize;
        if place < self.threads.len() {
            self.threads[place] = Seen { idle, concerned };
        }
    }

    /// Hears that a call begins.
    fn begin(&mut self, line: &Line, thread: Tid, request: &Request) -> Result<(), Stop> {
        let concerned = self.concerns(request);
        self.note(thread, false, concerned);
        if concerned {
            return self.holds.hear(line);
        }
        Ok(())
    }

    /// Hears that a call is answered.
    fn answer(&mut self, line: &Line, thread: Tid) -> Result<(), Stop> {
        let concerned = self.is_concerned(thread);
        self.note(thread, true, false);
        if concerned {
            return self.holds.hear(line);
        }
        Ok(())
    }

    /// Hears one line more.
    fn hear(&mut self, line: &Line) -> Result<(), Stop> {
        match *line {
            Line::Thread(_) => push(
                &mut self.threads,
                Seen {
                    idle: true,
                    concerned: false,
                },
            ),
            Line::Begin(thread, request) => self.begin(line, thread, &request),
            Line::Answer(thread, _) => self.answer(line, thread),
            Line::End(thread) => {
                self.note(thread, false, false);
                Ok(())
            }
            _ => Ok(()),
        }
    }

    /// Whether a thread is idle.
    fn is_idle(&self, thread: Tid) -> bool {
        let place = thread.get() as usize;
        place < self.threads.len() && self.threads[place].idle
    }

    /// Whether the thread of this number is idle and holds a mutex.
    fn holds_idly(&self, number: usize, mutex: MutexId) -> bool {
        let Ok(number) = u32::try_from(number) else {
            return false;
        };
        match Tid::new(number) {
            Some(thread) => self.is_idle(thread) && self.holds.count(thread, mutex) > 0,
            None => false,
        }
    }

    /// Whether an idle thread holds a mutex.
    fn is_held_idly(&self, mutex: MutexId) -> bool {
        for number in 1..self.threads.len() {
            if self.holds_idly(number, mutex) {
                return true;
            }
        }
        false
    }

    /// Whether an idle thread could help a call: it holds the mutex of a lock, or could signal to a wait. A call that
    /// never waits needs no help.
    fn may_help(&self, request: &Request) -> bool {
        match *request {
            Request::Lock(mutex) => self.is_held_idly(mutex),
            Request::Wait(_, _) => self.threads.iter().any(|thread| thread.idle),
            _ => true,
        }
    }
}

/// The mutexes that these calls lock.
fn locked_by(alloc: Global, calls: &[Began]) -> Result<Vec<MutexId>, Stop> {
    let mut mutexes = Vec::new(alloc);
    for call in calls {
        if let Request::Lock(mutex) = call.request {
            push(&mut mutexes, mutex)?;
        }
    }
    Ok(mutexes)
}

/// What the lines of a history tell of the threads that could help these calls.
fn helpers_in(alloc: Global, history: &History, calls: &[Began]) -> Result<Helpers, Stop> {
    let nobody = Seen {
        idle: false,
        concerned: false,
    };
    let mut threads = Vec::new(alloc);
    push(&mut threads, nobody)?;
    let mut helpers = Helpers {
        mutexes: locked_by(alloc, calls)?,
        holds: Holds::new(alloc),
        threads,
    };
    for line in history.shown.as_slice() {
        helpers.hear(line)?;
    }
    Ok(helpers)
}

/// Whether one of these open calls needs no help, or may get it from a thread that has no call open.
fn may_be_helped(alloc: Global, history: &History, calls: &[Began]) -> Result<bool, Stop> {
    let helpers = helpers_in(alloc, history, calls)?;
    Ok(calls.iter().any(|call| helpers.may_help(&call.request)))
}

/// Whether a search finds that no answer of a thread is possible after all lines.
fn is_stuck_in<V: WatchLines>(
    alloc: Global,
    states: usize,
    history: &History,
    thread: Tid,
    watch: &mut V,
) -> Result<bool, Stop>
    ensures { IfOk result (λ b. b ≡ true → ArePossibleAnswers history.now.allowed (limits_of (heard_of history.now)) history.now.shown.items thread []) }
{
    let terms = terms_of(history, states);
    is_stuck(alloc, &terms, history.shown.as_slice(), thread, watch)
}

/// Whether a search finds that none of these calls can be answered after all lines.
fn are_stuck<V: WatchLines>(
    alloc: Global,
    states: usize,
    history: &History,
    calls: &[Began],
    watch: &mut V,
) -> Result<bool, Stop>
    ensures { IfOk result (λ b. b ≡ true → All (λ x. ArePossibleAnswers history.now.allowed (limits_of (heard_of history.now)) history.now.shown.items x.thread []) calls.now) }
{
    for call in calls {
        if !is_stuck_in(alloc, states, history, call.thread, watch)? {
            return Ok(false);
        }
    }
    Ok(true)
}

/// Whether it is found that these open calls are a deadlock: not if one of them may be helped, by what the lines tell.
fn is_deadlock<V: WatchLines>(
    alloc: Global,
    states: usize,
    history: &History,
    calls: &[Began],
    watch: &mut V,
) -> Result<bool, Stop>
    ensures { IfOk result (λ b. b ≡ true → IsDeadlock (heard_of history.now) calls.now) }
{
    if calls.is_empty() || any_deadline(calls) {
        return Ok(false);
    }
    if !all_ended(history.shown.as_slice()) {
        return Ok(false);
    }
    if may_be_helped(alloc, history, calls)? {
        return Ok(false);
    }
    are_stuck(alloc, states, history, calls, watch)
}

/// What is told at the end of a legal history: which calls are open, and whether it is found that none of them can be
/// answered. `watch` may end the searches for that.
///
/// # Errors
///
/// That of a search.
pub fn at_end_of<V: WatchLines>(
    alloc: Global,
    states: usize,
    history: &History,
    watch: &mut V,
) -> Result<AtEnd, Stop>
    requires { IsPaired history.now }
    ensures { IfOk result (IsAtEnd (heard_of history.now)) }
{
    let calls = open_at_end(alloc, history)?;
    let deadlock = is_deadlock(alloc, states, history, calls.as_slice(), watch)?;
    Ok(AtEnd { calls, deadlock })
}
