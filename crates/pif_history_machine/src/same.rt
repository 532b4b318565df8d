//! Whether two lines are the same. Each kind is compared by itself: a comparison of all at once is dear to prove.
ghost use Rattle.std.specs.Prelude.{◌≡◌, ◌↔◌, true};
ghost use Rattle.pif_history_model.specs.declared.lines.Line.TheVariants.{Thread, Mutex as MutexLine, Cond, Begin, Answer as AnswerLine, Dying, End, Tick, Rests, Prio, Process, Halted, Resumed, Asks};

use pif_history_model::{Fact, Line, Protocol};
use pif_types::{Answer, Kind, MutexId, Request, Tid};

/// Whether a line adds such a mutex.
fn is_mutex(line: &Line, kind: Kind, robust: bool, protocol: Protocol) -> bool
    ensures { result ≡ true ↔ line.now ≡ MutexLine kind robust protocol }
{
    match *line {
        Line::Mutex(other, other_robust, other_protocol) => {
            other == kind && other_robust == robust && other_protocol == protocol
        }
        _ => false,
    }
}

/// Whether a line adds a thread of this base priority.
fn is_thread(line: &Line, base: u32) -> bool
    ensures { result ≡ true ↔ line.now ≡ Thread base }
{
    match *line {
        Line::Thread(other) => other == base,
        _ => false,
    }
}

/// Whether a line adds a variable of this mutex.
fn is_cond(line: &Line, mutex: MutexId) -> bool
    ensures { result ≡ true ↔ line.now ≡ Cond mutex }
{
    match *line {
        Line::Cond(other) => other == mutex,
        _ => false,
    }
}

/// Whether a line begins this call.
fn is_begin(line: &Line, thread: Tid, request: &Request) -> bool
    ensures { result ≡ true ↔ line.now ≡ Begin thread request.now }
{
    match *line {
        Line::Begin(other, asked) => other == thread && asked == *request,
        _ => false,
    }
}

/// Whether a line is this answer.
fn is_answer(line: &Line, thread: Tid, answer: Answer) -> bool
    ensures { result ≡ true ↔ line.now ≡ AnswerLine thread answer }
{
    match *line {
        Line::Answer(other, said) => other == thread && said == answer,
        _ => false,
    }
}

/// Whether a line says that this thread is dying.
fn is_dying(line: &Line, thread: Tid) -> bool
    ensures { result ≡ true ↔ line.now ≡ Dying thread }
{
    match *line {
        Line::Dying(other) => other == thread,
        _ => false,
    }
}

/// Whether a line says that this thread has ended.
fn is_end(line: &Line, thread: Tid) -> bool
    ensures { result ≡ true ↔ line.now ≡ End thread }
{
    match *line {
        Line::End(other) => other == thread,
        _ => false,
    }
}

/// Whether a line says this time.
fn is_tick(line: &Line, time: u32) -> bool
    ensures { result ≡ true ↔ line.now ≡ Tick time }
{
    match *line {
        Line::Tick(other) => other == time,
        _ => false,
    }
}

/// Whether a line says that this thread rests.
fn is_rests(line: &Line, thread: Tid) -> bool
    ensures { result ≡ true ↔ line.now ≡ Rests thread }
{
    match *line {
        Line::Rests(other) => other == thread,
        _ => false,
    }
}

/// Whether a line tells of this priority.
fn is_prio(line: &Line, thread: Tid, priority: u32) -> bool
    ensures { result ≡ true ↔ line.now ≡ Prio thread priority }
{
    match *line {
        Line::Prio(other, told) => other == thread && told == priority,
        _ => false,
    }
}

/// Whether a line says that the process of this thread ends.
fn is_process(line: &Line, thread: Tid) -> bool
    ensures { result ≡ true ↔ line.now ≡ Process thread }
{
    match *line {
        Line::Process(other) => other == thread,
        _ => false,
    }
}

/// Whether a line says that nothing runs.
fn is_halted(line: &Line) -> bool
    ensures { result ≡ true ↔ line.now ≡ Halted }
{
    match *line {
        Line::Halted => true,
        _ => false,
    }
}

/// Whether a line says that the threads go on.
fn is_resumed(line: &Line) -> bool
    ensures { result ≡ true ↔ line.now ≡ Resumed }
{
    match *line {
        Line::Resumed => true,
        _ => false,
    }
}

/// Whether a line asks for this fact.
fn is_asks(line: &Line, fact: &Fact, holds: bool) -> bool
    ensures { result ≡ true ↔ line.now ≡ Asks fact.now holds }
{
    match *line {
        Line::Asks(other, other_holds) => other == *fact && other_holds == holds,
        _ => false,
    }
}

/// Whether two lines are the same.
pub(crate) fn is_same_line(line: &Line, other: &Line) -> bool
    ensures { result ≡ true ↔ line.now ≡ other.now }
{
    match *line {
        Line::Mutex(kind, robust, protocol) => is_mutex(other, kind, robust, protocol),
        Line::Thread(base) => is_thread(other, base),
        Line::Cond(mutex) => is_cond(other, mutex),
        Line::Begin(thread, request) => is_begin(other, thread, &request),
        Line::Answer(thread, answer) => is_answer(other, thread, answer),
        Line::Dying(thread) => is_dying(other, thread),
        Line::End(thread) => is_end(other, thread),
        Line::Tick(time) => is_tick(other, time),
        Line::Rests(thread) => is_rests(other, thread),
        Line::Prio(thread, priority) => is_prio(other, thread, priority),
        Line::Process(thread) => is_process(other, thread),
        Line::Halted => is_halted(other),
        Line::Resumed => is_resumed(other),
        Line::Asks(fact, holds) => is_asks(other, &fact, holds),
    }
}
