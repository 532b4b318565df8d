//! The threads that are dying: of whom the history said so, and whose end it has not said since.
ghost use Rattle.std.specs.Prelude.{◌≡◌, ◌==◌, ◌∷◌, true, not, IfOk};
ghost use Rattle.std.specs.List.{filter};
ghost use Rattle.pif_history_model.specs.Lines.{is_among, is_line_among, dying_after, thread_of};

use pif_history_model::Line;
use pif_search::{Stop, one};
use pif_types::Tid;
use std::alloc::Global;

/// Whether the thread of this number is among these.
pub fn is_number_among(threads: &[Tid], number: usize) -> bool
    ensures { result ≡ is_among threads.now number }
{
    threads.iter().any(|t| t.get() as usize == number)
}

/// Whether a thread is among these.
pub fn is_among(threads: &[Tid], thread: Tid) -> bool
    ensures { result ≡ is_among threads.now thread }
{
    is_number_among(threads, thread.get() as usize)
}

/// The thread whose line it is; `None` if it is one of no thread.
pub fn thread_of(line: &Line) -> Option<Tid>
    ensures { result ≡ thread_of line.now }
{
    match *line {
        Line::Begin(t, _) => Some(t),
        Line::Answer(t, _) => Some(t),
        Line::Dying(t) => Some(t),
        Line::End(t) => Some(t),
        Line::Rests(t) => Some(t),
        Line::Prio(t, _) => Some(t),
        Line::Process(t) => Some(t),
        Line::Thread(_)
        | Line::Mutex(_, _, _)
        | Line::Cond(_)
        | Line::Tick(_)
        | Line::Halted
        | Line::Resumed
        | Line::Asks(_, _) => None,
    }
}

/// Whether it is a line of one of these threads.
pub fn is_line_among(threads: &[Tid], line: &Line) -> bool
    ensures { result ≡ is_line_among threads.now line.now }
{
    match thread_of(line) {
        Some(t) => is_among(threads, t),
        None => false,
    }
}

/// All of these threads but one.
fn without(alloc: Global, threads: &[Tid], thread: Tid) -> Result<Vec<Tid>, Stop>
    ensures { IfOk result (λ v. v.items ≡ filter (λ u. not (u == thread)) threads.now) }
{
    let mut rest = copied(alloc, threads)?;
    rest.retain(|other| other.get() != thread.get());
    Ok(rest)
}

/// A thread, and these.
pub(crate) fn with(alloc: Global, threads: &[Tid], thread: Tid) -> Result<Vec<Tid>, Stop>
    ensures { IfOk result (λ v. v.items ≡ thread ∷ threads.now) }
{
    let mut all = one(alloc, thread)?;
    all.extend_from_slice(threads)?;
    Ok(all)
}

/// Who is dying behind one more line, if these were.
///
/// # Errors
///
/// Out of memory.
pub fn dying_after(alloc: Global, line: &Line, threads: &[Tid]) -> Result<Vec<Tid>, Stop>
    ensures { IfOk result (λ v. v.items ≡ dying_after line.now threads.now) }
{
    match *line {
        Line::Dying(t) => with(alloc, threads, t),
        Line::End(t) => without(alloc, threads, t),
        _ => copied(alloc, threads),
    }
}

/// The same threads.
fn copied(alloc: Global, threads: &[Tid]) -> Result<Vec<Tid>, Stop>
    ensures { IfOk result (λ v. v.items ≡ threads.now) }
{
    let copy = Vec::from_slice(alloc, threads)?;
    Ok(copy)
}

/// Whether they are the same threads in the same order.
pub fn are_same(threads: &[Tid], others: &[Tid]) -> bool
    ensures { result ≡ true → threads.now ≡ others.now }
{
    if threads.len() != others.len() {
        return false;
    }
    for i in 0..threads.len() {
        if threads[i].get() != others[i].get() {
            return false;
        }
    }
    true
}
