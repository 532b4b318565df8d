//! What the lines of a history tell of whether the next one is refused.
ghost use Rattle.std.specs.Prelude.{◌≡◌, ◌+◌, ◌&&◌, false, not, nat_lt, length, reverse, IfOk, OnOk, get_or, slice_set};
ghost use Rattle.pif_model.specs.Graph.{is_priority};
ghost use Rattle.pif_model.specs.Posix.{names_known};
ghost use Rattle.pif_history_model.specs.Lines.{comes_while};
ghost use Rattle.pif_history_model.specs.Refused.{is_known};
ghost use Rattle.pif_history_machine.specs.Verdicts.{IsRefusalThere};
ghost use Rattle.pif_job_judge.specs.Before.{HaveCome, IsCounted, IsFirstRefused, come_after, counted_after, is_added, is_taken, lives, nothing, threads_after};

use pif_history_machine::{comes_while, halted_after, refusal};
use pif_history_model::{HistoryLimits, Line, LineRefusal};
use pif_search::{Stop, at_or, push};
use pif_types::{Prio, Request, Tid};
use std::alloc::Global;

/// What lines tell of a thread.
#[derive(Clone, Copy)]
pub struct Come {
    /// Whether it has a call open, if it lives.
    calling: bool,
    /// Whether it was said that it is dying, or has ended.
    gone: bool,
    /// Whether it was said that it is dying, and not since that it has ended.
    dying: bool,
}

/// What lines tell of all else.
#[derive(Clone, Copy)]
pub struct Counts {
    /// Whether nothing runs.
    halted: bool,
    /// How many mutexes were added.
    mutexes: usize,
    /// How many condition variables were added.
    conds: usize,
    /// The time.
    time: u32,
}

/// Nothing is told of a thread.
pub fn nothing() -> Come
    ensures { result ≡ nothing }
{
    Come {
        calling: false,
        gone: false,
        dying: false,
    }
}

/// What is told of a thread; nothing, if it was never added.
fn come_of(threads: &[Come], thread: Tid) -> Come
    ensures { result ≡ get_or threads.now thread nothing }
{
    at_or(threads, thread.get() as usize, nothing())
}

/// What a line tells of its thread, if this was told before.
fn come_after(line: &Line, before: Come) -> Come
    ensures { result ≡ come_after line.now before }
{
    match *line {
        Line::Begin(_, _) => Come {
            calling: true,
            ..before
        },
        Line::Answer(_, _) => Come {
            calling: false,
            ..before
        },
        Line::Dying(_) => Come {
            gone: true,
            dying: true,
            ..before
        },
        Line::End(_) => Come {
            gone: true,
            dying: false,
            ..before
        },
        _ => before,
    }
}

/// Keeps what is told of a thread, if it was added.
fn keep(threads: &mut [Come], thread: Tid, come: Come)
    ensures { threads.new ≡ slice_set threads.old thread come }
{
    let place = thread.get() as usize;
    if place < threads.len() {
        threads[place] = come;
    }
}

/// Hears a line of this thread.
fn hear_of(threads: &mut [Come], line: &Line, thread: Tid)
    ensures { threads.new ≡ slice_set threads.old thread (come_after line.now (get_or threads.old thread nothing)) }
{
    let come = come_of(threads, thread);
    keep(threads, thread, come_after(line, come));
}

/// Hears what a line tells of threads, which stand at the places of their numbers.
pub fn hear(threads: &mut Vec<Come>, line: &Line) -> Result<(), Stop>
    ensures { OnOk result (threads.new.items ≡ threads_after line.now threads.old.items) }
{
    match *line {
        Line::Thread(_) => return push(threads, nothing()),
        Line::Begin(thread, _) => hear_of(threads.as_mut_slice(), line, thread),
        Line::Answer(thread, _) => hear_of(threads.as_mut_slice(), line, thread),
        Line::Dying(thread) => hear_of(threads.as_mut_slice(), line, thread),
        Line::End(thread) => hear_of(threads.as_mut_slice(), line, thread),
        _ => {}
    }
    Ok(())
}

/// One more.
fn one_more(count: usize) -> Result<usize, Stop>
    ensures { IfOk result (λ n. n ≡ count + 1) }
{
    match count.checked_add(1) {
        Some(more) => Ok(more),
        None => Err(Stop::Range),
    }
}

impl Counts {
    /// Before any line.
    pub fn none() -> Counts
        ensures { result ≡ record { halted = false; mutexes = 0; conds = 0; time = 0 } }
    {
        Counts {
            halted: false,
            mutexes: 0,
            conds: 0,
            time: 0,
        }
    }

    /// The same after one line more.
    pub fn after(self, line: &Line) -> Result<Counts, Stop>
        ensures { IfOk result (λ x. x ≡ counted_after line.now self) }
    {
        match *line {
            Line::Mutex(_, _, _) => Ok(Counts {
                mutexes: one_more(self.mutexes)?,
                ..self
            }),
            Line::Cond(_) => Ok(Counts {
                conds: one_more(self.conds)?,
                ..self
            }),
            Line::Tick(time) => Ok(Counts { time, ..self }),
            _ => Ok(Counts {
                halted: halted_after(line, self.halted),
                ..self
            }),
        }
    }
}

/// Whether a number is one of the first so many, from 1.
fn is_known(count: usize, number: u32) -> bool
    ensures { result ≡ is_known count number }
{
    number != 0 && number as usize <= count
}

/// Whether the names of a request were added, but for that of another thread.
fn knows(counts: &Counts, request: &Request) -> bool
    ensures { result ≡ names_known (is_known counts.now.mutexes) (is_known counts.now.conds) request.now }
{
    let named = request.names();
    match (named.mutex, named.cond) {
        (Some(mutex), Some(cond)) => {
            is_known(counts.conds, cond.get()) && is_known(counts.mutexes, mutex.get())
        }
        (Some(mutex), None) => is_known(counts.mutexes, mutex.get()),
        (None, Some(cond)) => is_known(counts.conds, cond.get()),
        (None, None) => true,
    }
}

/// Whether a thread was added.
fn is_added(threads: &[Come], thread: Tid) -> bool
    ensures { result ≡ is_added threads.now thread }
{
    let place = thread.get() as usize;
    place != 0 && place < threads.len()
}

/// Whether a thread was added, and is neither dying nor has ended.
fn lives(threads: &[Come], thread: Tid) -> bool
    ensures { result ≡ lives threads.now thread }
{
    is_added(threads, thread) && !come_of(threads, thread).gone
}

/// Whether one more thread of this base priority may be added.
fn takes_thread(limits: HistoryLimits, threads: &[Come], base: u32) -> bool
    ensures { result ≡ (is_priority base && nat_lt (length threads.now) (limits.threads + 1)) }
{
    Prio::new(base).is_some() && threads.len() <= limits.threads as usize
}

/// Whether a call may begin.
fn takes_begin(threads: &[Come], counts: &Counts, thread: Tid, request: &Request) -> bool
    ensures { result ≡ (lives threads.now thread && (not (get_or threads.now thread nothing).calling && names_known (is_known counts.now.mutexes) (is_known counts.now.conds) request.now)) }
{
    lives(threads, thread) && !come_of(threads, thread).calling && knows(counts, request)
}

/// Whether a line may come behind lines that tell this, while threads run.
fn takes(limits: HistoryLimits, threads: &[Come], counts: &Counts, line: &Line) -> bool
    ensures { result ≡ is_taken limits threads.now counts.now line.now }
{
    match *line {
        Line::Thread(base) => takes_thread(limits, threads, base),
        Line::Mutex(_, _, _) => counts.mutexes < limits.mutexes as usize,
        Line::Cond(mutex) => {
            is_known(counts.mutexes, mutex.get()) && counts.conds < limits.conds as usize
        }
        Line::Begin(thread, request) => takes_begin(threads, counts, thread, &request),
        Line::Answer(thread, _) => lives(threads, thread) && come_of(threads, thread).calling,
        Line::Tick(time) => time >= counts.time,
        Line::End(thread) => come_of(threads, thread).dying || lives(threads, thread),
        Line::Process(thread) => { is_added(threads, thread) && !come_of(threads, thread).dying }
        Line::Dying(thread) | Line::Rests(thread) | Line::Prio(thread, _) => {
            lives(threads, thread)
        }
        Line::Halted | Line::Resumed | Line::Asks(_, _) => true,
    }
}

/// Whether a line may come behind lines that tell this.
fn may_come(limits: HistoryLimits, threads: &[Come], counts: &Counts, line: &Line) -> bool
    ensures { result ≡ (comes_while counts.now.halted line.now && is_taken limits threads.now counts.now line.now) }
{
    comes_while(counts.halted, line) && takes(limits, threads, counts, line)
}

/// Why a line is refused behind the lines before it, oldest first, which tell this; None if it isn't.
fn refusal_behind(
    limits: HistoryLimits,
    threads: &[Come],
    counts: &Counts,
    before: &[Line],
    line: &Line,
) -> Result<Option<LineRefusal>, Stop>
    ensures { IfOk result (λ o. HaveCome (reverse before.now) threads.now → IsCounted (reverse before.now) counts.now → IsRefusalThere limits before.now line.now o) }
{
    if may_come(limits, threads, counts, line) {
        return Ok(None);
    }
    refusal(limits, before, line)
}

/// A line that is refused, the nth, and why.
#[derive(Clone, Copy)]
pub struct Refused {
    /// Its place among the lines, from 1.
    pub count: usize,
    /// Why it is refused.
    pub why: LineRefusal,
}

/// The first of these lines, oldest first, that is refused, whatever was answered, and why.
///
/// # Errors
///
/// Out of memory.
pub fn first_refused(
    alloc: Global,
    limits: HistoryLimits,
    lines: &[Line],
) -> Result<Option<Refused>, Stop>
    ensures { IfOk result (IsFirstRefused limits lines.now) }
{
    let mut threads = Vec::new(alloc);
    push(&mut threads, nothing())?;
    let mut counts = Counts::none();
    for place in 0..lines.len() {
        let line = &lines[place];
        let refused = refusal_behind(limits, threads.as_slice(), &counts, &lines[..place], line)?;
        if let Some(why) = refused {
            return Ok(Some(Refused {
                count: place + 1,
                why,
            }));
        }
        hear(&mut threads, line)?;
        counts = counts.after(line)?;
    }
    Ok(None)
}
