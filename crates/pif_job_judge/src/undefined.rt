//! Calls whose behaviour POSIX leaves undefined, and which threads may have made before the line from which on it
//! forbids a history.
ghost use Rattle.std.specs.Prelude.{◌∷◌, true, reverse, IfOk, IfSome, IsTrue};
ghost use Rattle.pif_history_model.specs.declared.lines.Line.TheVariants.{Asks};
ghost use Rattle.pif_history_model.specs.Verdicts.{IsShownBy};
ghost use Rattle.pif_job_judge.specs.Undefined.{IsUndefinedBefore};

use crate::holds::Holds;
use pif_history::judge_lines;
use pif_history_machine::Verdict;
use pif_history_model::{Fact, HistoryLimits, Line};
use pif_rules_model::Rules;
use pif_search::{Stop, WatchLines, push};
use pif_types::{CondId, MutexId, Request, Tid};
use std::alloc::Global;

/// Of so many calls it is asked at most.
const MOST_ASKED: usize = 64;

/// A line that begins a call, the nth.
#[derive(Clone, Copy)]
pub struct Begun {
    /// Its place among the lines, from 1.
    pub count: usize,
    /// The thread.
    pub thread: Tid,
    /// The call.
    pub request: Request,
}

/// A condition variable, by the mutex with which it was added, and that of the last wait on it.
#[derive(Clone, Copy)]
struct Bound {
    added: MutexId,
    last: MutexId,
}

/// What the lines that were heard tell of calls that may be undefined. Nothing that is told rests on it.
#[derive(Drop)]
struct Suspicion {
    holds: Holds,
    bound: Vec<Bound>,
    gone: Vec<Tid>,
}

impl Suspicion {
    /// Before any line.
    fn new(alloc: Global) -> Suspicion {
        Suspicion {
            holds: Holds::new(alloc),
            bound: Vec::new(alloc),
            gone: Vec::new(alloc),
        }
    }

    /// Whether a wait with this mutex isn't the only one of its variable.
    fn is_torn(&self, cond: CondId, mutex: MutexId) -> bool {
        let place = cond.get() as usize - 1;
        if place >= self.bound.len() {
            return false;
        }
        let bound = self.bound[place];
        bound.added != mutex || bound.last != mutex
    }

    /// Whether it was said that a thread is dying, or has ended.
    fn is_gone(&self, thread: Tid) -> bool {
        for gone in self.gone.as_slice() {
            if *gone == thread {
                return true;
            }
        }
        false
    }

    /// Whether POSIX may leave undefined what this call of a thread does.
    fn is_suspect(&self, thread: Tid, request: &Request) -> bool {
        match *request {
            Request::Unlock(mutex) => self.holds.count(thread, mutex) == 0,
            Request::Wait(cond, mutex) | Request::TimedWait(cond, mutex, _) => {
                self.holds.count(thread, mutex) == 0 || self.is_torn(cond, mutex)
            }
            Request::SetPrio(other, _) => self.is_gone(other),
            _ => false,
        }
    }

    /// Takes note of a wait with this mutex.
    fn wait(&mut self, cond: CondId, mutex: MutexId) {
        let place = cond.get() as usize - 1;
        if place < self.bound.len() {
            self.bound[place].last = mutex;
        }
    }

    /// Hears one line more.
    fn hear(&mut self, line: &Line) -> Result<(), Stop> {
        match *line {
            Line::Cond(mutex) => {
                let bound = Bound {
                    added: mutex,
                    last: mutex,
                };
                push(&mut self.bound, bound)?;
            }
            Line::Dying(thread) | Line::End(thread) => push(&mut self.gone, thread)?,
            Line::Begin(_, Request::Wait(cond, mutex) | Request::TimedWait(cond, mutex, _)) => {
                self.wait(cond, mutex)
            }
            _ => {}
        }
        self.holds.hear(line)
    }
}

/// The first begins, among so many lines, of calls that may be undefined.
fn suspects_among(alloc: Global, lines: &[Line]) -> Result<Vec<Begun>, Stop> {
    let mut suspicion = Suspicion::new(alloc);
    let mut found = Vec::new(alloc);
    for place in 0..lines.len() {
        if let Line::Begin(thread, request) = lines[place] {
            if suspicion.is_suspect(thread, &request) && found.len() < MOST_ASKED {
                let count = place + 1;
                push(
                    &mut found,
                    Begun {
                        count,
                        thread,
                        request,
                    },
                )?;
            }
        }
        suspicion.hear(&lines[place])?;
    }
    Ok(found)
}

/// Whether a search finds a run that shows the first lines and ends in a state in which this fact is so.
pub(crate) fn is_found<V: WatchLines>(
    alloc: Global,
    rules: &Rules,
    limits: HistoryLimits,
    before: &[Line],
    fact: &Fact,
    states: usize,
    watch: &mut V,
) -> Result<bool, Stop>
    ensures { IfOk result (λ b. IsTrue b → IsShownBy (record rules.now { extra_lines = true }) limits (Asks fact.now true ∷ reverse before.now)) }
{
    let rules = Rules {
        extra_lines: true,
        ..*rules
    };
    let mut lines = Vec::from_slice(alloc, before)?;
    push(&mut lines, Line::Asks(*fact, true))?;
    match judge_lines(alloc, &rules, limits, lines.as_slice(), states, watch)? {
        Verdict::Legal(_) => Ok(true),
        Verdict::Illegal(_) => Ok(false),
        Verdict::Undecided(_) => Ok(false),
    }
}

/// The begin at this place, if it is found that POSIX leaves undefined what the call does, and it is one of the first
/// lines.
fn undefined_at<V: WatchLines>(
    alloc: Global,
    rules: &Rules,
    limits: HistoryLimits,
    lines: &[Line],
    place: usize,
    states: usize,
    watch: &mut V,
) -> Result<Option<Begun>, Stop>
    ensures { IfOk result (λ o. IfSome o (IsUndefinedBefore rules.now limits lines.now)) }
{
    if place >= lines.len() {
        return Ok(None);
    }
    let Line::Begin(thread, request) = lines[place] else {
        return Ok(None);
    };
    let count = place + 1;
    let fact = Fact::LeftUndefined(thread);
    if !is_found(alloc, rules, limits, &lines[..count], &fact, states, watch)? {
        return Ok(None);
    }
    Ok(Some(Begun {
        count,
        thread,
        request,
    }))
}

/// The first of these lines, oldest first, with which a call begins whose behaviour POSIX leaves undefined in some run
/// with these rules, if one is found. Asked is of the first 64 begins of an unlock or a wait of a mutex that the thread
/// doesn't hold by its answers, of a wait with another mutex than before, or of a setprio of a thread that has ended.
///
/// # Errors
///
/// That of a search.
pub fn undefined_among<V: WatchLines>(
    alloc: Global,
    rules: &Rules,
    limits: HistoryLimits,
    lines: &[Line],
    states: usize,
    watch: &mut V,
) -> Result<Option<Begun>, Stop>
    ensures { IfOk result (λ o. IfSome o (IsUndefinedBefore rules.now limits lines.now)) }
{
    let suspects = suspects_among(alloc, lines)?;
    for suspect in suspects.as_slice() {
        let place = suspect.count.saturating_sub(1);
        let found = undefined_at(alloc, rules, limits, lines, place, states, watch)?;
        if let Some(begun) = found {
            return Ok(Some(begun));
        }
    }
    Ok(None)
}
