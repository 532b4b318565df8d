//! Lines that no run has, whatever was answered.
ghost use Rattle.std.specs.Prelude.{◌≡◌, ◌∷◌, ◌+◌, [], ℕ, List, Option, Some, None, reverse, not, IfOk, IfSome, OnOk, if◌then◌else◌};
ghost use Rattle.pif_model.specs.Refusals.{begin_refused, go_refused, end_refused, tick_refused};
ghost use Rattle.pif_model.specs.Posix.{names_known};
ghost use Rattle.pif_types.specs.declared.errors.AddFault.TheVariants.{NoSuch as NoSuchMutex};
ghost use Rattle.pif_types.specs.declared.errors.Refusal.TheVariants.{NoSuch, Dead};
ghost use Rattle.pif_history_model.specs.declared.refusals.LineRefusal.TheVariants.{Addition};
ghost use Rattle.pif_history_model.specs.declared.lines.Line.{Line as ShownLine};
ghost use Rattle.pif_history_model.specs.Lines.{thread_of};
ghost use Rattle.pif_history_model.specs.Refused.{is_known, refusal_while_running, refusal_of_line, room_refused, event_refused};
ghost use Rattle.pif_history_machine.specs.Verdicts.{IsRefusalThere};
ghost use Rattle.pif_history_machine.specs.Told.{IsTold, after_end};

use crate::dying::thread_of;
use crate::halting::comes_while;
use pif_history_model::{HistoryLimits, Line, LineRefusal};
use pif_search::Stop;
use pif_types::{AddFault, MutexId, Prio, Refusal, Request, Tid};

/// What the lines before a line tell of one thread and of what was added.
#[derive(Clone, Copy)]
struct Told {
    /// How many threads were added.
    threads: usize,
    mutexes: usize,
    conds: usize,
    time: u32,
    /// Whether the thread has a call open, if it lives.
    open_call: bool,
    /// Whether it was said that the thread is dying, or has ended.
    gone: bool,
    /// Whether it was said that the thread is dying, and not since that it has ended.
    dying: bool,
    /// Whether nothing runs.
    halted: bool,
}

/// Counts one more.
fn add_one(count: &mut usize) -> Result<(), Stop>
    ensures { OnOk result (count.new ≡ count.old + 1) }
{
    match count.checked_add(1) {
        Some(more) => {
            *count = more;
            Ok(())
        }
        None => Err(Stop::Range),
    }
}

impl Told {
    /// What no lines tell.
    fn nothing() -> Told
        ensures { (t : ℕ) → IsTold t [] result }
    {
        Told {
            threads: 0,
            mutexes: 0,
            conds: 0,
            time: 0,
            open_call: false,
            gone: false,
            dying: false,
            halted: false,
        }
    }

    /// The thread has ended, if it is this one.
    fn end_if(&mut self, is_own: bool)
        ensures { self.new ≡ after_end is_own self.old }
    {
        if is_own {
            self.gone = true;
            self.dying = false;
        }
    }

    /// Hears one line more, of this thread or of another.
    fn hear(&mut self, thread: Tid, line: Line) -> Result<(), Stop>
        ensures { OnOk result ((lines : List ShownLine) → IsTold thread lines self.old → IsTold thread (line ∷ lines) self.new) }
    {
        match line {
            Line::Thread(_) => return add_one(&mut self.threads),
            Line::Mutex(_, _, _) => return add_one(&mut self.mutexes),
            Line::Cond(_) => return add_one(&mut self.conds),
            Line::Tick(time) => self.time = time,
            Line::Begin(t, _) => self.open_call = self.open_call || t == thread,
            Line::Answer(t, _) => self.open_call = self.open_call && t != thread,
            Line::Dying(t) => {
                self.gone = self.gone || t == thread;
                self.dying = self.dying || t == thread;
            }
            Line::End(t) => self.end_if(t.get() == thread.get()),
            Line::Halted => self.halted = true,
            Line::Resumed => self.halted = false,
            Line::Rests(_) | Line::Prio(_, _) | Line::Process(_) | Line::Asks(_, _) => {}
        }
        Ok(())
    }

    /// What these lines, oldest first, tell.
    fn by(lines: &[Line], thread: Tid) -> Result<Told, Stop>
        ensures { IfOk result (IsTold thread (reverse lines.now)) }
    {
        let mut told = Told::nothing();
        for line in lines {
            told.hear(thread, *line)?;
        }
        Ok(told)
    }

    /// Whether the thread of this number was added.
    fn knows_thread(&self, thread: Tid) -> bool
        ensures { result ≡ is_known self.now.threads thread }
    {
        is_known(self.threads, thread.get())
    }

    /// Whether the names of this request were added, but for that of another thread.
    fn knows_names(&self, request: Request) -> bool
        ensures { result ≡ names_known (is_known self.now.mutexes) (is_known self.now.conds) request }
    {
        let named = request.names();
        match (named.mutex, named.cond) {
            (Some(mutex), Some(cond)) => {
                is_known(self.conds, cond.get()) && is_known(self.mutexes, mutex.get())
            }
            (Some(mutex), None) => is_known(self.mutexes, mutex.get()),
            (None, Some(cond)) => is_known(self.conds, cond.get()),
            (None, None) => true,
        }
    }

    /// Why a line of the thread is refused that only asks that it lives, if it is.
    fn living_refusal(&self, thread: Tid) -> Option<Refusal>
        ensures { result ≡ end_refused (is_known self.now.threads thread) (not self.now.gone) }
    {
        if !self.knows_thread(thread) {
            return Some(Refusal::NoSuch);
        }
        if self.gone { Some(Refusal::Dead) } else { None }
    }

    /// Why the begin of this call is refused, if it is.
    fn begin_refusal(&self, thread: Tid, request: Request) -> Option<Refusal>
        ensures { result ≡ begin_refused (is_known self.now.threads thread) (not self.now.gone) self.now.open_call (names_known (is_known self.now.mutexes) (is_known self.now.conds) request) }
    {
        if let Some(refusal) = self.living_refusal(thread) {
            return Some(refusal);
        }
        if self.open_call {
            return Some(Refusal::Busy);
        }
        if self.knows_names(request) {
            None
        } else {
            Some(Refusal::NoSuch)
        }
    }

    /// Why an answer is refused, if it is.
    fn answer_refusal(&self, thread: Tid) -> Option<Refusal>
        ensures { result ≡ go_refused (is_known self.now.threads thread) (not self.now.gone) self.now.open_call }
    {
        if let Some(refusal) = self.living_refusal(thread) {
            return Some(refusal);
        }
        if self.open_call {
            None
        } else {
            Some(Refusal::Idle)
        }
    }

    /// Why a tick is refused, if it is.
    fn tick_refusal(&self, time: u32) -> Option<Refusal>
        ensures { result ≡ tick_refused self.now.time time }
    {
        if time < self.time {
            Some(Refusal::Past)
        } else {
            None
        }
    }

    /// Why the end of the thread is refused, if it is.
    fn end_refusal(&self, thread: Tid) -> Option<Refusal>
        ensures { result ≡ if self.now.dying then None else end_refused (is_known self.now.threads thread) (not self.now.gone) }
    {
        if self.dying {
            None
        } else {
            self.living_refusal(thread)
        }
    }

    /// Why a variable that is bound to this mutex is not added, if it isn't.
    fn cond_refusal(&self, limits: HistoryLimits, mutex: MutexId) -> Option<LineRefusal>
        ensures { result ≡ if is_known self.now.mutexes mutex then room_refused self.now.conds limits.conds else Some (Addition NoSuchMutex) }
    {
        if is_known(self.mutexes, mutex.get()) {
            room_refusal(self.conds, limits.conds)
        } else {
            Some(LineRefusal::Addition(AddFault::NoSuch))
        }
    }

    /// Why it is refused that the process of the thread ends, if it is.
    fn process_refusal(&self, thread: Tid) -> Option<Refusal>
        ensures { result ≡ if is_known self.now.threads thread then (if self.now.dying then Some Dead else None) else Some NoSuch }
    {
        if !self.knows_thread(thread) {
            return Some(Refusal::NoSuch);
        }
        if self.dying {
            Some(Refusal::Dead)
        } else {
            None
        }
    }

    /// Why no run has this line, whatever was answered, behind lines that tell this of its thread and behind which threads
    /// run; None if there is no such reason.
    fn refusal_while_running(&self, limits: HistoryLimits, line: &Line) -> Option<LineRefusal>
        ensures { (t : ℕ) (before : List ShownLine) → IfSome (thread_of line.now) (λ u. u ≡ t) → IsTold t before self.now → result ≡ refusal_while_running limits before line.now }
    {
        match *line {
            Line::Thread(base) if Prio::new(base).is_none() => {
                Some(LineRefusal::Addition(AddFault::BadPrio))
            }
            Line::Thread(_) => room_refusal(self.threads, limits.threads),
            Line::Mutex(_, _, _) => room_refusal(self.mutexes, limits.mutexes),
            Line::Cond(mutex) => self.cond_refusal(limits, mutex),
            Line::Begin(t, request) => of_event(self.begin_refusal(t, request)),
            Line::Answer(t, _) => of_event(self.answer_refusal(t)),
            Line::End(t) => of_event(self.end_refusal(t)),
            Line::Tick(time) => of_event(self.tick_refusal(time)),
            Line::Process(t) => of_event(self.process_refusal(t)),
            Line::Dying(t) | Line::Rests(t) | Line::Prio(t, _) => of_event(self.living_refusal(t)),
            Line::Halted | Line::Resumed | Line::Asks(_, _) => None,
        }
    }

    /// The same, whether threads run or not.
    fn refusal(&self, limits: HistoryLimits, line: &Line) -> Option<LineRefusal>
        ensures { (t : ℕ) (before : List ShownLine) → IfSome (thread_of line.now) (λ u. u ≡ t) → IsTold t before self.now → result ≡ refusal_of_line limits before line.now }
    {
        if comes_while(self.halted, line) {
            self.refusal_while_running(limits, line)
        } else {
            Some(LineRefusal::Halt)
        }
    }
}

/// Whether a number is one of the first so many, from 1.
fn is_known(count: usize, number: u32) -> bool
    ensures { result ≡ is_known count number }
{
    number != 0 && number as usize <= count
}

/// Why one more is not added, if it isn't.
fn room_refusal(count: usize, limit: u32) -> Option<LineRefusal>
    ensures { result ≡ room_refused count limit }
{
    if count < limit as usize {
        None
    } else {
        Some(LineRefusal::Addition(AddFault::TooMany))
    }
}

/// A refusal of an event as that of a line.
fn of_event(refusal: Option<Refusal>) -> Option<LineRefusal>
    ensures { result ≡ event_refused refusal }
{
    match refusal {
        Some(refusal) => Some(LineRefusal::Event(refusal)),
        None => None,
    }
}

/// Why no run has this line behind the lines before, oldest first, whatever was answered; None if there is no such
/// reason. It errs if the lines are too many to be counted.
pub fn refusal(
    limits: HistoryLimits,
    before: &[Line],
    line: &Line,
) -> Result<Option<LineRefusal>, Stop>
    ensures { IfOk result (IsRefusalThere limits before.now line.now) }
{
    let thread = thread_of(line).unwrap_or_default();
    let told = Told::by(before, thread)?;
    Ok(told.refusal(limits, line))
}
