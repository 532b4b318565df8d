//! One step in place, if there is no choice: what a player does that keeps one state.
ghost use Rattle.std.specs.Prelude.{◌≡◌, ◌<◌, ◌∷◌, [], true, Some, ℕ, length, IfOk};
ghost use Rattle.pif_model.specs.Posix.{thread_at};
ghost use Rattle.pif_posix_steps.specs.Once.{MovesOnce, Enters};
ghost use Rattle.pif_posix_steps.specs.Doing.{acted, moved, chosen, entered};
ghost use Rattle.pif_posix.specs.Results.{if_done, happened_in_place, entered_in_place};
ghost use Rattle.pif_posix.specs.Shapes.{call_of};

use crate::progress::{Call, Progress};
use crate::requests::{is_use, variable_of};
use crate::state::State;
use pif_model::{Entry, Event, Seen};
use pif_posix_steps::HistoryLimits;
use pif_search::Stop;
use pif_types::Request;
use std::alloc::Global;

/// Steps in place.
impl State {
    /// A signal or broadcast of a thread, which has used its variable, wakes nobody, if nobody is blocked on it; else
    /// nothing changes.
    fn wake_nobody(&mut self, alloc: Global, thread: usize, request: &Request) -> Result<bool, Stop>
        requires { thread < length self.old.threads }
        ensures { IfOk result (λ b. b ≡ true → chosen thread request.now self.old ≡ self.new ∷ []) }
    {
        if !is_use(request) {
            return Ok(false);
        }
        let blocked = self.all_blocked(alloc, variable_of(request))?;
        if blocked.len() != 0 {
            return Ok(false);
        }
        self.set_progress(thread, Progress::Has(0));
        Ok(true)
    }

    /// The open call of a thread does the one thing that it can do next.
    fn do_next(&mut self, alloc: Global, thread: u32, call: &Call) -> Result<bool, Stop>
        requires thread { thread < length self.old.threads }
        requires call { (thread_at self.old thread).call ≡ call_of (Some call.now) }
        ensures { IfOk result (λ b. b ≡ true → acted thread self.old ≡ self.new ∷ []) }
    {
        if let Progress::Used = call.progress {
            return self.wake_nobody(alloc, thread as usize, &call.request);
        }
        self.act(thread, call)
    }

    /// The open call of a thread does the one thing that it can do next, if a go of the thread is allowed.
    fn went(&mut self, alloc: Global, thread: u32) -> Result<bool, Stop>
        ensures { IfOk result (λ b. b ≡ true → moved thread self.old ≡ self.new ∷ []) }
    {
        if self.go_refusal(thread).is_some() {
            return Ok(false);
        }
        if thread as usize >= self.thread_count() {
            return Err(Stop::Range);
        }
        match self.call(thread as usize) {
            Some(call) => self.do_next(alloc, thread, &call),
            None => Ok(false),
        }
    }

    /// One move of a thread, in place: the only one that it can make, as `moves` lists it.
    ///
    /// It answers false if there is no move, or if a signal or a broadcast may choose whom it wakes. Then, and if it
    /// errs, nothing is said of the state: it may be given up.
    ///
    /// # Errors
    ///
    /// Out of memory, or a number got too great for a state.
    pub fn go(&mut self, alloc: Global, thread: u32) -> Result<bool, Stop>
        ensures sound { IfOk result (λ b. b ≡ true → MovesOnce thread self.old self.new) }
        ensures value { IfOk result (λ b. b ≡ true → moved thread self.old ≡ self.new ∷ []) }
    {
        self.went(alloc, thread)
    }

    /// An event at which this was seen, in place, but for the end of a thread; false if it can't happen.
    fn happen(&mut self, alloc: Global, event: Event, seen: Seen) -> Result<bool, Stop>
        ensures { IfOk result (λ b. happened_in_place event seen self.old ≡ if_done b self.new) }
    {
        match event {
            Event::Begin(thread, request) => match seen {
                Seen::Begun => self.begin(alloc, thread.get(), request),
                _ => Ok(false),
            },
            Event::Go(thread) => match seen {
                Seen::Answered(answer) => self.answer(thread.get(), answer),
                _ => Ok(false),
            },
            Event::End(_) => Ok(false),
            Event::Tick(time) => match seen {
                Seen::Ticked => Ok(self.tick(time)),
                _ => Ok(false),
            },
        }
    }

    /// One entry, in place, but for the end of a thread; false if it can't happen.
    pub(crate) fn comes(
        &mut self,
        alloc: Global,
        limits: &HistoryLimits,
        entry: &Entry,
    ) -> Result<bool, Stop>
        ensures { IfOk result (λ b. entered_in_place limits.now self.old entry.now ≡ if_done b self.new) }
    {
        match *entry {
            Entry::Thread(thread, priority) => self.add_thread(alloc, limits, thread, priority),
            Entry::Mutex(mutex, kind, robust) => self.add_mutex(limits, mutex, kind, robust),
            Entry::Cond(cond, mutex) => self.add_variable(limits, cond, mutex),
            Entry::Step(event, seen) => self.happen(alloc, event, seen),
        }
    }

    /// One entry of a history that a line shows, in place: an addition, the begin of a call, an answer or a tick, as
    /// `enter` lists it.
    ///
    /// It answers false if the entry can't happen, and for the end of a thread. Then, and if it errs, nothing is said
    /// of the state: it may be given up.
    ///
    /// # Errors
    ///
    /// Out of memory, or a number got too great for a state.
    pub fn come(
        &mut self,
        alloc: Global,
        limits: &HistoryLimits,
        entry: &Entry,
    ) -> Result<bool, Stop>
        ensures sound { IfOk result (λ b. b ≡ true → Enters limits.now self.old entry.now self.new) }
        ensures value { IfOk result (λ b. b ≡ true → entered limits.now self.old entry.now ≡ self.new ∷ []) }
    {
        self.comes(alloc, limits, entry)
    }
}
