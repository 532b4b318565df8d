ghost use Rattle.std.specs.Prelude.{◌≡◌, ◌<◌, ◌+◌, ℕ, Some, length, IfOk, OnOk};
ghost use Rattle.pif_model.specs.World.Progress.{Fresh};
ghost use Rattle.pif_model.specs.Deadlines.{plain, timer_of};
ghost use Rattle.pif_model.specs.Posix.{with_thread, thread_at, begun_memory};
ghost use Rattle.pif_posix_steps.specs.Doing.{begun, answered, is_answered, Does};

use crate::parts::Task;
use crate::progress::{Call, Progress};
use crate::requests::{deadline_of, plain, reported_result};
use crate::state::State;
use pif_search::Stop;
use pif_types::{Answer, Request};
use std::alloc::Global;

impl Task {
    /// It begins this call.
    fn open(&mut self, request: &Request)
        ensures { self.new ≡ record self.old { call = Some (record { request = plain request.now; progress = Fresh }); timer = timer_of request.now } }
    {
        self.call = Some(Call {
            request: plain(request),
            progress: Progress::Fresh,
        });
        self.timer.deadline = deadline_of(request);
        self.timer.expired = false;
    }

    /// It has begun one wait more.
    fn count_wait(&mut self) -> Result<(), Stop>
        ensures { OnOk result (self.new ≡ record self.old { memory = record self.old.memory { waits = self.old.memory.waits + 1 } }) }
    {
        match self.waits.checked_add(1) {
            None => Err(Stop::Range),
            Some(waits) => {
                self.waits = waits;
                Ok(())
            }
        }
    }

    /// Whether its open call has a result and is answered this.
    fn is_answered(&self, answer: Answer) -> bool
        ensures { result ≡ is_answered self.now.call self.now.timer.expired answer }
    {
        match &self.call {
            None => false,
            Some(call) => match call.progress {
                Progress::Has(result_of) => {
                    answer == reported_result(&call.request, self.timer.expired, result_of)
                }
                _ => false,
            },
        }
    }
}

/// The begin and the answer of a call.
impl State {
    /// What is remembered of a thread once it begins a call of this request.
    fn remember(&mut self, alloc: Global, thread: usize, request: &Request) -> Result<(), Stop>
        requires { thread < length self.old.threads }
        ensures { OnOk result (self.new ≡ with_thread thread (record (thread_at self.old thread) { memory = begun_memory self.old request.now (thread_at self.old thread).memory }) self.old) }
    {
        match *request {
            Request::Wait(_, _) | Request::TimedWait(_, _, _) => {
                let task = &mut self.threads[thread];
                task.count_wait()
            }
            Request::Signal(cond) | Request::Broadcast(cond) => {
                let found = self.blocked(alloc, cond.get())?;
                let task = &mut self.threads[thread];
                task.found = found;
                Ok(())
            }
            _ => Ok(()),
        }
    }

    /// The call of a thread is open.
    fn open(&mut self, thread: usize, request: &Request)
        requires { thread < length self.old.threads }
        ensures { self.new ≡ with_thread thread (record (thread_at self.old thread) { call = Some (record { request = plain request.now; progress = Fresh }); timer = timer_of request.now }) self.old }
    {
        let task = &mut self.threads[thread];
        task.open(request);
    }

    /// A thread begins a call; false if that is refused.
    pub(crate) fn begin(
        &mut self,
        alloc: Global,
        thread: u32,
        request: Request,
    ) -> Result<bool, Stop>
        ensures { IfOk result (λ b. Does self.old (begun thread request self.old) b self.new) }
    {
        if self.begin_refusal(thread, &request).is_some() {
            return Ok(false);
        }
        if thread as usize >= self.thread_count() {
            return Err(Stop::Range);
        }
        self.remember(alloc, thread as usize, &request)?;
        self.open(thread as usize, &request);
        Ok(true)
    }

    /// Whether the open call of a thread has a result and is answered this. A thread that was never added has none.
    pub(crate) fn is_answered(&self, thread: usize, answer: Answer) -> bool
        ensures { result ≡ is_answered (thread_at self.now thread).call (thread_at self.now thread).timer.expired answer }
    {
        if thread < self.threads.len() {
            let task = &self.threads[thread];
            task.is_answered(answer)
        } else {
            false
        }
    }

    /// The open call of a thread is answered this and closes; false if it isn't.
    pub(crate) fn answer(&mut self, thread: u32, answer: Answer) -> Result<bool, Stop>
        ensures { IfOk result (λ b. Does self.old (answered thread answer self.old) b self.new) }
    {
        if !self.is_answered(thread as usize, answer) {
            return Ok(false);
        }
        if thread as usize >= self.thread_count() {
            return Err(Stop::Range);
        }
        if self.go_refusal(thread).is_some() {
            return Ok(false);
        }
        if self.is_waiter(thread as usize) {
            return Ok(false);
        }
        self.close(thread as usize);
        Ok(true)
    }
}
