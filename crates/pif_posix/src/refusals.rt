ghost use Rattle.std.specs.Prelude.{◌≡◌, is_some};
ghost use Rattle.pif_model.specs.declared.events.Event.TheVariants.{Begin, Go, End, Tick};
ghost use Rattle.pif_model.specs.World.{thread_at, is_thread, is_mutex, is_variable};
ghost use Rattle.pif_model.specs.Posix.{names_known, refusal_of};

use crate::state::State;
use pif_model::Event;
use pif_types::{Refusal, Request};

/// Why the machine refuses an event, if it does.
impl State {
    /// Whether a thread was added.
    fn is_thread(&self, thread: u32) -> bool
        ensures { result ≡ is_thread self.now thread }
    {
        thread != 0 && (thread as usize) < self.threads.len()
    }

    /// Whether a mutex was added.
    pub(crate) fn is_mutex(&self, mutex: u32) -> bool
        ensures { result ≡ is_mutex self.now mutex }
    {
        mutex != 0 && (mutex as usize) < self.mutexes.len()
    }

    /// Whether a condition variable was added.
    fn is_variable(&self, variable: u32) -> bool
        ensures { result ≡ is_variable self.now variable }
    {
        variable != 0 && (variable as usize) < self.variables.len()
    }

    /// Whether the mutex and the variable that a request names were added, as far as it names any.
    fn knows_names(&self, request: Request) -> bool
        ensures { result ≡ names_known (is_mutex self.now) (is_variable self.now) request }
    {
        let named = request.names();
        match (named.mutex, named.cond) {
            (Some(mutex), Some(cond)) => {
                self.is_variable(cond.get()) && self.is_mutex(mutex.get())
            }
            (Some(mutex), None) => self.is_mutex(mutex.get()),
            (None, Some(cond)) => self.is_variable(cond.get()),
            (None, None) => true,
        }
    }

    /// Whether a thread has a call open.
    fn is_calling(&self, thread: u32) -> bool
        ensures { result ≡ is_some (thread_at self.now thread).call }
    {
        self.call(thread as usize).is_some()
    }

    /// Why the end of a thread is refused, if it is: it was never added, or has ended.
    pub(crate) fn end_refusal(&self, thread: u32) -> Option<Refusal>
        ensures { result ≡ refusal_of self.now (End thread) }
    {
        if !self.is_thread(thread) {
            return Some(Refusal::NoSuch);
        }
        if self.is_living(thread as usize) {
            None
        } else {
            Some(Refusal::Dead)
        }
    }

    /// Why a begin is refused, if it is: the thread was never added, has ended, has a call open, or names a mutex or a
    /// variable that was never added.
    pub(crate) fn begin_refusal(&self, thread: u32, request: &Request) -> Option<Refusal>
        ensures { result ≡ refusal_of self.now (Begin thread request.now) }
    {
        if let Some(refusal) = self.end_refusal(thread) {
            return Some(refusal);
        }
        if self.is_calling(thread) {
            return Some(Refusal::Busy);
        }
        if self.knows_names(*request) {
            None
        } else {
            Some(Refusal::NoSuch)
        }
    }

    /// Why a go is refused, if it is: the thread was never added, has ended, or has no call open.
    pub fn go_refusal(&self, thread: u32) -> Option<Refusal>
        ensures { result ≡ refusal_of self.now (Go thread) }
    {
        if let Some(refusal) = self.end_refusal(thread) {
            return Some(refusal);
        }
        if self.is_calling(thread) {
            None
        } else {
            Some(Refusal::Idle)
        }
    }

    /// Why a tick is refused, if it is: it would set the time back.
    pub(crate) fn tick_refusal(&self, time: u32) -> Option<Refusal>
        ensures { result ≡ refusal_of self.now (Tick time) }
    {
        if time < self.time {
            Some(Refusal::Past)
        } else {
            None
        }
    }

    /// Why the machine refuses this event, if it does. Nothing changes by a refused one.
    pub fn refusal(&self, event: &Event) -> Option<Refusal>
        ensures { result ≡ refusal_of self.now event.now }
    {
        match *event {
            Event::Begin(thread, request) => self.begin_refusal(thread.get(), &request),
            Event::Go(thread) => self.go_refusal(thread.get()),
            Event::End(thread) => self.end_refusal(thread.get()),
            Event::Tick(time) => self.tick_refusal(time),
        }
    }
}
