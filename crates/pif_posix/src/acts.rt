ghost use Rattle.std.specs.Prelude.{◌≡◌, ◌≢◌, ◌<◌, Some, ℕ, [], ◌∷◌, false, length, option_to_list, if◌then◌else◌, IfOk};
ghost use Rattle.pif_model.specs.Posix.{thread_at, is_due};
ghost use Rattle.pif_model.specs.World.Progress.{Blocked, Used};
ghost use Rattle.pif_posix_steps.specs.Doing.{first_effects, wait_effects, later_effects, expired_by, may_be_noted, noted, acted};
ghost use Rattle.pif_posix.specs.Results.{if_done};
ghost use Rattle.pif_posix.specs.Shapes.{call_of, progress_of};

use crate::progress::{Call, Progress};
use crate::state::State;
use pif_search::Stop;
use pif_types::Request;

/// What an open call does, if that leaves no choice.
impl State {
    /// The first effect of a call of a thread.
    fn act_first(&mut self, thread: u32, request: Request) -> Result<bool, Stop>
        requires { thread < length self.old.threads }
        ensures { IfOk result (λ b. first_effects request thread self.old ≡ if_done b self.new) }
    {
        match request {
            Request::Lock(mutex) => {
                self.place_of_mutex(mutex.get())?;
                self.lock(thread, mutex.get())
            }
            Request::TryLock(mutex) => {
                self.place_of_mutex(mutex.get())?;
                Ok(self.try_lock(thread, mutex.get()))
            }
            Request::Unlock(mutex) => {
                self.place_of_mutex(mutex.get())?;
                self.unlock(thread, mutex.get())
            }
            Request::Consistent(mutex) => {
                let at = self.place_of_mutex(mutex.get())?;
                self.make_consistent(thread, at);
                Ok(true)
            }
            Request::SetPrio(other, priority) => {
                self.set_priority(thread, other.get(), priority);
                Ok(true)
            }
            Request::Wait(cond, mutex) => {
                let variable = self.place_of_variable(cond.get())?;
                self.place_of_mutex(mutex.get())?;
                Ok(self.check_wait(thread, variable, mutex.get()))
            }
            Request::Signal(cond) | Request::Broadcast(cond) => {
                self.place_of_variable(cond.get())?;
                self.use_variable(thread, cond.get())?;
                Ok(true)
            }
            Request::TimedLock(_, _) | Request::TimedWait(_, _, _) => Ok(false),
        }
    }

    /// The next effect of a wait of a thread with a mutex, which has come this far.
    fn act_on_wait(&mut self, thread: u32, mutex: u32, progress: Progress) -> Result<bool, Stop>
        requires { thread < length self.old.threads }
        ensures { IfOk result (λ b. wait_effects (progress_of progress) thread mutex self.old ≡ if_done b self.new) }
    {
        self.place_of_mutex(mutex)?;
        match progress {
            Progress::Checked => {
                self.set_progress(thread as usize, Progress::Enlisted(true));
                Ok(true)
            }
            Progress::Enlisted(still) => self.give_up(thread, mutex, still),
            Progress::Reacquiring => self.lock(thread, mutex),
            _ => Ok(false),
        }
    }

    /// A call of a thread expires, if it is due.
    fn act_on_time(&mut self, thread: u32, request: Request) -> bool
        requires { thread < length self.old.threads }
        ensures { (if is_due self.old thread then option_to_list (expired_by request thread self.old) else []) ≡ if_done result self.new }
    {
        if self.is_due(thread as usize) {
            self.expire(thread, &request)
        } else {
            false
        }
    }

    /// The open call of a thread does one thing, unless it has to choose whom it wakes.
    pub(crate) fn act(&mut self, thread: u32, call: &Call) -> Result<bool, Stop>
        requires thread { thread < length self.old.threads }
        requires call { (thread_at self.old thread).call ≡ call_of (Some call.now) }
        requires alone { progress_of call.now.progress ≢ Used }
        ensures { IfOk result (λ b. acted thread self.old ≡ if_done b self.new) }
    {
        match call.progress {
            Progress::Fresh => self.act_first(thread, call.request),
            Progress::Leaving => {
                self.leave(thread, &call.request)?;
                Ok(true)
            }
            Progress::Checked | Progress::Enlisted(_) | Progress::Reacquiring =>
                match call.request {
                    Request::Wait(_, mutex) => self.act_on_wait(thread, mutex.get(), call.progress),
                    _ => Ok(false),
                },
            Progress::Blocked(false) => match call.request {
                Request::Wait(_, _) => {
                    self.set_progress(thread as usize, Progress::Blocked(true));
                    Ok(true)
                }
                _ => Ok(false),
            },
            Progress::Waiting | Progress::Stuck | Progress::Blocked(true) => {
                Ok(self.act_on_time(thread, call.request))
            }
            Progress::Has(_) | Progress::Used => Ok(false),
        }
    }
}
