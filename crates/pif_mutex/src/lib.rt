//! The calls on mutexes, one step per access of a word, of a robust list or kernel call: pthread_mutex_lock,
//! pthread_mutex_trylock, pthread_mutex_unlock and pthread_mutex_consistent over words, robust lists and any kernel,
//! and pthread_setschedprio; and the end of a thread.
//!
//! The parts of condition variables are kept here too: to which mutex each is bound, and how often it was used. A
//! pthread_cond_wait gives its mutex up by the steps of an unlock, and locks it again by those of a lock, from the
//! exchange on: `advance` takes those steps. The other steps of a wait, and those of pthread_cond_signal and
//! pthread_cond_broadcast, are pif_cond's, over the accesses and kernel calls of `State`.
//!
//! A thread with a call open stands at a place of that call. A step, `advance`, does what the line of the place says.
//! The thread then goes on to another place, waits, or is answered; a number or the name of an error is an answer, and
//! closes the call. Places of the pending field, of the health word and of the own robust list are for robust mutexes
//! alone; what a stalled mutex comes to in their stead stands after 'stalled'. The open call's request says the rest.
//!
//! | Place | The step | Then |
//! |---|---|---|
//! | `Load`, of a lock | loads the word | another owner or none: `NamePending`, stalled `Exchange`; own NORMAL: `Stop`; own ERRORCHECK: EDEADLK; own RECURSIVE: held once more, 0, or EAGAIN if it is held 255 times |
//! | `Load`, of a trylock | loads the word | another owner or none: `NamePending`, stalled `Exchange`; own RECURSIVE: held once more, 0, or EAGAIN if it is held 255 times; any other of its own: EBUSY |
//! | `Load`, of an unlock | loads the word | not the owner: EPERM; held more than once: held once less, 0; else `Give(SetPending)`, stalled `Give(Release)` |
//! | `Load`, of a consistent | robust: loads the word; else no access | stalled: EINVAL; not the owner: EPERM; else `Repair(CheckHealth)` |
//! | `NamePending` | names the mutex in the pending field | `Exchange` |
//! | `Exchange` | compare-exchange from 0 to the own number | done: `Take(LoadHealth)` with false, stalled 0; failed: `CallKernel` |
//! | `CallKernel`, of a lock or a wait | lock_pi | owns: `Take(LoadWord)`, stalled 0; queued: waits at `StayQueued`; EDEADLK: `Clear` with it, stalled EDEADLK; ESRCH: `Stop`; any other error |
//! | `CallKernel`, of a trylock | trylock_pi | done: `Take(LoadWord)`, stalled 0; EAGAIN: `Clear` with EBUSY, stalled EBUSY; any other error |
//! | `StayQueued` | handed over and robust: loads the word; else no access | handed over: `Take(LoadHealth)` with whether OWNER_DIED is set, stalled 0; else waits |
//! | `StayQueued`, due | expire | `Clear` with ETIMEDOUT, stalled ETIMEDOUT |
//! | `Stop` | stop | waits at `StayStopped` |
//! | `StayStopped` | no access | waits |
//! | `StayStopped`, due | expire | `Clear` with ETIMEDOUT, stalled ETIMEDOUT |
//! | `Take(LoadWord)` | loads the word | `Take(LoadHealth)` with whether OWNER_DIED is set |
//! | `Take(LoadHealth)` | loads the health word | unusable: `Give(Release)` to leave; OWNER_DIED was set: `Take(StoreInconsistent)`; else `Link(WriteNext)` with 0 |
//! | `Take(StoreInconsistent)` | stores in the health word that the mutex is inconsistent | `Take(ClearDied)` |
//! | `Take(ClearDied)` | takes OWNER_DIED out of the word | `Link(WriteNext)` with EOWNERDEAD |
//! | `Link(WriteNext)` | writes the mutex's link to the head of the own list | `Link(WriteHead)` |
//! | `Link(WriteHead)` | makes the mutex the head of the own list | `Clear` with the answer that it was given |
//! | `Give(SetPending)` | names the mutex in the pending field | `Give(SeeHealth)` |
//! | `Give(SeeHealth)` | loads the health word | inconsistent: `Give(StoreUnusable)`; else `Give(Unlink)` |
//! | `Give(StoreUnusable)` | stores in the health word that the mutex is unusable | `Give(Unlink)` |
//! | `Give(Unlink)` | takes the mutex off the own list | `Give(Release)` |
//! | `Give(Release)` | compare-exchange from the own number to 0 | done: an unlock `Clear` with 0, stalled 0; a wait `Park`; who leaves `Clear` with ENOTRECOVERABLE; failed: `Give(CallUnlock)` |
//! | `Give(CallUnlock)` | unlock_pi | done: as `Give(Release)`; or its error |
//! | `Clear` | clears the pending field | the answer that it was given |
//! | `Repair(CheckHealth)` | loads the health word | inconsistent: `Repair(StoreFine)`; else EINVAL |
//! | `Repair(StoreFine)` | stores in the health word that the mutex is fine | 0 |
//! | `SetPriority` | set_prio | 0, or its error |
//!
//! A call that is begun with a deadline is the call without one, and a timer of its thread, which has the deadline.
//! Such a call is due if its deadline is reached and counts: that of a lock while it is queued or stopped, that of a
//! wait while it is parked. Its next step is then its expiry, and nothing else: a row with 'due', or of a parked wait
//! that of `pif_cond`. A thread that was handed its mutex, or taken off its variable, is due no more. A wait that
//! expired is answered ETIMEDOUT if its lock would be answered 0; its timer says so, and no place does.
//!
//! `lock`, `try_lock`, `unlock`, `consistent` and `set_priority` have the lines of each call; `taking` and `linking`
//! what lock, trylock and wait share; `giving` how a mutex is given up, by whichever call; `lists` the robust lists;
//! `kernel` the kernel calls; `deadlines` the timer of a call that begins, and which calls are due; `kinds` what a lock
//! by the owner does; `end` the end of a thread; and `step` which line a step is. All are methods of `State`, which
//! keeps only that the parts fit together; `Parts` keeps besides that they are sound, by which each open call may take
//! its next step. `lines` has the trait by which `Parts` lend their state to one line, of this crate or of pif_cond.
#![tactic(auto)]

mod consistent;
mod deadlines;
mod end;
mod giving;
mod kernel;
mod kinds;
mod lines;
mod linking;
mod lists;
mod lock;
mod mutex;
mod outcome;
mod parts;
mod progress;
mod set_priority;
mod state;
mod step;
mod taking;
mod try_lock;
mod unlock;

pub use deadlines::reported;
pub use lines::{Lines, MutexLines};
pub use parts::{Parts, advance};
pub use progress::Progress;
pub use state::State;
