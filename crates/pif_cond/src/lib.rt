//! The calls on condition variables, one step per access of a word, of a robust list or kernel call: pthread_cond_wait,
//! pthread_cond_signal and pthread_cond_broadcast over the parts of `pif_mutex` and any kernel.
//!
//! A thread with a call open stands at a place of that call. A step, `advance`, does what the line of the place says.
//! The thread then goes on to another place, waits, or is answered; a number or the name of an error is an answer, and
//! closes the call. A wait reads the condition word before it gives its mutex up, `v`, and carries it along: the kernel
//! parks the thread only if the word is still that, so that no signal between the two is lost (FUTEX_WAIT_REQUEUE_PI of
//! futex(2)). What a stalled mutex comes to stands after 'stalled'.
//!
//! | Place | The step | Then |
//! |---|---|---|
//! | `Load`, bound to the mutex | loads its word | not the owner: EPERM; held more than once: EINVAL |
//! | | | else `LoadUses` |
//! | `Load`, bound to another | no access | EINVAL |
//! | `LoadUses` | loads the condition word, `v` | `Give(SetPending, ToPark)`, stalled `Give(Release, ToPark)` |
//! | `Park` | wait_requeue_pi, which expects `v` | done: waits at `StayParked` |
//! | | | EAGAIN: `Exchange`; any other error |
//! | `StayParked`, handed over, robust | loads the mutex's word | `Take(LoadHealth)` with whether OWNER_DIED is set |
//! | `StayParked`, handed over, stalled | no access | 0 |
//! | `StayParked`, woken to lock it | the step of `Exchange` | as of `Exchange` |
//! | `StayParked`, due | expire | `Exchange`; from now on ETIMEDOUT in place of 0 |
//! | `StayParked`, else | no access | waits |
//! | `Wake(ReadUses)` | loads the condition word, `v` | used as often as it may be: EOVERFLOW |
//! | | | else `Wake(CountUse)` |
//! | `Wake(CountUse)` | compare-exchange of the condition word from `v` to `v + 1` | done: `Wake(Requeue)` with `v + 1` |
//! | | | failed: as `Wake(ReadUses)`, with what the word is |
//! | `Wake(Requeue)` | cmp_requeue_pi, which expects `v` | done: 0; EAGAIN: `Wake(ReadAgain)`; any other error |
//! | `Wake(ReadAgain)` | loads the condition word, `v` | `Wake(Requeue)` |
//!
//! A wait is due while it is parked and its deadline is reached. Its next step is then its expiry, and nothing else.
//! Moved to the mutex, or woken, it is due no more, nor is the lock after an expiry.
//!
//! cmp_requeue_pi is for the mutex to which the variable is bound: a signal takes 1 thread, a broadcast up to 1,025.
//!
//! A wait at any other place, where it gives its mutex up, locks it, takes it over or leaves it, takes a step of
//! `pif_mutex`, whose table has those places. `wait` has the lines of a wait, and `uses` those that signal and
//! broadcast share, all over the `State` of `pif_mutex`; `step` has which line a step is, by a trait of `Parts`.
#![tactic(auto)]

mod step;
mod uses;
mod wait;

pub use step::{CondLines, advance};
