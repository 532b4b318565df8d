ghost use Rattle.std.specs.Prelude.{◌≡◌, ◌≤◌, option_copied};
ghost use Rattle.pif_model.specs.Calls.{owner_answer};
ghost use Rattle.pif_text_core.specs.Changes.{cond_stays, doing, doing_stays, hold_changes, holds_stay, mutex_stays, priorities_stay, thread_stays, was_there};
ghost use Rattle.pif_text_core.specs.Texts.{held_times};

use crate::counts::mutexes_added;
use crate::holders::{awaited_holder, holder_of};
use crate::queues::is_same_queue;
use pif_core::{Core, Order, Status, Woken};
use pif_types::{CondId, MutexId, Tid};

/// What a thread does, whatever woke it if it is ready.
fn doing(core: &Core, thread: Tid) -> Option<Status>
    ensures { result ≡ doing thread core.now }
{
    match core.status(thread) {
        Some(Status::Ready(_)) => Some(Status::Ready(Woken::Fresh)),
        status => status,
    }
}

/// Whether the line of a thread was there before.
pub fn was_thread_there(before: Option<&Core>, core: &Core, thread: Tid) -> bool
    ensures { result ≡ was_there thread_stays (option_copied before.entry) core.now thread }
{
    match before {
        Some(before) => is_same_thread(before, core, thread),
        None => false,
    }
}

/// Whether the line of a thread says the same in both cores.
fn is_same_thread(before: &Core, core: &Core, thread: Tid) -> bool
    ensures { result ≡ thread_stays before.now core.now thread }
{
    has_same_priorities(before, core, thread)
        && does_the_same(before, core, thread)
        && holds_the_same(before, core, thread)
}

/// Whether a thread has the same priorities in both cores.
fn has_same_priorities(before: &Core, core: &Core, thread: Tid) -> bool
    ensures { result ≡ priorities_stay thread before.now core.now }
{
    before.effective(thread) == core.effective(thread) && before.base(thread) == core.base(thread)
}

/// Whether a thread does the same in both cores.
fn does_the_same(before: &Core, core: &Core, thread: Tid) -> bool
    ensures { result ≡ doing_stays thread before.now core.now }
{
    doing(before, thread) == doing(core, thread)
        && before.open_call(thread) == core.open_call(thread)
        && awaited_holder(before, thread) == awaited_holder(core, thread)
}

/// How often a thread holds the mutex of this number. `None` if it doesn't.
pub fn held_times(core: &Core, thread: Tid, number: u32) -> Option<u32>
    requires { 1 ≤ number }
    ensures { result ≡ held_times thread (owner_answer number core.now) }
{
    let Some(mutex) = MutexId::new(number) else {
        return None;
    };
    match core.owner(mutex) {
        Some((owner, count)) if owner.get() == thread.get() => Some(count),
        _ => None,
    }
}

/// Whether a thread holds the mutex of this number in one core alone, or not as often in both.
fn holds_otherwise(before: &Core, core: &Core, thread: Tid, number: u32) -> bool
    requires { 1 ≤ number }
    ensures { result ≡ hold_changes thread before.now core.now number }
{
    held_times(before, thread, number) != held_times(core, thread, number)
}

/// Whether a thread holds the same mutexes in both cores, and each as often.
fn holds_the_same(before: &Core, core: &Core, thread: Tid) -> bool
    ensures { result ≡ holds_stay thread before.now core.now }
{
    for place in 0..mutexes_added(core) {
        if holds_otherwise(before, core, thread, place + 1) {
            return false;
        }
    }
    true
}

/// Whether the line of a mutex was there before.
pub fn was_mutex_there(before: Option<&Core>, core: &Core, mutex: MutexId) -> bool
    ensures { result ≡ was_there mutex_stays (option_copied before.entry) core.now mutex }
{
    match before {
        Some(before) => is_same_mutex(before, core, mutex),
        None => false,
    }
}

/// Whether the line of a mutex says the same in both cores.
fn is_same_mutex(before: &Core, core: &Core, mutex: MutexId) -> bool
    ensures { result ≡ mutex_stays before.now core.now mutex }
{
    before.kind(mutex) == core.kind(mutex)
        && before.word(mutex) == core.word(mutex)
        && before.health(mutex) == core.health(mutex)
        && before.owner(mutex) == core.owner(mutex)
        && holder_of(before, mutex) == holder_of(core, mutex)
        && is_same_queue(before, core, &Order::Waiters(mutex))
}

/// Whether the line of a condition variable was there before.
pub fn was_cond_there(before: Option<&Core>, core: &Core, cond: CondId) -> bool
    ensures { result ≡ was_there cond_stays (option_copied before.entry) core.now cond }
{
    match before {
        Some(before) => is_same_cond(before, core, cond),
        None => false,
    }
}

/// Whether the line of a condition variable says the same in both cores.
fn is_same_cond(before: &Core, core: &Core, cond: CondId) -> bool
    ensures { result ≡ cond_stays before.now core.now cond }
{
    before.cond_word(cond) == core.cond_word(cond)
        && is_same_queue(before, core, &Order::Parked(cond))
}
