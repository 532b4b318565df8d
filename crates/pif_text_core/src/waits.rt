ghost use Rattle.std.specs.Prelude.{◌≡◌, ◌≤◌, is_some};
ghost use Rattle.pif_model.specs.Calls.{waiter_answer};
ghost use Rattle.pif_text_core.specs.Waiting.{awaited, begins_chain, blocker, blocks, has_waiter};

use crate::counts::mutexes_added;
use crate::holds::{has, owner_of};
use pif_core::{Core, Status};
use pif_types::{MutexId, Tid};

/// The mutex among whose waiters a thread is; `None` if there is none, also if the thread waits for good.
pub fn awaited(core: &Core, thread: Tid) -> Option<MutexId>
    ensures { result ≡ awaited thread core.now }
{
    match core.status(thread) {
        Some(status) => match status {
            Status::Queued(mutex) => Some(mutex),
            _ => None,
        },
        None => None,
    }
}

/// The owner of the mutex among whose waiters a thread is; `None` if there is none. It may have ended: a mutex that
/// isn't robust keeps its owner.
pub fn blocker(core: &Core, thread: Tid) -> Option<Tid>
    ensures { result ≡ blocker thread core.now }
{
    owner_of(core, awaited(core, thread)?)
}

/// Whether somebody waits for the mutex of this number.
fn is_awaited(core: &Core, number: u32) -> bool
    requires { 1 ≤ number }
    ensures { result ≡ is_some (waiter_answer number 0 core.now) }
{
    match MutexId::new(number) {
        Some(mutex) => core.waiter(mutex, 0).is_some(),
        None => false,
    }
}

/// Whether a thread holds the mutex of this number, and somebody waits for it.
#[tactic(auto, unfolding(crate::specs::Waiting::blocks))]
fn blocks(core: &Core, thread: Tid, number: u32) -> bool
    requires { 1 ≤ number }
    ensures { result ≡ blocks thread core.now number }
{
    has(core, thread, number) && is_awaited(core, number)
}

/// Whether somebody waits for a mutex that a thread holds.
fn has_waiter(core: &Core, thread: Tid) -> bool
    ensures { result ≡ has_waiter thread core.now }
{
    for place in 0..mutexes_added(core) {
        if blocks(core, thread, place + 1) {
            return true;
        }
    }
    false
}

/// Whether a chain of waiting begins with a thread.
pub fn begins_chain(core: &Core, thread: Tid) -> bool
    ensures { result ≡ begins_chain core.now thread }
{
    awaited(core, thread).is_some() && !has_waiter(core, thread)
}
