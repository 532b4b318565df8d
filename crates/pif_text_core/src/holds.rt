ghost use Rattle.std.specs.Prelude.{◌≡◌, ◌≤◌};
ghost use Rattle.pif_text_core.specs.Waiting.{has, owner_of};

use pif_core::Core;
use pif_types::{MutexId, Tid};

/// The thread that owns a mutex, also one that has ended; `None` if nobody owns it, or it was never added.
pub fn owner_of(core: &Core, mutex: MutexId) -> Option<Tid>
    ensures { result ≡ owner_of mutex core.now }
{
    match core.owner(mutex) {
        Some((owner, _)) => Some(owner),
        None => None,
    }
}

/// Whether a thread owns the mutex of this number, also one that has ended; `false` if the mutex was never added.
pub fn has(core: &Core, thread: Tid, number: u32) -> bool
    requires { 1 ≤ number }
    ensures { result ≡ has thread core.now number }
{
    let Some(mutex) = MutexId::new(number) else {
        return false;
    };
    match core.owner(mutex) {
        Some((owner, _)) => owner.get() == thread.get(),
        None => false,
    }
}
