ghost use Rattle.std.specs.Prelude.{◌≡◌, ℕ, ◌<◌, length, unwrap_or};
ghost use Rattle.pif_model.specs.Graph.{IsPath};
ghost use Rattle.pif_kernel_model.specs.Owners.{waits_for};

use arrayvec::ArrayVec;
use pif_plain_rtmutex::RtMutexes;
use pif_types::Tid;

/// The threads from `start` on along whom each waits for, in order: `start`, the owner of the state on which it is
/// queued, and so on, up to the one that waits for nobody. The owner of each state on which a thread is queued has to
/// have a row. So each comes once, and there are at most 1,024. (RT-mutex design, the priority chain.)
pub fn path(owners: &RtMutexes, start: Tid) -> ArrayVec<Tid, 1024>
    requires { (u : ℕ) → waits_for owners.now u < length owners.now.seats }
    ensures { IsPath (waits_for owners.now) start result.items }
{
    // For the prover: the owner states are sound.
    let _threads = owners.threads();
    let mut passed = ArrayVec::new();
    let mut next = Some(start);
    while let Some(at) = next {
        passed.push(at);
        next = awaited(owners, at);
    }
    passed
}

/// The thread for which the thread `t` waits: the owner of the state on which it is queued. `None` if it waits for
/// nobody.
fn awaited(owners: &RtMutexes, t: Tid) -> Option<Tid>
    ensures { unwrap_or result 0 ≡ waits_for owners.now t }
{
    let state = owners.waits_on(t)?;
    Some(owners.owner(state))
}
