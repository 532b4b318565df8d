ghost use Rattle.std.specs.Prelude.{◌↔◌, IsTrue};
ghost use Rattle.pif_model.specs.Graph.{Reaches};
ghost use Rattle.pif_kernel_model.specs.Owners.{WaitsFor};

use pif_plain_rtmutex::RtMutexes;
use pif_types::Tid;

/// Whether a wait of the thread `t` for the thread `owner` would close a cycle: whether `owner` is `t`, or waits for it
/// through any chain (futex(2), EDEADLK). An owner without a row waits for nobody.
pub fn would_close(owners: &RtMutexes, t: Tid, owner: Tid) -> bool
    ensures { IsTrue result ↔ Reaches (WaitsFor owners.now) owner t }
{
    // A chain has no thread twice, and only its last may have no row: it ends within this many hops.
    let mut at = owner;
    for _hop in 0..owners.threads() + 2 {
        if at == t {
            return true;
        }
        match owners.waits_on(at) {
            Some(state) => at = owners.owner(state),
            None => return false,
        }
    }
    at == t
}
