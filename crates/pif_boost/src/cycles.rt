ghost use Rattle.std.specs.Prelude.{◌≡◌, ◌↔◌, ℕ, true, List, IsTrue};
ghost use Rattle.pif_model.specs.Graph.{Reaches, IsPath};
ghost use Rattle.pif_nodes_model.specs.Lists.{has};
ghost use Rattle.pif_kernel_model.specs.Owners.{waits_for, WaitsFor};
ghost use Rattle.pif_kernel_model.specs.States.{owners_in};
ghost use Rattle.pif_kernel_model.specs.Holds.{HoldsStates};

use pif_nodes::NodeTable;
use pif_rtmutex::RtMutexes;
use pif_types::Tid;

/// Whether a wait of the thread `t` for the thread `owner` would close a cycle: whether `owner` is `t`, or waits for it
/// through any chain (futex(2), EDEADLK). So it is true exactly if `t` stands on the path of `owner`, which begins with
/// `owner` itself. An owner without a row waits for nobody. It goes up that path, and stops at `t`.
pub fn would_close(owners: &RtMutexes, table: &NodeTable, t: Tid, owner: Tid) -> bool
    requires { HoldsStates owners.now table.now }
    ensures reached { IsTrue result ↔ Reaches (WaitsFor (owners_in owners.now table.now)) owner t }
    ensures path { (us : List ℕ) → IsPath (waits_for (owners_in owners.now table.now)) owner us → IsTrue result ↔ (has t us ≡ true) }
{
    let mut at = owner;
    for _hop in 0..owners.threads() + 1 {
        if at.get() == t.get() {
            return true;
        }
        match owners.waits_on(table, at) {
            Some(state) => at = owners.owner(table, state),
            None => return false,
        }
    }
    unreachable!()
}
