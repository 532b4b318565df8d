ghost use Rattle.std.specs.Prelude.{◌≡◌, unwrap_or};
ghost use Rattle.pif_model.specs.Graph.{IsPath};
ghost use Rattle.pif_kernel_model.specs.Owners.{waits_for};
ghost use Rattle.pif_kernel_model.specs.States.{owners_in};
ghost use Rattle.pif_kernel_model.specs.Holds.{HoldsStates};

use arrayvec::ArrayVec;
use pif_nodes::NodeTable;
use pif_rtmutex::RtMutexes;
use pif_types::Tid;

/// The threads from `start` on along whom each waits for, in order: `start`, the owner of the state on which it is
/// queued, and so on, up to the one that waits for nobody. So the first is `start`, also if it has no row, and it is
/// alone if it has none or waits for nobody. No thread waits for itself through any chain: each comes once, and
/// there are at most 1,024. (RT-mutex design, the priority chain.)
pub fn path(owners: &RtMutexes, table: &NodeTable, start: Tid) -> ArrayVec<Tid, 1024>
    requires { HoldsStates owners.now table.now }
    ensures { IsPath (waits_for (owners_in owners.now table.now)) start result.items }
{
    let mut passed = ArrayVec::new();
    let mut next = Some(start);
    while let Some(at) = next {
        passed.push(at);
        next = awaited(owners, table, at);
    }
    passed
}

/// The thread for which the thread `t` waits: the owner of the state on which it is queued. `None` if it waits for
/// nobody.
fn awaited(owners: &RtMutexes, table: &NodeTable, t: Tid) -> Option<Tid>
    requires { HoldsStates owners.now table.now }
    ensures { unwrap_or result 0 ≡ waits_for (owners_in owners.now table.now) t }
{
    let state = owners.waits_on(table, t)?;
    Some(owners.owner(table, state))
}
