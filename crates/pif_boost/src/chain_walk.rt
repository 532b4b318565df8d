//! The walk that gives each thread the greatest priority of it and of all that wait for it. It takes no memory.
//!
//! Thread 3 of priority 99 was just queued on the state s2, which thread 2 owns:
//!
//! ```text
//!     waits on     owned by     waits on     owned by
//!  t3 ────────> s2 ────────> t2 ────────> s1 ────────> t1, on level 2 of the run queue
//!  base 99                   base 2                    base 1
//!  effective 99              effective 2, stale        effective 2, stale
//! ```
//!
//! `walk` from t2 makes one hop after another:
//!
//! 1. t2: the greater of its base priority and of the priority of its first top waiter is 99. It becomes its effective
//!    priority, and the priority with which it waits on s1, where it keeps its ticket. It waits, so the walk goes on.
//! 2. t1: 99 too, by t2. It waits for nobody, so it is moved from level 2 to the end of level 99, and the walk ends.
//!
//! The answer is 2 hops. A hop whose thread has its priority already is the last one.
ghost use Rattle.std.specs.Prelude.{◌≡◌, ◌≢◌, ℕ, ◌-◌, ◌<◌, ◌≤◌, ◌==◌, not, length, None, true, unwrap_or, max};
ghost use Rattle.pif_nodes_model.specs.Lists.{has};
ghost use Rattle.pif_nodes_model.specs.Levels.{IsLevel, level_of, Holds, IsQueued, SameOutside};
ghost use Rattle.pif_model.specs.Graph.{IsEffective};
ghost use Rattle.pif_kernel_model.specs.Owners.{task_at, waits_on, waits_for, WaitsFor, with_task, IsTop};
ghost use Rattle.pif_kernel_model.specs.States.{owners_in};
ghost use Rattle.pif_kernel_model.specs.Holds.{HoldsStates};
ghost use Rattle.pif_kernel_model.specs.Frames.{SameOutsideStates};
ghost use Rattle.pif_kernel_model.specs.Boosts.{IsThread, base_of, local_of, greatest_base, greatest_waiting, with_effective, IsRepaired, IsRepairedBut, IsNext, joins, level_after_walk};
ghost use Rattle.pif_kernel_model.specs.BoostFrames.{StandsBefore};
ghost use Rattle.pif_boost.specs.Done.{IsDone};
ghost use Rattle.pif_boost.specs.Hops.{after_hops, IsHopCount};

use pif_nodes::NodeTable;
use pif_rtmutex::RtMutexes;
use pif_runq::RunQueue;
use pif_types::{Prio, Tid};

/// Gives each thread the greatest base priority of it and of all that wait for it through any chain, also if it
/// stands among the waiters of a state, with the ticket that it has; so the top waiter of a state is its next one. A
/// thread of the run queue is moved to the level of its priority; one that keeps its level keeps its place. All else in
/// the owner states and in the table stays as it was. Answers how many threads had their priority compared: from
/// `start` each of them was given another one and waits for the next, up to the first that has its priority already or
/// waits for nobody. They are at most as many as there are threads. (RT-mutex design, the priority chain walk.)
///
/// Before the call nothing may be left to repair but the effective priority of `start`, which was admitted: each other
/// thread has the greatest of its base priority and of the effective priorities of those that wait for it, and every
/// waiter, `start` too, stands with the effective priority that it has. The threads of the run queue were admitted,
/// wait for nobody, and are on the levels of the effective priorities that they have. So only `start` and those for
/// whom it waits can get another priority, and at most one thread, the last of them, joins another level. After the
/// call nothing is left to repair, and each thread of the run queue is on the level of its priority.
pub fn walk(owners: &mut RtMutexes, queue: &mut RunQueue, table: &mut NodeTable, start: Tid) -> u32
    requires states { HoldsStates owners.old table.old }
    requires apart { StandsBefore owners.old queue.old }
    requires admitted { 1 ≤ base_of (owners_in owners.old table.old) start }
    requires repaired { IsRepairedBut start (owners_in owners.old table.old) }
    requires holds { Holds queue.old table.old }
    requires ready { (u : ℕ) → IsQueued queue.old table.old u → 1 ≤ base_of (owners_in owners.old table.old) u }
    requires running { (u : ℕ) → IsQueued queue.old table.old u → waits_on (owners_in owners.old table.old) u ≡ None }
    requires level { (u p : ℕ) → IsLevel p → has u (level_of queue.old table.old p) ≡ true
        → p ≡ local_of (owners_in owners.old table.old) u }
    ensures done { IsDone owners.old table.old queue.old result owners.new table.new queue.new }
    ensures counted { IsHopCount (owners_in owners.old table.old) start result }
    ensures only { (hops : ℕ) → IsHopCount (owners_in owners.old table.old) start hops → hops ≡ result }
{
    walk_to(owners, queue, table, start).0
}

/// Walks as `walk` does. Answers besides the hops which thread was compared last: of those that wait for nobody only
/// that one can have another effective priority.
pub fn walk_to(
    owners: &mut RtMutexes,
    queue: &mut RunQueue,
    table: &mut NodeTable,
    start: Tid,
) -> (u32, Tid)
    requires states { HoldsStates owners.old table.old }
    requires apart { StandsBefore owners.old queue.old }
    requires admitted { 1 ≤ base_of (owners_in owners.old table.old) start }
    requires repaired { IsRepairedBut start (owners_in owners.old table.old) }
    requires holds { Holds queue.old table.old }
    requires ready { (u : ℕ) → IsQueued queue.old table.old u → 1 ≤ base_of (owners_in owners.old table.old) u }
    requires running { (u : ℕ) → IsQueued queue.old table.old u → waits_on (owners_in owners.old table.old) u ≡ None }
    requires level { (u p : ℕ) → IsLevel p → has u (level_of queue.old table.old p) ≡ true
        → p ≡ local_of (owners_in owners.old table.old) u }
    ensures done { IsDone owners.old table.old queue.old result.0 owners.new table.new queue.new }
    ensures counted { IsHopCount (owners_in owners.old table.old) start result.0 }
    ensures last { result.1 ≡ after_hops (waits_for (owners_in owners.old table.old)) start (result.0 - 1) }
    ensures ends { (u : ℕ) → u ≢ result.1 → waits_for (owners_in owners.old table.old) u ≡ 0
        → local_of (owners_in owners.new table.new) u ≡ local_of (owners_in owners.old table.old) u }
{
    let mut at = start;
    for hop in 0..owners.threads() {
        let prio = owners.maximum(table, at).unwrap();
        // Right already: whatever comes later on the chain was right before, and nothing changes for it.
        if has_local(owners, table, at, prio) {
            return (hop + 1, at);
        }
        boost(owners, table, at, prio);
        match owners.waits_on(table, at) {
            Some(state) => at = owners.owner(table, state),
            None => {
                queue.move_if_queued(table, at, prio);
                return (hop + 1, at);
            }
        }
    }
    // No chain closes, so that it has at most as many threads as there are.
    unreachable!()
}

/// Whether the thread `t` has this effective priority.
fn has_local(owners: &RtMutexes, table: &NodeTable, t: Tid, prio: Prio) -> bool
    ensures { result ≡ (local_of (owners_in owners.now table.now) t == prio) }
{
    match owners.local(table, t) {
        Some(local) => local.get() == prio.get(),
        None => false,
    }
}

/// Gives the thread `t` this effective priority, also if it waits.
fn boost(owners: &mut RtMutexes, table: &mut NodeTable, t: Tid, prio: Prio)
    requires states { HoldsStates owners.old table.old }
    requires row { t < length (owners_in owners.old table.old).seats }
    ensures owners { owners_in owners.new table.new
        ≡ with_task t (with_effective prio (task_at (owners_in owners.old table.old) t)) (owners_in owners.old table.old) }
    ensures rows { owners.new ≡ record owners.old { rows = owners.new.rows } }
    ensures outside { SameOutsideStates owners.old table.old table.new }
    ensures states { HoldsStates owners.new table.new }
{
    owners.set_local(table, t, prio);
    if let Some(state) = owners.waits_on(table, t) {
        owners.rekey(table, state, t, prio);
    }
}
