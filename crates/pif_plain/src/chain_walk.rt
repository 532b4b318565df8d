//! The walk that gives each thread the greatest priority of it and of all that wait for it. It takes no memory.
//!
//! Thread 3 of priority 99 was just queued on the state s2, which thread 2 owns:
//!
//! ```text
//!     waits on     owned by     waits on     owned by
//!  t3 ────────> s2 ────────> t2 ────────> s1 ────────> t1, on level 2 of the run queue
//!  base 99                   base 2                    base 1
//!  effective 99              effective 2, stale        effective 2, stale
//! ```
//!
//! `walk` from t2:
//!
//! 1. Each base priority is propagated along its chain, and the greatest is kept by each thread: 99 by t3, t2 and t1.
//! 2. Each thread, in the order of their numbers, gets what is kept by it:
//!    1. It is moved to that level, if it is on one: t1 goes from level 2 to the end of level 99.
//!    2. It becomes its effective priority: t1 and t2 have 99.
//!    3. It becomes the priority with which it waits: t2 stands on s1 with 99, and with the ticket that it had.
ghost use Rattle.std.specs.Prelude.{◌≡◌, ℕ, ◌<◌, ◌≤◌, length, None, true, unwrap_or};
ghost use Rattle.pif_nodes_model.specs.Lists.{has};
ghost use Rattle.pif_nodes_model.specs.Levels.{IsLevel, level_of, Holds, IsQueued, SameOutside, level_after_move_if_queued};
ghost use Rattle.pif_model.specs.Graph.{IsEffective};
ghost use Rattle.pif_kernel_model.specs.Owners.{task_at, waits_on, WaitsFor, with_task, IsTop};
ghost use Rattle.pif_kernel_model.specs.Boosts.{IsThread, base_of, local_of, greatest_base, with_effective, IsRepaired, IsRepairedBut, IsNext, joins, level_after_walk};

use crate::propagate::{PLACES, priority_of, propagate_all};
use pif_nodes::NodeTable;
use pif_plain_rtmutex::RtMutexes;
use pif_runq::RunQueue;
use pif_types::{Prio, Tid};

/// Gives each thread the greatest base priority of it and of all that wait for it through any chain, also where it
/// stands among the waiters of a state, with the ticket that it has; so the top waiter of a state is its next one. A
/// thread of the run queue is moved to the level of its priority; one that keeps its level keeps its place. All else in
/// the owner states and in the table stays as it was. (RT-mutex design, the priority chain walk.)
///
/// Before the call nothing may be left to repair but the effective priority of `start`, which was admitted: each other
/// thread has the greatest of its base priority and of the effective priorities of those that wait for it, and every
/// waiter, `start` too, stands with the effective priority that it has. The threads of the run queue were admitted,
/// wait for nobody, and are on the levels of the effective priorities that they have. So only `start` and those for
/// whom it waits can get another priority, and at most one thread, the last of them, joins another level (`one`). After
/// the call nothing is left to repair, and each thread of the run queue is on the level of its priority.
pub fn walk(owners: &mut RtMutexes, queue: &mut RunQueue, table: &mut NodeTable, start: Tid)
    requires admitted { 1 ≤ base_of owners.old start }
    requires repaired { IsRepairedBut start owners.old }
    requires holds { Holds queue.old table.old }
    requires ready { (u : ℕ) → IsQueued queue.old table.old u → 1 ≤ base_of owners.old u }
    requires running { (u : ℕ) → IsQueued queue.old table.old u → waits_on owners.old u ≡ None }
    requires level { (u p : ℕ) → IsLevel p → has u (level_of queue.old table.old p) ≡ true → p ≡ local_of owners.old u }
    ensures repaired { IsRepaired owners.old owners.new }
    ensures greatest { (t : ℕ) → IsThread owners.old t
        → IsEffective (IsThread owners.old) (WaitsFor owners.old) (base_of owners.old) t (local_of owners.new t) }
    ensures settled { (other : ℕ) → IsRepairedBut other owners.new }
    ensures next { (k t : ℕ) → IsTop owners.new k t → IsNext owners.new k t }
    ensures levels { (p : ℕ) → IsLevel p
        → level_of queue.new table.new p ≡ level_after_walk owners.old queue.old table.old p }
    ensures level { (u p : ℕ) → IsLevel p → has u (level_of queue.new table.new p) ≡ true → p ≡ local_of owners.new u }
    ensures one { (p r t u : ℕ) → joins owners.old queue.old table.old p t ≡ true → joins owners.old queue.old table.old r u ≡ true → t ≡ u }
    ensures outside { SameOutside queue.old table.old table.new }
    ensures place { queue.new ≡ record queue.old { mask = queue.new.mask } }
    ensures holds { Holds queue.new table.new }
{
    let mut greatest = [None; PLACES];
    propagate_all(owners, &mut greatest);
    for place in 0..owners.threads() {
        let t = Tid::new(place + 1).unwrap();
        repair(owners, queue, table, t, priority_of(&greatest, t));
    }
}

/// Gives the thread `t` this effective priority, where it waits and in the run queue too. With none it stays as it is.
fn repair(
    owners: &mut RtMutexes,
    queue: &mut RunQueue,
    table: &mut NodeTable,
    t: Tid,
    priority: Option<Prio>,
)
    requires row { t < length owners.old.seats }
    requires holds { Holds queue.old table.old }
    requires ready { IsQueued queue.old table.old t → 1 ≤ unwrap_or priority 0 }
    requires idle { unwrap_or priority 0 ≡ 0 → task_at owners.old t ≡ with_effective 0 (task_at owners.old t) }
    ensures owners { owners.new ≡ with_task t (with_effective (unwrap_or priority 0) (task_at owners.old t)) owners.old }
    ensures levels { (p : ℕ) → IsLevel p → level_of queue.new table.new p
        ≡ level_after_move_if_queued queue.old table.old t (unwrap_or priority 0) p }
    ensures outside { SameOutside queue.old table.old table.new }
    ensures place { queue.new ≡ record queue.old { mask = queue.new.mask } }
    ensures holds { Holds queue.new table.new }
{
    if let Some(prio) = priority {
        queue.move_if_queued(table, t, prio);
        boost(owners, t, prio);
    }
}

/// Gives the thread `t` this effective priority, also where it waits.
fn boost(owners: &mut RtMutexes, t: Tid, prio: Prio)
    requires { t < length owners.old.seats }
    ensures { owners.new ≡ with_task t (with_effective prio (task_at owners.old t)) owners.old }
{
    owners.set_local(t, prio);
    if let Some(state) = owners.waits_on(t) {
        owners.rekey(state, t, prio);
    }
}
