ghost use Rattle.std.specs.Prelude.{◌≡◌, ◌<◌, ◌≤◌, ℕ, length};
ghost use Rattle.pif_model.specs.RobustList.{robust_at};

use crate::seen::{mutex, see, thread};
use pif_robust::RobustLists;
use pif_types::{Limits, MutexId, Tid};
use std::process::Abort;
use std::test::Fail;

#[test]
fn walk_ends_with_the_pending_mutex(rt: HostRuntime) -> Result<(), Fail> {
    let mut lists = RobustLists::new(rt.alloc(), Limits::new(1, 2, 0, 1).unwrap())?;
    link_and_walk(&rt, &mut lists, thread(1), mutex(1), mutex(2));
    Ok(())
}

/// Links the mutex `listed`. Then `other`, which is on no list, is pending, and after that `listed`.
fn link_and_walk(rt: &impl Abort, lists: &mut RobustLists, t: Tid, listed: MutexId, other: MutexId)
    requires thread { t < length lists.old.threads }
    requires listed { listed ≤ lists.old.mutexes }
    requires other { other ≤ lists.old.mutexes }
    requires whole { (u : ℕ) → (robust_at lists.old u).half_linked ≡ 0 }
{
    assert!(rt; lists.holder(listed).is_none());
    lists.link_next(t, listed);
    let linking = lists.half_linked(t);
    lists.link_head(t, listed);
    see(rt, [linking, lists.half_linked(t)], [Some(listed), None], 0);
    lists.set_pending(t, other);
    let pending = lists.pending(t);
    let is_last = lists.walk(t).as_slice() == [listed, other].as_slice();
    lists.set_pending(t, listed);
    let is_once = lists.walk(t).as_slice() == [listed].as_slice();
    see(rt, [is_last, is_once], [true, true], 1);
    lists.clear_pending(t);
    see(rt, [pending, lists.pending(t)], [Some(other), None], 2);
}
