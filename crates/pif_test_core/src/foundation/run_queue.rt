ghost use Rattle.std.specs.Prelude.{◌≡◌, ◌≤◌, ℕ, None};
ghost use Rattle.pif_nodes_model.specs.Table.{holder};
ghost use Rattle.pif_nodes_model.specs.Levels.{Holds};

use crate::seen::{priority, see, thread};
use pif_nodes::NodeTable;
use pif_runq::RunQueue;
use pif_types::Tid;
use std::process::Abort;
use std::test::Fail;

// Puts threads 1 and 2 on level 10 and thread 3 on level 99.
fn add_three(queue: &mut RunQueue, table: &mut NodeTable)
    requires holds { Holds queue.old table.old }
    requires place { queue.old ≡ record { first_list = 0; first_node = 0; threads = 3; mask = queue.old.mask } }
    requires free { (n : ℕ) → holder table.old n ≡ None }
    ensures { Holds queue.new table.new }
{
    queue.add(table, thread(1), priority(10));
    queue.add(table, thread(2), priority(10));
    queue.add(table, thread(3), priority(99));
}

// Takes a thread out of its level, if it is on one. Answers whether it was.
fn take_out(queue: &mut RunQueue, table: &mut NodeTable, t: Tid) -> bool
    requires { Holds queue.old table.old }
    ensures { Holds queue.new table.new }
{
    let queued = queue.level(table, t).is_some();
    if queued {
        queue.take_out(table, t);
    }
    queued
}

#[test]
fn run_queue_picks_first_of_greatest(rt: HostRuntime) -> Result<(), Fail> {
    let mut table = NodeTable::new(rt.alloc(), 3, 99)?;
    let mut queue = RunQueue::new(0, 0, 3);
    add_three(&mut queue, &mut table);
    pick_greatest(&rt, &mut queue, &mut table);
    pick_first(&rt, &mut queue, &mut table);
    Ok(())
}

// Thread 3 is on level 99, and threads 1 and 2 are on level 10.
fn pick_greatest(rt: &impl Abort, queue: &mut RunQueue, table: &mut NodeTable)
    requires { Holds queue.old table.old }
    ensures { Holds queue.new table.new }
{
    let (t1, t2, t3) = (thread(1), thread(2), thread(3));
    let places = [
        queue.nth(table, 0),
        queue.nth(table, 1),
        queue.nth(table, 2),
        queue.nth(table, 3),
    ];
    see(rt, places, [Some(t3), Some(t1), Some(t2), None], 0);
    see(rt, queue.level(table, t2), Some(priority(10)), 1);
    let first = queue.pick(table);
    see(rt, take_out(queue, table, t3), true, 2);
    see(rt, queue.level(table, t3), None, 3);
    see(rt, [first, queue.pick(table)], [Some(t3), Some(t1)], 4);
}

fn pick_first(rt: &impl Abort, queue: &mut RunQueue, table: &mut NodeTable)
    requires { Holds queue.old table.old }
{
    let (t1, t2) = (thread(1), thread(2));
    for (level, picked) in &[(10, t1), (20, t1), (10, t2)] {
        let prio = priority(*level);
        queue.move_if_queued(table, t1, prio);
        see(rt, queue.level(table, t1), Some(prio), *level);
        see(rt, queue.pick(table), Some(*picked), *level);
    }
    let taken = [take_out(queue, table, t2), take_out(queue, table, t1)];
    see(rt, taken, [true, true], 0);
    queue.move_if_queued(table, t1, priority(20));
    see(rt, queue.pick(table), None, 1);
}
