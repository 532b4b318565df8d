ghost use Rattle.std.specs.Prelude.{◌≡◌, ◌<◌, IfOk, Some, None, slice_set};
ghost use Rattle.pif_nodes_model.specs.Table.{holder};
ghost use Rattle.pif_bench.specs.Filling.{IsReady, IsFilled, IsEmptied, ChangesHolder, priority_of};

use crate::moments::{now, picoseconds_each};
use pif_nodes::{List, Node, NodeTable};
use pif_plist::PList;
use pif_types::NoMemory;
use std::alloc::Global;
use std::rt::Clock;

/// How many nodes a round inserts and removes.
const NODES: u32 = 1000;

/// How many rounds are measured.
const ROUNDS: u32 = 100;

/// Which priorities the nodes have.
#[derive(Clone, Copy)]
pub enum Priorities {
    /// All the same: each node joins the end.
    Equal,
    /// Each node has one of its own, and the later ones are higher.
    Distinct,
}

/// The priority of a node.
fn priority_of(priorities: Priorities, node: u32) -> u32
    ensures { result ≡ priority_of priorities node }
{
    match priorities {
        Priorities::Equal => 1,
        Priorities::Distinct => node,
    }
}

/// Inserts and removes the nodes in one sorted list, again and again. Answers how many picoseconds each took.
pub fn measure_lists(rt: &(impl Clock + AllocGlobal), priorities: Priorities) -> Option<u64> {
    let mut table = new_table(rt.alloc()).ok()?;
    time_rounds(rt, &mut table, priorities)
}

/// Does so with the list of this table.
fn time_rounds(rt: &impl Clock, table: &mut NodeTable, priorities: Priorities) -> Option<u64>
    requires ready { IsReady table.old }
    requires empty { IsEmptied 1000 table.old }
{
    let start = now(rt);
    for _round in 0..ROUNDS {
        insert_all(table, priorities);
        remove_all(table);
    }
    picoseconds_each(rt, start, 2 * ROUNDS * NODES)
}

/// A table of one list, which is empty.
fn new_table(alloc: Global) -> Result<NodeTable, NoMemory>
    ensures ready { IfOk result IsReady }
    ensures empty { IfOk result (IsEmptied 1000) }
{
    NodeTable::new(alloc, NODES, 1)
}

/// Inserts each node, none of which is in the list, with its priority.
fn insert_all(table: &mut NodeTable, priorities: Priorities)
    requires ready { IsReady table.old }
    requires empty { IsEmptied 1000 table.old }
    ensures ready { IsReady table.new }
    ensures filled { IsFilled priorities 1000 table.new }
{
    for number in 0..NODES {
        insert_one(table, number, priority_of(priorities, number));
    }
}

/// Inserts a node, if it is in no list.
fn insert_one(table: &mut NodeTable, number: u32, prio: u32)
    requires ready { IsReady table.old }
    requires node { number < 1000 }
    ensures ready { IsReady table.new }
    ensures holders { ChangesHolder table.old table.new number (Some 0) }
    ensures key { holder table.old number ≡ None
        → table.new.keys ≡ slice_set table.old.keys number (record { prio = prio; ticket = number }) }
{
    let node = Node::new(number);
    match table.list_of(node) {
        None => PList::new(List::new(0)).insert(table, node, prio, u64::from(number)),
        Some(_) => {}
    }
}

/// Removes each node that is in the list.
fn remove_all(table: &mut NodeTable)
    requires { IsReady table.old }
    ensures ready { IsReady table.new }
    ensures emptied { IsEmptied 1000 table.new }
{
    for number in 0..NODES {
        remove_one(table, number);
    }
}

/// Removes a node, if it is in the list.
fn remove_one(table: &mut NodeTable, number: u32)
    requires ready { IsReady table.old }
    requires node { number < 1000 }
    ensures ready { IsReady table.new }
    ensures holders { ChangesHolder table.old table.new number None }
{
    let node = Node::new(number);
    match table.list_of(node) {
        Some(list) => {
            if list.get() == 0 {
                PList::new(List::new(0)).remove(table, node);
            }
        }
        None => {}
    }
}
