ghost use Rattle.std.specs.Prelude.{◌≡◌, ◌<◌, length, replicate, []};
ghost use Rattle.pif_nodes_model.specs.Table.{no_key};

use crate::seen::see;
use pif_nodes::{List, Node, NodeTable};
use pif_plist::PList;
use std::process::Abort;
use std::test::Fail;

#[test]
fn rekey_keeps_place_among_equals(rt: HostRuntime) -> Result<(), Fail> {
    let mut table = NodeTable::new(rt.alloc(), 3, 1)?;
    keep_place_among_equals(&rt, &mut table);
    Ok(())
}

fn keep_place_among_equals(rt: &impl Abort, table: &mut NodeTable)
    requires { table.old ≡ record { lists = replicate 1 []; keys = replicate 3 no_key } }
{
    let waiters = PList::new(List::new(0));
    let (a, b, c) = (Node::new(0), Node::new(1), Node::new(2));
    waiters.insert(table, a, 10, 1);
    waiters.insert(table, b, 20, 2);
    waiters.insert(table, c, 20, 3);
    expect_order(rt, table, b, c, a);
    waiters.rekey(table, b, 30);
    waiters.rekey(table, b, 20);
    expect_order(rt, table, b, c, a);
    waiters.remove(table, b);
    see(rt, waiters.top(table), Some(c), 1);
    waiters.set_ticket(table, c, 7);
    let key = table.key(c);
    see(rt, (key.prio, key.ticket), (20, 7), 2);
}

// Asserts that list 0 has these three nodes first.
fn expect_order(rt: &impl Abort, table: &NodeTable, first: Node, second: Node, third: Node)
    requires list { 0 < length table.now.lists }
    requires one { first < length table.now.keys }
    requires two { second < length table.now.keys }
{
    let read = [
        table.first(List::new(0)),
        table.next(first),
        table.next(second),
    ];
    see(rt, read, [Some(first), Some(second), Some(third)], 0);
}
