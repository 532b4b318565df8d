ghost use Rattle.std.specs.Prelude.{◌≡◌, ℕ, ◌+◌, ◌-◌, ◌<◌, ◌≤◌, ◌^◌, ◌↔◌, true, [], ◌∷◌, ◌++◌, length, nat_eq, if◌then◌else◌, IfNone, IfSome, IfOk, Some, None};
ghost use Rattle.std.specs.Int.{bit_at};
ghost use Rattle.std.specs.List.{slice_get};
ghost use Rattle.pif_nodes_model.specs.Lists.{has, list_without};
ghost use Rattle.pif_nodes_model.specs.Table.{NodeLists, holder, list_at};
ghost use Rattle.pif_nodes_model.specs.Levels.{all_below, IsLevel, list_for, node_for, thread_for, IsThreadNode, level_of, level_with, HasRoom, Holds, IsQueued, IsOnLevel, IsFirstOfGreatest, IsEmpty, level_after_add, level_after_move, level_after_move_if_queued, SameOutside};
ghost use Rattle.pif_nodes_model.specs.Masks.{ChangesBit, IsGreatestBit};

use crate::masks::{greatest_bit, with_bit, without_bit};
use pif_nodes::{List, Node, NodeTable};
use pif_types::{Prio, Tid};
use std::marker::Model;

/// How many levels a run queue has: one for each priority. Each is a list of its table.
pub const LEVELS: u32 = 99;

/// A run queue in a table of nodes: each level is a list of the table, and each thread that is ready is a node of the
/// list of its level (sched(7), SCHED_FIFO). A level is a priority, 1 to 99.
#[derive(Drop)]
pub struct RunQueue {
    first_list: u32,
    first_node: u32,
    threads: u32,
    mask: u128,
}

impl Model for RunQueue {
    ghost use Rattle.std.specs.Prelude.{◌+◌, ◌<◌, ◌^◌};
    ghost use Rattle.pif_nodes_model.specs.Levels.{Queue};

    ghost Value = { Queue };

    ghost view = { λ q. record { first_list = q.first_list; first_node = q.first_node; threads = q.threads; mask = q.mask } };

    ghost invariant = { λ q. (q.first_list + 99 < 2 ^ 32) × (q.first_node + q.threads < 2 ^ 32) };
}

impl RunQueue {
    /// A queue with no thread, for a table in which level p is the list `first_list` + p - 1 and thread t, 1 to
    /// `threads`, is the node `first_node` + t - 1. It stands in each table that has these lists, empty, and nodes.
    pub fn new(first_list: u32, first_node: u32, threads: u32) -> Self
        requires lists { first_list + 99 < 2 ^ 32 }
        requires nodes { first_node + threads < 2 ^ 32 }
        ensures made { result ≡ record { first_list = first_list; first_node = first_node; threads = threads; mask = 0 } }
        ensures holds { (t : NodeLists) → HasRoom result t → Holds result t }
    {
        RunQueue {
            first_list,
            first_node,
            threads,
            mask: 0,
        }
    }

    /// Puts the thread `t`, which is in no list, at the end of the level `prio`. All other lists of the table and all
    /// keys stay as they were.
    pub fn add(&mut self, table: &mut NodeTable, t: Tid, prio: Prio)
        requires holds { Holds self.old table.old }
        requires thread { t ≤ self.old.threads }
        requires free { holder table.old (node_for self.old t) ≡ None }
        ensures levels { (p : ℕ) → IsLevel p → level_of self.new table.new p ≡ level_after_add t prio p (level_of self.old table.old p) }
        ensures outside { SameOutside self.old table.old table.new }
        ensures holders { (n : ℕ) → holder table.new n ≡ (if nat_eq n (node_for self.old t) then Some (list_for self.old prio) else holder table.old n) }
        ensures place { self.new ≡ record self.old { mask = self.new.mask } }
        ensures holds { Holds self.new table.new }
    {
        let level = prio.get();
        let list = self.list_for(level);
        let last = table.last(list);
        let node = self.node_for(t);
        table.attach_after(list, last, node);
        self.fill(level);
    }

    /// Takes the thread `t` out of the level on which it is. All other lists of the table and all keys stay as they
    /// were.
    pub fn take_out(&mut self, table: &mut NodeTable, t: Tid)
        requires holds { Holds self.old table.old }
        requires queued { IsQueued self.old table.old t }
        ensures levels { (p : ℕ) → IsLevel p → level_of self.new table.new p ≡ list_without t (level_of self.old table.old p) }
        ensures outside { SameOutside self.old table.old table.new }
        ensures holders { (n : ℕ) → holder table.new n ≡ (if nat_eq n (node_for self.old t) then None else holder table.old n) }
        ensures place { self.new ≡ record self.old { mask = self.new.mask } }
        ensures holds { Holds self.new table.new }
    {
        let level = self.level_on(table, t);
        let node = self.node_for(t);
        table.detach(node);
        let list = self.list_for(level);
        if table.first(list).is_none() {
            self.clear(level);
        }
    }

    /// Puts the thread `t` of a level at the end of the level `prio`, or leaves it where it is if that is its level.
    /// All other lists of the table and all keys stay as they were.
    fn move_to(&mut self, table: &mut NodeTable, t: Tid, prio: Prio)
        requires holds { Holds self.old table.old }
        requires queued { IsQueued self.old table.old t }
        ensures levels { (p : ℕ) → IsLevel p → level_of self.new table.new p ≡ level_after_move t prio p (level_of self.old table.old p) }
        ensures outside { SameOutside self.old table.old table.new }
        ensures holders { (n : ℕ) → holder table.new n ≡ (if nat_eq n (node_for self.old t) then Some (list_for self.old prio) else holder table.old n) }
        ensures place { self.new ≡ record self.old { mask = self.new.mask } }
        ensures holds { Holds self.new table.new }
    {
        if self.level_on(table, t) != prio.get() {
            self.take_out(table, t);
            self.add(table, t, prio);
        }
    }

    /// Puts the thread `t`, if it is on a level, at the end of the level `prio`, or leaves it where it is if that is
    /// its level. All other lists of the table and all keys stay as they were.
    pub fn move_if_queued(&mut self, table: &mut NodeTable, t: Tid, prio: Prio)
        requires { Holds self.old table.old }
        ensures levels { (p : ℕ) → IsLevel p
            → level_of self.new table.new p ≡ level_after_move_if_queued self.old table.old t prio p }
        ensures outside { SameOutside self.old table.old table.new }
        ensures place { self.new ≡ record self.old { mask = self.new.mask } }
        ensures holds { Holds self.new table.new }
    {
        if self.level(table, t).is_some() {
            self.move_to(table, t, prio);
        }
    }

    /// The first thread of the greatest level that has one. `None` if no level has a thread.
    pub fn pick(&self, table: &NodeTable) -> Option<Tid>
        requires holds { Holds self.now table.now }
        ensures none { IfNone result (IsEmpty self.now table.now) }
        ensures first { IfSome result (λ t. IsFirstOfGreatest self.now table.now t) }
    {
        let level = self.greatest()?;
        let list = self.list_for(level);
        let node = table.first(list)?;
        self.thread_for(node)
    }

    /// The thread before which `place` others stand: those of the greatest level first, and those of each level in the
    /// order in which they joined it. `None` if so few threads are on a level.
    pub fn nth(&self, table: &NodeTable, place: u32) -> Option<Tid>
        requires { Holds self.now table.now }
        ensures { result ≡ slice_get (all_below self.now table.now 100) place }
    {
        let mut before = place;
        for above in 0..LEVELS {
            let list = self.list_for(LEVELS - above);
            if let Some(node) = nth_of_list(table, list, &mut before) {
                return self.thread_for(node);
            }
        }
        None
    }

    /// The list of a level.
    fn list_for(&self, level: u32) -> List
        requires { IsLevel level }
        ensures { result ≡ list_for self.now level }
    {
        List::new(self.first_list + (level - 1))
    }

    /// The level on which the thread `t` is.
    fn level_on(&self, table: &NodeTable, t: Tid) -> u32
        requires holds { Holds self.now table.now }
        requires queued { IsQueued self.now table.now t }
        ensures { IsOnLevel self.now table.now t result }
    {
        let node = self.node_for(t);
        let list = table.list_of(node).unwrap();
        list.get() - self.first_list + 1
    }

    /// The node of a thread.
    fn node_for(&self, t: Tid) -> Node
        requires { t ≤ self.now.threads }
        ensures node { result ≡ node_for self.now t }
        ensures thread { 1 ≤ t }
    {
        Node::new(self.first_node + (t.get() - 1))
    }

    /// The thread of a node. Each node of a thread has one.
    fn thread_for(&self, node: Node) -> Option<Tid>
        requires { IsThreadNode self.now node }
        ensures { result ≡ Some (thread_for self.now node) }
    {
        Tid::new(node.get() - self.first_node + 1)
    }

    /// The greatest level of the mask. `None` if it has none.
    fn greatest(&self) -> Option<u32>
        ensures none { IfNone result ((p : ℕ) → bit_at self.now.mask p ≡ 0) }
        ensures greatest { IfSome result (λ p. IsGreatestBit self.now.mask p) }
    {
        greatest_bit(self.mask)
    }

    /// Notes that a level has a thread.
    fn fill(&mut self, level: u32)
        requires { IsLevel level }
        ensures bit { ChangesBit self.old.mask self.new.mask level 1 }
        ensures place { self.new ≡ record self.old { mask = self.new.mask } }
    {
        self.mask = with_bit(self.mask, level);
    }

    /// Notes that a level has no thread.
    fn clear(&mut self, level: u32)
        requires { IsLevel level }
        ensures bit { ChangesBit self.old.mask self.new.mask level 0 }
        ensures place { self.new ≡ record self.old { mask = self.new.mask } }
    {
        self.mask = without_bit(self.mask, level);
    }

    /// The level on which the thread `t` is. `None` if it is on none.
    pub fn level(&self, table: &NodeTable, t: Tid) -> Option<Prio>
        requires holds { Holds self.now table.now }
        ensures level { result ≡ level_with self.now table.now t }
        ensures queued { (p : ℕ) → IsLevel p
            → (result ≡ Some p) ↔ (has t (level_of self.now table.now p) ≡ true) }
    {
        if t.get() > self.threads {
            return None;
        }
        let list = table.list_of(self.node_for(t))?;
        let number = list.get();
        if number < self.first_list || number - self.first_list >= LEVELS {
            return None;
        }
        Prio::new(number - self.first_list + 1)
    }
}

/// The node of a list before which `before` others stand. `None` if it has so few, which are taken off `before`
/// then.
fn nth_of_list(table: &NodeTable, list: List, before: &mut u32) -> Option<Node>
    requires { list < length table.now.lists }
    ensures nth { result ≡ slice_get (list_at table.now list) before.old }
    ensures fewer { IfNone result (before.new + length (list_at table.now list) ≡ before.old) }
{
    let mut next = table.first(list);
    while let Some(node) = next {
        if *before == 0 {
            return Some(node);
        }
        *before -= 1;
        next = table.next(node);
    }
    None
}
