ghost use Rattle.std.specs.Prelude.{◌≡◌, ℕ, ◌<◌, true, false, length, Some, None, nat_eq, if◌then◌else◌};
ghost use Rattle.pif_nodes_model.specs.Lists.{has, first_of};
ghost use Rattle.pif_nodes_model.specs.Table.{list_at, key_at, holder, with_key, IsApart};
ghost use Rattle.pif_nodes_model.specs.Order.{comes_before, IsSorted, IsPlace, FitsBetween, OthersStaySorted, table_after_insert, table_after_remove, key_with_prio, key_with_ticket};

use crate::order::precedes;
use pif_nodes::{Key, List, Node, NodeTable};
use std::marker::Model;

/// A list of a table whose nodes are kept in the order of their keys.
#[derive(Clone, Copy, Debug, PartialEq, Eq)]
pub struct PList {
    list: List,
}

impl Model for PList {
    ghost Value = { ℕ };

    ghost view = { λ p. p.list };

    ghost inverse = { λ n. record { list = n } };
}

impl PList {
    /// The list `list` of a table.
    pub fn new(list: List) -> PList
        ensures { result ≡ list }
    {
        PList { list }
    }

    /// Gives `node` the key `prio` and `ticket`, and puts it into this list, behind all nodes that come no later. Takes
    /// constant time if that is at the head or at the end. All other lists, and the keys of all other nodes, stay as
    /// they were.
    pub fn insert(&self, table: &mut NodeTable, node: Node, prio: u32, ticket: u64)
        requires list_in { self.now < length table.old.lists }
        requires node_in { node < length table.old.keys }
        requires free { holder table.old node ≡ None }
        requires sorted { IsSorted table.old self.now }
        ensures put { table.new ≡ table_after_insert table.old self.now node (record { prio = prio; ticket = ticket }) }
        ensures holders { (n : ℕ) → holder table.new n ≡ (if nat_eq n node then Some self.now else holder table.old n) }
        ensures sorted { IsSorted table.new self.now }
        ensures others { OthersStaySorted table.old table.new self.now }
        ensures apart { IsApart table.new }
    {
        let place = self.place(table, Key { prio, ticket });
        table.set_key(node, prio, ticket);
        table.attach_after(self.list, place, node);
    }

    /// Takes `node` out of this list. All other lists and all keys stay as they were.
    pub fn remove(&self, table: &mut NodeTable, node: Node)
        requires held { holder table.old node ≡ Some self.now }
        requires sorted { IsSorted table.old self.now }
        ensures before { IsApart table.old }
        ensures taken { table.new ≡ table_after_remove table.old self.now node }
        ensures holders { (n : ℕ) → holder table.new n ≡ (if nat_eq n node then None else holder table.old n) }
        ensures sorted { IsSorted table.new self.now }
        ensures others { OthersStaySorted table.old table.new self.now }
        ensures apart { IsApart table.new }
    {
        table.detach(node);
    }

    /// Gives `node` the priority `prio`, and the place in this list that goes with it. Its ticket stays, and so does
    /// its place among equals. Takes constant time if it keeps its place, and if it goes to the head or the end.
    /// All other lists, and the keys of all other nodes, stay as they were.
    pub fn rekey(&self, table: &mut NodeTable, node: Node, prio: u32)
        requires held { holder table.old node ≡ Some self.now }
        requires sorted { IsSorted table.old self.now }
        ensures moved { table.new ≡ table_after_insert (table_after_remove table.old self.now node) self.now node (key_with_prio table.old node prio) }
        ensures holders { (n : ℕ) → holder table.new n ≡ holder table.old n }
        ensures sorted { IsSorted table.new self.now }
        ensures others { OthersStaySorted table.old table.new self.now }
        ensures apart { IsApart table.new }
    {
        table.has_each_node_once();
        let ticket = table.key(node).ticket;
        if keeps_place(table, node, Key { prio, ticket }) {
            table.set_key(node, prio, ticket);
        } else {
            self.remove(table, node);
            self.insert(table, node, prio, ticket);
        }
    }

    /// Gives `node` the ticket `ticket`, with which this list has to be still sorted. All lists, the priority of `node`
    /// and the keys of all other nodes stay as they were.
    pub fn set_ticket(&self, table: &mut NodeTable, node: Node, ticket: u64)
        requires node_in { node < length table.old.keys }
        requires held { holder table.old node ≡ Some self.now }
        requires sorted { IsSorted table.old self.now }
        requires stays_sorted { IsSorted (with_key table.old node (key_with_ticket table.old node ticket)) self.now }
        ensures ticketed { table.new ≡ with_key table.old node (key_with_ticket table.old node ticket) }
        ensures sorted { IsSorted table.new self.now }
        ensures others { OthersStaySorted table.old table.new self.now }
        ensures apart { IsApart table.new }
    {
        let prio = table.key(node).prio;
        table.set_key(node, prio, ticket);
    }

    /// The first node of this list: in a sorted list none comes before it. `None` if the list is empty.
    pub fn top(&self, table: &NodeTable) -> Option<Node>
        requires { self.now < length table.now.lists }
        ensures first { result ≡ first_of (list_at table.now self.now) }
        ensures highest { IsSorted table.now self.now → (n m : ℕ) → result ≡ Some n → has m (list_at table.now self.now) ≡ true
            → comes_before (key_at table.now m) (key_at table.now n) ≡ false }
        ensures apart { IsApart table.now }
    {
        table.first(self.list)
    }

    /// The last node that comes no later than `key`. `None` if all nodes come later.
    fn place(&self, table: &NodeTable, key: Key) -> Option<Node>
        requires list_in { self.now < length table.now.lists }
        requires sorted { IsSorted table.now self.now }
        ensures place { IsPlace table.now.keys key (list_at table.now self.now) result }
        ensures apart { IsApart table.now }
    {
        match table.last(self.list) {
            Some(last) if !precedes(key, table.key(last)) => Some(last),
            _ => self.walk(table, key),
        }
    }

    /// The same, by a walk from the head.
    fn walk(&self, table: &NodeTable, key: Key) -> Option<Node>
        requires { self.now < length table.now.lists }
        ensures place { IsPlace table.now.keys key (list_at table.now self.now) result }
        ensures apart { IsApart table.now }
    {
        let mut place = None;
        let mut next = self.top(table);
        while let Some(node) = next {
            if precedes(key, table.key(node)) {
                break;
            }
            place = Some(node);
            next = table.next(node);
        }
        place
    }
}

/// Whether `node` stands in its list where it would with this key: the node before it comes no later, and the one
/// behind it comes later.
fn keeps_place(table: &NodeTable, node: Node, key: Key) -> bool
    requires { node < length table.now.keys }
    ensures apart { IsApart table.now }
    ensures place { result ≡ true → FitsBetween table.now node key }
{
    let fits_before = match table.prev(node) {
        Some(before) => !precedes(key, table.key(before)),
        None => true,
    };
    let fits_behind = match table.next(node) {
        Some(behind) => precedes(key, table.key(behind)),
        None => true,
    };
    fits_before && fits_behind
}
