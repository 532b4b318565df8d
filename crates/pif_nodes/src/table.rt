ghost use Rattle.std.specs.Prelude.{◌≡◌, ℕ, ◌<◌, length, replicate, [], IsSome, IfOk, Some, None, nat_eq, if◌then◌else◌};
ghost use Rattle.std.specs.Option.{ForSome};
ghost use Rattle.pif_nodes_model.specs.Lists.{first_of, last_of, insert_after, list_without};
ghost use Rattle.pif_nodes_model.specs.Table.{no_key, list_at, key_at, holder, next_node, prev_node, with_list, with_key, IsApart};

use crate::linking::{follower, link, unlink, write_key};
use crate::numbers::{List, Node};
use crate::slots::{Ends, Slot};
use pif_nodes_model::Key;
use pif_types::NoMemory;
use std::alloc::Global;
use std::marker::Model;

/// A table of nodes and lists. Each node has a key, and is in at most one list, once.
#[derive(Drop)]
pub struct NodeTable {
    nodes: Vec<Slot>,
    ends: Vec<Ends>,
}

impl Model for NodeTable {
    ghost use Rattle.pif_nodes_model.specs.Table.{NodeLists};

    ghost Value = { NodeLists };

    ghost use Rattle.pif_nodes.specs.Links.{lists_of, keys_of, Ties};

    ghost view = { λ t. record { lists = lists_of t.nodes.items t.ends.items; keys = keys_of t.nodes.items } };

    ghost invariant = { λ t. Ties t.nodes.items t.ends.items (lists_of t.nodes.items t.ends.items) };
}

impl NodeTable {
    /// A table of so many nodes and lists: each list is empty, and each key is 0 and 0. Takes two pieces of memory,
    /// and answers `NoMemory` if one of them is refused.
    pub fn new(alloc: Global, nodes: u32, lists: u32) -> Result<NodeTable, NoMemory>
        ensures made { IfOk result (λ t. t ≡ record { lists = replicate lists []; keys = replicate nodes no_key }) }
        ensures apart { IfOk result IsApart }
    {
        let free = Slot {
            prev: None,
            next: None,
            list: None,
            prio: 0,
            ticket: 0,
        };
        let empty = Ends {
            first: None,
            last: None,
        };
        let nodes = vec![in alloc; free; nodes as usize].map_err(|_| NoMemory)?;
        let ends = vec![in alloc; empty; lists as usize].map_err(|_| NoMemory)?;
        Ok(NodeTable { nodes, ends })
    }

    /// Puts `node` into `list`, right after the node `after`, or at the head if that is `None`. All other lists and
    /// all keys stay as they were.
    pub fn attach_after(&mut self, list: List, after: Option<Node>, node: Node)
        requires list_in { list < length self.old.lists }
        requires node_in { node < length self.old.keys }
        requires free { holder self.old node ≡ None }
        requires place { ForSome after (λ p. holder self.old p ≡ Some list) }
        ensures put { self.new ≡ with_list self.old list (insert_after after node (list_at self.old list)) }
        ensures holders { (n : ℕ) → holder self.new n ≡ (if nat_eq n node then Some list else holder self.old n) }
        ensures apart { IsApart self.new }
    {
        let prev = after.map(|place| place.get());
        let next = follower(&self.nodes, &self.ends, list.get(), prev);
        link(
            &mut self.nodes,
            &mut self.ends,
            list.get(),
            prev,
            next,
            node.get(),
        );
    }

    /// Takes `node` out of the list in which it is. All other lists and all keys stay as they were.
    pub fn detach(&mut self, node: Node)
        requires held { IsSome (holder self.old node) }
        ensures before { IsApart self.old }
        ensures taken { (l : ℕ) → holder self.old node ≡ Some l
            → self.new ≡ with_list self.old l (list_without node (list_at self.old l)) }
        ensures holders { (n : ℕ) → holder self.new n ≡ (if nat_eq n node then None else holder self.old n) }
        ensures apart { IsApart self.new }
    {
        let slot = self.nodes[node.get() as usize];
        if let Some(list) = slot.list {
            unlink(
                &mut self.nodes,
                &mut self.ends,
                list,
                slot.prev,
                slot.next,
                node.get(),
            );
        }
    }

    /// The node after `node` in its list. `None` if it is the last, or in no list.
    #[tactic(auto, using(crate::proofs::ReadLemmas::reads))]
    pub fn next(&self, node: Node) -> Option<Node>
        requires { node < length self.now.keys }
        ensures neighbour { result ≡ next_node self.now node }
        ensures apart { IsApart self.now }
    {
        let slot = &self.nodes[node.get() as usize];
        slot.next.map(|number| Node::new(number))
    }

    /// The node before `node` in its list. `None` if it is the first, or in no list.
    #[tactic(auto, using(crate::proofs::ReadLemmas::reads))]
    pub fn prev(&self, node: Node) -> Option<Node>
        requires { node < length self.now.keys }
        ensures neighbour { result ≡ prev_node self.now node }
        ensures apart { IsApart self.now }
    {
        let slot = &self.nodes[node.get() as usize];
        slot.prev.map(|number| Node::new(number))
    }

    /// The first node of `list`. `None` if it is empty.
    #[tactic(auto, using(crate::proofs::ReadLemmas::reads))]
    pub fn first(&self, list: List) -> Option<Node>
        requires { list < length self.now.lists }
        ensures end { result ≡ first_of (list_at self.now list) }
        ensures apart { IsApart self.now }
    {
        let ends = &self.ends[list.get() as usize];
        ends.first.map(|number| Node::new(number))
    }

    /// The last node of `list`. `None` if it is empty.
    #[tactic(auto, using(crate::proofs::ReadLemmas::reads))]
    pub fn last(&self, list: List) -> Option<Node>
        requires { list < length self.now.lists }
        ensures end { result ≡ last_of (list_at self.now list) }
        ensures apart { IsApart self.now }
    {
        let ends = &self.ends[list.get() as usize];
        ends.last.map(|number| Node::new(number))
    }

    /// The list in which `node` is. `None` if it is in no list.
    #[tactic(auto, using(crate::proofs::ReadLemmas::reads))]
    pub fn list_of(&self, node: Node) -> Option<List>
        requires { node < length self.now.keys }
        ensures holder { result ≡ holder self.now node }
        ensures apart { IsApart self.now }
    {
        let slot = &self.nodes[node.get() as usize];
        slot.list.map(|number| List::new(number))
    }

    /// The key of `node`.
    #[tactic(auto, using(crate::proofs::ReadLemmas::reads))]
    pub fn key(&self, node: Node) -> Key
        requires { node < length self.now.keys }
        ensures { result ≡ key_at self.now node }
    {
        let slot = &self.nodes[node.get() as usize];
        Key {
            prio: slot.prio,
            ticket: slot.ticket,
        }
    }

    /// Makes `prio` and `ticket` the key of `node`. All lists and all other keys stay as they were.
    pub fn set_key(&mut self, node: Node, prio: u32, ticket: u64)
        requires { node < length self.old.keys }
        ensures renamed { self.new ≡ with_key self.old node (record { prio = prio; ticket = ticket }) }
        ensures apart { IsApart self.new }
    {
        write_key(&mut self.nodes, node.get(), prio, ticket);
    }

    /// Does nothing: its contract says of any table that each node is in at most one list, and once.
    #[tactic(auto, using(crate::proofs::ReadLemmas::reads))]
    pub fn has_each_node_once(&self)
        ensures { IsApart self.now }
    {
        let _nodes = &self.nodes;
    }
}
