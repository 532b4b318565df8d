ghost use Rattle.std.specs.Prelude.{◌≡◌, ℕ, ◌+◌, ◌<◌, ◌≤◌, ◌^◌, ◌==◌, ◌↔◌, true, false, if◌then◌else◌, length, IfOk, IfSome, IfNone, IsSome, IsTrue, Some, None, option_map};
ghost use Rattle.std.specs.List.{slice_get};
ghost use Rattle.pif_nodes_model.specs.declared.keys.Key.{Key as RankSeen};
ghost use Rattle.pif_nodes_model.specs.Lists.{has, first_of, list_without};
ghost use Rattle.pif_nodes_model.specs.Table.{NodeLists, list_at, key_at, holder};
ghost use Rattle.pif_nodes_model.specs.Order.{comes_before};
ghost use Rattle.pif_kernel_model.specs.Differences.{step_between, differences, around, across};
ghost use Rattle.pif_kernel_model.specs.QueueFrames.{KeepsOthers};
ghost use Rattle.pif_kernel_model.specs.Parked.{Parked, no_parked, place_at, differing_at, IsThread, IsCond, variable_list, parking_node, thread_of_node, target_of, parked_at, parked_on, with_place_at, with_differing, parked_with_prio, parked_with_ticket, StandParked, IsCounted, HoldsParked, HasRoomForParked, IsTopParked, HasNoParked, HasTarget, KeepsParkedOrder, KeepsNodes, IsNodeOfThread};
ghost use Rattle.pif_kernel_model.specs.Tickets.{HasFirstTicketFrom};
ghost use Rattle.pif_queue.specs.Numbered.{ticket_by, HaveTickets, AreNumbered};

use pif_kernel_model::{Tickets, first_ticket_from};
use pif_nodes::{List, Node, NodeTable};
use pif_plist::PList;
use pif_types::{CondId, MutexId, NoMemory, Prio, Tid};
use std::alloc::Global;
use std::marker::Model;

/// Where a thread is parked: its variable, and the mutex that it is to get.
#[derive(Clone, Copy)]
pub struct Place {
    cond: CondId,
    target: MutexId,
}

impl Model for Place {
    ghost use Rattle.pif_kernel_model.specs.Parked.{Place as PlaceSeen, place_code};

    ghost Value = { PlaceSeen };

    ghost coded = { place_code };

    ghost view = { λ x. record { cond = x.cond; target = x.target } };

    ghost inverse = { λ x. record { cond = x.cond; target = x.target } };
}

/// The threads that are parked on condition variables (futex(2), FUTEX_WAIT_REQUEUE_PI): a list for each variable, in
/// the order in which they are taken.
#[derive(Drop)]
pub struct ParkedLists {
    first_list: u32,
    first_node: u32,
    threads: u32,
    conds: u32,
    places: Vec<Option<Place>>,
    differing: Vec<u32>,
}

impl Model for ParkedLists {
    ghost use Rattle.std.specs.Prelude.{◌≡◌, ◌+◌, ◌<◌, ◌≤◌, ◌^◌, length};
    ghost use Rattle.pif_kernel_model.specs.Parked.{ParkedLists as ParkedSeen, parked_code};

    ghost Value = { ParkedSeen };

    ghost coded = { parked_code };

    ghost view = { λ p. record {
      first_list = p.first_list;
      first_node = p.first_node;
      threads = p.threads;
      conds = p.conds;
      places = p.places.items;
      differing = p.differing.items;
    } };

    ghost invariant = { λ p. record {
      most : p.threads ≤ 1024;
      lists : p.first_list + p.conds < 2 ^ 32;
      nodes : p.first_node + p.threads < 2 ^ 32;
      places : length p.places.items ≡ p.threads + 1;
      counts : length p.differing.items ≡ p.conds + 1;
    } };
}

/// The tickets of the threads that are parked in lists of a table.
#[derive(Clone, Copy)]
struct ParkedTickets<'a> {
    lists: &'a ParkedLists,
    table: &'a NodeTable,
}

impl Tickets for ParkedTickets<'_> {
    ghost sound = { λ parked. HoldsParked parked.lists.now parked.table.now };

    ghost tickets = { λ parked. ticket_by (parked_at parked.lists.now parked.table.now) };

    fn ticket(&self, t: Tid) -> Option<u64> {
        self.lists.ticket(self.table, t)
    }
}

impl ParkedLists {
    /// Nobody parked, of `threads` threads, at most 1,024, on `conds` variables. In its table the lists of the
    /// variables are those from `first_list` on, and the nodes of the threads those from `first_node` on. It takes two
    /// pieces of memory, and answers `NoMemory` if one is refused.
    pub fn new(
        alloc: Global,
        first_list: u32,
        first_node: u32,
        threads: u32,
        conds: u32,
    ) -> Result<ParkedLists, NoMemory>
        requires most { threads ≤ 1024 }
        requires lists { first_list + conds < 2 ^ 32 }
        requires nodes { first_node + threads < 2 ^ 32 }
        ensures made { IfOk result (λ p. p ≡ no_parked first_list first_node threads conds) }
        ensures holds { IfOk result (λ p. (t : NodeLists) → HasRoomForParked p t → HoldsParked p t) }
        ensures nobody { IfOk result (λ p. (t : NodeLists) (u : ℕ) → parked_at p t u ≡ None) }
    {
        let places = vec![in alloc; None; threads as usize + 1].map_err(|_| NoMemory)?;
        let differing = vec![in alloc; 0; conds as usize + 1].map_err(|_| NoMemory)?;
        Ok(ParkedLists {
            first_list,
            first_node,
            threads,
            conds,
            places,
            differing,
        })
    }

    /// Parks the thread `t`, whose node is in no list, on a variable with this target, priority and ticket. All others
    /// stay as they were.
    pub fn park(
        &mut self,
        table: &mut NodeTable,
        t: Tid,
        c: CondId,
        m: MutexId,
        prio: Prio,
        ticket: u64,
    )
        requires holds { HoldsParked self.old table.old }
        requires thread { IsThread self.old t }
        requires cond { IsCond self.old c }
        requires node { holder table.old (parking_node self.old t) ≡ None }
        ensures parked { let rank : RankSeen = record { prio = prio; ticket = ticket } in
            (u : ℕ) → parked_at self.new table.new u
            ≡ (if u == t then Some (record { cond = c; target = m; rank = rank }) else parked_at self.old table.old u) }
        ensures place { self.new ≡ record self.old { places = self.new.places; differing = self.new.differing } }
        ensures outside { KeepsOthers self.old.first_list self.old.conds self.old.first_node self.old.threads table.old table.new }
        ensures nodes { KeepsNodes self.old t table.old table.new }
        ensures holds { HoldsParked self.new table.new }
    {
        let node = self.node(t);
        self.list(c).insert(table, node, prio.get(), ticket);
        self.set_place(t, Some(Place { cond: c, target: m }));
        self.count_in(table, c, node);
    }

    /// Takes the thread `t` off the variable on which it is parked. All others stay as they were.
    pub fn unpark(&mut self, table: &mut NodeTable, t: Tid)
        requires holds { HoldsParked self.old table.old }
        requires parked { IsSome (parked_at self.old table.old t) }
        ensures freed { (u : ℕ) → parked_at self.new table.new u ≡ (if u == t then None else parked_at self.old table.old u) }
        ensures place { self.new ≡ record self.old { places = self.new.places; differing = self.new.differing } }
        ensures outside { KeepsOthers self.old.first_list self.old.conds self.old.first_node self.old.threads table.old table.new }
        ensures node { holder table.new (parking_node self.old t) ≡ None }
        ensures nodes { KeepsNodes self.old t table.old table.new }
        ensures holds { HoldsParked self.new table.new }
    {
        if let Some(place) = self.place(t) {
            let node = self.node(t);
            self.count_out(table, place.cond, node);
            self.list(place.cond).remove(table, node);
            self.set_place(t, None);
        }
    }

    /// Gives the thread `t` another priority among those that are parked on its variable. It keeps its ticket, and all
    /// else stays as it was.
    pub fn rekey(&mut self, table: &mut NodeTable, t: Tid, prio: Prio)
        requires holds { HoldsParked self.old table.old }
        requires parked { IsSome (parked_at self.old table.old t) }
        ensures changed { (u : ℕ) → parked_at self.new table.new u
            ≡ (if u == t then parked_with_prio prio (parked_at self.old table.old u) else parked_at self.old table.old u) }
        ensures place { self.new ≡ record self.old { differing = self.new.differing } }
        ensures outside { KeepsOthers self.old.first_list self.old.conds self.old.first_node self.old.threads table.old table.new }
        ensures nodes { KeepsNodes self.old t table.old table.new }
        ensures holds { HoldsParked self.new table.new }
    {
        if let Some(place) = self.place(t) {
            let node = self.node(t);
            self.count_out(table, place.cond, node);
            self.list(place.cond).rekey(table, node, prio.get());
            self.count_in(table, place.cond, node);
        }
    }

    /// The ticket with which the thread `t` is parked. `None` if it is not parked.
    pub fn ticket(&self, table: &NodeTable, t: Tid) -> Option<u64>
        requires { HoldsParked self.now table.now }
        ensures { result ≡ option_map (λ (x : Parked). x.rank.ticket) (parked_at self.now table.now t) }
    {
        let _place = self.place(t)?;
        Some(table.key(self.node(t)).ticket)
    }

    /// Gives the thread `t` another ticket, with which it stands among the others that are parked on its variable as
    /// before. It keeps its priority, and all else stays as it was.
    pub fn set_ticket(&mut self, table: &mut NodeTable, t: Tid, ticket: u64)
        requires holds { HoldsParked self.old table.old }
        requires parked { IsSome (parked_at self.old table.old t) }
        requires order { KeepsParkedOrder self.old table.old t ticket }
        ensures changed { (u : ℕ) → parked_at self.new table.new u
            ≡ (if u == t then parked_with_ticket ticket (parked_at self.old table.old u) else parked_at self.old table.old u) }
        ensures place { self.new ≡ self.old }
        ensures outside { KeepsOthers self.old.first_list self.old.conds self.old.first_node self.old.threads table.old table.new }
        ensures nodes { KeepsNodes self.old t table.old table.new }
        ensures holds { HoldsParked self.new table.new }
    {
        if let Some(place) = self.place(t) {
            let node = self.node(t);
            self.list(place.cond).set_ticket(table, node, ticket);
        }
    }

    /// Renumbers the tickets of all parked threads from 1, in their order. Answers the ticket behind the last. All
    /// else stays as it was.
    pub fn renumber(&mut self, table: &mut NodeTable) -> u64
        requires holds { HoldsParked self.old table.old }
        requires tickets { HaveTickets (parked_at self.old table.old) }
        ensures numbered { AreNumbered (parked_at self.old table.old) (parked_at self.new table.new) result }
        ensures few { result ≤ self.old.threads + 1 }
        ensures place { self.new ≡ self.old }
        ensures outside { KeepsOthers self.old.first_list self.old.conds self.old.first_node self.old.threads table.old table.new }
        ensures nodes { (u : ℕ) → IsThread self.old u → holder table.new (parking_node self.old u) ≡ holder table.old (parking_node self.old u) }
        ensures holds { HoldsParked self.new table.new }
    {
        // For the prover: there are at most 1,024 threads.
        let _threads = self.threads;
        let mut ticket = 1;
        while let Some(t) = self.first_from(table, ticket) {
            self.set_ticket(table, t, ticket);
            ticket += 1;
        }
        ticket
    }

    /// The parked thread of the lowest ticket from `least` on, which is at least 1. `None` if none has such a ticket.
    fn first_from(&self, table: &NodeTable, least: u64) -> Option<Tid>
        requires holds { HoldsParked self.now table.now }
        requires least { 1 ≤ least }
        ensures { HasFirstTicketFrom (ticket_by (parked_at self.now table.now)) least (self.now.threads + 1) result }
    {
        let parked = ParkedTickets { lists: self, table };
        first_ticket_from(&parked, self.threads + 1, least)
    }

    /// The thread that is taken first of those that are parked on a variable: that of the highest priority as last
    /// handed in, and of equal ones that of the lowest ticket. `None` if nobody is parked there.
    pub fn top_parked(&self, table: &NodeTable, c: CondId) -> Option<Tid>
        requires { HoldsParked self.now table.now }
        ensures none { IfNone result (HasNoParked self.now table.now c) }
        ensures top { IfSome result (λ t. IsTopParked self.now table.now c t) }
    {
        let node = self.first(table, c)?;
        self.thread(node)
    }

    /// The thread that is parked on a variable and before which `place` others are taken. `None` if so few are parked
    /// there. It walks the list of the variable from its head.
    pub fn nth_parked(&self, table: &NodeTable, c: CondId, place: u32) -> Option<Tid>
        requires { HoldsParked self.now table.now }
        ensures on { IsCond self.now c → result ≡ slice_get (parked_on self.now table.now c) place }
        ensures past { self.now.conds < c → result ≡ None }
    {
        if c.get() > self.conds {
            return None;
        }
        let node = nth(table, self.list(c), place)?;
        self.thread(node)
    }

    /// Whether each thread that is parked on a variable has this target (futex(2), FUTEX_CMP_REQUEUE_PI). It looks at
    /// the first of them alone.
    pub fn match_requeue(&self, table: &NodeTable, c: CondId, m: MutexId) -> bool
        requires { HoldsParked self.now table.now }
        ensures { IsTrue result ↔ HasTarget self.now table.now c m }
    {
        match self.first(table, c) {
            Some(node) => self.target(node) == m.get() && self.count(c) == 0,
            None => true,
        }
    }

    /// The node of the thread that is taken first of those that are parked on a variable. `None` if nobody is.
    fn first(&self, table: &NodeTable, c: CondId) -> Option<Node>
        requires { HoldsParked self.now table.now }
        ensures none { IfNone result (HasNoParked self.now table.now c) }
        ensures cond { IfSome result (λ n. IsCond self.now c) }
        ensures first { IfSome result (λ n. Some n ≡ first_of (list_at table.now (variable_list self.now c))) }
        ensures least { IfSome result (λ n. (k : ℕ) → has k (list_at table.now (variable_list self.now c)) ≡ true
            → comes_before (key_at table.now k) (key_at table.now n) ≡ false) }
    {
        if c.get() > self.conds {
            return None;
        }
        self.list(c).top(table)
    }

    /// Counts, of the list of a variable, the differences that came with a node of it.
    fn count_in(&mut self, table: &NodeTable, c: CondId, node: Node)
        requires stand { StandParked self.old table.now }
        requires cond { IsCond self.old c }
        requires held { holder table.now node ≡ Some (variable_list self.old c) }
        requires counted { differing_at self.old c
            ≡ differences (target_of self.old) (list_without node (list_at table.now (variable_list self.old c))) }
        ensures { self.new
            ≡ with_differing c (differences (target_of self.old) (list_at table.now (variable_list self.old c))) self.old }
    {
        // For the prover: nodes have numbers of 32 bits.
        let _first = self.first_node;
        let around = self.around(table, c, node);
        let across = self.across(table, c, node);
        let count = self.count(c) + around - across;
        self.set_count(c, count);
    }

    /// Counts, of the list of a variable, the differences that are left without a node of it.
    fn count_out(&mut self, table: &NodeTable, c: CondId, node: Node)
        requires stand { StandParked self.old table.now }
        requires cond { IsCond self.old c }
        requires held { holder table.now node ≡ Some (variable_list self.old c) }
        requires counted { IsCounted self.old table.now c }
        ensures { self.new
            ≡ with_differing c (differences (target_of self.old) (list_without node (list_at table.now (variable_list self.old c)))) self.old }
    {
        // For the prover: nodes have numbers of 32 bits.
        let _first = self.first_node;
        let differing = self.count(c);
        // If all are the same, those that are left are too.
        if differing == 0 {
            return;
        }
        let around = self.around(table, c, node);
        let across = self.across(table, c, node);
        self.set_count(c, differing + across - around);
    }

    /// How many neighbours in the list of a variable differ in their target.
    fn count(&self, c: CondId) -> u32
        requires { IsCond self.now c }
        ensures { result ≡ differing_at self.now c }
    {
        self.differing[c.get() as usize]
    }

    /// Makes `count` the number of neighbours in the list of a variable that differ in their target.
    fn set_count(&mut self, c: CondId, count: u32)
        requires { IsCond self.old c }
        ensures { self.new ≡ with_differing c count self.old }
    {
        self.differing[c.get() as usize] = count;
    }

    /// The differences between a node of the list of a variable and its two neighbours.
    fn around(&self, table: &NodeTable, c: CondId, node: Node) -> u32
        requires stand { StandParked self.now table.now }
        requires cond { IsCond self.now c }
        requires held { holder table.now node ≡ Some (variable_list self.now c) }
        ensures value { result ≡ around (target_of self.now) (list_at table.now (variable_list self.now c)) node }
        ensures most { result ≤ 2 }
    {
        let before = table.prev(node);
        let behind = table.next(node);
        self.step(before, Some(node)) + self.step(Some(node), behind)
    }

    /// The difference between the two neighbours of a node of the list of a variable.
    fn across(&self, table: &NodeTable, c: CondId, node: Node) -> u32
        requires stand { StandParked self.now table.now }
        requires cond { IsCond self.now c }
        requires held { holder table.now node ≡ Some (variable_list self.now c) }
        ensures value { result ≡ across (target_of self.now) (list_at table.now (variable_list self.now c)) node }
        ensures most { result ≤ 1 }
    {
        self.step(table.prev(node), table.next(node))
    }

    /// 1 if there are two nodes, whose threads have different targets, and else 0.
    fn step(&self, one: Option<Node>, other: Option<Node>) -> u32
        requires one { IfSome one (λ n. IsNodeOfThread self.now n) }
        requires other { IfSome other (λ n. IsNodeOfThread self.now n) }
        ensures value { result ≡ step_between (target_of self.now) one other }
        ensures most { result ≤ 1 }
    {
        match (one, other) {
            (Some(n), Some(k)) if self.target(n) != self.target(k) => 1,
            _ => 0,
        }
    }

    /// The target of the thread of a node, by its number. 0 if that thread is not parked.
    fn target(&self, node: Node) -> u32
        requires { IsNodeOfThread self.now node }
        ensures { result ≡ target_of self.now node }
    {
        match self.places[(node.get() - self.first_node) as usize + 1] {
            Some(place) => place.target.get(),
            None => 0,
        }
    }

    /// Where the thread `t` is parked. `None` if it is not.
    fn place(&self, t: Tid) -> Option<Place>
        ensures { result ≡ place_at self.now t }
    {
        let at = t.get() as usize;
        if at < self.places.len() {
            self.places[at]
        } else {
            None
        }
    }

    /// Makes `place` the place of the thread `t`.
    fn set_place(&mut self, t: Tid, place: Option<Place>)
        requires { IsThread self.old t }
        ensures { self.new ≡ with_place_at t place self.old }
    {
        self.places[t.get() as usize] = place;
    }

    /// The list of a variable.
    fn list(&self, c: CondId) -> PList
        requires { IsCond self.now c }
        ensures { result ≡ variable_list self.now c }
    {
        PList::new(List::new(self.first_list + (c.get() - 1)))
    }

    /// The node of the thread `t`.
    fn node(&self, t: Tid) -> Node
        requires { IsThread self.now t }
        ensures { result ≡ parking_node self.now t }
    {
        Node::new(self.first_node + (t.get() - 1))
    }

    /// The thread of a node.
    fn thread(&self, node: Node) -> Option<Tid>
        requires { IsNodeOfThread self.now node }
        ensures { result ≡ Some (thread_of_node self.now node) }
    {
        Tid::new(node.get() - self.first_node + 1)
    }
}

/// The node of a list before which `place` others stand. `None` if it has so few.
fn nth(table: &NodeTable, list: PList, place: u32) -> Option<Node>
    requires { list < length table.now.lists }
    ensures { result ≡ slice_get (list_at table.now list) place }
{
    let mut node = list.top(table)?;
    for _ in 0..place {
        node = table.next(node)?;
    }
    Some(node)
}
