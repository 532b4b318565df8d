ghost use Rattle.std.specs.Prelude.{◌≡◌, ◌≢◌, ℕ, ◌+◌, ◌<◌, ◌≤◌, ◌^◌, ◌⊎◌, ◌==◌, ◌↔◌, if◌then◌else◌, length, IfOk, IfSome, IfNone, IsSome, IsTrue, Some, None, option_map};
ghost use Rattle.std.specs.List.{slice_get};
ghost use Rattle.pif_nodes_model.specs.declared.keys.Key.{Key as RankSeen};
ghost use Rattle.pif_nodes_model.specs.Table.{NodeLists, holder};
ghost use Rattle.pif_kernel_model.specs.QueueFrames.{KeepsOthers};
ghost use Rattle.pif_kernel_model.specs.Entries.{Found, IsRow, no_entries, found_in};
ghost use Rattle.pif_kernel_model.specs.Parked.{Parked, no_parked, IsThread, IsCond, parking_node, parked_at, parked_on, parked_with_prio, parked_with_ticket, IsTopParked, HasNoParked, HasTarget, KeepsParkedOrder, KeepsNodes};
ghost use Rattle.pif_queue.specs.Numbered.{HaveTickets, AreNumbered};
ghost use Rattle.pif_kernel_model.specs.Buckets.{HoldsBuckets, HasRoomForBuckets};

use crate::entries::{BUCKETS, Entries};
use crate::parked_lists::ParkedLists;
use pif_kernel_model::Key;
use pif_nodes::NodeTable;
use pif_types::{CondId, MutexId, NoMemory, Prio, Tid};
use std::alloc::Global;
use std::marker::Model;

/// The owner states of words, by the number of the word, and the threads that are parked on condition variables.
#[derive(Drop)]
pub struct Buckets {
    entries: Entries,
    parked: ParkedLists,
}

impl Model for Buckets {
    ghost use Rattle.pif_kernel_model.specs.Buckets.{Buckets as BucketsSeen, buckets_code};

    ghost Value = { BucketsSeen };

    ghost coded = { buckets_code };

    ghost view = { λ b. record { entries = b.entries; parked = b.parked } };
}

impl Buckets {
    /// No word and nobody parked, for `threads` threads, at most 1,024, and `conds` variables. In its table the 64
    /// lists from `first_list` on are the buckets, and those behind them the lists of the variables. The nodes from
    /// `first_node` on, one for each thread, are those of the rows of owner states, and the nodes of the threads are
    /// those from `wait_node` on. It takes three pieces of memory, and answers `NoMemory` if one is refused.
    pub fn new(
        alloc: Global,
        first_list: u32,
        first_node: u32,
        wait_node: u32,
        threads: u32,
        conds: u32,
    ) -> Result<Buckets, NoMemory>
        requires most { threads ≤ 1024 }
        requires lists { first_list + 64 + conds < 2 ^ 32 }
        requires nodes { first_node + threads < 2 ^ 32 }
        requires wait_nodes { wait_node + threads < 2 ^ 32 }
        requires apart { (wait_node + threads ≤ first_node) ⊎ (first_node + threads ≤ wait_node) }
        ensures made { IfOk result (λ b. b ≡ record {
          entries = no_entries first_list first_node threads;
          parked = no_parked (first_list + 64) wait_node threads conds;
        }) }
        ensures holds { IfOk result (λ b. (t : NodeLists) → HasRoomForBuckets b t → HoldsBuckets b t) }
        ensures no_word { IfOk result (λ b. (t : NodeLists) → HasRoomForBuckets b t → (w : ℕ) → found_in b.entries t w ≡ None) }
        ensures nobody { IfOk result (λ b. (t : NodeLists) (u : ℕ) → parked_at b.parked t u ≡ None) }
    {
        let entries = Entries::new(alloc, first_list, first_node, threads)?;
        let parked = ParkedLists::new(alloc, first_list + BUCKETS, wait_node, threads, conds)?;
        Ok(Buckets { entries, parked })
    }

    /// The key of the owner state of a word. `None` if it has none.
    pub fn find(&self, table: &NodeTable, word: u32) -> Option<Key>
        requires { HoldsBuckets self.now table.now }
        ensures { result ≡ option_map (λ f. f.key) (found_in self.now.entries table.now word) }
    {
        self.entries.find(table, word)
    }

    /// Gives a word, which has no owner state, the one of this key and this row, which no word has. All else stays as
    /// it was.
    pub fn put(&mut self, table: &mut NodeTable, word: u32, key: Key, row: u32)
        requires holds { HoldsBuckets self.old table.old }
        requires row { IsRow self.old.entries row }
        requires free { (w : ℕ) (f : Found) → found_in self.old.entries table.old w ≡ Some f → f.row ≢ row }
        requires none { found_in self.old.entries table.old word ≡ None }
        ensures put { (w : ℕ) → found_in self.new.entries table.new w
            ≡ (if w == word then Some (record { key = key; row = row }) else found_in self.old.entries table.old w) }
        ensures parked { (u : ℕ) → parked_at self.new.parked table.new u ≡ parked_at self.old.parked table.old u }
        ensures place { self.new ≡ record self.old { entries = record self.old.entries { items = self.new.entries.items } } }
        ensures rows { length self.new.entries.items ≡ length self.old.entries.items }
        ensures outside { KeepsOthers self.old.entries.first_list 64 self.old.entries.first_node (length self.old.entries.items) table.old table.new }
        ensures holds { HoldsBuckets self.new table.new }
    {
        self.entries.put(table, word, key, row);
    }

    /// Takes the owner state of a word, which has one, from it. All else stays as it was.
    pub fn forget(&mut self, table: &mut NodeTable, word: u32)
        requires holds { HoldsBuckets self.old table.old }
        requires some { IsSome (found_in self.old.entries table.old word) }
        ensures forgotten { (w : ℕ) → found_in self.new.entries table.new w
            ≡ (if w == word then None else found_in self.old.entries table.old w) }
        ensures parked { (u : ℕ) → parked_at self.new.parked table.new u ≡ parked_at self.old.parked table.old u }
        ensures place { self.new ≡ self.old }
        ensures outside { KeepsOthers self.old.entries.first_list 64 self.old.entries.first_node (length self.old.entries.items) table.old table.new }
        ensures holds { HoldsBuckets self.new table.new }
    {
        self.entries.forget(table, word);
    }

    /// Takes the owner state of a word, which has the one of this row, from it, and looks through no bucket. All else
    /// stays as it was.
    pub fn forget_at(&mut self, table: &mut NodeTable, word: u32, row: u32)
        requires holds { HoldsBuckets self.old table.old }
        requires row { (f : Found) × (found_in self.old.entries table.old word ≡ Some f) × (f.row ≡ row) }
        ensures forgotten { (w : ℕ) → found_in self.new.entries table.new w
            ≡ (if w == word then None else found_in self.old.entries table.old w) }
        ensures parked { (u : ℕ) → parked_at self.new.parked table.new u ≡ parked_at self.old.parked table.old u }
        ensures place { self.new ≡ self.old }
        ensures outside { KeepsOthers self.old.entries.first_list 64 self.old.entries.first_node (length self.old.entries.items) table.old table.new }
        ensures holds { HoldsBuckets self.new table.new }
    {
        self.entries.forget_at(table, word, row);
    }

    /// Parks the thread `t`, whose node is in no list, on a variable with this target, priority and ticket. All else
    /// stays as it was.
    pub fn park(
        &mut self,
        table: &mut NodeTable,
        t: Tid,
        c: CondId,
        m: MutexId,
        prio: Prio,
        ticket: u64,
    )
        requires holds { HoldsBuckets self.old table.old }
        requires thread { IsThread self.old.parked t }
        requires cond { IsCond self.old.parked c }
        requires node { holder table.old (parking_node self.old.parked t) ≡ None }
        ensures parked { let rank : RankSeen = record { prio = prio; ticket = ticket } in
            (u : ℕ) → parked_at self.new.parked table.new u
            ≡ (if u == t then Some (record { cond = c; target = m; rank = rank }) else parked_at self.old.parked table.old u) }
        ensures words { (w : ℕ) → found_in self.new.entries table.new w ≡ found_in self.old.entries table.old w }
        ensures place { self.new ≡ record self.old {
          parked = record self.old.parked { places = self.new.parked.places; differing = self.new.parked.differing };
        } }
        ensures outside { KeepsOthers self.old.parked.first_list self.old.parked.conds self.old.parked.first_node self.old.parked.threads table.old table.new }
        ensures nodes { KeepsNodes self.old.parked t table.old table.new }
        ensures holds { HoldsBuckets self.new table.new }
    {
        self.parked.park(table, t, c, m, prio, ticket);
    }

    /// Takes the thread `t` off the variable on which it is parked. All else stays as it was.
    pub fn unpark(&mut self, table: &mut NodeTable, t: Tid)
        requires holds { HoldsBuckets self.old table.old }
        requires parked { IsSome (parked_at self.old.parked table.old t) }
        ensures freed { (u : ℕ) → parked_at self.new.parked table.new u
            ≡ (if u == t then None else parked_at self.old.parked table.old u) }
        ensures words { (w : ℕ) → found_in self.new.entries table.new w ≡ found_in self.old.entries table.old w }
        ensures place { self.new ≡ record self.old {
          parked = record self.old.parked { places = self.new.parked.places; differing = self.new.parked.differing };
        } }
        ensures outside { KeepsOthers self.old.parked.first_list self.old.parked.conds self.old.parked.first_node self.old.parked.threads table.old table.new }
        ensures node { holder table.new (parking_node self.old.parked t) ≡ None }
        ensures nodes { KeepsNodes self.old.parked t table.old table.new }
        ensures holds { HoldsBuckets self.new table.new }
    {
        self.parked.unpark(table, t);
    }

    /// Gives the thread `t` another priority among those that are parked on its variable. It keeps its ticket, and all
    /// else stays as it was.
    pub fn rekey(&mut self, table: &mut NodeTable, t: Tid, prio: Prio)
        requires holds { HoldsBuckets self.old table.old }
        requires parked { IsSome (parked_at self.old.parked table.old t) }
        ensures changed { (u : ℕ) → parked_at self.new.parked table.new u
            ≡ (if u == t then parked_with_prio prio (parked_at self.old.parked table.old u) else parked_at self.old.parked table.old u) }
        ensures words { (w : ℕ) → found_in self.new.entries table.new w ≡ found_in self.old.entries table.old w }
        ensures place { self.new ≡ record self.old {
          parked = record self.old.parked { differing = self.new.parked.differing };
        } }
        ensures outside { KeepsOthers self.old.parked.first_list self.old.parked.conds self.old.parked.first_node self.old.parked.threads table.old table.new }
        ensures nodes { KeepsNodes self.old.parked t table.old table.new }
        ensures holds { HoldsBuckets self.new table.new }
    {
        self.parked.rekey(table, t, prio);
    }

    /// The ticket with which the thread `t` is parked. `None` if it is not parked.
    pub fn ticket(&self, table: &NodeTable, t: Tid) -> Option<u64>
        requires { HoldsBuckets self.now table.now }
        ensures { result ≡ option_map (λ (x : Parked). x.rank.ticket) (parked_at self.now.parked table.now t) }
    {
        self.parked.ticket(table, t)
    }

    /// Gives the thread `t` another ticket, with which it stands among the others that are parked on its variable as
    /// before. It keeps its priority, and all else stays as it was.
    pub fn set_ticket(&mut self, table: &mut NodeTable, t: Tid, ticket: u64)
        requires holds { HoldsBuckets self.old table.old }
        requires parked { IsSome (parked_at self.old.parked table.old t) }
        requires order { KeepsParkedOrder self.old.parked table.old t ticket }
        ensures changed { (u : ℕ) → parked_at self.new.parked table.new u
            ≡ (if u == t then parked_with_ticket ticket (parked_at self.old.parked table.old u) else parked_at self.old.parked table.old u) }
        ensures words { (w : ℕ) → found_in self.new.entries table.new w ≡ found_in self.old.entries table.old w }
        ensures place { self.new ≡ self.old }
        ensures outside { KeepsOthers self.old.parked.first_list self.old.parked.conds self.old.parked.first_node self.old.parked.threads table.old table.new }
        ensures nodes { KeepsNodes self.old.parked t table.old table.new }
        ensures holds { HoldsBuckets self.new table.new }
    {
        self.parked.set_ticket(table, t, ticket);
    }

    /// Numbers the tickets of all parked threads, of which no two may have the same, from 1, in their order.
    /// Answers the ticket behind the last. All else stays as it was.
    pub fn renumber(&mut self, table: &mut NodeTable) -> u64
        requires holds { HoldsBuckets self.old table.old }
        requires tickets { HaveTickets (parked_at self.old.parked table.old) }
        ensures numbered { AreNumbered (parked_at self.old.parked table.old) (parked_at self.new.parked table.new) result }
        ensures few { result ≤ self.old.parked.threads + 1 }
        ensures words { (w : ℕ) → found_in self.new.entries table.new w ≡ found_in self.old.entries table.old w }
        ensures place { self.new ≡ self.old }
        ensures outside { KeepsOthers self.old.parked.first_list self.old.parked.conds self.old.parked.first_node self.old.parked.threads table.old table.new }
        ensures nodes { (u : ℕ) → IsThread self.old.parked u
            → holder table.new (parking_node self.old.parked u) ≡ holder table.old (parking_node self.old.parked u) }
        ensures holds { HoldsBuckets self.new table.new }
    {
        self.parked.renumber(table)
    }

    /// The thread that is taken first of those that are parked on a variable: that of the highest priority as last
    /// handed in, and of equal ones that of the lowest ticket. `None` if nobody is parked there.
    pub fn top_parked(&self, table: &NodeTable, c: CondId) -> Option<Tid>
        requires { HoldsBuckets self.now table.now }
        ensures none { IfNone result (HasNoParked self.now.parked table.now c) }
        ensures top { IfSome result (λ t. IsTopParked self.now.parked table.now c t) }
    {
        self.parked.top_parked(table, c)
    }

    /// The thread that is parked on a variable and before which `place` others are taken. `None` if so few are parked
    /// there. It walks the list of the variable from its head.
    pub fn nth_parked(&self, table: &NodeTable, c: CondId, place: u32) -> Option<Tid>
        requires { HoldsBuckets self.now table.now }
        ensures on { IsCond self.now.parked c → result ≡ slice_get (parked_on self.now.parked table.now c) place }
        ensures past { self.now.parked.conds < c → result ≡ None }
    {
        self.parked.nth_parked(table, c, place)
    }

    /// Whether each thread that is parked on a variable has this target (futex(2), FUTEX_CMP_REQUEUE_PI). It looks at
    /// the first of them alone.
    pub fn match_requeue(&self, table: &NodeTable, c: CondId, m: MutexId) -> bool
        requires { HoldsBuckets self.now table.now }
        ensures { IsTrue result ↔ HasTarget self.now.parked table.now c m }
    {
        self.parked.match_requeue(table, c, m)
    }
}
