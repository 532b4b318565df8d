ghost use Rattle.std.specs.Prelude.{◌≡◌, ℕ, ◌+◌, ◌<◌, ◌≤◌, ◌==◌, if◌then◌else◌, IsSome};
ghost use Rattle.pif_kernel_model.specs.Boosts.{local_of};
ghost use Rattle.pif_kernel_model.specs.States.{owners_in};
ghost use Rattle.pif_kernel_model.specs.Entries.{found_in};
ghost use Rattle.pif_kernel_model.specs.QueueFrames.{KeepsOthers};
ghost use Rattle.pif_kernel_model.specs.Parked.{parked_at, parked_with_prio, parked_with_ticket};
ghost use Rattle.pif_kernel_model.specs.Buckets.{HoldsBuckets};
ghost use Rattle.pif_chains_linked.specs.Parkings.{AreParked, parkings_in};

use arrayvec::ArrayVec;
use pif_boost::{path, walk_to, would_close};
use pif_kernel::Chains;
use pif_kernel_model::Key;
use pif_nodes::NodeTable;
use pif_queue::{BUCKETS, Buckets};
use pif_rtmutex::RtMutexes;
use pif_runq::{LEVELS, RunQueue};
use pif_types::{CondId, MutexId, NoMemory, Prio, Tid};
use std::alloc::Global;
use std::marker::Model;

/// The lists of parked threads: one for each variable that can be.
const CONDS: u32 = 256;

/// Chains in one table of nodes, linked by index, with four nodes a thread: as a waiter or a parked thread, as a top
/// waiter, as a ready thread, and one for the row of an owner state. A list of waiters for each owner state comes
/// first, then one of top waiters for each thread, the levels, the buckets, and the parked threads of each variable. No
/// call on these but `new`, and `park` at the last ticket, looks at every thread: a walk goes up one chain.
#[derive(Drop)]
pub struct LinkedChains {
    owners: RtMutexes,
    queue: RunQueue,
    table: NodeTable,
    buckets: Buckets,
    next: u64,
}

impl Model for LinkedChains {
    ghost use Rattle.pif_kernel_model.specs.States.{owners_in};
    ghost use Rattle.pif_kernel_model.specs.Chained.{Chained, chained_code};
    ghost use Rattle.pif_chains_linked.specs.Parkings.{parkings_in};
    ghost use Rattle.pif_chains_linked.specs.Linked.{keys_in, IsLinked};

    ghost Value = { Chained };

    ghost coded = { chained_code };

    ghost view = { λ c. record {
      owners = owners_in c.owners c.table;
      queue = c.queue;
      table = c.table;
      keys = keys_in c.buckets.entries c.table;
      parked = parkings_in c.buckets.parked c.table;
    } };

    ghost invariant = { λ c. IsLinked c.owners c.queue c.buckets c.table c.next };
}

impl Chains for LinkedChains {
    ghost seen = { λ c. c };

    fn new(alloc: Global, threads: u32, first_ticket: u64) -> Result<Self, NoMemory> {
        let owners = RtMutexes::new(alloc, 0, 0, threads)?;
        let table = NodeTable::new(alloc, 4 * threads, 2 * threads + LEVELS + BUCKETS + CONDS)?;
        let queue = RunQueue::new(2 * threads, 2 * threads, threads);
        let buckets = Buckets::new(alloc, 2 * threads + LEVELS, 3 * threads, 0, threads, CONDS)?;
        Ok(LinkedChains {
            owners,
            queue,
            table,
            buckets,
            next: first_ticket,
        })
    }

    fn admit(&mut self, t: Tid, prio: Prio) {
        self.owners.admit(&self.table, t, prio);
    }

    fn base(&self, t: Tid) -> Option<Prio> {
        self.owners.base(&self.table, t)
    }

    fn set_base(&mut self, t: Tid, prio: Prio) {
        self.owners.set_base(&self.table, t, prio);
    }

    fn local(&self, t: Tid) -> Option<Prio> {
        self.owners.local(&self.table, t)
    }

    fn find(&self, m: MutexId) -> Option<Key> {
        self.buckets.find(&self.table, m.get())
    }

    fn open(&mut self, m: MutexId, owner: Tid) -> Key {
        let key = self.owners.make(&self.table, owner);
        let row = self.owners.row(&self.table, key);
        self.buckets.put(&mut self.table, m.get(), key, row);
        key
    }

    fn owner(&self, key: Key) -> Tid {
        self.owners.owner(&self.table, key)
    }

    fn top(&self, key: Key) -> Option<Tid> {
        self.owners.top(&self.table, key)
    }

    fn behind(&self, t: Tid) -> Option<Tid> {
        self.owners.behind(&self.table, t)
    }

    fn ticket(&self, t: Tid) -> Option<u64> {
        self.owners.ticket(&self.table, t)
    }

    fn enqueue(&mut self, key: Key, t: Tid, prio: Prio, ticket: u64) {
        self.owners.enqueue(&mut self.table, key, t, prio, ticket);
    }

    fn dequeue(&mut self, key: Key, t: Tid) {
        self.owners.dequeue(&mut self.table, key, t);
    }

    fn set_ticket(&mut self, t: Tid, ticket: u64) {
        self.owners.set_ticket(&mut self.table, t, ticket);
    }

    fn hand_over(&mut self, key: Key) -> Tid {
        self.owners.hand_over(&mut self.table, key)
    }

    fn close(&mut self, m: MutexId, key: Key) {
        let row = self.owners.row(&self.table, key);
        self.owners.end(&self.table, key);
        self.buckets.forget_at(&mut self.table, m.get(), row);
    }

    fn park(&mut self, t: Tid, c: CondId, m: MutexId) {
        let ticket = take_ticket(&mut self.buckets, &mut self.table, &mut self.next);
        let prio = self.owners.local(&self.table, t).unwrap();
        self.buckets.park(&mut self.table, t, c, m, prio, ticket);
    }

    fn unpark(&mut self, t: Tid) {
        if self.buckets.ticket(&self.table, t).is_some() {
            self.buckets.unpark(&mut self.table, t);
        }
    }

    fn top_parked(&self, c: CondId) -> Option<Tid> {
        self.buckets.top_parked(&self.table, c)
    }

    fn nth_parked(&self, c: CondId, place: u32) -> Option<Tid> {
        self.buckets.nth_parked(&self.table, c, place)
    }

    fn match_requeue(&self, c: CondId, m: MutexId) -> bool {
        self.buckets.match_requeue(&self.table, c, m)
    }

    fn add(&mut self, t: Tid, prio: Prio) {
        self.queue.add(&mut self.table, t, prio);
    }

    fn take_out(&mut self, t: Tid) {
        self.queue.take_out(&mut self.table, t);
    }

    fn pick(&self) -> Option<Tid> {
        self.queue.pick(&self.table)
    }

    fn nth(&self, place: u32) -> Option<Tid> {
        self.queue.nth(&self.table, place)
    }

    fn walk(&mut self, start: Tid) {
        let walked = walk_to(&mut self.owners, &mut self.queue, &mut self.table, start);
        rerank(&self.owners, &mut self.buckets, &mut self.table, walked.1);
    }

    fn would_close(&self, t: Tid, owner: Tid) -> bool {
        would_close(&self.owners, &self.table, t, owner)
    }

    fn path(&self, start: Tid) -> ArrayVec<Tid, 1024> {
        path(&self.owners, &self.table, start)
    }
}

/// Takes the next ticket of a parked thread, which goes up by one. At the last one the tickets of the parked threads
/// are renumbered from 1 first, in their order.
fn take_ticket(buckets: &mut Buckets, table: &mut NodeTable, next: &mut u64) -> u64
    requires holds { HoldsBuckets buckets.old table.old }
    requires few { buckets.old.parked.threads ≤ 1024 }
    requires numbered { AreParked (parked_at buckets.old.parked table.old) buckets.old.parked.threads next.old }
    ensures next { next.new ≡ result + 1 }
    ensures numbered { AreParked (parked_at buckets.new.parked table.new) buckets.old.parked.threads result }
    ensures order { parkings_in buckets.new.parked table.new ≡ parkings_in buckets.old.parked table.old }
    ensures same { (u : ℕ) → parked_with_ticket 0 (parked_at buckets.new.parked table.new u)
        ≡ parked_with_ticket 0 (parked_at buckets.old.parked table.old u) }
    ensures words { (w : ℕ) → found_in buckets.new.entries table.new w ≡ found_in buckets.old.entries table.old w }
    ensures place { buckets.new ≡ buckets.old }
    ensures outside { KeepsOthers buckets.old.parked.first_list buckets.old.parked.conds buckets.old.parked.first_node
        buckets.old.parked.threads table.old table.new }
    ensures holds { HoldsBuckets buckets.new table.new }
{
    let ticket = free_ticket(buckets, table, *next);
    *next = ticket + 1;
    ticket
}

/// A ticket above those of all parked threads and below the last one: `next`, which is above them. If that is the last
/// one, the tickets of the parked threads are renumbered from 1 first, in their order.
fn free_ticket(buckets: &mut Buckets, table: &mut NodeTable, next: u64) -> u64
    requires holds { HoldsBuckets buckets.old table.old }
    requires few { buckets.old.parked.threads ≤ 1024 }
    requires numbered { AreParked (parked_at buckets.old.parked table.old) buckets.old.parked.threads next }
    ensures last { result < 18446744073709551615 }
    ensures numbered { AreParked (parked_at buckets.new.parked table.new) buckets.old.parked.threads result }
    ensures order { parkings_in buckets.new.parked table.new ≡ parkings_in buckets.old.parked table.old }
    ensures same { (u : ℕ) → parked_with_ticket 0 (parked_at buckets.new.parked table.new u)
        ≡ parked_with_ticket 0 (parked_at buckets.old.parked table.old u) }
    ensures words { (w : ℕ) → found_in buckets.new.entries table.new w ≡ found_in buckets.old.entries table.old w }
    ensures place { buckets.new ≡ buckets.old }
    ensures outside { KeepsOthers buckets.old.parked.first_list buckets.old.parked.conds buckets.old.parked.first_node
        buckets.old.parked.threads table.old table.new }
    ensures holds { HoldsBuckets buckets.new table.new }
{
    if next == u64::MAX {
        buckets.renumber(table)
    } else {
        next
    }
}

/// Gives the thread `t`, if it is parked, its effective priority among those that are parked on its variable, with the
/// ticket that it has. All else stays as it was.
fn rerank(owners: &RtMutexes, buckets: &mut Buckets, table: &mut NodeTable, t: Tid)
    requires holds { HoldsBuckets buckets.old table.old }
    requires admitted { IsSome (parked_at buckets.old.parked table.old t) → 1 ≤ local_of (owners_in owners.now table.old) t }
    ensures changed { (u : ℕ) → parked_at buckets.new.parked table.new u
        ≡ (if u == t then parked_with_prio (local_of (owners_in owners.now table.old) t) (parked_at buckets.old.parked table.old u)
        else parked_at buckets.old.parked table.old u) }
    ensures words { (w : ℕ) → found_in buckets.new.entries table.new w ≡ found_in buckets.old.entries table.old w }
    ensures place { buckets.new ≡ record buckets.old {
      parked = record buckets.old.parked { differing = buckets.new.parked.differing };
    } }
    ensures outside { KeepsOthers buckets.old.parked.first_list buckets.old.parked.conds buckets.old.parked.first_node
        buckets.old.parked.threads table.old table.new }
    ensures holds { HoldsBuckets buckets.new table.new }
{
    if buckets.ticket(table, t).is_some() {
        let prio = owners.local(table, t).unwrap();
        buckets.rekey(table, t, prio);
    }
}
