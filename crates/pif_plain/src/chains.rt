ghost use Rattle.std.specs.Prelude.{◌≡◌};

use crate::chain_walk::walk;
use crate::cycles::would_close;
use crate::paths::path;
use crate::plain_rows::{Priorities, Rows};
use arrayvec::ArrayVec;
use pif_kernel::{Chains, KernelOn};
use pif_kernel_model::Key;
use pif_nodes::NodeTable;
use pif_plain_rtmutex::RtMutexes;
use pif_runq::{LEVELS, RunQueue};
use pif_types::{CondId, MutexId, NoMemory, Prio, Tid};
use std::alloc::Global;
use std::marker::Model;

/// Chains whose calls look at every thread. Only the run queue stands in a table of nodes.
#[derive(Drop)]
pub struct PlainChains {
    owners: RtMutexes,
    queue: RunQueue,
    table: NodeTable,
    rows: Rows,
}

/// A kernel on plain chains.
pub type PlainKernel = KernelOn<PlainChains>;

impl Model for PlainChains {
    ghost use Rattle.std.specs.Prelude.{◌≤◌, ◌+◌, length};
    ghost use Rattle.pif_nodes_model.specs.Levels.{Holds};
    ghost use Rattle.pif_kernel_model.specs.Chained.{Chained, chained_code};

    ghost Value = { Chained };

    ghost coded = { chained_code };

    ghost view = { λ c. record { owners = c.owners; queue = c.queue; table = c.table; keys = c.rows.keys; parked = c.rows.parked } };

    ghost invariant = { λ c. record { holds : Holds c.queue c.table; room : length c.owners.seats ≤ c.rows.room + 1 } };
}

impl Priorities for PlainChains {
    ghost use Rattle.pif_kernel_model.specs.Boosts.{local_of};

    ghost priority_of = { λ c. local_of c.owners };

    fn priority(&self, t: Tid) -> u32 {
        match self.owners.local(t) {
            Some(prio) => prio.get(),
            None => 0,
        }
    }
}

impl Chains for PlainChains {
    ghost seen = { λ c. c };

    fn new(alloc: Global, threads: u32, _first_ticket: u64) -> Result<Self, NoMemory> {
        let owners = RtMutexes::new(alloc, threads)?;
        let table = NodeTable::new(alloc, threads, LEVELS)?;
        let queue = RunQueue::new(0, 0, threads);
        let rows = Rows::new(alloc, threads)?;
        Ok(PlainChains {
            owners,
            queue,
            table,
            rows,
        })
    }

    fn admit(&mut self, t: Tid, prio: Prio) {
        self.owners.admit(t, prio);
    }

    fn base(&self, t: Tid) -> Option<Prio> {
        self.owners.base(t)
    }

    fn set_base(&mut self, t: Tid, prio: Prio) {
        self.owners.set_base(t, prio);
    }

    fn local(&self, t: Tid) -> Option<Prio> {
        self.owners.local(t)
    }

    fn find(&self, m: MutexId) -> Option<Key> {
        self.rows.key(m)
    }

    fn open(&mut self, m: MutexId, owner: Tid) -> Key {
        let key = self.owners.make(owner);
        self.rows.set_key(m, Some(key));
        key
    }

    fn owner(&self, key: Key) -> Tid {
        self.owners.owner(key)
    }

    fn top(&self, key: Key) -> Option<Tid> {
        self.owners.top(key)
    }

    fn behind(&self, t: Tid) -> Option<Tid> {
        self.owners.behind(t)
    }

    fn ticket(&self, t: Tid) -> Option<u64> {
        self.owners.ticket(t)
    }

    fn enqueue(&mut self, key: Key, t: Tid, prio: Prio, ticket: u64) {
        self.owners.enqueue(key, t, prio, ticket);
    }

    fn dequeue(&mut self, key: Key, t: Tid) {
        self.owners.dequeue(key, t);
    }

    fn set_ticket(&mut self, t: Tid, ticket: u64) {
        self.owners.set_ticket(t, ticket);
    }

    fn hand_over(&mut self, key: Key) -> Tid {
        self.owners.hand_over(key)
    }

    fn close(&mut self, m: MutexId, key: Key) {
        self.owners.end(key);
        self.rows.set_key(m, None);
    }

    fn park(&mut self, t: Tid, c: CondId, m: MutexId) {
        self.rows.park(t, c, m);
    }

    fn unpark(&mut self, t: Tid) {
        self.rows.unpark(t);
    }

    fn top_parked(&self, c: CondId) -> Option<Tid> {
        self.rows.top_parked(self, c)
    }

    fn nth_parked(&self, c: CondId, place: u32) -> Option<Tid> {
        self.rows.nth_parked(self, c, place)
    }

    fn match_requeue(&self, c: CondId, m: MutexId) -> bool {
        self.rows.match_requeue(c, m)
    }

    fn add(&mut self, t: Tid, prio: Prio) {
        self.queue.add(&mut self.table, t, prio);
    }

    fn take_out(&mut self, t: Tid) {
        self.queue.take_out(&mut self.table, t);
    }

    fn pick(&self) -> Option<Tid> {
        self.queue.pick(&self.table)
    }

    fn nth(&self, place: u32) -> Option<Tid> {
        self.queue.nth(&self.table, place)
    }

    fn walk(&mut self, start: Tid) {
        walk(&mut self.owners, &mut self.queue, &mut self.table, start);
    }

    fn would_close(&self, t: Tid, owner: Tid) -> bool {
        would_close(&self.owners, t, owner)
    }

    fn path(&self, start: Tid) -> ArrayVec<Tid, 1024> {
        path(&self.owners, start)
    }
}
