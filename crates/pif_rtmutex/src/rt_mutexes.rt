ghost use Rattle.std.specs.Prelude.{◌≡◌, ◌≢◌, ℕ, ◌+◌, ◌*◌, ◌<◌, ◌≤◌, ◌^◌, ◌↔◌, length, IfOk, IfSome, IfNone, OnSome, IsSome, Some, None, option_map, unwrap_or, vec_capacity};
ghost use Rattle.std.specs.List.{range_with_len};
ghost use Rattle.std.specs.Option.{ForSome};
ghost use Rattle.std.specs.FinMap.{get};
ghost use Rattle.pif_model.specs.Graph.{Reaches};
ghost use Rattle.pif_nodes_model.specs.declared.keys.Key.{Key as RankSeen};
ghost use Rattle.pif_nodes_model.specs.Table.{NodeLists, holder, next_node};
ghost use Rattle.pif_kernel_model.specs.Owners.{no_owners, task_at, owner_at, count, waits_on, rank_of, WaitsFor, IsTop, HasNoWaiter, KeepsOrder, with_task, with_base, with_local, with_wait, with_prio, with_ticket, with_owner, without_state};
ghost use Rattle.pif_kernel_model.specs.States.{IsThread, empty_states, row_at, wait_of, wait_node, top_node, wait_list, top_list, waiter_for, first_waiter, owners_in, with_row, with_wait_on, with_owner_of};
ghost use Rattle.pif_kernel_model.specs.Holds.{HoldsWaiters, HoldsTops, IsToppedBut, HoldsStates, HasRoomForStates};
ghost use Rattle.pif_kernel_model.specs.Behind.{IsLast, IsBehind};
ghost use Rattle.pif_kernel_model.specs.Frames.{SameOutsideStates, ChangesTops, KeepsWaiterNodes};
ghost use Rattle.pif_rtmutex.specs.Maximum.{greatest_rank, maximum_of};
ghost use Rattle.pif_rtmutex.specs.Steps.{IsStored, IsStep};

use crate::priorities::ThreadPriorities;
use crate::rows::{NOBODY, Row, State, greater};
use pif_kernel_model::Key;
use pif_nodes::{List, Node, NodeTable};
use pif_plist::PList;
use pif_types::{NoMemory, Prio, Tid};
use slab::Slab;
use std::alloc::Global;
use std::marker::Model;

/// Owner states with their waiters, and a row for each thread (the RT-mutex design of Linux). A thread without a row
/// reads as one that was not admitted: its priorities are 0, and it waits for nothing.
#[derive(Drop)]
pub struct RtMutexes {
    first_list: u32,
    first_node: u32,
    threads: u32,
    rows: Vec<Row>,
    free: Vec<u32>,
    states: Slab<State>,
}

impl Model for RtMutexes {
    ghost use Rattle.std.specs.Prelude.{◌≡◌, ◌+◌, ◌*◌, ◌^◌, ◌<◌, ◌≤◌, length, vec_capacity};
    ghost use Rattle.pif_kernel_model.specs.States.{States, states_code};
    ghost use Rattle.pif_rtmutex.specs.Fields.{states_from, IsSpare};

    ghost Value = { States };

    ghost coded = { states_code };

    ghost view = { λ m. states_from m.first_list m.first_node m.threads m.rows.items m.free.items m.states };

    ghost invariant = { λ m. record {
      most : m.threads ≤ 1024;
      lists : m.first_list + 2 * m.threads < 2 ^ 32;
      nodes : m.first_node + 2 * m.threads < 2 ^ 32;
      rows : length m.rows.items ≡ m.threads + 1;
      room : m.threads ≤ m.states.capacity;
      stack : m.threads ≤ vec_capacity m.free;
      spare : IsSpare (states_from m.first_list m.first_node m.threads m.rows.items m.free.items m.states);
    } };
}

impl RtMutexes {
    /// No owner state, and a row for each of `threads` threads, at most 1,024, of which none is admitted. In its table
    /// the `2 * threads` lists from `first_list` on are its own, and so are as many nodes from `first_node` on: thread
    /// t as a waiter is the node `first_node + t - 1`, and as a top waiter the one `threads` behind. It takes three
    /// pieces of memory, which are enough for as many states as threads, and answers `NoMemory` if one is refused.
    pub fn new(
        alloc: Global,
        first_list: u32,
        first_node: u32,
        threads: u32,
    ) -> Result<RtMutexes, NoMemory>
        requires most { threads ≤ 1024 }
        requires lists { first_list + 2 * threads < 2 ^ 32 }
        requires nodes { first_node + 2 * threads < 2 ^ 32 }
        ensures place { IfOk result (λ m. m ≡ empty_states first_list first_node threads) }
        ensures made { IfOk result (λ m. (t : NodeLists) → owners_in m t ≡ no_owners threads) }
        ensures holds { IfOk result (λ m. (t : NodeLists) → HasRoomForStates m t → HoldsStates m t) }
    {
        let rows = vec![in alloc; NOBODY; threads as usize + 1].map_err(|_| NoMemory)?;
        let free = rows_below(alloc, threads)?;
        let states = Slab::with_capacity(alloc, threads as usize).map_err(|_| NoMemory)?;
        Ok(RtMutexes {
            first_list,
            first_node,
            threads,
            rows,
            free,
            states,
        })
    }

    /// How many threads have a row, at most 1,024.
    pub fn threads(&self) -> u32
        ensures value { result ≡ self.now.threads }
        ensures most { result ≤ 1024 }
    {
        self.threads
    }

    /// Gives the thread `t`, which waits for nothing, this base priority, which is its effective priority at first. All
    /// other threads and all states stay as they were.
    pub fn admit(&mut self, table: &NodeTable, t: Tid, prio: Prio)
        requires holds { HoldsStates self.old table.now }
        requires row { t < length (owners_in self.old table.now).seats }
        requires free { waits_on (owners_in self.old table.now) t ≡ None }
        ensures admitted { owners_in self.new table.now
            ≡ with_task t (record { base = prio; local = prio; wait = None }) (owners_in self.old table.now) }
        ensures place { self.new ≡ record self.old { rows = self.new.rows } }
        ensures holds { HoldsStates self.new table.now }
    {
        let row = Row {
            priorities: ThreadPriorities::of(prio),
            wait: None,
        };
        self.put(t, row);
    }

    /// The base priority of the thread `t`. `None` if it was given none.
    pub fn base(&self, table: &NodeTable, t: Tid) -> Option<Prio>
        ensures given { IsSome result ↔ (1 ≤ (task_at (owners_in self.now table.now) t).base) }
        ensures value { IfSome result (λ p. p ≡ (task_at (owners_in self.now table.now) t).base) }
        ensures most { (task_at (owners_in self.now table.now) t).base ≤ 99 }
    {
        let row = self.row_of(t.get());
        row.priorities.base()
    }

    /// Makes `prio` the base priority of the thread `t`. All else stays as it was, and so does all if `t` has no
    /// row.
    pub fn set_base(&mut self, table: &NodeTable, t: Tid, prio: Prio)
        requires holds { HoldsStates self.old table.now }
        ensures changed { owners_in self.new table.now ≡ with_base t prio (owners_in self.old table.now) }
        ensures place { self.new ≡ record self.old { rows = self.new.rows } }
        ensures holds { HoldsStates self.new table.now }
    {
        let row = self.row_of(t.get());
        let changed = Row {
            priorities: row.priorities.with_base(prio),
            wait: row.wait,
        };
        self.put(t, changed);
    }

    /// The effective priority of the thread `t` as it was last set. `None` if it was given none.
    pub fn local(&self, table: &NodeTable, t: Tid) -> Option<Prio>
        ensures given { IsSome result ↔ (1 ≤ (task_at (owners_in self.now table.now) t).local) }
        ensures value { IfSome result (λ p. p ≡ (task_at (owners_in self.now table.now) t).local) }
        ensures most { (task_at (owners_in self.now table.now) t).local ≤ 99 }
    {
        let row = self.row_of(t.get());
        row.priorities.local()
    }

    /// Makes `prio` the effective priority of the thread `t`. All else stays as it was, and so does all if `t` has
    /// no row.
    pub fn set_local(&mut self, table: &NodeTable, t: Tid, prio: Prio)
        requires holds { HoldsStates self.old table.now }
        ensures changed { owners_in self.new table.now ≡ with_local t prio (owners_in self.old table.now) }
        ensures place { self.new ≡ record self.old { rows = self.new.rows } }
        ensures holds { HoldsStates self.new table.now }
    {
        let row = self.row_of(t.get());
        let changed = Row {
            priorities: row.priorities.with_local(prio),
            wait: row.wait,
        };
        self.put(t, changed);
    }

    /// An owner state of `owner`, which has a row, on which nobody is queued, under a key that no other state has.
    /// There have to be fewer states than threads. It takes no memory, and all threads and all other states stay as
    /// they were, each state in its row.
    pub fn make(&mut self, table: &NodeTable, owner: Tid) -> Key
        requires holds { HoldsStates self.old table.now }
        requires owner { owner < length (owners_in self.old table.now).seats }
        requires room { count (owners_in self.old table.now) + 1 < length (owners_in self.old table.now).seats }
        ensures fresh { owner_at (owners_in self.old table.now) result ≡ None }
        ensures made { owners_in self.new table.now ≡ with_owner result owner (owners_in self.old table.now) }
        ensures count { count (owners_in self.new table.now) ≡ count (owners_in self.old table.now) + 1 }
        ensures free { HasNoWaiter (owners_in self.new table.now) result }
        ensures rows { (k r : ℕ) → get self.old.places k ≡ Some r → get self.new.places k ≡ Some r }
        ensures place { self.new
            ≡ record self.old { free = self.new.free; owners = self.new.owners; places = self.new.places } }
        ensures holds { HoldsStates self.new table.now }
    {
        let row = self.free.pop().unwrap();
        let number = self.states.insert_reserved(State::of(owner, row));
        Key::new(number)
    }

    /// The owner of a state, which has to be there.
    pub fn owner(&self, table: &NodeTable, key: Key) -> Tid
        requires { IsSome (owner_at (owners_in self.now table.now) key) }
        ensures value { owner_at (owners_in self.now table.now) key ≡ Some result }
    {
        self.state(key).owner
    }

    /// The row of a state, which has to be there: a number below that of threads, which no other state has.
    pub fn row(&self, table: &NodeTable, key: Key) -> u32
        requires holds { HoldsStates self.now table.now }
        requires state { IsSome (owner_at (owners_in self.now table.now) key) }
        ensures value { get self.now.places key ≡ Some result }
        ensures below { result < self.now.threads }
        ensures alone { (other : ℕ) → get self.now.places other ≡ Some result → other ≡ key }
    {
        self.state(key).row
    }

    /// The top waiter of a state: of those that are queued on it the one with the highest priority as last handed in,
    /// and of equal ones the one with the lowest ticket. `None` if nobody is queued on it.
    pub fn top(&self, table: &NodeTable, key: Key) -> Option<Tid>
        requires { HoldsStates self.now table.now }
        ensures none { IfNone result (HasNoWaiter (owners_in self.now table.now) key) }
        ensures top { IfSome result (λ t. IsTop (owners_in self.now table.now) key t) }
        ensures state { OnSome result (IsSome (owner_at (owners_in self.now table.now) key)) }
    {
        self.first(table, key)
    }

    /// The waiter that stands right behind the thread `t`, which is queued on a state, among those of that state.
    /// `None` if `t` is the last of them.
    pub fn behind(&self, table: &NodeTable, t: Tid) -> Option<Tid>
        requires holds { HoldsStates self.now table.now }
        requires queued { IsSome (waits_on (owners_in self.now table.now) t) }
        ensures last { IfNone result (IsLast (owners_in self.now table.now) t) }
        ensures behind { IfSome result (λ u. IsBehind (owners_in self.now table.now) t u) }
    {
        self.next_to(table, t)
    }

    /// The greater of the base priority of the thread `t` and of the priority of the first of its top waiters. `None`
    /// if it was given none, and nobody waits for it.
    pub fn maximum(&self, table: &NodeTable, t: Tid) -> Option<Prio>
        requires holds { HoldsStates self.now table.now }
        requires row { t < length (owners_in self.now table.now).seats }
        ensures { unwrap_or result 0 ≡ maximum_of (owners_in self.now table.now) t }
    {
        let row = self.row_of(t.get());
        greater(row.priorities.base(), self.greatest_top(table, t))
    }

    /// Queues the thread `t`, which waits for nothing, on a state, with this priority and ticket. The owner of the
    /// state may not be `t`, nor wait for it through any chain, and the node of `t` as a waiter has to be in no list.
    /// All other threads and all states stay as they were.
    pub fn enqueue(&mut self, table: &mut NodeTable, key: Key, t: Tid, prio: Prio, ticket: u64)
        requires holds { HoldsStates self.old table.old }
        requires node { holder table.old (wait_node self.old t) ≡ None }
        requires state { IsSome (owner_at (owners_in self.old table.old) key) }
        requires row { t < length (owners_in self.old table.old).seats }
        requires free { waits_on (owners_in self.old table.old) t ≡ None }
        requires no_cycle { (n : ℕ) → owner_at (owners_in self.old table.old) key ≡ Some n
            → Reaches (WaitsFor (owners_in self.old table.old)) n t → ⊥ }
        ensures queued { let rank : RankSeen = record { prio = prio; ticket = ticket } in
            owners_in self.new table.new ≡ with_wait t (Some (record { state = key; rank = rank })) (owners_in self.old table.old) }
        ensures place { self.new ≡ record self.old { rows = self.new.rows } }
        ensures outside { SameOutsideStates self.old table.old table.new }
        ensures nodes { KeepsWaiterNodes self.old t table.old table.new }
        ensures holds { HoldsStates self.new table.new }
    {
        let state = self.state(key);
        // Read before the waiters change, because `settle` has to find the one that stands among the owner's top
        // waiters, also if it isn't the first any more.
        let was = self.first_in(table, key, state);
        self.put_waiter(table, key, state, t, prio, ticket);
        self.settle(table, key, state, was);
    }

    /// Takes the thread `t` off the state on which it is queued. All other threads and all states stay as they were.
    pub fn dequeue(&mut self, table: &mut NodeTable, key: Key, t: Tid)
        requires holds { HoldsStates self.old table.old }
        requires queued { waits_on (owners_in self.old table.old) t ≡ Some key }
        ensures free { owners_in self.new table.new ≡ with_wait t None (owners_in self.old table.old) }
        ensures place { self.new ≡ record self.old { rows = self.new.rows } }
        ensures outside { SameOutsideStates self.old table.old table.new }
        ensures node { holder table.new (wait_node self.old t) ≡ None }
        ensures nodes { KeepsWaiterNodes self.old t table.old table.new }
        ensures holds { HoldsStates self.new table.new }
    {
        let state = self.state(key);
        let was = self.first_in(table, key, state);
        self.take_waiter(table, key, state, t);
        self.settle(table, key, state, was);
    }

    /// Gives the thread `t` another priority among the waiters of the state on which it is queued. It keeps its ticket,
    /// and all else stays as it was.
    pub fn rekey(&mut self, table: &mut NodeTable, key: Key, t: Tid, prio: Prio)
        requires holds { HoldsStates self.old table.old }
        requires queued { waits_on (owners_in self.old table.old) t ≡ Some key }
        ensures changed { owners_in self.new table.new ≡ with_prio t prio (owners_in self.old table.old) }
        ensures place { self.new ≡ self.old }
        ensures outside { SameOutsideStates self.old table.old table.new }
        ensures nodes { KeepsWaiterNodes self.old t table.old table.new }
        ensures holds { HoldsStates self.new table.new }
    {
        let state = self.state(key);
        let was = self.first_in(table, key, state);
        self.move_waiter(table, key, state, t, prio);
        self.settle(table, key, state, was);
    }

    /// The ticket with which the thread `t` is queued. `None` if it waits for nothing.
    pub fn ticket(&self, table: &NodeTable, t: Tid) -> Option<u64>
        requires { HoldsStates self.now table.now }
        ensures { result ≡ option_map (λ (r : RankSeen). r.ticket) (rank_of (owners_in self.now table.now) t) }
    {
        let _state = self.wait_of(t)?;
        Some(table.key(self.wait_node(t)).ticket)
    }

    /// Gives the thread `t`, which is queued on a state, another ticket, with which it stands among the other waiters
    /// of that state as before. It keeps its priority, and all else stays as it was.
    pub fn set_ticket(&mut self, table: &mut NodeTable, t: Tid, ticket: u64)
        requires holds { HoldsStates self.old table.old }
        requires queued { IsSome (waits_on (owners_in self.old table.old) t) }
        requires order { KeepsOrder (owners_in self.old table.old) t ticket }
        ensures changed { owners_in self.new table.new ≡ with_ticket t ticket (owners_in self.old table.old) }
        ensures place { self.new ≡ self.old }
        ensures outside { SameOutsideStates self.old table.old table.new }
        ensures nodes { KeepsWaiterNodes self.old t table.old table.new }
        ensures holds { HoldsStates self.new table.new }
    {
        if let Some(key) = self.wait_of(t) {
            let state = self.state(key);
            let node = self.wait_node(t);
            self.waiters(state).set_ticket(table, node, ticket);
        }
    }

    /// Hands a state on which somebody is queued to its top waiter, which waits no longer; the others wait for it now.
    /// Answers who that is. All other threads and states stay as they were.
    pub fn hand_over(&mut self, table: &mut NodeTable, key: Key) -> Tid
        requires holds { HoldsStates self.old table.old }
        requires waiter { (t : ℕ) × (waits_on (owners_in self.old table.old) t ≡ Some key) }
        ensures top { IsTop (owners_in self.old table.old) key result }
        ensures handed { owners_in self.new table.new
            ≡ with_owner key result (with_wait result None (owners_in self.old table.old)) }
        ensures place { self.new ≡ record self.old { rows = self.new.rows; owners = self.new.owners } }
        ensures outside { SameOutsideStates self.old table.old table.new }
        ensures node { holder table.new (wait_node self.old result) ≡ None }
        ensures nodes { KeepsWaiterNodes self.old result table.old table.new }
        ensures holds { HoldsStates self.new table.new }
    {
        let state = self.state(key);
        let next = self.first_in(table, key, state).unwrap();
        self.take_waiter(table, key, state, next);
        self.set_owner(key, state, next);
        // `state` still names the old owner, among whose top waiters `next` stands. The waiter after it goes to the new
        // owner's.
        self.retop(table, key, state, Some(next), next);
        next
    }

    /// Ends a state on which nobody is queued. All threads and all other states stay as they were, each state in its
    /// row.
    pub fn end(&mut self, table: &NodeTable, key: Key)
        requires holds { HoldsStates self.old table.now }
        requires state { IsSome (owner_at (owners_in self.old table.now) key) }
        requires free { HasNoWaiter (owners_in self.old table.now) key }
        ensures ended { owners_in self.new table.now ≡ without_state key (owners_in self.old table.now) }
        ensures count { count (owners_in self.new table.now) + 1 ≡ count (owners_in self.old table.now) }
        ensures rows { (k r : ℕ) → k ≢ key → get self.old.places k ≡ Some r → get self.new.places k ≡ Some r }
        ensures place { self.new
            ≡ record self.old { free = self.new.free; owners = self.new.owners; places = self.new.places } }
        ensures holds { HoldsStates self.new table.now }
    {
        let state = self.states.remove(key.get());
        self.free.push_reserved(state.row);
    }

    /// The state on which the thread `t` is queued. `None` if it waits for nothing.
    pub fn waits_on(&self, table: &NodeTable, t: Tid) -> Option<Key>
        requires { HoldsStates self.now table.now }
        ensures value { result ≡ waits_on (owners_in self.now table.now) t }
        ensures state { ForSome result (λ k. IsSome (owner_at (owners_in self.now table.now) k)) }
    {
        self.wait_of(t)
    }

    /// The first of the waiters of a state. `None` if it is not there, or nobody is queued on it.
    fn first(&self, table: &NodeTable, key: Key) -> Option<Tid>
        requires { HoldsWaiters self.now table.now }
        ensures { result ≡ first_waiter self.now table.now key }
    {
        let state = self.states.get(key.get())?;
        self.first_in(table, key, *state)
    }

    /// The first of the waiters of a state that has the row of `state`. `None` if nobody is queued on it.
    fn first_in(&self, table: &NodeTable, key: Key, state: State) -> Option<Tid>
        requires holds { HoldsWaiters self.now table.now }
        requires row { get self.now.places key ≡ Some state.row }
        ensures { result ≡ first_waiter self.now table.now key }
    {
        let node = self.waiters(state).top(table)?;
        Tid::new(node.get() - self.first_node + 1)
    }

    /// The thread of the node behind that of the thread `t` among the waiters of its state. `None` if `t` is the last.
    fn next_to(&self, table: &NodeTable, t: Tid) -> Option<Tid>
        requires holds { HoldsWaiters self.now table.now }
        requires queued { IsSome (waits_on (owners_in self.now table.now) t) }
        ensures { result ≡ option_map (waiter_for self.now) (next_node table.now (wait_node self.now t)) }
    {
        let node = table.next(self.wait_node(t))?;
        Tid::new(node.get() - self.first_node + 1)
    }

    /// What is stored of a state, which has to be there.
    fn state(&self, key: Key) -> State
        requires { IsSome (get self.now.owners key) }
        ensures { IsStored self.now key result }
    {
        self.states[key.get()]
    }

    /// The priority of the first of the top waiters of the thread `t`. `None` if it has none.
    fn greatest_top(&self, table: &NodeTable, t: Tid) -> Option<Prio>
        requires holds { HoldsStates self.now table.now }
        requires row { t ≤ self.now.threads }
        ensures { unwrap_or result 0 ≡ greatest_rank (owners_in self.now table.now) t }
    {
        let node = self.tops(t).top(table)?;
        Prio::new(table.key(node).prio)
    }

    /// The state on which a thread is queued. `None` if it waits for nothing.
    fn wait_of(&self, t: Tid) -> Option<Key>
        ensures { result ≡ wait_of self.now t }
    {
        self.row_of(t.get()).wait
    }

    /// The row of a thread.
    fn row_of(&self, t: u32) -> Row
        ensures { result ≡ row_at self.now t }
    {
        if (t as usize) < self.rows.len() {
            self.rows[t as usize]
        } else {
            NOBODY
        }
    }

    /// Makes `row` the row of a thread, if it has one.
    fn put(&mut self, t: Tid, row: Row)
        ensures row { self.new ≡ with_row t row self.old }
        ensures thread { 1 ≤ t }
    {
        let place = t.get() as usize;
        if place < self.rows.len() {
            self.rows[place] = row;
        }
    }

    /// Lets a thread wait on this state, or on none.
    fn set_wait(&mut self, t: Tid, wait: Option<Key>)
        ensures { self.new ≡ with_wait_on t wait self.old }
    {
        let row = self.row_of(t.get());
        let changed = Row {
            priorities: row.priorities,
            wait,
        };
        self.put(t, changed);
    }

    /// Makes `owner` the owner of a state that has the row of `state`.
    fn set_owner(&mut self, key: Key, state: State, owner: Tid)
        requires { get self.old.places key ≡ Some state.row }
        ensures { self.new ≡ with_owner_of key owner self.old }
    {
        self.states[key.get()] = State {
            owner,
            row: state.row,
        };
    }

    /// The list of the waiters of a state of which this is stored.
    fn waiters(&self, state: State) -> PList
        requires { state.row < self.now.threads }
        ensures { result ≡ wait_list self.now state.row }
    {
        PList::new(List::new(self.first_list + state.row))
    }

    /// The list of the top waiters of the thread `t`.
    fn tops(&self, t: Tid) -> PList
        requires { t ≤ self.now.threads }
        ensures list { result ≡ top_list self.now t }
        ensures thread { 1 ≤ t }
    {
        PList::new(List::new(self.first_list + self.threads + (t.get() - 1)))
    }

    /// The node of the thread `t` as a waiter.
    fn wait_node(&self, t: Tid) -> Node
        requires { t ≤ self.now.threads }
        ensures node { result ≡ wait_node self.now t }
        ensures thread { 1 ≤ t }
    {
        Node::new(self.first_node + (t.get() - 1))
    }

    /// The node of the thread `t` as a top waiter.
    fn top_node(&self, t: Tid) -> Node
        requires { t ≤ self.now.threads }
        ensures node { result ≡ top_node self.now t }
        ensures thread { 1 ≤ t }
    {
        Node::new(self.first_node + self.threads + (t.get() - 1))
    }

    /// Puts the thread `t`, which waits for nothing, among the waiters of a state of which `state` is stored, with this
    /// priority and ticket. The top waiters stay as they were.
    fn put_waiter(
        &mut self,
        table: &mut NodeTable,
        key: Key,
        state: State,
        t: Tid,
        prio: Prio,
        ticket: u64,
    )
        requires holds { HoldsStates self.old table.old }
        requires state { IsStored self.old key state }
        requires node { holder table.old (wait_node self.old t) ≡ None }
        requires row { t < length (owners_in self.old table.old).seats }
        requires free { waits_on (owners_in self.old table.old) t ≡ None }
        requires no_cycle { (n : ℕ) → owner_at (owners_in self.old table.old) key ≡ Some n
            → Reaches (WaitsFor (owners_in self.old table.old)) n t → ⊥ }
        ensures { let rank : RankSeen = record { prio = prio; ticket = ticket } in
            IsStep self.old self.new table.old table.new key state.owner t
            (with_wait t (Some (record { state = key; rank = rank })) (owners_in self.old table.old)) }
    {
        let node = self.wait_node(t);
        self.waiters(state).insert(table, node, prio.get(), ticket);
        self.set_wait(t, Some(key));
    }

    /// Takes the thread `t` out from among the waiters of a state of which `state` is stored. The top waiters stay as
    /// they were.
    fn take_waiter(&mut self, table: &mut NodeTable, key: Key, state: State, t: Tid)
        requires holds { HoldsStates self.old table.old }
        requires state { IsStored self.old key state }
        requires queued { waits_on (owners_in self.old table.old) t ≡ Some key }
        ensures node { holder table.new (wait_node self.old t) ≡ None }
        ensures step { IsStep self.old self.new table.old table.new key state.owner t
            (with_wait t None (owners_in self.old table.old)) }
    {
        let node = self.wait_node(t);
        self.waiters(state).remove(table, node);
        self.set_wait(t, None);
    }

    /// Gives the thread `t` another priority among the waiters of a state of which `state` is stored. The top waiters
    /// stay as they were.
    fn move_waiter(&self, table: &mut NodeTable, key: Key, state: State, t: Tid, prio: Prio)
        requires holds { HoldsStates self.now table.old }
        requires state { IsStored self.now key state }
        requires queued { waits_on (owners_in self.now table.old) t ≡ Some key }
        ensures { IsStep self.now self.now table.old table.new key state.owner t
            (with_prio t prio (owners_in self.now table.old)) }
    {
        let node = self.wait_node(t);
        self.waiters(state).rekey(table, node, prio.get());
    }

    /// Lets the top waiter of a state of which `state` is stored stand among those of its owner, after its waiters
    /// changed. Before that, `was` was its top waiter, and stood there. Little is to do if it still is.
    fn settle(&self, table: &mut NodeTable, key: Key, state: State, was: Option<Tid>)
        requires waiters { HoldsWaiters self.now table.old }
        requires state { IsStored self.now key state }
        requires but { IsToppedBut self.now table.old key state.owner was }
        ensures changes { ChangesTops self.now table.old table.new }
        ensures tops { HoldsTops self.now table.new }
    {
        if self.first_in(table, key, state) == was {
            self.rerank(table, key, state.owner, was);
        } else {
            self.retop(table, key, state, was, state.owner);
        }
    }

    /// Gives `first`, the top waiter of a state, which stands among those of its owner, the priority there with which
    /// it waits.
    fn rerank(&self, table: &mut NodeTable, key: Key, owner: Tid, first: Option<Tid>)
        requires waiters { HoldsWaiters self.now table.old }
        requires owner { get self.now.owners key ≡ Some owner }
        requires but { IsToppedBut self.now table.old key owner first }
        requires first { first_waiter self.now table.old key ≡ first }
        ensures changes { ChangesTops self.now table.old table.new }
        ensures tops { HoldsTops self.now table.new }
    {
        if let Some(t) = first {
            let prio = table.key(self.wait_node(t)).prio;
            let node = self.top_node(t);
            if table.key(node).prio != prio {
                self.tops(owner).rekey(table, node, prio);
            }
        }
    }

    /// Takes `was`, which stands among the top waiters of the owner that `state` has for a state, out from there, and
    /// puts the top waiter of the state among those of `to`, which owns it now. The state has the row of `state`.
    fn retop(&self, table: &mut NodeTable, key: Key, state: State, was: Option<Tid>, to: Tid)
        requires waiters { HoldsWaiters self.now table.old }
        requires row { get self.now.places key ≡ Some state.row }
        requires to { get self.now.owners key ≡ Some to }
        requires owner { IsThread self.now state.owner }
        requires but { IsToppedBut self.now table.old key state.owner was }
        ensures changes { ChangesTops self.now table.old table.new }
        ensures tops { HoldsTops self.now table.new }
    {
        self.take_top(table, key, state.owner, was);
        let first = self.first_in(table, key, state);
        self.put_top(table, key, to, first);
    }

    /// Takes `was`, which stands among the top waiters of `owner` for a state, out from there. Nobody stands anywhere
    /// for that state then.
    fn take_top(&self, table: &mut NodeTable, key: Key, owner: Tid, was: Option<Tid>)
        requires waiters { HoldsWaiters self.now table.old }
        requires owner { IsThread self.now owner }
        requires but { IsToppedBut self.now table.old key owner was }
        ensures changes { ChangesTops self.now table.old table.new }
        ensures but { (p : ℕ) → IsToppedBut self.now table.new key p None }
    {
        if let Some(t) = was {
            let node = self.top_node(t);
            self.tops(owner).remove(table, node);
        }
    }

    /// Puts `first`, the top waiter of a state, for which nobody stands anywhere, among those of `to`, which owns it.
    fn put_top(&self, table: &mut NodeTable, key: Key, to: Tid, first: Option<Tid>)
        requires waiters { HoldsWaiters self.now table.old }
        requires to { get self.now.owners key ≡ Some to }
        requires but { IsToppedBut self.now table.old key to None }
        requires first { first ≡ first_waiter self.now table.old key }
        ensures changes { ChangesTops self.now table.old table.new }
        ensures tops { HoldsTops self.now table.new }
    {
        if let Some(t) = first {
            let prio = table.key(self.wait_node(t)).prio;
            let node = self.top_node(t);
            // No ticket: only the greatest priority of the top waiters is asked, so that equals may stand in any order.
            self.tops(to).insert(table, node, prio, 0);
        }
    }
}

/// The rows below `threads`, the greatest last.
fn rows_below(alloc: Global, threads: u32) -> Result<Vec<u32>, NoMemory>
    ensures items { IfOk result (λ free. free.items ≡ range_with_len 0 threads) }
    ensures room { IfOk result (λ free. threads ≤ vec_capacity free) }
{
    let mut free = Vec::with_capacity(alloc, threads as usize).map_err(|_| NoMemory)?;
    for row in 0..threads {
        free.push_reserved(row);
    }
    Ok(free)
}
