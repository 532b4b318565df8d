//! The owner states, and a row for each thread, each of which `top` and `behind` look at.
ghost use Rattle.std.specs.Prelude.{◌≡◌, ◌≢◌, ℕ, ◌+◌, ◌<◌, ◌≤◌, ◌↔◌, length, IfOk, IfSome, IfNone, OnSome, IsSome, Some, None, option_map};
ghost use Rattle.std.specs.Option.{ForSome};
ghost use Rattle.pif_model.specs.Graph.{Reaches};
ghost use Rattle.pif_nodes_model.specs.declared.keys.Key.{Key as RankSeen};
ghost use Rattle.pif_kernel_model.specs.Owners.{no_owners, task_at, owner_at, count, waits_on, rank_of, WaitsFor, IsAcyclic, AreSoundOwners, IsTop, HasNoWaiter, KeepsOrder, with_task, with_base, with_local, with_wait, with_prio, with_ticket, with_owner, without_state};
ghost use Rattle.pif_kernel_model.specs.Behind.{IsLast, IsBehind};
ghost use Rattle.pif_plain_rtmutex.specs.Standing.{standing, standing_behind};

use crate::rows::{NOBODY, Row, Wait};
use crate::standing::leads;
use pif_kernel_model::Key;
use pif_nodes::Key as Rank;
use pif_plist::precedes;
use pif_rtmutex::ThreadPriorities;
use pif_types::{NoMemory, Prio, Tid};
use slab::Slab;
use std::alloc::Global;
use std::marker::Model;

/// Owner states with their waiters, and a row for each thread (the RT-mutex design of Linux). A thread without a row
/// reads as one that was not admitted: its priorities are 0, and it waits for nothing.
#[derive(Drop)]
pub struct RtMutexes {
    rows: Vec<Row>,
    owners: Slab<Tid>,
}

impl Model for RtMutexes {
    ghost use Rattle.std.specs.Prelude.{◌+◌, ◌≤◌, length};
    ghost use Rattle.pif_kernel_model.specs.Owners.{Owners, owners_code, AreSoundOwners};
    ghost use Rattle.pif_plain_rtmutex.specs.StateFields.{owners_from};

    ghost Value = { Owners };

    ghost coded = { owners_code };

    ghost view = { λ m. owners_from m.rows.items m.owners };

    ghost invariant = { λ m. record {
      room : length m.rows.items ≤ m.owners.capacity + 1;
      sound : AreSoundOwners (owners_from m.rows.items m.owners);
    } };
}

impl RtMutexes {
    /// No owner state, and a row for each of `threads` threads, at most 1,024, of which none is admitted. It takes two
    /// pieces of memory, which are enough for as many states as threads, and answers `NoMemory` if one is refused.
    pub fn new(alloc: Global, threads: u32) -> Result<RtMutexes, NoMemory>
        requires { threads ≤ 1024 }
        ensures made { IfOk result (λ m. m ≡ no_owners threads) }
    {
        let rows = vec![in alloc; NOBODY; threads as usize + 1].map_err(|_| NoMemory)?;
        let owners = Slab::with_capacity(alloc, threads as usize).map_err(|_| NoMemory)?;
        Ok(RtMutexes { rows, owners })
    }

    /// How many threads have a row, at most 1,024.
    pub fn threads(&self) -> u32
        ensures value { result + 1 ≡ length self.now.seats }
        ensures most { result ≤ 1024 }
        ensures sound { AreSoundOwners self.now }
    {
        self.rows.len() as u32 - 1
    }

    /// Gives the thread `t`, which waits for nothing, this base priority, which is its effective priority at first. All
    /// other threads and all states stay as they were.
    pub fn admit(&mut self, t: Tid, prio: Prio)
        requires row { t < length self.old.seats }
        requires free { waits_on self.old t ≡ None }
        ensures admitted { self.new ≡ with_task t (record { base = prio; local = prio; wait = None }) self.old }
        ensures acyclic { IsAcyclic self.new }
    {
        let row = Row {
            priorities: ThreadPriorities::of(prio),
            wait: None,
        };
        self.put(t, row);
    }

    /// The base priority of the thread `t`. `None` if it was given none.
    pub fn base(&self, t: Tid) -> Option<Prio>
        ensures given { IsSome result ↔ (1 ≤ (task_at self.now t).base) }
        ensures value { IfSome result (λ p. p ≡ (task_at self.now t).base) }
        ensures most { (task_at self.now t).base ≤ 99 }
    {
        let known = self.row(t.get());
        known.priorities.base()
    }

    /// Makes `prio` the base priority of the thread `t`. All else stays as it was, and so does all if `t` has no
    /// row.
    pub fn set_base(&mut self, t: Tid, prio: Prio)
        ensures changed { self.new ≡ with_base t prio self.old }
        ensures acyclic { IsAcyclic self.new }
    {
        let known = self.row(t.get());
        let changed = Row {
            priorities: known.priorities.with_base(prio),
            wait: known.wait,
        };
        self.put(t, changed);
    }

    /// The effective priority of the thread `t` as it was last set. `None` if it was given none.
    pub fn local(&self, t: Tid) -> Option<Prio>
        ensures given { IsSome result ↔ (1 ≤ (task_at self.now t).local) }
        ensures value { IfSome result (λ p. p ≡ (task_at self.now t).local) }
        ensures most { (task_at self.now t).local ≤ 99 }
    {
        let known = self.row(t.get());
        known.priorities.local()
    }

    /// Makes `prio` the effective priority of the thread `t`. All else stays as it was, and so does all if `t` has
    /// no row.
    pub fn set_local(&mut self, t: Tid, prio: Prio)
        ensures changed { self.new ≡ with_local t prio self.old }
        ensures acyclic { IsAcyclic self.new }
    {
        let known = self.row(t.get());
        let changed = Row {
            priorities: known.priorities.with_local(prio),
            wait: known.wait,
        };
        self.put(t, changed);
    }

    /// An owner state of `owner` on which nobody is queued, under a key that no other state has. There have to be fewer
    /// states than threads. It takes no memory, and all threads and all other states stay as they were.
    pub fn make(&mut self, owner: Tid) -> Key
        requires room { count self.old + 1 < length self.old.seats }
        ensures fresh { owner_at self.old result ≡ None }
        ensures made { self.new ≡ with_owner result owner self.old }
        ensures count { count self.new ≡ count self.old + 1 }
        ensures free { HasNoWaiter self.new result }
        ensures acyclic { IsAcyclic self.new }
    {
        Key::new(self.owners.insert_reserved(owner))
    }

    /// The owner of a state, which has to be there.
    pub fn owner(&self, key: Key) -> Tid
        requires { IsSome (owner_at self.now key) }
        ensures value { owner_at self.now key ≡ Some result }
    {
        self.owners[key.get()]
    }

    /// The top waiter of a state: of those that are queued on it the one with the highest priority as last handed in,
    /// and of equal ones the one with the lowest ticket. `None` if nobody is queued on it.
    pub fn top(&self, key: Key) -> Option<Tid>
        ensures none { IfNone result (HasNoWaiter self.now key) }
        ensures top { IfSome result (λ t. IsTop self.now key t) }
        ensures state { OnSome result (IsSome (owner_at self.now key)) }
    {
        let mut first = 0;
        for t in 0..self.rows.len() as u32 {
            if leads(self.standing(key, t), self.standing(key, first)) {
                first = t;
            }
        }
        Tid::new(first)
    }

    /// The waiter that stands right behind the thread `t`, which is queued on a state, among those of that state.
    /// `None` if `t` is the last of them.
    pub fn behind(&self, t: Tid) -> Option<Tid>
        requires { IsSome (waits_on self.now t) }
        ensures last { IfNone result (IsLast self.now t) }
        ensures behind { IfSome result (λ u. IsBehind self.now t u) }
    {
        let mut first = 0;
        for u in 0..self.rows.len() as u32 {
            if leads(self.standing_behind(t, u), self.standing_behind(t, first)) {
                first = u;
            }
        }
        Tid::new(first)
    }

    /// Queues the thread `t`, which waits for nothing, on a state, with this priority and ticket. The owner of the
    /// state may not be `t`, nor wait for it through any chain. All other threads and all states stay as they were.
    pub fn enqueue(&mut self, key: Key, t: Tid, prio: Prio, ticket: u64)
        requires state { IsSome (owner_at self.old key) }
        requires row { t < length self.old.seats }
        requires free { waits_on self.old t ≡ None }
        requires no_cycle { (n : ℕ) → owner_at self.old key ≡ Some n → Reaches (WaitsFor self.old) n t → ⊥ }
        ensures queued { let rank : RankSeen = record { prio = prio; ticket = ticket } in
            self.new ≡ with_wait t (Some (record { state = key; rank = rank })) self.old }
        ensures acyclic { IsAcyclic self.new }
    {
        let rank = Rank {
            prio: prio.get(),
            ticket,
        };
        self.set_wait(t, Some(Wait { state: key, rank }));
    }

    /// Takes the thread `t` off the state on which it is queued. All other threads and all states stay as they were.
    pub fn dequeue(&mut self, key: Key, t: Tid)
        requires { waits_on self.old t ≡ Some key }
        ensures free { self.new ≡ with_wait t None self.old }
        ensures acyclic { IsAcyclic self.new }
    {
        self.set_wait(t, None);
    }

    /// Gives the thread `t` another priority among the waiters of the state on which it is queued. It keeps its ticket,
    /// and all else stays as it was.
    pub fn rekey(&mut self, key: Key, t: Tid, prio: Prio)
        requires { waits_on self.old t ≡ Some key }
        ensures changed { self.new ≡ with_prio t prio self.old }
        ensures acyclic { IsAcyclic self.new }
    {
        if let Some(wait) = self.row(t.get()).wait {
            let rank = Rank {
                prio: prio.get(),
                ticket: wait.rank.ticket,
            };
            let changed = Wait {
                state: wait.state,
                rank,
            };
            self.set_wait(t, Some(changed));
        }
    }

    /// The ticket with which the thread `t` is queued. `None` if it waits for nothing.
    pub fn ticket(&self, t: Tid) -> Option<u64>
        ensures value { result ≡ option_map (λ (r : RankSeen). r.ticket) (rank_of self.now t) }
    {
        let wait = self.row(t.get()).wait?;
        Some(wait.rank.ticket)
    }

    /// Gives the thread `t`, which is queued on a state, another ticket, with which it stands among the other waiters
    /// of that state as before. It keeps its priority, and all else stays as it was.
    pub fn set_ticket(&mut self, t: Tid, ticket: u64)
        requires queued { IsSome (waits_on self.old t) }
        requires order { KeepsOrder self.old t ticket }
        ensures changed { self.new ≡ with_ticket t ticket self.old }
        ensures acyclic { IsAcyclic self.new }
    {
        if let Some(wait) = self.row(t.get()).wait {
            let rank = Rank {
                prio: wait.rank.prio,
                ticket,
            };
            let changed = Wait {
                state: wait.state,
                rank,
            };
            self.set_wait(t, Some(changed));
        }
    }

    /// Hands a state on which somebody is queued to its top waiter, which waits no longer; the others wait for it now.
    /// Answers who that is. All other threads and states stay as they were.
    pub fn hand_over(&mut self, key: Key) -> Tid
        requires waiter { (t : ℕ) × (waits_on self.old t ≡ Some key) }
        ensures top { IsTop self.old key result }
        ensures handed { self.new ≡ with_owner key result (with_wait result None self.old) }
        ensures acyclic { IsAcyclic self.new }
    {
        match self.top(key) {
            Some(next) => {
                self.set_wait(next, None);
                self.set_owner(key, next);
                next
            }
            None => unreachable!(),
        }
    }

    /// Ends a state on which nobody is queued. All threads and all other states stay as they were.
    pub fn end(&mut self, key: Key)
        requires state { IsSome (owner_at self.old key) }
        requires free { HasNoWaiter self.old key }
        ensures ended { self.new ≡ without_state key self.old }
        ensures count { count self.new + 1 ≡ count self.old }
        ensures acyclic { IsAcyclic self.new }
    {
        self.owners.remove(key.get());
    }

    /// The state on which the thread `t` is queued. `None` if it waits for nothing.
    pub fn waits_on(&self, t: Tid) -> Option<Key>
        ensures value { result ≡ waits_on self.now t }
        ensures state { ForSome result (λ k. IsSome (owner_at self.now k)) }
        ensures acyclic { IsAcyclic self.now }
    {
        let wait = self.row(t.get()).wait?;
        Some(wait.state)
    }

    /// The row of a thread.
    fn row(&self, t: u32) -> Row
        ensures value { result ≡ task_at self.now t }
        ensures sound { AreSoundOwners self.now }
    {
        if (t as usize) < self.rows.len() {
            self.rows[t as usize]
        } else {
            NOBODY
        }
    }

    /// Makes `row` the row of a thread, if it has one.
    fn put(&mut self, t: Tid, row: Row)
        requires { 1 ≤ t → AreSoundOwners self.old → AreSoundOwners (with_task t row self.old) }
        ensures put { self.new ≡ with_task t row self.old }
        ensures sound { AreSoundOwners self.new }
    {
        let place = t.get() as usize;
        if place < self.rows.len() {
            self.rows[place] = row;
        }
    }

    /// Lets a thread wait for this, or for nothing.
    fn set_wait(&mut self, t: Tid, wait: Option<Wait>)
        requires { 1 ≤ t → AreSoundOwners self.old → AreSoundOwners (with_wait t wait self.old) }
        ensures put { self.new ≡ with_wait t wait self.old }
        ensures sound { AreSoundOwners self.new }
    {
        let known = self.row(t.get());
        let changed = Row {
            priorities: known.priorities,
            wait,
        };
        self.put(t, changed);
    }

    /// Makes `owner` the owner of a state.
    fn set_owner(&mut self, key: Key, owner: Tid)
        requires state { IsSome (owner_at self.old key) }
        requires sound { AreSoundOwners self.old → AreSoundOwners (with_owner key owner self.old) }
        ensures put { self.new ≡ with_owner key owner self.old }
        ensures sound { AreSoundOwners self.new }
    {
        self.owners[key.get()] = owner;
    }

    /// The rank with which a thread stands among the waiters of a state. `None` if it doesn't wait there.
    fn standing(&self, key: Key, t: u32) -> Option<Rank>
        ensures { result ≡ standing self.now key t }
    {
        match self.row(t).wait {
            Some(wait) if wait.state == key => Some(wait.rank),
            _ => None,
        }
    }

    /// The rank with which a thread stands behind the thread `t` among the waiters of its state. `None` if it
    /// doesn't stand behind it.
    fn standing_behind(&self, t: Tid, u: u32) -> Option<Rank>
        ensures { result ≡ standing_behind self.now t u }
    {
        let wait = self.row(t.get()).wait?;
        match self.standing(wait.state, u) {
            Some(rank) if precedes(wait.rank, rank) => Some(rank),
            _ => None,
        }
    }
}
