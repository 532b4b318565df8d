ghost use Rattle.std.specs.Prelude.{◌≡◌, ◌≤◌, ◌<◌, ◌==◌, true, length, if◌then◌else◌, Some, None, IfOk};
ghost use Rattle.pif_model.specs.PiKernel.{seat_at, has_seat, is_living, effective_in, pick_in, new_kernel};
ghost use Rattle.pif_kernel_model.specs.Inside.{IsSoundInside, kernel_of, state_key_at};

use crate::chains::Chains;
use pif_kernel_model::Key;
use pif_model::{Status, Woken};
use pif_types::{Limits, MutexId, NoMemory, Prio, Tid, push_within, with_room};
use std::alloc::Global;
use std::marker::Model;

/// What a kernel keeps: the status of each thread, and chains, with the owner states, the parked threads and the run
/// queue. Who is queued where, in order of tickets, is what the statuses and the tickets in the owner states say; no
/// list of that is kept.
#[derive(Drop)]
pub struct Parts<C: Chains + Drop> {
    pub(crate) limits: Limits,
    pub(crate) statuses: Vec<Status>,
    pub(crate) chains: C,
    pub(crate) next: u64,
}

impl<C: Chains + Drop> Model for Parts<C> {
    ghost use Rattle.std.specs.Prelude.{◌≤◌, ◌+◌, vec_capacity};
    ghost use Rattle.pif_kernel_model.specs.Inside.{Inside as InsideSeen};
    ghost use Rattle.pif_kernel_model.specs.Codes.{inside_code};
    ghost use Rattle.pif_kernel_model.specs.Fields.{inside_from};

    ghost Value = { InsideSeen };

    ghost coded = { inside_code };

    ghost view = { λ p. inside_from p.limits p.statuses.items (C.seen p.chains) p.next };

    ghost invariant = { λ p. p.limits.threads + 1 ≤ vec_capacity p.statuses };
}

impl<C: Chains + Drop> Parts<C> {
    /// The parts of a kernel to which nothing was added, whose first ticket is `first_ticket`, at least 1. It takes all
    /// the memory that it will ever need.
    pub fn new(alloc: Global, limits: Limits, first_ticket: u64) -> Result<Parts<C>, NoMemory>
        requires { 1 ≤ first_ticket }
        ensures made { IfOk result (λ p. kernel_of p ≡ new_kernel limits) }
        ensures ticket { IfOk result (λ p. p.next ≡ first_ticket) }
        ensures sound { IfOk result (λ p. IsSoundInside p) }
    {
        let threads = limits.threads();
        let mut statuses = with_room(alloc, threads as usize + 1)?;
        push_within(&mut statuses, Status::Ready(Woken::Fresh));
        let chains = C::new(alloc, threads, first_ticket)?;
        Ok(Parts {
            limits,
            statuses,
            chains,
            next: first_ticket,
        })
    }

    /// The status of a thread.
    pub fn status(&self, t: Tid) -> Status
        requires sound { IsSoundInside self.now }
        requires added { has_seat (kernel_of self.now) t ≡ true }
        ensures { result ≡ (seat_at (kernel_of self.now) t).status }
    {
        self.statuses[t.get() as usize]
    }

    /// Whether a thread lives: it was added, and has not ended.
    pub fn lives(&self, t: Tid) -> bool
        requires { IsSoundInside self.now }
        ensures { result ≡ is_living (kernel_of self.now) t }
    {
        match self.statuses.get(t.get() as usize) {
            Some(status) => !matches!(*status, Status::Ended),
            None => false,
        }
    }

    /// The effective priority of a thread. `None` if it doesn't live.
    pub fn effective(&self, t: Tid) -> Option<Prio>
        requires { IsSoundInside self.now }
        ensures { result ≡ (if is_living (kernel_of self.now) t then Some (effective_in (kernel_of self.now) t) else None) }
    {
        if self.lives(t) {
            self.chains.local(t)
        } else {
            None
        }
    }

    /// The first thread of the greatest level that has one. `None` if no level has a thread.
    pub fn pick(&self) -> Option<Tid>
        requires { IsSoundInside self.now }
        ensures { result ≡ (if pick_in (kernel_of self.now) == 0 then None else Some (pick_in (kernel_of self.now))) }
    {
        self.chains.pick()
    }

    /// The key of the owner state of a mutex. `None` if it has none.
    pub fn key(&self, m: MutexId) -> Option<Key>
        ensures { result ≡ state_key_at self.now m }
    {
        self.chains.find(m)
    }

    /// The next ticket.
    pub fn next_ticket(&self) -> u64
        ensures { result ≡ self.now.next }
    {
        self.next
    }
}
