ghost use Rattle.std.specs.Prelude.{◌≡◌, ◌≢◌, ◌<◌, ◌+◌, true, false, length, Some, None};
ghost use Rattle.pif_kernel_model.specs.Owners.{count};
ghost use Rattle.pif_model.specs.Graph.{reaches_within};
ghost use Rattle.pif_model.specs.PiKernel.{seat_at, has_seat, is_living, is_ready, queued_on, kernel_after_queueing, kernel_after_hand_over, next_in, waits_for};
ghost use Rattle.pif_kernel_model.specs.Inside.{IsSoundInside, kernel_of, state_key_at, state_at};
ghost use Rattle.pif_kernel_model.specs.Opened.{IsOpened};

use crate::chains::Chains;
use crate::parts::Parts;
use pif_kernel_model::Key;
use pif_model::{Status, Woken};
use pif_types::{MutexId, Tid};

impl<C: Chains + Drop> Parts<C> {
    /// Queues a ready thread on a mutex of this owner, whose owner state has this key, if there is one. Then there is
    /// an owner state, and the owner and its chain are boosted.
    pub fn queue_on(&mut self, t: Tid, m: MutexId, owner: Tid, key: Option<Key>)
        requires sound { IsSoundInside self.old }
        requires mutex { m < 1025 }
        requires added { has_seat (kernel_of self.old) t ≡ true }
        requires ready { is_ready (seat_at (kernel_of self.old) t).status ≡ true }
        requires living { is_living (kernel_of self.old) owner ≡ true }
        requires key { key ≡ state_key_at self.old m }
        requires state { state_at self.old m ≢ 0 → state_at self.old m ≡ owner }
        requires unreached { reaches_within (length (kernel_of self.old).seats) (waits_for (kernel_of self.old)) owner t ≡ false }
        ensures after { kernel_of self.new ≡ kernel_after_queueing t m owner (kernel_of self.old) }
        ensures sound { IsSoundInside self.new }
    {
        let ticket = self.take_ticket();
        let key = self.state_of(m, owner, key);
        let prio = self.chains.local(t).unwrap();
        self.chains.enqueue(key, t, prio, ticket);
        self.statuses[t.get() as usize] = Status::Queued(m);
        self.chains.take_out(t);
        // Last, and from the owner: waiting gives `t` no waiter, so its own priority stays, but the owner's may rise.
        self.chains.walk(owner);
    }

    /// The key of the owner state of a mutex: this one, or that of a state which is made for this owner.
    fn state_of(&mut self, m: MutexId, owner: Tid, key: Option<Key>) -> Key
        requires mutex { m < length self.old.keys }
        requires key { key ≡ state_key_at self.old m }
        requires owner { owner < length self.old.owners.seats }
        requires room { state_key_at self.old m ≡ None → count self.old.owners + 1 < length self.old.owners.seats }
        ensures { IsOpened self.old self.new m owner result }
    {
        match key {
            Some(key) => key,
            None => self.chains.open(m, owner),
        }
    }

    /// Hands the mutex, which has the owner state `key`, from `holder`, which is queued on nothing, to its next waiter.
    /// That one is ready and joins its level, what the other waiters boost is that one, and then `holder` loses their
    /// boost. Answers who is next.
    pub fn hand_over(&mut self, holder: Tid, m: MutexId, key: Key) -> Tid
        requires sound { IsSoundInside self.old }
        requires key { state_key_at self.old m ≡ Some key }
        requires owner { state_at self.old m ≡ holder }
        requires idle { queued_on (seat_at (kernel_of self.old) holder).status ≡ 0 }
        ensures next { result ≡ next_in (kernel_of self.old) m }
        ensures after { kernel_of self.new ≡ kernel_after_hand_over result m (kernel_of self.old) }
        ensures sound { IsSoundInside self.new }
    {
        let next = self.chains.hand_over(key);
        // With nobody queued the word alone says who owns the mutex. The next owner may free it there without a call of
        // the kernel, and a state that stayed would then name an owner that the word doesn't.
        if self.chains.top(key).is_none() {
            self.chains.close(m, key);
        }
        self.statuses[next.get() as usize] = Status::Ready(Woken::Owns);
        let level = self.chains.local(next).unwrap();
        self.chains.add(next, level);
        // The next owner needs no walk, because no other waiter of the mutex has more than it has. The holder's boost
        // ends.
        self.chains.walk(holder);
        next
    }
}
