ghost use Rattle.std.specs.Prelude.{◌≡◌, ◌≤◌, IfOk};
ghost use Rattle.pif_model.specs.PiKernel.{new_kernel, IsKernel};
ghost use Rattle.pif_kernel_model.specs.Inside.{kernel_of, next_ticket};

use crate::chains::Chains;
use crate::dying::pass_all_on;
use crate::parts::Parts;
use crate::refusals::{
    Found, test_lock, test_parking, test_requeue, test_set_prio, test_try_lock, test_unlock,
};
use crate::requeueing::take_all;
use arrayvec::ArrayVec;
use pif_kernel_calls::PiKernel;
use pif_model::{Status, Took};
use pif_robust::RobustLists;
use pif_types::{CondId, Errno, Limits, MutexId, NoMemory, Prio, Tid};
use pif_word::{Cell, Words, hand_word, mark_word, taken_word};
use std::alloc::Global;
use std::marker::Model;

/// A kernel on these chains, whose waiters stand by the tickets of a counter. Only `new` takes memory.
pub struct KernelOn<C: Chains + Drop> {
    parts: Parts<C>,
}

// A destructor of its own: what owns a kernel calls it, and has not to be proved to let go of each of its parts.
impl<C: Chains + Drop> Drop for KernelOn<C> {
    fn drop(self) {
        let KernelOn { parts: _ } = self;
    }
}

impl<C: Chains + Drop> Model for KernelOn<C> {
    ghost use Rattle.pif_kernel_model.specs.Inside.{Inside as InsideSeen, IsSoundInside};
    ghost use Rattle.pif_kernel_model.specs.Codes.{inside_code};

    ghost Value = { InsideSeen };

    ghost coded = { inside_code };

    ghost view = { λ k. k.parts };

    ghost invariant = { λ k. IsSoundInside k.parts };
}

impl<C: Chains + Drop> KernelOn<C> {
    /// A kernel under these limits to which nothing was added, and whose first ticket is `first_ticket`, at least 1. It
    /// takes all the memory that it will ever need, and answers `NoMemory` if that is refused.
    pub fn new(alloc: Global, limits: Limits, first_ticket: u64) -> Result<KernelOn<C>, NoMemory>
        requires { 1 ≤ first_ticket }
        ensures made { IfOk result (λ k. kernel_of k ≡ new_kernel limits) }
        ensures ticket { IfOk result (λ k. next_ticket k ≡ first_ticket) }
        ensures kept { IfOk result (λ k. IsKernel (kernel_of k)) }
    {
        let parts: Parts<C> = Parts::new(alloc, limits, first_ticket)?;
        Ok(KernelOn { parts })
    }

    /// The next ticket, from 1 on: a number that rises with each waiter. If it is 2^64 - 1, the next waiter has the
    /// tickets that are held renumbered from 1 first, in their order, and gets the one behind them.
    pub fn next_ticket(&self) -> u64
        ensures { result ≡ next_ticket self.now }
    {
        self.parts.next_ticket()
    }
}

impl<C: Chains + Drop> PiKernel for KernelOn<C> {
    ghost meaning = { kernel_of };

    fn add(&mut self, prio: Prio) -> Tid {
        self.parts.add(prio)
    }

    fn status(&self, t: Tid) -> Status {
        self.parts.status(t)
    }

    fn effective(&self, t: Tid) -> Option<Prio> {
        self.parts.effective(t)
    }

    fn base(&self, t: Tid) -> Prio {
        self.parts.base(t)
    }

    fn waiter(&self, m: MutexId, place: u32) -> Option<Tid> {
        self.parts.waiter(m, place)
    }

    fn parked(&self, c: CondId, place: u32) -> Option<Tid> {
        self.parts.parked_at(c, place)
    }

    fn ready(&self, place: u32) -> Option<Tid> {
        self.parts.ready(place)
    }

    fn path(&self, t: Tid) -> ArrayVec<Tid, 1024> {
        self.parts.path(t)
    }

    fn pick(&self) -> Option<Tid> {
        self.parts.pick()
    }

    #[tactic(auto, unfolding(pif_model::specs::PiKernel::kernel_after_lock, pif_model::specs::PiKernel::words_after_lock))]
    fn lock_pi(&mut self, words: &mut Words, t: Tid, m: MutexId) -> Result<Took, Errno> {
        match test_lock(&self.parts, words, t, m)? {
            Found::Free(word) => {
                words.store(Cell::Mutex(m), taken_word(word, t.get()));
                Ok(Took::Owns)
            }
            Found::Held(word, owner, key) => {
                // In one call with the queueing: if the owner could free the word in between, without a call of the
                // kernel, a thread would be queued on a mutex that nobody hands over.
                words.store(Cell::Mutex(m), mark_word(word));
                self.parts.queue_on(t, m, owner, key);
                Ok(Took::Queued)
            }
        }
    }

    #[tactic(auto, unfolding(pif_model::specs::PiKernel::words_after_try_lock))]
    fn trylock_pi(&self, words: &mut Words, t: Tid, m: MutexId) -> Result<(), Errno> {
        let word = test_try_lock(&self.parts, words, t, m)?;
        words.store(Cell::Mutex(m), taken_word(word, t.get()));
        Ok(())
    }

    #[tactic(auto, unfolding(pif_model::specs::PiKernel::kernel_after_unlock, pif_model::specs::PiKernel::words_after_unlock))]
    fn unlock_pi(&mut self, words: &mut Words, t: Tid, m: MutexId) -> Result<(), Errno> {
        let bits = match test_unlock(&self.parts, words, t, m)? {
            Some(key) => hand_word(self.parts.hand_over(t, m, key).get()),
            None => 0,
        };
        words.store(Cell::Mutex(m), bits);
        Ok(())
    }

    #[tactic(auto, unfolding(pif_model::specs::PiKernel::kernel_after_wait_requeue))]
    fn wait_requeue_pi(
        &mut self,
        words: &Words,
        t: Tid,
        c: CondId,
        expected: u32,
        m: MutexId,
    ) -> Result<(), Errno> {
        let parts = &mut self.parts;
        test_parking(words, c, expected, m)?;
        parts.park(t, c, m);
        Ok(())
    }

    #[tactic(auto, unfolding(pif_model::specs::PiKernel::after_requeue))]
    fn cmp_requeue_pi(
        &mut self,
        words: &mut Words,
        c: CondId,
        m: MutexId,
        val: u32,
        more: u32,
        expected: u32,
    ) -> Result<u32, Errno> {
        test_requeue(&self.parts, words, c, m, val, expected)?;
        Ok(take_all(&mut self.parts, words, c, m, more))
    }

    #[tactic(auto, unfolding(pif_model::specs::PiKernel::kernel_after_set_prio))]
    fn set_prio(&mut self, t: Tid, p: u32) -> Result<(), Errno> {
        let prio = test_set_prio(&self.parts, t, p)?;
        self.parts.set_base(t, prio);
        Ok(())
    }

    fn stop(&mut self, t: Tid) {
        self.parts.stop(t);
    }

    fn expire(&mut self, t: Tid) {
        self.parts.expire(t);
    }

    fn exit(&mut self, words: &mut Words, lists: &mut RobustLists, t: Tid) {
        // It leaves what it waits for first, because only a thread that is queued on nothing hands over. Its list goes
        // last, because the walk over its mutexes reads it.
        self.parts.leave_as(t, Status::Ended);
        pass_all_on(&mut self.parts, words, lists, t);
        lists.forget(t);
    }
}
