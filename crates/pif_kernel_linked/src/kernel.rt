ghost use Rattle.std.specs.Prelude.{◌≡◌, ◌≤◌, IfOk};
ghost use Rattle.pif_model.specs.PiKernel.{new_kernel, IsKernel};
ghost use Rattle.pif_kernel_model.specs.Inside.{kernel_of, next_ticket};

use arrayvec::ArrayVec;
use pif_chains_linked::LinkedChains;
use pif_kernel::KernelOn;
use pif_kernel_calls::PiKernel;
use pif_model::{Status, Took};
use pif_robust::RobustLists;
use pif_types::{CondId, Errno, Limits, MutexId, NoMemory, Prio, Tid};
use pif_word::Words;
use std::alloc::Global;
use std::marker::Model;

/// A kernel on linked chains: `KernelOn` over `LinkedChains`, as one type without parameters. Each call is that of
/// `KernelOn`. Whoever holds one is handed the calls of `PiKernel` alone, and not those of the chains inside too.
#[derive(Drop)]
pub struct LinkedKernel {
    calls: KernelOn<LinkedChains>,
}

impl Model for LinkedKernel {
    ghost use Rattle.pif_kernel_model.specs.Inside.{Inside as InsideSeen};
    ghost use Rattle.pif_kernel_model.specs.Codes.{inside_code};

    ghost Value = { InsideSeen };

    ghost coded = { inside_code };

    ghost view = { λ k. k.calls };
}

impl LinkedKernel {
    /// A kernel under these limits to which nothing was added, and whose first ticket is `first_ticket`, at least 1. It
    /// takes all the memory that it will ever need, and answers `NoMemory` if that is refused.
    pub fn new(alloc: Global, limits: Limits, first_ticket: u64) -> Result<LinkedKernel, NoMemory>
        requires { 1 ≤ first_ticket }
        ensures made { IfOk result (λ k. kernel_of k ≡ new_kernel limits) }
        ensures ticket { IfOk result (λ k. next_ticket k ≡ first_ticket) }
        ensures kept { IfOk result (λ k. IsKernel (kernel_of k)) }
    {
        let calls = KernelOn::new(alloc, limits, first_ticket)?;
        Ok(LinkedKernel { calls })
    }
}

impl PiKernel for LinkedKernel {
    ghost meaning = { kernel_of };

    fn add(&mut self, prio: Prio) -> Tid {
        self.calls.add(prio)
    }

    fn status(&self, t: Tid) -> Status {
        self.calls.status(t)
    }

    fn effective(&self, t: Tid) -> Option<Prio> {
        self.calls.effective(t)
    }

    fn base(&self, t: Tid) -> Prio {
        self.calls.base(t)
    }

    fn waiter(&self, m: MutexId, place: u32) -> Option<Tid> {
        self.calls.waiter(m, place)
    }

    fn parked(&self, c: CondId, place: u32) -> Option<Tid> {
        self.calls.parked(c, place)
    }

    fn ready(&self, place: u32) -> Option<Tid> {
        self.calls.ready(place)
    }

    fn path(&self, t: Tid) -> ArrayVec<Tid, 1024> {
        self.calls.path(t)
    }

    fn pick(&self) -> Option<Tid> {
        self.calls.pick()
    }

    fn lock_pi(&mut self, words: &mut Words, t: Tid, m: MutexId) -> Result<Took, Errno> {
        self.calls.lock_pi(words, t, m)
    }

    fn trylock_pi(&self, words: &mut Words, t: Tid, m: MutexId) -> Result<(), Errno> {
        self.calls.trylock_pi(words, t, m)
    }

    fn unlock_pi(&mut self, words: &mut Words, t: Tid, m: MutexId) -> Result<(), Errno> {
        self.calls.unlock_pi(words, t, m)
    }

    fn wait_requeue_pi(
        &mut self,
        words: &Words,
        t: Tid,
        c: CondId,
        expected: u32,
        m: MutexId,
    ) -> Result<(), Errno> {
        self.calls.wait_requeue_pi(words, t, c, expected, m)
    }

    fn cmp_requeue_pi(
        &mut self,
        words: &mut Words,
        c: CondId,
        m: MutexId,
        val: u32,
        more: u32,
        expected: u32,
    ) -> Result<u32, Errno> {
        self.calls.cmp_requeue_pi(words, c, m, val, more, expected)
    }

    fn set_prio(&mut self, t: Tid, p: u32) -> Result<(), Errno> {
        self.calls.set_prio(t, p)
    }

    fn stop(&mut self, t: Tid) {
        self.calls.stop(t);
    }

    fn expire(&mut self, t: Tid) {
        self.calls.expire(t);
    }

    fn exit(&mut self, words: &mut Words, lists: &mut RobustLists, t: Tid) {
        self.calls.exit(words, lists, t);
    }
}
