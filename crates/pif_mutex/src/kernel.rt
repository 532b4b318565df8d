ghost use Rattle.std.specs.Prelude.{◌≡◌, true, false};
ghost use Rattle.pif_model.specs.PiKernel.{is_ready, lock_answer, words_after_lock, kernel_after_lock, try_lock_answer, words_after_try_lock, unlock_answer, words_after_unlock, kernel_after_unlock, set_prio_answer, kernel_after_set_prio, kernel_after_stop, kernel_after_expire, wait_requeue_answer, kernel_after_wait_requeue, requeue_answer, after_requeue, is_living, after_exit};
ghost use Rattle.pif_model.specs.RobustList.{robust_at, walk_of, without_robust};
ghost use Rattle.pif_model.specs.Table.{has_thread, status_at, with_kernel, with_lists};
ghost use Rattle.pif_kernel_calls.specs.Answers.{unit_answer};

use crate::state::State;
use pif_kernel_calls::PiKernel;
use pif_model::Took;
use pif_types::{CondId, Errno, MutexId, Tid};

impl<K: PiKernel + Drop> State<K> {
    /// The kernel call lock_pi by a thread that was added and may run.
    pub(crate) fn lock_pi(&mut self, t: Tid, m: MutexId) -> Result<Took, Errno>
        requires known { has_thread self.old t ≡ true }
        requires ready { is_ready (status_at self.old t) ≡ true }
        ensures answer { result ≡ lock_answer t m self.old.words self.old.kernel }
        ensures after { self.new ≡ with_kernel (words_after_lock t m result self.old.words)
            (kernel_after_lock t m result self.old.words self.old.kernel) self.old }
    {
        self.kernel.lock_pi(&mut self.words, t, m)
    }

    /// The kernel call trylock_pi by a thread that was added and may run.
    pub(crate) fn trylock_pi(&mut self, t: Tid, m: MutexId) -> Result<(), Errno>
        requires known { has_thread self.old t ≡ true }
        requires ready { is_ready (status_at self.old t) ≡ true }
        ensures answer { unit_answer result ≡ try_lock_answer t m self.old.words self.old.kernel }
        ensures after { self.new ≡ with_kernel (words_after_try_lock t m (unit_answer result) self.old.words)
            self.old.kernel self.old }
    {
        self.kernel.trylock_pi(&mut self.words, t, m)
    }

    /// The kernel call unlock_pi by a thread that was added and may run.
    pub(crate) fn unlock_pi(&mut self, t: Tid, m: MutexId) -> Result<(), Errno>
        requires known { has_thread self.old t ≡ true }
        requires ready { is_ready (status_at self.old t) ≡ true }
        ensures answer { unit_answer result ≡ unlock_answer t m self.old.words self.old.kernel }
        ensures after { self.new ≡ with_kernel
            (words_after_unlock m (unit_answer result) self.old.kernel self.old.words)
            (kernel_after_unlock m (unit_answer result) self.old.kernel) self.old }
    {
        self.kernel.unlock_pi(&mut self.words, t, m)
    }

    /// The kernel call set_prio.
    pub(crate) fn set_prio(&mut self, t: Tid, p: u32) -> Result<(), Errno>
        ensures answer { unit_answer result ≡ set_prio_answer t p self.old.kernel }
        ensures after { self.new ≡ with_kernel self.old.words
            (kernel_after_set_prio t p (unit_answer result) self.old.kernel) self.old }
    {
        self.kernel.set_prio(t, p)
    }

    /// Stops a thread, which was added and may run, for good.
    pub(crate) fn stop(&mut self, t: Tid)
        requires known { has_thread self.old t ≡ true }
        requires ready { is_ready (status_at self.old t) ≡ true }
        ensures { self.new ≡ with_kernel self.old.words (kernel_after_stop t self.old.kernel) self.old }
    {
        self.kernel.stop(t);
    }

    /// The kernel call expire, for a living thread that is queued, parked or stopped.
    pub fn expire(&mut self, t: Tid)
        requires living { is_living self.old.kernel t ≡ true }
        requires unready { is_ready (status_at self.old t) ≡ false }
        ensures { self.new ≡ with_kernel self.old.words (kernel_after_expire t self.old.kernel) self.old }
    {
        self.kernel.expire(t);
    }

    /// The kernel call wait_requeue_pi by a thread that was added and may run.
    pub fn wait_requeue_pi(
        &mut self,
        t: Tid,
        c: CondId,
        expected: u32,
        m: MutexId,
    ) -> Result<(), Errno>
        requires known { has_thread self.old t ≡ true }
        requires ready { is_ready (status_at self.old t) ≡ true }
        ensures answer { unit_answer result ≡ wait_requeue_answer c expected m self.old.words }
        ensures after { self.new ≡ with_kernel self.old.words
            (kernel_after_wait_requeue t c m (unit_answer result) self.old.kernel) self.old }
    {
        self.kernel.wait_requeue_pi(&self.words, t, c, expected, m)
    }

    /// The kernel call cmp_requeue_pi: how many threads were taken from the variable.
    pub fn cmp_requeue_pi(
        &mut self,
        c: CondId,
        m: MutexId,
        val: u32,
        more: u32,
        expected: u32,
    ) -> Result<u32, Errno>
        ensures answer { result ≡ requeue_answer c m val more expected self.old.words self.old.kernel }
        ensures after { self.new ≡ with_kernel (after_requeue c m more result self.old.words self.old.kernel).words
            (after_requeue c m more result self.old.words self.old.kernel).kernel self.old }
    {
        self.kernel
            .cmp_requeue_pi(&mut self.words, c, m, val, more, expected)
    }

    /// The end of a living thread in the kernel: what its robust list and its pending field name passes on, and both
    /// are empty then.
    pub(crate) fn exit(&mut self, t: Tid)
        requires living { is_living self.old.kernel t ≡ true }
        ensures { self.new ≡ with_lists (without_robust t self.old.lists) (with_kernel
            (after_exit t (walk_of (robust_at self.old.lists t)) self.old.words self.old.kernel).words
            (after_exit t (walk_of (robust_at self.old.lists t)) self.old.words self.old.kernel).kernel self.old) }
    {
        self.kernel.exit(&mut self.words, &mut self.lists, t);
    }
}
