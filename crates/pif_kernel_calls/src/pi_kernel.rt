ghost use Rattle.std.specs.Prelude.{◌≡◌, ◌≤◌, ◌==◌, true, false, length, if◌then◌else◌, Some, None};
ghost use Rattle.std.specs.List.{slice_get};
ghost use Rattle.pif_model.specs.PiKernel.{Kernel, IsKernel, seat_at, has_seat, is_living, is_ready, effective_in, pick_in, waiters_in, parked_in, ready_in, IsPathIn, kernel_after_add, lock_answer, words_after_lock, kernel_after_lock, try_lock_answer, words_after_try_lock, unlock_answer, words_after_unlock, kernel_after_unlock, set_prio_answer, kernel_after_set_prio, kernel_after_stop, kernel_after_expire, wait_requeue_answer, kernel_after_wait_requeue, requeue_answer, after_requeue, after_exit};
ghost use Rattle.pif_model.specs.RobustList.{robust_at, walk_of, without_robust};
ghost use Rattle.pif_word.specs.WordMap.{words_of};
ghost use Rattle.pif_kernel_calls.specs.Answers.{unit_answer};

use arrayvec::ArrayVec;
use pif_model::{Status, Took};
use pif_robust::RobustLists;
use pif_types::{CondId, Errno, MutexId, Prio, Tid};
use pif_word::Words;

/// A kernel: threads with priorities, the owner states of mutexes with their waiters, the threads that are parked on
/// condition variables, and the run queue of sched(7), SCHED_FIFO. A call on words takes any words whatever, and of
/// those writes that of the mutex which it names alone; exit writes those of the mutexes that it passes on. A refused
/// call changes nothing.
pub trait PiKernel {
    /// The state that a kernel stands for.
    ghost meaning: { Self → Kernel };

    /// Adds a thread of base priority `prio`: ready, at the end of its level, with the next number from 1. There has to
    /// be room for it under the limits. All else stays as it was.
    fn add(&mut self, prio: Prio) -> Tid
        requires room { length (meaning self.old).seats ≤ (meaning self.old).limits.threads }
        ensures number { result ≡ length (meaning self.old).seats }
        ensures after { meaning self.new ≡ kernel_after_add prio (meaning self.old) }
        ensures kept { IsKernel (meaning self.new) };

    /// What the kernel knows of the thread `t`, which was added: ready, queued on a mutex, parked on a variable,
    /// stopped for good, or ended.
    fn status(&self, t: Tid) -> Status
        requires added { has_seat (meaning self.now) t ≡ true }
        ensures value { result ≡ (seat_at (meaning self.now) t).status };

    /// The effective priority of the thread `t`: the greatest base priority of it and of all that wait for it through
    /// any chain. `None` if no living thread has that number.
    fn effective(&self, t: Tid) -> Option<Prio>
        ensures value { result ≡ (if is_living (meaning self.now) t then Some (effective_in (meaning self.now) t) else None) };

    /// The base priority of the thread `t`, which was added.
    fn base(&self, t: Tid) -> Prio
        requires added { has_seat (meaning self.now) t ≡ true }
        ensures value { result ≡ (seat_at (meaning self.now) t).base };

    /// The waiter of the mutex `m` before which `place` others get it, as long as no priority changes and nobody comes
    /// or goes: those of greatest effective priority first, and of equals the first in arrival. `None` if so few
    /// wait for it.
    fn waiter(&self, m: MutexId, place: u32) -> Option<Tid>
        ensures value { result ≡ slice_get (waiters_in (meaning self.now) m) place };

    /// The thread that is parked on the variable `c` and before which `place` others are taken from it, as long as no
    /// priority changes and nobody comes or goes. `None` if so few are parked on it.
    fn parked(&self, c: CondId, place: u32) -> Option<Tid>
        ensures value { result ≡ slice_get (parked_in (meaning self.now) c) place };

    /// The ready thread before which `place` others run, as long as none comes or goes: those of the greatest level
    /// first, and of each level in order of joining (sched(7), SCHED_FIFO). `None` if so few are ready.
    fn ready(&self, place: u32) -> Option<Tid>
        ensures value { result ≡ slice_get (ready_in (meaning self.now)) place };

    /// The threads from `t` on along whom each waits for, in order: `t`, the owner of the mutex on which it is queued,
    /// and so on, up to the one that waits for nobody. Each comes once. None if no living thread has the number `t`.
    fn path(&self, t: Tid) -> ArrayVec<Tid, 1024>
        ensures path { IsPathIn (meaning self.now) t result.items };

    /// The thread that runs next: the first that joined the greatest level (sched(7), SCHED_FIFO). `None` if none is
    /// ready.
    fn pick(&self) -> Option<Tid>
        ensures value { result ≡ (if pick_in (meaning self.now) == 0 then None else Some (pick_in (meaning self.now))) };

    /// The kernel call lock_pi, FUTEX_LOCK_PI of futex(2), by the ready thread `t`. If the mutex has no owner, `t`
    /// takes it: the word gets its number and keeps its flag OWNER_DIED alone. Else `t` is queued on it: the word gets
    /// its flag WAITERS, and the owner and all for whom that one waits are boosted.
    ///
    /// Refused, in this order, by EFAULT if the mutex has no word; EDEADLK if `t` owns it; EINVAL if the word
    /// has no number and the mutex an owner state; ESRCH if no living thread has the number in the word; EINVAL
    /// if the owner state has another one; EDEADLK if waiting would close a cycle.
    fn lock_pi(&mut self, words: &mut Words, t: Tid, m: MutexId) -> Result<Took, Errno>
        requires added { has_seat (meaning self.old) t ≡ true }
        requires ready { is_ready (seat_at (meaning self.old) t).status ≡ true }
        ensures answer { result ≡ lock_answer t m (words_of words.old) (meaning self.old) }
        ensures words { words_of words.new ≡ words_after_lock t m result (words_of words.old) }
        ensures after { meaning self.new ≡ kernel_after_lock t m result (words_of words.old) (meaning self.old) }
        ensures kept { IsKernel (meaning self.new) };

    /// The kernel call trylock_pi, FUTEX_TRYLOCK_PI of futex(2), by the ready thread `t`. It takes a mutex that has no
    /// owner: the word gets its number and keeps its flag OWNER_DIED alone. It never waits, and the kernel stays as it
    /// was.
    ///
    /// Refused, in this order, by EFAULT if the mutex has no word; EDEADLK if `t` owns it; EAGAIN if the word
    /// has another number; EINVAL if it has none and the mutex has an owner state.
    fn trylock_pi(&self, words: &mut Words, t: Tid, m: MutexId) -> Result<(), Errno>
        requires added { has_seat (meaning self.now) t ≡ true }
        requires ready { is_ready (seat_at (meaning self.now) t).status ≡ true }
        ensures answer { unit_answer result ≡ try_lock_answer t m (words_of words.old) (meaning self.now) }
        ensures words { words_of words.new ≡ words_after_try_lock t m (unit_answer result) (words_of words.old) };

    /// The kernel call unlock_pi, FUTEX_UNLOCK_PI of futex(2), by the ready thread `t`. It frees a mutex on which
    /// nobody is queued: the word is 0. Else it hands the mutex to the next waiter, of those of greatest effective
    /// priority the first in arrival: the word gets that number with WAITERS, that thread is ready and joins its level,
    /// and the boost of `t` by the waiters ends.
    ///
    /// Refused, in this order, by EFAULT if the mutex has no word; EPERM if `t` isn't its owner by the word;
    /// EINVAL if the owner state has another one.
    fn unlock_pi(&mut self, words: &mut Words, t: Tid, m: MutexId) -> Result<(), Errno>
        requires added { has_seat (meaning self.old) t ≡ true }
        requires ready { is_ready (seat_at (meaning self.old) t).status ≡ true }
        ensures answer { unit_answer result ≡ unlock_answer t m (words_of words.old) (meaning self.old) }
        ensures words { words_of words.new ≡ words_after_unlock m (unit_answer result) (meaning self.old) (words_of words.old) }
        ensures after { meaning self.new ≡ kernel_after_unlock m (unit_answer result) (meaning self.old) }
        ensures kept { IsKernel (meaning self.new) };

    /// The kernel call wait_requeue_pi, FUTEX_WAIT_REQUEUE_PI of futex(2), by the ready thread `t`. It is parked on the
    /// variable, behind all that are, and leaves the run queue; it is to get the mutex once it is taken from the
    /// variable. It isn't asked who owns the mutex. No word is written, and all other threads stay as they were.
    ///
    /// Refused, in this order, by EFAULT if the variable or the mutex has no word; EAGAIN if the condition word
    /// isn't `expected`.
    fn wait_requeue_pi(
        &mut self,
        words: &Words,
        t: Tid,
        c: CondId,
        expected: u32,
        m: MutexId,
    ) -> Result<(), Errno>
        requires added { has_seat (meaning self.old) t ≡ true }
        requires ready { is_ready (seat_at (meaning self.old) t).status ≡ true }
        ensures answer { unit_answer result ≡ wait_requeue_answer c expected m (words_of words.now) }
        ensures after { meaning self.new ≡ kernel_after_wait_requeue t c m (unit_answer result) (meaning self.old) }
        ensures kept { IsKernel (meaning self.new) };

    /// The kernel call cmp_requeue_pi, FUTEX_CMP_REQUEUE_PI of futex(2). It takes `val`, which is to be 1, and at most
    /// `more` threads more from the variable, for the mutex: one after another, each time the one of greatest effective
    /// priority then, and of several the first that was parked. By the word as it is then, a thread that is taken owns
    /// the mutex if it has no owner: the word gets its number and keeps its flag OWNER_DIED alone. If the number
    /// is of a living thread, for which it can wait without closing a cycle, it is queued on the mutex as by lock_pi.
    /// Else it is woken to lock the mutex itself. Each is done whole, with all that it boosts, before the next is
    /// taken. Answers how many were taken: 0 if nobody is parked on the variable, and then nothing has changed. The
    /// condition word is never written.
    ///
    /// Refused, in this order, by EFAULT if the variable or the mutex has no word; EINVAL if `val` isn't 1;
    /// EAGAIN if the condition word isn't `expected`; EINVAL if a thread that is parked on the variable is to get
    /// another mutex; and, if a thread is parked on it, EINVAL if the word has no number and the mutex an owner
    /// state, or the number of a living thread and the owner state another.
    fn cmp_requeue_pi(
        &mut self,
        words: &mut Words,
        c: CondId,
        m: MutexId,
        val: u32,
        more: u32,
        expected: u32,
    ) -> Result<u32, Errno>
        ensures answer { result ≡ requeue_answer c m val more expected (words_of words.old) (meaning self.old) }
        ensures words { words_of words.new ≡ (after_requeue c m more result (words_of words.old) (meaning self.old)).words }
        ensures after { meaning self.new ≡ (after_requeue c m more result (words_of words.old) (meaning self.old)).kernel }
        ensures kept { IsKernel (meaning self.new) };

    /// Gives the thread `t` another base priority, 1 to 99 (pthread_setschedprio of POSIX). Its effective priority and
    /// those of all for whom it waits follow, and among equals it keeps its place. A ready thread whose level changes
    /// joins the end of the new one. EINVAL if the priority is outside its range, else ESRCH if no living thread
    /// has that number; nothing has changed then.
    fn set_prio(&mut self, t: Tid, p: u32) -> Result<(), Errno>
        ensures answer { unit_answer result ≡ set_prio_answer t p (meaning self.old) }
        ensures after { meaning self.new ≡ kernel_after_set_prio t p (unit_answer result) (meaning self.old) }
        ensures kept { IsKernel (meaning self.new) };

    /// Stops the ready thread `t` for good: it leaves the run queue. All else stays as it was.
    fn stop(&mut self, t: Tid)
        requires added { has_seat (meaning self.old) t ≡ true }
        requires ready { is_ready (seat_at (meaning self.old) t).status ≡ true }
        ensures after { meaning self.new ≡ kernel_after_stop t (meaning self.old) }
        ensures kept { IsKernel (meaning self.new) };

    /// The deadline of the living thread `t`, which is queued, parked or stopped, is reached (the timeout of futex(2),
    /// FUTEX_LOCK_PI and FUTEX_WAIT_REQUEUE_PI). It leaves the mutex on which it is queued, whose owner state goes
    /// if nobody else waits, or the variable on which it is parked, and all for whom it waited get their new
    /// priorities. Then it is ready, and joins the end of its level. No word is written: that of a mutex on which
    /// nobody is queued any more may keep WAITERS.
    fn expire(&mut self, t: Tid)
        requires living { is_living (meaning self.old) t ≡ true }
        requires unready { is_ready (seat_at (meaning self.old) t).status ≡ false }
        ensures after { meaning self.new ≡ kernel_after_expire t (meaning self.old) }
        ensures kept { IsKernel (meaning self.new) };

    /// The living thread `t` ends, in whatever it does, and on any words and robust lists (robust futexes of Linux;
    /// get_robust_list(2)). First it leaves the mutex on which it is queued, whose owner state goes if nobody else
    /// waits, or the variable on which it is parked, and the run queue, and all for whom it waited get their new
    /// priorities. Then each mutex that its robust list and its pending field name passes on, in the order of the list
    /// and the pending one last, if its word has the number of `t`: with an owner state of `t` the next waiter owns
    /// it, is ready and joins its level, and the word gets that number with WAITERS and OWNER_DIED; with no owner state
    /// the word gets OWNER_DIED, keeps WAITERS as it was, and loses the number; with one of another owner nothing
    /// changes. No health word is written. Owner states that `t` owns still keep their waiters, and boost nobody. At
    /// last its robust list, its half-linked mutex and its pending field are empty. Its number is never used again.
    fn exit(&mut self, words: &mut Words, lists: &mut RobustLists, t: Tid)
        requires living { is_living (meaning self.old) t ≡ true }
        ensures words { words_of words.new
            ≡ (after_exit t (walk_of (robust_at lists.old t)) (words_of words.old) (meaning self.old)).words }
        ensures after { meaning self.new
            ≡ (after_exit t (walk_of (robust_at lists.old t)) (words_of words.old) (meaning self.old)).kernel }
        ensures lists { lists.new ≡ without_robust t lists.old }
        ensures kept { IsKernel (meaning self.new) };
}
