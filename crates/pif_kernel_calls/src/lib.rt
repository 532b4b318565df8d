//! The calls of the kernel, whatever it is made of: threads with priorities, the owner states of mutexes with their
//! waiters, the threads that are parked on condition variables, and the run queue. It knows nothing of the library that
//! makes the calls.
//!
//! A call refuses by the first of its tests that fails, from left to right, and has then changed nothing. `n` is the
//! number in the mutex word, `s` the owner that the mutex's owner state names; there is an owner state exactly while
//! threads are queued on the mutex.
//!
//! ```text
//! call        EFAULT    EPERM     EDEADLK  EAGAIN    EINVAL             ESRCH         EINVAL     EDEADLK
//! lock_pi     no word             n = t              n = 0, there is s  n lives not   s not n    n reaches t
//! trylock_pi  no word             n = t    n not 0   n = 0, there is s
//! unlock_pi   no word   n not t                                                       s not t
//! set_prio                                           p not 1 to 99      t lives not
//! ```
//!
//! Those of condition variables; `w` is the condition word:
//!
//! ```text
//! call             EFAULT   EINVAL     EAGAIN            EINVAL          EINVAL
//! wait_requeue_pi  no word             w not `expected`
//! cmp_requeue_pi   no word  val not 1  w not `expected`  another target  n = 0, there is s; n lives, s not n
//! ```
//!
//! The last one is tested only if a thread is parked on the variable.
//!
//! If nothing refuses, a call touches:
//!
//! ```text
//! call                     the word          owner state      who is queued   statuses     run queue
//! add                                                                         t is ready   t joins its level
//! lock_pi, n = 0           t, OWNER_DIED
//! lock_pi, else            and WAITERS       s is n           t, at the end   t is queued  t leaves; n and its chain
//! trylock_pi               t, OWNER_DIED
//! unlock_pi, no s          0
//! unlock_pi, u is next     u and WAITERS     s is u, or none  all but u       u is ready   u joins; then t
//! set_prio                                                                                 t and its chain
//! stop                                                                        t is stopped t leaves
//! expire                                     s, or none       all but t       t is ready   its chain; then t joins
//! exit, t itself                             s, or none       all but t       t has ended  t leaves; then its chain
//! exit, then m with no s   OWNER_DIED
//! exit, u is next of m     u and both flags  s is u, or none  all but u       u is ready   u joins; then t
//! ```
//!
//! And the calls of condition variables, of which cmp_requeue_pi touches this for each `u` that it takes:
//!
//! ```text
//! call                        the word       owner state  who is queued  who is parked  statuses     run queue
//! wait_requeue_pi                                                        t, at the end  t is parked  t leaves
//! u taken, n = 0              u, OWNER_DIED                              all but u      u is ready   u joins
//! u taken, n lives, no cycle  and WAITERS    s is n       u, at the end  all but u      u is queued  n and its chain
//! u taken, else                                                          all but u      u is ready   u joins
//! ```
//!
//! cmp_requeue_pi takes at most 1 + `more` of the threads that are parked on the variable, one after another, and each
//! whole before the next, by the word as it is then. Each time it takes that of greatest effective priority now, and of
//! several the first that was parked. In the last row n lives not, is u, or waits for u through a chain: u is woken,
//! and locks the mutex itself.
//!
//! expire refuses nothing, and writes no word. `t`, which lives and may not run, leaves the mutex on which it is
//! queued, or the variable on which it is parked, and the chain above it has its priorities before it joins its level.
//! The word of the mutex keeps WAITERS, also if nobody is queued on it any more.
//!
//! exit refuses nothing. `t` itself leaves the mutex on which it is queued, or the variable on which it is parked. Then
//! it goes through the mutexes that its robust list and its pending field name, and touches each whose word has n = t,
//! and whose s, if there is one, is t too. A word without s loses its number, gets OWNER_DIED, and keeps WAITERS.
//!
//! The calls that read touch nothing. `waiter`, `parked` and `ready` answer the thread at a place of an order, 0 for
//! the next: the waiters of a mutex and the threads that are parked on a variable stand by their effective priorities
//! now, equals in arrival, and the ready threads by their levels, those of one level in order of joining. `path`
//! answers a thread with all for whom it waits through its chain. `pick` is the first of the ready threads.
//!
//! `PiKernel` is the trait that a kernel meets. What its calls mean is in `pif_model/specs/PiKernel.antt`.
#![tactic(auto)]

mod pi_kernel;

pub use pi_kernel::PiKernel;
pub use pif_model::{Status, Took, Woken};
