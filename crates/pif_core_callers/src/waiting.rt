ghost use Rattle.std.specs.Prelude.{ℕ, ◌≡◌, ◌+◌, true, false, Some};
ghost use Rattle.pif_types.specs.declared.requests.Request.TheVariants.{Wait};
ghost use Rattle.pif_model.specs.History.{hold_count, open_call};
ghost use Rattle.pif_model.specs.Standing.{WhereStands};
ghost use Rattle.pif_model_simulation.specs.Calls.{StandsOn, call_outcome, after_call, after_finish, finish_outcome};
ghost use Rattle.pif_core_callers.specs.Holding.{HoldsOn};
ghost use Rattle.pif_core_callers.specs.declared.waiting.Awaited.TheVariants.{Met};
ghost use Rattle.pif_core_callers.specs.Waiting.{awaited_by, if_resumed, if_waited, resumed_by};

use pif_core::{Core, Event, Seen};
use pif_types::{CondId, MutexId, Request, Tid};

/// How far a thread has come that waits until something is so.
#[derive(Clone, Copy, Debug, PartialEq, Eq)]
pub enum Awaited {
    /// It is so. After `resume_wait` the thread holds the mutex too, if it had that wait open.
    Met,
    /// The wait was answered so. After `Waits` it is open, and `resume_wait` goes on with it. After 0 the thread holds
    /// the mutex and tests again. After EOWNERDEAD or ETIMEDOUT it holds the mutex too; after EDEADLK or
    /// ENOTRECOVERABLE it doesn't.
    Not(Seen),
}

/// One round of the loop that pthread_cond_wait asks for: a thread that holds the mutex tests what it waits for, and if
/// that is not so it waits on the variable. If it is so, nothing has changed, and whether the thread holds the mutex is
/// not looked at.
pub fn wait_unless(
    core: &mut Core,
    thread: Tid,
    cond: CondId,
    mutex: MutexId,
    is_met: bool,
) -> Awaited
    ensures answer { result ≡ awaited_by is_met (call_outcome thread (Wait cond mutex) core.old).seen }
    ensures after { core.new ≡ if_waited is_met core.old (call_outcome thread (Wait cond mutex) core.old).after }
    ensures stands { is_met ≡ false → WhereStands core.old (λ h r w.
        StandsOn core.new (after_call thread (Wait cond mutex) core.old h) r w) }
{
    if is_met {
        Awaited::Met
    } else {
        Awaited::Not(core.call(thread, Request::Wait(cond, mutex)))
    }
}

/// A thread goes on with a wait that waited. Once the wait is answered 0, the thread holds the mutex again, and tests
/// what it waits for again: it may have been woken for nothing, or another thread may have come between. `is_met` is
/// what that test will say. It is there before the wait is answered, which is right only since this call has the core
/// alone. Among real threads, test after the wait, with the mutex held. `Met` says that it is so now. `Not` has what
/// the wait was answered otherwise, and then nothing more was done; or what another wait is answered, which was begun
/// since the test failed. Another wait has no deadline, also if the first had one.
pub fn resume_wait(
    core: &mut Core,
    thread: Tid,
    cond: CondId,
    mutex: MutexId,
    is_met: bool,
) -> Awaited
    ensures answer { result ≡ resumed_by is_met (finish_outcome thread core.old).seen
        (call_outcome thread (Wait cond mutex) (finish_outcome thread core.old).after).seen }
    ensures after { core.new ≡ if_resumed is_met (finish_outcome thread core.old).seen (finish_outcome thread core.old).after
        (call_outcome thread (Wait cond mutex) (finish_outcome thread core.old).after).after }
    ensures stands { WhereStands core.old (λ h r w.
        StandsOn core.new (if_resumed is_met (finish_outcome thread core.old).seen (after_finish thread core.old h)
        (after_call thread (Wait cond mutex) (finish_outcome thread core.old).after (after_finish thread core.old h))) r w) }
    ensures holds { result ≡ Met → (is_met ≡ true) × WhereStands core.old (λ h r w. (n : ℕ)
        → open_call thread h ≡ Some (Wait cond mutex) → hold_count thread mutex h ≡ n + 1
        → HoldsOn thread mutex (n + 1) core.new (after_finish thread core.old h) r w) }
{
    match core.finish(thread) {
        Seen::Answered(0) => wait_unless(core, thread, cond, mutex, is_met),
        seen => Awaited::Not(seen),
    }
}
