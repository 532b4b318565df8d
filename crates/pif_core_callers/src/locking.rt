ghost use Rattle.std.specs.Prelude.{ℕ, ◌≡◌, ◌≢◌, ◌+◌, ◌%◌, ◌^◌, Some, IfOk, IfErr};
ghost use Rattle.pif_types.specs.declared.requests.Request.TheVariants.{Lock, Unlock, Consistent};
ghost use Rattle.pif_model.specs.declared.events.Seen.TheVariants.{Answered};
ghost use Rattle.pif_model.specs.Posix.{mutex_at};
ghost use Rattle.pif_model.specs.History.{hold_count, open_call};
ghost use Rattle.pif_model.specs.Standing.{WhereStands};
ghost use Rattle.pif_model_simulation.specs.Calls.{StandsOn, call_outcome, after_call, after_finish, finish_outcome};
ghost use Rattle.pif_core_callers.specs.declared.locking.Held.TheVariants.{InOrder};
ghost use Rattle.pif_core_callers.specs.Holding.{CountsOn, HoldsOn, IsFineIn, lock_finds, locked_by, if_died, if_taken, after_lock, repaired_by, unlocked_by};

use pif_core::{Core, Event, Seen};
use pif_types::{Errno, MutexId, Request, Tid};

/// How a lock found the mutex that it has taken.
#[derive(Clone, Copy, Debug, PartialEq, Eq)]
pub enum Held {
    /// What the mutex protects is in order: the lock was answered 0.
    InOrder,
    /// Its last owner has ended, and what the mutex protects may be in disorder: the lock was answered EOWNERDEAD.
    OwnerDied,
}

/// Whether a lock that was answered so has taken the mutex.
fn locked_by(seen: Seen) -> Result<Held, Seen>
    ensures { result ≡ locked_by seen }
{
    match seen {
        Seen::Answered(answer) => if answer == 0 {
            Ok(Held::InOrder)
        } else if answer == Errno::OwnerDead.number() {
            Ok(Held::OwnerDied)
        } else {
            Err(seen)
        },
        _ => Err(seen),
    }
}

/// A thread locks a mutex, by a whole call (pthread_mutex_lock of POSIX). If it answers `Ok`, the thread holds the
/// mutex once more than before, and no other thread does. `Err` has what the call was answered otherwise; after `Waits`
/// the lock stays open, and `finish_lock` goes on with it.
pub fn lock_and_hold(core: &mut Core, thread: Tid, mutex: MutexId) -> Result<Held, Seen>
    ensures answer { result ≡ locked_by (call_outcome thread (Lock mutex) core.old).seen }
    ensures after { core.new ≡ (call_outcome thread (Lock mutex) core.old).after }
    ensures stands { WhereStands core.old (λ h r w. StandsOn core.new (after_call thread (Lock mutex) core.old h) r w) }
    ensures holds { IfOk result (λ x. WhereStands core.old (λ h r w.
        HoldsOn thread mutex (hold_count thread mutex h + 1) core.new
        (after_call thread (Lock mutex) core.old h) r w)) }
{
    locked_by(core.call(thread, Request::Lock(mutex)))
}

/// A thread goes on with a lock of a mutex that waited, with a deadline or none. If it answers `Ok`, the thread holds
/// the mutex once more than before, and no other thread does. `Err` has what the lock was answered otherwise: ETIMEDOUT
/// (110) if its deadline was reached. After `Waits` it stays open, and this is called again once others have had their
/// turns.
pub fn finish_lock(core: &mut Core, thread: Tid, mutex: MutexId) -> Result<Held, Seen>
    ensures answer { result ≡ locked_by (finish_outcome thread core.old).seen }
    ensures after { core.new ≡ (finish_outcome thread core.old).after }
    ensures stands { WhereStands core.old (λ h r w. StandsOn core.new (after_finish thread core.old h) r w) }
    ensures holds { IfOk result (λ x. WhereStands core.old (λ h r w. open_call thread h ≡ Some (Lock mutex)
        → HoldsOn thread mutex (hold_count thread mutex h + 1) core.new (after_finish thread core.old h) r w)) }
{
    let _lock = Request::Lock(mutex);
    locked_by(core.finish(thread))
}

/// A thread locks a mutex, adds this amount to a sum that the mutex protects, modulo 2 to the power 64, and unlocks
/// the mutex. `Ok` has what the unlock was answered: after 0 the thread holds the mutex as often as before. `Err` has
/// what the lock was answered if it has not taken the mutex: nothing was done but that lock, and the sum is
/// unchanged. After `Waits` the lock stays open, as that of `lock_and_hold`.
pub fn add_under(
    core: &mut Core,
    thread: Tid,
    mutex: MutexId,
    sum: &mut u64,
    amount: u64,
) -> Result<Seen, Seen>
    ensures answer { result ≡ unlocked_by (lock_finds thread mutex core.old)
        (call_outcome thread (Unlock mutex) (after_lock thread mutex core.old)).seen }
    ensures after { core.new ≡ if_taken (lock_finds thread mutex core.old) (after_lock thread mutex core.old)
        (call_outcome thread (Unlock mutex) (after_lock thread mutex core.old)).after }
    ensures added { IfOk result (λ x. sum.new ≡ (sum.old + amount) % 2 ^ 64) }
    ensures refused { IfErr result (λ x. sum.new ≡ sum.old) }
    ensures stands { WhereStands core.old (λ h r w.
        StandsOn core.new (if_taken (lock_finds thread mutex core.old) (after_call thread (Lock mutex) core.old h)
        (after_call thread (Unlock mutex) (after_lock thread mutex core.old)
        (after_call thread (Lock mutex) core.old h))) r w) }
    ensures left { IfOk result (λ x. WhereStands core.old (λ h r w.
        x ≡ Answered 0 → CountsOn thread mutex (hold_count thread mutex h) core.new
        (after_call thread (Unlock mutex) (after_lock thread mutex core.old)
        (after_call thread (Lock mutex) core.old h)) r w)) }
{
    lock_and_hold(core, thread, mutex)?;
    // Here the thread is the one holder of the mutex.
    *sum = sum.wrapping_add(amount);
    Ok(core.call(thread, Request::Unlock(mutex)))
}

/// A thread locks a robust mutex that protects a value. If its last owner has ended, the value is made this fresh one,
/// and the mutex consistent (pthread_mutex_consistent of POSIX), so that it stays usable. If this answers `Ok`, the
/// thread holds the mutex once more than before, and no other thread does; the mutex is then fine, unless the thread
/// was its owner before. `Err` has what the lock was answered if it has not taken the mutex: nothing was done but that
/// lock, and the value is unchanged. After `Waits` the lock stays open, and `finish_lock` goes on with it; after its
/// `OwnerDied` the caller repairs. After ENOTRECOVERABLE nobody will hold the mutex again, and the thread gives up. If
/// its last owner has ended and `consistent` is not answered 0, `Err` has that answer, and the value is the fresh one.
pub fn lock_and_repair(
    core: &mut Core,
    thread: Tid,
    mutex: MutexId,
    value: &mut u64,
    fresh: u64,
) -> Result<Held, Seen>
    ensures answer { result ≡ repaired_by (lock_finds thread mutex core.old)
        (call_outcome thread (Consistent mutex) (after_lock thread mutex core.old)).seen }
    ensures after { core.new ≡ if_died (lock_finds thread mutex core.old) (after_lock thread mutex core.old)
        (call_outcome thread (Consistent mutex) (after_lock thread mutex core.old)).after }
    ensures value { value.new ≡ if_died (lock_finds thread mutex core.old) value.old fresh }
    ensures stands { WhereStands core.old (λ h r w.
        StandsOn core.new (if_died (lock_finds thread mutex core.old) (after_call thread (Lock mutex) core.old h)
        (after_call thread (Consistent mutex) (after_lock thread mutex core.old)
        (after_call thread (Lock mutex) core.old h))) r w) }
    ensures holds { IfOk result (λ x. WhereStands core.old (λ h r w.
        HoldsOn thread mutex (hold_count thread mutex h + 1) core.new
        (if_died (lock_finds thread mutex core.old) (after_call thread (Lock mutex) core.old h)
        (after_call thread (Consistent mutex) (after_lock thread mutex core.old)
        (after_call thread (Lock mutex) core.old h))) r w)) }
    ensures fine { IfOk result (λ x. WhereStands core.old (λ h r w.
        (x ≡ InOrder → (mutex_at w mutex).owner ≢ thread) → IsFineIn mutex core.new)) }
{
    match lock_and_hold(core, thread, mutex) {
        Ok(Held::OwnerDied) => {
            // Here the thread is the one holder of the mutex, and what the mutex protects may be in disorder.
            *value = fresh;
            match core.call(thread, Request::Consistent(mutex)) {
                Seen::Answered(0) => Ok(Held::OwnerDied),
                seen => Err(seen),
            }
        }
        Ok(Held::InOrder) => Ok(Held::InOrder),
        Err(seen) => Err(seen),
    }
}
