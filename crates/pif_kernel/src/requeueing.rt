ghost use Rattle.std.specs.Prelude.{◌≡◌, true, min, ◌+◌, ◌<◌};
ghost use Rattle.pif_model.specs.PiKernel.{seat_at, is_parked, has_parked, parked_count, may_queue, after_taking, after_takings};
ghost use Rattle.pif_word.specs.declared.cells.Cell.TheVariants.{Mutex};
ghost use Rattle.pif_word.specs.WordMap.{HasCell};
ghost use Rattle.pif_kernel_model.specs.Inside.{IsSoundInside, kernel_of};
ghost use Rattle.pif_kernel.specs.Systems.{system_of};
ghost use Rattle.pif_kernel_model.specs.Takings.{FitsWord};

use crate::chains::Chains;
use crate::parts::Parts;
use pif_model::Woken;
use pif_types::{CondId, MutexId, Tid};
use pif_word::{Cell, Words, mark_word, number, taken_word};

/// Takes at most 1 + `more` of the threads that are parked on a variable for its mutex, one after another, each
/// time the one that is next then. Answers how many.
pub(crate) fn take_all<C: Chains + Drop>(
    parts: &mut Parts<C>,
    words: &mut Words,
    c: CondId,
    m: MutexId,
    more: u32,
) -> u32
    requires sound { IsSoundInside parts.old }
    requires word { HasCell words.old (Mutex m) }
    requires fits { has_parked (kernel_of parts.old) c ≡ true → FitsWord m (system_of words.old parts.old) }
    ensures count { result ≡ min (parked_count (kernel_of parts.old) c) (more + 1) }
    ensures after { system_of words.new parts.new ≡ after_takings (more + 1) c m (system_of words.old parts.old) }
    ensures sound { IsSoundInside parts.new }
{
    for taken in 0..u64::from(more) + 1 {
        // Asked anew each time: a thread that was queued before may boost one that is still parked.
        match parts.next_parked(c) {
            Some(u) => take(parts, words, u, m),
            None => return taken as u32,
        }
    }
    more + 1
}

/// Takes a parked thread from its variable for this mutex, by the word as it is now. A word without a number: the
/// thread owns the mutex. The number of a living thread, for which it can wait without a cycle: it is queued on the
/// mutex. Else it is woken to lock the mutex itself.
fn take<C: Chains + Drop>(parts: &mut Parts<C>, words: &mut Words, u: Tid, m: MutexId)
    requires sound { IsSoundInside parts.old }
    requires parked { is_parked (seat_at (kernel_of parts.old) u).status ≡ true }
    requires word { HasCell words.old (Mutex m) }
    requires fits { FitsWord m (system_of words.old parts.old) }
    ensures after { system_of words.new parts.new ≡ after_taking u m (system_of words.old parts.old) }
    ensures sound { IsSoundInside parts.new }
    ensures mutex { m < 1025 }
{
    let word = words.load(Cell::Mutex(m));
    match Tid::new(number(word)) {
        None => {
            words.store(Cell::Mutex(m), taken_word(word, u.get()));
            parts.wake(u, Woken::Owns);
        }
        Some(owner) if parts.may_queue(u, owner) => {
            words.store(Cell::Mutex(m), mark_word(word));
            // It is on its level until it is queued.
            parts.wake(u, Woken::Again);
            parts.queue_on(u, m, owner, parts.key(m));
        }
        // The owner has ended, or waits for this thread. It locks for itself, so that the refusal is its own call's
        // answer and not that of the thread which wakes it.
        Some(_) => parts.wake(u, Woken::Again),
    }
}
