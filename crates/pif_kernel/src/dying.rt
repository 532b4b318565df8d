ghost use Rattle.std.specs.Prelude.{◌≡◌};
ghost use Rattle.pif_model.specs.declared.lines.Status.TheVariants.{Ended};
ghost use Rattle.pif_model.specs.PiKernel.{seat_at, after_death, after_deaths};
ghost use Rattle.pif_model.specs.RobustList.{robust_at, walk_of};
ghost use Rattle.pif_kernel_model.specs.Inside.{IsSoundInside, kernel_of};
ghost use Rattle.pif_kernel.specs.Systems.{system_of};

use crate::chains::Chains;
use crate::parts::Parts;
use pif_robust::RobustLists;
use pif_types::{MutexId, Tid};
use pif_word::{Cell, Words, inherit_word, number, orphan_word};

/// Each mutex that the robust list and the pending field of this thread name passes on as `pass_on` says, one after the
/// other along the list, the last linked first and the pending one last.
pub(crate) fn pass_all_on<C: Chains + Drop>(
    parts: &mut Parts<C>,
    words: &mut Words,
    lists: &RobustLists,
    t: Tid,
)
    requires sound { IsSoundInside parts.old }
    requires ended { (seat_at (kernel_of parts.old) t).status ≡ Ended }
    ensures after { system_of words.new parts.new
        ≡ after_deaths t (walk_of (robust_at lists.now t)) (system_of words.old parts.old) }
    ensures sound { IsSoundInside parts.new }
{
    let mut next = lists.walk_first(t);
    while let Some(m) = next {
        pass_on(parts, words, t, m);
        next = lists.walk_next(t, m);
    }
}

/// A mutex passes on if its word has the number of this thread, which has ended. With no owner state the word gets
/// OWNER_DIED, keeps WAITERS, and loses the number. With one of the thread it is handed to its next waiter, and the
/// word gets that number and both flags. With one of another owner nothing changes. Without a word, and if the word has
/// another number, nothing changes either.
fn pass_on<C: Chains + Drop>(parts: &mut Parts<C>, words: &mut Words, t: Tid, m: MutexId)
    requires sound { IsSoundInside parts.old }
    requires ended { (seat_at (kernel_of parts.old) t).status ≡ Ended }
    ensures after { system_of words.new parts.new ≡ after_death t m (system_of words.old parts.old) }
    ensures sound { IsSoundInside parts.new }
    ensures ended { (seat_at (kernel_of parts.new) t).status ≡ Ended }
{
    if !words.has(Cell::Mutex(m)) {
        return;
    }
    let word = words.load(Cell::Mutex(m));
    // The pending field may name a mutex that the thread hasn't taken yet or has released, which isn't the thread's.
    if number(word) != t.get() {
        return;
    }
    match parts.key(m) {
        None => words.store(Cell::Mutex(m), orphan_word(word)),
        Some(key) if parts.owner(key) == t => {
            let next = parts.hand_over(t, m, key);
            words.store(Cell::Mutex(m), inherit_word(next.get()));
        }
        Some(_) => {}
    }
}
