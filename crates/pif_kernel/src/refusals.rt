ghost use Rattle.std.specs.Prelude.{ℕ, ◌≡◌, ◌==◌, ◌<◌, ◌≤◌, true, false, IsTrue, length, if◌then◌else◌, IfOk, OnOk, IsSome};
ghost use Rattle.std.specs.Option.{ForSome};
ghost use Rattle.pif_kernel_model.specs.Owners.{owner_at};
ghost use Rattle.pif_model.specs.Word.{has_word, has_cond_word};
ghost use Rattle.pif_model.specs.PiKernel.{lock_answer, wait_answer, try_lock_answer, unlock_answer, set_prio_answer, state_at, has_parked, has_other_target, fits_state, wait_requeue_answer, requeue_answer};
ghost use Rattle.pif_word.specs.declared.cells.Cell.TheVariants.{Mutex, Cond};
ghost use Rattle.pif_word.specs.WordMap.{HasCell, words_of};
ghost use Rattle.pif_kernel.specs.Answers.{test_answer, wait_test_answer};
ghost use Rattle.pif_kernel_calls.specs.Answers.{unit_answer};
ghost use Rattle.pif_kernel.specs.Found.{IsWord, IsFound, IsOwn, lock_test_answer};
ghost use Rattle.pif_kernel_model.specs.Inside.{IsSoundInside, kernel_of, owner_under};
ghost use Rattle.pif_kernel.specs.Systems.{system_of};
ghost use Rattle.pif_kernel_model.specs.Takings.{FitsWord, requeue_test_answer};

use crate::chains::Chains;
use crate::parts::Parts;
use pif_kernel_model::Key;
use pif_types::{CondId, Errno, MutexId, Prio, Tid};
use pif_word::{Cell, Words, number};

/// What lock_pi finds if nothing refuses it.
#[derive(Clone, Copy)]
pub enum Found {
    /// The mutex has this word and no owner.
    Free(u32),
    /// The mutex has this word and this owner, for whom the thread may wait. Its owner state has this key, if there is
    /// one.
    Held(u32, Tid, Option<Key>),
}

/// The tests of lock_pi: EFAULT, EDEADLK, EINVAL or ESRCH, or else what it found.
pub fn test_lock<C: Chains + Drop>(
    parts: &Parts<C>,
    words: &Words,
    t: Tid,
    m: MutexId,
) -> Result<Found, Errno>
    requires { IsSoundInside parts.now }
    ensures answer { lock_test_answer result ≡ lock_answer t m (words_of words.now) (kernel_of parts.now) }
    ensures found { IfOk result (λ found. IsFound found t m words.now parts.now) }
{
    if !words.has(Cell::Mutex(m)) {
        return Err(Errno::Fault);
    }
    let word = words.load(Cell::Mutex(m));
    if number(word) == t.get() {
        return Err(Errno::Deadlock);
    }
    let key = parts.key(m);
    match Tid::new(number(word)) {
        None if key.is_none() => Ok(Found::Free(word)),
        None => Err(Errno::Invalid),
        Some(owner) => {
            parts.test_wait(t, owner, key)?;
            Ok(Found::Held(word, owner, key))
        }
    }
}

/// The tests of trylock_pi: EFAULT, EDEADLK, EAGAIN or EINVAL, or else the word of the mutex.
pub fn test_try_lock<C: Chains + Drop>(
    parts: &Parts<C>,
    words: &Words,
    t: Tid,
    m: MutexId,
) -> Result<u32, Errno>
    requires { IsSoundInside parts.now }
    ensures answer { test_answer result ≡ try_lock_answer t m (words_of words.now) (kernel_of parts.now) }
    ensures word { IfOk result (λ word. IsWord m word words.now) }
{
    if !words.has(Cell::Mutex(m)) {
        return Err(Errno::Fault);
    }
    let word = words.load(Cell::Mutex(m));
    let owner = number(word);
    if owner == t.get() {
        return Err(Errno::Deadlock);
    }
    if owner != 0 {
        return Err(Errno::Again);
    }
    if parts.key(m).is_some() {
        return Err(Errno::Invalid);
    }
    Ok(word)
}

/// The tests of unlock_pi: EFAULT, EPERM or EINVAL, or else the key of the mutex's owner state. `None` if it has
/// none.
pub fn test_unlock<C: Chains + Drop>(
    parts: &Parts<C>,
    words: &Words,
    t: Tid,
    m: MutexId,
) -> Result<Option<Key>, Errno>
    requires { IsSoundInside parts.now }
    ensures answer { test_answer result ≡ unlock_answer t m (words_of words.now) (kernel_of parts.now) }
    ensures own { IfOk result (λ key. IsOwn t m key words.now parts.now) }
{
    if !words.has(Cell::Mutex(m)) {
        return Err(Errno::Fault);
    }
    if number(words.load(Cell::Mutex(m))) != t.get() {
        return Err(Errno::NotPermitted);
    }
    match parts.key(m) {
        None => Ok(None),
        Some(key) if parts.owner(key) == t => Ok(Some(key)),
        Some(_) => Err(Errno::Invalid),
    }
}

/// The tests of set_prio: EINVAL or ESRCH, or else the priority.
pub fn test_set_prio<C: Chains + Drop>(parts: &Parts<C>, t: Tid, p: u32) -> Result<Prio, Errno>
    requires { IsSoundInside parts.now }
    ensures answer { test_answer result ≡ set_prio_answer t p (kernel_of parts.now) }
    ensures value { IfOk result (λ prio. prio ≡ p) }
{
    match Prio::new(p) {
        None => Err(Errno::Invalid),
        Some(prio) if parts.lives(t) => Ok(prio),
        Some(_) => Err(Errno::NoSuchThread),
    }
}

/// The tests of wait_requeue_pi: EFAULT or EAGAIN. If none refuses, the variable has a word, as 256 have at most.
pub fn test_parking(words: &Words, c: CondId, expected: u32, m: MutexId) -> Result<(), Errno>
    ensures answer { unit_answer result ≡ wait_requeue_answer c expected m (words_of words.now) }
    ensures cond { OnOk result (c ≤ 256) }
{
    if !have_words(words, c, m) {
        return Err(Errno::Fault);
    }
    if words.load(Cell::Cond(c)) != expected {
        return Err(Errno::Again);
    }
    Ok(())
}

/// The tests of cmp_requeue_pi: EFAULT, EINVAL, EAGAIN or EINVAL.
pub fn test_requeue<C: Chains + Drop>(
    parts: &Parts<C>,
    words: &Words,
    c: CondId,
    m: MutexId,
    val: u32,
    expected: u32,
) -> Result<(), Errno>
    requires { IsSoundInside parts.now }
    ensures answer { (more : ℕ) → requeue_answer c m val more expected (words_of words.now) (kernel_of parts.now) ≡ requeue_test_answer result c more (kernel_of parts.now) }
    ensures word { OnOk result (HasCell words.now (Mutex m)) }
    ensures fits { OnOk result (has_parked (kernel_of parts.now) c ≡ true → FitsWord m (system_of words.now parts.now)) }
{
    if !have_words(words, c, m) {
        return Err(Errno::Fault);
    }
    if val != 1 {
        return Err(Errno::Invalid);
    }
    if words.load(Cell::Cond(c)) != expected {
        return Err(Errno::Again);
    }
    if parts.has_other_target(c, m) {
        return Err(Errno::Invalid);
    }
    if parts.next_parked(c).is_none() {
        return Ok(());
    }
    if !parts.fits_state(number(words.load(Cell::Mutex(m))), m) {
        return Err(Errno::Invalid);
    }
    Ok(())
}

/// Whether the variable and the mutex have words.
fn have_words(words: &Words, c: CondId, m: MutexId) -> bool
    ensures value { result ≡ (if has_cond_word (words_of words.now) c then has_word (words_of words.now) m else false) }
    ensures cond { IsTrue result → HasCell words.now (Cond c) }
    ensures mutex { IsTrue result → HasCell words.now (Mutex m) }
{
    words.has(Cell::Cond(c)) && words.has(Cell::Mutex(m))
}
