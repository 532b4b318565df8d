ghost use Rattle.std.specs.Prelude.{◌≡◌, ◌++◌, OnOk};
ghost use Rattle.pif_model.specs.World.{mutex_at, variable_at};
ghost use Rattle.pif_history_told.specs.StateObjects.{cond_object, health_word, holds_of, is_mutex_changed, is_thread_changed, mutex_object, owner_of, thread_object};

use crate::calls::{call_members, is_same_call};
use pif_posix::State;
use pif_text::{Member, append_members, append_object, health_word};
use pif_types::{Health, Tid};
use std::alloc::AllocError;

/// Appends a thread, as an object.
#[tactic(auto, unfolding(crate::specs::StateObjects::thread_object))]
pub fn append_thread(state: &State, thread: Tid, out: &mut Vec<u8>) -> Result<(), AllocError>
    ensures { OnOk result (out.new.items ≡ out.old.items ++ thread_object state.now thread) }
{
    let at = thread.get() as usize;
    append_members(
        out,
        b'{',
        &[
            Member::Name("name", b't', thread.get()),
            Member::Bool("living", state.is_living(at)),
            Member::Number("priority", state.effective(at)),
            Member::Bool("rests", state.rests(at)),
        ],
    )?;
    out.extend_from_slice(call_members(thread, state.call(at)).as_slice())?;
    out.extend_from_slice(b"}")
}

/// Whether a thread is another one than before.
#[tactic(auto, unfolding(crate::specs::StateObjects::is_thread_changed))]
pub fn is_thread_changed(from: &State, to: &State, thread: Tid) -> bool
    ensures { result ≡ is_thread_changed from.now to.now thread }
{
    let at = thread.get() as usize;
    !(is_same_call(thread, from.call(at), to.call(at))
        && from.is_living(at) == to.is_living(at)
        && from.rests(at) == to.rests(at)
        && from.effective(at) == to.effective(at))
}

/// How often a mutex is held, if somebody owns it; 1 if it was not added.
fn count(state: &State, mutex: usize) -> u32
    ensures { result ≡ (mutex_at state.now mutex).count }
{
    if mutex < state.mutex_count() {
        state.count(mutex)
    } else {
        1
    }
}

/// How often the owner of a mutex holds it; 0 if it has none or was not added.
fn holds(state: &State, mutex: usize) -> u32
    ensures { result ≡ holds_of (mutex_at state.now mutex) }
{
    if state.owner_or_none(mutex) == 0 {
        0
    } else {
        count(state, mutex)
    }
}

/// The health of a mutex, in one word; that of one that was not added is fine.
#[tactic(auto, using(crate::proofs::HealthLemmas::same_word))]
fn health(state: &State, mutex: usize) -> &'static [u8]
    ensures { result.now ≡ health_word (mutex_at state.now mutex).health }
{
    if mutex < state.mutex_count() {
        health_word(state.health(mutex)).as_bytes()
    } else {
        health_word(Health::Fine).as_bytes()
    }
}

/// The owner of a mutex, if it has one.
fn owner(state: &State, mutex: usize) -> Option<u32>
    ensures { result ≡ owner_of (mutex_at state.now mutex).owner }
{
    let owner = state.owner_or_none(mutex);
    if owner == 0 { None } else { Some(owner) }
}

/// Appends a mutex, as an object.
#[tactic(auto, unfolding(crate::specs::StateObjects::mutex_object))]
pub fn append_mutex(state: &State, mutex: u32, out: &mut Vec<u8>) -> Result<(), AllocError>
    ensures { OnOk result (out.new.items ≡ out.old.items ++ mutex_object state.now mutex) }
{
    let at = mutex as usize;
    append_object(
        out,
        &[
            Member::Name("name", b'm', mutex),
            Member::NameOrNull("owner", b't', owner(state, at)),
            Member::Number("count", holds(state, at)),
            Member::Quoted("health", health(state, at)),
        ],
    )
}

/// Whether a mutex was not there, or is another one than before.
#[tactic(auto, unfolding(crate::specs::StateObjects::is_mutex_changed))]
pub fn is_mutex_changed(from: &State, to: &State, mutex: usize) -> bool
    ensures { result ≡ is_mutex_changed from.now to.now mutex }
{
    !(mutex < from.mutex_count()
        && from.owner_or_none(mutex) == to.owner_or_none(mutex)
        && holds(from, mutex) == holds(to, mutex)
        && health(from, mutex) == health(to, mutex))
}

/// The mutex to which a condition variable is bound; 0 if it was not added.
pub fn bound(state: &State, cond: usize) -> u32
    ensures { result ≡ (variable_at state.now cond).mutex }
{
    if cond < state.variable_count() {
        state.bound(cond)
    } else {
        0
    }
}

/// Appends a condition variable, as an object.
#[tactic(auto, unfolding(crate::specs::StateObjects::cond_object))]
pub fn append_cond(state: &State, cond: u32, out: &mut Vec<u8>) -> Result<(), AllocError>
    ensures { OnOk result (out.new.items ≡ out.old.items ++ cond_object state.now cond) }
{
    append_object(
        out,
        &[
            Member::Name("name", b'c', cond),
            Member::Name("mutex", b'm', bound(state, cond as usize)),
        ],
    )
}
