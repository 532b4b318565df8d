ghost use Rattle.std.specs.Prelude.{◌≡◌, ◌++◌, OnOk, option_copied, option_map};
ghost use Rattle.pif_model.specs.Calls.{health_answer, kind_answer, owner_answer};
ghost use Rattle.pif_text_model.specs.CommandTexts.{kind_word};
ghost use Rattle.pif_text_model.specs.Replies.{health_text};
ghost use Rattle.pif_text_core.specs.Waiting.{owner_of};
ghost use Rattle.pif_story_states.specs.Objects.{mutex_object, times};

use crate::queues::append_order;
use pif_core::{Core, Order};
use pif_text::{Member, append_members, health_word, kind_word};
use pif_types::MutexId;
use std::alloc::AllocError;

/// The kind of a mutex, in one word, and whether it is robust; neither if it was never added.
fn kind(core: &Core, mutex: MutexId) -> (Option<&'static [u8]>, Option<bool>)
    ensures kind { option_copied result.0 ≡ option_map (λ k. kind_word k.0) (kind_answer mutex core.now) }
    ensures robust { result.1 ≡ option_map (λ k. k.1) (kind_answer mutex core.now) }
{
    match core.kind(mutex) {
        Some((kind, is_robust)) => (Some(kind_word(kind).as_bytes()), Some(is_robust)),
        None => (None, None),
    }
}

/// The health of a mutex as `Core::health` has it, by its health word, if it was added. Right after its owner ended that
/// word is still what it was.
fn health(core: &Core, mutex: MutexId) -> Option<&'static [u8]>
    ensures { option_copied result ≡ option_map health_text (health_answer mutex core.now) }
{
    match core.health(mutex) {
        Some(health) => Some(health_word(health).as_bytes()),
        None => None,
    }
}

/// The owner of a mutex, and how often it holds the mutex; `None` and 0 if nobody owns it.
fn owner(core: &Core, mutex: MutexId) -> (Option<u32>, u32)
    ensures owner { result.0 ≡ owner_of mutex core.now }
    ensures count { result.1 ≡ times (owner_answer mutex core.now) }
{
    match core.owner(mutex) {
        Some((owner, count)) => (Some(owner.get()), count),
        None => (None, 0),
    }
}

/// Appends a mutex, as an object.
pub fn append_mutex(core: &Core, mutex: MutexId, out: &mut Vec<u8>) -> Result<(), AllocError>
    ensures { OnOk result (out.new.items ≡ out.old.items ++ mutex_object core.now mutex) }
{
    let (kind, is_robust) = kind(core, mutex);
    let (owner, count) = owner(core, mutex);
    append_members(
        out,
        b'{',
        &[
            Member::Name("name", b'm', mutex.get()),
            Member::QuotedOrNull("kind", kind),
            Member::BoolOrNull("robust", is_robust),
            Member::QuotedOrNull("health", health(core, mutex)),
            Member::NumberOrNull("word", core.word(mutex)),
            Member::NameOrNull("owner", b't', owner),
            Member::Number("count", count),
        ],
    )?;
    append_order(core, "waiters", &Order::Waiters(mutex), out)?;
    out.extend_from_slice(b"}")
}
