ghost use Rattle.std.specs.Prelude.{◌≡◌, ◌++◌, OnOk, option_and_then, option_copied, option_map};
ghost use Rattle.pif_model.specs.Calls.{status_answer};
ghost use Rattle.pif_story_states.specs.Objects.{call_member, cond_by, state_word, thread_object};

use crate::holds::append_holds;
use crate::numbers::number_of;
use pif_core::{Core, Status};
use pif_story::name_of;
use pif_text::{Member, Text, append_members, append_request};
use pif_text_core::awaited;
use pif_types::{Prio, Tid};
use std::alloc::AllocError;

/// What a thread of this status does, in one word.
fn state_word(status: Status) -> &'static str
    ensures { result.now ≡ state_word status }
{
    match status {
        Status::Ready(_) => "ready",
        Status::Queued(_) => "waits",
        Status::Parked(_) => "parked",
        Status::Stopped => "stopped",
        Status::Ended => "ended",
    }
}

/// What a thread does, in one word, if it was added.
fn state(core: &Core, thread: Tid) -> Option<&'static [u8]>
    ensures { option_copied result ≡ option_map state_word (status_answer thread core.now) }
{
    match core.status(thread) {
        Some(status) => Some(state_word(status).as_bytes()),
        None => None,
    }
}

/// The number of the condition variable on which a thread is parked.
fn parked_on(core: &Core, thread: Tid) -> Option<u32>
    ensures { result ≡ option_and_then cond_by (status_answer thread core.now) }
{
    match core.status(thread) {
        Some(status) => match status {
            Status::Parked(cond) => Some(cond.get()),
            _ => None,
        },
        None => None,
    }
}

/// The number of a priority, if there is one.
fn level(priority: Option<Prio>) -> Option<u32>
    ensures { result ≡ priority }
{
    match priority {
        Some(priority) => Some(priority.get()),
        None => None,
    }
}

/// Appends the call that a thread has open, as a member.
#[tactic(auto, unfolding(crate::specs::Objects::call_member))]
fn append_call(core: &Core, thread: Tid, out: &mut Vec<u8>) -> Result<(), AllocError>
    ensures { OnOk result (out.new.items ≡ out.old.items ++ call_member thread core.now) }
{
    match core.open_call(thread) {
        Some(request) => {
            let mut text = Text::new();
            append_request(&mut text, request);
            append_members(out, b',', &[Member::Quoted("call", text.as_slice())])
        }
        None => append_members(out, b',', &[Member::Null("call")]),
    }
}

/// Appends a thread, as an object, with the name that these comments give it.
pub fn append_thread(
    core: &Core,
    names: &[u8],
    thread: Tid,
    out: &mut Vec<u8>,
) -> Result<(), AllocError>
    ensures { OnOk result (out.new.items ≡ out.old.items ++ thread_object names.now core.now thread) }
{
    append_members(
        out,
        b'{',
        &[
            Member::Name("name", b't', thread.get()),
            Member::QuotedOrNull("label", name_of(names, thread)),
            Member::QuotedOrNull("state", state(core, thread)),
            Member::NameOrNull("waits_for", b'm', number_of(awaited(core, thread))),
            Member::NameOrNull("parked_on", b'c', parked_on(core, thread)),
            Member::NumberOrNull("priority", level(core.effective(thread))),
            Member::NumberOrNull("base", level(core.base(thread))),
        ],
    )?;
    append_call(core, thread, out)?;
    append_holds(core, thread, out)?;
    out.extend_from_slice(b"}")
}
