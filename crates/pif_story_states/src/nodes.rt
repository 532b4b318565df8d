ghost use Rattle.std.specs.Prelude.{◌≡◌, ◌++◌, codes, OnOk};
ghost use Rattle.pif_model.specs.Calls.{status_answer};
ghost use Rattle.pif_text_model.specs.Replies.{thread_name};
ghost use Rattle.pif_story_states.specs.Graphs.{base_words, ended_node, fill, living_node, priority_words, stopped_words, thread_node};

use crate::pieces::{Name, append_name};
use pif_core::{Core, Status};
use pif_text::append_decimal;
use pif_types::Tid;
use std::alloc::AllocError;

/// Appends the priority of a thread's own, if the thread runs above that.
fn append_base(out: &mut Vec<u8>, effective: u32, base: u32) -> Result<(), AllocError>
    ensures { OnOk result (out.new.items ≡ out.old.items ++ base_words effective base) }
{
    if effective > base {
        out.extend_from_slice(b" (base ")?;
        append_decimal(out, u64::from(base))?;
        out.extend_from_slice(b")")
    } else {
        Ok(())
    }
}

/// Appends the priority at which a thread runs, and also its own if it runs above that.
fn append_priorities(out: &mut Vec<u8>, effective: u32, base: u32) -> Result<(), AllocError>
    ensures { OnOk result (out.new.items ≡ out.old.items ++ priority_words effective base) }
{
    out.extend_from_slice(b"\\npriority ")?;
    append_decimal(out, u64::from(effective))?;
    append_base(out, effective, base)
}

/// That a thread is stopped for good, if it is.
fn stopped_words(core: &Core, thread: Tid) -> &'static [u8]
    ensures { result.now ≡ stopped_words (status_answer thread core.now) }
{
    match core.status(thread) {
        Some(Status::Stopped) => b"\\nstopped",
        _ => b"",
    }
}

/// How a thread looks: it is filled if it runs above its own priority.
fn fill(effective: u32, base: u32) -> &'static [u8]
    ensures { result.now ≡ fill effective base }
{
    if effective > base {
        b"\" style=filled fillcolor=\"#ffb08a\""
    } else {
        b"\""
    }
}

/// Appends the node of a thread that runs at this priority, and has this one of its own.
#[tactic(auto, unfolding(crate::specs::Graphs::living_node))]
fn append_living(
    core: &Core,
    thread: Tid,
    effective: u32,
    base: u32,
    out: &mut Vec<u8>,
) -> Result<(), AllocError>
    ensures { OnOk result (out.new.items ≡ out.old.items ++ living_node thread effective base (status_answer thread core.now)) }
{
    append_label(out, thread)?;
    append_priorities(out, effective, base)?;
    out.extend_from_slice(stopped_words(core, thread))?;
    out.extend_from_slice(fill(effective, base))?;
    out.extend_from_slice(b"]\n")
}

/// Appends the node of a thread as far as its label says no more than its name.
fn append_label(out: &mut Vec<u8>, thread: Tid) -> Result<(), AllocError>
    ensures { OnOk result (out.new.items
        ≡ out.old.items ++ (codes "  " ++ thread_name thread ++ codes " [label=\"" ++ thread_name thread)) }
{
    let name = Name(b't', thread.get());
    out.extend_from_slice(b"  ")?;
    append_name(out, &name)?;
    out.extend_from_slice(b" [label=\"")?;
    append_name(out, &name)
}

/// Appends the node of a thread that has ended.
#[tactic(auto, unfolding(crate::specs::Graphs::ended_node))]
fn append_ended(out: &mut Vec<u8>, thread: Tid) -> Result<(), AllocError>
    ensures { OnOk result (out.new.items ≡ out.old.items ++ ended_node thread) }
{
    append_label(out, thread)?;
    out.extend_from_slice(b"\\nended\" style=dashed]\n")
}

/// Appends the node of a thread.
pub fn append_thread(core: &Core, thread: Tid, out: &mut Vec<u8>) -> Result<(), AllocError>
    ensures { OnOk result (out.new.items ≡ out.old.items ++ thread_node core.now thread) }
{
    match core.effective(thread) {
        Some(effective) => match core.base(thread) {
            Some(base) => append_living(core, thread, effective.get(), base.get(), out),
            None => append_ended(out, thread),
        },
        None => append_ended(out, thread),
    }
}
