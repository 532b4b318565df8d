ghost use Rattle.std.specs.Prelude.{◌≡◌, ◌++◌, OnOk};
ghost use Rattle.pif_text_core.specs.Waiting.{awaited, blocker};
ghost use Rattle.pif_story_states.specs.Objects.{chain_array, chain_from, mutex_link};

use pif_core::Core;
use pif_text::append_name;
use pif_text_core::{awaited, blocker};
use pif_types::Tid;
use std::alloc::AllocError;

/// Appends the mutex for which a thread waits, if it waits for one, behind a comma.
fn append_link(core: &Core, thread: Tid, out: &mut Vec<u8>) -> Result<(), AllocError>
    ensures { OnOk result (out.new.items ≡ out.old.items ++ mutex_link (awaited thread core.now)) }
{
    match awaited(core, thread) {
        Some(mutex) => {
            out.push(b',')?;
            append_name(out, b'm', mutex.get())
        }
        None => Ok(()),
    }
}

/// Appends the threads and the mutexes for which they wait by turns, from a thread on, with so many threads behind it
/// at most.
fn append_from(core: &Core, thread: Tid, most: u32, out: &mut Vec<u8>) -> Result<(), AllocError>
    ensures { OnOk result (out.new.items ≡ out.old.items ++ chain_from most core.now thread) }
{
    let mut next = thread;
    for place in 0..most {
        append_name(out, b't', next.get())?;
        append_link(core, next, out)?;
        match blocker(core, next) {
            Some(owner) => {
                out.push(b',')?;
                next = owner;
            }
            None => return Ok(()),
        }
    }
    append_name(out, b't', next.get())
}

/// Appends the chain that begins with a thread, as an array.
pub fn append_chain(core: &Core, thread: Tid, out: &mut Vec<u8>) -> Result<(), AllocError>
    ensures { OnOk result (out.new.items ≡ out.old.items ++ chain_array core.now thread) }
{
    out.push(b'[')?;
    append_from(core, thread, core.threads(), out)?;
    out.extend_from_slice(b"]")
}
