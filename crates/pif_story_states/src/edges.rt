ghost use Rattle.std.specs.Prelude.{◌≡◌, ◌++◌, OnOk};
ghost use Rattle.pif_story_states.specs.Graphs.{thread_edge};

use crate::pieces::{Name, append_edge};
use pif_core::{Core, Status};
use pif_types::Tid;
use std::alloc::AllocError;

/// Appends the edge of a thread, if it waits: to the mutex for which it waits, or to the condition variable on which it
/// is parked.
pub fn append_thread_edge(core: &Core, thread: Tid, out: &mut Vec<u8>) -> Result<(), AllocError>
    ensures { OnOk result (out.new.items ≡ out.old.items ++ thread_edge core.now thread) }
{
    let name = Name(b't', thread.get());
    let Some(status) = core.status(thread) else {
        return Ok(());
    };
    match status {
        Status::Queued(mutex) => {
            append_edge(out, &name, &Name(b'm', mutex.get()), b"label=\"waits for\"")
        }
        Status::Parked(cond) => append_edge(
            out,
            &name,
            &Name(b'c', cond.get()),
            b"label=\"parked on\" style=dotted",
        ),
        _ => Ok(()),
    }
}
