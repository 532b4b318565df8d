ghost use Rattle.std.specs.Prelude.{◌≡◌, None, IfSome};
ghost use Rattle.pif_model.specs.Table.{new_table};
ghost use Rattle.pif_c.specs.Handles.{held};
ghost use Rattle.pif_c.specs.Standing.{IsMade};

use crate::handles::PifCore;
use pif_c_numbers::codes::{FULL, INVALID, NO_MEMORY, OK};
use pif_core::Core;
use pif_types::Limits;
use std::alloc::Global;

/// A new core in its block: none if the heap refuses a request.
fn boxed(alloc: Global, limits: Limits) -> Option<Box<Core>>
    ensures { IfSome result (λ core. core.value ≡ new_table limits) }
{
    let core = Core::new(alloc, limits).ok()?;
    Box::new(alloc, core).ok()
}

/// Has a handle hold a new core under these limits, to which nothing was added: 0, or why not, and then it holds what
/// it held. It is refused if the handle holds a core already (`FULL`), or if a limit is outside its range (`INVALID`),
/// and fails if the heap refuses a request (`NO_MEMORY`).
#[unsafe(no_mangle)]
pub extern "C" fn pif_core_new(
    alloc: Global,
    handle: &mut PifCore,
    threads: u32,
    mutexes: u32,
    conds: u32,
    signals: u32,
) -> u32
    ensures { IsMade (record { threads = threads; mutexes = mutexes; conds = conds; signals = signals }) (held handle.old) (held handle.new) result }
{
    if handle.is_full() {
        return FULL;
    }
    match Limits::new(threads, mutexes, conds, signals) {
        Some(limits) => make(alloc, handle, limits),
        None => INVALID,
    }
}

/// Has an empty handle hold a new core: 0, or that the heap refused a request.
fn make(alloc: Global, handle: &mut PifCore, limits: Limits) -> u32
    requires { held handle.old ≡ None }
    ensures { IsMade limits (held handle.old) (held handle.new) result }
{
    // This reads a limit, so that the proof has the ranges of all.
    let _threads = limits.threads();
    match boxed(alloc, limits) {
        Some(core) => {
            handle.put(core);
            OK
        }
        None => NO_MEMORY,
    }
}

/// Gives up the core that a handle holds, if it holds one, and leaves it empty.
#[unsafe(no_mangle)]
pub extern "C" fn pif_core_free(alloc: Global, handle: &mut PifCore)
    ensures { held handle.new ≡ None }
{
    drop(handle.take(alloc));
}
