ghost use Rattle.std.specs.Prelude.{◌≡◌, ℕ, Option, Some, None, Result};
ghost use Rattle.pif_types.specs.declared.errors.AddFault.{AddFault};
ghost use Rattle.pif_c.specs.Handles.{held};
ghost use Rattle.pif_c.specs.Asking.{added, added_after, add_told, add_after, mutex_of};
ghost use Rattle.pif_c.specs.Standing.{Adds};

use crate::handles::PifCore;
use pif_c_numbers::codes::{INVALID, NO_CORE};
use pif_c_numbers::{PifNumber, added_told, kind_of};
use pif_core::Core;
use pif_types::{AddFault, Kind, MutexId};
use std::alloc::Global;

/// What is added to a core.
#[derive(Clone, Copy)]
pub enum Addition {
    /// A thread of this base priority.
    Thread(u32),
    /// A mutex of this kind; true if it is robust.
    Mutex(Kind, bool),
    /// A condition variable, bound to this mutex.
    Cond(u32),
}

fn add_thread(core: &mut Core, prio: u32) -> Result<u32, AddFault>
    ensures answer { result ≡ added (Addition.Thread prio) core.old }
    ensures after { core.new ≡ added_after (Addition.Thread prio) core.old }
{
    match core.add_thread(prio) {
        Ok(thread) => Ok(thread.get()),
        Err(fault) => Err(fault),
    }
}

fn add_mutex(core: &mut Core, kind: Kind, robust: bool) -> Result<u32, AddFault>
    ensures answer { result ≡ added (Addition.Mutex kind robust) core.old }
    ensures after { core.new ≡ added_after (Addition.Mutex kind robust) core.old }
{
    match core.add_mutex(kind, robust) {
        Ok(mutex) => Ok(mutex.get()),
        Err(fault) => Err(fault),
    }
}

fn add_cond(core: &mut Core, mutex: u32) -> Result<u32, AddFault>
    ensures answer { result ≡ added (Addition.Cond mutex) core.old }
    ensures after { core.new ≡ added_after (Addition.Cond mutex) core.old }
{
    let Some(mutex) = MutexId::new(mutex) else {
        return Err(AddFault::NoSuch);
    };
    match core.add_cond(mutex) {
        Ok(cond) => Ok(cond.get()),
        Err(fault) => Err(fault),
    }
}

/// An addition to a core, if the numbers name one.
fn add(core: &mut Core, asked: Option<Addition>) -> PifNumber
    ensures answer { result ≡ add_told asked (Some core.old) }
    ensures after { Some core.new ≡ add_after asked (Some core.old) }
{
    match asked {
        Some(Addition::Thread(prio)) => added_told(add_thread(core, prio)),
        Some(Addition::Mutex(kind, robust)) => added_told(add_mutex(core, kind, robust)),
        Some(Addition::Cond(mutex)) => added_told(add_cond(core, mutex)),
        None => PifNumber::refused(INVALID),
    }
}

/// An addition to the core that a handle holds.
#[tactic(auto, using(crate::proofs::Keeping::added_keeps_after))]
fn add_on(alloc: Global, handle: &mut PifCore, asked: Option<Addition>) -> PifNumber
    ensures { Adds asked (held handle.old) (held handle.new) result }
{
    match handle.take(alloc) {
        Some(mut core) => {
            let told = add(&mut core, asked);
            handle.put(core);
            told
        }
        None => PifNumber::refused(NO_CORE),
    }
}

/// The addition of a mutex of the kind that has this number in pthread.h of Linux.
fn mutex_of(kind: u32, robust: bool) -> Option<Addition>
    ensures { result ≡ mutex_of kind robust }
{
    let kind = kind_of(kind)?;
    Some(Addition::Mutex(kind, robust))
}

/// Adds a thread of this base priority: `Core::add_thread`.
#[unsafe(no_mangle)]
pub extern "C" fn pif_add_thread(alloc: Global, handle: &mut PifCore, prio: u32) -> PifNumber
    ensures { Adds (Some (Addition.Thread prio)) (held handle.old) (held handle.new) result }
{
    add_on(alloc, handle, Some(Addition::Thread(prio)))
}

/// Adds a mutex of this kind, robust or stalled: `Core::add_mutex`. If no kind has that number, nothing has changed.
#[unsafe(no_mangle)]
pub extern "C" fn pif_add_mutex(
    alloc: Global,
    handle: &mut PifCore,
    kind: u32,
    robust: bool,
) -> PifNumber
    ensures { Adds (mutex_of kind robust) (held handle.old) (held handle.new) result }
{
    add_on(alloc, handle, mutex_of(kind, robust))
}

/// Adds a condition variable, and binds it to this mutex: `Core::add_cond`.
#[unsafe(no_mangle)]
pub extern "C" fn pif_add_cond(alloc: Global, handle: &mut PifCore, mutex: u32) -> PifNumber
    ensures { Adds (Some (Addition.Cond mutex)) (held handle.old) (held handle.new) result }
{
    add_on(alloc, handle, Some(Addition::Cond(mutex)))
}
