ghost use Rattle.std.specs.Prelude.{◌≡◌, ◌++◌, OnOk};
ghost use Rattle.pif_story_states.specs.Graphs.{cond_parts, mutex_parts, parts_of, thread_edge, thread_node};

use crate::edges::append_thread_edge;
use crate::lists::{Numbered, append_all};
use crate::nodes::append_thread;
use crate::pieces::{Name, append_edge, append_node};
use pif_core::Core;
use pif_text_core::{conds_added, mutexes_added, owner_of};
use pif_types::{CondId, MutexId, Tid};
use std::alloc::AllocError;

/// The nodes of threads.
#[derive(Clone, Copy)]
struct Threads<'a>(&'a Core);

impl Numbered for Threads<'_> {
    ghost text = { λ things number. thread_node things.0.now number };

    fn append(&self, number: u32, out: &mut Vec<u8>) -> Result<(), AllocError> {
        match Tid::new(number) {
            Some(thread) => append_thread(self.0, thread, out),
            None => Ok(()),
        }
    }
}

/// The mutexes that are held, with their owners.
#[derive(Clone, Copy)]
struct Mutexes<'a>(&'a Core);

impl Numbered for Mutexes<'_> {
    ghost text = { λ things number. mutex_parts things.0.now number };

    fn append(&self, number: u32, out: &mut Vec<u8>) -> Result<(), AllocError> {
        match MutexId::new(number) {
            Some(mutex) => append_mutex(self.0, mutex, out),
            None => Ok(()),
        }
    }
}

/// The condition variables on which somebody is parked.
#[derive(Clone, Copy)]
struct Conds<'a>(&'a Core);

impl Numbered for Conds<'_> {
    ghost text = { λ things number. cond_parts things.0.now number };

    fn append(&self, number: u32, out: &mut Vec<u8>) -> Result<(), AllocError> {
        match CondId::new(number) {
            Some(cond) => append_cond(self.0, cond, out),
            None => Ok(()),
        }
    }
}

/// What threads wait for.
#[derive(Clone, Copy)]
struct Edges<'a>(&'a Core);

impl Numbered for Edges<'_> {
    ghost text = { λ things number. thread_edge things.0.now number };

    fn append(&self, number: u32, out: &mut Vec<u8>) -> Result<(), AllocError> {
        match Tid::new(number) {
            Some(thread) => append_thread_edge(self.0, thread, out),
            None => Ok(()),
        }
    }
}

/// Appends the node of a mutex, and an edge to the thread that holds it, if one does.
fn append_mutex(core: &Core, mutex: MutexId, out: &mut Vec<u8>) -> Result<(), AllocError>
    ensures { OnOk result (out.new.items ≡ out.old.items ++ mutex_parts core.now mutex) }
{
    match owner_of(core, mutex) {
        Some(owner) => {
            let name = Name(b'm', mutex.get());
            append_node(out, &name, b"shape=box")?;
            append_edge(out, &name, &Name(b't', owner.get()), b"label=\"held by\"")
        }
        None => Ok(()),
    }
}

/// Appends the node of a condition variable, if somebody is parked on it.
fn append_cond(core: &Core, cond: CondId, out: &mut Vec<u8>) -> Result<(), AllocError>
    ensures { OnOk result (out.new.items ≡ out.old.items ++ cond_parts core.now cond) }
{
    if core.parked(cond, 0).is_some() {
        append_node(out, &Name(b'c', cond.get()), b"shape=diamond")
    } else {
        Ok(())
    }
}

/// Appends the nodes and edges of a core.
pub fn append_parts(core: &Core, out: &mut Vec<u8>) -> Result<(), AllocError>
    ensures { OnOk result (out.new.items ≡ out.old.items ++ parts_of core.now) }
{
    append_all(&Threads(core), core.threads(), out)?;
    append_all(&Mutexes(core), mutexes_added(core), out)?;
    append_all(&Conds(core), conds_added(core), out)?;
    append_all(&Edges(core), core.threads(), out)?;
    Ok(())
}
