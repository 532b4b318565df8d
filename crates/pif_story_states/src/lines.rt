ghost use Rattle.std.specs.Prelude.{◌≡◌, ◌++◌, true, OnOk};
ghost use Rattle.pif_text_core.specs.Waiting.{begins_chain};
ghost use Rattle.pif_story_states.specs.Objects.{chain_array, cond_object, mutex_object, thread_object};
ghost use Rattle.pif_story_states.specs.States.{order_members, state_line, things_members};

use crate::answers::append_answer;
use crate::chains::append_chain;
use crate::conds::append_cond;
use crate::mutexes::append_mutex;
use crate::queues::append_order;
use crate::threads::append_thread;
use pif_core::{Core, Order};
use pif_text::{Listed, Member, Reply, append_array, append_members};
use pif_text_core::{begins_chain, conds_added, mutexes_added};
use pif_types::{CondId, MutexId, Tid};
use std::alloc::AllocError;

/// The threads of a core, with the names that these comments give.
#[derive(Clone, Copy)]
struct Threads<'a> {
    core: &'a Core,
    names: &'a [u8],
}

impl Listed for Threads<'_> {
    ghost stands = { λ list number. true };

    ghost text = { λ list number. thread_object list.names.now list.core.now number };

    fn stands(&self, _number: u32) -> bool {
        true
    }

    fn append(&self, number: u32, out: &mut Vec<u8>) -> Result<(), AllocError> {
        match Tid::new(number) {
            Some(thread) => append_thread(self.core, self.names, thread, out),
            None => Ok(()),
        }
    }
}

/// The mutexes of a core.
#[derive(Clone, Copy)]
struct Mutexes<'a>(&'a Core);

impl Listed for Mutexes<'_> {
    ghost stands = { λ list number. true };

    ghost text = { λ list number. mutex_object list.0.now number };

    fn stands(&self, _number: u32) -> bool {
        true
    }

    fn append(&self, number: u32, out: &mut Vec<u8>) -> Result<(), AllocError> {
        match MutexId::new(number) {
            Some(mutex) => append_mutex(self.0, mutex, out),
            None => Ok(()),
        }
    }
}

/// The condition variables of a core.
#[derive(Clone, Copy)]
struct Conds<'a>(&'a Core);

impl Listed for Conds<'_> {
    ghost stands = { λ list number. true };

    ghost text = { λ list number. cond_object list.0.now number };

    fn stands(&self, _number: u32) -> bool {
        true
    }

    fn append(&self, number: u32, out: &mut Vec<u8>) -> Result<(), AllocError> {
        match CondId::new(number) {
            Some(cond) => append_cond(self.0, cond, out),
            None => Ok(()),
        }
    }
}

/// The chains of waiting in a core.
#[derive(Clone, Copy)]
struct Chains<'a>(&'a Core);

impl Listed for Chains<'_> {
    ghost stands = { λ list number. begins_chain list.0.now number };

    ghost text = { λ list number. chain_array list.0.now number };

    fn stands(&self, number: u32) -> bool {
        match Tid::new(number) {
            Some(thread) => begins_chain(self.0, thread),
            None => false,
        }
    }

    fn append(&self, number: u32, out: &mut Vec<u8>) -> Result<(), AllocError> {
        match Tid::new(number) {
            Some(thread) => append_chain(self.0, thread, out),
            None => Ok(()),
        }
    }
}

/// Appends the threads, mutexes and condition variables of a core, as members.
fn append_things(core: &Core, names: &[u8], out: &mut Vec<u8>) -> Result<(), AllocError>
    ensures { OnOk result (out.new.items ≡ out.old.items ++ things_members names.now core.now) }
{
    append_array(out, "threads", &Threads { core, names }, core.threads())?;
    append_array(out, "mutexes", &Mutexes(core), mutexes_added(core))?;
    append_array(out, "conds", &Conds(core), conds_added(core))
}

/// Appends the run queue and the chains of waiting of a core, as members.
fn append_orders(core: &Core, out: &mut Vec<u8>) -> Result<(), AllocError>
    ensures { OnOk result (out.new.items ≡ out.old.items ++ order_members core.now) }
{
    append_order(core, "run_queue", &Order::Ready, out)?;
    append_array(out, "chains", &Chains(core), core.threads())
}

/// Appends a command in the line of this number, what it was answered, and the state of the core behind it, as a line
/// with an object.
pub fn append_line(
    core: &Core,
    names: &[u8],
    line: u32,
    words: &[u8],
    reply: Reply,
    out: &mut Vec<u8>,
) -> Result<(), AllocError>
    ensures { OnOk result (out.new.items ≡ out.old.items ++ state_line names.now line words.now reply core.now) }
{
    append_members(
        out,
        b'{',
        &[
            Member::Number("line", line),
            Member::Quoted("command", words),
        ],
    )?;
    out.extend_from_slice(b",\"answer\":")?;
    append_answer(out, reply)?;
    append_members(out, b',', &[Member::Number("time", core.time())])?;
    append_things(core, names, out)?;
    append_orders(core, out)?;
    out.extend_from_slice(b"}\n")
}
