ghost use Rattle.std.specs.Prelude.{◌≡◌, ◌≤◌, flat_map, option_copied};
ghost use Rattle.pif_model.specs.Calls.{threads_answer};
ghost use Rattle.pif_text.specs.Json.{numbers};
ghost use Rattle.pif_text_core.specs.Changes.{chain_stays, chains_are_gone, has_waiting, is_waiting, link_stays, links_stay, new_chain_line, no_chain_line, was_there};
ghost use Rattle.pif_text_core.specs.Pages.{Tells};
ghost use Rattle.pif_text_core.specs.Texts.{chain_line, links_text};

use crate::holders::{awaited_holder, holder_of};
use crate::names::Names;
use crate::pages::Page;
use crate::threads::show_holder;
use crate::waits::{awaited, begins_chain};
use pif_core::Core;
use pif_types::Tid;
use std::io::Write;

/// Writes a line for each chain of waiting, from a thread that waits and for which nobody waits. If there is a core
/// from before, only chains are written that weren't there.
pub fn show_chains<W: Write>(
    names: &Names<'_>,
    before: Option<&Core>,
    core: &Core,
    page: &mut Page,
    writer: &mut W,
)
    ensures { Tells page.old page.new (W.contents writer.old) (W.contents writer.new)
        (flat_map (new_chain_line names.now (option_copied before.entry) core.now) (numbers (threads_answer core.now))) }
{
    for place in 0..core.threads() {
        show_chain_if_new(names, before, core, place + 1, page, writer);
    }
}

/// Writes the chain that begins with the thread of this number, if one does that wasn't there before.
fn show_chain_if_new<W: Write>(
    names: &Names<'_>,
    before: Option<&Core>,
    core: &Core,
    number: u32,
    page: &mut Page,
    writer: &mut W,
)
    requires { 1 ≤ number }
    ensures { Tells page.old page.new (W.contents writer.old) (W.contents writer.new)
        (new_chain_line names.now (option_copied before.entry) core.now number) }
{
    let Some(thread) = Tid::new(number) else {
        return;
    };
    if !begins_chain(core, thread) {
        return;
    }
    if !was_chain_there(before, core, thread) {
        show_chain(names, core, thread, page, writer);
    }
}

/// Writes that there are no chains if the last ones are gone.
pub fn show_no_chain<W: Write>(before: Option<&Core>, core: &Core, page: &mut Page, writer: &mut W)
    ensures { Tells page.old page.new (W.contents writer.old) (W.contents writer.new) (no_chain_line (option_copied before.entry) core.now) }
{
    if chains_are_gone(before, core) {
        page.words("  chain: none\n", writer);
    }
}

/// Whether a thread waited for a mutex in a core from before, if there is one, and none does now.
fn chains_are_gone(before: Option<&Core>, core: &Core) -> bool
    ensures { result ≡ chains_are_gone (option_copied before.entry) core.now }
{
    match before {
        Some(before) => has_waiting(before) && !has_waiting(core),
        None => false,
    }
}

/// Whether a thread waits for a mutex.
fn has_waiting(core: &Core) -> bool
    ensures { result ≡ has_waiting core.now }
{
    for place in 0..core.threads() {
        if is_waiting(core, place + 1) {
            return true;
        }
    }
    false
}

/// Whether the thread of this number waits for a mutex.
fn is_waiting(core: &Core, number: u32) -> bool
    requires { 1 ≤ number }
    ensures { result ≡ is_waiting core.now number }
{
    match Tid::new(number) {
        Some(thread) => awaited(core, thread).is_some(),
        None => false,
    }
}

/// Whether the chain that begins with this thread was there before.
fn was_chain_there(before: Option<&Core>, core: &Core, thread: Tid) -> bool
    ensures { result ≡ was_there chain_stays (option_copied before.entry) core.now thread }
{
    match before {
        Some(before) => begins_chain(before, thread) && has_same_links(before, core, thread),
        None => false,
    }
}

/// Whether the chain from this thread has the same links in both cores.
fn has_same_links(before: &Core, core: &Core, first: Tid) -> bool
    ensures { result ≡ links_stay (threads_answer core.now) before.now core.now first }
{
    let mut next = first;
    for place in 0..core.threads() {
        if !has_same_link(before, core, next) {
            return false;
        }
        match awaited_holder(core, next) {
            Some(holder) => next = holder.owner,
            None => return true,
        }
    }
    true
}

/// Whether a thread waits for the same mutex in both cores, with the same holder.
fn has_same_link(before: &Core, core: &Core, thread: Tid) -> bool
    ensures { result ≡ link_stays before.now core.now thread }
{
    awaited(before, thread) == awaited(core, thread)
        && awaited_holder(before, thread) == awaited_holder(core, thread)
}

/// Writes the chain that begins with this thread.
#[tactic(auto, unfolding(crate::specs::Texts::chain_line))]
fn show_chain<W: Write>(
    names: &Names<'_>,
    core: &Core,
    thread: Tid,
    page: &mut Page,
    writer: &mut W,
)
    ensures { Tells page.old page.new (W.contents writer.old) (W.contents writer.new) (chain_line names.now core.now thread) }
{
    page.thread("  chain: ", names, thread, writer);
    show_links(names, core, thread, page, writer);
    page.words("\n", writer);
}

/// Writes for which mutex this thread waits, who holds it, and so on from that one.
fn show_links<W: Write>(names: &Names<'_>, core: &Core, first: Tid, page: &mut Page, writer: &mut W)
    ensures { Tells page.old page.new (W.contents writer.old) (W.contents writer.new) (links_text names.now (threads_answer core.now) core.now first) }
{
    let mut next = first;
    for place in 0..core.threads() {
        let Some(mutex) = awaited(core, next) else {
            return;
        };
        page.mutex(" -> ", mutex, writer);
        let Some(holder) = holder_of(core, mutex) else {
            return;
        };
        show_holder(" -> ", names, &holder, page, writer);
        next = holder.owner;
    }
}
