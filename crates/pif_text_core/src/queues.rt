ghost use Rattle.std.specs.Prelude.{◌≡◌, ◌++◌, ◌==◌, nat_eq, option_copied, slice_get};
ghost use Rattle.std.specs.Option.{option_eq};
ghost use Rattle.pif_text_core.specs.Changes.{new_ready_line, order_stays};
ghost use Rattle.pif_text_core.specs.Pages.{Tells};
ghost use Rattle.pif_text_core.specs.Texts.{front_of, person_text, ready_line, threads_text};
ghost use Rattle.pif_text_core.specs.Waiting.{all_in, order_in};

use crate::names::Names;
use crate::orders::nth;
use crate::pages::Page;
use pif_core::{Core, Order};
use pif_types::Tid;
use std::io::Write;

/// Writes the threads of an order with `head` before the first; nothing if there is none.
pub fn show_queue<W: Write>(
    names: &Names<'_>,
    core: &Core,
    order: &Order,
    head: &str,
    page: &mut Page,
    writer: &mut W,
)
    ensures { Tells page.old page.new (W.contents writer.old) (W.contents writer.new) (threads_text names.now head.now (order_in order.now core.now)) }
{
    for place in 0..core.threads() {
        match nth(core, order, place) {
            Some(thread) => show_place(names, place, thread, head, page, writer),
            None => return,
        }
    }
}

/// Writes a thread of an order before which `place` others stand.
fn show_place<W: Write>(
    names: &Names<'_>,
    place: u32,
    thread: Tid,
    head: &str,
    page: &mut Page,
    writer: &mut W,
)
    ensures { Tells page.old page.new (W.contents writer.old) (W.contents writer.new) (front_of head.now (place == 0) ++ person_text names.now thread) }
{
    if place == 0 {
        page.thread(head, names, thread, writer);
    } else {
        page.thread(", ", names, thread, writer);
    }
}

/// Whether the same threads stand in an order in both cores, each at the same place.
pub fn is_same_queue(before: &Core, core: &Core, order: &Order) -> bool
    ensures { result ≡ order_stays order.now before.now core.now }
{
    for place in 0..core.threads() {
        if !is_same_at(before, core, order, place) {
            return false;
        }
        if nth(core, order, place).is_none() {
            return true;
        }
    }
    true
}

/// Whether the same thread stands at a place of an order in both cores, or none does.
fn is_same_at(before: &Core, core: &Core, order: &Order, place: u32) -> bool
    ensures { result ≡ option_eq nat_eq (slice_get (all_in order.now before.now) place) (slice_get (all_in order.now core.now) place) }
{
    nth(before, order, place) == nth(core, order, place)
}

/// Writes the line of the run queue; nothing if no thread is ready. If there is a core from before, it is written only
/// if it has changed, and then also if no thread is ready.
pub fn show_run_queue<W: Write>(
    names: &Names<'_>,
    before: Option<&Core>,
    core: &Core,
    page: &mut Page,
    writer: &mut W,
)
    ensures { Tells page.old page.new (W.contents writer.old) (W.contents writer.new) (new_ready_line names.now (option_copied before.entry) core.now) }
{
    match before {
        Some(before) => {
            if !is_same_queue(before, core, &Order::Ready) {
                show_ready(names, core, "  run queue: none\n", page, writer);
            }
        }
        None => show_ready(names, core, "", page, writer),
    }
}

/// Writes the line of the run queue, or these words if no thread is ready.
fn show_ready<W: Write>(
    names: &Names<'_>,
    core: &Core,
    empty: &str,
    page: &mut Page,
    writer: &mut W,
)
    ensures { Tells page.old page.new (W.contents writer.old) (W.contents writer.new) (ready_line names.now empty.now core.now) }
{
    match core.pick() {
        Some(_) => {
            show_queue(names, core, &Order::Ready, "  run queue: ", page, writer);
            page.words("\n", writer);
        }
        None => page.words(empty, writer),
    }
}
