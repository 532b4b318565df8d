ghost use Rattle.std.specs.Prelude.{flat_map, ◌≡◌, ◌≤◌, ◌++◌, [], codes, not, ◌&&◌, option_copied, if◌then◌else◌};
ghost use Rattle.pif_model.specs.Calls.{base_answer, bound_answer, effective_answer, open_call_answer, status_answer, threads_answer};
ghost use Rattle.pif_text_model.specs.Replies.{cond_name, mutex_name};
ghost use Rattle.pif_text.specs.Json.{numbers};
ghost use Rattle.pif_text_core.specs.Changes.{new_thread_line};
ghost use Rattle.pif_text_core.specs.Pages.{Tells};
ghost use Rattle.pif_text_core.specs.Texts.{base_text, call_text, front_of, held_name, held_text, holder_of, holder_text, holding_text, if_some, priority_by, status_text, thread_line, times_text};
ghost use Rattle.pif_text_core.specs.Waiting.{has, mutexes_added};

use crate::calls::show_call;
use crate::changes::{held_times, was_thread_there};
use crate::counts::mutexes_added;
use crate::holders::holder_of;
use crate::names::Names;
use crate::pages::Page;
use crate::parts::Holder;
use pif_core::{Core, Status};
use pif_types::{CondId, MutexId, Tid};
use std::io::Write;

/// Writes a line for each thread, or if there is a core from before, for each of which the line has changed.
pub fn show_threads<W: Write>(
    names: &Names<'_>,
    before: Option<&Core>,
    core: &Core,
    page: &mut Page,
    writer: &mut W,
)
    ensures { Tells page.old page.new (W.contents writer.old) (W.contents writer.new)
        (flat_map (new_thread_line names.now (option_copied before.entry) core.now) (numbers (threads_answer core.now))) }
{
    for place in 0..core.threads() {
        show_thread_if_new(names, before, core, place + 1, page, writer);
    }
}

/// Writes the line of the thread of this number if it wasn't there before.
fn show_thread_if_new<W: Write>(
    names: &Names<'_>,
    before: Option<&Core>,
    core: &Core,
    number: u32,
    page: &mut Page,
    writer: &mut W,
)
    requires { 1 ≤ number }
    ensures { Tells page.old page.new (W.contents writer.old) (W.contents writer.new)
        (new_thread_line names.now (option_copied before.entry) core.now number) }
{
    let Some(thread) = Tid::new(number) else {
        return;
    };
    if !was_thread_there(before, core, thread) {
        show_thread(names, core, thread, page, writer);
    }
}

/// Writes the line of a thread.
fn show_thread<W: Write>(
    names: &Names<'_>,
    core: &Core,
    thread: Tid,
    page: &mut Page,
    writer: &mut W,
)
    ensures { Tells page.old page.new (W.contents writer.old) (W.contents writer.new) (thread_line names.now core.now thread) }
{
    page.thread("  ", names, thread, writer);
    page.words(": ", writer);
    show_priority(core, thread, page, writer);
    show_doing(names, core, thread, page, writer);
    show_open_call(core, thread, page, writer);
    show_held(core, thread, page, writer);
    page.words("\n", writer);
}

/// Writes the effective priority of a thread, and its base priority if that differs; nothing if it has ended.
fn show_priority<W: Write>(core: &Core, thread: Tid, page: &mut Page, writer: &mut W)
    ensures { Tells page.old page.new (W.contents writer.old) (W.contents writer.new) (priority_by (effective_answer thread core.now) (base_answer thread core.now)) }
{
    let Some(effective) = core.effective(thread) else {
        return;
    };
    let Some(base) = core.base(thread) else {
        return;
    };
    page.number("priority ", effective.get(), writer);
    show_base(effective.get(), base.get(), page, writer);
    page.words("; ", writer);
}

/// Writes the base priority of a thread if it runs at another one.
fn show_base<W: Write>(effective: u32, base: u32, page: &mut Page, writer: &mut W)
    ensures { Tells page.old page.new (W.contents writer.old) (W.contents writer.new) (base_text effective base) }
{
    if base != effective {
        page.number(" (base ", base, writer);
        page.words(")", writer);
    }
}

/// Writes what a thread does.
fn show_doing<W: Write>(
    names: &Names<'_>,
    core: &Core,
    thread: Tid,
    page: &mut Page,
    writer: &mut W,
)
    ensures { Tells page.old page.new (W.contents writer.old) (W.contents writer.new) (if_some (status_text names.now core.now) (status_answer thread core.now)) }
{
    if let Some(status) = core.status(thread) {
        show_status(names, core, status, page, writer);
    }
}

/// Writes the call that a thread has open; nothing if it has none.
fn show_open_call<W: Write>(core: &Core, thread: Tid, page: &mut Page, writer: &mut W)
    ensures { Tells page.old page.new (W.contents writer.old) (W.contents writer.new) (if_some call_text (open_call_answer thread core.now)) }
{
    if let Some(request) = core.open_call(thread) {
        show_call(request, page, writer);
    }
}

/// Writes what a thread of this status does.
fn show_status<W: Write>(
    names: &Names<'_>,
    core: &Core,
    status: Status,
    page: &mut Page,
    writer: &mut W,
)
    ensures { Tells page.old page.new (W.contents writer.old) (W.contents writer.new) (status_text names.now core.now status) }
{
    match status {
        Status::Ready(_) => page.words("ready", writer),
        Status::Queued(mutex) => show_wait(names, core, mutex, page, writer),
        Status::Parked(cond) => show_parking(core, cond, page, writer),
        Status::Stopped => page.words("stopped for good", writer),
        Status::Ended => page.words("ended", writer),
    }
}

/// Writes that a thread waits for a mutex, and who holds it.
fn show_wait<W: Write>(
    names: &Names<'_>,
    core: &Core,
    mutex: MutexId,
    page: &mut Page,
    writer: &mut W,
)
    ensures { Tells page.old page.new (W.contents writer.old) (W.contents writer.new) (codes "waits for " ++ mutex_name mutex ++ if_some (λ h. codes ", held by " ++ holder_text names.now h) (holder_of mutex core.now)) }
{
    page.mutex("waits for ", mutex, writer);
    show_owner(", held by ", names, core, mutex, page, writer);
}

/// Writes that a thread is parked on a condition variable, and for which mutex.
fn show_parking<W: Write>(core: &Core, cond: CondId, page: &mut Page, writer: &mut W)
    ensures { Tells page.old page.new (W.contents writer.old) (W.contents writer.new) (codes "parked on " ++ cond_name cond ++ if_some (λ m. codes " for " ++ mutex_name m) (bound_answer cond core.now)) }
{
    page.cond("parked on ", cond, writer);
    show_bound(" for ", core, cond, page, writer);
}

/// Writes the mutex to which a condition variable is bound, behind these words.
pub fn show_bound<W: Write>(words: &str, core: &Core, cond: CondId, page: &mut Page, writer: &mut W)
    ensures { Tells page.old page.new (W.contents writer.old) (W.contents writer.new) (if_some (λ m. words.now ++ mutex_name m) (bound_answer cond core.now)) }
{
    if let Some(mutex) = core.bound(cond) {
        page.mutex(words, mutex, writer);
    }
}

/// Writes the owner of a mutex behind these words; nothing if nobody owns it.
pub fn show_owner<W: Write>(
    words: &str,
    names: &Names<'_>,
    core: &Core,
    mutex: MutexId,
    page: &mut Page,
    writer: &mut W,
)
    ensures { Tells page.old page.new (W.contents writer.old) (W.contents writer.new) (if_some (λ h. words.now ++ holder_text names.now h) (holder_of mutex core.now)) }
{
    if let Some(holder) = holder_of(core, mutex) {
        show_holder(words, names, &holder, page, writer);
    }
}

/// Writes the owner of a mutex, and marks it if it has ended.
pub fn show_holder<W: Write>(
    words: &str,
    names: &Names<'_>,
    holder: &Holder,
    page: &mut Page,
    writer: &mut W,
)
    ensures { Tells page.old page.new (W.contents writer.old) (W.contents writer.new) (words.now ++ holder_text names.now holder.now) }
{
    page.thread(words, names, holder.owner, writer);
    if holder.has_ended {
        page.words(" (ended)", writer);
    }
}

/// Writes which mutexes a thread holds; nothing if it holds none.
fn show_held<W: Write>(core: &Core, thread: Tid, page: &mut Page, writer: &mut W)
    ensures { Tells page.old page.new (W.contents writer.old) (W.contents writer.new) (held_text thread core.now (mutexes_added core.now)) }
{
    let mut is_first = true;
    for place in 0..mutexes_added(core) {
        is_first = show_if_held(core, thread, place + 1, is_first, page, writer);
    }
}

/// Writes the mutex of this number if the thread holds it. Answers whether the next one that it holds is the first one.
fn show_if_held<W: Write>(
    core: &Core,
    thread: Tid,
    number: u32,
    is_first: bool,
    page: &mut Page,
    writer: &mut W,
) -> bool
    requires { 1 ≤ number }
    ensures first { result ≡ (is_first && not (has thread core.now number)) }
    ensures told { Tells page.old page.new (W.contents writer.old) (W.contents writer.new)
        (if has thread core.now number then front_of (codes "; holds ") is_first ++ held_name core.now number else []) }
{
    match held_times(core, thread, number) {
        Some(count) => {
            show_holding(is_first, number, count, page, writer);
            false
        }
        None => is_first,
    }
}

/// Writes the mutex of this number that a thread holds so often, and whether it is the first one.
fn show_holding<W: Write>(is_first: bool, number: u32, count: u32, page: &mut Page, writer: &mut W)
    ensures { Tells page.old page.new (W.contents writer.old) (W.contents writer.new) (front_of (codes "; holds ") is_first ++ holding_text number count) }
{
    if is_first {
        page.number("; holds m", number, writer);
    } else {
        page.number(", m", number, writer);
    }
    show_times(" (", count, " times)", page, writer);
}

/// Writes how often a mutex is held, between these words; nothing if it is held once.
pub fn show_times<W: Write>(before: &str, count: u32, behind: &str, page: &mut Page, writer: &mut W)
    ensures { Tells page.old page.new (W.contents writer.old) (W.contents writer.new) (times_text before.now behind.now count) }
{
    if count > 1 {
        page.number(before, count, writer);
        page.words(behind, writer);
    }
}
