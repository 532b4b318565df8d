ghost use Rattle.std.specs.Prelude.{◌≡◌, map, OnOk, option_copied};
ghost use Rattle.std.specs.Io.KnownBytes.{Appends};
ghost use Rattle.pif_text_model.specs.Extends.{Stays};
ghost use Rattle.pif_text_core.specs.Changes.{changes_text, lines_text};
ghost use Rattle.pif_text_core.specs.Pages.{Tells};
ghost use Rattle.pif_text_core.specs.Texts.{state_text, time_before, time_line};

use crate::chains::{show_chains, show_no_chain};
use crate::conds::show_conds;
use crate::mutexes::show_mutexes;
use crate::names::Names;
use crate::pages::{Page, Unwritten};
use crate::queues::show_run_queue;
use crate::threads::show_threads;
use pif_core::Core;
use std::io::Write;

/// Writes what a core does: the time, if it is not 0, a line for each thread, mutex and condition variable, the run
/// queue and the chains of waiting, and an empty line behind them. Behind a thread stands its name in `names`, in which
/// that of t1 is the first; one that is empty, or that isn't there, is none. What the writer held stays in front.
///
/// # Errors
///
/// `Unwritten` if the writer fails or takes no byte; a part of the text may be written then.
pub fn write_state<W: Write>(names: &[&str], core: &Core, writer: &mut W) -> Result<(), Unwritten>
    ensures stays { Stays (W.contents writer.old) (W.contents writer.new) }
    ensures told { OnOk result (Appends (W.contents writer.old) (W.contents writer.new) (state_text (map (λ name. name.now) names.now) core.now)) }
{
    write_lines(&Names::new(names), None, core, writer)
}

/// Writes what has changed since a core did what `before` does, which has the same limits: of the lines of
/// `write_state` those that weren't there, `none` for a run queue or for chains of which nothing is left, and an empty
/// line behind them. Names are as of `write_state`. What the writer held stays in front.
///
/// # Errors
///
/// `Unwritten`, if the writer fails or takes no byte; a part of the text may be written then.
pub fn write_changes<W: Write>(
    names: &[&str],
    before: &Core,
    core: &Core,
    writer: &mut W,
) -> Result<(), Unwritten>
    ensures stays { Stays (W.contents writer.old) (W.contents writer.new) }
    ensures told { OnOk result (Appends (W.contents writer.old) (W.contents writer.new) (changes_text (map (λ name. name.now) names.now) before.now core.now)) }
{
    write_lines(&Names::new(names), Some(before), core, writer)
}

/// Writes what a core does, or if there is a core from before, what has changed; and an empty line.
fn write_lines<W: Write>(
    names: &Names<'_>,
    before: Option<&Core>,
    core: &Core,
    writer: &mut W,
) -> Result<(), Unwritten>
    ensures stays { Stays (W.contents writer.old) (W.contents writer.new) }
    ensures told { OnOk result (Appends (W.contents writer.old) (W.contents writer.new) (lines_text names.now (option_copied before.entry) core.now)) }
{
    let mut page = Page::new();
    show_lines(names, before, core, &mut page, writer);
    page.finish(writer)
}

/// Writes the lines of that, and an empty one.
fn show_lines<W: Write>(
    names: &Names<'_>,
    before: Option<&Core>,
    core: &Core,
    page: &mut Page,
    writer: &mut W,
)
    ensures { Tells page.old page.new (W.contents writer.old) (W.contents writer.new) (lines_text names.now (option_copied before.entry) core.now) }
{
    show_time(before, core, page, writer);
    show_threads(names, before, core, page, writer);
    show_mutexes(names, before, core, page, writer);
    show_conds(names, before, core, page, writer);
    show_run_queue(names, before, core, page, writer);
    show_chains(names, before, core, page, writer);
    show_no_chain(before, core, page, writer);
    page.words("\n", writer);
}

/// Writes the line of the time; nothing if it is 0, or if it is what it was before.
fn show_time<W: Write>(before: Option<&Core>, core: &Core, page: &mut Page, writer: &mut W)
    ensures { Tells page.old page.new (W.contents writer.old) (W.contents writer.new) (time_line (time_before (option_copied before.entry)) core.now.time) }
{
    let time = core.time();
    if time > time_before(before) {
        page.number("  time ", time, writer);
        page.words("\n", writer);
    }
}

/// The time of a core, or 0 if there is none.
fn time_before(before: Option<&Core>) -> u32
    ensures { result ≡ time_before (option_copied before.entry) }
{
    match before {
        Some(core) => core.time(),
        None => 0,
    }
}
