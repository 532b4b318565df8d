ghost use Rattle.std.specs.Prelude.{◌≤◌, flat_map, option_copied};
ghost use Rattle.pif_text.specs.Json.{numbers};
ghost use Rattle.pif_text_core.specs.Changes.{new_cond_line};
ghost use Rattle.pif_text_core.specs.Pages.{Tells};
ghost use Rattle.pif_text_core.specs.Texts.{cond_line};
ghost use Rattle.pif_text_core.specs.Waiting.{conds_added};

use crate::changes::was_cond_there;
use crate::counts::conds_added;
use crate::names::Names;
use crate::pages::Page;
use crate::queues::show_queue;
use crate::threads::show_bound;
use pif_core::{Core, Order};
use pif_types::CondId;
use std::io::Write;

/// Writes a line for each condition variable, or if there is a core from before, for each of which the line has
/// changed.
pub fn show_conds<W: Write>(
    names: &Names<'_>,
    before: Option<&Core>,
    core: &Core,
    page: &mut Page,
    writer: &mut W,
)
    ensures { Tells page.old page.new (W.contents writer.old) (W.contents writer.new)
        (flat_map (new_cond_line names.now (option_copied before.entry) core.now) (numbers (conds_added core.now))) }
{
    for place in 0..conds_added(core) {
        show_cond_if_new(names, before, core, place + 1, page, writer);
    }
}

/// Writes the line of the condition variable of this number if it wasn't there before.
fn show_cond_if_new<W: Write>(
    names: &Names<'_>,
    before: Option<&Core>,
    core: &Core,
    number: u32,
    page: &mut Page,
    writer: &mut W,
)
    requires { 1 ≤ number }
    ensures { Tells page.old page.new (W.contents writer.old) (W.contents writer.new)
        (new_cond_line names.now (option_copied before.entry) core.now number) }
{
    let Some(cond) = CondId::new(number) else {
        return;
    };
    if !was_cond_there(before, core, cond) {
        show_cond(names, core, cond, page, writer);
    }
}

/// Writes the line of a condition variable.
fn show_cond<W: Write>(
    names: &Names<'_>,
    core: &Core,
    cond: CondId,
    page: &mut Page,
    writer: &mut W,
)
    ensures { Tells page.old page.new (W.contents writer.old) (W.contents writer.new) (cond_line names.now core.now cond) }
{
    page.cond("  ", cond, writer);
    show_bound(": for ", core, cond, page, writer);
    page.number("; uses ", core.cond_word(cond).unwrap_or(0), writer);
    show_queue(names, core, &Order::Parked(cond), "; parked ", page, writer);
    page.words("\n", writer);
}
