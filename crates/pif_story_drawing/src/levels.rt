use crate::growing_text::Page;
use crate::plans::{Moment, Plan};
use pif_core::Core;
use pif_types::Tid;

/// The priorities of a thread.
#[derive(Clone, Copy, PartialEq, Eq)]
pub struct Level {
    /// The one that it runs at.
    pub effective: u32,
    /// Its own.
    pub base: u32,
}

/// The priorities of a thread that was added and has not ended.
pub fn level_of(core: &Core, thread: Tid) -> Option<Level> {
    let effective = core.effective(thread)?.get();
    let base = core.base(thread)?.get();
    Some(Level { effective, base })
}

impl Level {
    /// Whether the thread runs above its own priority.
    fn is_boosted(self) -> bool {
        self.effective > self.base
    }

    /// Begins the line that shows the priority at which the thread runs.
    fn open(self, out: &mut Page) {
        out.words(if self.is_boosted() {
            "<path class=\"level boosted\""
        } else {
            "<path class=\"level\""
        });
    }
}

/// Draws that a thread had these priorities from one moment to another.
pub fn draw_level(
    thread: Tid,
    level: Level,
    since: Moment,
    until: Moment,
    plan: &Plan,
    out: &mut Page,
) {
    let x = plan.x(since.column);
    let y = plan.level(thread, level.effective);
    let width = plan.length(since.column, until.column);
    out.fill(
        "<g><title>t{}: effective priority {}, base {}, lines {} to {}</title>",
        &[
            thread.get(),
            level.effective,
            level.base,
            since.line,
            until.line,
        ],
    );
    if level.is_boosted() {
        draw_boost(x, y, width, plan.level(thread, level.base), out);
    }
    level.open(out);
    out.fill(" d=\"M{} {}H{}\"/>", &[x, y, plan.x(until.column)]);
    draw_number(level, x, y, width, out);
    out.words("</g>\n");
}

/// Draws how far a thread runs above its own priority, and that one, at the height `base`.
fn draw_boost(x: u32, y: u32, width: u32, base: u32, out: &mut Page) {
    out.fill(
        "<rect class=\"boost\" x=\"{}\" y=\"{}\" width=\"{}\" height=\"{}\"/>",
        &[x, y, width, base.saturating_sub(y)],
    );
    out.fill("<path class=\"base\" d=\"M{} {}h{}\"/>", &[x, base, width]);
}

/// Writes the priority at which a thread runs above its line, and if there is room also its own.
fn draw_number(level: Level, x: u32, y: u32, width: u32, out: &mut Page) {
    let is_boosted = level.is_boosted();
    out.words(if is_boosted {
        "<text class=\"number hot\""
    } else {
        "<text class=\"number\""
    });
    out.fill(
        " x=\"{}\" y=\"{}\">{}",
        &[x.saturating_add(3), y.saturating_sub(3), level.effective],
    );
    if is_boosted && width >= 80 {
        out.fill(" (base {})", &[level.base]);
    }
    out.words("</text>");
}

/// Draws that the priority at which a thread runs changed.
pub fn draw_change(
    thread: Tid,
    before: Level,
    after: Level,
    moment: Moment,
    plan: &Plan,
    out: &mut Page,
) {
    let from = plan.level(thread, before.effective);
    let to = plan.level(thread, after.effective);
    let shown = if before.is_boosted() { before } else { after };
    shown.open(out);
    out.fill(" d=\"M{} {}V{}\"/>\n", &[plan.x(moment.column), from, to]);
}
