use crate::arrows::draw_signal;
use crate::growing_text::Page;
use crate::levels::{Level, draw_change, draw_level, level_of};
use crate::looks::{Look, hue, look_of};
use crate::plans::{Moment, Plan};
use crate::rows::DrawnRow;
use crate::sheets::Sheet;
use pif_core::Core;
use pif_types::Tid;

/// What was last seen of a thread, and since when.
#[derive(Clone, Copy)]
pub struct Lane {
    thread: Tid,
    look: Look,
    look_since: Moment,
    level: Option<Level>,
    level_since: Moment,
}

impl Lane {
    /// The lane of a thread that does this and has these priorities.
    pub fn new(thread: Tid, look: Look, level: Option<Level>, since: Moment) -> Lane {
        Lane {
            thread,
            look,
            look_since: since,
            level,
            level_since: since,
        }
    }

    /// Looks at the thread behind a command, and if the sheet is open, draws what it did before if it does something
    /// else now.
    pub fn see(
        &mut self,
        row: &DrawnRow<'_>,
        core: &Core,
        moment: Moment,
        plan: &Plan,
        sheet: &mut Sheet,
    ) {
        let look = look_of(core, self.thread);
        if look != self.look {
            if sheet.is_open {
                self.end_look(moment, plan, sheet);
                self.draw_turn(&look, row, moment, plan, sheet);
            }
            self.look = look;
            self.look_since = moment;
        }
        let level = level_of(core, self.thread);
        if level != self.level {
            if sheet.is_open {
                self.end_level(moment, plan, sheet);
                self.draw_step(level, moment, plan, sheet);
            }
            self.level = level;
            self.level_since = moment;
        }
    }

    /// Draws what the thread did up to a moment.
    pub fn close(&self, moment: Moment, plan: &Plan, sheet: &mut Sheet) {
        self.end_look(moment, plan, sheet);
        self.end_level(moment, plan, sheet);
    }

    /// Draws what the thread did up to a moment, its priorities aside; nothing if it was not added yet, or has ended.
    fn end_look(&self, until: Moment, plan: &Plan, sheet: &mut Sheet) {
        let (thread, since, out) = (self.thread, self.look_since, &mut sheet.bands);
        match self.look {
            Look::Absent | Look::Ended => return,
            Look::Waits(mutex) => out.fill("<g class=\"h{}\"", &[hue(mutex)]),
            _ => out.words("<g"),
        }
        let width = plan.length(since.column, until.column);
        out.fill(
            " transform=\"translate({} {})\"><title>t{}: ",
            &[plan.x(since.column), plan.band(thread), thread.get()],
        );
        self.look.write(true, out);
        out.fill(", lines {} to {}</title>", &[since.line, until.line]);
        out.words("<rect class=\"");
        out.words(self.look.class());
        out.fill("\" width=\"{}\" height=\"15\"/><text class=\"on-", &[width]);
        out.words(self.look.class());
        out.words("\" x=\"8\" y=\"11\">");
        self.look.write(width >= 80, out);
        out.words("</text></g>\n");
    }

    /// Draws the priorities of the thread up to a moment.
    fn end_level(&self, moment: Moment, plan: &Plan, sheet: &mut Sheet) {
        if let Some(level) = self.level {
            draw_level(
                self.thread,
                level,
                self.level_since,
                moment,
                plan,
                &mut sheet.levels,
            );
        }
    }

    /// Draws how the thread came to do this: that another signalled it, or that it ended.
    fn draw_turn(
        &self,
        look: &Look,
        row: &DrawnRow<'_>,
        moment: Moment,
        plan: &Plan,
        sheet: &mut Sheet,
    ) {
        if self.look.is_signalled(look) {
            draw_signal(row, self.thread, moment, plan, &mut sheet.arrows);
        } else if *look == Look::Ended {
            draw_end(self.thread, moment, plan, &mut sheet.bands);
        }
    }

    /// Draws that the priority at which the thread runs changed.
    fn draw_step(&self, level: Option<Level>, moment: Moment, plan: &Plan, sheet: &mut Sheet) {
        if let (Some(before), Some(after)) = (self.level, level) {
            draw_change(self.thread, before, after, moment, plan, &mut sheet.levels);
        }
    }
}

/// Draws that a thread ended.
fn draw_end(thread: Tid, moment: Moment, plan: &Plan, out: &mut Page) {
    out.fill(
        "<g transform=\"translate({} {})\">",
        &[plan.x(moment.column), plan.band(thread)],
    );
    out.fill(
        "<title>t{} ended, line {}</title>",
        &[thread.get(), moment.line],
    );
    out.words("<path class=\"end\" d=\"M-8 -1l17 17m0 -17l-17 17\"/>");
    out.words("<text class=\"on-ended\" x=\"14\" y=\"11\">ended</text></g>\n");
}
