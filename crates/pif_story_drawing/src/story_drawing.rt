use crate::arrows::{draw_actor, write_line};
use crate::bars::{Bar, see_bars};
use crate::growing_text::Page;
use crate::heads::write_drawing;
use crate::lanes::Lane;
use crate::looks::Look;
use crate::plans::{Moment, Plan, TOP, plan_of};
use crate::plays::{Onlooker, play};
use crate::rows::{DrawnRow, write_reply};
use crate::sheets::Sheet;
use crate::spans::Span;
use pif_core::Core;
use pif_script_model::{AnsweredRow, Part, WatchSteps};
use pif_types::{MutexId, NoMemory, Tid};
use std::alloc::{AllocError, Global};

/// A drawing while it is made.
#[derive(Drop)]
struct Drawing {
    span: Span,
    plan: Plan,
    lanes: Vec<Lane>,
    bars: Vec<Bar>,
    sheet: Sheet,
    now: Moment,
}

/// The drawing of these lines of a story, whose threads have the names that these comments give. `told` is told of each
/// command of the story twice, as a step: before anything is drawn, and while that is done.
///
/// # Errors
///
/// A growth of memory was refused.
pub fn drawing_of<V: WatchSteps>(
    alloc: Global,
    span: &Span,
    names: &[u8],
    rows: &[AnsweredRow<'_>],
    told: &mut V,
) -> Result<String, NoMemory> {
    let plan = plan_of(alloc, span, names, rows, told)?;
    let mut drawing = Drawing {
        span: *span,
        plan,
        lanes: Vec::new(alloc),
        bars: Vec::new(alloc),
        sheet: Sheet::new(alloc),
        now: Moment { column: 0, line: 1 },
    };
    drawing.draw(alloc, names, rows, told)
}

impl Drawing {
    /// Plays the commands of a story, and draws them, in the second half of the steps.
    fn draw<V: WatchSteps>(
        &mut self,
        alloc: Global,
        names: &[u8],
        rows: &[AnsweredRow<'_>],
        told: &mut V,
    ) -> Result<String, NoMemory> {
        if self.add_lanes().is_err() || self.add_bars().is_err() {
            return Err(NoMemory);
        }
        let count = rows.len();
        let mut half = Part::new(told, count, count, count.saturating_mul(2));
        play(alloc, rows, self, &mut half)?;
        for lane in &self.lanes {
            lane.close(self.now, &self.plan, &mut self.sheet);
        }
        for bar in &self.bars {
            bar.close(self.now, &self.plan, &mut self.sheet);
        }
        let mut page = Page::new(alloc);
        write_drawing(&self.plan, names, &self.sheet, &mut page);
        page.text()
    }

    /// Adds the lanes of the threads, of which none was added yet.
    fn add_lanes(&mut self) -> Result<(), AllocError> {
        for number in 1..=self.plan.threads {
            if let Some(thread) = Tid::new(number) {
                let lane = Lane::new(thread, Look::Absent, None, self.now);
                self.lanes.push(lane)?;
            }
        }
        Ok(())
    }

    /// Adds the bars of the mutexes, which nobody holds yet.
    fn add_bars(&mut self) -> Result<(), AllocError> {
        for number in 1..=self.plan.mutexes {
            if let Some(mutex) = MutexId::new(number) {
                self.bars.push(Bar::new(mutex, None, self.now))?;
            }
        }
        Ok(())
    }
}

impl Onlooker for Drawing {
    /// Draws what a command changed; of one before the lines that are drawn, only what it left is kept.
    fn see(&mut self, row: &DrawnRow<'_>, core: &Core) {
        if self.span.is_before(row.line) {
            return;
        }
        self.now.line = row.line;
        self.sheet.is_open = self.span.has(row.line);
        if self.sheet.is_open {
            draw_column(row, self.now, &self.plan, &mut self.sheet.columns);
        }
        for lane in self.lanes.iter_mut() {
            lane.see(row, core, self.now, &self.plan, &mut self.sheet);
        }
        see_bars(&mut self.bars, core, self.now, &self.plan, &mut self.sheet);
        if self.sheet.is_open {
            draw_actor(row, self.now, &self.plan, &mut self.sheet.arrows);
            self.now.column = self.now.column.saturating_add(1);
        }
    }
}

/// Draws where a command stands, and writes it below.
fn draw_column(row: &DrawnRow<'_>, now: Moment, plan: &Plan, out: &mut Page) {
    let x = plan.x(now.column);
    let axis = plan.axis();
    out.words("<g>");
    write_line(row, out);
    out.fill(
        "<path class=\"grid\" d=\"M{} {}V{}v6\"/><path class=\"reach\" d=\"M{} {}V{}\"/>",
        &[x, TOP, axis, x, TOP, axis],
    );
    out.fill(
        "<text class=\"line\" x=\"{}\" y=\"{}\">{}</text>",
        &[x, TOP - 6, row.line],
    );
    out.fill(
        "<text class=\"words\" transform=\"translate({} {}) rotate(50)\">",
        &[x, axis.saturating_add(16)],
    );
    out.words(row.words);
    out.words("<tspan class=\"answer\"> = ");
    write_reply(row.reply, out);
    out.words("</tspan></text></g>\n");
}
