use crate::growing_text::Page;
use crate::looks::hue;
use crate::plans::{Moment, Plan};
use crate::rows::{DrawnRow, write_reply};
use pif_types::{MutexId, Tid};

/// Draws that a thread gave a mutex to another, from the bar of one at this height to that of the other.
pub fn draw_hand_over(
    mutex: MutexId,
    from: (Tid, u32),
    to: (Tid, u32),
    moment: Moment,
    plan: &Plan,
    out: &mut Page,
) {
    let x = plan.x(moment.column);
    let start = from.1.saturating_add(5);
    let end = if to.1 > from.1 {
        to.1
    } else {
        to.1.saturating_add(10)
    };
    out.fill(
        "<g class=\"h{}\"><title>m{} goes from t{} to t{}, line {}</title>",
        &[
            hue(mutex),
            mutex.get(),
            from.0.get(),
            to.0.get(),
            moment.line,
        ],
    );
    out.fill("<path class=\"halo\" d=\"M{} {}V{}\"/>", &[x, start, end]);
    draw_shaft("given", x, start, end, out);
    out.fill(
        "<circle class=\"tail\" cx=\"{}\" cy=\"{}\" r=\"3\"/></g>\n",
        &[x, start],
    );
}

/// Draws that the thread which acts by a command signalled this one, which wakes or moves to the waiters of its mutex;
/// nothing if it is the same, as behind a deadline.
pub fn draw_signal(row: &DrawnRow<'_>, parked: Tid, moment: Moment, plan: &Plan, out: &mut Page) {
    let Some(actor) = row.actor() else {
        return;
    };
    if actor.get() == parked.get() {
        return;
    }
    let x = plan.x(moment.column).saturating_add(7);
    let start = plan.band(actor).saturating_add(7);
    let end = plan.band(parked).saturating_add(7);
    out.fill(
        "<g><title>t{} signals t{}, line {}</title>",
        &[actor.get(), parked.get(), moment.line],
    );
    draw_shaft("signal", x, start, end, out);
    out.words("</g>\n");
}

/// Draws an arrow upwards or downwards.
fn draw_shaft(class: &str, x: u32, start: u32, end: u32, out: &mut Page) {
    let back = if end > start {
        end.saturating_sub(6)
    } else {
        end.saturating_add(6)
    };
    let (left, right) = (x.saturating_sub(4), x.saturating_add(4));
    out.words("<path class=\"");
    out.words(class);
    out.fill("\" d=\"M{} {}V{}\"/><path class=\"", &[x, start, back]);
    out.words(class);
    out.fill(
        "-head\" d=\"M{} {}H{}L{} {}z\"/>",
        &[left, back, right, x, end],
    );
}

/// Draws which thread acts by a command; nothing if none does, or one that is never added.
pub fn draw_actor(row: &DrawnRow<'_>, moment: Moment, plan: &Plan, out: &mut Page) {
    let Some(actor) = row.actor() else {
        return;
    };
    if actor.get() > plan.threads {
        return;
    }
    out.fill(
        "<circle class=\"actor\" cx=\"{}\" cy=\"{}\" r=\"4\">",
        &[plan.x(moment.column), plan.band(actor).saturating_add(7)],
    );
    write_line(row, out);
    out.words("</circle>\n");
}

/// Writes a command, its line and its answer, as they are shown on hover.
pub fn write_line(row: &DrawnRow<'_>, out: &mut Page) {
    out.fill("<title>line {}: ", &[row.line]);
    out.words(row.words);
    out.words(" = ");
    write_reply(row.reply, out);
    out.words("</title>");
}
