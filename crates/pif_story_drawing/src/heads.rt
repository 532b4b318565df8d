use crate::growing_text::Page;
use crate::plans::Plan;
use crate::sheets::Sheet;
use crate::styles::{LEGEND, STYLE};
use pif_story::name_of;
use pif_types::Tid;
use std::str::from_utf8;

/// After how many columns the names of the lanes are shown again.
const REPEAT: u32 = 24;

/// Writes a drawing: what it is, the legend, the lanes, and what was drawn in them.
pub fn write_drawing(plan: &Plan, names: &[u8], sheet: &Sheet, out: &mut Page) {
    write_head(plan, out);
    out.words(STYLE);
    out.words("<rect class=\"page\" width=\"100%\" height=\"100%\"/>\n");
    out.words(LEGEND);
    for number in 1..=plan.threads {
        if let Some(thread) = Tid::new(number) {
            write_lane(thread, plan, names, out);
        }
    }
    write_names(plan, out);
    out.copy(&sheet.columns);
    out.copy(&sheet.bands);
    out.copy(&sheet.bars);
    out.copy(&sheet.levels);
    out.copy(&sheet.arrows);
    out.words("</svg>\n");
}

/// Writes what the drawing is, and how large.
fn write_head(plan: &Plan, out: &mut Page) {
    let (width, height) = (plan.width(), plan.height());
    out.words("<svg xmlns=\"http://www.w3.org/2000/svg\" role=\"img\"");
    out.fill(
        " width=\"{}\" height=\"{}\" viewBox=\"0 0 {} {}\">\n",
        &[width, height, width, height],
    );
    out.fill(
        "<title>Threads: {}; mutexes: {}; commands: {}</title>\n",
        &[plan.threads, plan.mutexes, plan.columns],
    );
}

/// Draws the lane of a thread, with its name.
fn write_lane(thread: Tid, plan: &Plan, names: &[u8], out: &mut Page) {
    let number = thread.get();
    out.words(if number % 2 == 0 {
        "<rect class=\"even\""
    } else {
        "<rect class=\"odd\""
    });
    out.fill(
        " y=\"{}\" width=\"{}\" height=\"{}\"><title>t{}</title></rect>",
        &[
            plan.lane(thread),
            plan.lane_end(),
            plan.lane_height(),
            number,
        ],
    );
    out.fill(
        "<text class=\"name\" x=\"10\" y=\"{}\">t{}</text>",
        &[plan.band(thread).saturating_add(13), number],
    );
    write_name(thread, plan, names, out);
    out.words("\n");
}

/// Writes the name that a story gives a thread, if it gives it one, above its number.
fn write_name(thread: Tid, plan: &Plan, names: &[u8], out: &mut Page) {
    if let Some(name) = name_of(names, thread) {
        out.fill(
            "<text class=\"again\" x=\"10\" y=\"{}\">",
            &[plan.band(thread).saturating_sub(8)],
        );
        out.words(from_utf8(name).unwrap_or(""));
        out.words("</text>");
    }
}

/// Writes the names of the lanes again above each 24th column behind the first, if there are so many columns.
fn write_names(plan: &Plan, out: &mut Page) {
    let repeats = plan.columns.saturating_sub(1) / REPEAT;
    if repeats == 0 {
        return;
    }
    out.words("<defs><g id=\"names\">");
    write_small_names(plan, out);
    out.words("</g></defs>");
    for place in 1..=repeats {
        let columns = place.saturating_mul(REPEAT);
        out.fill(
            "<use href=\"#names\" x=\"{}\"/>",
            &[plan.length(0, columns)],
        );
    }
    out.words("\n");
}

/// Writes the names of the lanes as they stand above the first column.
fn write_small_names(plan: &Plan, out: &mut Page) {
    for number in 1..=plan.threads {
        if let Some(thread) = Tid::new(number) {
            out.fill(
                "<text class=\"again\" x=\"{}\" y=\"{}\">t{}</text>",
                &[
                    plan.x(0).saturating_add(20),
                    plan.lane(thread).saturating_add(10),
                    number,
                ],
            );
        }
    }
}
