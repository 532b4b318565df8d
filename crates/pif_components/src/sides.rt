//! The lines of one component, and where they stand among all.
ghost use Rattle.std.specs.Prelude.{◌≡◌, ◌≤◌, ◌+◌, length, IfOk};
ghost use Rattle.pif_components_model.specs.Components.{keeps, lines_of};
ghost use Rattle.pif_components_model.specs.Places.{IsPlaceOf};
ghost use Rattle.pif_components.specs.Sides.{side_of};

use crate::groups::{Groups, Object};
use pif_history_machine::thread_of;
use pif_history_model::{Fact, Line};
use pif_search::{Stop, push};
use pif_types::Request;
use std::alloc::Global;

/// Whether a line is of the component of this number: it has no thread, or one of the component.
fn is_of(groups: &Groups, number: usize, line: &Line) -> bool
    ensures { result ≡ keeps (side_of groups.now number) line.now }
{
    let _no_request: Option<Request> = None;
    let _no_fact: Option<Fact> = None;
    match thread_of(line) {
        Some(thread) => groups.number(Object::Thread(thread.get() as usize)) == number,
        None => true,
    }
}

/// The lines of the component of this number.
///
/// # Errors
///
/// Out of memory.
pub fn lines_of(
    alloc: Global,
    groups: &Groups,
    number: usize,
    lines: &[Line],
) -> Result<Vec<Line>, Stop>
    ensures { IfOk result (λ v. v.items ≡ lines_of (side_of groups.now number) lines.now) }
{
    let _no_request: Option<Request> = None;
    let _no_fact: Option<Fact> = None;
    let mut found = Vec::new(alloc);
    for place in 0..lines.len() {
        let line = &lines[place];
        if is_of(groups, number, line) {
            push(&mut found, *line)?;
        }
    }
    Ok(found)
}

/// The number among all lines, from 1, of the line of this number of a component, from 1.
pub fn place_of(groups: &Groups, number: usize, lines: &[Line], line_number: usize) -> usize
    requires some { 1 ≤ line_number }
    requires within { line_number ≤ length (lines_of (side_of groups.now number) lines.now) }
    ensures { IsPlaceOf (side_of groups.now number) lines.now line_number result }
{
    let _no_request: Option<Request> = None;
    let _no_fact: Option<Fact> = None;
    let mut left = line_number;
    for place in 0..lines.len() {
        let line = &lines[place];
        if is_of(groups, number, line) {
            left = left.saturating_sub(1);
            if left == 0 {
                return place + 1;
            }
        }
    }
    lines.len()
}
