//! Steps of a position, which is changed in place.
ghost use Rattle.std.specs.Prelude.{◌≡◌, true, false, Some, None, List, ℕ, IfOk};
ghost use Rattle.pif_types.specs.Bounds.{Bounds};
ghost use Rattle.pif_rules_model.specs.declared.rules.Rules.{Rules};
ghost use Rattle.pif_rules_model.specs.Rules.{WideMoves, WideEnters, end_of};
ghost use Rattle.pif_history_model.specs.declared.labels.Label.TheVariants.{Shown, Moves};
ghost use Rattle.pif_history_model.specs.Lines.{is_line_among, dying_after, comes_while, ended_by};
ghost use Rattle.pif_history_model.specs.Listed.{entry_for};
ghost use Rattle.pif_history_model.specs.Searched.{Advances};

use crate::scene::Scene;
use pif_history_machine::{
    HistoryMachine, Later, Position, comes_while, entry_of, is_line_among, is_seen,
};
use pif_history_model::{Fact, HistoryLimits, Label, Line, Protocol};
use pif_model::{Entry, Event};
use pif_posix::Wide;
use pif_search::{Stop, unless_many};
use pif_types::{Request, Tid};
use std::alloc::Global;

/// The scene of a position in front of a line.
pub(crate) fn scene_of<'a>(position: &'a Position, later: &'a Later, line: usize) -> Scene<'a> {
    Scene::new(position, later, line)
}

/// The place of the position that is best kept, the first of several: a hopeful one, of best rank for the variable that
/// is used. If there is none it is the number of positions.
fn best_of(later: &Later, positions: &[Position], line: usize, variable: u32) -> usize {
    let mut best = positions.len();
    let mut greatest = (0, 0, 0);
    for place in 0..positions.len() {
        let scene = scene_of(&positions[place], later, line);
        let rank = scene.rank(variable);
        if scene.is_hopeful() && (best == positions.len() || rank > greatest) {
            best = place;
            greatest = rank;
        }
    }
    best
}

/// The variable that a step uses; 0 if it uses none.
fn used_by(scene: &Scene<'_>, label: &Label) -> u32 {
    match label {
        Label::Moves(thread) => scene.used(thread.get() as usize),
        _ => 0,
    }
}

/// Whether a line comes in place, if it may: it is neither the end of a thread, nor tells that one is dying, nor adds a
/// mutex that lends nothing, nor is one that the plain machine doesn't have. It then leaves it as it is who is dying.
fn comes_in_place(line: &Line) -> bool
    ensures kept { result ≡ true → (us : List ℕ) → dying_after line.now us ≡ us }
    ensures no_end { result ≡ true → ended_by line.now ≡ None }
{
    match *line {
        Line::Dying(_) => false,
        Line::End(_) => false,
        Line::Mutex(_, _, Protocol::PrioNone) => false,
        Line::Process(_) | Line::Halted | Line::Resumed | Line::Asks(_, _) => false,
        Line::Mutex(_, _, Protocol::PrioInherit)
        | Line::Thread(_)
        | Line::Cond(_)
        | Line::Begin(_, _)
        | Line::Answer(_, _)
        | Line::Tick(_)
        | Line::Rests(_)
        | Line::Prio(_, _) => true,
    }
}

/// The open call of a thread makes the only plain move that it can make; false if it has none, or a choice, or if some
/// mutex lends nothing.
fn go_on(wide: &mut Wide, alloc: Global, thread: Tid) -> Result<bool, Stop>
    ensures { IfOk result (λ b. b ≡ true → (r : Rules) → WideMoves r thread wide.old wide.new) }
{
    if !wide.inherits() {
        return Ok(false);
    }
    wide.state.go(alloc, thread.get())
}

/// The open call of a thread makes the only plain move that it can make; false if it has none, or a choice, or if some
/// mutex lends nothing, or nothing runs.
pub(crate) fn go(position: &mut Position, alloc: Global, thread: Tid) -> Result<bool, Stop>
    ensures { IfOk result (λ b. b ≡ true → (r : Rules) (l : Bounds) → Advances r l position.old (Moves thread) position.new) }
{
    if position.is_halted() {
        return Ok(false);
    }
    go_on(&mut position.wide, alloc, thread)
}

/// This entry, which is no end of a thread, comes; false if it can't.
fn come_on(
    wide: &mut Wide,
    alloc: Global,
    limits: &HistoryLimits,
    entry: &Entry,
) -> Result<bool, Stop>
    requires { end_of entry.now ≡ None }
    ensures { IfOk result (λ b. b ≡ true → (r : Rules) → WideEnters r limits.now wide.old entry.now wide.new) }
{
    if !wide.has_all_again(entry) {
        return Ok(false);
    }
    wide.state.come(alloc, limits, entry)
}

/// What the line shows happens, which is this entry; false if it can't.
fn come(
    position: &mut Position,
    alloc: Global,
    limits: &HistoryLimits,
    line: &Line,
    entry: &Entry,
) -> Result<bool, Stop>
    requires comes { comes_while position.old.halted line.now ≡ true }
    requires among { is_line_among position.old.dying line.now ≡ false }
    requires kept { dying_after line.now position.old.dying ≡ position.old.dying }
    requires no_end { ended_by line.now ≡ None }
    requires entry { Some entry.now ≡ entry_for position.old.wide.world line.now }
    ensures { IfOk result (λ b. b ≡ true → (r : Rules) → Advances r limits.now position.old (Shown line.now) position.new) }
{
    let _line = line;
    come_on(&mut position.wide, alloc, limits, entry)
}

/// Whether the line tells of the state, and what it tells is so.
fn tells(
    position: &Position,
    alloc: Global,
    limits: &HistoryLimits,
    line: &Line,
) -> Result<bool, Stop>
    requires comes { comes_while position.now.halted line.now ≡ true }
    requires among { is_line_among position.now.dying line.now ≡ false }
    requires kept { dying_after line.now position.now.dying ≡ position.now.dying }
    ensures { IfOk result (λ b. b ≡ true → (r : Rules) → Advances r limits.now position.now (Shown line.now) position.now) }
{
    let _limits = limits;
    is_seen(alloc, position.wide(), line)
}

/// The best position to which a step of this label leads, in place of this one; false if there is none.
pub(crate) fn switch(
    position: &mut Position,
    alloc: Global,
    machine: &HistoryMachine,
    later: &Later,
    label: &Label,
    line: usize,
) -> Result<bool, Stop>
    ensures { IfOk result (λ b. b ≡ true → Advances machine.now.rules machine.now.limits position.old label.now position.new) }
{
    let variable = used_by(&scene_of(position, later, line), label);
    let found = machine.behind(alloc, position, label);
    let Some(mut positions) = unless_many(found)? else {
        return Ok(false);
    };
    let place = best_of(later, positions.as_slice(), line, variable);
    if place >= positions.len() {
        return Ok(false);
    }
    *position = positions.remove(place);
    Ok(true)
}

/// A line comes that doesn't change who is dying, of a thread that isn't dying, if it may. It is one that may come while
/// nothing runs, or threads do, as it is.
fn show_kept(
    position: &mut Position,
    alloc: Global,
    limits: &HistoryLimits,
    line: &Line,
) -> Result<bool, Stop>
    requires comes { comes_while position.old.halted line.now ≡ true }
    requires among { is_line_among position.old.dying line.now ≡ false }
    requires kept { dying_after line.now position.old.dying ≡ position.old.dying }
    requires no_end { ended_by line.now ≡ None }
    ensures { IfOk result (λ b. b ≡ true → (r : Rules) → Advances r limits.now position.old (Shown line.now) position.new) }
{
    // The check has to be told of the types of requests, events and facts, which entries and lines hold.
    let _no_request: Option<Request> = None;
    let _no_fact: Option<Fact> = None;
    let _no_event: Option<Event> = None;
    match entry_of(position.world(), line)? {
        Some(entry) => come(position, alloc, limits, line, &entry),
        None => tells(position, alloc, limits, line),
    }
}

/// The line comes, if it may.
pub(crate) fn show(
    position: &mut Position,
    alloc: Global,
    machine: &HistoryMachine,
    later: &Later,
    line: &Line,
    place: usize,
) -> Result<bool, Stop>
    ensures { IfOk result (λ b. b ≡ true → Advances machine.now.rules machine.now.limits position.old (Shown line.now) position.new) }
{
    if !comes_in_place(line) {
        return switch(position, alloc, machine, later, &Label::Shown(*line), place);
    }
    if !comes_while(position.is_halted(), line) || is_line_among(position.dying(), line) {
        return Ok(false);
    }
    show_kept(position, alloc, &machine.limits, line)
}
