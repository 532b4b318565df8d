//! Answers that no page of POSIX has, in a run.
ghost use Rattle.std.specs.Prelude.{◌≡◌, ◌≤◌, ◌-◌, ◌∷◌, drop, length, IfOk};
ghost use Rattle.std.specs.List.{list_any};
ghost use Rattle.pif_history_model.specs.Searched.{Configuration};
ghost use Rattle.pif_rules_model.specs.declared.rules.Rules.{Rules as TheRules};
ghost use Rattle.pif_posix.specs.Shapes.{call_of};
ghost use Rattle.pif_history_told.specs.Steps.{IsStepBy};
ghost use Rattle.pif_history_told.specs.Unlisted.{IsFirstUnlisted, first_of, is_suspect, is_suspect_line, is_torn, is_unlisted, may_be_unlisted, unlisted_at, unlisted_call, with_step};
ghost use Rattle.pif_history_told.specs.Ways.{HasCome, IsRun};

use crate::state_objects::bound;
use crate::ways::{choices, next_step};
use pif_history_machine::Position;
use pif_history_model::{HistoryLimits, Label, Line};
use pif_posix::{Call, State};
use pif_rules_model::Rules;
use pif_search::Stop;
use pif_types::{Answer, Errno, Request};
use std::alloc::Global;

/// An answer that no page of POSIX has among the errors of the call.
#[derive(Clone, Copy)]
pub struct Unlisted {
    /// The place of its line among the lines that the run shows, from 1.
    pub line: usize,
    /// The call, without a deadline.
    pub request: Request,
    /// The answer.
    pub answer: Answer,
}

/// What was sought in the first steps of a run.
#[derive(Clone, Copy)]
struct Sought {
    /// How many lines they show.
    lines: usize,
    /// The first answer that no page has.
    first: Option<Unlisted>,
}

/// Whether a wait is one with another mutex than the bound one while a thread is blocked on the variable.
fn is_torn(alloc: Global, state: &State, cond: u32, mutex: u32) -> Result<bool, Stop>
    ensures { IfOk result (λ b. b ≡ is_torn state.now cond mutex) }
{
    if bound(state, cond as usize) == mutex {
        return Ok(false);
    }
    Ok(state.blocked_count(alloc, cond)? > 0)
}

/// Whether no page has this answer of a wait.
fn is_wait_unlisted(
    alloc: Global,
    state: &State,
    cond: u32,
    mutex: u32,
    answer: Answer,
) -> Result<bool, Stop>
    ensures { IfOk result (λ b. b ≡ is_unlisted state.now (Request.Wait cond mutex) answer) }
{
    if answer == Errno::Invalid.number() {
        return Ok(!is_torn(alloc, state, cond, mutex)?);
    }
    Ok(answer == Errno::Deadlock.number())
}

/// Whether no page has this answer of a call, in the state in which it is given.
fn is_unlisted(
    alloc: Global,
    state: &State,
    request: &Request,
    answer: Answer,
) -> Result<bool, Stop>
    ensures { IfOk result (λ b. b ≡ is_unlisted state.now request.now answer) }
{
    match *request {
        Request::Consistent(_) => Ok(answer == Errno::NotPermitted.number()),
        Request::Wait(cond, mutex) => {
            is_wait_unlisted(alloc, state, cond.get(), mutex.get(), answer)
        }
        Request::Signal(_) | Request::Broadcast(_) => Ok(answer == Errno::Overflow.number()),
        _ => Ok(false),
    }
}

/// The answer of an open call, at a line, if no page has it.
fn unlisted_call(
    alloc: Global,
    state: &State,
    answer: Answer,
    line: usize,
    call: Option<Call>,
) -> Result<Option<Unlisted>, Stop>
    ensures { IfOk result (λ o. o ≡ unlisted_call state.now answer line (call_of call)) }
{
    let Some(call) = call else {
        return Ok(None);
    };
    if !is_unlisted(alloc, state, &call.request, answer)? {
        return Ok(None);
    }
    Ok(Some(Unlisted {
        line,
        request: call.request,
        answer,
    }))
}

/// The answer that a line tells in a state, if no page has it. The line is this one of the run.
fn unlisted_at(
    alloc: Global,
    state: &State,
    told: &Line,
    line: usize,
) -> Result<Option<Unlisted>, Stop>
    ensures { IfOk result (λ o. o ≡ unlisted_at state.now told.now line) }
{
    match *told {
        Line::Answer(thread, answer) => {
            let call = state.call(thread.get() as usize);
            unlisted_call(alloc, state, answer, line, call)
        }
        _ => Ok(None),
    }
}

/// The first of two.
fn first_of(one: Option<Unlisted>, two: Option<Unlisted>) -> Option<Unlisted>
    ensures { result ≡ first_of one two }
{
    match one {
        Some(_) => one,
        None => two,
    }
}

/// What was sought, with a line more that is told in a state.
fn with_line(alloc: Global, state: &State, told: &Line, sought: Sought) -> Result<Sought, Stop>
    ensures { IfOk result (λ u. u ≡ with_step (Label.Shown told.now) state.now sought) }
{
    let Some(lines) = sought.lines.checked_add(1) else {
        return Err(Stop::Range);
    };
    let here = unlisted_at(alloc, state, told, lines)?;
    let first = first_of(sought.first, here);
    Ok(Sought { lines, first })
}

/// What was sought, with a step more from a state.
fn with_step(alloc: Global, state: &State, label: &Label, sought: Sought) -> Result<Sought, Stop>
    ensures { IfOk result (λ u. u ≡ with_step label.now state.now sought) }
{
    match *label {
        Label::Shown(line) => with_line(alloc, state, &line, sought),
        Label::Moves(_) => Ok(sought),
        Label::Ends(_) => Ok(sought),
    }
}

/// Whether an answer may be one that no page has, whatever the call is.
fn may_be_unlisted(answer: Answer) -> bool
    ensures { result ≡ may_be_unlisted answer }
{
    answer == Errno::NotPermitted.number()
        || answer == Errno::Invalid.number()
        || answer == Errno::Deadlock.number()
        || answer == Errno::Overflow.number()
}

/// Whether a line is such an answer.
fn is_suspect_line(line: &Line) -> bool
    ensures { result ≡ is_suspect_line line.now }
{
    match *line {
        Line::Answer(_, answer) => may_be_unlisted(answer),
        _ => false,
    }
}

/// Whether a step shows such an answer.
fn is_suspect(label: &Label) -> bool
    ensures { result ≡ is_suspect label.now }
{
    match *label {
        Label::Shown(line) => is_suspect_line(&line),
        Label::Moves(_) => false,
        Label::Ends(_) => false,
    }
}

/// Whether one of these steps does.
fn has_suspect(labels: &[Label]) -> bool
    ensures { result ≡ list_any is_suspect labels.now }
{
    labels.iter().any(|label| is_suspect(label))
}

/// Takes the next step of a run with these labels and choices, and answers to which position it leads, and what was
/// sought in it.
fn take_step(
    alloc: Global,
    rules: &Rules,
    limits: HistoryLimits,
    labels: &[Label],
    choices: &[usize],
    left: usize,
    from: &Position,
    sought: Sought,
) -> Result<(Position, Sought), Stop>
    requires some { 1 ≤ left }
    requires within { left ≤ length labels.now }
    requires come { HasCome rules.now limits labels.now choices.now left from.now }
    ensures come { IfOk result (λ x. HasCome rules.now limits labels.now choices.now (left - 1) x.0) }
    ensures sought { IfOk result (λ to. (x : Label) × (q : TheRules) × (drop (left - 1) labels.now ≡ x ∷ drop left labels.now)
        × IsStepBy rules.now limits from.now x q to.0 × (to.1 ≡ with_step x from.now.wide.world sought)) }
{
    let step = next_step(alloc, rules, limits, labels, choices, left, from)?;
    let more = with_step(alloc, from.world(), &labels[left - 1], sought)?;
    Ok((step.position, more))
}

/// The first answer that no page has, of a run with these labels, newest first.
fn walked(
    alloc: Global,
    rules: &Rules,
    limits: HistoryLimits,
    labels: &[Label],
) -> Result<Option<Unlisted>, Stop>
    requires run { IsRun rules.now limits labels.now }
    ensures { IfOk result (IsFirstUnlisted rules.now limits labels.now) }
{
    let chosen = choices(alloc, rules, limits, labels)?;
    let mut position = Position::start(alloc, limits)?;
    let mut sought = Sought {
        lines: 0,
        first: None,
    };
    let mut left = labels.len();
    while left > 0 {
        let (to, more) = take_step(
            alloc,
            rules,
            limits,
            labels,
            chosen.as_slice(),
            left,
            &position,
            sought,
        )?;
        position = to;
        sought = more;
        left -= 1;
    }
    Ok(sought.first)
}

/// The first answer, in a run whose steps have these labels, newest first, that no page of POSIX has among the errors
/// of its call. There has to be such a run. It is followed only if an answer may be one of these.
///
/// # Errors
///
/// Out of memory, or a number got too great for a state; or each such run comes to a step of more states than are made
/// at once.
pub fn first_unlisted(
    alloc: Global,
    rules: &Rules,
    limits: HistoryLimits,
    labels: &[Label],
) -> Result<Option<Unlisted>, Stop>
    requires run { IsRun rules.now limits labels.now }
    ensures { IfOk result (IsFirstUnlisted rules.now limits labels.now) }
{
    if has_suspect(labels) {
        walked(alloc, rules, limits, labels)
    } else {
        Ok(None)
    }
}
