ghost use Rattle.std.specs.Prelude.{◌≡◌, ◌≤◌, ◌-◌, ◌∷◌, drop, length, IfOk};
ghost use Rattle.pif_history_model.specs.Searched.{Configuration};
ghost use Rattle.pif_rules_model.specs.declared.rules.Rules.{Rules as TheRules};
ghost use Rattle.pif_rules.specs.Sets.{names_of};
ghost use Rattle.pif_history_told.specs.Runs.{IsTold, Telling, with_step};
ghost use Rattle.pif_history_told.specs.Steps.{IsStepBy};
ghost use Rattle.pif_history_told.specs.Ways.{HasCome, IsRun};

use crate::run_lines::{Frame, Leap, Telling};
use crate::ways::{choices, next_step};
use pif_history_machine::Position;
use pif_history_model::{HistoryLimits, Label};
use pif_rules::push_names;
use pif_rules_model::Rules;
use pif_search::Stop;
use std::alloc::Global;

/// Tells the next step of a run with these labels and choices, and answers to which position it leads.
fn take_step(
    alloc: Global,
    rules: &Rules,
    limits: HistoryLimits,
    frame: &Frame<'_>,
    labels: &[Label],
    choices: &[usize],
    left: usize,
    from: &Position,
    told: &mut Telling,
) -> Result<Position, Stop>
    requires some { 1 ≤ left }
    requires within { left ≤ length labels.now }
    requires come { HasCome rules.now limits labels.now choices.now left from.now }
    ensures come { IfOk result (λ to. HasCome rules.now limits labels.now choices.now (left - 1) to) }
    ensures told { IfOk result (λ to. (x : Label) × (q : TheRules) × (drop (left - 1) labels.now ≡ x ∷ drop left labels.now)
        × IsStepBy rules.now limits from.now x q to
        × (told.new ≡ with_step frame.now.from frame.now.numbers.now x (names_of q) from.now.wide to.wide told.old)) }
{
    let step = next_step(alloc, rules, limits, labels, choices, left, from)?;
    let mut names = Vec::new(alloc);
    push_names(&step.by, &mut names)?;
    let leap = Leap {
        names: names.as_slice(),
        from: from.wide(),
        to: step.position.wide(),
    };
    told.add(alloc, frame, &labels[left - 1], &leap)?;
    Ok(step.position)
}

/// A run whose steps have these labels, newest first, as lines of JSON: one for each line of the history but the first
/// `from`, which has the number of its place among `numbers`, the moves before it, and what each changes. A step that
/// needs some of these rules names them. There has to be such a run.
///
/// # Errors
///
/// Out of memory, or a number got too great for a state; or each such run comes to a step of more states than are made
/// at once.
pub fn run_text(
    alloc: Global,
    rules: &Rules,
    limits: HistoryLimits,
    numbers: &[u32],
    from: usize,
    witness: &[Label],
) -> Result<Vec<u8>, Stop>
    requires run { IsRun rules.now limits witness.now }
    ensures { IfOk result (λ text. (last : Configuration) × (told : Telling)
        × IsTold rules.now limits numbers.now from witness.now last told × (text.items ≡ told.done)) }
{
    let chosen = choices(alloc, rules, limits, witness)?;
    let frame = Frame { numbers, from };
    let mut position = Position::start(alloc, limits)?;
    let mut told = Telling::new(alloc);
    let mut left = witness.len();
    while left > 0 {
        position = take_step(
            alloc,
            rules,
            limits,
            &frame,
            witness,
            chosen.as_slice(),
            left,
            &position,
            &mut told,
        )?;
        left -= 1;
    }
    Ok(told.into_lines())
}
