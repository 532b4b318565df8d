//! The labels of lines, and of the lines that may come next: each answer, or each priority, of a thread.
ghost use Rattle.std.specs.Prelude.{◌≡◌, ◌++◌, [], map, IfOk, OnOk};
ghost use Rattle.pif_history_model.specs.declared.lines.Line.TheVariants.{Answer as AnswerLine, Prio as PrioLine};
ghost use Rattle.pif_history_model.specs.declared.labels.Label.TheVariants.{Shown};
ghost use Rattle.pif_history_model.specs.Verdicts.{answers};
ghost use Rattle.pif_history_model.specs.Numbers.{number_of, before_if, numbers_in, up_to};

use pif_history_model::{Label, Line};
use pif_search::{Stop, one, push};
use pif_types::{Errno, Tid};
use std::alloc::Global;

/// The errors that a call can answer, in the order of their numbers.
const ERRORS: [Errno; 10] = [
    Errno::NotPermitted,
    Errno::NoSuchThread,
    Errno::Again,
    Errno::Busy,
    Errno::Invalid,
    Errno::Deadlock,
    Errno::Overflow,
    Errno::TimedOut,
    Errno::OwnerDead,
    Errno::NotRecoverable,
];

/// The labels of these lines.
///
/// # Errors
///
/// Out of memory.
pub fn labels_of(alloc: Global, lines: &[Line]) -> Result<Vec<Label>, Stop>
    ensures { IfOk result (λ v. v.items ≡ map (λ x. Shown x) lines.now) }
{
    let mut labels = Vec::new(alloc);
    for line in lines {
        push(&mut labels, Label::Shown(*line))?;
    }
    Ok(labels)
}

/// The labels of each answer of the thread.
///
/// # Errors
///
/// Out of memory.
pub fn answers_of(alloc: Global, thread: Tid) -> Result<Vec<Label>, Stop>
    ensures { IfOk result (λ v. v.items ≡ map (λ a. Shown (AnswerLine thread a)) answers) }
{
    let mut labels = one(alloc, Label::Shown(Line::Answer(thread, 0)))?;
    for error in ERRORS.as_slice() {
        push(
            &mut labels,
            Label::Shown(Line::Answer(thread, error.number())),
        )?;
    }
    Ok(labels)
}

/// The labels of each priority of the thread.
///
/// # Errors
///
/// Out of memory.
pub fn priorities_of(alloc: Global, thread: Tid) -> Result<Vec<Label>, Stop>
    ensures { IfOk result (λ v. v.items ≡ map (λ p. Shown (PrioLine thread p)) (up_to 99)) }
{
    let mut labels = Vec::new(alloc);
    for prio in 1..100 {
        push(&mut labels, Label::Shown(Line::Prio(thread, prio)))?;
    }
    Ok(labels)
}

/// The number of an answer or of a priority that a label shows.
fn number_of(label: &Label) -> Option<u32>
    ensures { result ≡ number_of label.now }
{
    match *label {
        Label::Shown(Line::Answer(_, number)) => Some(number),
        Label::Shown(Line::Prio(_, number)) => Some(number),
        _ => None,
    }
}

/// The number behind the others, if there is one.
fn push_if(numbers: &mut Vec<u32>, number: Option<u32>) -> Result<(), Stop>
    ensures { OnOk result (numbers.new.items ≡ numbers.old.items ++ before_if number []) }
{
    match number {
        Some(number) => push(numbers, number),
        None => Ok(()),
    }
}

/// The numbers of answers and of priorities that these labels show.
///
/// # Errors
///
/// Out of memory.
pub fn numbers_of(alloc: Global, labels: &[Label]) -> Result<Vec<u32>, Stop>
    ensures { IfOk result (λ v. v.items ≡ numbers_in labels.now) }
{
    let mut numbers = Vec::new(alloc);
    for label in labels {
        push_if(&mut numbers, number_of(label))?;
    }
    Ok(numbers)
}
