ghost use Rattle.std.specs.Prelude.{◌≡◌, ◌+◌, ◌++◌, ◌∷◌, [], IfOk, IfSome, OnOk, Some};
ghost use Rattle.pif_job_parts.specs.Indexes.{number_at, numbers_from, numbers_of};

use crate::indexes::Run;
use std::alloc::{AllocError, Global};

/// Appends a run, if it has a number.
fn push_run(runs: &mut Vec<Run>, run: &Run) -> Result<(), AllocError>
    ensures { OnOk result (numbers_of runs.new.items ≡ numbers_of runs.old.items ++ numbers_from run.now.number run.now.count) }
{
    if run.count == 0 {
        return Ok(());
    }
    runs.push(*run)?;
    Ok(())
}

/// The run with one number more, if that follows it.
fn with_next(run: &Run, number: u32) -> Option<Run>
    ensures { IfSome result (λ longer. numbers_from longer.number longer.count ≡ numbers_from run.now.number run.now.count ++ number ∷ []) }
{
    if run.number.checked_add(run.count)? != number {
        return None;
    }
    Some(Run {
        number: run.number,
        count: run.count.checked_add(1)?,
    })
}

/// These numbers, in order, by those that follow one another.
///
/// # Errors
///
/// Memory was refused.
pub fn runs_of(alloc: Global, numbers: &[u32]) -> Result<Vec<Run>, AllocError>
    ensures { IfOk result (λ runs. numbers_of runs.items ≡ numbers.now) }
{
    let mut runs = Vec::new(alloc);
    let mut run = Run {
        number: 0,
        count: 0,
    };
    for number in numbers {
        match with_next(&run, *number) {
            Some(longer) => run = longer,
            None => {
                push_run(&mut runs, &run)?;
                run = Run {
                    number: *number,
                    count: 1,
                };
            }
        }
    }
    push_run(&mut runs, &run)?;
    Ok(runs)
}

/// The number at this place, from 0, of those of these runs; `None` if there is none of 32 bits.
pub fn number_at(runs: &[Run], place: usize) -> Option<u32>
    ensures { IfSome result (λ number. number_at runs.now place ≡ Some number) }
{
    let mut rest = runs;
    let mut left = place;
    while let [run, more @ ..] = rest {
        let count = run.count as usize;
        if left < count {
            return run.number.checked_add(left as u32);
        }
        left -= count;
        rest = more;
    }
    None
}
