//! For how long threads are held up at the most.
ghost use Rattle.std.specs.Prelude.{◌≡◌, ◌<◌, IfOk, length, true};
ghost use Rattle.pif_reach.specs.Spaces.{IsWhole};
ghost use Rattle.pif_explore_model.specs.Exploring.{Steps};
ghost use Rattle.pif_explore_model.specs.Forgetting.{AreSameSoFar};
ghost use Rattle.pif_explore_model.specs.Situations.{Situation as Situated};
ghost use Rattle.pif_job_explore.specs.Delays.{AreHeld};

use pif_explore::{Explored, Plan, delay_of};
use pif_explore_told::Held;
use pif_search::{Stop, push};
use pif_types::Tid;
use std::alloc::Global;

/// For how long threads are held up at the most.
///
/// # Errors
///
/// Out of memory, or a number got too great for a state.
pub fn delays(
    alloc: Global,
    plan: &Plan,
    explored: &Explored,
    threads: &[Tid],
) -> Result<Vec<Held>, Stop>
    ensures { IfOk result (λ v. (start : Situated) → (0 < length threads.now → explored.now.is_whole ≡ true → IsWhole (Steps plan.now) AreSameSoFar start explored.now.nodes.items) → AreHeld plan.now start explored.now.nodes.items threads.now v.items) }
{
    let mut all = Vec::new(alloc);
    for thread in threads {
        let number = thread.get() as usize;
        let delay = delay_of(plan, alloc, explored, number)?;
        push(
            &mut all,
            Held {
                thread: number,
                delay,
            },
        )?;
    }
    Ok(all)
}
