//! What is found of the claims of a file.
ghost use Rattle.std.specs.Prelude.{◌≡◌, All, IfOk, length, map, true};
ghost use Rattle.pif_explore_model.specs.Spaces.{AreFinalBelow, LeadToFinals};
ghost use Rattle.pif_explore_model.specs.Exploring.{Steps};
ghost use Rattle.pif_explore_model.specs.Forgetting.{AreSameSoFar};
ghost use Rattle.pif_explore_model.specs.Situations.{Situation as Situated};
ghost use Rattle.pif_explore_text.specs.Views.{claim_view};
ghost use Rattle.pif_explore.specs.Finding.{IsEnoughOf};
ghost use Rattle.pif_reach.specs.Spaces.{AreEdges};
ghost use Rattle.pif_job_explore.specs.Exploring.{AreRuled, IsFoundOf, IsRuled, first_broken};

use pif_explore::{Explored, Plan};
use pif_explore_model::Assertion;
use pif_explore_text::Claim;
use pif_explore_told::{Ruling, Verdict, livelock_verdict, verdict_of};
use pif_search::{Stop, push};
use std::alloc::Global;

/// What is found of what a line claims.
fn verdict_on(
    plan: &Plan,
    alloc: Global,
    explored: &Explored,
    assertion: &Assertion,
) -> Result<Verdict, Stop>
    requires finals { AreFinalBelow plan.now explored.now.nodes.items explored.now.finals.items (length explored.now.nodes.items) }
    requires edges { AreEdges (Steps plan.now) AreSameSoFar explored.now.nodes.items explored.now.edges.items }
    requires finals_are_led_to { explored.now.is_whole ≡ true → LeadToFinals plan.now explored.now.nodes.items explored.now.edges.items explored.now.finals.items }
    ensures { IfOk result (λ v. (start : Situated) → (explored.now.is_whole ≡ true → IsEnoughOf plan.now start explored.now.nodes.items assertion.now) → IsFoundOf plan.now start explored.now.nodes.items assertion.now v) }
{
    match assertion {
        Assertion::Of(scope, condition) => verdict_of(plan, alloc, explored, scope, condition),
        Assertion::NoLivelock => livelock_verdict(plan, alloc, explored),
    }
}

/// What is found of a claim.
fn ruling(plan: &Plan, alloc: Global, explored: &Explored, claim: &Claim) -> Result<Ruling, Stop>
    requires finals { AreFinalBelow plan.now explored.now.nodes.items explored.now.finals.items (length explored.now.nodes.items) }
    requires edges { AreEdges (Steps plan.now) AreSameSoFar explored.now.nodes.items explored.now.edges.items }
    requires finals_are_led_to { explored.now.is_whole ≡ true → LeadToFinals plan.now explored.now.nodes.items explored.now.edges.items explored.now.finals.items }
    ensures { IfOk result (λ r. (start : Situated) → (explored.now.is_whole ≡ true → IsEnoughOf plan.now start explored.now.nodes.items claim.now.assertion) → IsRuled plan.now start explored.now.nodes.items (claim_view claim.now) r) }
{
    let verdict = verdict_on(plan, alloc, explored, &claim.assertion)?;
    let text = Vec::from_slice(alloc, claim.text.as_slice())?;
    Ok(Ruling {
        number: claim.number,
        text,
        verdict,
    })
}

/// What is found of claims.
///
/// # Errors
///
/// Out of memory.
pub fn rulings(
    alloc: Global,
    plan: &Plan,
    explored: &Explored,
    claims: &[Claim],
) -> Result<Vec<Ruling>, Stop>
    requires finals { AreFinalBelow plan.now explored.now.nodes.items explored.now.finals.items (length explored.now.nodes.items) }
    requires edges { AreEdges (Steps plan.now) AreSameSoFar explored.now.nodes.items explored.now.edges.items }
    requires finals_are_led_to { explored.now.is_whole ≡ true → LeadToFinals plan.now explored.now.nodes.items explored.now.edges.items explored.now.finals.items }
    ensures { IfOk result (λ v. (start : Situated) → (explored.now.is_whole ≡ true → All (λ x. IsEnoughOf plan.now start explored.now.nodes.items x.assertion) claims.now) → AreRuled plan.now start explored.now.nodes.items (map claim_view claims.now) v.items) }
{
    let mut all = Vec::new(alloc);
    for claim in claims {
        let next = ruling(plan, alloc, explored, claim)?;
        push(&mut all, next)?;
    }
    Ok(all)
}

/// The line of the first claim that is broken, if there is one.
pub fn first_broken(rulings: &[Ruling]) -> Option<u32>
    ensures { result ≡ first_broken rulings.now }
{
    for ruling in rulings {
        match ruling.verdict {
            Verdict::Broken(_) | Verdict::Unmet => return Some(ruling.number),
            Verdict::Kept | Verdict::Idle | Verdict::Open | Verdict::Met(_) => {}
        }
    }
    None
}
