//! The machine of `searches`: a counter that rises unseen and says its count. Its lamp is switched unseen.
ghost use Rattle.std.specs.Prelude.{◌≡◌, ◌<◌, ◌+◌, ◌∷◌, [], Some, None, IfOk, IfSome};
ghost use Rattle.pif_test_jobs.specs.Counting.{Counts, is_hidden};

use pif_search::{Machine, Stop, one};
use std::alloc::Global;

/// The count of a counter, and whether its lamp is on.
pub type Counter = (u32, bool);

/// What a counter does: it says this count, or it does what is not seen.
pub type Label = Option<u32>;

/// One more, up to a top.
fn risen(from: &Counter, top: u32) -> Option<Counter>
    ensures some { IfSome result (λ t. (from.now.0 < top) × (t.0 ≡ from.now.0 + 1) × (t.1 ≡ from.now.1)) }
    ensures none { result ≡ None → from.now.0 < top → ⊥ }
{
    let (count, lamp) = *from;
    if count < top {
        Some((count + 1, lamp))
    } else {
        None
    }
}

fn two<T: Drop>(alloc: Global, first: T, second: T) -> Result<Vec<T>, Stop>
    ensures { IfOk result (λ v. v.items ≡ first ∷ second ∷ []) }
{
    let mut items = one(alloc, first)?;
    match items.push(second) {
        Ok(()) => Ok(items),
        Err(_) => Err(Stop::NoMemory),
    }
}

/// The counter itself, if this is its count.
fn said(alloc: Global, from: &Counter, label: &Label) -> Result<Vec<Counter>, Stop>
    ensures { IfOk result (λ v. (label.now ≡ Some from.now.0 → v.items ≡ from.now ∷ []) × ((label.now ≡ Some from.now.0 → ⊥) → v.items ≡ [])) }
{
    match *label {
        Some(count) if count == from.0 => one(alloc, *from),
        _ => Ok(Vec::new(alloc)),
    }
}

/// A counter of which all steps are searched.
#[derive(Drop)]
pub struct Whole {
    pub top: u32,
}

impl Machine for Whole {
    type State = Counter;

    type Label = Label;

    ghost step = { λ m s l t. Counts m.top s l t };

    ghost hides = { λ m l. is_hidden l };

    ghost seeks = { λ m s l t. Counts m.top s l t };

    ghost covers = { λ m u t. u ≡ t };

    fn moves(&self, alloc: Global, from: &Counter) -> Result<Vec<(Label, Counter)>, Stop> {
        let switched = (from.0, !from.1);
        match risen(from, self.top) {
            Some(risen) => {
                let steps = two(alloc, (None, switched), (None, risen))?;
                Ok(steps)
            }
            None => {
                let steps = one(alloc, (None, switched))?;
                Ok(steps)
            }
        }
    }

    fn after(&self, alloc: Global, from: &Counter, label: &Label) -> Result<Vec<Counter>, Stop> {
        let states = said(alloc, from, label)?;
        Ok(states)
    }

    fn is_same(&self, kept: &Counter, other: &Counter) -> bool {
        kept.0 == other.0 && kept.1 == other.1
    }

    fn key(&self, state: &Counter) -> u64 {
        u64::from(state.0)
    }
}
