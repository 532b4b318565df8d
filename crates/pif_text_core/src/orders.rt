ghost use Rattle.std.specs.Prelude.{◌≡◌};
ghost use Rattle.std.specs.List.{slice_get};
ghost use Rattle.pif_text_core.specs.Waiting.{all_in};

use pif_core::{Core, Order};
use pif_types::Tid;

/// The thread of an order before which `place` others stand, 0 for the first; none if so few stand in it.
#[tactic(auto, using(crate::proofs::ReaderLemmas::in_order))]
pub fn nth(core: &Core, order: &Order, place: u32) -> Option<Tid>
    ensures { result ≡ slice_get (all_in order.now core.now) place }
{
    core.nth(*order, place)
}
