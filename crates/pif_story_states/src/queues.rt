ghost use Rattle.std.specs.Prelude.{◌≡◌, ◌++◌, map, OnOk};
ghost use Rattle.pif_text.specs.Json.{name_text};
ghost use Rattle.pif_text.specs.Members.{array_member};
ghost use Rattle.pif_text_core.specs.Waiting.{all_in, order_in};

use pif_core::{Core, Order};
use pif_text::{Sequence, append_names};
use pif_text_core::nth;
use std::alloc::AllocError;

/// The numbers of the threads of an order.
#[derive(Clone, Copy)]
struct Threads<'a> {
    core: &'a Core,
    order: &'a Order,
}

impl Sequence for Threads<'_> {
    ghost members = { λ list. all_in list.order.now list.core.now };

    fn at(&self, place: u32) -> Option<u32> {
        match nth(self.core, self.order, place) {
            Some(thread) => Some(thread.get()),
            None => None,
        }
    }
}

/// Appends a member behind others: an array of the names of the threads of an order.
pub fn append_order(
    core: &Core,
    name: &str,
    order: &Order,
    out: &mut Vec<u8>,
) -> Result<(), AllocError>
    ensures { OnOk result (out.new.items
        ≡ out.old.items ++ array_member name.now (map (name_text 116) (order_in order.now core.now))) }
{
    append_names(out, name, &Threads { core, order }, b't', core.threads())
}
