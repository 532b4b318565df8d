ghost use Rattle.std.specs.Prelude.{◌≡◌, ◌++◌, OnOk};
ghost use Rattle.pif_story_states.specs.Objects.{cond_object};

use crate::numbers::number_of;
use crate::queues::append_order;
use pif_core::{Core, Order};
use pif_text::{Member, append_members};
use pif_types::CondId;
use std::alloc::AllocError;

/// Appends a condition variable, as an object.
pub fn append_cond(core: &Core, cond: CondId, out: &mut Vec<u8>) -> Result<(), AllocError>
    ensures { OnOk result (out.new.items ≡ out.old.items ++ cond_object core.now cond) }
{
    append_members(
        out,
        b'{',
        &[
            Member::Name("name", b'c', cond.get()),
            Member::NameOrNull("mutex", b'm', number_of(core.bound(cond))),
            Member::NumberOrNull("uses", core.cond_word(cond)),
        ],
    )?;
    append_order(core, "parked", &Order::Parked(cond), out)?;
    out.extend_from_slice(b"}")
}
