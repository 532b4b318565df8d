ghost use Rattle.std.specs.Prelude.{◌≡◌, ◌++◌, OnOk};
ghost use Rattle.pif_text.specs.Json.{name_text};
ghost use Rattle.pif_text_core.specs.Waiting.{has, mutexes_added};
ghost use Rattle.pif_story_states.specs.Objects.{holds_member};

use pif_core::Core;
use pif_text::{Listed, append_array, append_name};
use pif_text_core::{has, mutexes_added};
use pif_types::Tid;
use std::alloc::AllocError;

/// The mutexes that a thread holds.
#[derive(Clone, Copy)]
struct Held<'a> {
    core: &'a Core,
    thread: Tid,
}

impl Listed for Held<'_> {
    ghost stands = { λ list m. has list.thread list.core.now m };

    ghost text = { λ list m. name_text 109 m };

    fn stands(&self, number: u32) -> bool {
        has(self.core, self.thread, number)
    }

    fn append(&self, number: u32, out: &mut Vec<u8>) -> Result<(), AllocError> {
        append_name(out, b'm', number)
    }
}

/// Appends the mutexes that a thread holds, as a member.
#[tactic(auto, unfolding(crate::specs::Objects::holds_member))]
pub fn append_holds(core: &Core, thread: Tid, out: &mut Vec<u8>) -> Result<(), AllocError>
    ensures { OnOk result (out.new.items ≡ out.old.items ++ holds_member thread core.now) }
{
    append_array(out, "holds", &Held { core, thread }, mutexes_added(core))
}
