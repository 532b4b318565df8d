ghost use Rattle.std.specs.Prelude.{◌≡◌};
ghost use Rattle.pif_text_core.specs.Changes.{awaited_holder};
ghost use Rattle.pif_text_core.specs.Texts.{holder_of};

use crate::holds::owner_of;
use crate::parts::Holder;
use crate::waits::awaited;
use pif_core::Core;
use pif_types::{MutexId, Tid};

/// Who holds a mutex, if anybody does.
pub fn holder_of(core: &Core, mutex: MutexId) -> Option<Holder>
    ensures { result ≡ holder_of mutex core.now }
{
    let owner = owner_of(core, mutex)?;
    let has_ended = core.base(owner).is_none();
    Some(Holder { owner, has_ended })
}

/// Who holds the mutex for which a thread waits.
pub fn awaited_holder(core: &Core, thread: Tid) -> Option<Holder>
    ensures { result ≡ awaited_holder thread core.now }
{
    match awaited(core, thread) {
        Some(mutex) => holder_of(core, mutex),
        None => None,
    }
}
