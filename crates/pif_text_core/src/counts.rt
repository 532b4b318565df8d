ghost use Rattle.std.specs.Prelude.{◌≡◌};
ghost use Rattle.pif_text_core.specs.Waiting.{conds_added, mutexes_added};

use pif_core::Core;

/// How many mutexes were added.
pub fn mutexes_added(core: &Core) -> u32
    ensures { result ≡ mutexes_added core.now }
{
    core.mutexes()
}

/// How many condition variables were added.
pub fn conds_added(core: &Core) -> u32
    ensures { result ≡ conds_added core.now }
{
    core.conds()
}
