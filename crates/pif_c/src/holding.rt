ghost use Rattle.std.specs.Prelude.{◌≡◌, true, false, Option, Some, None, option_map, is_some};
ghost use Rattle.pif_c.specs.Handles.{held};

use crate::handles::PifCore;
use crate::loose::{Loose, Opened};
use pif_core::Core;
use std::alloc::Global;

impl PifCore {
    /// A handle that holds no core.
    #[inline(always)]
    pub(crate) fn empty(alloc: Global) -> PifCore
        ensures { held result ≡ None }
    {
        PifCore {
            loose: Loose::none(alloc),
            full: false,
        }
    }

    /// A handle that holds this core.
    #[inline(always)]
    pub(crate) fn of(core: Box<Core>) -> PifCore
        ensures { held result ≡ Some core.value }
    {
        PifCore {
            loose: Loose::of(Opened::open(core)),
            full: true,
        }
    }

    /// Whether it holds a core.
    pub(crate) fn is_full(&self) -> bool
        ensures { result ≡ is_some (held self.now) }
    {
        self.full
    }

    /// Takes the core out that it holds, and leaves it empty.
    #[inline(always)]
    pub(crate) fn take(&mut self, alloc: Global) -> Option<Box<Core>>
        ensures core { option_map (λ core. core.value) result ≡ held self.old }
        ensures empty { held self.new ≡ None }
    {
        std::mem::replace(self, PifCore::empty(alloc)).into_core()
    }

    /// Has it hold this core. It has to hold none.
    #[inline(always)]
    pub(crate) fn put(&mut self, core: Box<Core>)
        requires { held self.old ≡ None }
        ensures { held self.new ≡ Some core.value }
    {
        std::mem::replace(self, PifCore::of(core)).let_go();
    }
}

/// A value of a type that may cross to another thread.
pub(crate) fn crosses<T: Send>(value: T) -> T
    ensures { result ≡ value }
{
    value
}

/// A handle may pass to another thread between two calls.
pub fn handle_crosses(handle: PifCore) -> PifCore
    ensures { result ≡ handle }
{
    crosses(handle)
}
