ghost use Rattle.std.specs.Prelude.{◌≡◌, false, Some, None, option_map, if◌then◌else◌};

use crate::loose::Loose;
use pif_core::Core;

/// What C holds of a core: none, as the zeros with which C begins are, or one. To let it go frees the core.
#[repr(C)]
pub struct PifCore {
    pub(crate) loose: Loose,
    pub(crate) full: bool,
    ghost same: { loose.holds ≡ full },
}

impl PifCore {
    /// The core that it holds.
    #[inline(always)]
    pub(crate) fn into_core(self) -> Option<Box<Core>>
        ensures { option_map (λ core. core.value) result ≡ (if self.full then Some self.loose.table else None) }
    {
        let PifCore { loose, full } = self;
        if full {
            Some(loose.into_opened().close())
        } else {
            loose.let_go();
            None
        }
    }

    /// Lets it go. It has to hold no core.
    #[inline(always)]
    pub(crate) fn let_go(self)
        requires { self.full ≡ false }
    {
        let PifCore { loose, full: _ } = self;
        loose.let_go();
    }
}

impl Drop for PifCore {
    fn drop(self) {
        drop(self.into_core());
    }
}
