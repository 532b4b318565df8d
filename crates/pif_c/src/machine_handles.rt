ghost use Rattle.std.specs.Prelude.{◌≡◌, false, Some, None, option_map, if◌then◌else◌};

use crate::loose_machines::LooseMachine;
use crate::machines::Machine;

/// What C holds of a machine: none, as the zeros with which C begins are, or one. To let it go frees the machine.
#[repr(C)]
pub struct PifMachine {
    pub(crate) loose: LooseMachine,
    pub(crate) full: bool,
    ghost same: { loose.holds ≡ full },
}

impl PifMachine {
    /// The machine that it holds.
    pub(crate) fn into_machine(self) -> Option<Box<Machine>>
        ensures { option_map (λ machine. machine.value) result ≡ (if self.full then Some self.loose.running else None) }
    {
        let PifMachine { loose, full } = self;
        if full {
            Some(loose.into_opened().close())
        } else {
            loose.let_go();
            None
        }
    }

    /// Lets it go. It has to hold no machine.
    pub(crate) fn let_go(self)
        requires { self.full ≡ false }
    {
        let PifMachine { loose, full: _ } = self;
        loose.let_go();
    }
}

impl Drop for PifMachine {
    fn drop(self) {
        drop(self.into_machine());
    }
}
