ghost use Rattle.std.specs.Prelude.{◌≡◌, Bool, true, false};
ghost use Rattle.pif_c.specs.Running.{Running};
ghost use Rattle.pif_c.specs.LooseMachines.{machine_owned_where, machine_coded};

use crate::loose::Opened;
use crate::machines::Machine;
use std::alloc::Global;
use std::marker::Model;

/// A machine in its block, or none, behind a pointer whose type C knows: a pointer to a type of Rattle doesn't cross to C.
/// It can't be dropped, so that no machine is ever forgotten: `into_opened` gives back the one that it has, and `let_go`
/// is for one that has none.
#[repr(C)]
pub struct LooseMachine {
    at: *mut u8,
    alloc: Global,
    pub ghost holds: { Bool },
    pub ghost running: { Running } by { machine_coded },
}

impl Model for LooseMachine {
    ghost also_owns = { λ l. machine_owned_where l.holds l.alloc l.at l.running };
}

impl LooseMachine {
    /// No machine: the null pointer.
    #[inline(always)]
    pub(crate) fn none(alloc: Global) -> LooseMachine
        ensures { result.holds ≡ false }
    {
        LooseMachine {
            at: std::ptr::null_mut(),
            alloc,
        }
    }

    /// The machine of this box.
    #[inline(always)]
    pub(crate) fn of(machine: Opened<Machine, Global>) -> LooseMachine
        ensures { (result.holds ≡ true) × (result.running ≡ machine.value) }
    {
        let Opened { at, alloc } = machine;
        LooseMachine {
            at: at as *mut u8,
            alloc,
        }
    }

    /// The box of the machine that there is.
    #[inline(always)]
    pub(crate) fn into_opened(self) -> Opened<Machine, Global>
        requires { self.holds ≡ true }
        ensures { result.value ≡ self.running }
    {
        let LooseMachine { at, alloc } = self;
        Opened {
            at: at as *mut Machine,
            alloc,
        }
    }

    /// Lets it go. There has to be no machine.
    #[inline(always)]
    pub(crate) fn let_go(self)
        requires { self.holds ≡ false }
    {
        let LooseMachine { at: _, alloc: _ } = self;
    }
}

// A box of a machine may cross to another thread, and so may what is left of it here.
unsafe impl Send for LooseMachine {}
