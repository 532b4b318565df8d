ghost use Rattle.std.specs.Prelude.{◌≡◌, Option, Some, None, option_map, is_some};
ghost use Rattle.pif_c.specs.MachineHandles.{running};

use crate::loose::Opened;
use crate::loose_machines::LooseMachine;
use crate::machine_handles::PifMachine;
use crate::machines::Machine;
use std::alloc::Global;

impl PifMachine {
    /// A handle that holds no machine.
    pub(crate) fn empty(alloc: Global) -> PifMachine
        ensures { running result ≡ None }
    {
        PifMachine {
            loose: LooseMachine::none(alloc),
            full: false,
        }
    }

    /// A handle that holds this machine.
    fn of(machine: Box<Machine>) -> PifMachine
        ensures { running result ≡ Some machine.value }
    {
        PifMachine {
            loose: LooseMachine::of(Opened::open(machine)),
            full: true,
        }
    }

    /// Whether it holds a machine.
    pub(crate) fn is_full(&self) -> bool
        ensures { result ≡ is_some (running self.now) }
    {
        self.full
    }

    /// Takes the machine out that it holds, and leaves it empty.
    pub(crate) fn take(&mut self, alloc: Global) -> Option<Box<Machine>>
        ensures machine { option_map (λ machine. machine.value) result ≡ running self.old }
        ensures empty { running self.new ≡ None }
    {
        std::mem::replace(self, PifMachine::empty(alloc)).into_machine()
    }

    /// Has it hold this machine. It has to hold none.
    pub(crate) fn put(&mut self, machine: Box<Machine>)
        requires { running self.old ≡ None }
        ensures { running self.new ≡ Some machine.value }
    {
        std::mem::replace(self, PifMachine::of(machine)).let_go();
    }
}

/// A handle may pass to another thread between two calls.
pub fn machine_crosses(handle: PifMachine) -> PifMachine
    ensures { result ≡ handle }
{
    crate::holding::crosses(handle)
}
