ghost use Rattle.std.specs.Prelude.{◌≡◌, ◌<◌, ◌+◌, length};
ghost use Rattle.pif_kernel_model.specs.Inside.{IsSoundInside, kernel_of, ticket_of};
ghost use Rattle.pif_kernel_model.specs.Arrivals.{Rise};

use crate::chains::Chains;
use crate::parts::Parts;
use crate::renumbering::number_anew;

impl<C: Chains + Drop> Parts<C> {
    /// Takes the next ticket. At the last one the tickets that are held are renumbered from 1, in their order.
    pub fn take_ticket(&mut self) -> u64
        requires sound { IsSoundInside self.old }
        ensures frame { self.new ≡ record self.old { owners = self.new.owners; table = self.new.table; next = self.new.next } }
        ensures taken { self.old.next < 18446744073709551615 → result ≡ self.old.next }
        ensures next { self.new.next ≡ result + 1 }
        ensures rises { Rise (ticket_of self.new.owners) 1 self.new.arrivals result }
        ensures same { kernel_of self.new ≡ kernel_of self.old }
        ensures sound { IsSoundInside self.new }
    {
        if self.next == u64::MAX {
            self.renumber();
        }
        let ticket = self.next;
        self.next += 1;
        ticket
    }

    /// Renumbers the tickets that are held from 1, in their order.
    fn renumber(&mut self)
        requires sound { IsSoundInside self.old }
        ensures frame { self.new ≡ record self.old { owners = self.new.owners; table = self.new.table; next = self.new.next } }
        ensures next { self.new.next ≡ length self.old.arrivals + 1 }
        ensures same { kernel_of self.new ≡ kernel_of self.old }
        ensures sound { IsSoundInside self.new }
    {
        let ticket = number_anew(&mut self.chains, &self.statuses);
        self.next = ticket;
    }
}
