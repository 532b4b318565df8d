ghost use Rattle.std.specs.Prelude.{◌≡◌, ◌≤◌, true, length, Ok};
ghost use Rattle.pif_model.specs.PiKernel.{seat_at, has_seat, is_living, is_ready, kernel_after_add, kernel_after_set_prio, kernel_after_stop};
ghost use Rattle.pif_kernel_model.specs.Inside.{IsSoundInside, kernel_of};

use crate::chains::Chains;
use crate::parts::Parts;
use pif_model::{Status, Woken};
use pif_types::{Prio, Tid, push_within};

impl<C: Chains + Drop> Parts<C> {
    /// Adds a thread of this base priority.
    pub fn add(&mut self, prio: Prio) -> Tid
        requires sound { IsSoundInside self.old }
        requires room { length (kernel_of self.old).seats ≤ (kernel_of self.old).limits.threads }
        ensures number { result ≡ length (kernel_of self.old).seats }
        ensures after { kernel_of self.new ≡ kernel_after_add prio (kernel_of self.old) }
        ensures sound { IsSoundInside self.new }
    {
        let t = Tid::new(self.statuses.len() as u32).unwrap();
        push_within(&mut self.statuses, Status::Ready(Woken::Fresh));
        self.chains.admit(t, prio);
        self.chains.add(t, prio);
        t
    }

    /// Gives a thread another base priority, and it and its chain their effective priorities.
    pub fn set_base(&mut self, t: Tid, prio: Prio)
        requires sound { IsSoundInside self.old }
        requires living { is_living (kernel_of self.old) t ≡ true }
        ensures after { kernel_of self.new ≡ kernel_after_set_prio t prio (Ok (record {})) (kernel_of self.old) }
        ensures sound { IsSoundInside self.new }
    {
        self.chains.set_base(t, prio);
        self.chains.walk(t);
    }

    /// Stops a ready thread for good.
    pub fn stop(&mut self, t: Tid)
        requires sound { IsSoundInside self.old }
        requires added { has_seat (kernel_of self.old) t ≡ true }
        requires ready { is_ready (seat_at (kernel_of self.old) t).status ≡ true }
        ensures after { kernel_of self.new ≡ kernel_after_stop t (kernel_of self.old) }
        ensures sound { IsSoundInside self.new }
    {
        self.statuses[t.get() as usize] = Status::Stopped;
        self.chains.take_out(t);
    }
}
