ghost use Rattle.std.specs.Prelude.{◌≡◌, true};
ghost use Rattle.pif_types.specs.declared.requests.Request.TheVariants as Request;
ghost use Rattle.pif_model.specs.Table.{has_thread, has_mutex};
ghost use Rattle.pif_model.specs.Lines.{unlock_load};
ghost use Rattle.pif_mutex.specs.Outcomes.{outcome_of};

use crate::progress::Progress;
use crate::state::State;
use pif_kernel_calls::PiKernel;
use pif_model::{GiveStep, Place, PlainRequest, Purpose};
use pif_types::{Errno, MutexId, Tid};
use pif_word::number;

/// The line of an unlock that is its own: the load.
impl<K: PiKernel + Drop> State<K> {
    /// Loads the word. Who is not the owner is answered EPERM, and an owner who holds it more than once holds it once
    /// less.
    #[inline(always)]
    #[tactic(auto, unfolding(pif_model::specs::Lines::unlock_load))]
    pub(crate) fn unlock_load(&mut self, request: PlainRequest, t: Tid, m: MutexId) -> Progress
        requires is { request ≡ Request.Unlock m }
        requires known { has_thread self.old t ≡ true }
        requires mutex { has_mutex self.old m ≡ true }
        ensures { outcome_of result self.new ≡ unlock_load t m self.old }
    {
        if number(self.word(m)) != t.get() {
            return self.answer(t, Errno::NotPermitted.number());
        }
        let count = self.count(m);
        if count > 1 {
            self.set_count(m, count - 1);
            self.answer(t, 0)
        } else {
            self.go_by(
                request,
                m,
                Place::Give(GiveStep::SetPending, Purpose::ToUnlock),
                Place::Give(GiveStep::Release, Purpose::ToUnlock),
                t,
            )
        }
    }
}
