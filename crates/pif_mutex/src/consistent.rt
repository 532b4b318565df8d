ghost use Rattle.std.specs.Prelude.{◌≡◌, true};
ghost use Rattle.pif_types.specs.declared.requests.Request.TheVariants as Request;
ghost use Rattle.pif_model.specs.Lines.{answers, consistent_load, consistent_health};
ghost use Rattle.pif_model.specs.Table.{has_thread, has_mutex, with_health_word};
ghost use Rattle.pif_mutex.specs.Outcomes.{outcome_of};

use crate::progress::Progress;
use crate::state::State;
use pif_kernel_calls::PiKernel;
use pif_model::{Place, PlainRequest, RepairStep};
use pif_types::{Errno, Health, MutexId, Tid};
use pif_word::number;

/// The lines of a consistent.
impl<K: PiKernel + Drop> State<K> {
    /// A stalled mutex is answered EINVAL with no access. Else loads the word, and who is not the owner is answered
    /// EPERM.
    #[tactic(auto, unfolding(pif_model::specs::Lines::consistent_load))]
    pub(crate) fn consistent_load(&mut self, request: PlainRequest, t: Tid, m: MutexId) -> Progress
        requires is { request ≡ Request.Consistent m }
        requires known { has_thread self.old t ≡ true }
        requires mutex { has_mutex self.old m ≡ true }
        ensures { outcome_of result self.new ≡ consistent_load t m self.old }
    {
        if !self.is_robust(m) {
            self.answer(t, Errno::Invalid.number())
        } else if number(self.word(m)) == t.get() {
            self.go_on(request, Place::Repair(RepairStep::CheckHealth), t)
        } else {
            self.answer(t, Errno::NotPermitted.number())
        }
    }

    /// Loads the health word. A mutex that is not inconsistent is answered EINVAL.
    #[tactic(auto, unfolding(pif_model::specs::Lines::consistent_health))]
    pub(crate) fn consistent_health(
        &mut self,
        request: PlainRequest,
        t: Tid,
        m: MutexId,
    ) -> Progress
        requires is { request ≡ Request.Consistent m }
        requires known { has_thread self.old t ≡ true }
        requires mutex { has_mutex self.old m ≡ true }
        ensures { outcome_of result self.new ≡ consistent_health t m self.old }
    {
        if self.health(m) == Health::Inconsistent {
            self.go_on(request, Place::Repair(RepairStep::StoreFine), t)
        } else {
            self.answer(t, Errno::Invalid.number())
        }
    }

    /// Stores in the health word that the mutex is fine.
    pub(crate) fn consistent_store(&mut self, t: Tid, m: MutexId) -> Progress
        requires known { has_thread self.old t ≡ true }
        requires mutex { has_mutex self.old m ≡ true }
        ensures { outcome_of result self.new ≡ answers t 0 (with_health_word m 0 self.old) }
    {
        self.set_health(m, Health::Fine);
        self.answer(t, 0)
    }
}
