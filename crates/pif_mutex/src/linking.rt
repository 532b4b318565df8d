ghost use Rattle.std.specs.Prelude.{◌≡◌, true};
ghost use Rattle.pif_model.specs.declared.lines.LinkStep;
ghost use Rattle.pif_model.specs.Lines.{link_line};
ghost use Rattle.pif_model.specs.RobustList.{robust_at, IsUnlisted, IsHalfLinkedByNoOther};
ghost use Rattle.pif_model.specs.Table.{has_thread, has_mutex};
ghost use Rattle.pif_mutex.specs.Outcomes.{outcome_of};

use crate::progress::Progress;
use crate::state::State;
use pif_kernel_calls::PiKernel;
use pif_model::{Footing, LinkStep, Place, PlainRequest};
use pif_types::{Answer, MutexId, Tid};

/// The two writes by which a robust mutex that is taken over becomes the head of the list of its thread. The call will
/// answer `answer`.
impl<K: PiKernel + Drop> State<K> {
    /// Writes the link of the mutex to the head of the list.
    #[inline(always)]
    #[tactic(auto, unfolding(pif_model::specs::Lines::link_line))]
    pub(crate) fn link_next(
        &mut self,
        request: PlainRequest,
        answer: Answer,
        t: Tid,
        m: MutexId,
    ) -> Progress
        requires known { has_thread self.old t ≡ true }
        requires mutex { has_mutex self.old m ≡ true }
        requires unlisted { IsUnlisted self.old.lists m }
        requires half { IsHalfLinkedByNoOther self.old.lists t m }
        ensures { outcome_of result self.new ≡ link_line request LinkStep.WriteNext answer t m self.old }
    {
        self.half_link(t, m);
        self.go_on(request, Place::Link(LinkStep::WriteHead, answer), t)
    }

    /// Makes the mutex, which the thread has half-linked, the head of the list.
    #[inline(always)]
    #[tactic(auto, unfolding(pif_model::specs::Lines::link_line))]
    pub(crate) fn link_head(
        &mut self,
        request: PlainRequest,
        answer: Answer,
        t: Tid,
        m: MutexId,
    ) -> Progress
        requires known { has_thread self.old t ≡ true }
        requires linked { (robust_at self.old.lists t).half_linked ≡ m }
        ensures { outcome_of result self.new ≡ link_line request LinkStep.WriteHead answer t m self.old }
    {
        self.enlist(t, m);
        self.go_on(request, Place::Clear(Footing::Linked, answer), t)
    }
}
