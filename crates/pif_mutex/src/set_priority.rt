ghost use Rattle.std.specs.Prelude.{◌≡◌, true};
ghost use Rattle.pif_model.specs.Table.{has_thread};
ghost use Rattle.pif_model.specs.Lines.{set_priority};
ghost use Rattle.pif_mutex.specs.Outcomes.{outcome_of};

use crate::progress::Progress;
use crate::state::State;
use pif_kernel_calls::PiKernel;
use pif_types::Tid;

/// The line of a change of priority.
impl<K: PiKernel + Drop> State<K> {
    /// The kernel call set_prio, for the thread `other`.
    #[tactic(auto, unfolding(pif_model::specs::Lines::set_priority), using(pif_model_simulation::proofs::events::KernelLeaves::set_prio_keeps_threads))]
    pub(crate) fn set_priority(&mut self, t: Tid, other: Tid, prio: u32) -> Progress
        requires { has_thread self.old t ≡ true }
        ensures { outcome_of result self.new ≡ set_priority t other prio self.old }
    {
        let called = self.set_prio(other, prio);
        self.answer_by(t, called)
    }
}
