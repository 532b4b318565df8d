ghost use Rattle.std.specs.Prelude.{◌≡◌, true};
ghost use Rattle.pif_model.specs.declared.lines.GiveStep;
ghost use Rattle.pif_model.specs.PiKernel.{is_ready};
ghost use Rattle.pif_model.specs.RobustList.{is_listed};
ghost use Rattle.pif_model.specs.Table.{has_thread, has_mutex, status_at};
ghost use Rattle.pif_model.specs.Lines.{given_up, give_health, give_exchange, give_line, gives_up};
ghost use Rattle.pif_mutex.specs.Outcomes.{outcome_of};

use crate::progress::Progress;
use crate::state::State;
use pif_kernel_calls::PiKernel;
use pif_model::{Footing, GiveStep, Place, PlainRequest, Purpose};
use pif_types::{Errno, Health, MutexId, Tid};

/// The lines by which a mutex that is held once is given up: by an unlock, by a wait, and by who leaves a mutex that it
/// took and found unusable. `purpose` says which, and so what comes after.
impl<K: PiKernel + Drop> State<K> {
    /// The mutex was given up: a robust one that was unlocked or left clears its pending field, a stalled one that was
    /// unlocked is answered, and a wait parks.
    #[inline(always)]
    fn given_up(&mut self, request: PlainRequest, purpose: Purpose, t: Tid, m: MutexId) -> Progress
        requires known { has_thread self.old t ≡ true }
        requires mutex { has_mutex self.old m ≡ true }
        ensures { outcome_of result self.new ≡ given_up request purpose t m self.old }
    {
        match purpose {
            Purpose::ToUnlock => self.end_by(request, m, Place::Clear(Footing::Unowned, 0), 0, t),
            Purpose::ToPark(uses) => self.go_on(request, Place::Park(uses), t),
            Purpose::ToLeave => {
                let answer = Errno::NotRecoverable.number();
                self.go_on(request, Place::Clear(Footing::Unowned, answer), t)
            }
        }
    }

    /// Loads the health word. An inconsistent mutex becomes unusable next.
    #[inline(always)]
    #[tactic(auto, unfolding(pif_model::specs::Lines::give_health))]
    pub(crate) fn give_health(
        &mut self,
        request: PlainRequest,
        purpose: Purpose,
        t: Tid,
        m: MutexId,
    ) -> Progress
        requires known { has_thread self.old t ≡ true }
        requires mutex { has_mutex self.old m ≡ true }
        ensures { outcome_of result self.new ≡ give_health request purpose t m self.old }
    {
        if self.health(m) == Health::Inconsistent {
            self.go_on(request, Place::Give(GiveStep::StoreUnusable, purpose), t)
        } else {
            self.go_on(request, Place::Give(GiveStep::Unlink, purpose), t)
        }
    }

    /// Stores in the health word that the mutex is unusable.
    #[cold]
    #[inline(never)]
    #[tactic(auto, unfolding(pif_model::specs::Lines::give_line))]
    pub(crate) fn give_store(
        &mut self,
        request: PlainRequest,
        purpose: Purpose,
        t: Tid,
        m: MutexId,
    ) -> Progress
        requires known { has_thread self.old t ≡ true }
        requires mutex { has_mutex self.old m ≡ true }
        ensures { outcome_of result self.new ≡ give_line request GiveStep.StoreUnusable purpose t m self.old }
    {
        self.set_health(m, Health::Unusable);
        self.go_on(request, Place::Give(GiveStep::Unlink, purpose), t)
    }

    /// Takes the mutex off the list of the thread, on which it is.
    #[inline(always)]
    #[tactic(auto, unfolding(pif_model::specs::Lines::give_line))]
    pub(crate) fn give_unlink(
        &mut self,
        request: PlainRequest,
        purpose: Purpose,
        t: Tid,
        m: MutexId,
    ) -> Progress
        requires known { has_thread self.old t ≡ true }
        requires listed { is_listed self.old.lists t m ≡ true }
        ensures { outcome_of result self.new ≡ give_line request GiveStep.Unlink purpose t m self.old }
    {
        self.unlist(t, m);
        self.go_on(request, Place::Give(GiveStep::Release, purpose), t)
    }

    /// Compare-exchange of the word from the number of the thread to 0.
    #[inline(always)]
    pub(crate) fn give_exchange(
        &mut self,
        request: PlainRequest,
        purpose: Purpose,
        t: Tid,
        m: MutexId,
    ) -> Progress
        requires known { has_thread self.old t ≡ true }
        requires mutex { has_mutex self.old m ≡ true }
        ensures { outcome_of result self.new ≡ give_exchange request purpose t m self.old }
    {
        let number = self.number_of(t);
        if self.exchange(m, number, 0) {
            self.given_up(request, purpose, t, m)
        } else {
            self.go_on(request, Place::Give(GiveStep::CallUnlock, purpose), t)
        }
    }

    /// The kernel call unlock_pi.
    #[cold]
    #[inline(never)]
    #[tactic(auto, unfolding(pif_model::specs::Lines::gives_up, pif_model::specs::Lines::given_up_by), using(pif_model_simulation::proofs::events::KernelLeaves::unlock_keeps_threads))]
    pub(crate) fn give_kernel(
        &mut self,
        request: PlainRequest,
        purpose: Purpose,
        t: Tid,
        m: MutexId,
    ) -> Progress
        requires known { has_thread self.old t ≡ true }
        requires mutex { has_mutex self.old m ≡ true }
        requires ready { is_ready (status_at self.old t) ≡ true }
        ensures { outcome_of result self.new ≡ gives_up t m (given_up request purpose t m) self.old }
    {
        match self.unlock_pi(t, m) {
            Ok(()) => self.given_up(request, purpose, t, m),
            Err(error) => self.answer(t, error.number()),
        }
    }
}
