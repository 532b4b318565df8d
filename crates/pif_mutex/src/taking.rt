ghost use Rattle.std.specs.Prelude.{◌≡◌, true};
ghost use Rattle.pif_model.specs.Table.{has_thread, has_mutex};
ghost use Rattle.pif_model.specs.Lines.{relocks, own_exchange, take_load, take_health, take_line};
ghost use Rattle.pif_model.specs.declared.lines.TakeStep;
ghost use Rattle.pif_mutex.specs.Outcomes.{outcome_of};

use crate::progress::Progress;
use crate::state::State;
use pif_kernel_calls::PiKernel;
use pif_model::{GiveStep, LinkStep, Place, PlainRequest, Purpose, TakeStep};
use pif_types::{Errno, Health, MutexId, Tid};
use pif_word::owner_died;

/// The most often that an owner holds a recursive mutex.
const MOST: u32 = 255;

/// What lock, trylock and wait have in common: the exchange, and taking over a robust mutex up to its links.
impl<K: PiKernel + Drop> State<K> {
    /// The owner of a recursive mutex holds it once more, or is answered EAGAIN if it holds it as often as it may.
    #[tactic(auto, unfolding(pif_model::specs::Lines::relocks))]
    pub(crate) fn lock_again(&mut self, t: Tid, m: MutexId) -> Progress
        requires known { has_thread self.old t ≡ true }
        requires mutex { has_mutex self.old m ≡ true }
        ensures { outcome_of result self.new ≡ relocks t m self.old }
    {
        let count = self.count(m);
        if count < MOST {
            self.set_count(m, count + 1);
            self.answer(t, 0)
        } else {
            self.answer(t, Errno::Again.number())
        }
    }

    /// Compare-exchange of the word from 0 to the number of the thread. Done, a stalled mutex is answered, and of a
    /// robust one the health word is next. If it fails, the request goes on with its kernel call.
    #[inline(always)]
    pub fn own_exchange(&mut self, request: PlainRequest, t: Tid, m: MutexId) -> Progress
        requires known { has_thread self.old t ≡ true }
        requires mutex { has_mutex self.old m ≡ true }
        ensures { outcome_of result self.new ≡ own_exchange request t m self.old }
    {
        let number = self.number_of(t);
        if self.exchange(m, 0, number) {
            self.end_by(request, m, Place::Take(TakeStep::LoadHealth(false)), 0, t)
        } else {
            self.go_on(request, Place::CallKernel, t)
        }
    }

    /// Loads the word, and sees whether its last owner has ended.
    #[cold]
    #[inline(never)]
    #[tactic(auto, unfolding(pif_model::specs::Lines::take_load))]
    pub(crate) fn take_load(&mut self, request: PlainRequest, t: Tid, m: MutexId) -> Progress
        requires known { has_thread self.old t ≡ true }
        requires mutex { has_mutex self.old m ≡ true }
        ensures { outcome_of result self.new ≡ take_load request t m self.old }
    {
        let died = owner_died(self.word(m));
        self.go_on(request, Place::Take(TakeStep::LoadHealth(died)), t)
    }

    /// Loads the health word. An unusable mutex is left again, and one whose last owner has ended, which is `died`, is
    /// inconsistent.
    #[inline(always)]
    #[tactic(auto, unfolding(pif_model::specs::Lines::take_health))]
    pub(crate) fn take_health(
        &mut self,
        request: PlainRequest,
        died: bool,
        t: Tid,
        m: MutexId,
    ) -> Progress
        requires known { has_thread self.old t ≡ true }
        requires mutex { has_mutex self.old m ≡ true }
        ensures { outcome_of result self.new ≡ take_health request died t m self.old }
    {
        if self.health(m) == Health::Unusable {
            self.go_on(request, Place::Give(GiveStep::Release, Purpose::ToLeave), t)
        } else if died {
            self.go_on(request, Place::Take(TakeStep::StoreInconsistent), t)
        } else {
            self.go_on(request, Place::Link(LinkStep::WriteNext, 0), t)
        }
    }

    /// Stores in the health word that the mutex is inconsistent.
    #[cold]
    #[inline(never)]
    #[tactic(auto, unfolding(pif_model::specs::Lines::take_line))]
    pub(crate) fn take_store(&mut self, request: PlainRequest, t: Tid, m: MutexId) -> Progress
        requires known { has_thread self.old t ≡ true }
        requires mutex { has_mutex self.old m ≡ true }
        ensures { outcome_of result self.new ≡ take_line request TakeStep.StoreInconsistent t m self.old }
    {
        self.set_health(m, Health::Inconsistent);
        self.go_on(request, Place::Take(TakeStep::ClearDied), t)
    }

    /// Takes OWNER_DIED out of the word. The call will answer EOWNERDEAD.
    #[cold]
    #[inline(never)]
    #[tactic(auto, unfolding(pif_model::specs::Lines::take_line))]
    pub(crate) fn take_word(&mut self, request: PlainRequest, t: Tid, m: MutexId) -> Progress
        requires known { has_thread self.old t ≡ true }
        requires mutex { has_mutex self.old m ≡ true }
        ensures { outcome_of result self.new ≡ take_line request TakeStep.ClearDied t m self.old }
    {
        self.settle_word(m);
        self.go_on(
            request,
            Place::Link(LinkStep::WriteNext, Errno::OwnerDead.number()),
            t,
        )
    }
}
