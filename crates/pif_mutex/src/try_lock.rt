ghost use Rattle.std.specs.Prelude.{◌≡◌, true};
ghost use Rattle.pif_types.specs.declared.requests.Request.TheVariants as Request;
ghost use Rattle.pif_model.specs.PiKernel.{is_ready};
ghost use Rattle.pif_model.specs.Table.{has_thread, has_mutex, status_at};
ghost use Rattle.pif_model.specs.Lines.{try_load, try_kernel};
ghost use Rattle.pif_mutex.specs.Outcomes.{outcome_of};

use crate::kinds::relock_of;
use crate::progress::Progress;
use crate::state::State;
use pif_kernel_calls::PiKernel;
use pif_model::{Footing, Place, PlainRequest, Relock, TakeStep};
use pif_types::{Errno, MutexId, Tid};
use pif_word::number;

/// The lines of a trylock, but for its exchange.
impl<K: PiKernel + Drop> State<K> {
    /// Loads the word. The owner holds the mutex once more, if a lock by it counts, and else is answered EBUSY.
    #[tactic(auto, unfolding(pif_model::specs::Lines::try_load))]
    pub(crate) fn try_load(&mut self, request: PlainRequest, t: Tid, m: MutexId) -> Progress
        requires is { request ≡ Request.TryLock m }
        requires known { has_thread self.old t ≡ true }
        requires mutex { has_mutex self.old m ≡ true }
        ensures { outcome_of result self.new ≡ try_load t m self.old }
    {
        if number(self.word(m)) != t.get() {
            return self.go_by(request, m, Place::NamePending, Place::Exchange, t);
        }
        match relock_of(self.kind(m)) {
            Relock::Counts => self.lock_again(t, m),
            Relock::Deadlocks | Relock::Answers => self.answer(t, Errno::Busy.number()),
        }
    }

    /// The kernel call trylock_pi. A stalled mutex that it took is answered, and a robust one is taken over next. Its
    /// EAGAIN, that the mutex is held, is answered as EBUSY.
    #[cold]
    #[inline(never)]
    #[tactic(auto, unfolding(pif_model::specs::Lines::try_kernel, pif_model::specs::Lines::try_by))]
    pub(crate) fn try_kernel(&mut self, request: PlainRequest, t: Tid, m: MutexId) -> Progress
        requires is { request ≡ Request.TryLock m }
        requires known { has_thread self.old t ≡ true }
        requires mutex { has_mutex self.old m ≡ true }
        requires ready { is_ready (status_at self.old t) ≡ true }
        ensures { outcome_of result self.new ≡ try_kernel t m self.old }
    {
        match self.trylock_pi(t, m) {
            Ok(()) => self.end_by(request, m, Place::Take(TakeStep::LoadWord), 0, t),
            Err(Errno::Again) => {
                let answer = Errno::Busy.number();
                self.end_by(
                    request,
                    m,
                    Place::Clear(Footing::Unowned, answer),
                    answer,
                    t,
                )
            }
            Err(error) => self.answer(t, error.number()),
        }
    }
}
