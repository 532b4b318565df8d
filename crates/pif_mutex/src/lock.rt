ghost use Rattle.std.specs.Prelude.{◌≡◌, true, false};
ghost use Rattle.pif_types.specs.declared.requests.Request.TheVariants as Request;
ghost use Rattle.pif_model.specs.PiKernel.{is_living, is_ready};
ghost use Rattle.pif_model.specs.Table.{has_thread, has_mutex, status_at};
ghost use Rattle.pif_model.specs.Lines.{lock_load, lock_kernel, lock_queued, lock_stop, ends_by, expired_in, go_outcome};
ghost use Rattle.pif_model.specs.NamedNumbers.{ETIMEDOUT};
ghost use Rattle.pif_mutex.specs.Outcomes.{outcome_of};

use crate::kinds::relock_of;
use crate::progress::Progress;
use crate::state::State;
use pif_kernel_calls::PiKernel;
use pif_model::{Footing, Line, Place, PlainRequest, Relock, Status, TakeStep, Took};
use pif_types::{Errno, MutexId, Tid};
use pif_word::number;

/// The lines of a request that locks a mutex, but for its exchange.
impl<K: PiKernel + Drop> State<K> {
    /// Loads the word. By the mutex's kind its owner goes on to stop, is answered EDEADLK, or holds it once more.
    #[inline(always)]
    #[tactic(auto, unfolding(pif_model::specs::Lines::lock_load))]
    pub(crate) fn lock_load(&mut self, request: PlainRequest, t: Tid, m: MutexId) -> Progress
        requires known { has_thread self.old t ≡ true }
        requires mutex { has_mutex self.old m ≡ true }
        ensures { outcome_of result self.new ≡ lock_load request t m self.old }
    {
        if number(self.word(m)) != t.get() {
            return self.go_by(request, m, Place::NamePending, Place::Exchange, t);
        }
        match relock_of(self.kind(m)) {
            Relock::Deadlocks => self.go_on(request, Place::Stop, t),
            Relock::Answers => self.answer(t, Errno::Deadlock.number()),
            Relock::Counts => self.lock_again(t, m),
        }
    }

    /// The kernel call lock_pi. A stalled mutex that it took is answered, and a robust one is taken over next. If the
    /// owner has ended, the thread goes on to stop.
    #[cold]
    #[inline(never)]
    #[tactic(auto, unfolding(pif_model::specs::Lines::lock_kernel, pif_model::specs::Lines::lock_by), using(pif_model_simulation::proofs::events::KernelLeaves::lock_keeps_threads))]
    pub(crate) fn lock_kernel(&mut self, request: PlainRequest, t: Tid, m: MutexId) -> Progress
        requires known { has_thread self.old t ≡ true }
        requires mutex { has_mutex self.old m ≡ true }
        requires ready { is_ready (status_at self.old t) ≡ true }
        ensures { outcome_of result self.new ≡ lock_kernel request t m self.old }
    {
        match self.lock_pi(t, m) {
            Ok(Took::Owns) => self.end_by(request, m, Place::Take(TakeStep::LoadWord), 0, t),
            Ok(Took::Queued) => self.wait(request, Place::StayQueued, t),
            Err(Errno::Deadlock) => {
                let answer = Errno::Deadlock.number();
                self.end_by(
                    request,
                    m,
                    Place::Clear(Footing::Unowned, answer),
                    answer,
                    t,
                )
            }
            Err(Errno::NoSuchThread) => self.go_on(request, Place::Stop, t),
            Err(error) => self.answer(t, error.number()),
        }
    }

    /// Queued or parked, and waits; or made the owner: a stalled mutex is answered with no access of the word, and a
    /// robust one is taken over from the load on.
    #[inline(never)]
    #[tactic(auto, unfolding(pif_model::specs::Lines::lock_queued))]
    pub fn lock_queued(&mut self, request: PlainRequest, t: Tid, m: MutexId) -> Progress
        requires known { has_thread self.old t ≡ true }
        requires mutex { has_mutex self.old m ≡ true }
        ensures { outcome_of result self.new ≡ lock_queued request t m self.old }
    {
        match self.status(t) {
            Status::Ready(_) if self.is_robust(m) => self.take_load(request, t, m),
            Status::Ready(_) => self.answer(t, 0),
            Status::Queued(_) | Status::Parked(_) | Status::Stopped | Status::Ended => {
                Progress::Waits
            }
        }
    }

    /// A lock that is queued, or was handed the mutex: if it is due it expires, else it goes on as it was queued.
    #[inline(never)]
    #[tactic(auto, using(crate::proofs::Locking::due_lock_goes))]
    pub(crate) fn lock_stay_queued(&mut self, request: PlainRequest, t: Tid, m: MutexId) -> Progress
        requires is { request ≡ Request.Lock m }
        requires known { has_thread self.old t ≡ true }
        requires mutex { has_mutex self.old m ≡ true }
        requires living { is_living self.old.kernel t ≡ true }
        ensures { outcome_of result self.new ≡ go_outcome (Line.At (Request.Lock m) Place.StayQueued) t self.old }
    {
        if self.is_due_at(&request, &Place::StayQueued, t) {
            self.lock_expire(request, Footing::Unowned, t, m)
        } else {
            self.lock_queued(request, t, m)
        }
    }

    /// A lock that has stopped for good: if it is due it expires, else it waits.
    #[inline(never)]
    #[tactic(auto, using(crate::proofs::Locking::due_lock_goes))]
    pub(crate) fn lock_stay_stopped(
        &mut self,
        request: PlainRequest,
        t: Tid,
        m: MutexId,
    ) -> Progress
        requires is { request ≡ Request.Lock m }
        requires known { has_thread self.old t ≡ true }
        requires mutex { has_mutex self.old m ≡ true }
        requires living { is_living self.old.kernel t ≡ true }
        requires unready { is_ready (status_at self.old t) ≡ false }
        ensures { outcome_of result self.new ≡ go_outcome (Line.At (Request.Lock m) Place.StayStopped) t self.old }
    {
        if self.is_due_at(&request, &Place::StayStopped, t) {
            self.lock_expire(request, Footing::HadStopped, t, m)
        } else {
            Progress::Waits
        }
    }

    /// The deadline of a lock that is queued or stopped is reached: the kernel call expire. A stalled mutex is answered
    /// ETIMEDOUT, and of a robust one the pending field is cleared next, on this footing.
    #[cold]
    #[inline(never)]
    #[tactic(auto, unfolding(pif_model::specs::Lines::expired_in), using(pif_model_simulation::proofs::events::KernelLeaves::expire_keeps_threads))]
    fn lock_expire(
        &mut self,
        request: PlainRequest,
        footing: Footing,
        t: Tid,
        m: MutexId,
    ) -> Progress
        requires known { has_thread self.old t ≡ true }
        requires mutex { has_mutex self.old m ≡ true }
        requires living { is_living self.old.kernel t ≡ true }
        requires unready { is_ready (status_at self.old t) ≡ false }
        ensures { outcome_of result self.new
            ≡ ends_by t request m (Place.Clear footing ETIMEDOUT) ETIMEDOUT (expired_in t self.old) }
    {
        let answer = Errno::TimedOut.number();
        self.expire(t);
        self.end_by(request, m, Place::Clear(footing, answer), answer, t)
    }

    /// Stops for good.
    #[cold]
    #[inline(never)]
    #[tactic(auto, unfolding(pif_model::specs::Lines::lock_stop), using(pif_model_simulation::proofs::events::KernelLeaves::stop_keeps_threads))]
    pub(crate) fn lock_stop(&mut self, request: PlainRequest, t: Tid) -> Progress
        requires known { has_thread self.old t ≡ true }
        requires ready { is_ready (status_at self.old t) ≡ true }
        ensures { outcome_of result self.new ≡ lock_stop request t self.old }
    {
        self.stop(t);
        self.wait(request, Place::StayStopped, t)
    }
}
