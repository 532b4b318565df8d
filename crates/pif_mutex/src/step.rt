ghost use Rattle.std.specs.Prelude.{ℕ, ◌≡◌, true, false};
ghost use Rattle.pif_types.specs.declared.requests.Request.TheVariants as Request;
ghost use Rattle.pif_model.specs.PiKernel.{is_living, is_ready};
ghost use Rattle.pif_model.specs.RobustList.{robust_at, is_listed, IsUnlisted, IsHalfLinkedByNoOther};
ghost use Rattle.pif_model.specs.Soundness.{is_half_linked};
ghost use Rattle.pif_model.specs.Table.{has_thread, has_mutex, status_at};
ghost use Rattle.pif_model.specs.Lines.{line_of, locking_line, shared_line, giving_line, take_line, give_line, go_outcome};
ghost use Rattle.pif_mutex.specs.Outcomes.{outcome_of};
ghost use Rattle.pif_model_simulation.specs.Steppable.{CallMayStep, may_wait_at, is_link_next, is_unlink_step, is_unlink};
ghost use Rattle.pif_mutex.specs.Mutexes.{is_of_mutexes, is_on_mutex};

use crate::deadlines::reported;
use crate::progress::Progress;
use crate::state::State;
use pif_kernel_calls::PiKernel;
use pif_model::{
    GiveStep, Line, LinkStep, Place, Plain, PlainRequest, Purpose, RepairStep, TakeStep,
};
use pif_types::{Errno, MutexId, Tid};

/// Which line a step is, by request and place. The lines of a mutex that nobody waits for are inlined here. Each other
/// line is a function of its own, so that its locals cost the common ones nothing.
impl<K: PiKernel + Drop> State<K> {
    /// One step of the open call of `t`, which is this request at this place: one on mutexes. A call that is due
    /// expires, and does nothing else.
    #[inline(always)]
    #[tactic(auto, using(crate::proofs::Locking::unlock_goes, crate::proofs::Locking::try_lock_goes, crate::proofs::Locking::consistent_goes, crate::proofs::Locking::set_prio_goes))]
    pub fn go(&mut self, request: PlainRequest, place: Place, t: Tid) -> Progress
        requires living { is_living self.old.kernel t ≡ true }
        requires call { CallMayStep self.old t request place }
        requires mutexes { is_of_mutexes (Line.At request place) ≡ true }
        ensures { outcome_of result self.new ≡ go_outcome (Line.At request place) t self.old }
    {
        match request.get() {
            Plain::Lock(m) => self.lock_step(request, place, t, m),
            Plain::TryLock(m) => self.try_lock_step(request, place, t, m),
            Plain::Unlock(m) => self.unlock_step(request, place, t, m),
            Plain::Consistent(m) => self.consistent_step(request, place, t, m),
            Plain::Wait(_, m) => self.wait_step(request, place, t, m),
            Plain::Signal(_) | Plain::Broadcast(_) => unreachable!(),
            Plain::SetPrio(other, prio) => self.set_prio_step(place, t, other, prio),
        }
    }

    /// One step of a lock, or its expiry, if it is due. It is due only if it waits.
    #[inline(always)]
    #[tactic(auto, unfolding(pif_model::specs::Lines::line_of), using(crate::proofs::Locking::lock_goes))]
    fn lock_step(&mut self, request: PlainRequest, place: Place, t: Tid, m: MutexId) -> Progress
        requires is { request ≡ Request.Lock m }
        requires living { is_living self.old.kernel t ≡ true }
        requires call { CallMayStep self.old t (Request.Lock m) place }
        ensures { outcome_of result self.new ≡ go_outcome (Line.At (Request.Lock m) place) t self.old }
    {
        match place {
            Place::Load => self.lock_load(request, t, m),
            Place::NamePending => self.name_pending(request, Place::Exchange, t, m),
            Place::StayQueued => self.lock_stay_queued(request, t, m),
            Place::StayStopped => self.lock_stay_stopped(request, t, m),
            _ => self.locking_step(request, place, t, m),
        }
    }

    /// One step of a wait on its mutex. Once it has expired it is answered ETIMEDOUT in place of 0.
    #[inline(never)]
    fn wait_step(&mut self, request: PlainRequest, place: Place, t: Tid, m: MutexId) -> Progress
        requires is { (c : ℕ) × (request ≡ Request.Wait c m) }
        requires known { has_thread self.old t ≡ true }
        requires call { CallMayStep self.old t request place }
        requires mutexes { is_on_mutex place ≡ true }
        ensures { outcome_of result self.new ≡ go_outcome (Line.At request place) t self.old }
    {
        let expired = self.timer(t).expired;
        let progress = self.locking_step(request, place, t, m);
        reported(&request, expired, progress)
    }

    /// One step of a request that may queue for `m`: of a lock from the exchange on, or of a wait.
    #[inline(always)]
    #[tactic(auto, unfolding(pif_model::specs::Lines::locking_line))]
    fn locking_step(&mut self, request: PlainRequest, place: Place, t: Tid, m: MutexId) -> Progress
        requires known { has_thread self.old t ≡ true }
        requires mutex { has_mutex self.old m ≡ true }
        requires ready { may_wait_at place ≡ false → is_ready (status_at self.old t) ≡ true }
        requires unlisted { is_link_next place ≡ true → IsUnlisted self.old.lists m }
        requires half { is_link_next place ≡ true → IsHalfLinkedByNoOther self.old.lists t m }
        requires linked { is_half_linked place ≡ true → (robust_at self.old.lists t).half_linked ≡ m }
        requires listed { is_unlink place ≡ true → is_listed self.old.lists t m ≡ true }
        ensures { outcome_of result self.new ≡ locking_line request place t m self.old }
    {
        match place {
            Place::CallKernel => self.lock_kernel(request, t, m),
            Place::StayQueued => self.lock_queued(request, t, m),
            Place::Stop => self.lock_stop(request, t),
            Place::StayStopped => Progress::Waits,
            _ => self.shared_step(request, place, t, m),
        }
    }

    /// One step of a trylock.
    #[inline(never)]
    #[tactic(auto, unfolding(pif_model::specs::Lines::line_of))]
    fn try_lock_step(&mut self, request: PlainRequest, place: Place, t: Tid, m: MutexId) -> Progress
        requires is { request ≡ Request.TryLock m }
        requires known { has_thread self.old t ≡ true }
        requires call { CallMayStep self.old t (Request.TryLock m) place }
        ensures { outcome_of result self.new ≡ line_of (Request.TryLock m) place t self.old }
    {
        match place {
            Place::Load => self.try_load(request, t, m),
            Place::NamePending => self.name_pending(request, Place::Exchange, t, m),
            Place::CallKernel => self.try_kernel(request, t, m),
            _ => self.shared_step(request, place, t, m),
        }
    }

    /// One step that all requests share which lock `m`: the exchange, taking over and leaving.
    #[inline(always)]
    #[tactic(auto, unfolding(pif_model::specs::Lines::shared_line, pif_model::specs::Lines::giving_line))]
    fn shared_step(&mut self, request: PlainRequest, place: Place, t: Tid, m: MutexId) -> Progress
        requires known { has_thread self.old t ≡ true }
        requires mutex { has_mutex self.old m ≡ true }
        requires ready { may_wait_at place ≡ false → is_ready (status_at self.old t) ≡ true }
        requires unlisted { is_link_next place ≡ true → IsUnlisted self.old.lists m }
        requires half { is_link_next place ≡ true → IsHalfLinkedByNoOther self.old.lists t m }
        requires linked { is_half_linked place ≡ true → (robust_at self.old.lists t).half_linked ≡ m }
        requires listed { is_unlink place ≡ true → is_listed self.old.lists t m ≡ true }
        ensures { outcome_of result self.new ≡ shared_line request place t m self.old }
    {
        match place {
            Place::Exchange => self.own_exchange(request, t, m),
            Place::Take(step) => self.take_step(request, step, t, m),
            Place::Link(LinkStep::WriteNext, answer) => self.link_next(request, answer, t, m),
            Place::Link(LinkStep::WriteHead, answer) => self.link_head(request, answer, t, m),
            Place::Clear(_, answer) => self.clear(t, answer),
            _ => self.giving_step_apart(request, place, t, m),
        }
    }

    /// One step of taking `m` over.
    #[inline(always)]
    #[tactic(auto, unfolding(pif_model::specs::Lines::take_line))]
    fn take_step(&mut self, request: PlainRequest, step: TakeStep, t: Tid, m: MutexId) -> Progress
        requires known { has_thread self.old t ≡ true }
        requires mutex { has_mutex self.old m ≡ true }
        ensures { outcome_of result self.new ≡ take_line request step t m self.old }
    {
        match step {
            TakeStep::LoadWord => self.take_load(request, t, m),
            TakeStep::LoadHealth(died) => self.take_health(request, died, t, m),
            TakeStep::StoreInconsistent => self.take_store(request, t, m),
            TakeStep::ClearDied => self.take_word(request, t, m),
        }
    }

    /// One step of giving `m` up, or of clearing the pending field.
    #[inline(always)]
    #[tactic(auto, unfolding(pif_model::specs::Lines::giving_line))]
    fn giving_step(&mut self, request: PlainRequest, place: Place, t: Tid, m: MutexId) -> Progress
        requires known { has_thread self.old t ≡ true }
        requires mutex { has_mutex self.old m ≡ true }
        requires ready { may_wait_at place ≡ false → is_ready (status_at self.old t) ≡ true }
        requires listed { is_unlink place ≡ true → is_listed self.old.lists t m ≡ true }
        ensures { outcome_of result self.new ≡ giving_line request place t m self.old }
    {
        match place {
            Place::Give(step, purpose) => self.give_step(request, step, purpose, t, m),
            Place::Clear(_, answer) => self.clear(t, answer),
            _ => self.answer(t, Errno::Invalid.number()),
        }
    }

    /// The same in a function of its own, for calls other than an unlock.
    #[inline(never)]
    fn giving_step_apart(
        &mut self,
        request: PlainRequest,
        place: Place,
        t: Tid,
        m: MutexId,
    ) -> Progress
        requires known { has_thread self.old t ≡ true }
        requires mutex { has_mutex self.old m ≡ true }
        requires ready { may_wait_at place ≡ false → is_ready (status_at self.old t) ≡ true }
        requires listed { is_unlink place ≡ true → is_listed self.old.lists t m ≡ true }
        ensures { outcome_of result self.new ≡ giving_line request place t m self.old }
    {
        self.giving_step(request, place, t, m)
    }

    /// One step of giving `m` up.
    #[inline(always)]
    #[tactic(auto, unfolding(pif_model::specs::Lines::give_line))]
    fn give_step(
        &mut self,
        request: PlainRequest,
        step: GiveStep,
        purpose: Purpose,
        t: Tid,
        m: MutexId,
    ) -> Progress
        requires known { has_thread self.old t ≡ true }
        requires mutex { has_mutex self.old m ≡ true }
        requires ready { is_ready (status_at self.old t) ≡ true }
        requires listed { is_unlink_step step ≡ true → is_listed self.old.lists t m ≡ true }
        ensures { outcome_of result self.new ≡ give_line request step purpose t m self.old }
    {
        match step {
            GiveStep::SetPending => {
                let next = Place::Give(GiveStep::SeeHealth, purpose);
                self.name_pending(request, next, t, m)
            }
            GiveStep::SeeHealth => self.give_health(request, purpose, t, m),
            GiveStep::StoreUnusable => self.give_store(request, purpose, t, m),
            GiveStep::Unlink => self.give_unlink(request, purpose, t, m),
            GiveStep::Release => self.give_exchange(request, purpose, t, m),
            GiveStep::CallUnlock => self.give_kernel(request, purpose, t, m),
        }
    }

    /// One step of an unlock.
    #[inline(always)]
    #[tactic(auto, unfolding(pif_model::specs::Lines::line_of))]
    fn unlock_step(&mut self, request: PlainRequest, place: Place, t: Tid, m: MutexId) -> Progress
        requires is { request ≡ Request.Unlock m }
        requires known { has_thread self.old t ≡ true }
        requires call { CallMayStep self.old t (Request.Unlock m) place }
        ensures { outcome_of result self.new ≡ line_of (Request.Unlock m) place t self.old }
    {
        match place {
            Place::Load => self.unlock_load(request, t, m),
            _ => self.giving_step(request, place, t, m),
        }
    }

    /// One step of a consistent.
    #[cold]
    #[inline(never)]
    #[tactic(auto, unfolding(pif_model::specs::Lines::line_of, pif_model::specs::Lines::repair_line))]
    fn consistent_step(
        &mut self,
        request: PlainRequest,
        place: Place,
        t: Tid,
        m: MutexId,
    ) -> Progress
        requires is { request ≡ Request.Consistent m }
        requires known { has_thread self.old t ≡ true }
        requires call { CallMayStep self.old t (Request.Consistent m) place }
        ensures { outcome_of result self.new ≡ line_of (Request.Consistent m) place t self.old }
    {
        match place {
            Place::Load => self.consistent_load(request, t, m),
            Place::Repair(RepairStep::CheckHealth) => self.consistent_health(request, t, m),
            Place::Repair(RepairStep::StoreFine) => self.consistent_store(t, m),
            _ => self.answer(t, Errno::Invalid.number()),
        }
    }

    /// One step of a change of priority.
    #[cold]
    #[inline(never)]
    #[tactic(auto, unfolding(pif_model::specs::Lines::line_of))]
    fn set_prio_step(&mut self, place: Place, t: Tid, other: Tid, prio: u32) -> Progress
        requires known { has_thread self.old t ≡ true }
        ensures { outcome_of result self.new ≡ line_of (Request.SetPrio other prio) place t self.old }
    {
        match place {
            Place::SetPriority => self.set_priority(t, other, prio),
            _ => self.answer(t, Errno::Invalid.number()),
        }
    }
}
