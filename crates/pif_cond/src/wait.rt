ghost use Rattle.std.specs.Prelude.{ℕ, ◌≡◌, true, false, if◌then◌else◌};
ghost use Rattle.pif_types.specs.declared.requests.Request.TheVariants as Request;
ghost use Rattle.pif_model.specs.Deadlines.{ran_out};
ghost use Rattle.pif_model.specs.Lines.{wait_load, wait_uses, wait_park, own_exchange, lock_queued, goes_to, expired_in, go_outcome};
ghost use Rattle.pif_model.specs.PiKernel.{is_living, is_ready, is_woken_again};
ghost use Rattle.pif_model.specs.Table.{has_thread, has_mutex, has_cond, status_at, timer_at, with_timer};
ghost use Rattle.pif_mutex.specs.Outcomes.{outcome_of};

use pif_kernel_calls::{PiKernel, Status, Woken};
use pif_model::{GiveStep, Line, Place, PlainRequest, Purpose, Timer};
use pif_mutex::{Progress, State, reported};
use pif_types::{CondId, Errno, MutexId, Tid};
use pif_word::number;

/// A mutex to which the variable is not bound is answered EINVAL with no access (POSIX, pthread_cond_wait: at one time
/// the threads that wait on a variable have to use one mutex). Else loads the word: who is not the owner is answered
/// EPERM, and an owner who holds the mutex more than once EINVAL.
#[tactic(auto, unfolding(pif_model::specs::Lines::wait_load))]
pub(crate) fn wait_load<K: PiKernel + Drop>(
    state: &mut State<K>,
    request: PlainRequest,
    c: CondId,
    m: MutexId,
    t: Tid,
) -> Progress
    requires is { request ≡ Request.Wait c m }
    requires known { has_thread state.old t ≡ true }
    requires cond { has_cond state.old c ≡ true }
    requires mutex { has_mutex state.old m ≡ true }
    ensures { outcome_of result state.new ≡ wait_load c m t state.old }
{
    if state.bound(c) != m {
        state.answer(t, Errno::Invalid.number())
    } else if number(state.word(m)) != t.get() {
        state.answer(t, Errno::NotPermitted.number())
    } else if state.count(m) > 1 {
        state.answer(t, Errno::Invalid.number())
    } else {
        state.go_on(request, Place::LoadUses, t)
    }
}

/// Loads the condition word, while the caller still owns the mutex. What it was goes along.
#[tactic(auto, unfolding(pif_model::specs::Lines::wait_uses))]
pub(crate) fn wait_uses<K: PiKernel + Drop>(
    state: &mut State<K>,
    request: PlainRequest,
    c: CondId,
    m: MutexId,
    t: Tid,
) -> Progress
    requires is { request ≡ Request.Wait c m }
    requires known { has_thread state.old t ≡ true }
    requires cond { has_cond state.old c ≡ true }
    requires mutex { has_mutex state.old m ≡ true }
    ensures { outcome_of result state.new ≡ wait_uses c m t state.old }
{
    let uses = state.uses(c);
    state.go_by(
        request,
        m,
        Place::Give(GiveStep::SetPending, Purpose::ToPark(uses)),
        Place::Give(GiveStep::Release, Purpose::ToPark(uses)),
        t,
    )
}

/// The kernel call wait_requeue_pi (FUTEX_WAIT_REQUEUE_PI of futex(2)), which expects the condition word that was read
/// before the mutex was given up. If the variable was used since, the thread is not parked, and locks the mutex again.
/// It is a function of its own, so that its locals cost the other steps nothing.
#[inline(never)]
#[tactic(auto, unfolding(pif_model::specs::Lines::wait_park, pif_model::specs::Lines::wait_by), using(pif_model_simulation::proofs::events::KernelLeaves::wait_requeue_keeps_threads))]
pub(crate) fn wait_park<K: PiKernel + Drop>(
    state: &mut State<K>,
    request: PlainRequest,
    uses: u32,
    c: CondId,
    m: MutexId,
    t: Tid,
) -> Progress
    requires is { request ≡ Request.Wait c m }
    requires known { has_thread state.old t ≡ true }
    requires ready { is_ready (status_at state.old t) ≡ true }
    ensures { outcome_of result state.new ≡ wait_park uses c m t state.old }
{
    match state.wait_requeue_pi(t, c, uses, m) {
        Ok(()) => state.wait(request, Place::StayParked, t),
        Err(Errno::Again) => state.go_on(request, Place::Exchange, t),
        Err(error) => state.answer(t, error.number()),
    }
}

/// A wait that was parked: if it is due it expires, and else it goes on as it was parked. Once it has expired it is
/// answered ETIMEDOUT in place of 0.
#[inline(never)]
pub(crate) fn wait_stay_parked<K: PiKernel + Drop>(
    state: &mut State<K>,
    request: PlainRequest,
    m: MutexId,
    t: Tid,
) -> Progress
    requires is { (c : ℕ) × (request ≡ Request.Wait c m) }
    requires known { has_thread state.old t ≡ true }
    requires mutex { has_mutex state.old m ≡ true }
    requires living { is_living state.old.kernel t ≡ true }
    ensures { outcome_of result state.new ≡ go_outcome (Line.At request Place.StayParked) t state.old }
{
    if state.is_due_at(&request, &Place::StayParked, t) {
        wait_expire(state, request, t)
    } else {
        let expired = state.timer(t).expired;
        let progress = wait_parked(state, request, m, t);
        reported(&request, expired, progress)
    }
}

/// Parked, or queued since, and waits; or woken to lock the mutex, which is the exchange of a lock; or made the owner,
/// which goes on as a lock that was queued.
fn wait_parked<K: PiKernel + Drop>(
    state: &mut State<K>,
    request: PlainRequest,
    m: MutexId,
    t: Tid,
) -> Progress
    requires known { has_thread state.old t ≡ true }
    requires mutex { has_mutex state.old m ≡ true }
    ensures { outcome_of result state.new
        ≡ (if is_woken_again (status_at state.old t) then own_exchange request t m state.old
        else lock_queued request t m state.old) }
{
    match state.status(t) {
        Status::Ready(Woken::Again) => state.own_exchange(request, t, m),
        _ => state.lock_queued(request, t, m),
    }
}

/// The deadline of a wait that is parked is reached: the kernel call expire. The wait has expired, and locks its mutex
/// again, for which no deadline counts (POSIX, pthread_cond_timedwait).
#[cold]
#[inline(never)]
#[tactic(auto, unfolding(pif_model::specs::Lines::expired_in), using(pif_model_simulation::proofs::events::KernelLeaves::expire_keeps_threads))]
fn wait_expire<K: PiKernel + Drop>(state: &mut State<K>, request: PlainRequest, t: Tid) -> Progress
    requires known { has_thread state.old t ≡ true }
    requires living { is_living state.old.kernel t ≡ true }
    requires unready { is_ready (status_at state.old t) ≡ false }
    ensures { outcome_of result state.new
        ≡ goes_to t request Place.Exchange (with_timer t (ran_out (timer_at state.old t)) (expired_in t state.old)) }
{
    let deadline = state.timer(t).deadline;
    state.expire(t);
    state.set_timer(
        t,
        Timer {
            deadline,
            expired: true,
        },
    );
    state.go_on(request, Place::Exchange, t)
}
