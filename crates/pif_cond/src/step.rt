ghost use Rattle.std.specs.Prelude.{ℕ, ◌≡◌, ◌≢◌, ◌<◌, true};
ghost use Rattle.pif_types.specs.declared.requests.Request.TheVariants as Request;
ghost use Rattle.pif_model.specs.declared.lines.Line;
ghost use Rattle.pif_model.specs.declared.lines.Place;
ghost use Rattle.pif_model.specs.declared.lines.WakeStep;
ghost use Rattle.pif_model.specs.PiKernel.{is_living};
ghost use Rattle.pif_model.specs.Table.{line_at, cell_at, has_thread, has_cond};
ghost use Rattle.pif_model.specs.Lines.{use_line, go_outcome};
ghost use Rattle.pif_model.specs.Soundness.{belongs};
ghost use Rattle.pif_mutex.specs.Mutexes.{is_of_mutexes};
ghost use Rattle.pif_mutex.specs.Outcomes.{outcome_of};
ghost use Rattle.pif_model_simulation.specs.Steppable.{CallMayStep};
ghost use Rattle.pif_cond.specs.Conditions.{is_of_conditions};

use crate::uses::{use_exchange, use_load, use_reload, use_requeue};
use crate::wait::{wait_load, wait_park, wait_stay_parked, wait_uses};
use pif_kernel_calls::PiKernel;
use pif_model::{Line, Place, Plain, PlainRequest, WakeStep};
use pif_mutex::{Lines, Parts, Progress, State};
use pif_types::{CondId, Errno, MutexId, Tid};

/// The thread, which lives and has a wait, a signal or a broadcast open, takes one step of it: one access of one word,
/// one write of its robust list, one kernel call, or the answer with no access if the variable is bound to another
/// mutex, and after a stalled mutex was handed to it; or it waits, and nothing changes. A wait that is parked and whose
/// deadline is reached expires, by the kernel call expire, and does nothing else; after that it is answered ETIMEDOUT
/// in place of 0 (POSIX, pthread_cond_wait, pthread_cond_timedwait, pthread_cond_signal and pthread_cond_broadcast;
/// futex(2), FUTEX_WAIT_REQUEUE_PI and FUTEX_CMP_REQUEUE_PI). Whoever owns a mutex after the step and did not before
/// holds it once: the thread, the next waiter, or a thread that was parked.
#[inline(always)]
pub fn advance<K: PiKernel + Drop>(parts: &mut Parts<K>, t: Tid) -> Progress
    requires living { is_living parts.old.kernel t ≡ true }
    requires call { is_of_conditions (line_at parts.old t) ≡ true }
    ensures line { outcome_of result parts.new ≡ go_outcome (line_at parts.old t) t parts.old }
    ensures once { (m : ℕ) → (cell_at parts.new m).word.number ≢ (cell_at parts.old m).word.number
        → (cell_at parts.new m).word.number ≢ 0 → (cell_at parts.new m).count ≡ 1 }
{
    match parts.line(t) {
        Line::At(request, place) => parts.take::<CondLines>(request, place, t),
        Line::Idle => unreachable!(),
    }
}

/// The lines of a wait, a signal and a broadcast.
pub struct CondLines;

impl Lines for CondLines {
    ghost use Rattle.pif_cond.specs.Conditions.{is_of_conditions};

    ghost include = { is_of_conditions };

    #[inline(always)]
    fn take<K: PiKernel + Drop>(
        state: &mut State<K>,
        request: PlainRequest,
        place: Place,
        t: Tid,
    ) -> Progress {
        go(state, request, place, t)
    }
}

/// One step of the open call of `t`, which is this request at this place: a wait, a signal or a broadcast. A wait that
/// is due expires, and does nothing else. A signal and a broadcast are never due.
#[inline(always)]
#[tactic(auto, unfolding(pif_model::specs::Lines::line_of, pif_model::specs::Lines::use_line), using(crate::proofs::Stepping::signal_goes, crate::proofs::Stepping::broadcast_goes))]
fn go<K: PiKernel + Drop>(
    state: &mut State<K>,
    request: PlainRequest,
    place: Place,
    t: Tid,
) -> Progress
    requires living { is_living state.old.kernel t ≡ true }
    requires conditions { is_of_conditions (Line.At request place) ≡ true }
    requires belongs { belongs request place ≡ true }
    requires call { CallMayStep state.old t request place }
    requires below { (v : ℕ) → place ≡ Place.Wake (WakeStep.CountUse v) → v < state.old.limits.signals }
    ensures { outcome_of result state.new ≡ go_outcome (Line.At request place) t state.old }
{
    match request.get() {
        Plain::Wait(c, m) => wait_step(state, request, place, c, m, t),
        Plain::Signal(c) | Plain::Broadcast(c) => match place {
            Place::Wake(step) => use_step(state, request, step, c, t),
            _ => state.answer(t, Errno::Invalid.number()),
        },
        _ => unreachable!(),
    }
}

/// One step of a wait. If it is not on the variable it is one on the mutex.
#[inline(always)]
#[tactic(auto, using(crate::proofs::Stepping::load_goes, crate::proofs::Stepping::uses_goes, crate::proofs::Stepping::park_goes))]
fn wait_step<K: PiKernel + Drop>(
    state: &mut State<K>,
    request: PlainRequest,
    place: Place,
    c: CondId,
    m: MutexId,
    t: Tid,
) -> Progress
    requires is { request ≡ Request.Wait c m }
    requires living { is_living state.old.kernel t ≡ true }
    requires belongs { belongs (Request.Wait c m) place ≡ true }
    requires call { CallMayStep state.old t (Request.Wait c m) place }
    ensures { outcome_of result state.new ≡ go_outcome (Line.At (Request.Wait c m) place) t state.old }
{
    match place {
        Place::Load => wait_load(state, request, c, m, t),
        Place::LoadUses => wait_uses(state, request, c, m, t),
        Place::Park(uses) => wait_park(state, request, uses, c, m, t),
        Place::StayParked => wait_stay_parked(state, request, m, t),
        _ => wait_on_mutex(state, request, place, t),
    }
}

/// One step of a wait on its mutex. It is a function of its own, so that its locals cost the steps on the variable
/// nothing.
#[inline(never)]
fn wait_on_mutex<K: PiKernel + Drop>(
    state: &mut State<K>,
    request: PlainRequest,
    place: Place,
    t: Tid,
) -> Progress
    requires living { is_living state.old.kernel t ≡ true }
    requires call { CallMayStep state.old t request place }
    requires mutexes { is_of_mutexes (Line.At request place) ≡ true }
    ensures { outcome_of result state.new ≡ go_outcome (Line.At request place) t state.old }
{
    state.go(request, place, t)
}

/// One step of a signal or a broadcast.
#[inline(always)]
#[tactic(auto, unfolding(pif_model::specs::Lines::line_of, pif_model::specs::Lines::use_line))]
fn use_step<K: PiKernel + Drop>(
    state: &mut State<K>,
    request: PlainRequest,
    step: WakeStep,
    c: CondId,
    t: Tid,
) -> Progress
    requires known { has_thread state.old t ≡ true }
    requires cond { has_cond state.old c ≡ true }
    requires below { (v : ℕ) → step ≡ WakeStep.CountUse v → v < state.old.limits.signals }
    ensures { outcome_of result state.new ≡ use_line request step c t state.old }
{
    match step {
        WakeStep::ReadUses => use_load(state, request, c, t),
        WakeStep::CountUse(read) => use_exchange(state, request, read, c, t),
        WakeStep::Requeue(read) => use_requeue(state, request, read, c, t),
        WakeStep::ReadAgain => use_reload(state, request, c, t),
    }
}
