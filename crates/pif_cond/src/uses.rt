ghost use Rattle.std.specs.Prelude.{◌≡◌, ◌<◌, true};
ghost use Rattle.pif_model.specs.declared.lines.WakeStep;
ghost use Rattle.pif_model.specs.declared.lines.Place;
ghost use Rattle.pif_model.specs.Lines.{goes_to, more_in, use_read, use_exchange, use_requeue};
ghost use Rattle.pif_model.specs.Table.{has_thread, has_cond, uses_of};
ghost use Rattle.pif_mutex.specs.Outcomes.{outcome_of};

use pif_kernel_calls::PiKernel;
use pif_model::{Place, Plain, PlainRequest, WakeStep};
use pif_mutex::{Progress, State};
use pif_types::{CondId, Errno, Tid};

/// How many threads a broadcast takes besides the first: all that there can be.
const ALL: u32 = 1024;

/// How many threads the request takes besides the first: a signal none, and a broadcast all (POSIX, pthread_cond_signal
/// and pthread_cond_broadcast).
fn more(request: &PlainRequest) -> u32
    ensures { result ≡ more_in request.now }
{
    match request.get() {
        Plain::Broadcast(_) => ALL,
        _ => 0,
    }
}

/// Loads the condition word.
pub(crate) fn use_load<K: PiKernel + Drop>(
    state: &mut State<K>,
    request: PlainRequest,
    c: CondId,
    t: Tid,
) -> Progress
    requires known { has_thread state.old t ≡ true }
    requires cond { has_cond state.old c ≡ true }
    ensures { outcome_of result state.new ≡ use_read request (uses_of state.old c) t state.old }
{
    let uses = state.uses(c);
    use_read(state, request, uses, t)
}

/// The variable was used this often, as its word was read. Used as often as its limit allows it is answered EOVERFLOW.
#[tactic(auto, unfolding(pif_model::specs::Lines::use_read))]
fn use_read<K: PiKernel + Drop>(
    state: &mut State<K>,
    request: PlainRequest,
    uses: u32,
    t: Tid,
) -> Progress
    requires { has_thread state.old t ≡ true }
    ensures { outcome_of result state.new ≡ use_read request uses t state.old }
{
    if uses == state.limits().signals() {
        state.answer(t, Errno::Overflow.number())
    } else {
        state.go_on(request, Place::Wake(WakeStep::CountUse(uses)), t)
    }
}

/// Compare-exchange of the condition word from `uses`, which is below its limit, to one more. If it fails it goes on
/// with what the word is.
#[tactic(auto, unfolding(pif_model::specs::Lines::use_exchange))]
pub(crate) fn use_exchange<K: PiKernel + Drop>(
    state: &mut State<K>,
    request: PlainRequest,
    uses: u32,
    c: CondId,
    t: Tid,
) -> Progress
    requires known { has_thread state.old t ≡ true }
    requires cond { has_cond state.old c ≡ true }
    requires below { uses < state.old.limits.signals }
    ensures { outcome_of result state.new ≡ use_exchange request uses c t state.old }
{
    // This reads the limits, so that the proof has their ranges: one use more fits a word.
    let _limits = state.limits();
    match state.exchange_uses(c, uses, uses + 1) {
        Ok(_) => state.go_on(request, Place::Wake(WakeStep::Requeue(uses + 1)), t),
        Err(now) => use_read(state, request, now, t),
    }
}

/// The kernel call cmp_requeue_pi (FUTEX_CMP_REQUEUE_PI of futex(2)), for the mutex to which the variable is bound. If
/// the variable was used since, the word is loaded again. It is a function of its own, so that its locals cost the
/// other steps nothing.
#[inline(never)]
#[tactic(auto, unfolding(pif_model::specs::Lines::use_requeue, pif_model::specs::Lines::use_by), using(pif_model_simulation::proofs::events::KernelLeaves::requeue_keeps_threads))]
pub(crate) fn use_requeue<K: PiKernel + Drop>(
    state: &mut State<K>,
    request: PlainRequest,
    uses: u32,
    c: CondId,
    t: Tid,
) -> Progress
    requires known { has_thread state.old t ≡ true }
    requires cond { has_cond state.old c ≡ true }
    ensures { outcome_of result state.new ≡ use_requeue request uses c t state.old }
{
    let m = state.bound(c);
    match state.cmp_requeue_pi(c, m, 1, more(&request), uses) {
        Ok(_) => state.answer(t, 0),
        Err(Errno::Again) => state.go_on(request, Place::Wake(WakeStep::ReadAgain), t),
        Err(error) => state.answer(t, error.number()),
    }
}

/// Loads the condition word again, and makes the kernel call again.
pub(crate) fn use_reload<K: PiKernel + Drop>(
    state: &mut State<K>,
    request: PlainRequest,
    c: CondId,
    t: Tid,
) -> Progress
    requires known { has_thread state.old t ≡ true }
    requires cond { has_cond state.old c ≡ true }
    ensures { outcome_of result state.new
        ≡ goes_to t request (Place.Wake (WakeStep.Requeue (uses_of state.old c))) state.old }
{
    let uses = state.uses(c);
    state.go_on(request, Place::Wake(WakeStep::Requeue(uses)), t)
}
