//! What is so in a state of the machine, of which a search is asked.
ghost use Rattle.std.specs.Prelude.{◌≡◌, true, if◌then◌else◌, IfOk};
ghost use Rattle.pif_model.specs.World.{thread_at};
ghost use Rattle.pif_posix.specs.Shapes.{progress_of};
ghost use Rattle.pif_history_model.specs.declared.facts.Fact.TheVariants.{ClosesNoCycle, Priority};
ghost use Rattle.pif_history_model.specs.Facts.{awaits_signal, is_as_asked, is_deadline, is_early, is_next, is_no_other_owner, is_owner, is_so, is_unsignalled, waits_in_chain};

use pif_history_model::Fact;
use pif_posix::{Progress, State, Wide};
use pif_search::Stop;
use std::alloc::Global;

/// Whether a mutex is owned by a thread; by nobody, if that is 0.
fn is_owner(state: &State, mutex: usize, thread: usize) -> bool
    ensures { result ≡ is_owner state.now mutex thread }
{
    state.owner_or_none(mutex) as usize == thread
}

/// Whether a mutex is owned by nobody, or by this thread.
fn is_no_other_owner(state: &State, mutex: usize, thread: usize) -> bool
    ensures { result ≡ is_no_other_owner state.now mutex thread }
{
    is_owner(state, mutex, 0) || is_owner(state, mutex, thread)
}

/// Whether a thread gets a mutex next, as lending sees it.
fn is_next(alloc: Global, wide: &Wide, mutex: u32, thread: usize) -> Result<bool, Stop>
    ensures { IfOk result (λ b. b ≡ is_next wide.now.prio_none wide.now.world mutex thread) }
{
    let seen = wide.as_lending_sees(alloc)?;
    Ok(seen.state.next(mutex) as usize == thread)
}

/// Whether a mutex is owned by a thread, or the thread gets it next.
fn is_owner_or_next(alloc: Global, wide: &Wide, mutex: u32, thread: usize) -> Result<bool, Stop>
    ensures { IfOk result (λ b. b ≡ if is_owner wide.now.world mutex thread then true else is_next wide.now.prio_none wide.now.world mutex thread) }
{
    if is_owner(&wide.state, mutex as usize, thread) {
        return Ok(true);
    }
    is_next(alloc, wide, mutex, thread)
}

/// Whether a thread waits for another through some chain, as lending sees it.
fn waits_in_chain(alloc: Global, wide: &Wide, from: usize, to: usize) -> Result<bool, Stop>
    ensures { IfOk result (λ b. b ≡ waits_in_chain wide.now.prio_none wide.now.world from to) }
{
    if from == to {
        return Ok(false);
    }
    let seen = wide.as_lending_sees(alloc)?;
    Ok(seen.state.leads_to(from, to))
}

/// Whether the owner of a mutex doesn't wait for another thread through any chain.
fn closes_no_cycle(alloc: Global, wide: &Wide, mutex: usize, thread: usize) -> Result<bool, Stop>
    ensures { IfOk result (λ b. b ≡ is_so wide.now.prio_none wide.now.world (ClosesNoCycle mutex thread)) }
{
    let owner = wide.state.owner_or_none(mutex) as usize;
    Ok(!waits_in_chain(alloc, wide, owner, thread)?)
}

/// Whether a thread has this effective priority. Who waits for a mutex that lends nothing adds nothing to it.
fn has_priority(alloc: Global, wide: &Wide, thread: usize, priority: u32) -> Result<bool, Stop>
    ensures { IfOk result (λ b. b ≡ is_so wide.now.prio_none wide.now.world (Priority thread priority)) }
{
    Ok(wide.effective(alloc, thread)? == priority)
}

/// Whether a wait that has come so far was not unblocked.
fn awaits_signal(progress: Progress) -> bool
    ensures { result ≡ awaits_signal (progress_of progress) }
{
    match progress {
        Progress::Fresh => true,
        Progress::Checked => true,
        _ => progress.is_blocked(),
    }
}

/// Whether the time of the last call of a thread ran out; false if the thread was not added.
fn has_expired(state: &State, thread: usize) -> bool
    ensures { result ≡ (thread_at state.now thread).timer.expired }
{
    if thread < state.thread_count() {
        state.timer(thread).expired
    } else {
        false
    }
}

/// The deadline of the last call of a thread; none if the thread was not added.
fn deadline(state: &State, thread: usize) -> Option<u32>
    ensures { result ≡ (thread_at state.now thread).timer.deadline }
{
    if thread < state.thread_count() {
        state.timer(thread).deadline
    } else {
        None
    }
}

/// Whether a deadline that may be there is this one.
fn is_deadline(found: Option<u32>, deadline: u32) -> bool
    ensures { result ≡ is_deadline found deadline }
{
    match found {
        None => false,
        Some(other) => other == deadline,
    }
}

/// Whether the open call of a thread has this deadline, and the time is this, which is before it.
fn is_early(state: &State, thread: usize, due: u32, time: u32) -> bool
    ensures { result ≡ is_early state.now thread due time }
{
    is_deadline(deadline(state, thread), due) && state.time() == time && time < due
}

/// Whether the open call of a thread, a wait, was not unblocked but by its deadline.
fn is_unsignalled(state: &State, thread: usize) -> bool
    ensures { result ≡ is_unsignalled state.now thread }
{
    match state.call(thread) {
        None => false,
        Some(call) => awaits_signal(call.progress) || has_expired(state, thread),
    }
}

/// Whether a fact is so in a state.
fn is_so(alloc: Global, wide: &Wide, fact: &Fact) -> Result<bool, Stop>
    ensures { IfOk result (λ b. b ≡ is_so wide.now.prio_none wide.now.world fact.now) }
{
    let world = &wide.state;
    match *fact {
        Fact::LeftUndefined(t) => Ok(world.is_left_undefined(t.get() as usize)),
        Fact::Held(m, t) => Ok(is_owner(world, m.get() as usize, t.get() as usize)),
        Fact::HeldByNoOther(m, t) => {
            Ok(is_no_other_owner(world, m.get() as usize, t.get() as usize))
        }
        Fact::Next(m, t) => is_next(alloc, wide, m.get(), t.get() as usize),
        Fact::HeldOrNext(m, t) => is_owner_or_next(alloc, wide, m.get(), t.get() as usize),
        Fact::ClosesNoCycle(m, t) => {
            closes_no_cycle(alloc, wide, m.get() as usize, t.get() as usize)
        }
        Fact::WaitsFor(u, t) => waits_in_chain(alloc, wide, u.get() as usize, t.get() as usize),
        Fact::Priority(t, priority) => has_priority(alloc, wide, t.get() as usize, priority),
        Fact::NotSignalled(t) => Ok(is_unsignalled(world, t.get() as usize)),
        Fact::NotDue(t, due, time) => Ok(is_early(world, t.get() as usize, due, time)),
        Fact::Awake(t) => Ok(!world.rests(t.get() as usize)),
    }
}

/// Whether a fact is so in a state, or isn't, as asked.
///
/// # Errors
///
/// Out of memory, or a number got too great for a state.
pub(crate) fn is_as_asked(
    alloc: Global,
    wide: &Wide,
    fact: &Fact,
    holds: bool,
) -> Result<bool, Stop>
    ensures { IfOk result (λ b. b ≡ is_as_asked holds wide.now.prio_none wide.now.world fact.now) }
{
    let so = is_so(alloc, wide, fact)?;
    Ok(if holds { so } else { !so })
}
