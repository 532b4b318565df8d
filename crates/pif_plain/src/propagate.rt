ghost use Rattle.std.specs.Prelude.{◌≡◌, ℕ, ◌<◌, max, length, get_or, set, Option, Some, None, unwrap_or};
ghost use Rattle.pif_kernel_model.specs.Owners.{waits_for};
ghost use Rattle.pif_kernel_model.specs.Boosts.{greatest_base, priority_at, after_propagation};

use pif_plain_rtmutex::RtMutexes;
use pif_types::{Prio, Tid};

/// How many places a table by the number of a thread has: one for number 0, and one for each of at most 1,024 threads.
pub const PLACES: usize = 1025;

/// Propagates the base priority of each thread along its chain, if nothing stood by any thread before: then the
/// greatest base priority of each thread and of all that wait for it through any chain stands by its number, and `None`
/// if none of them was admitted. What stands behind the last thread is left open.
pub fn propagate_all(owners: &RtMutexes, greatest: &mut [Option<Prio>; PLACES])
    requires none { (t : ℕ) → priority_at greatest.old t ≡ 0 }
    ensures values { (t : ℕ) → t < length owners.now.seats → priority_at greatest.new t ≡ greatest_base owners.now t }
{
    for place in 0..owners.threads() {
        let t = Tid::new(place + 1).unwrap();
        if let Some(prio) = owners.base(t) {
            propagate(owners, t, prio, greatest);
        }
    }
}

/// The priority that stands by the thread `t`. `None` if none does, also for a thread without a place.
pub fn priority_of(greatest: &[Option<Prio>; PLACES], t: Tid) -> Option<Prio>
    ensures { unwrap_or result 0 ≡ priority_at greatest.now t }
{
    let place = t.get() as usize;
    if place < PLACES {
        greatest[place]
    } else {
        None
    }
}

/// Propagates a priority from the thread `t` to each thread for which it waits through any chain; by each of them the
/// greater of it and of what stood there is left.
fn propagate(owners: &RtMutexes, t: Tid, prio: Prio, greatest: &mut [Option<Prio>; PLACES])
    ensures values { (u : ℕ) → u < length owners.now.seats → priority_at greatest.new u
        ≡ after_propagation (length owners.now.seats) (waits_for owners.now) prio t (priority_at greatest.old) u }
{
    let mut at = t;
    // A chain has no thread twice, and only its last may have no row: it ends within this many hops.
    for _hop in 0..owners.threads() + 2 {
        raise(greatest, at, prio);
        match owners.waits_on(at) {
            Some(state) => at = owners.owner(state),
            None => return,
        }
    }
}

/// Writes a priority by the thread `t`, unless a greater one stands there. A thread without a place has none.
fn raise(greatest: &mut [Option<Prio>; PLACES], t: Tid, prio: Prio)
    ensures value { greatest.new ≡ set greatest.old t (Some (max prio (priority_at greatest.old t))) }
    ensures long { length greatest.new ≡ 1025 }
{
    let place = t.get() as usize;
    if place < PLACES {
        greatest[place] = match greatest[place] {
            Some(before) => Some(prio.max(before)),
            None => Some(prio),
        };
    }
}
