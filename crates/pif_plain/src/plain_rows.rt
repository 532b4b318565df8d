ghost use Rattle.std.specs.Prelude.{◌≡◌, ℕ, ◌+◌, ◌<◌, ◌≤◌, ◌==◌, [], ◌∷◌, ◌++◌, false, if◌then◌else◌, length, get_or, set, replicate, Some, None, IfOk, IfNone};
ghost use Rattle.std.specs.List.{slice_get};
ghost use Rattle.pif_model.specs.Graph.{waiting_order};
ghost use Rattle.pif_model.specs.PiKernel.{parked_pairs, parkings_without};
ghost use Rattle.pif_kernel_model.specs.Inside.{no_keys};
ghost use Rattle.pif_kernel_model.specs.Orders.{waiters_at_level};
ghost use Rattle.pif_kernel_model.specs.Takings.{first_parked, goes_before, have_target};
ghost use Rattle.pif_kernel_model.specs.Tickets.{is_named};

use pif_kernel_model::Key;
use pif_types::{CondId, MutexId, NoMemory, Tid, push_within, with_room};
use std::alloc::Global;
use std::marker::Model;

/// The places for keys: one for each of the 1,024 mutexes that can be, and one for number 0.
const KEYS: usize = 1025;

/// A thread that is parked on a condition variable.
#[derive(Clone, Copy)]
pub struct Parking {
    /// The thread.
    pub thread: Tid,
    /// The variable.
    pub cond: CondId,
    /// The mutex that the thread is to get once it is taken from the variable.
    pub target: MutexId,
}

impl Model for Parking {
    ghost use Rattle.pif_model.specs.PiKernel.{Parking as ParkingSeen};
    ghost use Rattle.pif_kernel_model.specs.Codes.{parking_code};

    ghost Value = { ParkingSeen };

    ghost coded = { parking_code };

    ghost view = { λ x. record { thread = x.thread; cond = x.cond; target = x.target } };

    ghost inverse = { λ x. record { thread = x.thread; cond = x.cond; target = x.target } };
}

/// What has an effective priority for each thread.
pub trait Priorities {
    /// The effective priority of each thread, by number. 0 for one that was given none.
    ghost priority_of: { Self → ℕ → ℕ };

    /// The effective priority of the thread `t`. 0 if it was given none.
    fn priority(&self, t: Tid) -> u32
        ensures { result ≡ priority_of self.now t };
}

/// The key of each mutex that has an owner state, and the parked threads in the order in which they were parked. They
/// stand in plain rows: a call on the parked threads looks at each of them. Only `new` takes memory.
#[derive(Drop)]
pub struct Rows {
    keys: Vec<Option<Key>>,
    parked: Vec<Parking>,
}

impl Model for Rows {
    ghost use Rattle.std.specs.Prelude.{vec_capacity};
    ghost use Rattle.pif_plain.specs.Rows.{PlainRows, plain_rows_code, AreParkedOnce};

    ghost Value = { PlainRows };

    ghost coded = { plain_rows_code };

    ghost view = { λ r. record { room = vec_capacity r.parked; keys = r.keys.items; parked = r.parked.items } };

    ghost invariant = { λ r. AreParkedOnce (vec_capacity r.parked) r.parked.items };
}

impl Rows {
    /// No key, and nobody parked, with room for `threads` parked threads.
    pub fn new(alloc: Global, threads: u32) -> Result<Rows, NoMemory>
        ensures room { IfOk result (λ r. threads ≤ r.room) }
        ensures keys { IfOk result (λ r. r.keys ≡ no_keys) }
        ensures parked { IfOk result (λ r. r.parked ≡ []) }
    {
        let keys = empty_places(alloc, KEYS)?;
        let parked = with_room(alloc, threads as usize)?;
        Ok(Rows { keys, parked })
    }

    /// The key of a mutex. `None` if it has none.
    pub fn key(&self, m: MutexId) -> Option<Key>
        ensures { result ≡ get_or self.now.keys m None }
    {
        let place = m.get() as usize;
        if place < self.keys.len() {
            self.keys[place]
        } else {
            None
        }
    }

    /// Gives a mutex this key, or none.
    pub fn set_key(&mut self, m: MutexId, key: Option<Key>)
        requires { m < length self.old.keys }
        ensures { self.new ≡ record self.old { keys = set self.old.keys m key } }
    {
        self.keys[m.get() as usize] = key;
    }

    /// Parks the thread `t`, which is not parked, on a variable, behind all that are parked, with this target. Its
    /// number is at most that of the threads for which there is room.
    pub fn park(&mut self, t: Tid, c: CondId, m: MutexId)
        requires room { t ≤ self.old.room }
        requires unparked { is_named t (parked_pairs self.old.parked) ≡ false }
        ensures room { self.old.room ≤ self.new.room }
        ensures keys { self.new.keys ≡ self.old.keys }
        ensures parked { self.new.parked ≡ self.old.parked ++ record { thread = t; cond = c; target = m } ∷ [] }
    {
        push_within(
            &mut self.parked,
            Parking {
                thread: t,
                cond: c,
                target: m,
            },
        );
    }

    /// Takes the thread `t` off the variable on which it is parked, if it is.
    pub fn unpark(&mut self, t: Tid)
        ensures { self.new ≡ record self.old { parked = parkings_without self.old.parked t } }
    {
        self.parked.retain(|parking| parking.thread != t);
    }

    /// The first of those that are parked on a variable: of those with the highest priority the one that was parked
    /// first. `None` if nobody is parked on it.
    pub fn top_parked<P: Priorities>(&self, priorities: &P, c: CondId) -> Option<Tid>
        ensures { result ≡ first_parked (P.priority_of priorities.now) (parked_pairs self.now.parked) c }
    {
        top_of(&self.parked, priorities, c)
    }

    /// The thread that is parked on a variable and before which `place` others stand: those with the highest priority
    /// first, and equals in the order in which they were parked. `None` if so few are parked on it.
    pub fn nth_parked<P: Priorities>(&self, priorities: &P, c: CondId, place: u32) -> Option<Tid>
        ensures { result ≡ slice_get (waiting_order (P.priority_of priorities.now) (parked_pairs self.now.parked) c) place }
    {
        nth_of(&self.parked, priorities, c, place)
    }

    /// Whether each thread that is parked on the variable has this target.
    pub fn match_requeue(&self, c: CondId, m: MutexId) -> bool
        ensures { result ≡ have_target self.now.parked c m }
    {
        self.parked
            .iter()
            .all(|parking| parking.cond != c || parking.target == m)
    }
}

/// Empty places for this many keys.
fn empty_places(alloc: Global, count: usize) -> Result<Vec<Option<Key>>, NoMemory>
    ensures { IfOk result (λ keys. keys.items ≡ replicate count None) }
{
    vec![in alloc; None; count].map_err(|_| NoMemory)
}

/// Of the threads in a list that are parked on one variable the first with the highest priority. `None` if none is
/// parked on it.
fn top_of<P: Priorities>(list: &[Parking], priorities: &P, c: CondId) -> Option<Tid>
    ensures { result ≡ first_parked (P.priority_of priorities.now) (parked_pairs list.now) c }
{
    let mut top = None;
    for parking in list {
        top = top_with(priorities, c, top, parking);
    }
    top
}

/// The first of those that are parked on a variable, of the first among those that were parked before, and one that was
/// parked later: the former, unless it has a lower priority.
fn top_with<P: Priorities>(
    priorities: &P,
    c: CondId,
    top: Option<Tid>,
    later: &Parking,
) -> Option<Tid>
    ensures { result ≡ (if later.now.cond == c then (if goes_before (P.priority_of priorities.now) later.now.thread top then Some later.now.thread else top) else top) }
{
    if later.cond != c {
        return top;
    }
    match top {
        Some(first) if priorities.priority(later.thread) <= priorities.priority(first) => {
            Some(first)
        }
        _ => Some(later.thread),
    }
}

/// Of the threads in a list that are parked on one variable the one before which `place` others stand: those with the
/// highest priority first, and equals as they stand in the list. `None` if so few are parked on it.
fn nth_of<P: Priorities>(list: &[Parking], priorities: &P, c: CondId, place: u32) -> Option<Tid>
    ensures { result ≡ slice_get (waiting_order (P.priority_of priorities.now) (parked_pairs list.now) c) place }
{
    let mut before = place;
    // Priorities are below 100.
    for above in 0..100 {
        if let Some(t) = nth_of_level(list, priorities, c, 99 - above, &mut before) {
            return Some(t);
        }
    }
    None
}

/// Of the threads in a list that are parked on one variable with one priority the one before which `before` others
/// stand. `None` if so few are, which are taken off `before` then.
fn nth_of_level<P: Priorities>(
    list: &[Parking],
    priorities: &P,
    c: CondId,
    level: u32,
    before: &mut u32,
) -> Option<Tid>
    ensures nth { result ≡ slice_get (waiters_at_level (P.priority_of priorities.now) level (parked_pairs list.now) c) before.old }
    ensures fewer { IfNone result (before.new + length (waiters_at_level (P.priority_of priorities.now) level (parked_pairs list.now) c) ≡ before.old) }
{
    for parking in list {
        if parking.cond == c && priorities.priority(parking.thread) == level {
            if *before == 0 {
                return Some(parking.thread);
            }
            *before -= 1;
        }
    }
    None
}
