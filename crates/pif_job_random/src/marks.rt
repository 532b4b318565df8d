use crate::rings::{PLACES, Rings};
use pif_core::{Core, Status};
use pif_types::{CondId, Health, MutexId, NoMemory, Tid};
use std::alloc::Global;

/// How far a chain of waiting is followed.
const MOST_HOPS: u32 = 16;

/// The mutex on which a thread of this status is queued.
fn queued_on(status: Status) -> Option<MutexId> {
    match status {
        Status::Queued(mutex) => Some(mutex),
        _ => None,
    }
}

/// The mutex for which the owner of a mutex waits.
fn waited_for(core: &Core, mutex: MutexId) -> Option<MutexId> {
    let (owner, _count) = core.owner(mutex)?;
    queued_on(core.status(owner)?)
}

/// Whether a mutex is unusable, or has an owner that never gives it up.
fn is_left(core: &Core, mutex: MutexId) -> bool {
    match (core.kind(mutex), core.owner(mutex)) {
        (Some((_, robust)), Some((owner, _))) => match core.status(owner) {
            Some(Status::Ended) => !robust,
            Some(Status::Stopped) => true,
            _ => false,
        },
        _ => core.health(mutex) == Some(Health::Unusable),
    }
}

/// Whether a mutex is of no use any more: it is unusable, or the chain from it leads to a thread that never goes on.
pub fn is_orphaned(core: &Core, mutex: Option<MutexId>) -> bool {
    let mut next = mutex;
    for _hop in 0..MOST_HOPS {
        match next {
            Some(mutex) if is_left(core, mutex) => return true,
            Some(mutex) => next = waited_for(core, mutex),
            None => return false,
        }
    }
    false
}

/// Whether a thread lives and doesn't rest.
fn is_awake(core: &Core, thread: Tid) -> bool {
    core.effective(thread).is_some() && core.waiting(thread) != Some(true)
}

/// The mutex to which the condition variable of this number is bound.
fn bound_mutex(core: &Core, number: u32) -> Option<MutexId> {
    core.bound(CondId::new(number)?)
}

/// What is known of the threads and mutexes of a core, so that not all of them are asked for each line. Whoever changes
/// the core says what may be another.
#[derive(Drop)]
pub struct Marks {
    /// The threads that live and don't rest, in one row.
    awake: Rings,
    /// The mutexes that each thread owns, a row for each thread.
    held: Rings,
    /// The owner of each mutex, 0 if nobody owns it.
    owners: Vec<u32>,
    /// The mutexes that are of use, in one row; and how many mutexes are not, and how many condition variables are
    /// bound to such. That is of the time when it was last counted.
    useful: Rings,
    lost_mutexes: u32,
    lost_conds: u32,
    /// Whether that may be otherwise now.
    is_stale: bool,
}

impl Marks {
    /// Of a core to which nothing was added.
    pub fn new(alloc: Global) -> Result<Marks, NoMemory> {
        let Ok(owners) = Vec::from_elem(alloc, 0u32, PLACES as usize) else {
            return Err(NoMemory);
        };
        Ok(Marks {
            awake: Rings::new(alloc, 1)?,
            held: Rings::new(alloc, PLACES)?,
            owners,
            useful: Rings::new(alloc, 1)?,
            lost_mutexes: 0,
            lost_conds: 0,
            is_stale: false,
        })
    }

    /// Chains of waiting may lead elsewhere.
    pub fn expire(&mut self) {
        self.is_stale = true;
    }

    /// A mutex was added.
    pub fn add_mutex(&mut self, mutex: MutexId) {
        self.useful.mark(0, mutex.get().saturating_sub(1), true);
    }

    /// A thread may live, rest or go on otherwise than before.
    pub fn see_thread(&mut self, core: &Core, thread: Tid) {
        let place = thread.get().saturating_sub(1);
        self.awake.mark(0, place, is_awake(core, thread));
    }

    /// Any thread may.
    pub fn see_threads(&mut self, core: &Core) {
        for number in 1..=core.threads() {
            if let Some(thread) = Tid::new(number) {
                self.see_thread(core, thread);
            }
        }
    }

    /// A mutex may have another owner, who goes on then.
    pub fn see_owner(&mut self, core: &Core, mutex: MutexId) {
        let place = mutex.get().saturating_sub(1);
        let owner = match core.owner(mutex) {
            Some((owner, _count)) => {
                self.see_thread(core, owner);
                owner.get()
            }
            None => 0,
        };
        if let Some(known) = self.owners.get_mut(place as usize) {
            self.held.mark(known.saturating_sub(1), place, false);
            *known = owner;
            if owner > 0 {
                self.held.mark(owner.saturating_sub(1), place, true);
            }
        }
    }

    /// Any mutex may.
    pub fn see_owners(&mut self, core: &Core) {
        for number in 1..=core.mutexes() {
            if let Some(mutex) = MutexId::new(number) {
                self.see_owner(core, mutex);
            }
        }
    }

    /// The first place of a thread that lives and doesn't rest, from this one on.
    pub fn awake_from(&self, start: u32, threads: u32) -> Option<u32> {
        self.awake.first_from(0, start, threads)
    }

    /// The first place of a mutex that a thread owns, from this one on.
    pub fn held_from(&self, thread: Tid, start: u32, mutexes: u32) -> Option<u32> {
        let row = thread.get().saturating_sub(1);
        self.held.first_from(row, start, mutexes)
    }

    /// The first place of a mutex that was of use when that was last counted, from this one on.
    pub fn useful_from(&self, start: u32, mutexes: u32) -> Option<u32> {
        self.useful.first_from(0, start, mutexes)
    }

    /// How many mutexes are of no use any more, and how many condition variables are bound to such.
    pub fn lost(&mut self, core: &Core) -> (u32, u32) {
        if self.is_stale {
            self.lost_mutexes = self.count_mutexes(core);
            self.lost_conds = lost_conds(core);
            self.is_stale = false;
        }
        (self.lost_mutexes, self.lost_conds)
    }

    /// Marks the mutexes that are of use, and counts the others.
    fn count_mutexes(&mut self, core: &Core) -> u32 {
        let mut lost = 0u32;
        for number in 1..=core.mutexes() {
            let is_lost = is_orphaned(core, MutexId::new(number));
            self.useful.mark(0, number.saturating_sub(1), !is_lost);
            if is_lost {
                lost = lost.saturating_add(1);
            }
        }
        lost
    }
}

/// How many condition variables are bound to mutexes that are of no use any more.
fn lost_conds(core: &Core) -> u32 {
    let mut lost = 0u32;
    for number in 1..=core.conds() {
        if is_orphaned(core, bound_mutex(core, number)) {
            lost = lost.saturating_add(1);
        }
    }
    lost
}
