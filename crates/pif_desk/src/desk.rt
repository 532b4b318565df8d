//! A room behind a lock, which real threads share.
ghost use Rattle.std.specs.Prelude.{◌≡◌, ◌≤◌, ◌↔◌, IsSome, IfOk, IfErr};
ghost use Rattle.pif_model.specs.Posix.{IsLegal};
ghost use Rattle.pif_desk.specs.Desks.{bells_of};
ghost use Rattle.pif_desk.specs.Logs.{no_calls};
ghost use Rattle.pif_desk.specs.Rooms.{history_of, IsTickFault, StandsAfter};

use crate::client::Client;
use crate::faults::DeskFault;
use crate::room::Room;
use crate::shared::Shared;
use crate::sleepers::{Bells, Sleepers};
use pif_core::Core;
use pif_model::Seen;
use pif_types::{CondId, Kind, Limits, MutexId, NoMemory, Tid};
use std::alloc::Global;
use std::hint::spin_loop;
use std::sync::{Condvar, Mutex, MutexGuard, Wait};
use std::thread::yield_now;

/// How often a client whose thread rests looks whether its bell has rung, before it sleeps. That takes about as long as
/// to fall asleep and be woken.
const LOOKS: u32 = 1600;

/// How many looks a client takes between two times that it lets other threads run.
const LOOKS_A_YIELD: u32 = 16;

/// What a client does after each of its events, outside the lock.
pub trait Pause {
    /// Called after an event of this thread that was answered so.
    fn after(&self, t: Tid, seen: Seen);
}

/// A pause that does nothing.
#[derive(Clone, Copy, Drop)]
pub struct NoPause;

impl Pause for NoPause {
    fn after(&self, _t: Tid, _seen: Seen) {}
}

/// A room behind a lock. Each event and each addition is one acquisition of the lock; whenever it is free, the core
/// stands after the journal.
#[derive(Drop)]
pub struct Desk<P: Pause + Drop> {
    pub(crate) shared: Mutex<Shared>,
    pub(crate) bells: Bells,
    pub(crate) pause: P,
    alloc: Global,
}

impl<P: Pause + Drop> Desk<P> {
    /// A desk under these limits to which nothing was added. `NoMemory` if memory is refused, that of the core or that
    /// by which clients sleep.
    pub fn new(alloc: Global, limits: Limits, pause: P) -> Result<Desk<P>, NoMemory>
        ensures bells { IfOk result (λ d. bells_of d ≡ limits.threads) }
    {
        let core = Core::new(alloc, limits)?;
        let bells = Bells::new(alloc, limits.threads())?;
        let sleepers = Sleepers::new(alloc)?;
        let room = Room::new(alloc, core);
        Ok(Desk {
            shared: Mutex::new(Shared { room, sleepers }),
            bells,
            pause,
            alloc,
        })
    }

    /// Adds a thread of base priority `prio`, 1 to 99, and gives its client, whose log is empty. `NoMemory` if the
    /// journal can't grow, which is tried first. Else `NotAdded(BadPrio)` if `prio` is outside its range, and
    /// `NotAdded(TooMany)` at the limit. Nothing has changed then.
    pub fn enter<R: Wait>(&self, rt: &R, prio: u32) -> Result<Client, DeskFault>
        ensures { IfOk result (λ c. c.log ≡ no_calls) }
    {
        let t = self.shared.lock(rt).room.add_thread(prio)?;
        Ok(Client::new(self.alloc, t))
    }

    /// Adds a mutex of this kind, robust or stalled. `NoMemory` if the journal can't grow, which is tried first, else
    /// `NotAdded(TooMany)` at the limit. Nothing has changed then.
    pub fn make_mutex<R: Wait>(
        &self,
        rt: &R,
        kind: Kind,
        robust: bool,
    ) -> Result<MutexId, DeskFault> {
        self.shared.lock(rt).room.add_mutex(kind, robust)
    }

    /// Adds a condition variable that is bound to this mutex. `NoMemory` if the journal can't grow, which is tried
    /// first. Else `NotAdded(NoSuch)` if the mutex was never added, and `NotAdded(TooMany)` at the limit. Nothing has
    /// changed then.
    pub fn make_cond<R: Wait>(&self, rt: &R, mutex: MutexId) -> Result<CondId, DeskFault> {
        self.shared.lock(rt).room.add_cond(mutex)
    }

    /// Hands in the time, in one acquisition of the lock: the journal has one entry more, which is an event of no
    /// thread. Time is 0 at first; its unit is the caller's, as that of deadlines. Those clients go on that sleep in a
    /// timed lock or a timed wait whose deadline this time has reached (pthread_mutex_timedlock and
    /// pthread_cond_timedwait of POSIX), and no others. `Refused(Past)` if it is below the present time: the time has
    /// not changed, and the journal has that answer. `NoMemory` if the journal can't grow: nothing has changed.
    pub fn tick<R: Wait>(&self, rt: &R, time: u32) -> Result<(), DeskFault>
        ensures fault { IfErr result IsTickFault }
    {
        match self.shared.lock(rt).tick(time, &self.bells) {
            Ok(Seen::Ticked) => Ok(()),
            Ok(Seen::Refused(refusal)) => Err(DeskFault::Refused(refusal)),
            Ok(_) => unreachable!(),
            Err(NoMemory) => Err(DeskFault::NoMemory),
        }
    }

    /// What a client does after each of its events.
    pub fn pause(&self) -> &P
        ensures { result.now ≡ self.now.pause }
    {
        &self.pause
    }

    /// How many entries the journal has.
    pub fn entries<R: Wait>(&self, rt: &R) -> usize {
        self.shared.lock(rt).room.entries()
    }

    /// How many entries more the journal has room for. If that is none, the next event or addition asks for memory.
    pub fn spare_entries<R: Wait>(&self, rt: &R) -> usize {
        self.shared.lock(rt).room.spare_entries()
    }

    /// How many entries more, at least, a full journal asks memory for from now on: 1 or more, and 1 at a new desk.
    /// Core and journal stay what they are, and no memory is taken yet. With a larger number the journal grows more
    /// rarely, by larger pieces; with `usize::MAX` each growth is refused, as `Room::set_growth` says.
    pub fn set_growth<R: Wait>(&self, rt: &R, growth: usize)
        requires { 1 ≤ growth }
    {
        self.shared.lock(rt).room.set_growth(growth);
    }

    /// Whether the client of this thread sleeps, or is about to. The event after which its thread rests no longer wakes
    /// it.
    pub fn sleeps<R: Wait>(&self, rt: &R, t: Tid) -> bool {
        self.shared.lock(rt).sleepers.has(t)
    }

    /// How often events have woken the client of this thread. `None` if the limits allow no thread of that number.
    pub fn rings(&self, t: Tid) -> Option<u64>
        ensures { IsSome result ↔ (t ≤ bells_of self.now) }
    {
        Some(self.bells.of(t)?.notifications())
    }

    /// Sleeps while a thread rests.
    pub(crate) fn sleep<'a, R: Wait>(
        &'a self,
        rt: &R,
        shared: MutexGuard<'a, Shared>,
        t: Tid,
    ) -> MutexGuard<'a, Shared> {
        match self.bells.of(t) {
            Some(bell) => {
                let shared = self.linger(rt, bell, shared, t);
                // The wait itself gives up the lock: an event between the look and the sleep would be a lost wake-up.
                bell.wait_while(rt, shared, |shared| shared.is_to_sleep(t))
            }
            None => shared,
        }
    }

    /// Lets other threads run for a while, or until the bell of a thread rings that rests.
    fn linger<'a, R: Wait>(
        &'a self,
        rt: &R,
        bell: &Condvar,
        mut shared: MutexGuard<'a, Shared>,
        t: Tid,
    ) -> MutexGuard<'a, Shared> {
        if !shared.is_to_sleep(t) {
            return shared;
        }
        // Read under the lock, so that no ring after that is missed.
        let rung = bell.notifications();
        drop(shared);
        for look in 1..=LOOKS {
            if bell.notifications() != rung {
                break;
            }
            if look % LOOKS_A_YIELD == 0 {
                yield_now();
            } else {
                spin_loop();
            }
        }
        self.shared.lock(rt)
    }

    /// Takes the room out of its lock.
    pub fn into_room(self) -> Room
        ensures stands { StandsAfter result.core result.journal }
        ensures legal { IsLegal result.core.limits (history_of result.journal) }
    {
        let Shared { room, .. } = self.shared.into_inner();
        room
    }
}
