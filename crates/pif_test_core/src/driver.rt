//! What the tables of the tests are made of, by numbers, and the core on which each is played.
use crate::seen::{cond, mutex, thread};
use crate::uses::ways_out;
use crate::{cores, uses};
use pif_core::{Core, Event, Seen};
use pif_core_callers::{
    Awaited, Held, Next, add_under, finish_lock, lock_and_hold, lock_and_repair, next_after,
    one_event, resume_wait, wait_unless,
};
use pif_model::{Status, Woken};
use pif_types::{AddFault, CondId, Health, Kind, Limits, MutexId, Prio, Request, Tid};
use std::process::Abort;
use std::test::Fail;

/// The request of a call.
#[derive(Clone, Copy)]
pub enum Wish {
    Lock(u32),
    TryLock(u32),
    Unlock(u32),
    Consistent(u32),
    Wait(u32, u32),
    Signal(u32),
    Broadcast(u32),
    TimedLock(u32, u32),
    TimedWait(u32, u32, u32),
}

/// The same of these numbers.
pub fn request(wish: Wish) -> Request {
    match wish {
        Wish::Lock(m) => Request::Lock(mutex(m)),
        Wish::TryLock(m) => Request::TryLock(mutex(m)),
        Wish::Unlock(m) => Request::Unlock(mutex(m)),
        Wish::Consistent(m) => Request::Consistent(mutex(m)),
        Wish::Wait(c, m) => Request::Wait(cond(c), mutex(m)),
        Wish::Signal(c) => Request::Signal(cond(c)),
        Wish::Broadcast(c) => Request::Broadcast(cond(c)),
        Wish::TimedLock(m, time) => Request::TimedLock(mutex(m), time),
        Wish::TimedWait(c, m, time) => Request::TimedWait(cond(c), mutex(m), time),
    }
}

/// What is asked of a core, and what it answers, by numbers, of which 0 is nobody. Callers take the mutex 1, and the
/// variable 1.
#[derive(Clone, Copy)]
pub enum Turn {
    /// A mutex more, and its number.
    AddMutex(Kind, bool, u32),
    /// A variable more that is bound to this mutex, and its number.
    AddCond(u32, u32),
    Call(u32, Wish, Seen),
    /// A thread goes on with the call that it has open, to its end or by one event.
    Finish(u32, Seen),
    Go(u32, Seen),
    End(u32, Seen),
    Tick(u32, Seen),
    /// What a caller does after this tick.
    TickOn(u32, Next),
    /// The next event of a lock.
    Event(u32, Next),
    Hold(u32, Result<Held, Seen>),
    FinishLock(u32, Result<Held, Seen>),
    /// It adds 3 to the value, which is this then.
    Add(u32, Result<Seen, Seen>, u64),
    /// It makes the value this fresh one, if that is needed, and the value is the last of these then.
    Repair(u32, u64, Result<Held, Seen>, u64),
    /// Thread 1 waits unless this is so, or goes on with that wait.
    Wait(bool, Awaited),
    Resume(bool, Awaited),
    /// How many threads, mutexes and variables there are.
    Counts(u32, u32, u32),
    Time(u32),
    Base(u32, u32),
    /// It may run, and was never woken.
    IsReady(u32),
    /// The thread is queued on this mutex, or parked on this variable.
    IsQueued(u32, u32),
    IsParked(u32, u32),
    Waiting(u32, Option<bool>),
    /// The thread has this call open.
    Open(u32, Wish),
    /// It has none open.
    IsIdle(u32),
    Kind(u32, Kind, bool),
    /// The thread that owns a mutex, and how often it holds it; or nobody does.
    Owner(u32, u32, u32),
    Free(u32),
    /// The word of the mutex 1, and its health.
    Word(u32),
    Health(Health),
    /// The waiter of a mutex, and the thread that is parked on a variable, at a place.
    Waiter(u32, u32, u32),
    Parked(u32, u32, u32),
    Bound(u32, u32),
    Ready(u32, u32),
    /// The threads from this one on along whom each waits for.
    Path(u32, &'static [u32]),
}

/// Whether this is answered so.
fn goes(core: &mut Core, value: &mut u64, turn: Turn) -> bool {
    match turn {
        Turn::AddMutex(kind, robust, m) => core.add_mutex(kind, robust).ok() == MutexId::new(m),
        Turn::AddCond(m, c) => core.add_cond(mutex(m)).ok() == CondId::new(c),
        Turn::Call(t, wish, seen) => core.call(thread(t), request(wish)) == seen,
        Turn::Finish(t, seen) => core.finish(thread(t)) == seen,
        Turn::Go(t, seen) => core.step(Event::Go(thread(t))) == seen,
        Turn::End(t, seen) => core.step(Event::End(thread(t))) == seen,
        Turn::Tick(time, seen) => core.step(Event::Tick(time)) == seen,
        _ => comes_out(core, value, turn),
    }
}

/// The same of the callers.
fn comes_out(core: &mut Core, value: &mut u64, turn: Turn) -> bool {
    let (one, mutex, cond) = (Tid::default(), MutexId::default(), cond(1));
    match turn {
        Turn::TickOn(time, next) => next_after(core.step(Event::Tick(time))) == next,
        Turn::Event(t, next) => next_after(one_event(core, thread(t), Request::Lock(mutex)))
            == next,
        Turn::Hold(t, held) => lock_and_hold(core, thread(t), mutex) == held,
        Turn::FinishLock(t, held) => finish_lock(core, thread(t), mutex) == held,
        Turn::Add(t, answer, sum) => {
            add_under(core, thread(t), mutex, value, 3) == answer && *value == sum
        }
        Turn::Repair(t, fresh, held, left) => {
            lock_and_repair(core, thread(t), mutex, value, fresh) == held && *value == left
        }
        Turn::Wait(is_met, awaited) => wait_unless(core, one, cond, mutex, is_met) == awaited,
        Turn::Resume(is_met, awaited) => resume_wait(core, one, cond, mutex, is_met) == awaited,
        _ => shows(core, turn),
    }
}

/// The same of what only reads.
fn shows(core: &Core, turn: Turn) -> bool {
    match turn {
        Turn::Counts(threads, mutexes, conds) => {
            core.threads() == threads && core.mutexes() == mutexes && core.conds() == conds
        }
        Turn::Time(time) => core.time() == time,
        Turn::Kind(m, kind, robust) => core.kind(mutex(m)) == Some((kind, robust)),
        Turn::Owner(m, t, count) => core.owner(mutex(m)) == Some((thread(t), count)),
        Turn::Free(m) => core.owner(mutex(m)).is_none(),
        Turn::Word(word) => core.word(mutex(1)) == Some(word),
        Turn::Health(health) => core.health(mutex(1)) == Some(health),
        Turn::Waiter(m, place, t) => core.waiter(mutex(m), place) == Tid::new(t),
        Turn::Parked(c, place, t) => core.parked(cond(c), place) == Tid::new(t),
        Turn::Bound(c, m) => core.bound(cond(c)) == MutexId::new(m),
        Turn::Ready(place, t) => core.ready(place) == Tid::new(t),
        _ => shows_thread(core, turn),
    }
}

/// The same of what a thread does.
fn shows_thread(core: &Core, turn: Turn) -> bool {
    match turn {
        Turn::Base(t, level) => core.base(thread(t)) == Prio::new(level),
        Turn::IsReady(t) => core.status(thread(t)) == Some(Status::Ready(Woken::Fresh)),
        Turn::IsQueued(t, m) => core.status(thread(t)) == Some(Status::Queued(mutex(m))),
        Turn::IsParked(t, c) => core.status(thread(t)) == Some(Status::Parked(cond(c))),
        Turn::Waiting(t, rests) => core.waiting(thread(t)) == rests,
        Turn::Open(t, wish) => core.open_call(thread(t)) == Some(request(wish)),
        Turn::IsIdle(t) => core.open_call(thread(t)).is_none(),
        Turn::Path(t, numbers) => have(core.path(thread(t)).as_slice(), numbers),
        _ => false,
    }
}

/// Whether these threads have these numbers.
fn have(threads: &[Tid], numbers: &[u32]) -> bool {
    for (thread, number) in threads.iter().zip(numbers.iter()) {
        if thread.get() != *number {
            return false;
        }
    }
    threads.len() == numbers.len()
}

/// What happens to a core with mutex 1 of this kind, robust or stalled, and with threads of these priorities.
pub struct Scene {
    pub name: &'static str,
    pub kind: Kind,
    pub robust: bool,
    pub levels: &'static [u32],
    pub turns: &'static [Turn],
}

/// The turns of a scene go as they say. The value is 5 at first.
fn play(rt: &impl Abort, core: &mut Core, scene: &Scene) -> Result<(), AddFault> {
    let mut value = 5;
    let _mutex = core.add_mutex(scene.kind, scene.robust)?;
    for level in scene.levels {
        let _thread = core.add_thread(*level)?;
    }
    for (place, turn) in scene.turns.iter().enumerate() {
        let goes = goes(core, &mut value, *turn);
        assert!(rt; goes, "another answer at row {place} of {}", scene.name);
    }
    Ok(())
}

#[test]
fn turns_of_a_core_go_as_they_say(rt: HostRuntime) -> Result<(), Fail> {
    let tables: [&[Scene]; 3] = [&cores::SCENES, &uses::SCENES, &ways_out::SCENES];
    for scenes in tables {
        for scene in scenes {
            let mut core = Core::new(rt.alloc(), Limits::new(4, 2, 1, 2).unwrap())?;
            play(&rt, &mut core, scene)?;
        }
    }
    Ok(())
}
