use super::{chains, conditions, hand_overs, robust};
use crate::moments::{now, picoseconds_each};
use pif_core::{Core, Event};
use pif_types::{Kind, Limits, MutexId, Request, Tid};
use std::alloc::Global;
use std::rt::Clock;

/// How many cores are made.
const CORES: u32 = 100;

/// How many condition variables there may be.
const MOST_VARIABLES: u32 = 256;

/// How many threads wait for one mutex, if many do.
pub const WAITING: u32 = 1000;

/// The limits of a core.
#[derive(Clone, Copy)]
pub enum Room {
    /// As many threads and mutexes as are added, and a condition variable for each mutex, up to the most there may be.
    Tight,
    /// The default limits of scripts.
    Default,
}

/// What threads do on a core.
#[derive(Clone, Copy)]
pub enum Scene {
    /// A mutex is handed over.
    HandOver,
    /// The step of a hand-over that enters the kernel.
    KernelStep,
    /// Two threads pass a mutex on.
    Round,
    /// A thousand threads of many priorities wait for one mutex.
    QueueRandom,
    /// The last thread joins a chain of so many.
    LastLock(u32),
    /// The priority of the last thread of a chain of so many changes.
    NewPriority(u32),
    /// A mutex is locked and unlocked, a robust one or a stalled one.
    Pair(bool),
    /// A thread that holds so many robust mutexes ends, and for each of them another waits, or none does.
    End(u32, bool),
    /// A thread waits on a condition variable among so many, and another signals it.
    WaitAndSignal(u32),
    /// A broadcast to so many parked threads, whose caller holds their mutex or not.
    Broadcast(u32, bool),
}

/// How many threads and mutexes a scene has, and how many times what is measured is done there, a broadcast once.
#[derive(Clone, Copy)]
struct Cast {
    threads: u32,
    mutexes: u32,
    times: u32,
}

/// The cast of a scene.
fn cast_of(scene: Scene) -> Cast {
    let (threads, mutexes, times) = match scene {
        Scene::HandOver | Scene::QueueRandom => (WAITING + 1, 1, WAITING),
        Scene::KernelStep => (
            2 * hand_overs::HOLDERS,
            hand_overs::HOLDERS,
            hand_overs::HOLDERS,
        ),
        Scene::Round => (2, 1, chains::ROUNDS),
        Scene::LastLock(depth) => {
            let before = depth.saturating_sub(1);
            (before.saturating_add(chains::JOINS), before, chains::JOINS)
        }
        Scene::NewPriority(depth) => (depth, depth, chains::CHANGES),
        Scene::Pair(_) => (1, 1, robust::PAIRS),
        Scene::End(held, contended) => {
            let holders = robust::holders_of(held);
            let mutexes = holders.saturating_mul(held);
            let waiters = if contended { mutexes } else { 0 };
            (holders.saturating_add(waiters), mutexes, holders)
        }
        Scene::WaitAndSignal(parked) => (parked.saturating_add(1), 1, conditions::WAITS),
        Scene::Broadcast(parked, _) => (parked.saturating_add(1), 1, 1),
    };
    Cast {
        threads,
        mutexes,
        times,
    }
}

/// The limits of a room for so many threads and mutexes.
fn limits_of(room: Room, threads: u32, mutexes: u32) -> Option<Limits> {
    match room {
        Room::Tight => Limits::new(threads, mutexes, mutexes.min(MOST_VARIABLES), u32::MAX),
        Room::Default => Limits::new(1024, 1024, 256, u32::MAX),
    }
}

/// Adds the threads, mutexes and condition variables of a scene to a core. `None` if the core has no room for them.
fn fill(core: &mut Core, scene: Scene, cast: &Cast) -> Option<()> {
    let last = if matches!(scene, Scene::Round | Scene::NewPriority(_)) {
        99
    } else {
        1
    };
    for number in 1..=cast.threads {
        let prio = if number == cast.threads { last } else { 1 };
        core.add_thread(prio).ok()?;
    }
    let robust = matches!(scene, Scene::Pair(true) | Scene::End(_, _));
    for _mutex in 0..cast.mutexes {
        core.add_mutex(Kind::Normal, robust).ok()?;
    }
    if matches!(scene, Scene::WaitAndSignal(_) | Scene::Broadcast(_, _)) {
        core.add_cond(MutexId::default()).ok()?;
    }
    Some(())
}

/// Does what comes before what is measured.
fn prepare(core: &mut Core, scene: Scene) {
    match scene {
        Scene::HandOver => lock_by(core, 1, WAITING + 1, 1),
        Scene::KernelStep => hand_overs::come_to_the_kernel(core),
        Scene::Round => lock(core, 1, 1),
        Scene::QueueRandom => chains::scatter(core, WAITING + 1),
        Scene::LastLock(depth) => chains::prepare_joins(core, depth.saturating_sub(1)),
        Scene::NewPriority(depth) => chains::make_chain(core, depth),
        Scene::Pair(_) => {}
        Scene::End(held, contended) => robust::prepare_ends(core, held, contended),
        Scene::WaitAndSignal(parked) | Scene::Broadcast(parked, _) => conditions::park_all(
            core, parked,
        ),
    }
}

/// Does what is measured, unless it is a broadcast, of which each is measured alone.
fn play(core: &mut Core, scene: Scene) {
    match scene {
        Scene::HandOver => hand_overs::hand_over(core),
        Scene::KernelStep => hand_overs::step_in_the_kernel(core),
        Scene::Round => chains::pass_on(core),
        Scene::QueueRandom => lock_by(core, 2, WAITING + 1, 1),
        Scene::LastLock(depth) => lock_by(
            core,
            depth,
            depth.saturating_add(chains::JOINS - 1),
            depth.saturating_sub(1),
        ),
        Scene::NewPriority(depth) => chains::set_prio(core, depth),
        Scene::Pair(_) => robust::make_pairs(core),
        Scene::End(held, _) => robust::end(core, held),
        Scene::WaitAndSignal(parked) => conditions::wait_and_signal(core, parked),
        Scene::Broadcast(_, _) => {}
    }
}

/// Runs a scene on a core to which nothing was added. Answers how many picoseconds what it measures took each time.
fn time_scene(rt: &impl Clock, core: &mut Core, scene: Scene, cast: &Cast) -> Option<u64> {
    fill(core, scene, cast)?;
    prepare(core, scene);
    if let Scene::Broadcast(parked, held) = scene {
        return conditions::time_broadcasts(rt, core, parked, held);
    }
    let start = now(rt);
    play(core, scene);
    picoseconds_each(rt, start, cast.times)
}

/// Runs a scene on a core with such limits. Answers how many picoseconds what it measures took.
pub fn picoseconds_on_core(
    rt: &(impl Clock + AllocGlobal),
    room: Room,
    scene: Scene,
) -> Option<u64> {
    let cast = cast_of(scene);
    let limits = limits_of(room, cast.threads, cast.mutexes)?;
    match Core::new(rt.alloc(), limits) {
        Ok(mut core) => time_scene(rt, &mut core, scene, &cast),
        Err(_) => None,
    }
}

/// Makes a core, which ends. False if memory is refused.
fn makes_core(alloc: Global, limits: Limits) -> bool {
    Core::new(alloc, limits).is_ok()
}

/// Makes cores with the default limits of scripts. Answers how many picoseconds each took, with its end.
pub fn new_core(rt: &(impl Clock + AllocGlobal)) -> Option<u64> {
    let limits = limits_of(Room::Default, 0, 0)?;
    let start = now(rt);
    for _core in 0..CORES {
        if !makes_core(rt.alloc(), limits) {
            return None;
        }
    }
    picoseconds_each(rt, start, CORES)
}

/// The thread of this number; thread 1 for 0.
pub fn thread(number: u32) -> Tid {
    Tid::new(number).unwrap_or_default()
}

/// The mutex of this number; mutex 1 for 0.
pub fn mutex(number: u32) -> MutexId {
    MutexId::new(number).unwrap_or_default()
}

/// A thread makes a call, up to its answer or its rest. What the core promises of it is not handed on: no benchmark
/// asks for it.
pub fn call(core: &mut Core, thread: Tid, request: Request) {
    core.call(thread, request);
}

/// A core makes one event. What the core promises of it is not handed on either.
pub fn step(core: &mut Core, event: Event) {
    core.step(event);
}

/// The thread of this number locks the mutex of that number.
pub fn lock(core: &mut Core, thread_number: u32, mutex_number: u32) {
    call(
        core,
        thread(thread_number),
        Request::Lock(mutex(mutex_number)),
    );
}

/// The threads from one number up to another, one after another, lock the mutex of that number.
fn lock_by(core: &mut Core, first: u32, last: u32, mutex_number: u32) {
    let locked = mutex(mutex_number);
    for number in first..=last {
        call(core, thread(number), Request::Lock(locked));
    }
}
