//! The POSIX machine beside a core, on random events: calls in any interleaving, ends at any point, and time that goes
//! on. After each event the machine may be in a state in which the answers are those of the core, and so are the
//! effective priority of each thread and whether it rests. If calls come one after the other, each answer is the only
//! one that the machine allows.
use super::cloud::{Cloud, Sight};
use super::numbers::{cond, mutex, thread};
use pif_core::{Core, Entry, Event, Seen};
use pif_posix_steps::HistoryLimits;
use pif_search::Stop;
use pif_types::{CondId, Kind, Limits, MutexId, Prio, Request, Tid};
use rand_core::{Rng, SeedableRng};
use rand_xoshiro::SplitMix64;
use std::alloc::Global;
use std::process::Abort;

const THREADS: u32 = 4;

const MUTEXES: u32 = 3;

/// The limits of the core and of the machine.
const LIMITS: HistoryLimits = HistoryLimits {
    threads: THREADS,
    mutexes: MUTEXES,
    conds: 2,
    signals: 6,
};

/// How events come.
#[derive(Clone, Copy, PartialEq)]
enum Mode {
    /// Calls overlap, and go on step by step.
    Overlapping,
    /// Calls come one after the other. One that waits stays open.
    Whole,
}

/// How much was seen.
#[derive(Clone, Copy)]
struct Seens {
    answers: u32,
    /// The most states in which the machine may have been.
    states: usize,
}

/// A random list of events: a core, the machine, and what draws events.
#[derive(Drop)]
struct Scene {
    core: Core,
    cloud: Cloud,
    rng: SplitMix64,
    mode: Mode,
}

/// Adds mutexes of random kinds, two variables, and threads of random priorities, of which many are equal, to both.
fn fill(scene: &mut Scene) -> Result<(), Stop> {
    let Scene {
        core,
        cloud,
        rng,
        ..
    } = scene;
    for _ in 0..MUTEXES {
        let kind = match rng.next_u32() % 3 {
            0 => Kind::Normal,
            1 => Kind::Recursive,
            _ => Kind::ErrorCheck,
        };
        let robust = rng.next_u32() % 2 == 0;
        let added = match core.add_mutex(kind, robust) {
            Ok(mutex) => Some(Entry::Mutex(mutex, kind, robust)),
            Err(_) => None,
        };
        enter_added(cloud, added)?;
    }
    for mutex in [mutex(1), mutex(2)] {
        let added = match core.add_cond(mutex) {
            Ok(cond) => Some(Entry::Cond(cond, mutex)),
            Err(_) => None,
        };
        enter_added(cloud, added)?;
    }
    for _ in 0..THREADS {
        let level = 1 + rng.next_u32() % 4 * 15;
        let added = match (core.add_thread(level), Prio::new(level)) {
            (Ok(thread), Some(prio)) => Some(Entry::Thread(thread, prio)),
            _ => None,
        };
        enter_added(cloud, added)?;
    }
    Ok(())
}

/// What a core has added, the machine adds too.
fn enter_added(cloud: &mut Cloud, added: Option<Entry>) -> Result<(), Stop> {
    match added {
        Some(entry) => cloud.enter(&entry),
        None => Err(Stop::NoMemory),
    }
}

/// A random request on these.
fn request(rng: &mut SplitMix64, mutex: MutexId, cond: CondId, time: u32) -> Request {
    let deadline = time.saturating_add(rng.next_u32() % 3);
    match rng.next_u32() % 24 {
        0..=6 => Request::Lock(mutex),
        7 | 8 => Request::TryLock(mutex),
        9 => Request::TimedLock(mutex, deadline),
        10..=12 => Request::Unlock(mutex),
        13 => Request::Consistent(mutex),
        14..=17 => Request::Wait(cond, mutex),
        18 => Request::TimedWait(cond, mutex, deadline),
        19 | 20 => Request::Signal(cond),
        21 | 22 => Request::Broadcast(cond),
        _ => Request::SetPrio(
            thread(1 + rng.next_u32() % THREADS),
            rng.next_u32() % 9 * 12,
        ),
    }
}

/// A random event.
fn random_event(scene: &mut Scene) -> Event {
    let thread = thread(1 + scene.rng.next_u32() % THREADS);
    let mutex = mutex(1 + scene.rng.next_u32() % MUTEXES);
    let cond = cond(1 + scene.rng.next_u32() % 2);
    let time = scene.core.time();
    match scene.rng.next_u32() % 48 {
        0 => Event::End(thread),
        1 | 2 => Event::Tick(time.saturating_add(1)),
        3 => Event::Tick(time.saturating_sub(1)),
        4..=20 => Event::Begin(thread, request(&mut scene.rng, mutex, cond, time)),
        _ => Event::Go(thread),
    }
}

/// A thread goes on in both, and any moves of it happen, also of those that its open call may wake. What the core
/// answered, the machine allows.
fn go(rt: &impl Abort, scene: &mut Scene, thread: Tid, seens: &mut Seens) -> Result<Seen, Stop> {
    let wakes = match scene.core.open_call(thread) {
        Some(Request::Signal(_)) | Some(Request::Broadcast(_)) => true,
        _ => false,
    };
    let seen = scene.core.step(Event::Go(thread));
    if let Seen::Refused(refusal) = seen {
        let sight = Sight::Refused(Event::Go(thread), refusal);
        scene.cloud.keep(&sight);
        return Ok(seen);
    }
    let own = [thread.get()];
    let moving: &[u32] = if wakes { &[1, 2, 3, 4] } else { &own };
    scene.cloud.close(moving)?;
    if let Seen::Answered(answer) = seen {
        see_answer(rt, scene, thread, answer, seens)?;
    } else {
        let sight = Sight::Rests(thread.get(), seen == Seen::Waits);
        scene.cloud.keep(&sight);
    }
    Ok(seen)
}

/// The call of a thread was answered this, and is closed.
fn see_answer(
    rt: &impl Abort,
    scene: &mut Scene,
    thread: Tid,
    answer: u32,
    seens: &mut Seens,
) -> Result<(), Stop> {
    let others = scene.cloud.others(thread, answer)?;
    assert!(rt;
        others == 0 || scene.mode == Mode::Overlapping,
        "{others} other answers"
    );
    seens.answers = seens.answers.saturating_add(1);
    scene
        .cloud
        .enter(&Entry::Step(Event::Go(thread), Seen::Answered(answer)))
}

/// A thread goes on. If calls are whole, it does so until its call is answered or waits.
fn go_on(rt: &impl Abort, scene: &mut Scene, thread: Tid, seens: &mut Seens) -> Result<(), Stop> {
    for _ in 0..24 {
        if go(rt, scene, thread, seens)? != Seen::Went || scene.mode == Mode::Overlapping {
            return Ok(());
        }
    }
    Err(Stop::Range)
}

/// An event happens in both. If calls are whole, one that begins goes on.
fn see(rt: &impl Abort, scene: &mut Scene, event: &Event, seens: &mut Seens) -> Result<(), Stop> {
    if let Event::Go(thread) = *event {
        return go_on(rt, scene, thread, seens);
    }
    let seen = scene.core.step(*event);
    match seen {
        Seen::Refused(refusal) => scene.cloud.keep(&Sight::Refused(*event, refusal)),
        _ => scene.cloud.enter(&Entry::Step(*event, seen))?,
    }
    match *event {
        Event::Begin(thread, _) if seen == Seen::Begun && scene.mode == Mode::Whole => {
            go_on(rt, scene, thread, seens)
        }
        _ => Ok(()),
    }
}

/// What the core says of a thread, the machine says too.
fn compare(scene: &mut Scene, thread: Tid) {
    // The check has to be told of the type of events, which entries hold.
    let _event: Option<Event> = None;
    if let Some(prio) = scene.core.effective(thread) {
        let sight = Sight::Effective(thread.get(), prio.get());
        scene.cloud.keep(&sight);
    }
    // Once the deadline of its open call is reached, the core says that it may go on.
    let is_late = match scene.core.open_call(thread) {
        Some(Request::TimedLock(_, deadline) | Request::TimedWait(_, _, deadline)) => {
            deadline <= scene.core.time()
        }
        _ => false,
    };
    if let Some(rests) = scene.core.waiting(thread)
        && (rests || !is_late)
    {
        scene.cloud.keep(&Sight::Rests(thread.get(), rests));
    }
}

/// A random event happens, and both are compared.
fn play_event(rt: &impl Abort, scene: &mut Scene, seens: &mut Seens) -> Result<(), Stop> {
    let event = random_event(scene);
    see(rt, scene, &event, seens)?;
    for number in 1..THREADS + 1 {
        compare(scene, thread(number));
    }
    seens.states = usize::max(seens.states, scene.cloud.states.len());
    Ok(())
}

/// Plays a list of so many random events.
fn play_list(
    rt: &impl Abort,
    alloc: Global,
    seed: u64,
    mode: Mode,
    seens: &mut Seens,
) -> Result<(), Stop> {
    // The check has to be told of the type of events, which entries hold.
    let _event: Option<Event> = None;
    let limits = Limits::new(LIMITS.threads, LIMITS.mutexes, LIMITS.conds, LIMITS.signals);
    let mut scene = Scene {
        core: Core::new(alloc, limits.unwrap()).or(Err(Stop::NoMemory))?,
        cloud: Cloud::new(alloc, LIMITS)?,
        rng: SplitMix64::seed_from_u64(seed),
        mode,
    };
    play_events(rt, &mut scene, seed, seens)
}

fn play_events(
    rt: &impl Abort,
    scene: &mut Scene,
    seed: u64,
    seens: &mut Seens,
) -> Result<(), Stop> {
    fill(scene)?;
    for at in 0..50 {
        play_event(rt, scene, seens)?;
        assert!(rt;
            scene.cloud.states.len() > 0,
            "seed {seed}: not possible at event {at}"
        );
    }
    Ok(())
}

/// How events come, how many lists are played, and how many answers and states are seen at least. Whole calls have no
/// other answer.
const PLAYED: [(Mode, u64, u32, usize); 2] = [
    (Mode::Overlapping, 20, 40, 4),
    (Mode::Whole, 10, 100, 1),
];

#[test]
fn answers_of_a_core_are_possible(rt: HostRuntime) -> Result<(), Stop> {
    for (mode, lists, answers, states) in PLAYED {
        let mut seens = Seens {
            answers: 0,
            states: 0,
        };
        for seed in 0..lists {
            play_list(&rt, rt.alloc(), seed, mode, &mut seens)?;
        }
        assert!(rt;
            seens.answers >= answers && seens.states >= states,
            "{} answers, {} states",
            seens.answers,
            seens.states
        );
    }
    Ok(())
}
