//! Calls of real threads at a desk.
use crate::moments::{now, thousands, time_since};
use pif_desk::{Client, Desk, NoPause};
use pif_types::{Kind, Limits, MutexId, Request};
use std::alloc::Global;
use std::rt::Clock;
use std::sync::Wait;
use std::thread;
use std::thread::Threads;
use std::time::Duration;

/// How many pairs of a lock and an unlock all threads make together.
pub const PAIRS: u32 = 48_000;

/// Which mutexes the threads lock.
#[derive(Clone, Copy)]
pub enum Mutexes {
    /// Each one of its own.
    Own,
    /// All the same.
    One,
}

/// A thread that is to run: its client, and the mutex that it locks and unlocks so many times.
#[derive(Drop)]
struct Player {
    client: Client,
    mutex: MutexId,
    pairs: u32,
}

/// Makes a call. Answers whether it met no fault.
fn is_answered<R: Wait>(
    rt: &R,
    desk: &Desk<NoPause>,
    client: &mut Client,
    request: Request,
) -> bool {
    client.call(rt, desk, request).is_ok()
}

/// Locks and unlocks the mutex, so many times. If a call meets a fault, it makes no more.
fn make_pairs<R: Wait>(
    rt: &R,
    desk: &Desk<NoPause>,
    client: &mut Client,
    mutex: MutexId,
    pairs: u32,
) {
    for _pair in 0..pairs {
        if !is_answered(rt, desk, client, Request::Lock(mutex)) {
            return;
        }
        if !is_answered(rt, desk, client, Request::Unlock(mutex)) {
            return;
        }
    }
}

/// What a thread does.
fn play<R: Wait>(rt: &R, desk: &Desk<NoPause>, player: Player) -> Client {
    let Player {
        mut client,
        mutex,
        pairs,
    } = player;
    make_pairs(rt, desk, &mut client, mutex, pairs);
    client
}

/// A mutex more of a desk. `None` if the desk doesn't add it.
fn make_mutex<R: Wait>(rt: &R, desk: &Desk<NoPause>) -> Option<MutexId> {
    desk.make_mutex(rt, Kind::Normal, false).ok()
}

/// Adds one player more, which makes so many pairs on this mutex. `None` if there is no mutex, or the desk doesn't let
/// the player in.
fn enter_one<R: Wait>(
    rt: &R,
    desk: &Desk<NoPause>,
    mutex: Option<MutexId>,
    pairs: u32,
    players: &mut Vec<Player>,
) -> Option<()> {
    match (mutex, desk.enter(rt, 10)) {
        (Some(mutex), Ok(client)) => {
            let player = Player {
                client,
                mutex,
                pairs,
            };
            players.push(player).ok()
        }
        _ => None,
    }
}

/// Adds so many players, which make the pairs together, each on a mutex of its own or all on one.
fn enter_all<R: Wait>(
    rt: &R,
    desk: &Desk<NoPause>,
    mutexes: Mutexes,
    threads: u32,
    players: &mut Vec<Player>,
) -> Option<()> {
    let pairs = PAIRS / threads.max(1);
    let shared = make_mutex(rt, desk);
    for _thread in 0..threads {
        let mutex = match mutexes {
            Mutexes::One => shared,
            Mutexes::Own => make_mutex(rt, desk),
        };
        enter_one(rt, desk, mutex, pairs, players)?;
    }
    Some(())
}

/// Each player runs in a thread of its own, and gives its client back. Tells the time in which the threads ran. `None`
/// if memory is refused or a thread can't be started.
fn play_all<R: Clock + Threads + Wait + Sync>(
    rt: &R,
    desk: &Desk<NoPause>,
    players: Vec<Player>,
    time: &mut Option<Duration>,
) -> Option<Vec<Client>> {
    let start = now(rt);
    let clients = thread::map_vec(rt, players, &|player| play(rt, desk, player)).ok();
    *time = time_since(rt, start);
    clients
}

/// So many players enter a desk and run. Answers their clients, and tells the time in which the threads ran.
fn run_at<R: Clock + Threads + Wait + Sync>(
    rt: &R,
    alloc: Global,
    desk: &Desk<NoPause>,
    mutexes: Mutexes,
    threads: u32,
    time: &mut Option<Duration>,
) -> Option<Vec<Client>> {
    let mut players = Vec::new(alloc);
    match enter_all(rt, desk, mutexes, threads, &mut players) {
        Some(()) => play_all(rt, desk, players, time),
        None => None,
    }
}

/// A desk settles with these clients, whose threads ran for such a time: how many thousand entries its journal has for
/// each second of it. `None` if it doesn't settle, or the time isn't known.
fn settle(desk: Desk<NoPause>, clients: Vec<Client>, time: Option<Duration>) -> Option<u64> {
    match desk.into_room().settle(clients) {
        Ok(book) => thousands(book.entries.len() as u64, time),
        Err(_) => None,
    }
}

/// So many threads lock and unlock mutexes at this desk, which then settles.
fn measure_at<R: Clock + Threads + Wait + Sync + AllocGlobal>(
    rt: &R,
    desk: Desk<NoPause>,
    mutexes: Mutexes,
    threads: u32,
) -> Option<u64> {
    let mut time = None;
    match run_at(rt, rt.alloc(), &desk, mutexes, threads, &mut time) {
        Some(clients) => settle(desk, clients, time),
        None => None,
    }
}

/// So many threads lock and unlock mutexes at a desk, which then settles: how many thousand entries its journal has for
/// each second in which the threads ran. `None` if memory is refused, a thread can't be started, the clock has a fault,
/// or the desk doesn't settle.
pub fn measure_desk<R: Clock + Threads + Wait + Sync + AllocGlobal>(
    rt: &R,
    mutexes: Mutexes,
    threads: u32,
) -> Option<u64> {
    let limits = Limits::new(threads, threads.saturating_add(1), 0, 1)?;
    match Desk::new(rt.alloc(), limits, NoPause) {
        Ok(desk) => measure_at(rt, desk, mutexes, threads),
        Err(_) => None,
    }
}
