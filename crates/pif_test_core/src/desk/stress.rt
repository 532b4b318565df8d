//! Eight real threads on three robust mutexes and a condition variable, one that wakes them, and then calls that end at
//! each of their steps.
use super::deeds::{Deed, call};
use super::scenes::{EMPTY, End, Scene, Turn};
use super::watch::Watch;
use crate::chance::next;
use crate::driver::{Wish, request};
use pif_desk::{Act, Client, Desk, DeskFault, Room, Seen};
use pif_types::{Kind, NoMemory};
use std::process::Abort;
use std::sync::Wait;
use std::sync::atomic::Ordering;

/// How many clients make calls by chance.
const THREADS: u32 = 8;

/// How many calls each of them makes.
const CALLS: u32 = 200;

/// After how many steps less than this a client ends inside a call.
const STEPS: u32 = 19;

/// The request that a number stands for, with one of three mutexes.
fn wish_of(seed: u64) -> Wish {
    let mutex = 1 + ((seed >> 33) % 3) as u32;
    match (seed >> 50) % 8 {
        0 | 1 => Wish::Lock(mutex),
        2 => Wish::Wait(1, mutex),
        3 => Wish::TryLock(mutex),
        4 => Wish::Consistent(mutex),
        _ => Wish::Unlock(mutex),
    }
}

/// A client makes calls by chance.
pub(super) fn make_calls<R: Wait + Abort>(
    rt: &R,
    desk: &Desk<Watch>,
    client: &mut Client,
) -> Result<u32, DeskFault> {
    let mut seed = u64::from(client.thread().get());
    for _ in 0..CALLS {
        seed = next(seed);
        call(rt, desk, client, wish_of(seed))?;
    }
    Ok(0)
}

/// Gives up each mutex that the client holds.
pub(super) fn give_up_all<R: Wait + Abort>(
    rt: &R,
    desk: &Desk<Watch>,
    client: &mut Client,
) -> Result<u32, DeskFault> {
    for mutex in 1..=3u32 {
        for _ in 0..300 {
            if call(rt, desk, client, Wish::Unlock(mutex))? != 0 {
                break;
            }
        }
    }
    Ok(0)
}

/// Broadcasts until all others are done, so that no wait stays open.
pub(super) fn wake_others<R: Wait + Abort>(
    rt: &R,
    desk: &Desk<Watch>,
    client: &mut Client,
) -> Result<u32, DeskFault> {
    for _ in rt.forever() {
        if desk.pause().ends.load(Ordering::SeqCst) >= THREADS {
            break;
        }
        call(rt, desk, client, Wish::Broadcast(1))?;
    }
    Ok(0)
}

/// A client begins a call and takes so many steps of it.
fn play(room: &mut Room, client: &mut Client, wish: Wish, steps: u32) -> Result<(), NoMemory> {
    room.play(client, Act::Begin(request(wish)))?;
    for _ in 0..steps {
        room.play(client, Act::Go)?;
    }
    Ok(())
}

/// A client ends, unless it has ended. Each of those that have made no call does so one step later in a call than the
/// one before: the first in a lock, the others, which take the mutex first, in a wait.
pub(super) fn end_inside(room: &mut Room, client: &mut Client) -> Result<Seen, NoMemory> {
    let Some(begun) = client.thread().get().checked_sub(THREADS + 2) else {
        return Ok(Seen::Ended);
    };
    let in_lock = if begun < STEPS { begun } else { 24 };
    play(room, client, Wish::Lock(1), in_lock)?;
    if begun >= STEPS {
        play(room, client, Wish::Wait(1, 1), begun % STEPS)?;
    }
    room.play(client, Act::End)
}

/// Three mutexes with a variable, and the clients: those that make calls by chance, of which an odd one gives up what
/// it holds before it quits; one that wakes them; and 38 that end inside calls then.
pub(super) static SCENES: [Scene; 1] = [Scene {
    name: "eight_threads_settle",
    limits: [64, 3, 1, u32::MAX],
    before: &[
        (0, Deed::Mutex(Kind::ErrorCheck, true), Ok(1)),
        (0, Deed::Mutex(Kind::Recursive, true), Ok(2)),
        (0, Deed::Mutex(Kind::ErrorCheck, true), Ok(3)),
        (0, Deed::Cond(1), Ok(1)),
        (0, Deed::Enter(47, 10), Ok(47)),
    ],
    beside: &[
        (1, Deed::Chance, Ok(0)),
        (1, Deed::GiveUp, Ok(0)),
        (1, Deed::Quit, Ok(0)),
        (2, Deed::Chance, Ok(0)),
        (2, Deed::Quit, Ok(0)),
        (3, Deed::Chance, Ok(0)),
        (3, Deed::GiveUp, Ok(0)),
        (3, Deed::Quit, Ok(0)),
        (4, Deed::Chance, Ok(0)),
        (4, Deed::Quit, Ok(0)),
        (5, Deed::Chance, Ok(0)),
        (5, Deed::GiveUp, Ok(0)),
        (5, Deed::Quit, Ok(0)),
        (6, Deed::Chance, Ok(0)),
        (6, Deed::Quit, Ok(0)),
        (7, Deed::Chance, Ok(0)),
        (7, Deed::GiveUp, Ok(0)),
        (7, Deed::Quit, Ok(0)),
        (8, Deed::Chance, Ok(0)),
        (8, Deed::Quit, Ok(0)),
        (9, Deed::WakeOthers, Ok(0)),
        (9, Deed::Quit, Ok(0)),
    ],
    // Then each client ends inside a call, if it has not ended, and all settle.
    inside: &[(Turn::Dies, Seen::Ended)],
    ends: End::Settles,
    told: ("", 0),
    ..EMPTY
}];
