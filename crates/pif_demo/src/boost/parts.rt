use super::course::{Course, WaitCounter};
use super::{Failure, PRIORITIES, ROUNDS};
use pif_desk::{Book, Client, Desk, DeskFault};
use pif_types::{Kind, Limits, MutexId, Request};
use std::alloc::Global;
use std::sync::Wait;
use std::thread;
use std::thread::Threads;

/// How often middle locks and unlocks its mutex in each round.
pub const PAIRS: u32 = 5;

/// How often a client asks to end while that is refused for memory.
const TRIES: u32 = 1_000;

/// Makes a call.
fn make<R: Wait>(
    rt: &R,
    desk: &Desk<WaitCounter<'_>>,
    client: &mut Client,
    request: Request,
) -> Result<(), DeskFault> {
    match client.call(rt, desk, request) {
        Ok(_) => Ok(()),
        Err(fault) => Err(fault),
    }
}

/// What a thread does in each round: it locks and unlocks a mutex so many times. Low holds it until high waits for it.
#[derive(Clone, Copy)]
struct Part {
    low: bool,
    mutex: MutexId,
    pairs: u32,
}

/// Locks the mutex of a part and unlocks it.
fn make_pair<R: Wait>(
    rt: &R,
    course: &Course,
    desk: &Desk<WaitCounter<'_>>,
    client: &mut Client,
    part: &Part,
    round: u32,
) -> Result<(), DeskFault> {
    make(rt, desk, client, Request::Lock(part.mutex))?;
    if part.low {
        course.hold(rt, round);
    }
    make(rt, desk, client, Request::Unlock(part.mutex))
}

/// Plays a part in all rounds, or until the threads are to end.
fn play_part<R: Wait>(
    rt: &R,
    course: &Course,
    desk: &Desk<WaitCounter<'_>>,
    client: &mut Client,
    part: &Part,
) -> Result<(), DeskFault> {
    for round in 0..ROUNDS {
        if !course.begins(rt, part.low, round) {
            break;
        }
        for _pair in 0..part.pairs {
            make_pair(rt, course, desk, client, part, round)?;
        }
        if !part.low {
            course.end_part();
        }
    }
    Ok(())
}

/// A client ends, so that no other waits for its mutex.
fn leave<R: Wait>(rt: &R, desk: &Desk<WaitCounter<'_>>, client: &mut Client) {
    for _try in 0..TRIES {
        match client.quit(rt, desk) {
            Err(DeskFault::NoMemory) => {}
            _ => return,
        }
    }
}

/// Which mutex a thread has: low and high share one, and middle has one of its own.
#[derive(Clone, Copy)]
struct Mutexes {
    shared: MutexId,
    own: MutexId,
}

/// The part of the thread with this number: low is 1, middle 2, and high 3.
fn part_of(thread: u32, mutexes: &Mutexes) -> Part {
    let (mutex, pairs) = match thread {
        2 => (mutexes.own, PAIRS),
        _ => (mutexes.shared, 1),
    };
    Part {
        low: thread == 1,
        mutex,
        pairs,
    }
}

/// Plays the part of a client to its end. If it meets a fault, its thread ends, and all are to end.
fn play<R: Wait>(
    rt: &R,
    course: &Course,
    desk: &Desk<WaitCounter<'_>>,
    client: &mut Client,
    mutexes: &Mutexes,
) {
    let part = part_of(client.thread().get(), mutexes);
    if let Err(fault) = play_part(rt, course, desk, client, &part) {
        leave(rt, desk, client);
        course.fail(rt, Failure::Thread(fault));
    }
}

/// Each client plays in a thread of its own. All threads have ended when this returns.
fn play_all<R: Threads + Wait + Sync>(
    rt: &R,
    course: &Course,
    desk: &Desk<WaitCounter<'_>>,
    clients: &mut [Client],
    mutexes: &Mutexes,
) {
    thread::scope(thread::scope_env(), rt, |scope| {
        for client in clients {
            if scope
                .spawn(move || play(rt, course, desk, client, mutexes))
                .is_err()
            {
                course.fail(rt, Failure::Start);
                return;
            }
        }
    });
}

/// A client enters the desk with this priority, behind the others.
fn enter_one<R: Wait>(
    rt: &R,
    desk: &Desk<WaitCounter<'_>>,
    prio: u32,
    clients: &mut Vec<Client>,
) -> Result<(), DeskFault> {
    match desk.enter(rt, prio) {
        Ok(client) => match clients.push(client) {
            Ok(()) => Ok(()),
            Err(_) => Err(DeskFault::NoMemory),
        },
        Err(fault) => Err(fault),
    }
}

/// Low, middle and high enter the desk, and it gets their mutexes.
fn enter_all<R: Wait>(
    rt: &R,
    desk: &Desk<WaitCounter<'_>>,
    clients: &mut Vec<Client>,
) -> Result<Mutexes, DeskFault> {
    for prio in PRIORITIES {
        enter_one(rt, desk, prio, clients)?;
    }
    let shared = desk.make_mutex(rt, Kind::ErrorCheck, true)?;
    let own = desk.make_mutex(rt, Kind::ErrorCheck, true)?;
    Ok(Mutexes { shared, own })
}

/// Three clients enter a desk and play all rounds.
fn play_at<R: Threads + Wait + Sync>(
    rt: &R,
    course: &Course,
    desk: &Desk<WaitCounter<'_>>,
    clients: &mut Vec<Client>,
) -> Result<(), Failure> {
    match enter_all(rt, desk, clients) {
        Ok(mutexes) => {
            play_all(rt, course, desk, clients.as_mut_slice(), &mutexes);
            course.outcome(rt)
        }
        Err(fault) => Err(Failure::Desk(fault)),
    }
}

/// A desk settles with its clients.
fn settle(desk: Desk<WaitCounter<'_>>, clients: Vec<Client>) -> Result<Book, Failure> {
    match desk.into_room().settle(clients) {
        Ok(book) => Ok(book),
        Err(_) => Err(Failure::Unsettled),
    }
}

/// All rounds at this desk, which then settles with the clients.
fn run_at<R: Threads + Wait + Sync>(
    rt: &R,
    alloc: Global,
    course: &Course,
    desk: Desk<WaitCounter<'_>>,
) -> Result<Book, Failure> {
    let mut clients = Vec::new(alloc);
    match play_at(rt, course, &desk, &mut clients) {
        Ok(()) => settle(desk, clients),
        Err(failure) => Err(failure),
    }
}

/// All rounds at a desk, which then settles with the clients.
pub fn run_desk<R: Threads + Wait + Sync>(
    rt: &R,
    alloc: Global,
    course: &Course,
) -> Result<Book, Failure> {
    let Some(limits) = Limits::new(3, 2, 0, 1) else {
        return Err(Failure::Limits);
    };
    match Desk::new(alloc, limits, WaitCounter { course }) {
        Ok(desk) => run_at(rt, alloc, course, desk),
        Err(_) => Err(Failure::Desk(DeskFault::NoMemory)),
    }
}
