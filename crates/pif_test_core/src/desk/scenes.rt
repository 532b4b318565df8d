//! Scenes at a desk, each a table of what is done there.
use super::deeds::{DeedCase, NO_MEMORY, serve, take};
use super::stress;
use super::watch::Watch;
use crate::driver::{Wish, request};
use arrayvec::ArrayVec;
use pif_desk::{Act, Book, Client, Desk, Event, Room, Seen, Why};
use pif_job_replay::replay;
use pif_job_run::write_trace;
use pif_script::CliFault;
use pif_types::{Limits, NoMemory, with_room};
use std::alloc::Global;
use std::process::Abort;
use std::rt::Clock;
use std::sync::Wait;
use std::thread;
use std::thread::Threads;

/// Keeps what is written, and allocates nothing; past its room it takes no byte.
type Kept = ArrayVec<u8, 4096>;

/// What each client does in the room, once the desk is gone.
#[derive(Clone, Copy)]
pub(super) enum Turn {
    /// The client begins this call.
    Begins(Wish),
    /// It goes on with its call.
    Goes,
    /// The client's thread begins this call, of which the client doesn't know.
    Turns(Wish),
    /// The client ends inside a call, unless it has ended.
    Dies,
}

/// How a room settles with its clients.
pub(super) enum End {
    /// So many calls were answered.
    Answered(u64),
    /// However many were.
    Settles,
    /// It doesn't: the log of this thread's client isn't its calls, this thread was never added, or a client is
    /// missing.
    Differs(u32),
    Stranger(u32),
    Count,
}

/// What happens at a desk.
pub(super) struct Scene {
    pub(super) name: &'static str,
    /// How many threads, mutexes and variables there may be, and how often a variable may be signalled.
    pub(super) limits: [u32; 4],
    /// Thread 1 is held after the first of its events that is answered so. None is answered `Ticked`.
    pub(super) held_after: Seen,
    /// Who is refused memory asks again.
    pub(super) asks_again: bool,
    /// What is done first, in this order.
    pub(super) before: &'static [DeedCase],
    /// What the clients do then, each in a thread of its own.
    pub(super) beside: &'static [DeedCase],
    /// What is done last.
    pub(super) after: &'static [DeedCase],
    /// What each client does in the room, and what that is answered.
    pub(super) inside: &'static [(Turn, Seen)],
    pub(super) ends: End,
    /// The trace of the book has this part so often. It is not written if that is never.
    pub(super) told: (&'static str, usize),
    /// What a replay of the trace prints; it is not replayed if that is nothing.
    pub(super) verdict: &'static str,
}

/// Nothing happens, at a desk with room for much.
pub(super) const EMPTY: Scene = Scene {
    name: "",
    limits: [64, 64, 1, 9],
    held_after: Seen::Ticked,
    asks_again: false,
    before: &[],
    beside: &[],
    after: &[],
    inside: &[],
    ends: End::Answered(0),
    told: ("pif-trace 2\n", 1),
    verdict: "",
};

/// All of this at a desk. `NoMemory` says that there is none for the desk or for the threads of its clients.
pub(super) fn play<R: Threads + Wait + Clock + Abort + AllocGlobal + Sync>(
    rt: &R,
    scene: &Scene,
) -> Result<(), NoMemory> {
    let desk = desk_of(rt, rt.alloc(), scene)?;
    let mut clients = act(rt, &desk, scene)?;
    let mut room = desk.into_room();
    for (turn, seen) in scene.inside {
        turn_all(rt, scene, &mut room, &mut clients, *turn, *seen);
    }
    settle(rt, scene, room, clients);
    Ok(())
}

/// The desk of a scene.
fn desk_of(rt: &impl Abort, alloc: Global, scene: &Scene) -> Result<Desk<Watch>, NoMemory> {
    let [threads, mutexes, conds, signals] = scene.limits;
    let limits = Limits::new(threads, mutexes, conds, signals).expect(rt, "limits out of range");
    Desk::new(
        alloc,
        limits,
        Watch::new(scene.held_after, scene.asks_again),
    )
}

/// Does what happens at the desk: the clients that are there then.
fn act<R: Threads + Wait + Clock + Abort + AllocGlobal + Sync>(
    rt: &R,
    desk: &Desk<Watch>,
    scene: &Scene,
) -> Result<Vec<Client>, NoMemory> {
    let mut clients = with_room(rt.alloc(), 2)?;
    take_all(rt, scene, desk, &mut clients, scene.before);
    if !scene.beside.is_empty() {
        clients = serve_beside(rt, scene, desk, clients)?;
    }
    take_all(rt, scene, desk, &mut clients, scene.after);
    Ok(clients)
}

/// These rows come to what they say. Who is refused memory asks again at desks that say so.
fn take_all<R: Wait + Clock + Abort + AllocGlobal>(
    rt: &R,
    scene: &Scene,
    desk: &Desk<Watch>,
    clients: &mut Vec<Client>,
    rows: &[DeedCase],
) {
    for (place, (number, deed, expected)) in rows.iter().enumerate() {
        let mut come = take(rt, desk, clients, *number, *deed);
        if scene.asks_again && come == NO_MEMORY {
            come = take(rt, desk, clients, *number, *deed);
        }
        assert!(rt; come == *expected, "{}, at row {place}", scene.name);
    }
}

/// Each client does its rows, in a thread of its own.
fn serve_beside<R: Threads + Wait + Clock + Abort + Sync>(
    rt: &R,
    scene: &Scene,
    desk: &Desk<Watch>,
    clients: Vec<Client>,
) -> Result<Vec<Client>, NoMemory> {
    let served = thread::map_vec(
        rt,
        clients,
        &|client| {
            let mut client = client;
            serve_all(rt, scene, desk, &mut client);
            client
        },
    );
    served.or(Err(NoMemory))
}

/// The rows of this client come to what they say.
fn serve_all<R: Wait + Clock + Abort>(
    rt: &R,
    scene: &Scene,
    desk: &Desk<Watch>,
    client: &mut Client,
) {
    for (place, (number, deed, expected)) in scene.beside.iter().enumerate() {
        if client.thread().get() == *number {
            let come = serve(rt, desk, client, *deed);
            assert!(rt; come == *expected, "{}, at row {place} beside", scene.name);
        }
    }
}

/// Each client does this in the room, and is answered so.
fn turn_all(
    rt: &impl Abort,
    scene: &Scene,
    room: &mut Room,
    clients: &mut Vec<Client>,
    turn: Turn,
    expected: Seen,
) {
    for client in clients.iter_mut() {
        let seen = match turn {
            Turn::Begins(wish) => room.play(client, Act::Begin(request(wish))),
            Turn::Goes => room.play(client, Act::Go),
            Turn::Turns(wish) => room.turn(Event::Begin(client.thread(), request(wish))),
            Turn::Dies => stress::end_inside(room, client),
        };
        assert!(rt; seen == Ok(expected), "{}", scene.name);
    }
}

/// The room settles with these clients as the scene says.
fn settle<R: Abort + AllocGlobal>(rt: &R, scene: &Scene, room: Room, clients: Vec<Client>) {
    let come = match room.settle(clients) {
        Ok(book) => {
            if scene.told.1 > 0 {
                check_book(rt, scene, &book);
            }
            Ok(book.answered)
        }
        Err(unsettled) => Err(unsettled.why),
    };
    assert!(rt; is_met(&scene.ends, &come), "{}: {come:?}", scene.name);
}

/// Whether a room settles so.
fn is_met(end: &End, come: &Result<u64, Why>) -> bool {
    match (end, come) {
        (End::Answered(wanted), Ok(answered)) => answered == wanted,
        (End::Settles, Ok(_)) | (End::Count, Err(Why::Count)) => true,
        (End::Differs(wanted), Err(Why::Differs(t))) => t.get() == *wanted,
        (End::Stranger(wanted), Err(Why::Stranger(t))) => t.get() == *wanted,
        _ => false,
    }
}

/// The trace of a book has what the scene tells, and is replayed if that is asked, a second time if memory was refused.
fn check_book<R: Abort + AllocGlobal>(rt: &R, scene: &Scene, book: &Book) {
    let mut trace = Kept::new();
    let mut output = Kept::new();
    let written = write_trace(book.limits, book.entries.as_slice(), &mut trace);
    let told = times_in(trace.as_slice(), scene.told.0.as_bytes());
    assert!(rt;
        written.is_ok() && told == scene.told.1,
        "{}: {told}",
        scene.name
    );
    if !scene.verdict.is_empty() {
        let mut replayed = replay(rt.alloc(), &mut trace.as_slice(), &mut output);
        if replayed == Err(CliFault::NoMemory) {
            replayed = replay(rt.alloc(), &mut trace.as_slice(), &mut output);
        }
        let is_same = replayed.is_ok() && output.as_slice() == scene.verdict.as_bytes();
        assert!(rt; is_same, "{}: {replayed:?}", scene.name);
    }
}

/// How often a text has a part.
fn times_in(text: &[u8], part: &[u8]) -> usize {
    let mut times = 0usize;
    for at in 0..text.len() {
        if let Some(rest) = text.get(at..)
            && rest.starts_with(part)
        {
            times = times.wrapping_add(1);
        }
    }
    times
}
