//! Clients in threads of their own, at one desk.
ghost use Rattle.std.specs.Prelude.{◌≡◌, ◌+◌, ◌++◌, ℕ, IfOk, OnOk, length};
ghost use Rattle.std.specs.List.{All};
ghost use Rattle.pif_desk.specs.Logs.{no_calls};
ghost use Rattle.pif_desk.specs.Settling.{answered_calls};
ghost use Rattle.pif_job_drive.specs.Driving.{IsDriven, IsServed, pairs, requests_of};

use pif_desk::{Book, Client, Desk, DeskFault, Pause, Room};
use pif_types::{Kind, Limits, MutexId, NoMemory, Request};
use std::alloc::{AllocError, AllocFailed, Global};
use std::sync::Wait;
use std::thread;
use std::thread::{JoinHandle, Threads};
use thiserror::Error;

/// How often each client locks the mutex, and unlocks it.
const ROUNDS: u32 = 100;

/// How often a client asks to end while that is refused for memory.
const TRIES: u32 = 1_000;

/// Why a drive has no book.
#[derive(Clone, Copy, Debug, PartialEq, Eq, Error)]
pub enum DriveFault {
    /// A growth of memory was refused.
    #[error("out of memory")]
    NoMemory,
    /// A thread could not be started.
    #[error("a thread cannot be started")]
    Threads,
    /// A client was refused, or the desk didn't settle.
    #[error("a client was refused, or the desk did not settle")]
    Unsettled,
}

impl From<DeskFault> for DriveFault {
    fn from(fault: DeskFault) -> DriveFault {
        match fault {
            DeskFault::NoMemory => DriveFault::NoMemory,
            DeskFault::Refused(_) | DeskFault::NotAdded(_) => DriveFault::Unsettled,
        }
    }
}

impl From<NoMemory> for DriveFault {
    fn from(_fault: NoMemory) -> DriveFault {
        DriveFault::NoMemory
    }
}

impl<T: Drop> From<AllocFailed<T>> for DriveFault {
    fn from(_fault: AllocFailed<T>) -> DriveFault {
        DriveFault::NoMemory
    }
}

/// A client that has made no call.
#[derive(Drop)]
struct Fresh {
    client: Client,
    ghost fresh: { client.log ≡ no_calls },
}

/// A client that was answered each of its calls.
#[derive(Drop)]
pub struct Served {
    client: Client,
    mutex: MutexId,
    ghost served: { IsServed mutex client.log },
}

/// How a client's thread ends.
#[derive(Drop)]
pub enum Ending {
    /// The client was answered each of its calls.
    Served(Served),
    /// The client was not answered, and has ended if it could.
    Fault(DriveFault),
}

/// A client locks and unlocks the mutex, so often as each does.
fn make_calls<P: Pause + Drop, R: Wait>(
    rt: &R,
    desk: &Desk<P>,
    mutex: MutexId,
    client: &mut Client,
) -> Result<(), DeskFault>
    ensures answered { OnOk result (answered_calls client.new.log ≡ answered_calls client.old.log + 200) }
    ensures requests { OnOk result (requests_of client.new.log ≡ pairs 100 mutex ++ requests_of client.old.log) }
{
    for _round in 0..ROUNDS {
        client.call(rt, desk, Request::Lock(mutex))?;
        client.call(rt, desk, Request::Unlock(mutex))?;
    }
    Ok(())
}

/// A client ends, so that no other waits for it; or it is given up, since its end takes memory, which is refused.
fn leave<P: Pause + Drop, R: Wait>(rt: &R, desk: &Desk<P>, client: &mut Client) {
    for _try in 0..TRIES {
        match client.quit(rt, desk) {
            Err(DeskFault::NoMemory) => {}
            _ => return,
        }
    }
}

/// How a client's thread ends, once its calls have come to `made`. If each was answered, the client is served, and the
/// desk stays as it was. At a fault the client is ended, so that no other waits for it. While memory is refused for
/// that it is tried again, 1,000 times in all. Then it is given up: who waits for its mutex may wait for good.
///
/// There is no error: a fault of `made` is answered as an `Ending`.
pub fn end_of<P: Pause + Drop, R: Wait>(
    rt: &R,
    desk: &Desk<P>,
    mutex: MutexId,
    mut client: Client,
    made: Result<(), DeskFault>,
) -> Ending
    requires { OnOk made (IsServed mutex client.log) }
{
    match made {
        Ok(()) => Ending::Served(Served { client, mutex }),
        Err(fault) => {
            leave(rt, desk, &mut client);
            Ending::Fault(DriveFault::from(fault))
        }
    }
}

/// What a client's thread does.
fn serve<P: Pause + Drop, R: Wait>(rt: &R, desk: &Desk<P>, mutex: MutexId, fresh: Fresh) -> Ending {
    let Fresh { mut client } = fresh;
    let made = make_calls(rt, desk, mutex, &mut client);
    end_of(rt, desk, mutex, client, made)
}

/// A client of this priority.
fn enter_one<P: Pause + Drop, R: Wait>(
    rt: &R,
    desk: &Desk<P>,
    prio: u32,
) -> Result<Fresh, DriveFault> {
    let client = desk.enter(rt, prio)?;
    Ok(Fresh { client })
}

/// So many clients, of the priorities from 1.
fn enter_all<P: Pause + Drop, R: Wait>(
    rt: &R,
    alloc: Global,
    desk: &Desk<P>,
    count: u32,
) -> Result<Vec<Fresh>, DriveFault>
    ensures { IfOk result (λ v. length v.items ≡ count) }
{
    let mut clients = Vec::new(alloc);
    for index in 0..count {
        clients.push(enter_one(rt, desk, index + 1)?)?;
    }
    Ok(clients)
}

/// How the threads ended, once each has.
fn join_all<R: Threads>(
    rt: &R,
    alloc: Global,
    threads: Vec<JoinHandle<Ending>>,
) -> Result<Vec<Ending>, DriveFault>
    ensures { IfOk result (λ v. length v.items ≡ length threads.items) }
{
    let mut endings = Vec::new(alloc);
    for thread in threads {
        endings.push(thread.join(rt))?;
    }
    Ok(endings)
}

/// Each client runs in a thread of its own: how they ended. If a thread can't be started, those that were end first.
fn run_all<P: Pause + Drop + Sync, R: Threads + Wait + Sync>(
    rt: &R,
    alloc: Global,
    desk: &Desk<P>,
    mutex: MutexId,
    clients: Vec<Fresh>,
) -> Result<Vec<Ending>, DriveFault>
    ensures { IfOk result (λ v. length v.items ≡ length clients.items) }
{
    thread::scope(
        thread::scope_env(),
        rt,
        |scope| -> Result<Vec<Ending>, DriveFault>
            ensures { IfOk result (λ v. length v.items ≡ length clients.items) }
        {
            let mut threads = Vec::new(alloc);
            for client in clients {
                match scope.spawn(move || serve(rt, desk, mutex, client)) {
                    Ok(thread) => threads.push(thread)?,
                    Err(_) => return Err(DriveFault::Threads),
                }
            }
            join_all(rt, alloc, threads)
        },
    )
}

/// The clients, if each was answered all of its calls; else the fault of the first that was not.
fn gather(alloc: Global, endings: Vec<Ending>) -> Result<Vec<Client>, DriveFault>
    ensures len { IfOk result (λ v. length v.items ≡ length endings.items) }
    ensures served { IfOk result (λ v. All (λ c. (m : ℕ) × IsServed m c.log) v.items) }
{
    let mut clients = Vec::new(alloc);
    for ending in endings {
        match ending {
            Ending::Served(Served { client, .. }) => clients.push(client)?,
            Ending::Fault(fault) => return Err(fault),
        }
    }
    Ok(clients)
}

/// The book of the room and these clients.
fn settle(room: Room, clients: Vec<Client>) -> Result<Book, DriveFault>
    requires { All (λ c. (m : ℕ) × IsServed m c.log) clients.items }
    ensures { IfOk result (λ b. IsDriven (length clients.items) b.entries.items b.answered) }
{
    match room.settle(clients) {
        Ok(book) => Ok(book),
        Err(_) => Err(DriveFault::Unsettled),
    }
}

/// So many clients make their calls at this desk, each in a thread of its own: the book.
fn drive_desk<P: Pause + Drop + Sync, R: Threads + Wait + Sync>(
    alloc: Global,
    rt: &R,
    desk: Desk<P>,
    clients: u32,
) -> Result<Book, DriveFault>
    ensures { IfOk result (λ b. IsDriven clients b.entries.items b.answered) }
{
    let mutex = desk.make_mutex(rt, Kind::ErrorCheck, true)?;
    let fresh = enter_all(rt, alloc, &desk, clients)?;
    let endings = run_all(rt, alloc, &desk, mutex, fresh)?;
    let served = gather(alloc, endings)?;
    settle(desk.into_room(), served)
}

/// So many clients, of the priorities from 1, each in a thread of its own, lock and unlock one mutex, which is
/// errorcheck and robust, 100 times each. They share a desk of their own, with just the room that they need, and
/// `pause` is called after each of their events. Answers the book, by which all of these calls were answered, and no
/// other was made.
///
/// # Errors
///
/// `NoMemory` if memory was refused. A client that meets that is ended, so that the others go on. `Threads` if a thread
/// could not be started. `Unsettled` if there are not 1 to 99 clients, as client i has priority i; if one was refused;
/// or if the desk didn't settle. All threads have ended then too, and the desk and its clients are gone. But a client
/// that can't even be ended, as `end_of` says, may leave others that wait for good: then there is no answer.
pub fn drive_book<P: Pause + Drop + Sync, R: Threads + Wait + Sync>(
    alloc: Global,
    rt: &R,
    clients: u32,
    pause: P,
) -> Result<Book, DriveFault>
    ensures { IfOk result (λ b. IsDriven clients b.entries.items b.answered) }
{
    match Limits::new(clients, 1, 0, 1) {
        Some(limits) => drive_desk(alloc, rt, Desk::new(alloc, limits, pause)?, clients),
        None => Err(DriveFault::Unsettled),
    }
}
