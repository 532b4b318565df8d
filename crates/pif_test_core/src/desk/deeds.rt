//! What is done at a desk, by numbers, and what that comes to.
use super::stress;
use super::watch::Watch;
use crate::driver::{Wish, request};
use crate::seen::{mutex, thread};
use pif_desk::{Client, Desk, DeskFault, NoPause, Pause, Receipt};
use pif_types::{AddFault, Kind, Limits, NoMemory, Refusal};
use std::alloc::Global;
use std::process::Abort;
use std::rt::Clock;
use std::sync::Wait;
use std::sync::atomic::Ordering;
use std::thread::sleep;
use std::time::Duration;

/// How often a thread looks whether something has come, a millisecond each time.
const LOOKS: u32 = 10_000;

/// How many milliseconds a client is left resting: one that didn't sleep would make events all the time.
const REST: u64 = 20;

/// How many mutexes are added at most to fill a journal.
const MOST: u32 = 60;

/// A normal mutex more: a stalled one, and a robust one.
pub(super) const STALLED: Deed = Deed::Mutex(Kind::Normal, false);

pub(super) const ROBUST: Deed = Deed::Mutex(Kind::Normal, true);

/// A client's calls on mutex 1.
pub(super) const LOCK: Deed = Deed::Call(Wish::Lock(1));

pub(super) const UNLOCK: Deed = Deed::Call(Wish::Unlock(1));

/// Faults to which deeds come.
pub(super) const NO_MEMORY: Result<u32, DeskFault> = Err(DeskFault::NoMemory);

pub(super) const TOO_MANY: Result<u32, DeskFault> = Err(DeskFault::NotAdded(AddFault::TooMany));

pub(super) const BUSY: Result<u32, DeskFault> = Err(DeskFault::Refused(Refusal::Busy));

pub(super) const DEAD: Result<u32, DeskFault> = Err(DeskFault::Refused(Refusal::Dead));

pub(super) const IDLE: Result<u32, DeskFault> = Err(DeskFault::Refused(Refusal::Idle));

pub(super) const PAST: Result<u32, DeskFault> = Err(DeskFault::Refused(Refusal::Past));

/// What is done or asked. It comes to a number: the one that is added, answered or counted, or 1 for what is so.
#[derive(Clone, Copy)]
pub(super) enum Deed {
    /// A mutex more of this kind, robust or stalled.
    Mutex(Kind, bool),
    /// A variable more that is bound to this mutex.
    Cond(u32),
    /// So many clients more, of this priority.
    Enter(u32, u32),
    Tick(u32),
    /// A client's calls.
    Call(Wish),
    Resume,
    Quit,
    /// Its calls by chance, the unlocks of all that it holds, and its broadcasts until all others have ended.
    Chance,
    GiveUp,
    WakeOthers,
    /// All clients are lost, or the only one becomes the second client of another desk.
    Lose,
    Swap,
    /// A full journal is to grow by so many entries.
    Grow(usize),
    /// The journal is filled until it has room for so many entries, and its growth is refused from then on.
    Fill(usize),
    /// How many entries there are, since growth was refused.
    Entries,
    /// After how many events clients have paused, and how many of these were refused.
    Pauses,
    Refusals,
    /// The client has a call open.
    IsOpen,
    /// There is room for so many entries at least.
    HasRoom(usize),
    /// The bell of a thread has rung so often.
    Rings(u32, Option<u64>),
    /// The same, and its client sleeps as long as the bell has not rung.
    Bell(u32, u64),
    /// So many events come to be answered that their thread waits.
    SeeWaits(u32),
    /// Thread 1 comes to be held.
    SeeHeld,
    /// The client of this thread comes to sleep.
    SeeSleep(u32),
}

/// The number of the thread whose client does it, 0 for nobody; what it does; and what that comes to.
pub(super) type DeedCase = (u32, Deed, Result<u32, DeskFault>);

/// What a deed of this thread comes to.
pub(super) fn take<R: Wait + Clock + Abort + AllocGlobal>(
    rt: &R,
    desk: &Desk<Watch>,
    clients: &mut Vec<Client>,
    number: u32,
    deed: Deed,
) -> Result<u32, DeskFault> {
    match deed {
        Deed::Enter(count, prio) => return enter(rt, desk, clients, count, prio),
        Deed::Swap => return swap(rt, rt.alloc(), clients),
        Deed::Lose => clients.clear(),
        _ => {
            for client in clients.iter_mut() {
                if client.thread().get() == number {
                    return serve(rt, desk, client, deed);
                }
            }
            return add(rt, desk, deed);
        }
    }
    Ok(0)
}

/// So many clients more: the number of the last.
fn enter<P: Pause + Drop>(
    rt: &impl Wait,
    desk: &Desk<P>,
    clients: &mut Vec<Client>,
    count: u32,
    prio: u32,
) -> Result<u32, DeskFault> {
    let mut number = 0;
    for _ in 0..count {
        let client = desk.enter(rt, prio)?;
        number = client.thread().get();
        if clients.push(client).is_err() {
            return Err(DeskFault::NoMemory);
        }
    }
    Ok(number)
}

/// The second client of another desk takes the place of all: its number.
fn swap(rt: &impl Wait, alloc: Global, clients: &mut Vec<Client>) -> Result<u32, DeskFault> {
    match Desk::new(alloc, Limits::new(2, 1, 1, 1).unwrap(), NoPause) {
        Ok(desk) => enter_second(rt, &desk, clients),
        Err(NoMemory) => Err(DeskFault::NoMemory),
    }
}

/// The same at that desk, which has no client yet.
fn enter_second(
    rt: &impl Wait,
    desk: &Desk<NoPause>,
    clients: &mut Vec<Client>,
) -> Result<u32, DeskFault> {
    enter(rt, desk, clients, 1, 10)?;
    clients.clear();
    enter(rt, desk, clients, 1, 10)
}

/// What a call is answered, as what a deed comes to.
fn answer_of(come: Result<Receipt, DeskFault>) -> Result<u32, DeskFault> {
    match come {
        Ok(receipt) => Ok(receipt.answer),
        Err(fault) => Err(fault),
    }
}

/// What a client's deed comes to.
pub(super) fn serve<R: Wait + Clock + Abort>(
    rt: &R,
    desk: &Desk<Watch>,
    client: &mut Client,
    deed: Deed,
) -> Result<u32, DeskFault> {
    match deed {
        Deed::Call(wish) => call(rt, desk, client, wish),
        Deed::Resume => answer_of(client.resume(rt, desk)),
        Deed::Quit => client.quit(rt, desk).and(Ok(0)),
        Deed::Chance => stress::make_calls(rt, desk, client),
        Deed::GiveUp => stress::give_up_all(rt, desk, client),
        Deed::WakeOthers => stress::wake_others(rt, desk, client),
        Deed::IsOpen => Ok(u32::from(client.is_open())),
        _ => add(rt, desk, deed),
    }
}

/// What a call is answered: by `resume` if it was refused memory once it was open, at desks that ask again.
pub(super) fn call<R: Wait + Abort>(
    rt: &R,
    desk: &Desk<Watch>,
    client: &mut Client,
    wish: Wish,
) -> Result<u32, DeskFault> {
    match client.call(rt, desk, request(wish)) {
        Err(DeskFault::NoMemory) if client.is_open() && desk.pause().asks_again => {
            answer_of(client.resume(rt, desk))
        }
        come => answer_of(come),
    }
}

/// What a deed comes to that needs no client.
fn add<R: Wait + Clock + Abort>(rt: &R, desk: &Desk<Watch>, deed: Deed) -> Result<u32, DeskFault> {
    match deed {
        Deed::Mutex(kind, robust) => Ok(desk.make_mutex(rt, kind, robust)?.get()),
        Deed::Cond(bound) => Ok(desk.make_cond(rt, mutex(bound))?.get()),
        Deed::Tick(time) => desk.tick(rt, time).and(Ok(0)),
        Deed::Fill(left) => fill(rt, desk, left).and(Ok(0)),
        Deed::Grow(entries) if entries > 0 => {
            desk.set_growth(rt, entries);
            Ok(0)
        }
        _ => match count(rt, desk, deed) {
            Some(number) => Ok(number),
            None => panic!(rt; "there is no such client"),
        },
    }
}

/// Makes mutexes until the journal has room for just so many entries, and refuses its growth from then on.
fn fill(rt: &impl Wait, desk: &Desk<Watch>, left: usize) -> Result<(), DeskFault> {
    for _ in 0..MOST {
        if desk.spare_entries(rt) == left {
            break;
        }
        let _mutex = desk.make_mutex(rt, Kind::Normal, false)?;
    }
    desk.set_growth(rt, usize::MAX);
    desk.pause().mark.store(desk.entries(rt), Ordering::SeqCst);
    Ok(())
}

/// What is counted, or whether what is asked is so. `None` if nobody can be asked that.
fn count<R: Wait + Clock>(rt: &R, desk: &Desk<Watch>, deed: Deed) -> Option<u32> {
    let watch = desk.pause();
    Some(match deed {
        Deed::Entries => {
            let before = watch.mark.load(Ordering::SeqCst);
            u32::try_from(desk.entries(rt).wrapping_sub(before)).ok()?
        }
        Deed::Pauses => watch.events.load(Ordering::SeqCst),
        Deed::Refusals => watch.refused.load(Ordering::SeqCst),
        Deed::HasRoom(least) => u32::from(desk.spare_entries(rt) >= least),
        Deed::Rings(t, rings) => u32::from(desk.rings(thread(t)) == rings),
        Deed::Bell(t, rings) => {
            let t = thread(t);
            u32::from(desk.rings(t) == Some(rings) && desk.sleeps(rt, t) == (rings == 0))
        }
        _ => return comes(rt, desk, deed),
    })
}

/// Whether what is awaited has come, 1 or 0, and then a while. `None` if nobody awaits that.
fn comes<R: Wait + Clock>(rt: &R, desk: &Desk<Watch>, deed: Deed) -> Option<u32> {
    let watch = desk.pause();
    for _ in 0..LOOKS {
        let has_come = match deed {
            Deed::SeeWaits(least) => watch.waits.load(Ordering::SeqCst) >= least,
            Deed::SeeHeld => watch.held.load(Ordering::SeqCst) > 0,
            Deed::SeeSleep(t) => desk.sleeps(rt, thread(t)),
            _ => return None,
        };
        if has_come {
            let _ = sleep(rt, Duration::from_millis(REST));
            return Some(1);
        }
        let _ = sleep(rt, Duration::from_millis(1));
    }
    Some(0)
}
