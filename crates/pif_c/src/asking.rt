ghost use Rattle.std.specs.Prelude.{◌≡◌, Option, Some, None};
ghost use Rattle.pif_c.specs.Handles.{held};
ghost use Rattle.pif_c.specs.Asking.{outcome_of, turn_told, turn_after, shown, Looks};
ghost use Rattle.pif_c.specs.Standing.{Turns};

use crate::handles::PifCore;
use pif_c_numbers::codes::NO_CORE;
use pif_c_numbers::{PifNumber, PifSeen, health_code, kind_code, number_told, seen_reported};
use pif_core::{Core, Event, Seen};
use pif_types::{CondId, MutexId, Request, Tid};
use std::alloc::Global;

/// What changes a core: an event, a whole call, or the rest of one.
#[derive(Clone, Copy)]
pub enum Turn {
    /// One event.
    Event(Event),
    /// This thread makes this call.
    Call(Tid, Request),
    /// This thread goes on with its open call.
    Finish(Tid),
}

/// A number that a core shows.
#[derive(Clone, Copy)]
pub enum Look {
    /// The effective priority of this thread.
    Effective(u32),
    /// Whether this thread rests: 1 if it does, else 0.
    Waiting(u32),
    /// The word of this mutex.
    Word(u32),
    /// The health of this mutex.
    Health(u32),
    /// The condition word of this variable.
    CondWord(u32),
    /// The thread that runs next.
    Pick,
    /// The base priority of this thread.
    Base(u32),
    /// The kind of this mutex, as its number.
    MutexKind(u32),
    /// Whether this mutex is robust: 1 if it is, else 0.
    Robust(u32),
    /// The mutex to which this variable is bound.
    Bound(u32),
    /// The waiter of this mutex before which so many others get it.
    Waiter(u32, u32),
    /// The thread that is parked on this variable and before which so many others are woken.
    ParkedOn(u32, u32),
    /// The ready thread before which so many others run.
    ReadyAt(u32),
    /// The time.
    Time,
    /// How many threads were ever added.
    Threads,
    /// How many mutexes were.
    Mutexes,
    /// How many condition variables were.
    Conds,
}

/// A turn of a core: what was seen.
#[inline(always)]
fn take_turn(core: &mut Core, turn: Turn) -> Seen
    ensures seen { result ≡ (outcome_of turn core.old).seen }
    ensures after { core.new ≡ (outcome_of turn core.old).after }
{
    match turn {
        Turn::Event(event) => core.step(event),
        Turn::Call(thread, request) => core.call(thread, request),
        Turn::Finish(thread) => core.finish(thread),
    }
}

/// A turn of the core that a handle holds, if the numbers name one.
#[inline(always)]
#[tactic(auto, using(crate::proofs::Keeping::keeps_after))]
pub(crate) fn turn_on(alloc: Global, handle: &mut PifCore, asked: Option<Turn>) -> PifSeen
    ensures { Turns asked (held handle.old) (held handle.new) result }
{
    match handle.take(alloc) {
        Some(mut core) => {
            let told = told_turn(&mut core, asked);
            handle.put(core);
            told
        }
        None => PifSeen::NOTHING,
    }
}

/// A turn of a core, if the numbers name one.
#[inline(always)]
fn told_turn(core: &mut Core, asked: Option<Turn>) -> PifSeen
    ensures answer { result ≡ turn_told asked (Some core.old) }
    ensures after { Some core.new ≡ turn_after asked (Some core.old) }
{
    match asked {
        Some(asked) => seen_reported(take_turn(core, asked)),
        None => PifSeen::UNNAMED,
    }
}

/// What a core shows.
fn see(core: &Core, look: Look) -> Option<u32>
    ensures { result ≡ shown look core.now }
{
    match look {
        Look::Effective(thread) => effective(core, thread),
        Look::Waiting(thread) => waiting(core, thread),
        Look::Word(mutex) => core.word(MutexId::new(mutex)?),
        Look::Health(mutex) => health(core, mutex),
        Look::CondWord(cond) => core.cond_word(CondId::new(cond)?),
        Look::Pick => pick(core),
        Look::Base(thread) => base(core, thread),
        Look::MutexKind(mutex) => mutex_kind(core, mutex),
        Look::Robust(mutex) => robust(core, mutex),
        Look::Bound(cond) => bound(core, cond),
        Look::Waiter(mutex, place) => waiter(core, mutex, place),
        Look::ParkedOn(cond, place) => parked_on(core, cond, place),
        Look::ReadyAt(place) => ready_at(core, place),
        Look::Time => Some(core.time()),
        Look::Threads => Some(core.threads()),
        Look::Mutexes => Some(core.mutexes()),
        Look::Conds => Some(core.conds()),
    }
}

fn effective(core: &Core, thread: u32) -> Option<u32>
    ensures { result ≡ shown (Look.Effective thread) core.now }
{
    let prio = core.effective(Tid::new(thread)?)?;
    Some(prio.get())
}

fn waiting(core: &Core, thread: u32) -> Option<u32>
    ensures { result ≡ shown (Look.Waiting thread) core.now }
{
    if core.waiting(Tid::new(thread)?)? {
        Some(1)
    } else {
        Some(0)
    }
}

fn health(core: &Core, mutex: u32) -> Option<u32>
    ensures { result ≡ shown (Look.Health mutex) core.now }
{
    let health = core.health(MutexId::new(mutex)?)?;
    Some(health_code(health))
}

fn pick(core: &Core) -> Option<u32>
    ensures { result ≡ shown Look.Pick core.now }
{
    let thread = core.pick()?;
    Some(thread.get())
}

fn base(core: &Core, thread: u32) -> Option<u32>
    ensures { result ≡ shown (Look.Base thread) core.now }
{
    let prio = core.base(Tid::new(thread)?)?;
    Some(prio.get())
}

fn mutex_kind(core: &Core, mutex: u32) -> Option<u32>
    ensures { result ≡ shown (Look.MutexKind mutex) core.now }
{
    let (kind, _) = core.kind(MutexId::new(mutex)?)?;
    Some(kind_code(kind))
}

fn robust(core: &Core, mutex: u32) -> Option<u32>
    ensures { result ≡ shown (Look.Robust mutex) core.now }
{
    let (_, robust) = core.kind(MutexId::new(mutex)?)?;
    if robust { Some(1) } else { Some(0) }
}

fn bound(core: &Core, cond: u32) -> Option<u32>
    ensures { result ≡ shown (Look.Bound cond) core.now }
{
    let mutex = core.bound(CondId::new(cond)?)?;
    Some(mutex.get())
}

fn waiter(core: &Core, mutex: u32, place: u32) -> Option<u32>
    ensures { result ≡ shown (Look.Waiter mutex place) core.now }
{
    let thread = core.waiter(MutexId::new(mutex)?, place)?;
    Some(thread.get())
}

fn parked_on(core: &Core, cond: u32, place: u32) -> Option<u32>
    ensures { result ≡ shown (Look.ParkedOn cond place) core.now }
{
    let thread = core.parked(CondId::new(cond)?, place)?;
    Some(thread.get())
}

fn ready_at(core: &Core, place: u32) -> Option<u32>
    ensures { result ≡ shown (Look.ReadyAt place) core.now }
{
    let thread = core.ready(place)?;
    Some(thread.get())
}

/// A number that the core of a handle shows. The handle holds the same core afterwards.
pub(crate) fn look_on(alloc: Global, handle: &mut PifCore, asked: Look) -> PifNumber
    ensures { Looks asked (held handle.old) (held handle.new) result }
{
    match handle.take(alloc) {
        Some(core) => {
            let shown = see(&core, asked);
            handle.put(core);
            number_told(shown)
        }
        None => PifNumber::refused(NO_CORE),
    }
}
