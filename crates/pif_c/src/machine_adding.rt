ghost use Rattle.std.specs.Prelude.{◌≡◌, ℕ, Option, Some, None, IfSome};
ghost use Rattle.pif_c_numbers.specs.Codes as pif;
ghost use Rattle.pif_c.specs.MachineHandles.{running};
ghost use Rattle.pif_c.specs.Going.{AddsTo, IsAdded, asks_to_add, cond_of, lacks_mutex, mutex_of, next_number, thread_of};

use crate::going::stop_number;
use crate::machine_handles::PifMachine;
use crate::machines::{Ask, Machine};
use pif_c_numbers::codes::{BAD_PRIO, INVALID, NO_CORE, NO_MUTEX, OK, TOO_MANY};
use pif_c_numbers::{PifNumber, kind_of};
use pif_model::{Entry, Event};
use pif_types::{CondId, Kind, MutexId, Prio, Request, Tid};
use std::alloc::Global;

/// What is added to a machine.
#[derive(Clone, Copy)]
pub enum Adding {
    /// A thread of this base priority.
    AddThread(Prio),
    /// A mutex of this kind that inherits; true if it is robust.
    AddMutex(Kind, bool),
    /// A mutex of this kind of PTHREAD_PRIO_NONE; true if it is robust.
    AddNone(Kind, bool),
    /// A condition variable, bound to this mutex.
    AddCond(MutexId),
}

/// What the addition of a thread asks.
fn asks_for_thread(places: usize, prio: Prio) -> Option<(u32, Ask)>
    ensures { IfSome result (λ x. (x.0 ≡ places) × (x.1 ≡ Ask.Line (Entry.Thread places prio))) }
{
    let _no_event: Option<Event> = None;
    let number = u32::try_from(places).ok()?;
    let thread = Tid::new(number)?;
    Some((number, Ask::Line(Entry::Thread(thread, prio))))
}

/// What the addition of a mutex asks that inherits.
fn asks_for_mutex(places: usize, kind: Kind, robust: bool) -> Option<(u32, Ask)>
    ensures { IfSome result (λ x. (x.0 ≡ places) × (x.1 ≡ Ask.Line (Entry.Mutex places kind robust))) }
{
    let _no_event: Option<Event> = None;
    let number = u32::try_from(places).ok()?;
    let mutex = MutexId::new(number)?;
    Some((number, Ask::Line(Entry::Mutex(mutex, kind, robust))))
}

/// What the addition of a mutex asks that lends nothing.
fn asks_for_none(places: usize, kind: Kind, robust: bool) -> Option<(u32, Ask)>
    ensures { IfSome result (λ x. (x.0 ≡ places) × (x.1 ≡ Ask.AddsNone places kind robust)) }
{
    let _no_event: Option<Event> = None;
    let number = u32::try_from(places).ok()?;
    let mutex = MutexId::new(number)?;
    Some((number, Ask::AddsNone(mutex, kind, robust)))
}

/// What the addition of a condition variable asks.
fn asks_for_cond(places: usize, mutex: MutexId) -> Option<(u32, Ask)>
    ensures { IfSome result (λ x. (x.0 ≡ places) × (x.1 ≡ Ask.Line (Entry.Cond places mutex))) }
{
    let _no_event: Option<Event> = None;
    let number = u32::try_from(places).ok()?;
    let cond = CondId::new(number)?;
    Some((number, Ask::Line(Entry::Cond(cond, mutex))))
}

impl Machine {
    /// The number that an addition gets, and what it asks; none if it has no number of 32 bits.
    fn asks_to_add(&self, adding: &Adding) -> Option<(u32, Ask)>
        ensures { IfSome result (λ x. (x.0 ≡ next_number adding.now self.now.wide.world) × (x.1 ≡ asks_to_add adding.now self.now.wide.world)) }
    {
        let state = &self.kept.wide().state;
        match *adding {
            Adding::AddThread(prio) => asks_for_thread(state.thread_count(), prio),
            Adding::AddMutex(kind, robust) => asks_for_mutex(state.mutex_count(), kind, robust),
            Adding::AddNone(kind, robust) => asks_for_none(state.mutex_count(), kind, robust),
            Adding::AddCond(mutex) => asks_for_cond(state.variable_count(), mutex),
        }
    }

    /// Whether an addition is one of a variable whose mutex was never added.
    fn lacks_mutex(&self, adding: &Adding) -> bool
        ensures { result ≡ lacks_mutex adding.now self.now.wide.world }
    {
        match *adding {
            Adding::AddCond(mutex) => mutex.get() as usize >= self.kept.wide().state.mutex_count(),
            _ => false,
        }
    }
}

/// Adds to a machine what has this number.
#[tactic(auto, using(crate::proofs::MachineSteps::at_limit_at))]
fn add_numbered(alloc: Global, machine: &mut Machine, number: u32, ask: &Ask) -> PifNumber
    ensures { IsAdded number ask.now machine.old machine.new result }
{
    match machine.next_at(alloc, ask, 0) {
        Ok(Some(wide)) => {
            machine.kept.set(wide);
            PifNumber { result: OK, number }
        }
        Ok(None) => PifNumber::refused(TOO_MANY),
        Err(stop) => PifNumber::refused(stop_number(stop)),
    }
}

/// An addition to a machine.
#[tactic(auto, using(crate::proofs::MachineSteps::asked_as))]
fn add(alloc: Global, machine: &mut Machine, adding: &Adding) -> PifNumber
    ensures { (why : ℕ) → AddsTo why (Some adding.now) (Some machine.old) (Some machine.new) result }
{
    if machine.lacks_mutex(adding) {
        return PifNumber::refused(NO_MUTEX);
    }
    match machine.asks_to_add(adding) {
        Some((number, ask)) => add_numbered(alloc, machine, number, &ask),
        None => PifNumber::refused(TOO_MANY),
    }
}

/// An addition to a machine, if the numbers name one; else this is why not.
fn add_if(alloc: Global, machine: &mut Machine, adding: Option<Adding>, why: u32) -> PifNumber
    ensures { AddsTo why adding (Some machine.old) (Some machine.new) result }
{
    match adding {
        Some(adding) => add(alloc, machine, &adding),
        None => PifNumber::refused(why),
    }
}

/// An addition to the machine that a handle holds.
#[tactic(auto, using(crate::proofs::MachineSteps::adds_on))]
fn add_on(alloc: Global, handle: &mut PifMachine, adding: Option<Adding>, why: u32) -> PifNumber
    ensures { AddsTo why adding (running handle.old) (running handle.new) result }
{
    match handle.take(alloc) {
        Some(mut machine) => {
            let told = add_if(alloc, &mut machine, adding, why);
            handle.put(machine);
            told
        }
        None => PifNumber::refused(NO_CORE),
    }
}

fn thread_of(prio: u32) -> Option<Adding>
    ensures { result ≡ thread_of prio }
{
    Some(Adding::AddThread(Prio::new(prio)?))
}

fn mutex_of(kind: u32, robust: bool, inherits: bool) -> Option<Adding>
    ensures { result ≡ mutex_of kind robust inherits }
{
    let kind = kind_of(kind)?;
    if inherits {
        Some(Adding::AddMutex(kind, robust))
    } else {
        Some(Adding::AddNone(kind, robust))
    }
}

fn cond_of(mutex: u32) -> Option<Adding>
    ensures { result ≡ cond_of mutex }
{
    Some(Adding::AddCond(MutexId::new(mutex)?))
}

/// Adds a thread of this base priority, with no call open.
#[unsafe(no_mangle)]
pub extern "C" fn pif_machine_add_thread(
    alloc: Global,
    handle: &mut PifMachine,
    prio: u32,
) -> PifNumber
    ensures { AddsTo pif.bad_prio (thread_of prio) (running handle.old) (running handle.new) result }
{
    add_on(alloc, handle, thread_of(prio), BAD_PRIO)
}

/// Adds a mutex of this kind, robust or stalled, that inherits or is one of PTHREAD_PRIO_NONE.
#[unsafe(no_mangle)]
pub extern "C" fn pif_machine_add_mutex(
    alloc: Global,
    handle: &mut PifMachine,
    kind: u32,
    robust: bool,
    inherits: bool,
) -> PifNumber
    ensures { AddsTo pif.invalid (mutex_of kind robust inherits) (running handle.old) (running handle.new) result }
{
    add_on(alloc, handle, mutex_of(kind, robust, inherits), INVALID)
}

/// Adds a condition variable, and binds it to this mutex.
#[unsafe(no_mangle)]
pub extern "C" fn pif_machine_add_cond(
    alloc: Global,
    handle: &mut PifMachine,
    mutex: u32,
) -> PifNumber
    ensures { AddsTo pif.no_mutex (cond_of mutex) (running handle.old) (running handle.new) result }
{
    add_on(alloc, handle, cond_of(mutex), NO_MUTEX)
}
