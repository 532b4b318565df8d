ghost use Rattle.std.specs.Prelude.{◌≡◌, Option, Some, None};
ghost use Rattle.pif_c.specs.MachineHandles.{running};
ghost use Rattle.pif_c.specs.Going.{Counts, Happens, begins, ends, ends_apart, moves, stop_number, ticks};

use crate::machine_handles::PifMachine;
use crate::machines::{Ask, Machine, by_numbered};
use pif_c_numbers::codes::{INVALID, NO_CORE, NO_MEMORY, NONE, OK, TOO_MANY};
use pif_c_numbers::{PifNumber, PifRequest, request_of};
use pif_model::{Entry, Event, Seen};
use pif_search::Stop;
use pif_types::{Request, Tid};
use std::alloc::Global;

/// The number of why a machine gives up.
pub(crate) fn stop_number(stop: Stop) -> u32
    ensures { result ≡ stop_number stop }
{
    match stop {
        Stop::NoMemory => NO_MEMORY,
        Stop::Range => TOO_MANY,
        Stop::Many => TOO_MANY,
    }
}

/// Something happens to a machine, by a copy of its state.
#[tactic(auto, using(crate::proofs::MachineSteps::not_happened_at))]
fn happen_copied(alloc: Global, machine: &mut Machine, ask: &Ask, place: u32) -> u32
    ensures { Happens (Some ask.now) place (Some machine.old) (Some machine.new) result }
{
    match machine.next_at(alloc, ask, place) {
        Ok(Some(wide)) => {
            machine.kept.set(wide);
            OK
        }
        Ok(None) => NONE,
        Err(stop) => stop_number(stop),
    }
}

/// Something happens to a machine.
fn happen(alloc: Global, machine: &mut Machine, ask: &Ask, place: u32) -> u32
    ensures { Happens (Some ask.now) place (Some machine.old) (Some machine.new) result }
{
    if machine.happens_in_place(alloc, ask, place) {
        OK
    } else {
        happen_copied(alloc, machine, ask, place)
    }
}

/// Something happens to a machine, if the numbers name it.
fn happen_if(alloc: Global, machine: &mut Machine, ask: Option<Ask>, place: u32) -> u32
    ensures { Happens ask place (Some machine.old) (Some machine.new) result }
{
    match ask {
        Some(ask) => happen(alloc, machine, &ask, place),
        None => INVALID,
    }
}

/// Something happens to the machine that a handle holds.
#[tactic(auto, using(crate::proofs::MachineSteps::happens_on, crate::proofs::MachineSteps::happens_on_none))]
fn happen_on(alloc: Global, handle: &mut PifMachine, ask: Option<Ask>, place: u32) -> u32
    ensures { Happens ask place (running handle.old) (running handle.new) result }
{
    match handle.take(alloc) {
        Some(mut machine) => {
            let told = happen_if(alloc, &mut machine, ask, place);
            handle.put(machine);
            told
        }
        None => NO_CORE,
    }
}

/// How many states there are to which it leads.
#[tactic(auto, using(crate::proofs::MachineSteps::counted_as))]
fn count(alloc: Global, machine: &Machine, ask: &Ask) -> PifNumber
    ensures { Counts (Some ask.now) (Some machine.now) result }
{
    match machine.count(alloc, ask) {
        Ok(count) => match u32::try_from(count) {
            Ok(number) => PifNumber { result: OK, number },
            Err(_) => PifNumber::refused(TOO_MANY),
        },
        Err(stop) => PifNumber::refused(stop_number(stop)),
    }
}

/// The same, if the numbers name it.
fn count_if(alloc: Global, machine: &Machine, ask: Option<Ask>) -> PifNumber
    ensures { Counts ask (Some machine.now) result }
{
    match ask {
        Some(ask) => count(alloc, machine, &ask),
        None => PifNumber::refused(INVALID),
    }
}

/// The same of the machine that a handle holds, which holds it afterwards.
fn count_on(alloc: Global, handle: &mut PifMachine, ask: Option<Ask>) -> PifNumber
    ensures answer { Counts ask (running handle.old) result }
    ensures same { running handle.new ≡ running handle.old }
{
    match handle.take(alloc) {
        Some(machine) => {
            let told = count_if(alloc, &machine, ask);
            handle.put(machine);
            told
        }
        None => PifNumber::refused(NO_CORE),
    }
}

fn begins(thread: u32, request: PifRequest) -> Option<Ask>
    ensures { result ≡ begins thread request }
{
    let thread = Tid::new(thread)?;
    let request = request_of(request)?;
    Some(Ask::Line(Entry::Step(Event::Begin(thread, request), Seen::Begun)))
}

fn ends(thread: u32) -> Option<Ask>
    ensures { result ≡ ends thread }
{
    let thread = Tid::new(thread)?;
    Some(Ask::Line(Entry::Step(Event::End(thread), Seen::Ended)))
}

fn ends_apart(thread: u32) -> Option<Ask>
    ensures { result ≡ ends_apart thread }
{
    let thread = Tid::new(thread)?;
    Some(Ask::EndsApart(thread.get()))
}

fn ticks(time: u32) -> Option<Ask>
    ensures { result ≡ ticks time }
{
    Some(Ask::Line(Entry::Step(Event::Tick(time), Seen::Ticked)))
}

fn moves(thread: u32, by: u32) -> Option<Ask>
    ensures { result ≡ moves thread by }
{
    let _no_request: Option<Request> = None;
    let thread = Tid::new(thread)?;
    let by = by_numbered(by)?;
    Some(Ask::Move(thread.get(), by))
}

/// A thread begins a call.
#[unsafe(no_mangle)]
pub extern "C" fn pif_machine_begin(
    alloc: Global,
    handle: &mut PifMachine,
    thread: u32,
    request: PifRequest,
) -> u32
    ensures { Happens (begins thread request) 0 (running handle.old) (running handle.new) result }
{
    happen_on(alloc, handle, begins(thread, request), 0)
}

/// How many states there are to which a move of a thread leads, by the machine itself or a rule.
#[unsafe(no_mangle)]
pub extern "C" fn pif_machine_moves(
    alloc: Global,
    handle: &mut PifMachine,
    thread: u32,
    by: u32,
) -> PifNumber
    ensures answer { Counts (moves thread by) (running handle.old) result }
    ensures same { running handle.new ≡ running handle.old }
{
    count_on(alloc, handle, moves(thread, by))
}

/// A thread moves, to the state at this place.
#[unsafe(no_mangle)]
pub extern "C" fn pif_machine_move(
    alloc: Global,
    handle: &mut PifMachine,
    thread: u32,
    by: u32,
    place: u32,
) -> u32
    ensures { Happens (moves thread by) place (running handle.old) (running handle.new) result }
{
    happen_on(alloc, handle, moves(thread, by), place)
}

/// How many states there are to which the end of a thread leads.
#[unsafe(no_mangle)]
pub extern "C" fn pif_machine_ends(alloc: Global, handle: &mut PifMachine, thread: u32) -> PifNumber
    ensures answer { Counts (ends thread) (running handle.old) result }
    ensures same { running handle.new ≡ running handle.old }
{
    count_on(alloc, handle, ends(thread))
}

/// A thread ends at one moment, and leads to the state at this place.
#[unsafe(no_mangle)]
pub extern "C" fn pif_machine_end(
    alloc: Global,
    handle: &mut PifMachine,
    thread: u32,
    place: u32,
) -> u32
    ensures { Happens (ends thread) place (running handle.old) (running handle.new) result }
{
    happen_on(alloc, handle, ends(thread), place)
}

/// How many states there are to which a step of the end of a thread leads by `ends_apart`.
#[unsafe(no_mangle)]
pub extern "C" fn pif_machine_ends_apart(
    alloc: Global,
    handle: &mut PifMachine,
    thread: u32,
) -> PifNumber
    ensures answer { Counts (ends_apart thread) (running handle.old) result }
    ensures same { running handle.new ≡ running handle.old }
{
    count_on(alloc, handle, ends_apart(thread))
}

/// A step of the end of a thread by `ends_apart`, to the state at this place.
#[unsafe(no_mangle)]
pub extern "C" fn pif_machine_end_apart(
    alloc: Global,
    handle: &mut PifMachine,
    thread: u32,
    place: u32,
) -> u32
    ensures { Happens (ends_apart thread) place (running handle.old) (running handle.new) result }
{
    happen_on(alloc, handle, ends_apart(thread), place)
}

/// The time is this from now on.
#[unsafe(no_mangle)]
pub extern "C" fn pif_machine_tick(alloc: Global, handle: &mut PifMachine, time: u32) -> u32
    ensures { Happens (ticks time) 0 (running handle.old) (running handle.new) result }
{
    happen_on(alloc, handle, ticks(time), 0)
}
