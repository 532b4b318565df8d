ghost use Rattle.std.specs.Prelude.{◌≡◌, Option, Some, None, option_map};
ghost use Rattle.pif_c.specs.Handles.{held};
ghost use Rattle.pif_c.specs.Asking.{begin_of, go_of, end_of, tick_of, call_of, finish_of};
ghost use Rattle.pif_c.specs.Standing.{Turns};

use crate::asking::{Turn, turn_on};
use crate::handles::PifCore;
use pif_c_numbers::{PifRequest, PifSeen, request_of};
use pif_core::Event;
use pif_types::Tid;
use std::alloc::Global;

#[inline(always)]
fn begin_of(thread: u32, request: PifRequest) -> Option<Turn>
    ensures { result ≡ begin_of thread request }
{
    let thread = Tid::new(thread)?;
    let request = request_of(request)?;
    Some(Turn::Event(Event::Begin(thread, request)))
}

#[inline(always)]
fn call_of(thread: u32, request: PifRequest) -> Option<Turn>
    ensures { result ≡ call_of thread request }
{
    let thread = Tid::new(thread)?;
    let request = request_of(request)?;
    Some(Turn::Call(thread, request))
}

#[inline(always)]
fn go_of(thread: u32) -> Option<Turn>
    ensures { result ≡ go_of thread }
{
    Some(Turn::Event(Event::Go(Tid::new(thread)?)))
}

#[inline(always)]
fn end_of(thread: u32) -> Option<Turn>
    ensures { result ≡ end_of thread }
{
    Some(Turn::Event(Event::End(Tid::new(thread)?)))
}

#[inline(always)]
fn finish_of(thread: u32) -> Option<Turn>
    ensures { result ≡ finish_of thread }
{
    Some(Turn::Finish(Tid::new(thread)?))
}

/// A thread begins a call: `Core::step` of `Event::Begin`. If a number names nothing, nothing has changed.
#[unsafe(no_mangle)]
pub extern "C" fn pif_begin(
    alloc: Global,
    handle: &mut PifCore,
    thread: u32,
    request: PifRequest,
) -> PifSeen
    ensures { Turns (begin_of thread request) (held handle.old) (held handle.new) result }
{
    turn_on(alloc, handle, begin_of(thread, request))
}

/// A thread takes one step of its open call: `Core::step` of `Event::Go`.
#[unsafe(no_mangle)]
pub extern "C" fn pif_go(alloc: Global, handle: &mut PifCore, thread: u32) -> PifSeen
    ensures { Turns (go_of thread) (held handle.old) (held handle.new) result }
{
    turn_on(alloc, handle, go_of(thread))
}

/// A thread makes a whole call: `Core::call`.
#[unsafe(no_mangle)]
pub extern "C" fn pif_call(
    alloc: Global,
    handle: &mut PifCore,
    thread: u32,
    request: PifRequest,
) -> PifSeen
    ensures { Turns (call_of thread request) (held handle.old) (held handle.new) result }
{
    turn_on(alloc, handle, call_of(thread, request))
}

/// A thread goes on with its open call until it is answered or waits: `Core::finish`.
#[unsafe(no_mangle)]
pub extern "C" fn pif_finish(alloc: Global, handle: &mut PifCore, thread: u32) -> PifSeen
    ensures { Turns (finish_of thread) (held handle.old) (held handle.new) result }
{
    turn_on(alloc, handle, finish_of(thread))
}

/// A thread ends, with a call open or not: `Core::step` of `Event::End`.
#[unsafe(no_mangle)]
pub extern "C" fn pif_end(alloc: Global, handle: &mut PifCore, thread: u32) -> PifSeen
    ensures { Turns (end_of thread) (held handle.old) (held handle.new) result }
{
    turn_on(alloc, handle, end_of(thread))
}

/// The time is this from now on: `Core::step` of `Event::Tick`.
#[unsafe(no_mangle)]
pub extern "C" fn pif_tick(alloc: Global, handle: &mut PifCore, time: u32) -> PifSeen
    ensures { Turns (tick_of time) (held handle.old) (held handle.new) result }
{
    turn_on(alloc, handle, Some(Turn::Event(Event::Tick(time))))
}
