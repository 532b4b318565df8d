ghost use Rattle.std.specs.Prelude.{◌≡◌, Option, Some, None};
ghost use Rattle.pif_model.specs.Calls.{owner_answer, status_answer};
ghost use Rattle.pif_c.specs.Handles.{held};
ghost use Rattle.pif_c_numbers.specs.Numbers.{owner_told, status_told};
ghost use Rattle.pif_c.specs.Asking.{IsOnPath, Looks, PathTold, owner_shown, status_shown, limits_shown, open_shown};

use crate::asking::{Look, look_on};
use crate::handles::PifCore;
use pif_c_numbers::codes::{NO_CORE, NONE, OK};
use pif_c_numbers::{
    PifDoing, PifLimits, PifNumber, PifOpen, PifOwned, doing_told, limits_told, number_told,
    open_told,
};
use pif_core::Core;
use pif_types::{MutexId, Tid};
use std::alloc::Global;

/// The effective priority of a thread: `Core::effective`.
#[unsafe(no_mangle)]
pub extern "C" fn pif_effective(alloc: Global, handle: &mut PifCore, thread: u32) -> PifNumber
    ensures { Looks (Look.Effective thread) (held handle.old) (held handle.new) result }
{
    look_on(alloc, handle, Look::Effective(thread))
}

/// 1 if a thread is blocked and its deadline isn't reached, 0 if it may take a step: `Core::waiting`.
#[unsafe(no_mangle)]
pub extern "C" fn pif_waiting(alloc: Global, handle: &mut PifCore, thread: u32) -> PifNumber
    ensures { Looks (Look.Waiting thread) (held handle.old) (held handle.new) result }
{
    look_on(alloc, handle, Look::Waiting(thread))
}

/// The word of a mutex: `Core::word`.
#[unsafe(no_mangle)]
pub extern "C" fn pif_word(alloc: Global, handle: &mut PifCore, mutex: u32) -> PifNumber
    ensures { Looks (Look.Word mutex) (held handle.old) (held handle.new) result }
{
    look_on(alloc, handle, Look::Word(mutex))
}

/// The health of a mutex: `Core::health`.
#[unsafe(no_mangle)]
pub extern "C" fn pif_health(alloc: Global, handle: &mut PifCore, mutex: u32) -> PifNumber
    ensures { Looks (Look.Health mutex) (held handle.old) (held handle.new) result }
{
    look_on(alloc, handle, Look::Health(mutex))
}

/// The condition word of a variable: `Core::cond_word`.
#[unsafe(no_mangle)]
pub extern "C" fn pif_cond_word(alloc: Global, handle: &mut PifCore, cond: u32) -> PifNumber
    ensures { Looks (Look.CondWord cond) (held handle.old) (held handle.new) result }
{
    look_on(alloc, handle, Look::CondWord(cond))
}

/// The thread that runs next: `Core::pick`.
#[unsafe(no_mangle)]
pub extern "C" fn pif_pick(alloc: Global, handle: &mut PifCore) -> PifNumber
    ensures { Looks Look.Pick (held handle.old) (held handle.new) result }
{
    look_on(alloc, handle, Look::Pick)
}

/// The base priority of a thread: `Core::base`.
#[unsafe(no_mangle)]
pub extern "C" fn pif_base(alloc: Global, handle: &mut PifCore, thread: u32) -> PifNumber
    ensures { Looks (Look.Base thread) (held handle.old) (held handle.new) result }
{
    look_on(alloc, handle, Look::Base(thread))
}

/// The kind of a mutex (`enum pif_kind`): `Core::kind`.
#[unsafe(no_mangle)]
pub extern "C" fn pif_mutex_kind(alloc: Global, handle: &mut PifCore, mutex: u32) -> PifNumber
    ensures { Looks (Look.MutexKind mutex) (held handle.old) (held handle.new) result }
{
    look_on(alloc, handle, Look::MutexKind(mutex))
}

/// 1 if a mutex is robust, 0 if it is stalled: `Core::kind`.
#[unsafe(no_mangle)]
pub extern "C" fn pif_robust(alloc: Global, handle: &mut PifCore, mutex: u32) -> PifNumber
    ensures { Looks (Look.Robust mutex) (held handle.old) (held handle.new) result }
{
    look_on(alloc, handle, Look::Robust(mutex))
}

/// The mutex to which a condition variable is bound: `Core::bound`.
#[unsafe(no_mangle)]
pub extern "C" fn pif_bound(alloc: Global, handle: &mut PifCore, cond: u32) -> PifNumber
    ensures { Looks (Look.Bound cond) (held handle.old) (held handle.new) result }
{
    look_on(alloc, handle, Look::Bound(cond))
}

/// The waiter of a mutex before which so many others get it: `Core::waiter`.
#[unsafe(no_mangle)]
pub extern "C" fn pif_waiter(
    alloc: Global,
    handle: &mut PifCore,
    mutex: u32,
    place: u32,
) -> PifNumber
    ensures { Looks (Look.Waiter mutex place) (held handle.old) (held handle.new) result }
{
    look_on(alloc, handle, Look::Waiter(mutex, place))
}

/// The thread that is parked on a variable and before which so many others are woken: `Core::parked`.
#[unsafe(no_mangle)]
pub extern "C" fn pif_parked(
    alloc: Global,
    handle: &mut PifCore,
    cond: u32,
    place: u32,
) -> PifNumber
    ensures { Looks (Look.ParkedOn cond place) (held handle.old) (held handle.new) result }
{
    look_on(alloc, handle, Look::ParkedOn(cond, place))
}

/// The ready thread before which so many others run: `Core::ready`.
#[unsafe(no_mangle)]
pub extern "C" fn pif_ready(alloc: Global, handle: &mut PifCore, place: u32) -> PifNumber
    ensures { Looks (Look.ReadyAt place) (held handle.old) (held handle.new) result }
{
    look_on(alloc, handle, Look::ReadyAt(place))
}

/// The time: `Core::time`.
#[unsafe(no_mangle)]
pub extern "C" fn pif_time(alloc: Global, handle: &mut PifCore) -> PifNumber
    ensures { Looks Look.Time (held handle.old) (held handle.new) result }
{
    look_on(alloc, handle, Look::Time)
}

/// How many threads were ever added: `Core::threads`.
#[unsafe(no_mangle)]
pub extern "C" fn pif_threads(alloc: Global, handle: &mut PifCore) -> PifNumber
    ensures { Looks Look.Threads (held handle.old) (held handle.new) result }
{
    look_on(alloc, handle, Look::Threads)
}

/// How many mutexes were ever added: `Core::mutexes`.
#[unsafe(no_mangle)]
pub extern "C" fn pif_mutexes(alloc: Global, handle: &mut PifCore) -> PifNumber
    ensures { Looks Look.Mutexes (held handle.old) (held handle.new) result }
{
    look_on(alloc, handle, Look::Mutexes)
}

/// How many condition variables were ever added: `Core::conds`.
#[unsafe(no_mangle)]
pub extern "C" fn pif_conds(alloc: Global, handle: &mut PifCore) -> PifNumber
    ensures { Looks Look.Conds (held handle.old) (held handle.new) result }
{
    look_on(alloc, handle, Look::Conds)
}

/// The limits: `Core::limits`.
#[unsafe(no_mangle)]
pub extern "C" fn pif_limits(alloc: Global, handle: &mut PifCore) -> PifLimits
    ensures answer { result ≡ limits_shown (held handle.old) }
    ensures same { held handle.new ≡ held handle.old }
{
    match handle.take(alloc) {
        Some(core) => {
            let shown = limits_told(core.limits());
            handle.put(core);
            shown
        }
        None => PifLimits::refused(NO_CORE),
    }
}

fn open_call(core: &Core, thread: u32) -> PifOpen
    ensures { result ≡ open_shown thread (Some core.now) }
{
    match Tid::new(thread) {
        Some(thread) => open_told(core.open_call(thread)),
        None => PifOpen::refused(NONE),
    }
}

/// The call that a thread has open, as it was begun: `Core::open_call`.
#[unsafe(no_mangle)]
pub extern "C" fn pif_open_call(alloc: Global, handle: &mut PifCore, thread: u32) -> PifOpen
    ensures answer { result ≡ open_shown thread (held handle.old) }
    ensures same { held handle.new ≡ held handle.old }
{
    match handle.take(alloc) {
        Some(core) => {
            let shown = open_call(&core, thread);
            handle.put(core);
            shown
        }
        None => PifOpen::refused(NO_CORE),
    }
}

/// The thread at a place of the path of waiting from a thread.
fn on_path(core: &Core, thread: u32, place: u32) -> Option<u32>
    ensures { IsOnPath thread place core.now result }
{
    let path = core.path(Tid::new(thread)?);
    match path.as_slice().get(place as usize) {
        Some(found) => Some(found.get()),
        None => None,
    }
}

/// The thread at a place of the path of waiting from a thread, 0 for that thread itself: `Core::path`.
#[unsafe(no_mangle)]
pub extern "C" fn pif_path(
    alloc: Global,
    handle: &mut PifCore,
    thread: u32,
    place: u32,
) -> PifNumber
    ensures answer { PathTold thread place (held handle.old) result }
    ensures same { held handle.new ≡ held handle.old }
{
    match handle.take(alloc) {
        Some(core) => {
            let found = on_path(&core, thread, place);
            handle.put(core);
            number_told(found)
        }
        None => PifNumber::refused(NO_CORE),
    }
}

fn owner(core: &Core, mutex: u32) -> PifOwned
    ensures { result ≡ owner_shown mutex (Some core.now) }
{
    let Some(mutex) = MutexId::new(mutex) else {
        return PifOwned::refused(NONE);
    };
    match core.owner(mutex) {
        Some((thread, count)) => PifOwned {
            result: OK,
            thread: thread.get(),
            count,
        },
        None => PifOwned::refused(NONE),
    }
}

/// The owner of a mutex, and how often it holds the mutex: `Core::owner`.
#[unsafe(no_mangle)]
pub extern "C" fn pif_owner(alloc: Global, handle: &mut PifCore, mutex: u32) -> PifOwned
    ensures answer { result ≡ owner_shown mutex (held handle.old) }
    ensures same { held handle.new ≡ held handle.old }
{
    match handle.take(alloc) {
        Some(core) => {
            let shown = owner(&core, mutex);
            handle.put(core);
            shown
        }
        None => PifOwned::refused(NO_CORE),
    }
}

fn status(core: &Core, thread: u32) -> PifDoing
    ensures { result ≡ status_shown thread (Some core.now) }
{
    let Some(thread) = Tid::new(thread) else {
        return PifDoing::refused(NONE);
    };
    match core.status(thread) {
        Some(status) => doing_told(status),
        None => PifDoing::refused(NONE),
    }
}

/// What a thread does: `Core::status`.
#[unsafe(no_mangle)]
pub extern "C" fn pif_status(alloc: Global, handle: &mut PifCore, thread: u32) -> PifDoing
    ensures answer { result ≡ status_shown thread (held handle.old) }
    ensures same { held handle.new ≡ held handle.old }
{
    match handle.take(alloc) {
        Some(core) => {
            let shown = status(&core, thread);
            handle.put(core);
            shown
        }
        None => PifDoing::refused(NO_CORE),
    }
}
