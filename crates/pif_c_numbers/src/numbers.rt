ghost use Rattle.std.specs.Prelude.{◌≡◌, ℕ, Option, Result};
ghost use Rattle.pif_model.specs.Word.{health_word};
ghost use Rattle.pif_c_numbers.specs.Numbers.{if_named, no_number, no_owner, no_state, no_limits, no_request, limits_told, number_or_0, request_told, open_told, refusal_number, add_number, added_told, number_told, seen_reported, kind_of, kind_number, request_of, doing_told};

use crate::codes::{
    ANSWERED, BAD_PRIO, BEGUN, BUSY, DEAD, ENDED, ERRORCHECK, FINE, GONE, IDLE, INCONSISTENT,
    NO_MUTEX, NO_SUCH, NONE, NORMAL, NOTHING, OK, PARKED, PAST, QUEUED, READY, RECURSIVE, REFUSED,
    STOPPED, TICKED, TOO_MANY, UNNAMED, UNUSABLE, WAITS, WENT,
};
use pif_model::{Seen, Status};
use pif_text_model::{Arguments, CallKind};
use pif_types::{AddFault, CondId, Health, Kind, Limits, MutexId, Refusal, Request, Tid};

/// What is answered to an event: what became of it, and beside it the answer of a call or the number of a refusal.
#[repr(C)]
#[derive(Clone, Copy, Drop)]
pub struct PifSeen {
    /// What became of it (`enum pif_what`).
    pub what: u32,
    /// Of what is answered 0 or the number of an error, of what is refused the number of the refusal, else 0.
    pub detail: u32,
}

impl PifSeen {
    /// What is answered if the handle holds no core.
    pub const NOTHING: PifSeen = PifSeen {
        what: NOTHING,
        detail: 0,
    };
    /// What is answered if a number names nothing.
    pub const UNNAMED: PifSeen = PifSeen {
        what: UNNAMED,
        detail: 0,
    };
}

/// A number, if there is one.
#[repr(C)]
#[derive(Clone, Copy, Drop)]
pub struct PifNumber {
    /// 0, or why there is none (`enum pif_result`).
    pub result: u32,
    /// The number, 0 if there is none.
    pub number: u32,
}

impl PifNumber {
    /// No number, and why (`enum pif_result`).
    pub fn refused(why: u32) -> PifNumber
        ensures { result ≡ no_number why }
    {
        PifNumber {
            result: why,
            number: 0,
        }
    }
}

/// The owner of a mutex, if there is one.
#[repr(C)]
#[derive(Clone, Copy, Drop)]
pub struct PifOwned {
    /// 0, or why there is none (`enum pif_result`).
    pub result: u32,
    /// Its number, 0 if there is none.
    pub thread: u32,
    /// How often it holds the mutex.
    pub count: u32,
}

impl PifOwned {
    /// No owner, and why (`enum pif_result`).
    pub fn refused(why: u32) -> PifOwned
        ensures { result ≡ no_owner why }
    {
        PifOwned {
            result: why,
            thread: 0,
            count: 0,
        }
    }
}

/// What a thread does, if it was added.
#[repr(C)]
#[derive(Clone, Copy, Drop)]
pub struct PifDoing {
    /// 0, or why there is nothing to say (`enum pif_result`).
    pub result: u32,
    /// What it does (`enum pif_state`).
    pub state: u32,
    /// The mutex or the condition variable for which it waits, else 0.
    pub waits_for: u32,
}

impl PifDoing {
    /// Nothing to say, and why (`enum pif_result`).
    pub fn refused(why: u32) -> PifDoing
        ensures { result ≡ no_state why }
    {
        PifDoing {
            result: why,
            state: 0,
            waits_for: 0,
        }
    }
}

/// A call, with what it names. What a call doesn't name is not looked at.
#[repr(C)]
#[derive(Clone, Copy, Drop)]
pub struct PifRequest {
    /// Which call it is (`enum pif_kind_of_call`): `CallRow::number` of `pif_text_model`.
    pub call: u32,
    /// The mutex.
    pub mutex: u32,
    /// The condition variable.
    pub cond: u32,
    /// The thread whose priority is set.
    pub thread: u32,
    /// That priority.
    pub prio: u32,
    /// The deadline.
    pub deadline: u32,
}

impl PifRequest {
    /// No call: each number is 0.
    pub fn none() -> PifRequest
        ensures { result ≡ no_request }
    {
        PifRequest {
            call: 0,
            mutex: 0,
            cond: 0,
            thread: 0,
            prio: 0,
            deadline: 0,
        }
    }
}

/// The call that a thread has open, if it has one.
#[repr(C)]
#[derive(Clone, Copy, Drop)]
pub struct PifOpen {
    /// 0, or why there is none (`enum pif_result`).
    pub result: u32,
    /// The call as it was begun; each number is 0 if there is none.
    pub request: PifRequest,
}

impl PifOpen {
    /// No call, and why (`enum pif_result`).
    pub fn refused(why: u32) -> PifOpen
        ensures { result ≡ record { result = why; request = no_request } }
    {
        PifOpen {
            result: why,
            request: PifRequest::none(),
        }
    }
}

/// The limits of a core, if there is one.
#[repr(C)]
#[derive(Clone, Copy, Drop)]
pub struct PifLimits {
    /// 0, or why there are none (`enum pif_result`).
    pub result: u32,
    /// The most threads that are ever added.
    pub threads: u32,
    /// The most mutexes.
    pub mutexes: u32,
    /// The most condition variables.
    pub conds: u32,
    /// The most signals and broadcasts together on one variable.
    pub signals: u32,
}

impl PifLimits {
    /// No limits, and why (`enum pif_result`).
    pub fn refused(why: u32) -> PifLimits
        ensures { result ≡ no_limits why }
    {
        PifLimits {
            result: why,
            threads: 0,
            mutexes: 0,
            conds: 0,
            signals: 0,
        }
    }
}

/// The limits of a core, in numbers.
pub fn limits_told(limits: Limits) -> PifLimits
    ensures { result ≡ limits_told limits }
{
    PifLimits {
        result: OK,
        threads: limits.threads(),
        mutexes: limits.mutexes(),
        conds: limits.conds(),
        signals: limits.signals(),
    }
}

/// The number of a refusal.
#[inline(always)]
fn refusal_number(refusal: Refusal) -> u32
    ensures { result ≡ refusal_number refusal }
{
    match refusal {
        Refusal::NoSuch => NO_SUCH,
        Refusal::Dead => DEAD,
        Refusal::Busy => BUSY,
        Refusal::Idle => IDLE,
        Refusal::Past => PAST,
    }
}

/// What was seen, in numbers.
#[inline(always)]
pub fn seen_reported(seen: Seen) -> PifSeen
    ensures { result ≡ seen_reported seen }
{
    let (what, detail) = match seen {
        Seen::Begun => (BEGUN, 0),
        Seen::Went => (WENT, 0),
        Seen::Waits => (WAITS, 0),
        Seen::Answered(answer) => (ANSWERED, answer),
        Seen::Ended => (ENDED, 0),
        Seen::Ticked => (TICKED, 0),
        Seen::Refused(refusal) => (REFUSED, refusal_number(refusal)),
    };
    PifSeen { what, detail }
}

/// The number of what kept an addition from being made.
fn fault_number(fault: AddFault) -> u32
    ensures { result ≡ add_number fault }
{
    match fault {
        AddFault::TooMany => TOO_MANY,
        AddFault::BadPrio => BAD_PRIO,
        AddFault::NoSuch => NO_MUTEX,
    }
}

/// The number of an addition, or what kept it from being made.
pub fn added_told(added: Result<u32, AddFault>) -> PifNumber
    ensures { result ≡ added_told added }
{
    match added {
        Ok(number) => PifNumber { result: OK, number },
        Err(fault) => PifNumber::refused(fault_number(fault)),
    }
}

/// A number that a core may show.
pub fn number_told(shown: Option<u32>) -> PifNumber
    ensures { result ≡ number_told shown }
{
    match shown {
        Some(number) => PifNumber { result: OK, number },
        None => PifNumber::refused(NONE),
    }
}

/// The kind of a mutex that has this number in pthread.h of Linux.
pub fn kind_of(kind: u32) -> Option<Kind>
    ensures { result ≡ kind_of kind }
{
    match kind {
        NORMAL => Some(Kind::Normal),
        RECURSIVE => Some(Kind::Recursive),
        ERRORCHECK => Some(Kind::ErrorCheck),
        _ => None,
    }
}

/// The number that a kind has in pthread.h of Linux: its number in `enum pif_kind`.
pub fn kind_code(kind: Kind) -> u32
    ensures { result ≡ kind_number kind }
{
    match kind {
        Kind::Normal => NORMAL,
        Kind::Recursive => RECURSIVE,
        Kind::ErrorCheck => ERRORCHECK,
    }
}

/// The health word that says this: its number in `enum pif_health_of`.
pub fn health_code(health: Health) -> u32
    ensures { result ≡ health_word health }
{
    match health {
        Health::Fine => FINE,
        Health::Inconsistent => INCONSISTENT,
        Health::Unusable => UNUSABLE,
    }
}

/// What a thread does, in numbers.
pub fn doing_told(status: Status) -> PifDoing
    ensures { result ≡ doing_told status }
{
    let (state, waits_for) = match status {
        Status::Ready(_) => (READY, 0),
        Status::Queued(mutex) => (QUEUED, mutex.get()),
        Status::Parked(cond) => (PARKED, cond.get()),
        Status::Stopped => (STOPPED, 0),
        Status::Ended => (GONE, 0),
    };
    PifDoing {
        result: OK,
        state,
        waits_for,
    }
}

/// The thread of this number, if it names one.
fn thread_of(number: u32) -> Option<Tid>
    ensures { result ≡ if_named number }
{
    Tid::new(number)
}

/// The mutex of this number, if it names one.
fn mutex_of(number: u32) -> Option<MutexId>
    ensures { result ≡ if_named number }
{
    MutexId::new(number)
}

/// The condition variable of this number, if it names one.
fn cond_of(number: u32) -> Option<CondId>
    ensures { result ≡ if_named number }
{
    CondId::new(number)
}

/// The call that these numbers name, if each number that it needs names something.
#[inline(always)]
pub fn request_of(asked: PifRequest) -> Option<Request>
    ensures { result ≡ request_of asked }
{
    let arguments = Arguments {
        thread: thread_of(asked.thread),
        mutex: mutex_of(asked.mutex),
        cond: cond_of(asked.cond),
        priority: Some(asked.prio),
        deadline: Some(asked.deadline),
    };
    CallKind::numbered(asked.call)?.request(&arguments)
}

/// The number of a thread, 0 if there is none.
fn thread_or_0(thread: Option<Tid>) -> u32
    ensures { result ≡ number_or_0 thread }
{
    match thread {
        Some(thread) => thread.get(),
        None => 0,
    }
}

/// The number of a mutex, 0 if there is none.
fn mutex_or_0(mutex: Option<MutexId>) -> u32
    ensures { result ≡ number_or_0 mutex }
{
    match mutex {
        Some(mutex) => mutex.get(),
        None => 0,
    }
}

/// The number of a condition variable, 0 if there is none.
fn cond_or_0(cond: Option<CondId>) -> u32
    ensures { result ≡ number_or_0 cond }
{
    match cond {
        Some(cond) => cond.get(),
        None => 0,
    }
}

/// A number, 0 if there is none.
fn number_or_0(number: Option<u32>) -> u32
    ensures { result ≡ number_or_0 number }
{
    number.unwrap_or(0)
}

/// A call in numbers. What it doesn't name is 0.
pub fn request_told(request: &Request) -> PifRequest
    ensures { result ≡ request_told request.now }
{
    let arguments = Arguments::of(request);
    let row = CallKind::of(request).row();
    PifRequest {
        call: row.number,
        mutex: mutex_or_0(arguments.mutex),
        cond: cond_or_0(arguments.cond),
        thread: thread_or_0(arguments.thread),
        prio: number_or_0(arguments.priority),
        deadline: number_or_0(arguments.deadline),
    }
}

/// The call that a thread may have open.
pub fn open_told(call: Option<Request>) -> PifOpen
    ensures { result ≡ open_told call }
{
    match call {
        Some(request) => PifOpen {
            result: OK,
            request: request_told(&request),
        },
        None => PifOpen::refused(NONE),
    }
}
