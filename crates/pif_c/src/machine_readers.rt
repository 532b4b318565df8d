ghost use Rattle.std.specs.Prelude.{◌≡◌, ◌==◌, Option, Some, None, if◌then◌else◌};
ghost use Rattle.pif_model.specs.World.{is_living};
ghost use Rattle.pif_posix.specs.Shapes.{call_of, health_of, progress_of};
ghost use Rattle.pif_rules_model.specs.Undefined.{is_left_undefined};
ghost use Rattle.pif_c_numbers.specs.Codes as pif;
ghost use Rattle.pif_c_numbers.specs.Numbers.{no_state};
ghost use Rattle.pif_c.specs.Asking.{bit_of};
ghost use Rattle.pif_c.specs.MachineHandles.{running};
ghost use Rattle.pif_c.specs.Going.{EffectiveTold, IsAnswered, doing_by_handle, owner_by_handle, shown_by};
ghost use Rattle.pif_c.specs.Machines.{doing_by, doing_in, doing_of, health_in, health_number, owner_in, result_in, result_of, state_told};

use crate::going::stop_number;
use crate::machine_handles::PifMachine;
use crate::machines::{Ask, Machine};
use pif_c_numbers::codes::{
    FINE, GONE, INCONSISTENT, NO_CORE, NONE, OK, PARKED, QUEUED, READY, STOPPED, UNUSABLE,
};
use pif_c_numbers::{PifDoing, PifNumber, PifOwned, number_told};
use pif_model::{Entry, Event, Seen};
use pif_posix::{Call, Progress, State, named_by, reported_result, variable_of};
use pif_types::{Health, Refusal, Tid};
use std::alloc::Global;

/// What an open call is answered that has its result.
fn result_of(call: &Option<Call>, expired: bool) -> Option<u32>
    ensures { result ≡ result_of (call_of call.now) expired }
{
    match call {
        Some(
            Call {
                request,
                progress: Progress::Has(result),
            },
        ) => Some(reported_result(request, expired, *result)),
        _ => None,
    }
}

/// What the open call of a thread is answered now, if it has its result.
fn result_in(state: &State, thread: u32) -> Option<u32>
    ensures { result ≡ result_in state.now thread }
{
    if thread as usize >= state.thread_count() {
        return None;
    }
    let expired = state.timer(thread as usize).expired;
    result_of(&state.call(thread as usize), expired)
}

impl Machine {
    /// What the open call of a thread is answered now, if it has its result.
    fn result_in(&self, thread: u32) -> Option<u32>
        ensures { result ≡ result_in self.now.wide.world thread }
    {
        result_in(&self.kept.wide().state, thread)
    }

    /// Whether a thread lives.
    fn is_living(&self, thread: u32) -> bool
        ensures { result ≡ is_living self.now.wide.world thread }
    {
        self.kept.wide().state.is_living(thread as usize)
    }
}

/// The open call of a thread is answered this, by a copy of the state.
#[tactic(auto, using(crate::proofs::MachineSteps::not_answered_at))]
fn answer_copied(alloc: Global, machine: &mut Machine, thread: Tid, answer: u32) -> PifNumber
    ensures { result_in machine.old.wide.world thread ≡ Some answer → IsAnswered thread (Some machine.old) (Some machine.new) result }
{
    let ask = Ask::Line(Entry::Step(Event::Go(thread), Seen::Answered(answer)));
    match machine.next_at(alloc, &ask, 0) {
        Ok(Some(wide)) => {
            machine.kept.set(wide);
            PifNumber {
                result: OK,
                number: answer,
            }
        }
        Ok(None) => PifNumber::refused(NONE),
        Err(stop) => PifNumber::refused(stop_number(stop)),
    }
}

/// The open call of a thread is answered this.
fn answer_by(alloc: Global, machine: &mut Machine, thread: Tid, answer: u32) -> PifNumber
    ensures { result_in machine.old.wide.world thread ≡ Some answer → IsAnswered thread (Some machine.old) (Some machine.new) result }
{
    let ask = Ask::Line(Entry::Step(Event::Go(thread), Seen::Answered(answer)));
    if machine.happens_in_place(alloc, &ask, 0) {
        PifNumber {
            result: OK,
            number: answer,
        }
    } else {
        answer_copied(alloc, machine, thread, answer)
    }
}

/// The open call of a thread is answered.
fn answer(alloc: Global, machine: &mut Machine, thread: u32) -> PifNumber
    ensures { IsAnswered thread (Some machine.old) (Some machine.new) result }
{
    match machine.result_in(thread) {
        Some(answer) => match Tid::new(thread) {
            Some(named) => answer_by(alloc, machine, named, answer),
            None => PifNumber::refused(NONE),
        },
        None => PifNumber::refused(NONE),
    }
}

/// The open call of a thread is answered, and closes.
#[unsafe(no_mangle)]
#[tactic(auto, using(crate::proofs::MachineSteps::answers_on))]
pub extern "C" fn pif_machine_answer(
    alloc: Global,
    handle: &mut PifMachine,
    thread: u32,
) -> PifNumber
    ensures { IsAnswered thread (running handle.old) (running handle.new) result }
{
    match handle.take(alloc) {
        Some(mut machine) => {
            let told = answer(alloc, &mut machine, thread);
            handle.put(machine);
            told
        }
        None => PifNumber::refused(NO_CORE),
    }
}

/// What the open call of a thread is answered, if it has its result.
#[unsafe(no_mangle)]
pub extern "C" fn pif_machine_result(
    alloc: Global,
    handle: &mut PifMachine,
    thread: u32,
) -> PifNumber
    ensures answer { result ≡ shown_by (λ s. result_in s.wide.world thread) (running handle.old) }
    ensures same { running handle.new ≡ running handle.old }
{
    match handle.take(alloc) {
        Some(machine) => {
            let shown = result_in(&machine.kept.wide().state, thread);
            handle.put(machine);
            number_told(shown)
        }
        None => PifNumber::refused(NO_CORE),
    }
}

/// A state of a thread, and for what it waits.
fn state_told(state: u32, waits_for: u32) -> PifDoing
    ensures { result ≡ state_told state waits_for }
{
    PifDoing {
        result: OK,
        state,
        waits_for,
    }
}

/// What a thread does that has this call open.
fn doing_by(call: &Call) -> PifDoing
    ensures { result ≡ doing_by (progress_of call.now.progress) call.now.request }
{
    match call.progress {
        Progress::Waiting => state_told(QUEUED, named_by(&call.request)),
        Progress::Stuck => state_told(STOPPED, 0),
        progress if progress.is_blocked() => state_told(PARKED, variable_of(&call.request)),
        _ => state_told(READY, 0),
    }
}

/// What a living thread does, by its open call.
fn doing_of(call: &Option<Call>) -> PifDoing
    ensures { result ≡ doing_of (call_of call.now) }
{
    match call {
        Some(call) => doing_by(call),
        None => state_told(READY, 0),
    }
}

/// What a thread does.
fn doing_in(state: &State, thread: Tid) -> PifDoing
    ensures { result ≡ doing_in state.now thread }
{
    match state.refusal(&Event::End(thread)) {
        None => doing_of(&state.call(thread.get() as usize)),
        Some(Refusal::Dead) => state_told(GONE, 0),
        Some(_) => PifDoing::refused(NONE),
    }
}

/// What a thread does, if the number names one.
fn doing_numbered(state: &State, thread: u32) -> PifDoing
    ensures { result ≡ (if thread == 0 then no_state pif.none else doing_in state.now thread) }
{
    match Tid::new(thread) {
        Some(thread) => doing_in(state, thread),
        None => PifDoing::refused(NONE),
    }
}

/// What a thread does.
#[unsafe(no_mangle)]
pub extern "C" fn pif_machine_status(
    alloc: Global,
    handle: &mut PifMachine,
    thread: u32,
) -> PifDoing
    ensures answer { result ≡ doing_by_handle thread (running handle.old) }
    ensures same { running handle.new ≡ running handle.old }
{
    match handle.take(alloc) {
        Some(machine) => {
            let shown = doing_numbered(&machine.kept.wide().state, thread);
            handle.put(machine);
            shown
        }
        None => PifDoing::refused(NO_CORE),
    }
}

/// The owner of a mutex, and how often it holds the mutex.
fn owner_in(state: &State, mutex: u32) -> PifOwned
    ensures { result ≡ owner_in state.now mutex }
{
    if mutex as usize >= state.mutex_count() {
        return PifOwned::refused(NONE);
    }
    match state.owner_or_none(mutex as usize) {
        0 => PifOwned::refused(NONE),
        thread => PifOwned {
            result: OK,
            thread,
            count: state.count(mutex as usize),
        },
    }
}

/// The owner of a mutex, and how often it holds the mutex.
#[unsafe(no_mangle)]
pub extern "C" fn pif_machine_owner(alloc: Global, handle: &mut PifMachine, mutex: u32) -> PifOwned
    ensures answer { result ≡ owner_by_handle mutex (running handle.old) }
    ensures same { running handle.new ≡ running handle.old }
{
    match handle.take(alloc) {
        Some(machine) => {
            let shown = owner_in(&machine.kept.wide().state, mutex);
            handle.put(machine);
            shown
        }
        None => PifOwned::refused(NO_CORE),
    }
}

/// The number of the health of a mutex.
fn health_number(health: Health) -> u32
    ensures { result ≡ health_number (health_of health) }
{
    match health {
        Health::Fine => FINE,
        Health::Inconsistent => INCONSISTENT,
        Health::Unusable => UNUSABLE,
    }
}

/// The health of a mutex.
fn health_in(state: &State, mutex: u32) -> Option<u32>
    ensures { result ≡ health_in state.now mutex }
{
    if mutex as usize >= state.mutex_count() {
        return None;
    }
    Some(health_number(state.health(mutex as usize)))
}

/// The health of a mutex.
#[unsafe(no_mangle)]
pub extern "C" fn pif_machine_health(
    alloc: Global,
    handle: &mut PifMachine,
    mutex: u32,
) -> PifNumber
    ensures answer { result ≡ shown_by (λ s. health_in s.wide.world mutex) (running handle.old) }
    ensures same { running handle.new ≡ running handle.old }
{
    match handle.take(alloc) {
        Some(machine) => {
            let shown = health_in(&machine.kept.wide().state, mutex);
            handle.put(machine);
            number_told(shown)
        }
        None => PifNumber::refused(NO_CORE),
    }
}

/// True as 1, and false as 0.
fn bit_of(is: bool) -> u32
    ensures { result ≡ bit_of is }
{
    if is { 1 } else { 0 }
}

/// 1 if POSIX leaves undefined what the open call of a thread does, 0 if not.
#[unsafe(no_mangle)]
pub extern "C" fn pif_machine_undefined(
    alloc: Global,
    handle: &mut PifMachine,
    thread: u32,
) -> PifNumber
    ensures answer { result ≡ shown_by (λ s. Some (bit_of (is_left_undefined s.wide.world thread))) (running handle.old) }
    ensures same { running handle.new ≡ running handle.old }
{
    match handle.take(alloc) {
        Some(machine) => {
            let is = bit_of(machine.kept.wide().state.is_left_undefined(thread as usize));
            handle.put(machine);
            number_told(Some(is))
        }
        None => PifNumber::refused(NO_CORE),
    }
}

/// The effective priority of a thread.
fn effective(alloc: Global, machine: &Machine, thread: u32) -> PifNumber
    ensures { EffectiveTold thread (Some machine.now) result }
{
    if !machine.is_living(thread) {
        return PifNumber::refused(NONE);
    }
    match machine.kept.wide().effective(alloc, thread as usize) {
        Ok(number) => PifNumber { result: OK, number },
        Err(stop) => PifNumber::refused(stop_number(stop)),
    }
}

/// The effective priority of a thread.
#[unsafe(no_mangle)]
pub extern "C" fn pif_machine_effective(
    alloc: Global,
    handle: &mut PifMachine,
    thread: u32,
) -> PifNumber
    ensures answer { EffectiveTold thread (running handle.old) result }
    ensures same { running handle.new ≡ running handle.old }
{
    match handle.take(alloc) {
        Some(machine) => {
            let shown = effective(alloc, &machine, thread);
            handle.put(machine);
            shown
        }
        None => PifNumber::refused(NO_CORE),
    }
}
