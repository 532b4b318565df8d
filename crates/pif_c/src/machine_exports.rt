ghost use Rattle.std.specs.Prelude.{◌≡◌, Option, Some, None, IfSome};
ghost use Rattle.pif_c.specs.MachineHandles.{running};
ghost use Rattle.pif_c.specs.Going.{Allows, IsBegun};
ghost use Rattle.pif_c.specs.Machines.{new_running};
ghost use Rattle.pif_c.specs.Replays.{ReplaysAreAlike};

use crate::machine_handles::PifMachine;
use crate::machines::Machine;
use pif_c_numbers::codes::{FULL, INVALID, NO_CORE, NO_MEMORY, OK};
use pif_posix_steps::HistoryLimits;
use pif_rules::{both, rules_named};
use std::alloc::Global;

/// A new machine in its block: none if the heap refuses a request.
fn boxed(alloc: Global, limits: HistoryLimits) -> Option<Box<Machine>>
    ensures { IfSome result (λ machine. machine.value ≡ new_running limits) }
{
    let machine = Machine::new(alloc, limits).ok()?;
    Box::new(alloc, machine).ok()
}

/// Has an empty handle hold a new machine: 0, or that the heap refused a request.
fn make(alloc: Global, handle: &mut PifMachine, limits: HistoryLimits) -> u32
    requires { running handle.old ≡ None }
    ensures { IsBegun limits (running handle.old) (running handle.new) result }
{
    match boxed(alloc, limits) {
        Some(machine) => {
            handle.put(machine);
            OK
        }
        None => NO_MEMORY,
    }
}

/// Has a handle hold a new machine under these limits, which allows no rule and to which nothing was added: 0, or why not,
/// and then it holds what it held.
#[unsafe(no_mangle)]
pub extern "C" fn pif_machine_new(
    alloc: Global,
    handle: &mut PifMachine,
    threads: u32,
    mutexes: u32,
    conds: u32,
    signals: u32,
) -> u32
    ensures { IsBegun (record { threads = threads; mutexes = mutexes; conds = conds; signals = signals }) (running handle.old) (running handle.new) result }
{
    if handle.is_full() {
        return FULL;
    }
    make(
        alloc,
        handle,
        HistoryLimits {
            threads,
            mutexes,
            conds,
            signals,
        },
    )
}

/// Gives up the machine that a handle holds, if it holds one, and leaves it empty.
#[unsafe(no_mangle)]
pub extern "C" fn pif_machine_free(alloc: Global, handle: &mut PifMachine)
    ensures { running handle.new ≡ None }
{
    drop(handle.take(alloc));
}

/// The machine allows the rules that a word names, beside those that it allows.
fn allow(machine: &mut Machine, word: &[u8]) -> u32
    ensures { Allows word.now (Some machine.old) (Some machine.new) result }
{
    match rules_named(word) {
        Some(rules) => {
            machine.rules = both(&machine.rules, &rules);
            OK
        }
        None => INVALID,
    }
}

/// The machine that a handle holds allows the rules that a word names, beside those that it allows.
#[unsafe(no_mangle)]
pub extern "C" fn pif_machine_allow(alloc: Global, handle: &mut PifMachine, word: &[u8]) -> u32
    ensures { Allows word.now (running handle.old) (running handle.new) result }
{
    match handle.take(alloc) {
        Some(mut machine) => {
            let told = allow(&mut machine, word);
            handle.put(machine);
            told
        }
        None => NO_CORE,
    }
}

/// A law: the same requests with the same choices, from the same machine, tell the same and lead to the same state, unless
/// memory, the numbers or a limit gave out.
pub fn replays_are_alike()
    ensures { ReplaysAreAlike }
{}
