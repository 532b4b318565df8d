//! Faults in the order in which they are reported, whatever each is written as. If out of memory, a part of what is
//! appended may have been.
ghost use Rattle.std.specs.Prelude.{◌≡◌, ◌++◌, OnOk, flat_map, option_map};
ghost use Rattle.pif_explore_told.specs.declared.reported.Reported.TheVariants.{Misuse as Misused};
ghost use Rattle.pif_explore_told.specs.Reported.{Tells, all_told, if_found, state_faults_told, stuck_told, unordered_told};

use pif_explore::{Cycle, Deadlocked, Faults, LostWakeUp, Misuse, Racing, Situation, StuckThread};
use pif_explore_model::Label;
use pif_explore_orders::{AllFaults, Unordered};
use pif_reach::Node;
use pif_search::Stop;
use pif_types::Request;
use std::alloc::Global;

/// A fault that is reported.
#[derive(Clone, Copy)]
pub enum Reported {
    /// A race.
    Race(Racing),
    /// A call that is made wrongly.
    Misuse(Misuse),
    /// A deadlock.
    Deadlock(Deadlocked),
    /// A lock that closes a cycle.
    Cycle(Cycle),
    /// A lost wake-up.
    LostWakeUp(LostWakeUp),
    /// A thread that is stuck.
    Stuck(StuckThread),
    /// A livelock: the state of the node at this place.
    Livelock(usize),
    /// It wasn't found whether there is a race that no state shows.
    Undecided,
}

/// A way to write faults.
pub trait TellFaults {
    // how a fault is written, which a state of these nodes has
    ghost told: { Self → Tells };

    /// Appends a fault with a schedule of the state that has it, which is one of these nodes.
    ///
    /// # Errors
    ///
    /// Out of memory, or a number got too great for a state. A part of it may have been appended.
    fn push_fault(
        &self,
        alloc: Global,
        nodes: &[Node<Situation, Label>],
        fault: &Reported,
        out: &mut Vec<u8>,
    ) -> Result<(), Stop>
        ensures { OnOk result (out.new.items ≡ out.old.items ++ told self.now nodes.now fault.now) };
}

/// Appends a fault, if there is one.
fn push_if<T: TellFaults>(
    alloc: Global,
    way: &T,
    nodes: &[Node<Situation, Label>],
    fault: Option<Reported>,
    out: &mut Vec<u8>,
) -> Result<(), Stop>
    ensures { OnOk result (out.new.items ≡ out.old.items ++ if_found (T.told way.now) nodes.now fault) }
{
    // The check has to be told of the type of requests, which a misuse holds.
    let _no_request: Option<Request> = None;
    match fault {
        None => Ok(()),
        Some(fault) => way.push_fault(alloc, nodes, &fault, out),
    }
}

/// Appends a thread that is stuck.
fn push_stuck<T: TellFaults>(
    alloc: Global,
    way: &T,
    nodes: &[Node<Situation, Label>],
    stuck: &StuckThread,
    out: &mut Vec<u8>,
) -> Result<(), Stop>
    ensures { OnOk result (out.new.items ≡ out.old.items ++ stuck_told (T.told way.now) nodes.now stuck.now) }
{
    // The check has to be told of the type of requests, which a misuse holds.
    let _no_request: Option<Request> = None;
    way.push_fault(alloc, nodes, &Reported::Stuck(*stuck), out)
}

/// Appends threads that are stuck.
fn push_all_stuck<T: TellFaults>(
    alloc: Global,
    way: &T,
    nodes: &[Node<Situation, Label>],
    all: &[StuckThread],
    out: &mut Vec<u8>,
) -> Result<(), Stop>
    ensures { OnOk result (out.new.items ≡ out.old.items ++ flat_map (stuck_told (T.told way.now) nodes.now) all.now) }
{
    for stuck in all {
        push_stuck(alloc, way, nodes, stuck, out)?;
    }
    Ok(())
}

/// Appends a race that no state shows, or that it wasn't found whether there is one.
fn push_unordered<T: TellFaults>(
    alloc: Global,
    way: &T,
    nodes: &[Node<Situation, Label>],
    unordered: &Unordered,
    out: &mut Vec<u8>,
) -> Result<(), Stop>
    ensures { OnOk result (out.new.items ≡ out.old.items ++ unordered_told (T.told way.now) nodes.now unordered.now) }
{
    match unordered {
        Unordered::Race(found) => {
            let race = Reported::Race(found.racing);
            way.push_fault(alloc, found.nodes.as_slice(), &race, out)
        }
        Unordered::Open => way.push_fault(alloc, nodes, &Reported::Undecided, out),
        Unordered::Nowhere | Unordered::Unasked => Ok(()),
    }
}

/// A misuse, as a fault that is reported.
fn misuse_of(misuse: &Option<Misuse>) -> Option<Reported>
    ensures { result ≡ option_map Misused misuse.now }
{
    // The check has to be told of the type of requests, which a misuse holds.
    let _no_request: Option<Request> = None;
    match misuse {
        None => None,
        Some(misuse) => Some(Reported::Misuse(*misuse)),
    }
}

/// Appends faults of states.
fn push_state_faults<T: TellFaults>(
    alloc: Global,
    way: &T,
    nodes: &[Node<Situation, Label>],
    faults: &Faults,
    out: &mut Vec<u8>,
) -> Result<(), Stop>
    ensures { OnOk result (out.new.items ≡ out.old.items ++ state_faults_told (T.told way.now) nodes.now faults.now) }
{
    push_if(alloc, way, nodes, faults.race.map(Reported::Race), out)?;
    push_if(alloc, way, nodes, misuse_of(&faults.misuse), out)?;
    push_if(
        alloc,
        way,
        nodes,
        faults.deadlock.map(Reported::Deadlock),
        out,
    )?;
    push_if(alloc, way, nodes, faults.cycle.map(Reported::Cycle), out)?;
    push_if(
        alloc,
        way,
        nodes,
        faults.lost_wake_up.map(Reported::LostWakeUp),
        out,
    )?;
    push_all_stuck(alloc, way, nodes, faults.stuck.as_slice(), out)?;
    push_if(
        alloc,
        way,
        nodes,
        faults.livelock.map(Reported::Livelock),
        out,
    )
}

/// Appends faults, each with a schedule of the state that has it.
///
/// # Errors
///
/// Out of memory, or a number got too great for a state.
pub fn push_faults<T: TellFaults>(
    alloc: Global,
    way: &T,
    nodes: &[Node<Situation, Label>],
    faults: &AllFaults,
    out: &mut Vec<u8>,
) -> Result<(), Stop>
    ensures { OnOk result (out.new.items ≡ out.old.items ++ all_told (T.told way.now) nodes.now faults.now) }
{
    push_unordered(alloc, way, nodes, &faults.unordered, out)?;
    push_state_faults(alloc, way, nodes, &faults.of_states, out)
}
