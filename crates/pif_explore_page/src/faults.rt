//! Faults as objects, each with a schedule of the state that has it. If out of memory, a part of what is appended may have
//! been.
ghost use Rattle.std.specs.Prelude.{◌≡◌, ◌++◌, OnOk, codes, map};
ghost use Rattle.pif_explore_told.specs.Pieces.{numbers_told};
ghost use Rattle.pif_explore_page.specs.Objects.{misuse_object, stuck_object, way_member};

use crate::schedules::push_way_member;
use pif_explore::{Misuse, Plan, Situation, StuckThread};
use pif_explore_model::Label;
use pif_explore_told::{Reported, TellFaults, push_all, push_numbers, push_request, push_why};
use pif_reach::Node;
use pif_search::Stop;
use pif_types::Request;
use std::alloc::Global;

/// Faults of a plan as objects.
#[derive(Clone, Copy)]
pub struct FaultObjects<'a> {
    /// The plan.
    pub plan: &'a Plan,
}

/// Appends an object by numbers, each behind words, and the schedule of the node at a place.
fn push_found(
    alloc: Global,
    plan: &Plan,
    nodes: &[Node<Situation, Label>],
    numbers: &[(&str, u64)],
    place: usize,
    out: &mut Vec<u8>,
) -> Result<(), Stop>
    ensures { OnOk result (out.new.items ≡ out.old.items ++ (numbers_told (map (λ x. (x.0.now, x.1)) numbers.now) (codes "\"") ++ way_member plan.now nodes.now place)) }
{
    push_numbers(out, numbers, "\"")?;
    push_way_member(alloc, plan, nodes, place, out)
}

/// Appends a misuse.
fn push_misuse(
    alloc: Global,
    plan: &Plan,
    nodes: &[Node<Situation, Label>],
    misuse: &Misuse,
    out: &mut Vec<u8>,
) -> Result<(), Stop>
    ensures { OnOk result (out.new.items ≡ out.old.items ++ misuse_object plan.now nodes.now misuse.now) }
{
    // The check has to be told of the type of requests, which a misuse holds.
    let _no_request: Option<Request> = None;
    let front = "{\"fault\":\"misuse\",\"thread\":\"t";
    push_numbers(out, &[(front, misuse.thread as u64)], "\",\"call\":\"")?;
    push_request(out, misuse.request)?;
    push_all(out, b"\"")?;
    push_way_member(alloc, plan, nodes, misuse.place, out)
}

/// Appends a thread that is stuck.
fn push_stuck_thread(
    alloc: Global,
    plan: &Plan,
    nodes: &[Node<Situation, Label>],
    stuck: &StuckThread,
    out: &mut Vec<u8>,
) -> Result<(), Stop>
    ensures { OnOk result (out.new.items ≡ out.old.items ++ stuck_object plan.now nodes.now stuck.now) }
{
    let thread = stuck.thread as u64;
    let numbers = [
        ("{\"fault\":\"stuck\",\"thread\":\"t", thread),
        ("\",\"why\":\"t", thread),
    ];
    push_numbers(out, &numbers, "")?;
    push_why(out, stuck.fate)?;
    push_all(out, b"\"")?;
    push_way_member(alloc, plan, nodes, stuck.place, out)
}

/// Appends a livelock.
fn push_livelock(
    alloc: Global,
    plan: &Plan,
    nodes: &[Node<Situation, Label>],
    place: usize,
    out: &mut Vec<u8>,
) -> Result<(), Stop>
    ensures { OnOk result (out.new.items ≡ out.old.items ++ (codes "{\"fault\":\"livelock\"" ++ way_member plan.now nodes.now place)) }
{
    push_all(out, b"{\"fault\":\"livelock\"")?;
    push_way_member(alloc, plan, nodes, place, out)
}

impl TellFaults for FaultObjects<'_> {
    ghost use Rattle.pif_explore_page.specs.Objects.{fault_object};

    ghost told = { λ w. fault_object w.plan.now };

    fn push_fault(
        &self,
        alloc: Global,
        nodes: &[Node<Situation, Label>],
        fault: &Reported,
        out: &mut Vec<u8>,
    ) -> Result<(), Stop> {
        // The check has to be told of the type of requests, which a misuse holds.
        let _no_request: Option<Request> = None;
        match fault {
            Reported::Race(racing) => {
                let numbers = [
                    ("{\"fault\":\"race\",\"thread\":\"t", racing.first as u64),
                    ("\",\"other\":\"t", racing.second as u64),
                    ("\",\"cell\":\"x", racing.cell as u64),
                ];
                push_found(alloc, self.plan, nodes, &numbers, racing.place, out)
            }
            Reported::Misuse(misuse) => push_misuse(alloc, self.plan, nodes, misuse, out),
            Reported::Deadlock(deadlocked) => {
                let front = "{\"fault\":\"deadlock\",\"thread\":\"t";
                let numbers = [(front, deadlocked.thread as u64)];
                push_found(alloc, self.plan, nodes, &numbers, deadlocked.place, out)
            }
            Reported::Cycle(cycle) => {
                let front = "{\"fault\":\"cycle\",\"thread\":\"t";
                let numbers = [
                    (front, cycle.thread as u64),
                    ("\",\"mutex\":\"m", cycle.mutex as u64),
                ];
                push_found(alloc, self.plan, nodes, &numbers, cycle.place, out)
            }
            Reported::LostWakeUp(lost) => {
                let front = "{\"fault\":\"lost wake-up\",\"thread\":\"t";
                let numbers = [
                    (front, lost.thread as u64),
                    ("\",\"cond\":\"c", lost.variable as u64),
                ];
                push_found(alloc, self.plan, nodes, &numbers, lost.place, out)
            }
            Reported::Stuck(stuck) => push_stuck_thread(alloc, self.plan, nodes, stuck, out),
            Reported::Livelock(place) => push_livelock(alloc, self.plan, nodes, *place, out),
            Reported::Undecided => push_all(out, b"{\"undecided\":\"race\"}\n"),
        }
    }
}
