//! A watch over the lines of a history: behind which of them it is quiet.
ghost use Rattle.std.specs.Prelude.{◌≡◌, ◌==◌, ◌&&◌, ◌∷◌, [], List, true, filter, not, OnOk};
ghost use Rattle.pif_history_model.specs.declared.lines.Line.{Line};
ghost use Rattle.pif_parts_model.specs.Quiet.{IsQuiet};
ghost use Rattle.pif_parts.specs.Watching.{HasHeard, Hears, call_answered, dying_list, is_calling, is_holding, is_idle, is_none, is_orderly};

use crate::calls::{OpenCall, call_in, changes_alone, hear_call};
use crate::holdings::{Holding, hear_holding};
use pif_history_model::{Fact, Line};
use pif_search::{Stop, push};
use pif_types::{Request, Tid};
use std::alloc::Global;

/// What the lines that were heard tell of where a history is quiet.
#[derive(Drop)]
pub struct Watch {
    /// The calls that are open.
    calls: Vec<OpenCall>,
    /// How often threads hold mutexes, by the answers.
    held: Vec<Holding>,
    /// The threads that are dying.
    dying: Vec<Tid>,
    /// Whether the lines are orderly. Once they aren't, no later place is quiet.
    orderly: bool,
}

/// Leaves out a thread.
fn forget(dying: &mut Vec<Tid>, thread: Tid)
    ensures { dying.new.items ≡ filter (λ u. not (u == thread)) dying.old.items }
{
    dying.retain(|other| other.get() != thread.get());
}

/// Hears who is dying.
fn hear_dying(dying: &mut Vec<Tid>, line: &Line) -> Result<(), Stop>
    ensures { OnOk result (dying.new.items ≡ dying_list line.now dying.old.items) }
{
    let _no_request: Option<Request> = None;
    let _no_fact: Option<Fact> = None;
    match *line {
        Line::Dying(thread) => return push(dying, thread),
        Line::End(thread) => forget(dying, thread),
        _ => {}
    }
    Ok(())
}

/// Whether a thread has one of these calls open.
fn is_calling(calls: &[OpenCall], thread: Tid) -> bool
    ensures { result ≡ is_calling thread calls.now }
{
    calls.iter().any(|call| call.thread.get() == thread.get())
}

/// Whether a thread holds anything by these.
fn is_holding(held: &[Holding], thread: Tid) -> bool
    ensures { result ≡ is_holding thread held.now }
{
    held.iter()
        .any(|holding| holding.thread.get() == thread.get())
}

/// Whether a thread has no call open, and holds nothing.
fn is_idle(calls: &[OpenCall], held: &[Holding], thread: Tid) -> bool
    ensures { result ≡ is_idle thread calls.now held.now }
{
    !is_calling(calls, thread) && !is_holding(held, thread)
}

/// Whether a line is orderly, if these calls are open before it, and this is held.
fn is_orderly(calls: &[OpenCall], held: &[Holding], line: &Line) -> bool
    ensures { result ≡ is_orderly line.now calls.now held.now }
{
    let _no_fact: Option<Fact> = None;
    match *line {
        Line::Begin(_, request) => changes_alone(calls, &request),
        Line::Dying(thread) => is_idle(calls, held, thread),
        Line::End(thread) => is_idle(calls, held, thread),
        _ => true,
    }
}

/// Whether the lines are orderly, and nothing is open, held or dying.
fn is_still(orderly: bool, calls: &[OpenCall], held: &[Holding], dying: &[Tid]) -> bool
    ensures { result ≡ (orderly && (is_none calls.now && (is_none held.now && is_none dying.now))) }
{
    orderly && calls.is_empty() && held.is_empty() && dying.is_empty()
}

impl Watch {
    /// Before any line.
    pub fn new(alloc: Global) -> Watch
        ensures { HasHeard [] result }
    {
        Watch {
            calls: Vec::new(alloc),
            held: Vec::new(alloc),
            dying: Vec::new(alloc),
            orderly: true,
        }
    }

    /// The call that a line answers, if it answers one that is open.
    pub fn call_answered(&self, line: &Line) -> Option<Request>
        ensures { result ≡ call_answered self.now line.now }
    {
        let _no_fact: Option<Fact> = None;
        match *line {
            Line::Answer(thread, _) => call_in(self.calls.as_slice(), thread),
            _ => None,
        }
    }

    /// Takes one more line, with what it changes.
    fn take(&mut self, line: &Line) -> Result<(), Stop>
        ensures { OnOk result (Hears line.now self.old self.new) }
    {
        let orderly = is_orderly(self.calls.as_slice(), self.held.as_slice(), line);
        hear_holding(&mut self.held, self.calls.as_slice(), line)?;
        hear_call(&mut self.calls, line)?;
        hear_dying(&mut self.dying, line)?;
        self.orderly = self.orderly && orderly;
        Ok(())
    }

    /// Hears one more line.
    ///
    /// # Errors
    ///
    /// Out of memory. The watch is of no use then.
    pub fn hear(&mut self, line: &Line) -> Result<(), Stop>
        ensures { OnOk result ((lines : List Line) → HasHeard lines self.old → HasHeard (line.now ∷ lines) self.new) }
    {
        self.take(line)
    }

    /// Whether the history is quiet behind the lines that were heard.
    pub fn is_quiet(&self) -> bool
        ensures quiet { (lines : List Line) → HasHeard lines self.now → result ≡ true → IsQuiet lines }
        ensures told { (lines : List Line) → HasHeard lines self.now → IsQuiet lines → result ≡ true }
    {
        is_still(
            self.orderly,
            self.calls.as_slice(),
            self.held.as_slice(),
            self.dying.as_slice(),
        )
    }
}
