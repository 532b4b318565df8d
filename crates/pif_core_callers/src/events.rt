ghost use Rattle.std.specs.Prelude.{ℕ, ◌≡◌, ◌∷◌};
ghost use Rattle.pif_model.specs.declared.events.Entry.{Entry};
ghost use Rattle.pif_model.specs.Posix.{World};
ghost use Rattle.pif_model.specs.Standing.{Stands, WhereStands};
ghost use Rattle.pif_model.specs.Lines.{event_outcome};
ghost use Rattle.pif_core_callers.specs.Events.{event_for, next_after};

use pif_core::{Core, Event, Seen};
use pif_types::{Answer, Refusal, Request, Tid};

/// What a caller does after an answer to an event.
#[derive(Clone, Copy, Debug, PartialEq, Eq)]
pub enum Next {
    /// The call is open, and its thread may go on.
    GoOn,
    /// The call is open, and its thread rests. Another thread has to take a step first, or the time to reach the
    /// deadline of the call: `Core::waiting` is false once it may go on.
    LetOthersGo,
    /// The call is closed with this answer, 0 or the number of an error, and its thread may begin another.
    Closed(Answer),
    /// The thread has ended.
    Gone,
    /// The time is the one that was handed in: threads that rest may go on whose deadline it has reached. No event of a
    /// thread is answered so.
    Ticked,
    /// Nothing has changed, for this reason.
    Refused(Refusal),
}

/// What a caller does after this answer.
pub fn next_after(seen: Seen) -> Next
    ensures { result ≡ next_after seen }
{
    match seen {
        Seen::Begun | Seen::Went => Next::GoOn,
        Seen::Waits => Next::LetOthersGo,
        Seen::Answered(answer) => Next::Closed(answer),
        Seen::Ended => Next::Gone,
        Seen::Ticked => Next::Ticked,
        Seen::Refused(refusal) => Next::Refused(refusal),
    }
}

/// The next event of a thread that makes this call: it begins the call if it has none open, and else takes one
/// step of its open call, whichever that is.
fn event_for(core: &Core, thread: Tid, request: Request) -> Event
    ensures { result ≡ event_for thread request core.now }
{
    if core.waiting(thread).is_some() {
        Event::Go(thread)
    } else {
        Event::Begin(thread, request)
    }
}

/// One event of a thread that makes this call: it begins the call if it has none open, and else takes one step of
/// its open call, whichever that is. The core stands after one entry more.
pub fn one_event(core: &mut Core, thread: Tid, request: Request) -> Seen
    ensures seen { result ≡ (event_outcome (event_for thread request core.old) core.old).seen }
    ensures after { core.new ≡ (event_outcome (event_for thread request core.old) core.old).after }
    ensures stands { WhereStands core.old (λ h r w.
        (v : World) × Stands core.new (Entry.Step (event_for thread request core.old) result ∷ h) (w ∷ r) v) }
{
    let event = event_for(core, thread, request);
    core.step(event)
}
