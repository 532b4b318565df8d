//! What a client keeps of its calls.
ghost use Rattle.std.specs.Prelude.{◌≡◌, ◌<◌, true, reverse, vec_len, vec_capacity, if◌then◌else◌};
ghost use Rattle.pif_model.specs.declared.events.Entry.{Entry};
ghost use Rattle.pif_desk.specs.declared.log.Mark.TheVariants.{Nothing};
ghost use Rattle.pif_desk.specs.Logs.{event_of, mark_of, mark_in, is_begun, log_after, log_of, with_reply};

use pif_model::{Entry, Event, Seen};
use pif_types::{Answer, Request, Tid, push_within};

/// What a client does: it begins a call, goes on by one step of its open call, or ends its thread.
#[derive(Clone, Copy, Debug, PartialEq, Eq)]
pub enum Act {
    /// The thread begins this call.
    Begin(Request),
    /// The thread takes one step of its open call.
    Go,
    /// The thread ends, with a call open or not.
    End,
}

/// The answer of a call, and the position of its entry in the journal.
#[derive(Clone, Copy, Debug, PartialEq, Eq)]
pub struct Reply {
    pub answer: Answer,
    pub at: usize,
}

/// A call that was begun, and its reply once it has one.
#[derive(Clone, Copy, Debug, PartialEq, Eq)]
pub struct Call {
    pub request: Request,
    pub reply: Option<Reply>,
}

/// What an entry of the journal tells of the log of a thread.
#[derive(Clone, Copy, Debug, PartialEq, Eq)]
pub enum Mark {
    /// The thread has begun this call.
    Begun(Request),
    /// The thread's call was answered so.
    Answered(Answer),
    /// The thread has ended.
    Ended,
    /// Nothing.
    Nothing,
}

impl Mark {
    /// What is told of a thread's log if it did this and was answered so.
    pub(crate) fn of(act: &Act, seen: &Seen) -> Mark
        ensures { result ≡ mark_of act.now seen.now }
    {
        match (act, seen) {
            (Act::Begin(request), Seen::Begun) => Mark::Begun(*request),
            (Act::Go, Seen::Answered(answer)) => Mark::Answered(*answer),
            (Act::End, Seen::Ended) => Mark::Ended,
            _ => Mark::Nothing,
        }
    }

    /// What is told of a thread's log if a thread did this and was answered so: nothing, if it is another one's.
    fn if_own(is_own: bool, act: &Act, seen: &Seen) -> Mark
        ensures { result ≡ (if is_own then mark_of act.now seen.now else Nothing) }
    {
        if is_own {
            Mark::of(act, seen)
        } else {
            Mark::Nothing
        }
    }

    /// What an event that was answered so tells of the log of this thread.
    fn of_event(event: &Event, seen: &Seen, thread: &Tid) -> Mark
        ensures { result ≡ mark_in thread.now (Entry.Step event.now seen.now) }
    {
        let own = thread.get();
        match *event {
            Event::Begin(t, request) => Mark::if_own(t.get() == own, &Act::Begin(request), seen),
            Event::Go(t) => Mark::if_own(t.get() == own, &Act::Go, seen),
            Event::End(t) => Mark::if_own(t.get() == own, &Act::End, seen),
            Event::Tick(_) => Mark::Nothing,
        }
    }

    /// What an entry tells of the log of this thread. An addition and a tick belong to no thread.
    pub(crate) fn within(entry: &Entry, thread: &Tid) -> Mark
        ensures { result ≡ mark_in thread.now entry.now }
    {
        match entry {
            Entry::Step(event, seen) => Mark::of_event(event, seen, thread),
            _ => Mark::Nothing,
        }
    }
}

impl Act {
    /// The event by which this thread does it.
    pub(crate) fn event(&self, thread: Tid) -> Event
        ensures { result ≡ event_of self.now thread }
    {
        match *self {
            Act::Begin(request) => Event::Begin(thread, request),
            Act::Go => Event::Go(thread),
            Act::End => Event::End(thread),
        }
    }
}

/// Gives the last call this reply, if it is open.
fn close(calls: &mut Vec<Call>, reply: Reply)
    ensures { reverse calls.new.items ≡ with_reply reply (reverse calls.old.items) }
{
    let Some(call) = calls.pop() else {
        return;
    };
    let closed = Call {
        request: call.request,
        reply: Some(call.reply.unwrap_or(reply)),
    };
    push_within(calls, closed);
}

/// Writes into a log what was told of it at this position of the journal. For a call that begins there has to be room.
pub(crate) fn note(calls: &mut Vec<Call>, ended: &mut bool, mark: &Mark, at: usize)
    requires { is_begun mark.now ≡ true → vec_len calls.old < vec_capacity calls.old }
    ensures { log_of calls.new.items ended.new ≡ log_after mark.now at (log_of calls.old.items ended.old) }
{
    match *mark {
        Mark::Begun(request) => push_within(
            calls,
            Call {
                request,
                reply: None,
            },
        ),
        Mark::Answered(answer) => close(calls, Reply { answer, at }),
        Mark::Ended => *ended = true,
        Mark::Nothing => {}
    }
}
