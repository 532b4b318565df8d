ghost use Rattle.std.specs.Prelude.{◌≡◌, ◌==◌};
ghost use Rattle.pif_desk.specs.Logs.{has_open_call, last_open, no_calls};

use crate::log::Call;
use pif_types::{Request, Tid};
use std::alloc::Global;
use std::marker::Model;

/// The one who acts for a thread, with the log of its calls. It goes with the desk that it entered, and nothing checks
/// that. At another desk it acts for the thread of the same number there. `Room::settle` finds such calls, since a log
/// then isn't just the calls of its thread (`Why::Differs`).
#[derive(Drop)]
pub struct Client {
    pub(crate) t: Tid,
    pub(crate) calls: Vec<Call>,
    pub(crate) ended: bool,
}

impl Model for Client {
    ghost use Rattle.pif_desk.specs.Logs.{log_of};
    ghost use Rattle.pif_desk.specs.Rooms.{ClientState};

    ghost Value = { ClientState };

    ghost view = { λ c. record { thread = c.t; log = log_of c.calls.items c.ended } };
}

impl Client {
    /// A client of this thread, with an empty log.
    pub(crate) fn new(alloc: Global, t: Tid) -> Client
        ensures thread { result.thread ≡ t }
        ensures log { result.log ≡ no_calls }
    {
        Client {
            t,
            calls: Vec::new(alloc),
            ended: false,
        }
    }

    /// The thread for which this client acts.
    pub fn thread(&self) -> Tid
        ensures { result ≡ self.now.thread }
    {
        self.t
    }

    /// Whether this client has this thread.
    pub(crate) fn has(&self, thread: &Tid) -> bool
        ensures { result ≡ (self.now.thread == thread.now) }
    {
        self.t.get() == thread.get()
    }

    /// What the open call of this client asks, if one is open.
    pub(crate) fn open_request(&self) -> Option<Request>
        ensures { result ≡ last_open self.now.log.calls }
    {
        match self.calls.last() {
            Some(call) => match call.reply {
                Some(_) => None,
                None => Some(call.request),
            },
            None => None,
        }
    }

    /// Whether a call of this client is open.
    pub fn is_open(&self) -> bool
        ensures { result ≡ has_open_call self.now.log }
    {
        match self.calls.last() {
            Some(call) => call.reply.is_none(),
            None => false,
        }
    }
}
