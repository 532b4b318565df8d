//! What clients are given: receipts, the book, and why there is none.

use crate::client::Client;
use crate::room::Room;
use pif_model::Entry;
use pif_types::{Answer, Limits, Request, Tid};

/// A call that was answered: the thread that made it, what it asked, what it was answered, and the position of that
/// answer in the journal, from 0.
#[derive(Clone, Copy, Debug, PartialEq, Eq)]
pub struct Receipt {
    pub t: Tid,
    pub request: Request,
    pub answer: Answer,
    pub at: usize,
}

/// A room that has settled with its clients: the limits of its core, its journal, the oldest entry first, and how many
/// calls were answered.
#[derive(Drop)]
pub struct Book {
    pub limits: Limits,
    pub entries: Vec<Entry>,
    pub answered: u64,
}

/// Why a room didn't settle. The first of these that holds, of the first client of which it holds.
#[derive(Clone, Copy, Debug, PartialEq, Eq)]
pub enum Why {
    /// There are not as many clients as threads were added.
    Count,
    /// This thread of a client was never added, or two clients have it.
    Stranger(Tid),
    /// The log of this thread's client is not just the calls of that thread in the journal.
    Differs(Tid),
}

/// A room that didn't settle, with all clients, as they were.
#[derive(Drop)]
pub struct Unsettled {
    pub why: Why,
    pub room: Room,
    pub clients: Vec<Client>,
}
