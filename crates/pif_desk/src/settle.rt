//! Settling a room with its clients.
ghost use Rattle.std.specs.Prelude.{◌≡◌, ◌==◌, ◌↔◌, true, false, length, count_by, sum_by, IsTrue, IfOk, IfErr, MatchOption};
ghost use Rattle.std.specs.List.{All, list_any};
ghost use Rattle.pif_model.specs.Posix.{IsLegal};
ghost use Rattle.pif_desk.specs.Rooms.{ClientState, history_of, IsExact};
ghost use Rattle.pif_desk.specs.Settling.{adds_thread, is_answer, adds, is_stranger, HasOneClientEach, IsFirst, IsFault, Settles, HasReceipts, answered_calls};

use crate::book::{Book, Unsettled, Why};
use crate::client::Client;
use crate::room::Room;
use crate::walk::has_calls;
use pif_model::{Entry, Event, Seen};
use pif_types::Tid;

/// How many threads the journal adds.
fn threads_in(journal: &[Entry]) -> usize
    ensures { result ≡ count_by adds_thread journal.now }
{
    journal
        .iter()
        .filter(|entry| matches!(**entry, Entry::Thread(_, _)))
        .count()
}

/// Whether an entry adds this thread.
fn adds(entry: &Entry, thread: &Tid) -> bool
    ensures { result ≡ adds thread.now entry.now }
{
    match entry {
        Entry::Thread(added, _) => added.get() == thread.get(),
        _ => false,
    }
}

/// Whether the journal adds this thread.
fn is_added(journal: &[Entry], thread: &Tid) -> bool
    ensures { result ≡ list_any (adds thread.now) journal.now }
{
    journal.iter().any(|entry| adds(entry, thread))
}

/// How many clients have this thread.
fn clients_of(clients: &[Client], thread: &Tid) -> usize
    ensures { result ≡ count_by (λ c. c.thread == thread.now) clients.now }
{
    clients.iter().filter(|client| client.has(thread)).count()
}

/// Whether no entry adds a client's thread, or two clients have it.
fn is_stranger(clients: &[Client], journal: &[Entry], client: &Client) -> bool
    ensures { result ≡ is_stranger clients.now journal.now client.now }
{
    if is_added(journal, &client.t) {
        clients_of(clients, &client.t) > 1
    } else {
        true
    }
}

/// The thread of the first client that is a stranger.
fn first_stranger(clients: &[Client], journal: &[Entry]) -> Option<Tid>
    ensures { MatchOption result (All (λ c. is_stranger clients.now journal.now c ≡ false) clients.now)
        (λ t. (c : ClientState) × (c.thread ≡ t)
        × IsFirst (λ d. is_stranger clients.now journal.now d ≡ true) clients.now c) }
{
    for client in clients {
        if is_stranger(clients, journal, client) {
            return Some(client.t);
        }
    }
    None
}

/// Whether a client's log is just the calls of its thread.
fn is_exact(journal: &[Entry], client: &Client) -> bool
    ensures { IsTrue result ↔ IsExact client.now journal.now }
{
    has_calls(journal, &client.t, client.calls.as_slice(), client.ended)
}

/// The thread of the first client whose log is not just the calls of its thread.
fn first_differing(clients: &[Client], journal: &[Entry]) -> Option<Tid>
    ensures { MatchOption result (All (λ c. IsExact c journal.now) clients.now)
        (λ t. (c : ClientState) × (c.thread ≡ t) × IsFirst (λ d. IsExact d journal.now → ⊥) clients.now c) }
{
    for client in clients {
        if !is_exact(journal, client) {
            return Some(client.t);
        }
    }
    None
}

/// Why these clients and this journal don't settle.
fn fault(clients: &[Client], journal: &[Entry]) -> Option<Why>
    ensures { MatchOption result (Settles clients.now journal.now) (IsFault clients.now journal.now) }
{
    if clients.len() != threads_in(journal) {
        return Some(Why::Count);
    }
    if let Some(t) = first_stranger(clients, journal) {
        return Some(Why::Stranger(t));
    }
    match first_differing(clients, journal) {
        Some(t) => Some(Why::Differs(t)),
        None => None,
    }
}

/// How many calls the journal answers.
fn answers_in(journal: &[Entry]) -> usize
    ensures { result ≡ count_by is_answer journal.now }
{
    journal.iter().filter(|entry| is_answer(entry)).count()
}

/// Whether an entry is the answer of a call.
fn is_answer(entry: &Entry) -> bool
    ensures { result ≡ is_answer entry.now }
{
    matches!(*entry, Entry::Step(Event::Go(_), Seen::Answered(_)))
}

impl Room {
    /// Compares the journal with the clients, and gives the book if there are as many clients as threads, each of
    /// another thread that was added, and each client's log is just the calls of its thread in the journal. Else room
    /// and clients come back as they were, with the first of these that doesn't hold. It takes no memory.
    pub fn settle(self, clients: Vec<Client>) -> Result<Book, Unsettled>
        ensures settled { IfOk result (λ b. Settles clients.items self.journal) }
        ensures one_each { IfOk result (λ b. HasOneClientEach clients.items self.journal) }
        ensures entries { IfOk result (λ b. b.entries.items ≡ self.journal) }
        ensures limits { IfOk result (λ b. b.limits ≡ self.core.limits) }
        ensures legal { IfOk result (λ b. IsLegal b.limits (history_of b.entries.items)) }
        ensures answered { IfOk result (λ b. b.answered ≡ count_by is_answer b.entries.items) }
        ensures sum { IfOk result (λ b. b.answered ≡ sum_by (λ c. answered_calls c.log) clients.items) }
        ensures receipts { IfOk result (λ b. All (λ c. HasReceipts c b.entries.items) clients.items) }
        ensures unsettled { IfErr result (λ u. (u.room ≡ self) × (u.clients.items ≡ clients.items)
            × IsFault clients.items self.journal u.why) }
    {
        match fault(clients.as_slice(), self.journal.as_slice()) {
            Some(why) => Err(Unsettled {
                why,
                room: self,
                clients,
            }),
            None => Ok(self.into_book()),
        }
    }

    /// The book of a room that has settled.
    fn into_book(self) -> Book
        ensures entries { result.entries.items ≡ self.journal }
        ensures limits { result.limits ≡ self.core.limits }
        ensures legal { IsLegal result.limits (history_of result.entries.items) }
        ensures answered { result.answered ≡ count_by is_answer result.entries.items }
    {
        let Room { core, journal, .. } = self;
        Book {
            limits: core.limits(),
            answered: answers_in(journal.as_slice()) as u64,
            entries: journal,
        }
    }
}
