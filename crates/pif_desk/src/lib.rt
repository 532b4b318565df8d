//! A desk: a core that real threads share behind one lock, with the journal of all that was done with it. Each thread
//! has a client, which makes its calls and keeps a log of them; in the end the room behind the lock settles with the
//! clients, and the book that it gives says that the journal is one that POSIX allows and that each log is just what
//! the journal has of its thread.
//!
//! | Type | What it is |
//! |---|---|
//! | `Desk` | the lock with the room behind it, and what a client does after each event (`Pause`) |
//! | `Client` | a thread's right to make calls, with the log of those that it made |
//! | `Receipt` | an answered call: thread, request, answer, and the position of the answer in the journal |
//! | `Room` | the core with its journal; one call is one event or one addition |
//! | `Book`, `Unsettled` | what settling gives: the journal under its limits, or room and clients again, and why |
//!
//! ```text
//! let desk = Desk::new(alloc, limits, NoPause)?;
//! let mutex = desk.make_mutex(&rt, Kind::ErrorCheck, true)?;
//! let mut client = desk.enter(&rt, 10)?;               // one for each thread
//! client.call(&rt, &desk, Request::Lock(mutex))?;       // in that thread; it may wait
//! client.call(&rt, &desk, Request::Unlock(mutex))?;
//! client.quit(&rt, &desk)?;
//! // after the joins
//! match desk.into_room().settle(clients) { Ok(book) => .., Err(unsettled) => .. }
//! ```
//!
//! Each event is one acquisition of the lock. The entry's room is made before the step, and that of a log before a call
//! begins, so that a refused growth of memory changes nothing. A client whose thread rests sleeps; an event wakes those
//! clients that sleep and whose threads rest no longer, and no others. That a call returns is not claimed.
#![tactic(auto)]

mod book;
mod calls;
mod client;
mod desk;
mod faults;
mod log;
mod room;
mod settle;
mod shared;
mod sleepers;
mod walk;

pub use book::{Book, Receipt, Unsettled, Why};
pub use client::Client;
pub use desk::{Desk, NoPause, Pause};
pub use faults::DeskFault;
pub use log::Act;
pub use pif_core::{Entry, Event, Seen};
pub use room::Room;
