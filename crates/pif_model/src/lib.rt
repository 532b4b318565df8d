//! The definitions that every layer's contract cites: the POSIX machine of mutexes and condition variables, the table
//! machine of words, kernel and calls, and what it means that a core stands after a history. The definitions are in
//! `specs/`; the types here are those that both they and the code speak of.
#![tactic(auto)]

mod events;
mod lines;
mod plain;

pub use events::{Entry, Event, Order, Seen};
pub use lines::{
    Footing, GiveStep, Line, LinkStep, Place, Purpose, Relock, RepairStep, Status, TakeStep, Timer,
    Took, WakeStep, Woken,
};
pub use plain::{Plain, PlainRequest};
