//! What a kernel keeps, as definitions and lemmas: owner states as every form of them is seen, and the state of a
//! kernel over any chains. The crates that have the code cite all of it, so that none cites the proofs of another.
//!
//! `first_ticket_from` is the one function that does something: of threads with `Tickets` it finds which is numbered
//! next.
//!
//! Owner states are a map from key to owner, and for each thread its base and effective priority and what it waits for.
//! Nobody waits for itself through any chain (`AreSoundOwners` of `Owners.antt`). Each form names its states by a
//! `Key`. How they stand in a node table is here too (`States.antt`, `Holds.antt`), with the words that lead to them
//! and the threads that are parked there (`Entries.antt`, `Parked.antt`), and what a walk makes of them
//! (`Boosts.antt`).
//!
//! The state of a kernel is what its calls change:
//!
//! ```text
//!    Inside    statuses, owner states with their keys, run queue, waiters in order of tickets, parked threads
//!      │
//!      │ kernel_of: the abstraction function
//!      v
//!    Kernel    threads, owners, waiters, parked threads, levels; each call is an equation on it (PiKernel.antt)
//! ```
//!
//! `Inside.antt` has these, and the invariant: `IsPlaced` holds between the steps of a call too, `IsSoundInside`
//! between two calls. `Chained` is the part that chains keep, `Fields` makes the whole of it and of what `KernelOn` has
//! beside; `Codes` says how both are stored. `Opened`, `Leaving`, `Tickets` and `Takings` say what is there halfway
//! through a call.
//!
//! In `proofs/`, `Seats`, `Picked`, `Standing`, `Waiters` and `TopLaws` read the kernel out of what is kept. A
//! `..Sound` file says of one step which kernel is there after it, and that the invariant holds; the `..Facts` say what
//! such a step needs.
#![tactic(auto)]

mod keys;
mod tickets;

pub use keys::Key;
pub use tickets::{Tickets, first_ticket_from};
