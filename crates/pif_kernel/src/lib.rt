//! The kernel's calls on chains: `KernelOn` meets the trait `PiKernel` of `pif_kernel_calls`, where the calls are
//! described, over any `Chains`. `pif_chains_linked` has those over lists linked by index in one table of nodes, and
//! `pif_plain` others. What a kernel keeps, and the kernel for which that stands, is in `pif_kernel_model`.
//!
//! A call is a test and then steps:
//!
//! | Module | What it has |
//! |---|---|
//! | `chains` | the trait `Chains`: owner states with their waiters, the threads that are parked, and a run queue |
//! | `renumbering` | the tickets of all waiters are numbered from 1, in their order |
//! | `parts` | what the steps touch: chains, statuses and the next ticket |
//! | `threads` | a thread is added, stopped, or gets another priority |
//! | `waits` | whether a thread may wait for an owner |
//! | `queueing` | a thread is queued, and a mutex is handed over |
//! | `parking` | a thread is parked or woken, and the next one is found |
//! | `leaving` | a thread that ends or expires is taken off what it waits for |
//! | `tickets` | the next ticket is taken |
//! | `orders` | who stands at which place |
//! | `refusals` | the test of each call: its error, or what it found in words and owner states; it changes nothing |
//! | `requeueing`, `dying` | what changes words as well: parked threads are taken for their mutex, and the mutexes of a thread that has ended pass on |
//! | `kernel_on` | the calls |
//!
//! A kernel's tickets are those of waiters. What chains say of parked threads is the order in which they were parked.
//! How they keep it is their own affair.
#![tactic(auto)]

mod chains;
mod dying;
mod kernel_on;
mod leaving;
mod orders;
mod parking;
mod parts;
mod queueing;
mod refusals;
mod renumbering;
mod requeueing;
mod threads;
mod tickets;
mod waits;

pub use chains::Chains;
pub use kernel_on::KernelOn;
pub use pif_kernel_calls::{PiKernel, Status, Took, Woken};
pub use pif_kernel_model::Key;
