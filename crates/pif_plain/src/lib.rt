//! The plain kernel: `PlainKernel` is a kernel on chains whose bodies look at every thread, with a walk and a cycle
//! test of its own, over the owner states of `pif_plain_rtmutex`. So it is the kernel to compare another one with.
//!
//! `chain_walk` has the walk over the owner states and `cycles` the test whether a wait closes a cycle. `paths` goes up
//! one chain of waiting. `plain_rows` has the keys of the mutexes, and the parked threads in one list in the order in
//! which they were parked. There a parked thread has no ticket, and its priority is read when one is taken. `chains` is
//! these together with the run queue, as `KernelOn` of `pif_kernel` takes them.
#![tactic(auto)]

mod chain_walk;
mod chains;
mod cycles;
mod paths;
mod plain_rows;
mod propagate;

pub use chains::{PlainChains, PlainKernel};
