//! Tests of what a core stands on, of a core, of the callers that rest on it, of desks, and of the quick path. Most of
//! desks and of the quick path have real threads. Beside tests there is nothing in it.
//!
//! | Module | Tests of |
//! |---|---|
//! | `foundation` | types, words, robust lists, sorted lists, the run queue and `pif_queue` |
//! | `kernels` | both kernels: each call on any words, boosts, parked threads, deadlines and ends, and random calls |
//! | `random_calls` | `pif_mutex` and `pif_cond` over both kernels: calls in any interleaving have the same answers on both |
//! | `seen` | none: it compares what was read with what is wanted, and makes numbers into threads, mutexes and the like |
//! | `cores` | `pif_core`: its readers |
//! | `uses` | `pif_core_callers`: the callers to copy from; below it each of their ways out |
//! | `driver` | none: what the tables of `cores` and `uses` are made of, and the core on which each is played |
//! | `chance` | none: numbers that look like chance, for many turns of many threads |
//! | `desk` | `pif_desk`: calls of real threads, sleep and time, refused memory, receipts, journals as traces |
//! | `drives` | `pif_job_drive`: what the clients of a drive do, and that one without memory ends |
//! | `leaving` | `pif_job_drive`: how a client ends at a fault, and which drives are refused |
//! | `quick` | `pif_quick`: words from a try to a meeting, passes that wait, sums over many turns |
//!
//! A test of `cores`, `uses` or `desk` is a table of what is asked, and of the answers. What scripts can say of a core is
//! tested by transcripts: cores.txt and expiries.txt of transcripts/.
#![tactic(auto)]

#[cfg(test)]
mod chance;
#[cfg(test)]
mod cores;
#[cfg(test)]
mod desk;
#[cfg(test)]
mod driver;
#[cfg(test)]
mod drives;
#[cfg(test)]
mod foundation;
#[cfg(test)]
mod kernels;
#[cfg(test)]
mod leaving;
#[cfg(test)]
mod quick;
#[cfg(test)]
mod random_calls;
#[cfg(test)]
mod seen;
#[cfg(test)]
mod uses;
