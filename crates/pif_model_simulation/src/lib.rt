//! The proof that each step of the table machine is an entry of the POSIX machine and keeps the invariant, and the laws
//! over whole histories. The proof is in `proofs/`, and `pif_core` cites it; the functions here do nothing, and state
//! laws in their contracts.
//!
//! `specs/Calls.antt` says what a whole call comes to, as `Core::call` and `Core::finish` make it: its outcome, and the
//! entries that it adds to a history. `CallLemmas` and `StandingLemmas` say what follows, and that a core stands after
//! these.
#![tactic(auto)]

mod laws;

pub use laws::{
    call_closes_or_waits_within_24_steps, chain_is_found_where_there_is_one,
    effective_priority_is_greatest_over_any_chain, expiry_leaves_mutexes, holders_by_answers_own,
    next_waiter_is_first_of_greatest, no_mutex_has_two_holders, time_never_falls,
    timed_out_call_has_expired, waiters_get_a_mutex_in_order, waiters_wait_in_their_calls,
    whoever_is_told_to_wait_was_not_due,
};
