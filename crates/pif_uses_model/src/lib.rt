//! How often variables were used, and how often they may be: nothing but the limit of a signal or a broadcast tells the
//! first of these. `specs/` has the definitions, `proofs/` the lemmas.
//!
//! The function here does nothing, and states a law in its contract.
#![tactic(auto)]

mod laws;

pub use laws::moves_tell_no_uses;
