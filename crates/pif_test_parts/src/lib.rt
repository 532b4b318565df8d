//! Tests of `pif_parts`, `pif_components` and `pif_parts_judged`. They are in a crate of their own, since a crate with tests
//! is proved twice by the gate.
//!
//! | Module | Tests of |
//! |---|---|
//! | `components` | histories of three groups of threads, judged component by component |
//! | `cuts` | where histories are cut, what the parts begin with, and which part decides |
//! | `verdicts` | the verdict on a history as a whole and in parts |
#![tactic(auto)]

#[cfg(test)]
mod components;
#[cfg(test)]
mod cuts;
#[cfg(test)]
mod verdicts;
