//! Chains of waiting and greatest priorities, over functions: lemmas in `proofs/`, which the crates above cite. A
//! function says for whom each thread waits (0: for nobody), another the base priorities:
//!
//! ```text
//!    thread     1    2    3    4            1 ──> 2 ──> 4
//!    waits for  2    4    4    0                  3 ──> 4
//!    base      50   10   30   20
//!    effective 50   50   30   50            the greatest base among those from whom a chain leads to it
//! ```
//!
//! The functions here do nothing, and state laws in their contracts. Other lemmas of `proofs/` are on kernels and lines
//! of calls, and on what the bits of a word say and a walk along a robust list gives (`RobustWalks.antt` of `specs/`).
#![tactic(auto)]

mod laws;

pub use laws::{bounded_chain_finds_each_chain, bounded_priority_is_greatest_over_any_chain};
