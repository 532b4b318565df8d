//! What an exact search says of lines: whether a run of a machine shows just these (`judge`), and which labels can come
//! next (`possible`). The search is `pif_search`; here its answers become verdicts.
#![tactic(auto)]

mod candidates;
mod judging;

pub use judging::{judge, possible};
