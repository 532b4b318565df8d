//! Priority inheritance over chains of owner states: the walk that gives each thread the greatest priority of it and of
//! all that wait for it (`Boosts.antt` of `pif_kernel_model`), the cycle test, and the path of threads up a chain.
#![tactic(auto)]

mod chain_walk;
mod cycles;
mod paths;

pub use chain_walk::{walk, walk_to};
pub use cycles::would_close;
pub use paths::path;
