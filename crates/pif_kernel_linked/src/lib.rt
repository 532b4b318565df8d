//! The kernel in a core: `LinkedKernel` is `KernelOn` of `pif_kernel` over `LinkedChains` of `pif_chains_linked`.
#![tactic(auto)]

mod kernel;

pub use kernel::LinkedKernel;
