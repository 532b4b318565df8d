//! The structs and the numbers that cross from C to `pif_c` and back, and what they stand for. `include/pif.h` has them
//! for C, each number under the name that it has here, behind `PIF_`.
#![tactic(auto)]

/// The numbers of results, states and calls, under the names of `include/pif.h`.
pub mod codes;
mod numbers;

pub use numbers::{
    PifDoing, PifLimits, PifNumber, PifOpen, PifOwned, PifRequest, PifSeen, added_told, doing_told,
    health_code, kind_code, kind_of, limits_told, number_told, open_told, request_of, request_told,
    seen_reported,
};
