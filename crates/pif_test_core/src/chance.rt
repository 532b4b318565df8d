//! Numbers that look like chance, the same in each run.

/// The next number of a row that looks like chance.
pub fn next(seed: u64) -> u64 {
    seed.wrapping_mul(6_364_136_223_846_793_005)
        .wrapping_add(1_442_695_040_888_963_407)
}
