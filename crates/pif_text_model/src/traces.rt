/// A version of traces. The first line names it; commands were added in version 2.
#[derive(Clone, Copy, Debug, PartialEq, Eq)]
pub enum Version {
    /// `pif-trace 1`
    One,
    /// `pif-trace 2`, which is written.
    Two,
}
