/// How much `show` tells of the core behind each line.
#[derive(Clone, Copy, PartialEq, Eq)]
pub enum Detail {
    /// What has changed by the line.
    Changes,
    /// All of it.
    All,
}
