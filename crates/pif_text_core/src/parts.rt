use pif_types::Tid;

/// An owner, and whether it has ended.
#[derive(Clone, Copy, PartialEq, Eq)]
pub struct Holder {
    /// The owner.
    pub owner: Tid,
    /// Whether it has ended.
    pub has_ended: bool,
}
