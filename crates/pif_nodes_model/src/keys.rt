/// The key of a node: a priority, and a ticket that says when it came.
#[derive(Clone, Copy, Debug, PartialEq, Eq)]
pub struct Key {
    /// The priority.
    pub prio: u32,
    /// The ticket.
    pub ticket: u64,
}
