use pif_types::{CondId, MutexId};

/// The name of a word that threads share.
#[derive(Clone, Copy, Debug, PartialEq, Eq)]
pub enum Cell {
    /// The word of this mutex: its owner's number and the flags.
    Mutex(MutexId),
    /// The health word of this mutex: 0 fine, 1 inconsistent, 2 unusable.
    Health(MutexId),
    /// The word of this condition variable: how often it was signalled or broadcast.
    Cond(CondId),
}
