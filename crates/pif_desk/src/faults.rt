use pif_types::{AddFault, Refusal};
use thiserror::Error;

/// Why a call on a desk or a room was not done.
#[derive(Clone, Copy, Debug, PartialEq, Eq, Error)]
pub enum DeskFault {
    /// A growth of memory was refused. The event or addition that needed it didn't happen; a call that had begun stays
    /// open.
    #[error("out of memory")]
    NoMemory,
    /// The core refused the event.
    #[error("refused: {0}")]
    Refused(Refusal),
    /// The core refused the addition.
    #[error("not added: {0}")]
    NotAdded(AddFault),
}
