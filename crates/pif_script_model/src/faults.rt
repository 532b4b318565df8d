use pif_text_model::Cause;
use thiserror::Error;

/// Why a run or a replay ended before the end of its script or trace, or why a trace was not written. The published
/// interface of `pif_cli` fixes this name, so it stays, though the crates below answer it too.
#[derive(Clone, Copy, Debug, PartialEq, Eq, Error)]
pub enum CliFault {
    /// A read failed.
    #[error("the input cannot be read")]
    Read,
    /// A write failed, or took no byte.
    #[error("the output cannot be written")]
    Write,
    /// A growth of memory was refused.
    #[error("out of memory")]
    NoMemory,
    /// The line of this number, from 1, is a fault.
    #[error("line {0} is a fault")]
    Script(u64, Cause),
    /// The line of this number, from 1, records another answer than the core gives.
    #[error("line {0} of the trace differs")]
    Differs(u64),
}
