use pif_types::Answer;

/// What a step of an open call came to.
#[derive(Clone, Copy, Debug, PartialEq, Eq)]
pub enum Progress {
    /// The call goes on.
    Went,
    /// The thread waits: it is queued on a mutex, parked on a condition variable, or stopped for good.
    Waits,
    /// The call is closed with this answer: 0, or the number of an error.
    Done(Answer),
}
