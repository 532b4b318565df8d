ghost use Rattle.std.specs.Prelude.{◌≡◌};
ghost use Rattle.pif_types.specs.Numbers.{number_of};

use thiserror::Error;

/// What a pthread call answers: 0, or the number of an error.
pub type Answer = u32;

/// The errors of <errno.h> that a pthread call or a kernel call can answer.
#[derive(Clone, Copy, Debug, PartialEq, Eq, Error)]
pub enum Errno {
    /// EPERM: the caller isn't the owner.
    #[error("EPERM")]
    NotPermitted,
    /// ESRCH: no living thread has that number.
    #[error("ESRCH")]
    NoSuchThread,
    /// EAGAIN: the word changed, another thread owns the mutex, or the recursion count is at its limit.
    #[error("EAGAIN")]
    Again,
    /// EFAULT: there is no such word.
    #[error("EFAULT")]
    Fault,
    /// EBUSY: the mutex is held.
    #[error("EBUSY")]
    Busy,
    /// EINVAL: an argument is not valid, or word and kernel disagree.
    #[error("EINVAL")]
    Invalid,
    /// EDEADLK: the caller owns the mutex, or waiting would close a cycle.
    #[error("EDEADLK")]
    Deadlock,
    /// EOVERFLOW: the variable has had all the signals that its limit allows.
    #[error("EOVERFLOW")]
    Overflow,
    /// ETIMEDOUT: the deadline was reached.
    #[error("ETIMEDOUT")]
    TimedOut,
    /// EOWNERDEAD: the owner of the mutex ended; the caller owns it now, in an inconsistent state.
    #[error("EOWNERDEAD")]
    OwnerDead,
    /// ENOTRECOVERABLE: the mutex was left inconsistent and can't be used again.
    #[error("ENOTRECOVERABLE")]
    NotRecoverable,
}

impl Errno {
    /// The number of the error, as <errno.h> of Linux on x86-64 has it.
    pub fn number(self) -> Answer
        ensures { result ≡ number_of self }
    {
        match self {
            Errno::NotPermitted => 1,
            Errno::NoSuchThread => 3,
            Errno::Again => 11,
            Errno::Fault => 14,
            Errno::Busy => 16,
            Errno::Invalid => 22,
            Errno::Deadlock => 35,
            Errno::Overflow => 75,
            Errno::TimedOut => 110,
            Errno::OwnerDead => 130,
            Errno::NotRecoverable => 131,
        }
    }
}

/// A growth of memory was refused. Nothing has changed.
#[derive(Clone, Copy, Debug, PartialEq, Eq, Error)]
#[error("out of memory")]
pub struct NoMemory;

/// Why a thread, mutex or condition variable wasn't added. Nothing has changed.
#[derive(Clone, Copy, Debug, PartialEq, Eq, Error)]
pub enum AddFault {
    /// The limit is reached.
    #[error("too many")]
    TooMany,
    /// The priority is outside 1 to 99.
    #[error("bad priority")]
    BadPrio,
    /// The mutex to which a variable is to be bound doesn't exist.
    #[error("no such mutex")]
    NoSuch,
}

/// Why an event was refused. Nothing has changed.
#[derive(Clone, Copy, Debug, PartialEq, Eq, Error)]
pub enum Refusal {
    /// The thread has ended.
    #[error("dead")]
    Dead,
    /// The thread has a call open already.
    #[error("busy")]
    Busy,
    /// The thread has no call open.
    #[error("idle")]
    Idle,
    /// The thread was never added, or the request names a mutex or a variable that doesn't exist.
    #[error("no such thread, mutex or variable")]
    NoSuch,
    /// The time that is handed in is before the present one.
    #[error("past")]
    Past,
}
