ghost use Rattle.std.specs.Prelude.{◌≡◌, ◌≤◌, MatchOption, length};
ghost use Rattle.pif_types.specs.declared.errors.Errno.{Errno};
ghost use Rattle.pif_types.specs.Numbers.{number_of};
ghost use Rattle.pif_text_model.specs.Errors.{errno_name, error_named, error_of};

use pif_types::{Answer, Errno};

/// All errors of `Errno`, in the order of their numbers.
pub const ERRORS: [Errno; 11] = [
    Errno::NotPermitted,
    Errno::NoSuchThread,
    Errno::Again,
    Errno::Fault,
    Errno::Busy,
    Errno::Invalid,
    Errno::Deadlock,
    Errno::Overflow,
    Errno::TimedOut,
    Errno::OwnerDead,
    Errno::NotRecoverable,
];

/// The error of which this is the number, as <errno.h> of Linux on x86-64 has it. `None` for 0, and for a number of
/// which there is no `Errno`.
#[tactic(auto, unfolding(pif_text_model::specs::Errors::error_of))]
pub fn errno_of(answer: Answer) -> Option<Errno>
    ensures value { result ≡ error_of answer }
    ensures numbered { MatchOption result ((errno : Errno) → (number_of errno ≡ answer) → ⊥) (λ errno. number_of errno ≡ answer) }
{
    match answer {
        1 => Some(Errno::NotPermitted),
        3 => Some(Errno::NoSuchThread),
        11 => Some(Errno::Again),
        14 => Some(Errno::Fault),
        16 => Some(Errno::Busy),
        22 => Some(Errno::Invalid),
        35 => Some(Errno::Deadlock),
        75 => Some(Errno::Overflow),
        110 => Some(Errno::TimedOut),
        130 => Some(Errno::OwnerDead),
        131 => Some(Errno::NotRecoverable),
        _ => None,
    }
}

/// The name of an error, of at most 15 letters, as `EDEADLK`.
pub fn errno_name(errno: Errno) -> &'static str
    ensures items { result.now ≡ errno_name errno }
    ensures len { length result.now ≤ 15 }
{
    match errno {
        Errno::NotPermitted => "EPERM",
        Errno::NoSuchThread => "ESRCH",
        Errno::Again => "EAGAIN",
        Errno::Fault => "EFAULT",
        Errno::Busy => "EBUSY",
        Errno::Invalid => "EINVAL",
        Errno::Deadlock => "EDEADLK",
        Errno::Overflow => "EOVERFLOW",
        Errno::TimedOut => "ETIMEDOUT",
        Errno::OwnerDead => "EOWNERDEAD",
        Errno::NotRecoverable => "ENOTRECOVERABLE",
    }
}

/// The error of this name, in capital letters as `EDEADLK`. `None` if there is none.
#[tactic(auto, unfolding(pif_text_model::specs::Errors::error_named))]
pub fn errno_named(name: &[u8]) -> Option<Errno>
    ensures { result ≡ error_named name.now }
{
    for errno in ERRORS {
        if name == errno_name(errno).as_bytes() {
            return Some(errno);
        }
    }
    None
}
