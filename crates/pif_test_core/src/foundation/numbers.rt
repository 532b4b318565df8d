use crate::seen::see;
use pif_types::{AddFault, Errno, NoMemory, Refusal};
use std::alloc::Global;
use std::fmt::Display;
use std::process::Abort;

/// Each error, with its number on Linux on x86-64 and the name that <errno.h> gives it.
static ERRORS: [(Errno, u32, &str); 11] = [
    (Errno::NotPermitted, 1, "EPERM"),
    (Errno::NoSuchThread, 3, "ESRCH"),
    (Errno::Again, 11, "EAGAIN"),
    (Errno::Fault, 14, "EFAULT"),
    (Errno::Busy, 16, "EBUSY"),
    (Errno::Invalid, 22, "EINVAL"),
    (Errno::Deadlock, 35, "EDEADLK"),
    (Errno::Overflow, 75, "EOVERFLOW"),
    (Errno::TimedOut, 110, "ETIMEDOUT"),
    (Errno::OwnerDead, 130, "EOWNERDEAD"),
    (Errno::NotRecoverable, 131, "ENOTRECOVERABLE"),
];

/// Checks how an error is printed.
fn check_printed<D: Display>(rt: &impl Abort, alloc: Global, error: &D, text: &str) {
    let is_met = match error.to_string(alloc) {
        Ok(printed) => printed.as_str() == text,
        Err(_) => false,
    };
    assert!(rt; is_met, "{text:?}");
}

static FAULTS: [(AddFault, &str); 3] = [
    (AddFault::TooMany, "too many"),
    (AddFault::BadPrio, "bad priority"),
    (AddFault::NoSuch, "no such mutex"),
];

static REFUSALS: [(Refusal, &str); 4] = [
    (Refusal::Busy, "busy"),
    (Refusal::Idle, "idle"),
    (Refusal::NoSuch, "no such thread, mutex or variable"),
    (Refusal::Past, "past"),
];

#[test]
fn errors_have_their_numbers_and_say_what_they_are(rt: HostRuntime) {
    for (error, number, name) in &ERRORS {
        see(&rt, error.number(), *number, *number);
        check_printed(&rt, rt.alloc(), error, name);
    }
    for (fault, text) in &FAULTS {
        check_printed(&rt, rt.alloc(), fault, text);
    }
    for (refusal, text) in &REFUSALS {
        check_printed(&rt, rt.alloc(), refusal, text);
    }
    check_printed(&rt, rt.alloc(), &NoMemory, "out of memory");
}
