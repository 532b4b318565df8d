//! Threads wait for one mutex, and each passes it on to the next: the unlock of the owner, through the kernel, and the
//! step of the other thread that finds out. Or threads hold a mutex each, for which another waits, and have come in its
//! unlock to the step that enters the kernel, in which the kernel hands the mutex over.
use super::scenes::{WAITING, call, lock, mutex, step, thread};
use pif_core::{Core, Event};
use pif_types::{MutexId, Request, Tid};

/// How many threads hold a mutex for which another waits.
pub const HOLDERS: u32 = 500;

/// Each thread passes mutex 1 on: it unlocks the mutex, and the one behind it finds that it owns it.
pub fn hand_over(core: &mut Core) {
    let mutex = MutexId::default();
    for number in 1..=WAITING {
        call(core, thread(number), Request::Unlock(mutex));
        step(core, Event::Go(thread(number + 1)));
    }
}

/// Each holder locks a mutex, for which another thread then waits, and begins to unlock it.
pub fn come_to_the_kernel(core: &mut Core) {
    for number in 1..=HOLDERS {
        lock(core, number, number);
        lock(core, number + HOLDERS, number);
        begin_unlock(core, thread(number), mutex(number));
    }
}

/// A holder begins to unlock its mutex, loads the word and finds that it is marked.
fn begin_unlock(core: &mut Core, holder: Tid, mutex: MutexId) {
    step(core, Event::Begin(holder, Request::Unlock(mutex)));
    step(core, Event::Go(holder));
    step(core, Event::Go(holder));
}

/// Each holder takes the kernel's step of its unlock.
pub fn step_in_the_kernel(core: &mut Core) {
    for number in 1..=HOLDERS {
        step(core, Event::Go(thread(number)));
    }
}
