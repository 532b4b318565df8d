//! Deadlines that are reached while a thread is queued, parked or stopped: what it leaves, the priorities of the chain
//! above it, and where it stands in the run queue.
use super::{Ask, Reply, Steps, Story};
use pif_kernel::Woken;

const EXPIRED: Reply = Reply::Ready(Woken::Expired);

// Thread 2 waits for mutex 1 of thread 1, twice. WAITERS stays, and nobody trusts it.
const QUEUED: Steps = &[
    (Ask::Lock(1, 1), Reply::Owns),
    (Ask::Lock(2, 1), Reply::Queued),
    (Ask::Effective(1), Reply::Prio(50)),
    (Ask::Expire(2), Reply::Done),
    (Ask::Status(2), EXPIRED),
    (Ask::Effective(1), Reply::Prio(10)),
    (Ask::Waiter(1, 0), Reply::Nobody),
    (Ask::Word(1), Reply::Bits(0x8000_0001)),
    (Ask::Lock(2, 1), Reply::Queued),
    (Ask::Effective(1), Reply::Prio(50)),
    (Ask::Expire(2), Reply::Done),
    (Ask::Effective(1), Reply::Prio(10)),
    (Ask::Unlock(1, 1), Reply::Done),
    (Ask::Word(1), Reply::Bits(0)),
];

// Thread 3 is parked on variable 1, behind thread 2, and then on it alone.
const PARKED: Steps = &[
    (Ask::Park(2, 1, 0, 1), Reply::Done),
    (Ask::Park(3, 1, 0, 1), Reply::Done),
    (Ask::Expire(2), Reply::Done),
    (Ask::Status(2), EXPIRED),
    (Ask::Parked(1, 0), Reply::Thread(3)),
    (Ask::Expire(3), Reply::Done),
    (Ask::Status(3), EXPIRED),
    (Ask::Parked(1, 0), Reply::Nobody),
    (Ask::Requeue(1, 0, 1, 1, 0), Reply::Taken(0)),
];

// Thread 4 has stopped, and then may run, take a mutex and stop again.
const STOPPED: Steps = &[
    (Ask::Stop(4), Reply::Done),
    (Ask::Expire(4), Reply::Done),
    (Ask::Status(4), EXPIRED),
    (Ask::Lock(4, 1), Reply::Owns),
    (Ask::Stop(4), Reply::Done),
    (Ask::Status(4), Reply::Stopped),
];

// Thread 1 holds mutex 1, on which thread 2 is queued; thread 3 is parked, and thread 4 has stopped. All are of the
// priority of thread 5. Who expires joins behind those that are there.
const ALL_REST: Steps = &[
    (Ask::Lock(1, 1), Reply::Owns),
    (Ask::Lock(2, 1), Reply::Queued),
    (Ask::Park(3, 1, 0, 1), Reply::Done),
    (Ask::Stop(4), Reply::Done),
];

const EXPIRE: Steps = &[
    (Ask::Expire(4), Reply::Done),
    (Ask::Expire(2), Reply::Done),
    (Ask::Expire(3), Reply::Done),
    (Ask::Ready(0), Reply::Thread(1)),
    (Ask::Ready(1), Reply::Thread(5)),
    (Ask::Ready(2), Reply::Thread(4)),
    (Ask::Ready(3), Reply::Thread(2)),
    (Ask::Ready(4), Reply::Thread(3)),
];

// Thread 1 was boosted by thread 2. It falls behind thread 3, which has its priority, and thread 2 runs first.
const BOOST_LOST: Steps = &[
    (Ask::Lock(1, 1), Reply::Owns),
    (Ask::Lock(2, 1), Reply::Queued),
    (Ask::Pick, Reply::Thread(1)),
    (Ask::Expire(2), Reply::Done),
    (Ask::Ready(0), Reply::Thread(2)),
    (Ask::Ready(1), Reply::Thread(3)),
    (Ask::Ready(2), Reply::Thread(1)),
];

// Thread 1, of priority 10, holds mutex 1. Thread 2, of priority 20, holds mutex 2 and waits for mutex 1. Threads 3 and
// 4, of priorities 30 and 40, wait for mutex 2.
const WAITING: Steps = &[
    (Ask::Lock(1, 1), Reply::Owns),
    (Ask::Lock(2, 2), Reply::Owns),
    (Ask::Lock(2, 1), Reply::Queued),
    (Ask::Lock(3, 2), Reply::Queued),
    (Ask::Lock(4, 2), Reply::Queued),
    (Ask::Effective(1), Reply::Prio(40)),
    (Ask::Effective(2), Reply::Prio(40)),
];

const BOOST_FALLS: Steps = &[
    (Ask::Expire(4), Reply::Done),
    (Ask::Effective(1), Reply::Prio(30)),
    (Ask::Effective(2), Reply::Prio(30)),
    (Ask::Expire(3), Reply::Done),
    (Ask::Effective(1), Reply::Prio(20)),
    (Ask::Effective(2), Reply::Prio(20)),
    (Ask::Expire(2), Reply::Done),
    (Ask::Effective(1), Reply::Prio(10)),
    (Ask::Effective(2), Reply::Prio(20)),
    (Ask::Pick, Reply::Thread(4)),
];

// Thread 2 leaves the middle of the chain, and those that wait for it boost it still, and thread 1 no longer.
const BOOST_KEPT: Steps = &[
    (Ask::Expire(2), Reply::Done),
    (Ask::Effective(1), Reply::Prio(10)),
    (Ask::Effective(2), Reply::Prio(40)),
    (Ask::Pick, Reply::Thread(2)),
    (Ask::Waiter(2, 0), Reply::Thread(4)),
    (Ask::Waiter(2, 1), Reply::Thread(3)),
];

pub(super) static STORIES: [Story; 5] = [
    Story {
        name: "expiry_ends_each_kind_of_waiting",
        levels: &[10, 50, 20, 30],
        mutexes: 1,
        tables: &[QUEUED, PARKED, STOPPED],
    },
    Story {
        name: "who_expires_runs_behind_its_equals",
        levels: &[20, 20, 20, 20, 20],
        mutexes: 1,
        tables: &[ALL_REST, EXPIRE],
    },
    Story {
        name: "who_loses_a_boost_by_expiry_runs_behind_its_equals",
        levels: &[10, 50, 10],
        mutexes: 1,
        tables: &[BOOST_LOST],
    },
    Story {
        name: "boost_falls_with_each_waiter_that_expires",
        levels: &[10, 20, 30, 40],
        mutexes: 2,
        tables: &[WAITING, BOOST_FALLS],
    },
    Story {
        name: "who_expires_keeps_the_boost_of_its_own_waiters",
        levels: &[10, 20, 30, 40],
        mutexes: 2,
        tables: &[WAITING, BOOST_KEPT],
    },
];
