//! Who is taken from a variable, and mutexes whose owner states a kernel may find through one bucket.
use super::{Ask, Reply, Steps, Story};
use pif_kernel::Woken;

// Threads 2, 3 and 4, of priorities 10, 30 and 20, are parked on variable 1 for mutex 1. Thread 1, of priority 5, takes
// the mutex.
const WAITS: Steps = &[
    (Ask::Park(2, 1, 0, 1), Reply::Done),
    (Ask::Park(3, 1, 0, 1), Reply::Done),
    (Ask::Park(4, 1, 0, 1), Reply::Done),
    (Ask::Parked(1, 0), Reply::Thread(3)),
    (Ask::Parked(1, 1), Reply::Thread(4)),
    (Ask::Parked(1, 2), Reply::Thread(2)),
    (Ask::Parked(1, 3), Reply::Nobody),
    (Ask::Lock(1, 1), Reply::Owns),
    (Ask::StoreUses(1, 1), Reply::Done),
];

// All are queued on it, and get it in the order of their priorities.
const BROADCAST: Steps = &[
    (Ask::Requeue(1, 1, 1, 1, 1024), Reply::Taken(3)),
    (Ask::Parked(1, 0), Reply::Nobody),
    (Ask::Word(1), Reply::Bits(0x8000_0001)),
    (Ask::Effective(1), Reply::Prio(30)),
    (Ask::Unlock(1, 1), Reply::Done),
    (Ask::Word(1), Reply::Bits(0x8000_0003)),
    (Ask::Effective(1), Reply::Prio(5)),
    (Ask::Unlock(3, 1), Reply::Done),
    (Ask::Word(1), Reply::Bits(0x8000_0004)),
    (Ask::Unlock(4, 1), Reply::Done),
    (Ask::Word(1), Reply::Bits(0x8000_0002)),
    (Ask::Unlock(2, 1), Reply::Done),
    (Ask::Word(1), Reply::Bits(0x0000_0000)),
];

// Thread 3 parks after thread 2, which has a lower priority, and gets the mutex, which is free.
const GREATEST: Steps = &[
    (Ask::Park(2, 1, 0, 1), Reply::Done),
    (Ask::Park(3, 1, 0, 1), Reply::Done),
    (Ask::Requeue(1, 0, 1, 1, 0), Reply::Taken(1)),
    (Ask::Word(1), Reply::Bits(0x0000_0003)),
    (Ask::Status(3), Reply::Ready(Woken::Owns)),
    (Ask::Status(2), Reply::ParkedOn(1)),
];

// Mutexes 1 and 65 are both held by a thread for which one of priority 20 waits. What becomes of one leaves the other.
const HELD: Steps = &[
    (Ask::Lock(1, 1), Reply::Owns),
    (Ask::Lock(2, 1), Reply::Queued),
    (Ask::Lock(3, 65), Reply::Owns),
    (Ask::Lock(4, 65), Reply::Queued),
    (Ask::Unlock(3, 65), Reply::Done),
    (Ask::Word(65), Reply::Bits(0x8000_0004)),
    (Ask::Word(1), Reply::Bits(0x8000_0001)),
    (Ask::Effective(1), Reply::Prio(20)),
    (Ask::Effective(3), Reply::Prio(10)),
];

// The state of mutex 65 came later, and is gone. It comes again, and then that of mutex 1 goes.
const AGAIN: Steps = &[
    (Ask::Lock(3, 65), Reply::Queued),
    (Ask::Unlock(1, 1), Reply::Done),
    (Ask::Word(1), Reply::Bits(0x8000_0002)),
    (Ask::Word(65), Reply::Bits(0x8000_0004)),
    (Ask::Waiter(65, 0), Reply::Thread(3)),
    (Ask::Waiter(1, 0), Reply::Nobody),
    (Ask::Unlock(4, 65), Reply::Done),
    (Ask::Word(65), Reply::Bits(0x8000_0003)),
    (Ask::Waiter(65, 0), Reply::Nobody),
];

pub(super) static STORIES: [Story; 3] = [
    Story {
        name: "broadcast_wakes_by_priority",
        levels: &[5, 10, 30, 20],
        mutexes: 1,
        tables: &[WAITS, BROADCAST],
    },
    Story {
        name: "signal_takes_greatest_priority",
        levels: &[10, 10, 30],
        mutexes: 1,
        tables: &[GREATEST],
    },
    Story {
        name: "two_mutexes_of_one_bucket",
        levels: &[10, 20, 10, 20],
        mutexes: 65,
        tables: &[HELD, AGAIN],
    },
];
