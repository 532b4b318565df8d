//! Parking on condition variables, and what takes threads from them: requeues, by the word of the mutex as it is then,
//! and the end of a thread.
use super::{Ask, Reply, Steps, Story};
use pif_kernel::Woken;
use pif_types::Errno;

// Nobody has number 9. A priority is tested before the thread.
const REFUSALS: Steps = &[
    (Ask::SetPrio(9, 0), Reply::Refused(Errno::Invalid)),
    (Ask::SetPrio(9, 100), Reply::Refused(Errno::Invalid)),
    (Ask::SetPrio(9, 10), Reply::Refused(Errno::NoSuchThread)),
    (Ask::Effective(9), Reply::Nobody),
    (Ask::SetPrio(1, 0), Reply::Refused(Errno::Invalid)),
    (Ask::SetPrio(1, 100), Reply::Refused(Errno::Invalid)),
    (Ask::Effective(1), Reply::Prio(10)),
    (Ask::SetPrio(1, 99), Reply::Done),
    // Thread 1 parks on variable 1, whose word is 1, for mutex 1. There is no variable 3 and no mutex 3.
    (Ask::StoreUses(1, 1), Reply::Done),
    (Ask::Park(1, 3, 0, 1), Reply::Refused(Errno::Fault)),
    (Ask::Park(1, 1, 0, 3), Reply::Refused(Errno::Fault)),
    (Ask::Park(1, 1, 0, 1), Reply::Refused(Errno::Again)),
    (Ask::Status(1), Reply::Ready(Woken::Fresh)),
    (Ask::Pick, Reply::Thread(1)),
    (Ask::Park(1, 1, 1, 1), Reply::Done),
    (Ask::Status(1), Reply::ParkedOn(1)),
    (Ask::Pick, Reply::Thread(2)),
];

// It is to be taken, also for mutex 2; also if the variable or the mutex isn't there, if the count isn't 1, or if the
// word of the variable is another.
const REQUEUES: Steps = &[
    (Ask::Requeue(3, 1, 1, 2, 0), Reply::Refused(Errno::Fault)),
    (Ask::Requeue(1, 0, 3, 2, 0), Reply::Refused(Errno::Fault)),
    (Ask::Requeue(1, 0, 2, 2, 0), Reply::Refused(Errno::Invalid)),
    (Ask::Requeue(1, 1, 1, 0, 0), Reply::Refused(Errno::Invalid)),
    (Ask::Requeue(1, 0, 2, 1, 0), Reply::Refused(Errno::Again)),
    (Ask::Requeue(1, 1, 2, 1, 0), Reply::Refused(Errno::Invalid)),
];

// Thread 3 queues on mutex 1, so that there is an owner state of thread 2, and then the word says otherwise: no number,
// that of another living thread, and that of nobody. Nobody is parked on variable 2.
const STATES: Steps = &[
    (Ask::Lock(2, 1), Reply::Owns),
    (Ask::Lock(3, 1), Reply::Queued),
    (Ask::Store(1, 0x0000_0000), Reply::Done),
    (Ask::Requeue(2, 0, 1, 1, 0), Reply::Taken(0)),
    (Ask::Requeue(1, 1, 1, 1, 0), Reply::Refused(Errno::Invalid)),
    (Ask::Store(1, 0x0000_0003), Reply::Done),
    (Ask::Requeue(2, 0, 1, 1, 0), Reply::Taken(0)),
    (Ask::Requeue(1, 1, 1, 1, 0), Reply::Refused(Errno::Invalid)),
    (Ask::Status(1), Reply::ParkedOn(1)),
    (Ask::Store(1, 0x0000_03ff), Reply::Done),
    (Ask::Requeue(1, 1, 1, 1, 0), Reply::Taken(1)),
    (Ask::Status(1), Reply::Ready(Woken::Again)),
    (Ask::Word(1), Reply::Bits(0x0000_03ff)),
];

// After two uses: a requeue of two at first, and one that was told of one use.
const LAST_USES: Steps = &[
    (Ask::StoreUses(1, 2), Reply::Done),
    (Ask::Requeue(1, 2, 1, 2, 0), Reply::Refused(Errno::Invalid)),
    (Ask::Requeue(1, 1, 1, 1, 0), Reply::Refused(Errno::Again)),
];

// The word of mutex 1 has both flags and no number. It gets that of the thread, and keeps OWNER_DIED alone.
const OWNS: Steps = &[
    (Ask::Store(1, 0xc000_0000), Reply::Done),
    (Ask::Park(2, 1, 0, 1), Reply::Done),
    (Ask::Requeue(1, 0, 1, 1, 0), Reply::Taken(1)),
    (Ask::Status(2), Reply::Ready(Woken::Owns)),
    (Ask::Word(1), Reply::Bits(0x4000_0002)),
    (Ask::Pick, Reply::Thread(2)),
];

// Thread 1 parks before thread 3, which has the same priority, locks. It is queued behind it, and wakes behind it.
const QUEUES: Steps = &[
    (Ask::Park(1, 1, 0, 1), Reply::Done),
    (Ask::Lock(3, 1), Reply::Queued),
    (Ask::Effective(2), Reply::Prio(20)),
    (Ask::SetPrio(1, 30), Reply::Done),
    (Ask::Requeue(1, 0, 1, 1, 0), Reply::Taken(1)),
    (Ask::Status(1), Reply::QueuedOn(1)),
    (Ask::Word(1), Reply::Bits(0xc000_0002)),
    (Ask::Effective(2), Reply::Prio(30)),
    (Ask::SetPrio(1, 10), Reply::Done),
    (Ask::Unlock(2, 1), Reply::Done),
    (Ask::Word(1), Reply::Bits(0x8000_0003)),
];

// The word of mutex 2 has the number of nobody, and then that of the thread itself.
const WAKES: Steps = &[
    (Ask::Store(2, 0xc000_03ff), Reply::Done),
    (Ask::Park(2, 2, 0, 2), Reply::Done),
    (Ask::Requeue(2, 0, 2, 1, 0), Reply::Taken(1)),
    (Ask::Status(2), Reply::Ready(Woken::Again)),
    (Ask::Word(2), Reply::Bits(0xc000_03ff)),
    (Ask::Store(2, 0x0000_0002), Reply::Done),
    (Ask::Park(2, 2, 0, 2), Reply::Done),
    (Ask::Requeue(2, 0, 2, 1, 0), Reply::Taken(1)),
    (Ask::Status(2), Reply::Ready(Woken::Again)),
    (Ask::Word(2), Reply::Bits(0x0000_0002)),
];

// Thread 2 waits for thread 1, which is parked: it can't queue behind thread 2, and is woken.
const CYCLE: Steps = &[
    (Ask::Lock(1, 2), Reply::Owns),
    (Ask::Lock(2, 1), Reply::Owns),
    (Ask::Park(1, 1, 0, 1), Reply::Done),
    (Ask::Lock(2, 2), Reply::Queued),
    (Ask::Effective(1), Reply::Prio(20)),
    (Ask::Requeue(1, 0, 1, 1, 0), Reply::Taken(1)),
    (Ask::Status(1), Reply::Ready(Woken::Again)),
    (Ask::Word(1), Reply::Bits(0x0000_0002)),
    (Ask::Lock(1, 1), Reply::Refused(Errno::Deadlock)),
];

// Thread 1 ends as the owner of mutex 2, which isn't on its robust list. Thread 3 is queued on it, so that the owner
// state of thread 1 stays, and thread 2 is parked for it.
const LOST: Steps = &[
    (Ask::Lock(1, 2), Reply::Owns),
    (Ask::Lock(3, 2), Reply::Queued),
    (Ask::Park(2, 1, 0, 2), Reply::Done),
    (Ask::End(1, 1), Reply::Done),
    (Ask::Requeue(1, 0, 2, 1, 0), Reply::Taken(1)),
    (Ask::Status(2), Reply::Ready(Woken::Again)),
    (Ask::Word(2), Reply::Bits(0x8000_0001)),
    (Ask::Lock(2, 2), Reply::Refused(Errno::NoSuchThread)),
    (Ask::Status(3), Reply::QueuedOn(2)),
];

// Threads 2 to 5, of priorities 20, 30, 30 and 20, are parked on variable 1 for mutex 1, which has no owner.
const PARKED: Steps = &[
    (Ask::Park(2, 1, 0, 1), Reply::Done),
    (Ask::Park(3, 1, 0, 1), Reply::Done),
    (Ask::Park(4, 1, 0, 1), Reply::Done),
    (Ask::Park(5, 1, 0, 1), Reply::Done),
];

const GREATEST_FIRST: Steps = &[
    (Ask::Store(1, 0x4000_0000), Reply::Done),
    (Ask::Requeue(1, 0, 1, 1, 1), Reply::Taken(2)),
    (Ask::Word(1), Reply::Bits(0xc000_0003)),
    (Ask::Status(3), Reply::Ready(Woken::Owns)),
    (Ask::Status(4), Reply::QueuedOn(1)),
    (Ask::SetPrio(5, 40), Reply::Done),
    (Ask::Effective(3), Reply::Prio(30)),
    (Ask::Requeue(1, 0, 1, 1, 1024), Reply::Taken(2)),
    (Ask::Effective(3), Reply::Prio(40)),
    (Ask::Unlock(3, 1), Reply::Done),
    (Ask::Word(1), Reply::Bits(0x8000_0005)),
    (Ask::Requeue(1, 0, 1, 1, 4294967295), Reply::Taken(0)),
];

// Thread 2, the owner of mutex 1, waits for thread 1, which is parked as threads 3 and 4 are. The first that is taken
// is thread 3: it boosts both, and so thread 1 goes before thread 4.
const EACH_ANEW: Steps = &[
    (Ask::Lock(1, 2), Reply::Owns),
    (Ask::Lock(2, 1), Reply::Owns),
    (Ask::Park(1, 1, 0, 1), Reply::Done),
    (Ask::Park(3, 1, 0, 1), Reply::Done),
    (Ask::Park(4, 1, 0, 1), Reply::Done),
    (Ask::Lock(2, 2), Reply::Queued),
    (Ask::Effective(1), Reply::Prio(10)),
    (Ask::Requeue(1, 0, 1, 1, 1), Reply::Taken(2)),
    (Ask::Status(3), Reply::QueuedOn(1)),
    (Ask::Effective(1), Reply::Prio(50)),
    (Ask::Status(1), Reply::Ready(Woken::Again)),
    (Ask::Status(4), Reply::ParkedOn(1)),
    (Ask::Pick, Reply::Thread(1)),
];

// Thread 2 is parked as the owner of mutex 2: who locks it boosts thread 2, which goes before thread 3 then.
const BOOSTED: Steps = &[
    (Ask::Lock(2, 2), Reply::Owns),
    (Ask::Park(2, 1, 0, 1), Reply::Done),
    (Ask::Park(3, 1, 0, 1), Reply::Done),
    (Ask::Lock(4, 2), Reply::Queued),
    (Ask::Effective(2), Reply::Prio(40)),
    (Ask::Requeue(1, 0, 1, 1, 0), Reply::Taken(1)),
    (Ask::Word(1), Reply::Bits(0x0000_0002)),
];

// Thread 5 parks before thread 6, which has the same priority: it goes behind it while it has a lower one, and keeps
// its place among equals.
const SET: Steps = &[
    (Ask::Park(5, 2, 0, 3), Reply::Done),
    (Ask::Park(6, 2, 0, 3), Reply::Done),
    (Ask::SetPrio(5, 5), Reply::Done),
    (Ask::Effective(5), Reply::Prio(5)),
    (Ask::SetPrio(5, 10), Reply::Done),
    (Ask::Requeue(2, 0, 3, 1, 0), Reply::Taken(1)),
    (Ask::Word(3), Reply::Bits(0x0000_0005)),
    (Ask::Status(6), Reply::ParkedOn(2)),
];

// A thread that ends while it is parked leaves its variable, and loses no wake-up of the next.
const BOTH_PARKED: Steps = &[
    (Ask::Park(1, 1, 0, 1), Reply::Done),
    (Ask::Park(2, 1, 0, 1), Reply::Done),
    (Ask::End(1, 1), Reply::Done),
    (Ask::Requeue(1, 0, 1, 1, 1), Reply::Taken(1)),
    (Ask::Status(2), Reply::Ready(Woken::Owns)),
    (Ask::Word(1), Reply::Bits(0x0000_0002)),
];

// Equals are taken in the order in which they were parked, also once one of them went up and down again.
const EQUALS: Steps = &[
    (Ask::Park(3, 1, 0, 1), Reply::Done),
    (Ask::Park(2, 1, 0, 1), Reply::Done),
    (Ask::SetPrio(2, 30), Reply::Done),
    (Ask::Parked(1, 0), Reply::Thread(2)),
    (Ask::SetPrio(2, 10), Reply::Done),
    (Ask::Parked(1, 0), Reply::Thread(3)),
    (Ask::Parked(1, 1), Reply::Thread(2)),
    (Ask::Expire(3), Reply::Done),
    (Ask::Park(3, 1, 0, 1), Reply::Done),
    (Ask::Parked(1, 0), Reply::Thread(2)),
    (Ask::Parked(1, 1), Reply::Thread(3)),
    (Ask::Parked(2, 0), Reply::Nobody),
];

pub(super) static STORIES: [Story; 10] = [
    Story {
        name: "uses_of_a_variable_run_out",
        levels: &[10],
        mutexes: 1,
        tables: &[LAST_USES],
    },
    Story {
        name: "set_prio_and_requeue_refusals",
        levels: &[10, 10, 10],
        mutexes: 2,
        tables: &[REFUSALS, REQUEUES, STATES],
    },
    Story {
        name: "parked_thread_is_rekeyed",
        levels: &[10, 10, 15, 40, 10, 10],
        mutexes: 3,
        tables: &[BOOSTED, SET],
    },
    Story {
        name: "the_word_says_what_a_taken_thread_gets",
        levels: &[10, 20, 10],
        mutexes: 2,
        tables: &[OWNS, QUEUES, WAKES],
    },
    Story {
        name: "requeue_into_a_cycle_wakes",
        levels: &[10, 20],
        mutexes: 2,
        tables: &[CYCLE],
    },
    Story {
        name: "requeue_to_a_lost_mutex_wakes",
        levels: &[10, 20, 30],
        mutexes: 2,
        tables: &[LOST],
    },
    Story {
        name: "requeue_takes_greatest_first",
        levels: &[10, 20, 30, 30, 20],
        mutexes: 1,
        tables: &[PARKED, GREATEST_FIRST],
    },
    Story {
        name: "requeue_judges_anew_for_each",
        levels: &[10, 5, 50, 30],
        mutexes: 2,
        tables: &[EACH_ANEW],
    },
    Story {
        name: "exit_leaves_the_variable",
        levels: &[20, 10],
        mutexes: 1,
        tables: &[BOTH_PARKED],
    },
    Story {
        name: "equals_are_taken_in_order_of_parking",
        levels: &[10, 10, 10],
        mutexes: 1,
        tables: &[EQUALS],
    },
];
