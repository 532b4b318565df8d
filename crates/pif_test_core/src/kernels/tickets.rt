//! Tickets that come to their last number: those of waiters, and those of parked threads.
use super::{Ask, Reply, Steps, Story, play};
use std::test::Fail;

// Four threads of priority 10 lock mutex 1 in turn, and then unlock it in turn.
const HAND_OVERS: Steps = &[
    (Ask::Lock(1, 1), Reply::Owns),
    (Ask::Lock(2, 1), Reply::Queued),
    (Ask::Lock(3, 1), Reply::Queued),
    (Ask::Lock(4, 1), Reply::Queued),
    (Ask::Unlock(1, 1), Reply::Done),
    (Ask::Word(1), Reply::Bits(0x8000_0002)),
    (Ask::Unlock(2, 1), Reply::Done),
    (Ask::Word(1), Reply::Bits(0x8000_0003)),
    (Ask::Unlock(3, 1), Reply::Done),
    (Ask::Word(1), Reply::Bits(0x8000_0004)),
    (Ask::Unlock(4, 1), Reply::Done),
    (Ask::Word(1), Reply::Bits(0)),
];

// Threads 3, 1, 4 and 2 of priority 10 park on variable 1 in that order. Each gets a greater priority and its own
// again, which puts it where its ticket says, and they stand as before. Then all are taken for mutex 1.
const PARKED_IN_TURN: Steps = &[
    (Ask::Park(3, 1, 0, 1), Reply::Done),
    (Ask::Park(1, 1, 0, 1), Reply::Done),
    (Ask::Park(4, 1, 0, 1), Reply::Done),
    (Ask::Park(2, 1, 0, 1), Reply::Done),
    (Ask::SetPrio(2, 20), Reply::Done),
    (Ask::SetPrio(2, 10), Reply::Done),
    (Ask::SetPrio(1, 20), Reply::Done),
    (Ask::SetPrio(1, 10), Reply::Done),
    (Ask::SetPrio(4, 20), Reply::Done),
    (Ask::SetPrio(4, 10), Reply::Done),
    (Ask::SetPrio(3, 20), Reply::Done),
    (Ask::SetPrio(3, 10), Reply::Done),
    (Ask::Parked(1, 0), Reply::Thread(3)),
    (Ask::Parked(1, 1), Reply::Thread(1)),
    (Ask::Parked(1, 2), Reply::Thread(4)),
    (Ask::Parked(1, 3), Reply::Thread(2)),
    (Ask::Parked(1, 4), Reply::Nobody),
    (Ask::Requeue(1, 0, 1, 1, 3), Reply::Taken(4)),
    (Ask::Word(1), Reply::Bits(0x8000_0003)),
    (Ask::Waiter(1, 0), Reply::Thread(1)),
    (Ask::Waiter(1, 1), Reply::Thread(4)),
    (Ask::Waiter(1, 2), Reply::Thread(2)),
    (Ask::Waiter(1, 3), Reply::Nobody),
];

static STORIES: [Story; 2] = [
    Story {
        name: "tickets_of_waiters",
        levels: &[10, 10, 10, 10],
        mutexes: 1,
        tables: &[HAND_OVERS],
    },
    Story {
        name: "tickets_of_parked_threads",
        levels: &[10, 10, 10, 10],
        mutexes: 1,
        tables: &[PARKED_IN_TURN],
    },
];

// Three threads wait for a mutex, with tickets that begin at the last four. Those of waiters and those of parked
// threads both begin there, and the next one of a waiter is seen then.
#[test]
fn tickets_are_renumbered(rt: HostRuntime) -> Result<(), Fail> {
    for story in &STORIES {
        for (first, next) in [
            (18446744073709551612, 18446744073709551615),
            (18446744073709551613, 4),
            (18446744073709551614, 4),
            (18446744073709551615, 4),
        ] {
            let tickets = play(&rt, rt.alloc(), story, first)?;
            assert!(rt; tickets == [next, next], "{} from {first}", story.name);
        }
    }
    Ok(())
}
