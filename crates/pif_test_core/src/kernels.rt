mod conditions;
mod expiries;
mod parked;
mod random_calls;
mod tickets;

ghost use Rattle.std.specs.Prelude.{◌≡◌, ◌≤◌, ◌+◌, true, length, IfSome};
ghost use Rattle.pif_model.specs.PiKernel.{has_seat, is_living, is_ready, seat_at};
ghost use Rattle.pif_kernel_model.specs.Inside.{kernel_of};

use crate::seen::{cond, mutex, thread};
use pif_chains_linked::LinkedChains;
use pif_kernel::{Chains, KernelOn, PiKernel, Status, Took, Woken};
use pif_plain::PlainChains;
use pif_robust::RobustLists;
use pif_types::{Errno, Limits, MutexId, Prio, Tid};
use pif_word::{Cell, Words};
use std::alloc::Global;
use std::process::Abort;
use std::test::Fail;

// A kernel, words beside it, and where the lists of a thread that ends take their memory.
#[derive(Drop)]
struct Scene<K: PiKernel + Drop> {
    kernel: K,
    words: Words,
    alloc: Global,
}

// What is asked of a scene: a call of the kernel, a read, or a write of a word. Threads, mutexes and variables go by
// their numbers.
#[derive(Clone, Copy)]
enum Ask {
    Lock(u32, u32),
    TryLock(u32, u32),
    Unlock(u32, u32),
    // A thread parks on a variable, whose word it expects to be this, with this mutex as its target.
    Park(u32, u32, u32, u32),
    // A requeue from a variable, whose word is expected to be this, to a mutex, of `val` and `more` threads.
    Requeue(u32, u32, u32, u32, u32),
    SetPrio(u32, u32),
    Stop(u32),
    Expire(u32),
    // A thread ends, whose robust list has this mutex.
    End(u32, u32),
    Status(u32),
    Effective(u32),
    Base(u32),
    // The waiter of a mutex, the thread that is parked on a variable, and the ready thread, at a place.
    Waiter(u32, u32),
    Parked(u32, u32),
    Ready(u32),
    // Of the threads from this one on along whom each waits for, the one at this place.
    Path(u32, u32),
    Pick,
    Word(u32),
    Store(u32, u32),
    StoreUses(u32, u32),
}

// What a scene answers. A thread is ready, rests on a mutex or a variable, or has stopped.
#[derive(Clone, Copy, PartialEq)]
enum Reply {
    Done,
    Owns,
    Queued,
    Refused(Errno),
    Taken(u32),
    Bits(u32),
    Ready(Woken),
    QueuedOn(u32),
    ParkedOn(u32),
    Stopped,
    HasEnded,
    Prio(u32),
    Thread(u32),
    // There is nothing to be read.
    Nobody,
}

// What is asked, and what is answered.
type Steps = &'static [(Ask, Reply)];

// What a new scene is asked.
struct Story {
    name: &'static str,
    // The priorities of its threads.
    levels: &'static [u32],
    mutexes: u32,
    // The steps, table after table.
    tables: &'static [Steps],
}

// A kernel with a thread of each of these priorities and room for one more, this first ticket, so many mutexes, and two
// variables; all words are 0.
fn new_scene<C: Chains + Drop>(
    alloc: Global,
    levels: &[u32],
    mutexes: u32,
    first_ticket: u64,
) -> Result<Scene<KernelOn<C>>, Fail>
    requires { 1 ≤ first_ticket }
{
    let threads = u32::try_from(levels.len()).ok().ok_or("threads")?;
    let limits = Limits::new(threads.saturating_add(1), mutexes, 2, 1).ok_or("limits")?;
    let words = Words::new(alloc, limits)?;
    let mut kernel: KernelOn<C> = KernelOn::new(alloc, limits, first_ticket)?;
    add_all(&mut kernel, levels)?;
    Ok(Scene {
        kernel,
        words,
        alloc,
    })
}

// Adds a thread of each of these priorities, for whom there is room.
fn add_all<C: Chains + Drop>(kernel: &mut KernelOn<C>, levels: &[u32]) -> Result<(), Fail>
    requires { length (kernel_of kernel.old).seats + length levels.now ≤ (kernel_of kernel.old).limits.threads + 1 }
{
    for level in levels {
        let prio = Prio::new(*level).ok_or("a priority")?;
        kernel.add(prio);
    }
    Ok(())
}

// The answer to what is asked. `None` if it can't be asked: a number is nobody's, or the thread of a call may not run.
fn answer<K: PiKernel + Drop>(scene: &mut Scene<K>, ask: Ask) -> Option<Reply> {
    match ask {
        Ask::Lock(t, _)
        | Ask::TryLock(t, _)
        | Ask::Unlock(t, _)
        | Ask::Park(t, _, _, _)
        | Ask::Stop(t) => {
            let t = ready(&scene.kernel, t)?;
            Some(call(scene, t, ask))
        }
        Ask::Requeue(c, expected, m, val, more) => {
            let Scene { kernel, words, .. } = scene;
            let taken = kernel.cmp_requeue_pi(words, cond(c), mutex(m), val, more, expected);
            Some(match taken {
                Ok(taken) => Reply::Taken(taken),
                Err(errno) => Reply::Refused(errno),
            })
        }
        Ask::SetPrio(t, p) => Some(done(scene.kernel.set_prio(thread(t), p))),
        Ask::Expire(t) => expire(&mut scene.kernel, t),
        Ask::End(t, m) => end(scene, t, mutex(m)),
        Ask::Store(m, bits) => store(&mut scene.words, &Cell::Mutex(mutex(m)), bits),
        Ask::StoreUses(c, uses) => store(&mut scene.words, &Cell::Cond(cond(c)), uses),
        other => Some(read(scene, other)),
    }
}

// The same of a call by a thread that may run.
fn call<K: PiKernel + Drop>(scene: &mut Scene<K>, t: Tid, ask: Ask) -> Reply
    requires added { has_seat (K.meaning scene.old.kernel) t ≡ true }
    requires ready { is_ready (seat_at (K.meaning scene.old.kernel) t).status ≡ true }
{
    let Scene { kernel, words, .. } = scene;
    match ask {
        Ask::Lock(_, m) => match kernel.lock_pi(words, t, mutex(m)) {
            Ok(Took::Owns) => Reply::Owns,
            Ok(Took::Queued) => Reply::Queued,
            Err(errno) => Reply::Refused(errno),
        },
        Ask::TryLock(_, m) => done(kernel.trylock_pi(words, t, mutex(m))),
        Ask::Unlock(_, m) => done(kernel.unlock_pi(words, t, mutex(m))),
        Ask::Park(_, c, expected, m) => {
            done(kernel.wait_requeue_pi(words, t, cond(c), expected, mutex(m)))
        }
        _ => {
            kernel.stop(t);
            Reply::Done
        }
    }
}

// What is read.
fn read<K: PiKernel + Drop>(scene: &Scene<K>, ask: Ask) -> Reply {
    let Scene { kernel, words, .. } = scene;
    match ask {
        Ask::Word(m) => word_of(words, &Cell::Mutex(mutex(m))),
        Ask::Status(t) | Ask::Base(t) => match living(kernel, t) {
            Some(t) => read_living(kernel, t, ask),
            None => Reply::Nobody,
        },
        Ask::Effective(t) => match kernel.effective(thread(t)) {
            Some(prio) => Reply::Prio(prio.get()),
            None => Reply::Nobody,
        },
        _ => match read_thread(kernel, ask) {
            Some(t) => Reply::Thread(t.get()),
            None => Reply::Nobody,
        },
    }
}

// The thread that is read, if there is one.
fn read_thread<K: PiKernel + Drop>(kernel: &K, ask: Ask) -> Option<Tid> {
    match ask {
        Ask::Waiter(m, place) => kernel.waiter(mutex(m), place),
        Ask::Parked(c, place) => kernel.parked(cond(c), place),
        Ask::Ready(place) => kernel.ready(place),
        Ask::Path(t, place) => {
            let path = kernel.path(thread(t));
            path.as_slice().get(place as usize).copied()
        }
        Ask::Pick => kernel.pick(),
        _ => None,
    }
}

// What is read of a thread that lives: its own priority, or what it does.
fn read_living<K: PiKernel + Drop>(kernel: &K, t: Tid, ask: Ask) -> Reply
    requires living { is_living (K.meaning kernel.now) t ≡ true }
    requires added { has_seat (K.meaning kernel.now) t ≡ true }
{
    if let Ask::Base(_) = ask {
        return Reply::Prio(kernel.base(t).get());
    }
    match kernel.status(t) {
        Status::Ready(woken) => Reply::Ready(woken),
        Status::Queued(m) => Reply::QueuedOn(m.get()),
        Status::Parked(c) => Reply::ParkedOn(c.get()),
        Status::Stopped => Reply::Stopped,
        Status::Ended => Reply::HasEnded,
    }
}

fn word_of(words: &Words, cell: &Cell) -> Reply {
    if words.has(*cell) {
        Reply::Bits(words.load(*cell))
    } else {
        Reply::Nobody
    }
}

fn expire<K: PiKernel + Drop>(kernel: &mut K, t: u32) -> Option<Reply> {
    let t = living(kernel, t)?;
    match kernel.status(t) {
        Status::Ready(_) => None,
        Status::Queued(_) | Status::Parked(_) | Status::Stopped | Status::Ended => {
            kernel.expire(t);
            Some(Reply::Done)
        }
    }
}

// Robust lists: that of the thread has this mutex, if both have a number below 100. `None` if memory is refused.
fn lists_of(alloc: Global, t: Tid, m: MutexId) -> Option<RobustLists> {
    let mut lists = RobustLists::new(alloc, Limits::new(99, 99, 0, 1).unwrap()).ok()?;
    if t.get() < 100 && m.get() < 100 && lists.holder(m).is_none() {
        lists.link_next(t, m);
        lists.link_head(t, m);
    }
    Some(lists)
}

// A thread ends whose robust list has this mutex.
fn end<K: PiKernel + Drop>(scene: &mut Scene<K>, t: u32, m: MutexId) -> Option<Reply> {
    let t = living(&scene.kernel, t)?;
    let mut lists = lists_of(scene.alloc, t, m)?;
    scene.kernel.exit(&mut scene.words, &mut lists, t);
    Some(Reply::Done)
}

fn store(words: &mut Words, cell: &Cell, bits: u32) -> Option<Reply> {
    if !words.has(*cell) {
        return None;
    }
    words.store(*cell, bits);
    Some(Reply::Done)
}

fn done(answer: Result<(), Errno>) -> Reply {
    match answer {
        Ok(()) => Reply::Done,
        Err(errno) => Reply::Refused(errno),
    }
}

// The living thread of this number. `None` if there is none.
fn living<K: PiKernel + Drop>(kernel: &K, number: u32) -> Option<Tid>
    ensures living { IfSome result (λ t. is_living (K.meaning kernel.now) t ≡ true) }
    ensures added { IfSome result (λ t. has_seat (K.meaning kernel.now) t ≡ true) }
{
    let t = Tid::new(number)?;
    let _prio = kernel.effective(t)?;
    Some(t)
}

// The same if it may run.
fn ready<K: PiKernel + Drop>(kernel: &K, number: u32) -> Option<Tid>
    ensures added { IfSome result (λ t. has_seat (K.meaning kernel.now) t ≡ true) }
    ensures ready { IfSome result (λ t. is_ready (seat_at (K.meaning kernel.now) t).status ≡ true) }
{
    let t = living(kernel, number)?;
    match kernel.status(t) {
        Status::Ready(_) => Some(t),
        Status::Queued(_) | Status::Parked(_) | Status::Stopped | Status::Ended => None,
    }
}

// Asks all that stands in the tables of a story, and sees that each answer is the one beside it.
fn check<K: PiKernel + Drop>(rt: &impl Abort, scene: &mut Scene<K>, story: &Story) {
    for (table, steps) in story.tables.iter().enumerate() {
        for (place, (ask, reply)) in steps.iter().enumerate() {
            let is_met = answer(scene, *ask) == Some(*reply);
            assert!(rt; is_met, "{}, at place {place} of table {table}", story.name);
        }
    }
}

// Plays a story on a kernel with this first ticket. Answers the next one then.
fn play_on<C: Chains + Drop, R: Abort>(
    rt: &R,
    alloc: Global,
    story: &Story,
    first_ticket: u64,
) -> Result<u64, Fail>
    requires { 1 ≤ first_ticket }
{
    let mut scene: Scene<KernelOn<C>> = new_scene(
        alloc,
        story.levels,
        story.mutexes,
        first_ticket,
    )?;
    check(rt, &mut scene, story);
    Ok(scene.kernel.next_ticket())
}

// Does so on either kernel.
fn play<R: Abort>(rt: &R, alloc: Global, story: &Story, first_ticket: u64) -> Result<[u64; 2], Fail>
    requires { 1 ≤ first_ticket }
{
    let plain = play_on::<PlainChains, R>(rt, alloc, story, first_ticket)?;
    let linked = play_on::<LinkedChains, R>(rt, alloc, story, first_ticket)?;
    Ok([plain, linked])
}

const NOBODY_RUNS: Steps = &[(Ask::Pick, Reply::Nobody)];

const FREE_MUTEX: Steps = &[
    (Ask::Pick, Reply::Thread(1)),
    (Ask::Effective(1), Reply::Prio(10)),
    (Ask::Status(1), Reply::Ready(Woken::Fresh)),
    (Ask::Lock(1, 1), Reply::Owns),
    (Ask::Word(1), Reply::Bits(1)),
];

const STOPS: Steps = &[
    (Ask::Stop(1), Reply::Done),
    (Ask::Pick, Reply::Nobody),
    (Ask::Status(1), Reply::Stopped),
];

// lock_pi by thread 1 of three, on words that no thread wrote.
const STORED_WORDS: Steps = &[
    (Ask::Lock(1, 2), Reply::Refused(Errno::Fault)),
    (Ask::Store(1, 0x0000_0001), Reply::Done),
    (Ask::Lock(1, 1), Reply::Refused(Errno::Deadlock)),
    (Ask::Word(1), Reply::Bits(0x0000_0001)),
    (Ask::Store(1, 0x0000_03ff), Reply::Done),
    (Ask::Lock(1, 1), Reply::Refused(Errno::NoSuchThread)),
    (Ask::Word(1), Reply::Bits(0x0000_03ff)),
    (Ask::Store(1, 0x8000_0000), Reply::Done),
    (Ask::Lock(1, 1), Reply::Owns),
    (Ask::Word(1), Reply::Bits(0x0000_0001)),
    // Thread 3 queues on it, so that there is an owner state of thread 2.
    (Ask::Store(1, 0x0000_0002), Reply::Done),
    (Ask::Lock(3, 1), Reply::Queued),
    (Ask::Word(1), Reply::Bits(0x8000_0002)),
    (Ask::Store(1, 0x0000_0003), Reply::Done),
    (Ask::Lock(1, 1), Reply::Refused(Errno::Invalid)),
    (Ask::Word(1), Reply::Bits(0x0000_0003)),
    (Ask::Store(1, 0x0000_0000), Reply::Done),
    (Ask::Lock(1, 1), Reply::Refused(Errno::Invalid)),
    (Ask::Word(1), Reply::Bits(0x0000_0000)),
];

// trylock_pi and unlock_pi by thread 1 of three, on words that no thread wrote.
const ANY_WORDS: Steps = &[
    (Ask::TryLock(1, 2), Reply::Refused(Errno::Fault)),
    (Ask::Store(1, 0x0000_0001), Reply::Done),
    (Ask::TryLock(1, 1), Reply::Refused(Errno::Deadlock)),
    (Ask::Word(1), Reply::Bits(0x0000_0001)),
    (Ask::Store(1, 0x8000_0002), Reply::Done),
    (Ask::TryLock(1, 1), Reply::Refused(Errno::Again)),
    (Ask::Word(1), Reply::Bits(0x8000_0002)),
    (Ask::Store(1, 0xc000_0000), Reply::Done),
    (Ask::TryLock(1, 1), Reply::Done),
    (Ask::Word(1), Reply::Bits(0x4000_0001)),
    (Ask::Unlock(1, 2), Reply::Refused(Errno::Fault)),
    (Ask::Store(1, 0x8000_0001), Reply::Done),
    (Ask::Unlock(1, 1), Reply::Done),
    (Ask::Word(1), Reply::Bits(0x0000_0000)),
    (Ask::Store(1, 0x0000_0002), Reply::Done),
    (Ask::Unlock(1, 1), Reply::Refused(Errno::NotPermitted)),
    (Ask::Word(1), Reply::Bits(0x0000_0002)),
    // Thread 3 queues on it, so that there is an owner state of thread 2.
    (Ask::Lock(3, 1), Reply::Queued),
    (Ask::Store(1, 0x0000_0000), Reply::Done),
    (Ask::TryLock(1, 1), Reply::Refused(Errno::Invalid)),
    (Ask::Store(1, 0x0000_0001), Reply::Done),
    (Ask::Unlock(1, 1), Reply::Refused(Errno::Invalid)),
    (Ask::Word(1), Reply::Bits(0x0000_0001)),
    (Ask::Status(3), Reply::QueuedOn(1)),
];

// Thread 1 holds mutex 1, thread 2 holds mutex 2 and waits for mutex 1, and thread 3 waits for mutex 2.
const CHAIN: Steps = &[
    (Ask::Lock(1, 1), Reply::Owns),
    (Ask::Lock(2, 2), Reply::Owns),
    (Ask::Lock(2, 1), Reply::Queued),
    (Ask::Lock(3, 2), Reply::Queued),
];

const BOOSTED: Steps = &[
    (Ask::Effective(1), Reply::Prio(99)),
    (Ask::Effective(2), Reply::Prio(99)),
    (Ask::Status(3), Reply::QueuedOn(2)),
    (Ask::Pick, Reply::Thread(1)),
    (Ask::Lock(1, 2), Reply::Refused(Errno::Deadlock)),
];

const PATHS: Steps = &[
    (Ask::Path(3, 0), Reply::Thread(3)),
    (Ask::Path(3, 1), Reply::Thread(2)),
    (Ask::Path(3, 2), Reply::Thread(1)),
    (Ask::Path(3, 3), Reply::Nobody),
    (Ask::Path(2, 1), Reply::Thread(1)),
    (Ask::Path(1, 0), Reply::Thread(1)),
    (Ask::Path(1, 1), Reply::Nobody),
    (Ask::Path(4, 0), Reply::Nobody),
];

const UNLOCKED: Steps = &[
    (Ask::Unlock(1, 1), Reply::Done),
    (Ask::Effective(1), Reply::Prio(1)),
    (Ask::Status(2), Reply::Ready(Woken::Owns)),
    (Ask::Pick, Reply::Thread(2)),
];

const PRIORITY_SET: Steps = &[
    (Ask::Lock(1, 1), Reply::Owns),
    (Ask::Lock(2, 1), Reply::Queued),
    (Ask::Lock(3, 1), Reply::Queued),
    (Ask::SetPrio(2, 30), Reply::Done),
    (Ask::Effective(1), Reply::Prio(30)),
    (Ask::SetPrio(2, 20), Reply::Done),
    (Ask::Effective(1), Reply::Prio(20)),
    (Ask::Unlock(1, 1), Reply::Done),
    (Ask::Word(1), Reply::Bits(0x8000_0002)),
];

// Thread 1 holds mutex 1, for which threads 2, 3 and 4, of priorities 20, 50 and 20, wait in that order. Threads 5 and
// 6, of priorities 30 and 40, are parked on variable 1, and thread 7, of priority 50, is ready.
const WAITING: Steps = &[
    (Ask::Lock(1, 1), Reply::Owns),
    (Ask::Lock(2, 1), Reply::Queued),
    (Ask::Lock(3, 1), Reply::Queued),
    (Ask::Lock(4, 1), Reply::Queued),
    (Ask::Park(5, 1, 0, 1), Reply::Done),
    (Ask::Park(6, 1, 0, 1), Reply::Done),
];

// The greatest effective priority comes first, and equals in arrival: thread 1 joined level 50 behind thread 7.
const PLACES: Steps = &[
    (Ask::Waiter(1, 0), Reply::Thread(3)),
    (Ask::Waiter(1, 1), Reply::Thread(2)),
    (Ask::Waiter(1, 2), Reply::Thread(4)),
    (Ask::Waiter(1, 3), Reply::Nobody),
    (Ask::Waiter(2, 0), Reply::Nobody),
    (Ask::Parked(1, 0), Reply::Thread(6)),
    (Ask::Parked(1, 1), Reply::Thread(5)),
    (Ask::Parked(1, 2), Reply::Nobody),
    (Ask::Parked(2, 0), Reply::Nobody),
    (Ask::Ready(0), Reply::Thread(7)),
    (Ask::Ready(1), Reply::Thread(1)),
    (Ask::Ready(2), Reply::Nobody),
    (Ask::Base(1), Reply::Prio(10)),
];

// The word of the mutex on the list of thread 1, which ends, has the number of thread 2.
const OF_ANOTHER: Steps = &[
    (Ask::Store(1, 0x0000_0002), Reply::Done),
    (Ask::End(1, 1), Reply::Done),
    (Ask::Word(1), Reply::Bits(0x0000_0002)),
    (Ask::Effective(1), Reply::Nobody),
    (Ask::SetPrio(1, 10), Reply::Refused(Errno::NoSuchThread)),
    (Ask::Pick, Reply::Thread(2)),
];

// It has its own, and is marked.
const OF_ITS_OWN: Steps = &[
    (Ask::Store(1, 0xc000_0001), Reply::Done),
    (Ask::End(1, 1), Reply::Done),
    (Ask::Word(1), Reply::Bits(0xc000_0000)),
    (Ask::Effective(1), Reply::Nobody),
    (Ask::SetPrio(1, 10), Reply::Refused(Errno::NoSuchThread)),
    (Ask::Pick, Reply::Thread(2)),
];

// Thread 1 ends as the owner of mutex 1, for which threads 2 and 3 wait.
const OWNED: Steps = &[
    (Ask::Lock(1, 1), Reply::Owns),
    (Ask::Lock(2, 1), Reply::Queued),
    (Ask::Lock(3, 1), Reply::Queued),
    (Ask::End(1, 1), Reply::Done),
    (Ask::Word(1), Reply::Bits(0xc000_0003)),
    (Ask::Status(3), Reply::Ready(Woken::Owns)),
    (Ask::Status(2), Reply::QueuedOn(1)),
    (Ask::Pick, Reply::Thread(3)),
];

static STORIES: [Story; 13] = [
    Story {
        name: "kernel_on_stored_words",
        levels: &[10, 10, 10],
        mutexes: 1,
        tables: &[STORED_WORDS],
    },
    Story {
        name: "kernel_refusals_on_any_words",
        levels: &[10, 10, 10],
        mutexes: 1,
        tables: &[ANY_WORDS],
    },
    Story {
        name: "exit_leaves_words_of_others",
        levels: &[20, 10],
        mutexes: 1,
        tables: &[OF_ANOTHER],
    },
    Story {
        name: "exit_marks_a_word_of_its_own",
        levels: &[20, 10],
        mutexes: 1,
        tables: &[OF_ITS_OWN],
    },
    Story {
        name: "nobody_runs_in_a_new_kernel",
        levels: &[],
        mutexes: 1,
        tables: &[NOBODY_RUNS],
    },
    Story {
        name: "a_thread_takes_a_free_mutex",
        levels: &[10],
        mutexes: 1,
        tables: &[FREE_MUTEX],
    },
    Story {
        name: "a_thread_that_stops_is_not_picked",
        levels: &[10],
        mutexes: 1,
        tables: &[STOPS],
    },
    Story {
        name: "boosts_go_through_a_chain",
        levels: &[1, 2, 99],
        mutexes: 2,
        tables: &[CHAIN, BOOSTED],
    },
    Story {
        name: "paths_go_up_a_chain",
        levels: &[1, 2, 99],
        mutexes: 2,
        tables: &[CHAIN, PATHS],
    },
    Story {
        name: "who_unlocks_loses_the_boost",
        levels: &[1, 2, 99],
        mutexes: 2,
        tables: &[CHAIN, UNLOCKED],
    },
    Story {
        name: "priority_is_set_and_places_stay",
        levels: &[10, 20, 20],
        mutexes: 1,
        tables: &[PRIORITY_SET],
    },
    Story {
        name: "places_are_read_in_order",
        levels: &[10, 20, 50, 20, 30, 40, 50],
        mutexes: 1,
        tables: &[WAITING, PLACES],
    },
    Story {
        name: "exit_hands_over_to_the_next_waiter",
        levels: &[10, 10, 20],
        mutexes: 1,
        tables: &[OWNED],
    },
];

#[test]
fn kernels_answer_each_call(rt: HostRuntime) -> Result<(), Fail> {
    let tables: [&[Story]; 4] = [
        &STORIES,
        &conditions::STORIES,
        &expiries::STORIES,
        &parked::STORIES,
    ];
    for stories in tables {
        for story in stories {
            play(&rt, rt.alloc(), story, 1)?;
        }
    }
    Ok(())
}
