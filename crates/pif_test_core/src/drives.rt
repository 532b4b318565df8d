//! Drives: what their clients do at a desk, each in a thread of its own, and that one without memory ends.
use arrayvec::ArrayVec;
use pif_desk::{Book, Desk, DeskFault, Entry, Event, NoPause, Pause, Seen};
use pif_job_drive::{DriveFault, Ending, drive_book, end_of};
use pif_job_run::write_trace;
use pif_types::{Kind, Limits, Request, Tid};
use std::process::Abort;
use std::sync::Wait;
use std::sync::atomic::{AtomicU32, Ordering};
use std::test::Fail;
use std::thread;
use std::time::Duration;

/// How often a held client looks whether it may go on, a millisecond each time.
const TURNS: u32 = 10_000;

/// The header and the additions of a trace.
type Begun = ArrayVec<u8, 256>;

/// What a drive of two clients adds, with its limits.
const BEGUN: &str = "pif-trace 2\n\
     limits 2 1 0 1 = ok\n\
     mutex errorcheck robust = m1\n\
     thread 1 = t1\n\
     thread 2 = t2\n";

/// Counts the events of client 1, those of the other, and the calls of the other that were answered. Holds each client
/// once its first call has begun: client 1 until a call of the other was answered, and the other until client 1 has
/// begun.
#[derive(Drop)]
struct Overlap {
    rt: HostRuntime,
    one: AtomicU32,
    other: AtomicU32,
    answered: AtomicU32,
}

impl Overlap {
    /// Waits until something was counted.
    fn hold(&self, count: &AtomicU32) {
        for _ in 0..TURNS {
            if count.load(Ordering::SeqCst) > 0 {
                break;
            }
            let _ = thread::sleep(&self.rt, Duration::from_millis(1));
        }
    }
}

impl Pause for Overlap {
    fn after(&self, t: Tid, seen: Seen) {
        if t.get() == 1 {
            if self.one.fetch_add(1, Ordering::SeqCst) == 0 {
                self.hold(&self.answered);
            }
            return;
        }
        if self.other.fetch_add(1, Ordering::SeqCst) == 0 {
            self.hold(&self.one);
        }
        if let Seen::Answered(_) = seen {
            self.answered.fetch_add(1, Ordering::SeqCst);
        }
    }
}

/// Whether no client has ended, and client 1 began a call, then one of the other client was answered, and only then
/// client 1 took a step.
fn overlaps(entries: &[Entry]) -> bool {
    let mut begun = false;
    let mut answered = false;
    let mut overlap = None;
    for entry in entries {
        match entry {
            Entry::Step(Event::Begin(t, _), _) if t.get() == 1 => begun = true,
            Entry::Step(Event::Go(t), _) if t.get() == 1 && overlap.is_none() => {
                overlap = Some(answered);
            }
            Entry::Step(Event::Go(_), Seen::Answered(_)) => answered = begun,
            Entry::Step(Event::End(_), _) => return false,
            _ => {}
        }
    }
    overlap == Some(true)
}

/// A book of two clients whose calls overlap and that have not ended. Its trace begins with its limits, the mutex, and
/// threads of the priorities 1 and 2.
fn check_book(rt: &impl Abort, book: &Book) {
    let mut trace = Begun::new();
    let entries = book.entries.as_slice();
    let added = entries.get(..3).expect(rt, "too few entries");
    let written = write_trace(book.limits, added, &mut trace).is_ok();
    assert!(rt;
        written && trace.as_slice() == BEGUN.as_bytes(),
        "it begins otherwise"
    );
    assert!(rt;
        overlaps(entries),
        "the calls do not overlap, or a client has ended"
    );
}

#[test]
fn drive_makes_the_mutex_clients_and_calls_of_its_help(rt: HostRuntime) {
    let pause = Overlap {
        rt,
        one: AtomicU32::new(0),
        other: AtomicU32::new(0),
        answered: AtomicU32::new(0),
    };
    match drive_book(rt.alloc(), &rt, 2, pause) {
        Ok(book) => check_book(&rt, &book),
        Err(fault) => panic!(&rt; "no book: {fault:?}"),
    }
}

/// A client that holds the mutex is out of memory, and ends. The next that tries to lock it is told so.
fn leave_with_mutex<R: Wait + Abort>(rt: &R, desk: &Desk<NoPause>) -> Result<(), DeskFault> {
    let mutex = desk.make_mutex(rt, Kind::ErrorCheck, true)?;
    let mut one = desk.enter(rt, 1)?;
    one.call(rt, desk, Request::Lock(mutex))?;
    let ended = end_of(rt, desk, mutex, one, Err(DeskFault::NoMemory));
    assert!(rt; matches!(ended, Ending::Fault(DriveFault::NoMemory)));
    let receipt = desk.enter(rt, 2)?.call(rt, desk, Request::TryLock(mutex))?;
    assert!(rt; receipt.answer == 130);
    Ok(())
}

#[test]
fn client_out_of_memory_ends(rt: HostRuntime) -> Result<(), Fail> {
    let desk = Desk::new(rt.alloc(), Limits::new(2, 1, 0, 1).unwrap(), NoPause)?;
    assert!(&rt; leave_with_mutex(&rt, &desk) == Ok(()));
    Ok(())
}
