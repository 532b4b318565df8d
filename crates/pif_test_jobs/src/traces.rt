//! Traces of scripts that are read from a stream, and traces that are read from one.

use crate::streams::Stream;
use pif_job_replay::{migrate, replay};
use pif_job_run::trace_noting;
use pif_script::{CliFault, Notice};
use pif_text::Cause;
use std::alloc::Global;
use std::io::ErrorKind;
use std::process::Abort;

/// Each command once, additions and events that are refused, and each question.
const SCRIPT: &str =
    "limits 2 1 1 1\nthread 100\nthread 10\nthread 20\nthread 30\nmutex errorcheck robust\nmutex normal\n\
    cond m2\ncond m1\ncond m1\nword m1\nhealth m1\ncondword c1\nprio t1\npick\n\
    begin t1 lock m1\ngo t1\nbegin t1 lock m1\nfinish t1\ncall t2 trylock m1\ncall t2 lock m2\nfinish t2\n\
    end t2\ngo t2\n";

/// The trace of that script: of a robust lock the way is load, set_pending, take, and then load, health, link_next,
/// link_head and clear_pending; of a refused trylock load, set_pending, take, the kernel's call and clear_pending.
const TRACE: &str =
    "pif-trace 2\nlimits 2 1 1 1 = ok\nthread 10 = t1\nthread 20 = t2\nmutex errorcheck robust = m1\ncond m1 = c1\n\
    begin t1 lock m1 = begun\ngo t1 = went\nbegin t1 lock m1 = refused busy\ngo t1 = went\ngo t1 = went\n\
    go t1 = went\ngo t1 = went\ngo t1 = went\ngo t1 = answer 0\n\
    begin t2 trylock m1 = begun\ngo t2 = went\ngo t2 = went\ngo t2 = went\ngo t2 = went\ngo t2 = answer 16\n\
    begin t2 lock m2 = refused nosuch\ngo t2 = refused idle\nend t2 = ended\ngo t2 = refused dead\n";

/// The trace of a first thread.
const THREAD: &str = "pif-trace 2\nlimits 1024 1024 256 4294967295 = ok\nthread 10 = t1\n";

/// What stands behind a read that fails.
const MORE: &str = "d 20\n";

/// How a read fails: `Interrupted`, at which readers of std try again, is like the others.
const INTERRUPTED: Option<ErrorKind> = Some(ErrorKind::Interrupted);

const BLOCKED: Option<ErrorKind> = Some(ErrorKind::WouldBlock);

const EARLY: Option<ErrorKind> = Some(ErrorKind::UnexpectedEof);

const READ: Result<(), CliFault> = Err(CliFault::Read);

/// What is read of a script, how the next read fails once if it does, what stands behind that, how many bytes a writer
/// takes before it fails, what is written, and how that ends.
type TraceCase = (
    &'static str,
    Option<ErrorKind>,
    &'static str,
    usize,
    &'static str,
    Result<(), CliFault>,
);

static ROWS: [TraceCase; 20] = [
    ("", None, "", 4096, "", Ok(())),
    (
        "pik\n",
        None,
        "",
        4096,
        "",
        Err(CliFault::Script(1, Cause::Command)),
    ),
    (
        "limits 0 1 1 1\n",
        None,
        "",
        4096,
        "",
        Err(CliFault::Script(1, Cause::Limits)),
    ),
    (
        "thread 10",
        None,
        "",
        4096,
        "",
        Err(CliFault::Script(1, Cause::Cut)),
    ),
    (
        "limits 1 0 0 1\n",
        None,
        "",
        4096,
        "pif-trace 2\nlimits 1 0 0 1 = ok\n",
        Ok(()),
    ),
    (SCRIPT, None, "", 4096, TRACE, Ok(())),
    (SCRIPT, None, "", 40, TRACE, Err(CliFault::Write)),
    (
        "limits 1 1 1 1\nthread 10\nthr",
        Some(ErrorKind::TimedOut),
        "",
        4096,
        "pif-trace 2\nlimits 1 1 1 1 = ok\nthread 10 = t1\n",
        READ,
    ),
    ("", INTERRUPTED, MORE, 4096, "", READ),
    ("", BLOCKED, MORE, 4096, "", READ),
    ("", EARLY, MORE, 4096, "", READ),
    ("threa", INTERRUPTED, MORE, 4096, "", READ),
    ("threa", BLOCKED, MORE, 4096, "", READ),
    ("threa", EARLY, MORE, 4096, "", READ),
    ("thread 10\n", INTERRUPTED, MORE, 4096, THREAD, READ),
    ("thread 10\n", BLOCKED, MORE, 4096, THREAD, READ),
    ("thread 10\n", EARLY, MORE, 4096, THREAD, READ),
    ("thread 10\npi", INTERRUPTED, MORE, 4096, THREAD, READ),
    ("thread 10\npi", BLOCKED, MORE, 4096, THREAD, READ),
    ("thread 10\npi", EARLY, MORE, 4096, THREAD, READ),
];

/// A script is traced so, by writes of so many bytes at most.
fn check_traced(rt: &impl Abort, alloc: Global, row: usize, asked: &TraceCase, each: usize) {
    let (first, failure, second, room, written, wanted) = *asked;
    let (script, texts) = ([(first, 1), (second, 1)], [(written, 1)]);
    let most = if failure.is_some() {
        first.len()
    } else {
        usize::MAX
    };
    let mut input = Stream::failing(&script, most, failure);
    let mut output = Stream::failing(&texts, room, Some(ErrorKind::BrokenPipe));
    output.pace(each, 0, each);
    let ended = trace_noting(alloc, &mut input, &mut output, &mut Notice::new());
    assert!(rt;
        ended == wanted && output.is_met(),
        "row {row} by {each}: {ended:?}"
    );
}

#[test]
fn failing_reader_and_writer_of_a_trace(rt: HostRuntime) {
    for (row, asked) in ROWS.iter().enumerate() {
        check_traced(&rt, rt.alloc(), row, asked, 4096);
        check_traced(&rt, rt.alloc(), row, asked, 1);
    }
}

/// What is read of a trace before a read fails as if the input had ended, and whether the trace is migrated or replayed. A
/// replay ends with the first line that is no trace's.
static BEGINNINGS: [(&str, bool); 9] = [
    ("", false),
    ("pif-trace 1\n", false),
    ("pif-trace 1\nthread 10 = t1\ngo", false),
    ("pif-trace 1\nthread 10 = t1\nthr", false),
    ("", true),
    ("pif-trace 1\n", true),
    ("pif-trace 1\nthread 10 = t1\ngo", true),
    ("pif-trace 1\nthread 10 = t1\nthr", true),
    ("pif-trace 3\n", true),
];

/// How a replay or a migration ends whose input fails so, with more behind that.
fn end_early(
    alloc: Global,
    beginning: &str,
    is_migrated: bool,
    output: &mut Stream<'_>,
) -> Result<(), CliFault> {
    let parts = [(beginning, 1), (" t1 = refused idle\n", 1)];
    let mut input = Stream::failing(&parts, beginning.len(), EARLY);
    if is_migrated {
        migrate(alloc, &mut input, output)
    } else {
        replay(alloc, &mut input, output)
    }
}

/// Such a trace is refused, and nothing is written.
fn check_early(rt: &impl Abort, alloc: Global, beginning: &str, is_migrated: bool) {
    let mut output = Stream::new(&[]);
    let ended = end_early(alloc, beginning, is_migrated, &mut output);
    assert!(rt; ended == READ && output.is_met(), "{beginning}: {ended:?}");
}

#[test]
fn input_that_fails_as_if_it_had_ended_is_no_trace(rt: HostRuntime) {
    for row in &BEGINNINGS {
        let (beginning, is_migrated) = *row;
        check_early(&rt, rt.alloc(), beginning, is_migrated);
    }
}
