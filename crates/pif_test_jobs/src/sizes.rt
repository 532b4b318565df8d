//! Scripts and traces that are too large, at each byte of a line, of a read and around the end of a chunk; and the
//! longest chain that a core can have.

use crate::streams::{Part, Stream};
use pif_job_replay::migrate;
use pif_script::CliFault;
use pif_script_core::run;
use pif_text::Cause;
use std::alloc::{AllocError, Global};
use std::process::Abort;
use std::test::Fail;

/// A first line and what it is answered, a line that stands over and over behind it and what that is answered, how often
/// before the script is too large, and the fault.
type Size = (
    &'static str,
    &'static str,
    &'static str,
    &'static str,
    usize,
    &'static str,
);

/// How many bytes a read gives from 4,096 bytes before the limit of 16,777,216 bytes on.
const BY_TWO: &[usize] = &[1, 4096];

/// The byte that is one too many is the second, the last and the fourth of a read of 7, 241 and 4,093 bytes. It ends a
/// line, or begins one.
const BY_FIVE: &[usize] = &[1, 4096, 7, 241, 4093];

/// The limit falls on each of the five bytes of a line in turn.
static LINES: [(Size, &[usize]); 5] = [
    (
        (
            "pick\n",
            "none\n",
            "pick\n",
            "none\n",
            3_355_442,
            "fault 3355444 size\n",
        ),
        BY_TWO,
    ),
    (
        (
            "go t1\n",
            "refused nosuch\n",
            "pick\n",
            "none\n",
            3_355_442,
            "fault 3355444 size\n",
        ),
        BY_FIVE,
    ),
    (
        (
            "go t12\n",
            "refused nosuch\n",
            "pick\n",
            "none\n",
            3_355_441,
            "fault 3355443 size\n",
        ),
        BY_FIVE,
    ),
    (
        (
            "prio t1\n",
            "refused nosuch\n",
            "pick\n",
            "none\n",
            3_355_441,
            "fault 3355443 size\n",
        ),
        BY_TWO,
    ),
    (
        (
            "prio t12\n",
            "refused nosuch\n",
            "pick\n",
            "none\n",
            3_355_441,
            "fault 3355443 size\n",
        ),
        BY_TWO,
    ),
];

/// Has a script run whose reads give at most `early` bytes up to the byte `turn`, and at most `late` behind it. Checks
/// that it is too large, and answers how much of it was read.
fn read_of(
    rt: &impl Abort,
    alloc: Global,
    size: &Size,
    early: usize,
    turn: usize,
    late: usize,
) -> usize {
    let (first, first_answer, line, answer, count, fault) = *size;
    let script = [(first, 1), (line, 4_000_000)];
    let answers = [(first_answer, 1), (answer, count), (fault, 1)];
    let number = (count as u64).saturating_add(2);
    let mut input = Stream::new(&script);
    let mut output = Stream::new(&answers);
    input.pace(early, turn, late);
    let ended = run(alloc, &mut input, &mut output);
    let is_fault = ended == Err(CliFault::Script(number, Cause::Size));
    assert!(rt;
        is_fault && output.is_met(),
        "{first:?} by {early} and {late}: {ended:?}"
    );
    input.done
}

/// Before that a read gives as many bytes as are asked for.
#[test]
fn a_script_is_too_large_at_any_byte_of_a_line(rt: HostRuntime) {
    for (size, reads) in &LINES {
        for each in *reads {
            read_of(&rt, rt.alloc(), size, usize::MAX, 16_773_120, *each);
        }
    }
}

/// A line that each script refuses, of 62 bytes.
const REFUSED: &str = "call t4294967295 timedwait c4294967295 m4294967295 4294967295\n";

/// What is answered to it.
const NOSUCH: &str = "refused nosuch\n";

/// A script in which the first byte too many stands in such a line, and how many bytes its first read gives.
static CHUNKS: [(Size, &[usize]); 3] = [
    // Five bytes before the end of a line, in a chunk or behind it.
    (
        (
            "limits 1 0 0 10000000\n",
            "ok\n",
            REFUSED,
            NOSUCH,
            270_599,
            "fault 270601 size\n",
        ),
        &[1, 2, 3, 4, 5, 6, 7, 8, 9, 10, 11, 12, 4085, 4095, 4096],
    ),
    // The last byte of a line.
    (
        (
            "limits 1 0 0 100\n",
            "ok\n",
            REFUSED,
            NOSUCH,
            270_599,
            "fault 270601 size\n",
        ),
        &[1, 2, 12, 4085, 4095, 4096],
    ),
    // The first byte of a line.
    (
        (
            "limits 1 0 0 10\n",
            "ok\n",
            REFUSED,
            NOSUCH,
            270_600,
            "fault 270602 size\n",
        ),
        &[1, 2, 12],
    ),
];

/// The first byte behind the limit is each of the last twelve of a chunk, the first, the second and the twelfth of one.
/// No more is read than the chunk that has it. Behind the first read, each gives as many bytes as are asked for.
#[test]
fn a_script_is_too_large_wherever_a_chunk_ends(rt: HostRuntime) {
    for (size, starts) in &CHUNKS {
        for start in *starts {
            let read = read_of(&rt, rt.alloc(), size, *start, 1, usize::MAX);
            assert!(rt;
                read == start.saturating_add(16_777_216),
                "{start} bytes first"
            );
        }
    }
}

/// What stands behind the header of a trace of 16,777,216 bytes, in 1,048,576 lines.
const FRONT: &str = "thread 10 = t123456\n";

const LINE: &str = "thread 10 = t12\n";

/// The parts of a trace, what is written of it, and how that ends.
type Migration = (
    &'static [Part<'static>],
    &'static [Part<'static>],
    Result<(), CliFault>,
);

/// A trace of so many bytes, and one of a byte more.
static MIGRATIONS: [Migration; 2] = [
    (
        &[("pif-trace 1\n", 1), (FRONT, 1), (LINE, 1_048_574)],
        &[("pif-trace 2\n", 1), (FRONT, 1), (LINE, 1_048_574)],
        Ok(()),
    ),
    (
        &[
            ("pif-trace 1\n", 1),
            (FRONT, 1),
            (LINE, 1_048_574),
            ("t", 1),
        ],
        &[("fault 1048577 size\n", 1)],
        Err(CliFault::Script(1_048_577, Cause::Size)),
    ),
];

#[test]
fn migration_faults_by_its_size(rt: HostRuntime) {
    for (trace, written, wanted) in &MIGRATIONS {
        let mut output = Stream::new(written);
        let ended = migrate(rt.alloc(), &mut Stream::new(trace), &mut output);
        assert!(rt; ended == *wanted && output.is_met(), "{ended:?}");
    }
}

const THREADS: u32 = 1024;

/// The first thread locks the first mutex.
const FIRST: &str = "thread 1\nmutex normal\ncall t1 lock m1\n";

const FIRST_ANSWERS: &str = "t1\nm1\nanswer 0\n";

const QUESTIONS: &str = "prio t1\npick\ncall t1 lock m1024\nword m1\nword m1023\nword m1024\n";

const ANSWERS: &str = "99\nt1\nanswer 35\n0x80000001\n0x800003ff\n0x00000400\n";

/// Appends lines, if there was memory for them.
fn append(text: &mut String, lines: Result<String, AllocError>) -> Result<(), AllocError> {
    text.push_str(lines?.as_str())
}

/// Each thread but the first locks the mutex of its number, and then waits for the one before. The last one has priority
/// 99, all others 1.
fn wait_each(alloc: Global, script: &mut String, answers: &mut String) -> Result<(), AllocError> {
    for before in 1..THREADS {
        let number = before + 1;
        let level = if number == THREADS { 99 } else { 1 };
        let lines = format!(in alloc;
            "thread {level}\nmutex normal\ncall t{number} lock m{number}\ncall t{number} lock m{before}\n"
        );
        append(script, lines)?;
        append(
            answers,
            format!(in alloc; "t{number}\nm{number}\nanswer 0\nwaits\n"),
        )?;
    }
    Ok(())
}

/// A script between the first lines and the questions is answered this.
fn check_run(rt: &impl Abort, alloc: Global, script: &str, answers: &str) {
    let script = [(FIRST, 1), (script, 1), (QUESTIONS, 1)];
    let answers = [(FIRST_ANSWERS, 1), (answers, 1), (ANSWERS, 1)];
    let mut output = Stream::new(&answers);
    let ended = run(alloc, &mut Stream::new(&script), &mut output);
    assert!(rt; ended == Ok(()) && output.is_met(), "{ended:?}");
}

#[test]
fn chain_of_1024(rt: HostRuntime) -> Result<(), Fail> {
    let mut script = String::new(rt.alloc());
    let mut answers = String::new(rt.alloc());
    wait_each(rt.alloc(), &mut script, &mut answers)?;
    check_run(&rt, rt.alloc(), script.as_str(), answers.as_str());
    Ok(())
}
