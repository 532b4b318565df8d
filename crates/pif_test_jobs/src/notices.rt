//! What a notice keeps of a script that is run, a trace that is replayed or migrated, and a story that is checked, filled
//! in, traced or shown.

use crate::streams::Stream;
use pif_job_check::{check_noting, check_strictly, fill_as_one_of_several, fill_noting};
use pif_job_replay::{migrate_noting, replay_noting};
use pif_job_run::{show_noting, trace_noting, trace_story};
use pif_script::{CliFault, Notice};
use pif_script_core::run_noting;
use pif_script_model::Detail;
use std::alloc::Global;
use std::io::ErrorKind;
use std::process::Abort;

/// What is done with a text.
#[derive(Clone, Copy)]
enum Noting {
    /// It is kept as a command.
    Keep,
    Run,
    Replay,
    Migrate,
    Check,
    Strict,
    Fill,
    FillSeveral,
    Trace,
    TraceScript,
    Show,
}

/// Does it with a text. Behind 64 bytes a read fails. What is written of notes is none of a notice.
fn note(noting: Noting, alloc: Global, text: &str, notice: &mut Notice) -> Result<(), CliFault> {
    let parts = [(text, 1)];
    let mut input = Stream::failing(&parts, 64, Some(ErrorKind::TimedOut));
    let mut output = Stream::new(&[]);
    let (reader, writer) = (&mut input, &mut output);
    match noting {
        Noting::Keep => {
            notice.keep_command(text.as_bytes());
            Ok(())
        }
        Noting::Run => run_noting(alloc, reader, writer, notice),
        Noting::Replay => replay_noting(alloc, reader, writer, notice),
        Noting::Migrate => migrate_noting(alloc, reader, writer, notice),
        Noting::TraceScript => trace_noting(alloc, reader, writer, notice),
        Noting::Strict => check_strictly(alloc, b"story", reader, writer, notice),
        Noting::Fill => fill_noting(alloc, b"story", reader, writer, notice),
        Noting::FillSeveral => fill_as_one_of_several(alloc, b"story", reader, writer, notice),
        Noting::Trace => trace_story(alloc, reader, writer, notice),
        Noting::Show => {
            let changes = Detail::Changes;
            show_noting(changes, alloc, reader, writer, notice).and(Ok(()))
        }
        Noting::Check => check_noting(alloc, b"story", reader, writer, notice).and(Ok(())),
    }
}

/// What is done first: it stays if nothing is kept.
const BEFORE: (Noting, &str) = (Noting::Keep, "before");

/// A trace that differs in its second line.
const DIFFERENCE: (Noting, &str) = (Noting::Replay, "pif-trace 1\nthread 10 = t2\n");

const SAME: &str = "pif-trace 1\nthread 10 = t1\n";

const OTHER: &str = "pif-trace 1\nthread 10 = t2\n";

const QUESTION: &str = "pif-trace 1\nthread 10 = t1\npick\n";

/// A script of 64 bytes, with nothing wrong in a whole line. Behind it a read fails.
const LONG: &str = "tick 4294967295\ntick 4294967295\ntick 4294967295\nthread 10 thread";

const FAULTY: &str = "thread 10\npik\n";

const OTHER_ANSWER: &str = "thread 10 = t7\npick\n";

const REFUSED: &str = "thread 0\npick\n";

/// The first flaw is a difference, and the second a fault.
const FAULTY_BEHIND: &str = "thread 10 = t7\npik\n";

/// The first flaw of a strict check is a refusal, and the second a difference.
const OTHER_BEHIND: &str = "thread 0\npick = t1\n";

/// What is done first, if anything is, and then; the line that the notice has behind it, and what the core gives there.
type NoticeCase = (
    Option<(Noting, &'static str)>,
    Noting,
    &'static str,
    &'static str,
    &'static str,
);

static ROWS: [NoticeCase; 32] = [
    (None, Noting::Run, "pick\n", "", ""),
    (None, Noting::Run, LONG, "", ""),
    (Some(DIFFERENCE), Noting::Keep, "xx", "xx", ""),
    (Some(DIFFERENCE), Noting::Run, "xxx\n", "xxx", ""),
    (
        Some(DIFFERENCE),
        Noting::Replay,
        OTHER,
        "thread 10 = t2",
        "t1",
    ),
    (Some(BEFORE), Noting::Run, "pick\n", "before", ""),
    (Some(BEFORE), Noting::Run, LONG, "before", ""),
    (Some(BEFORE), Noting::Replay, SAME, "before", ""),
    (Some(BEFORE), Noting::Replay, OTHER, "thread 10 = t2", "t1"),
    (Some(BEFORE), Noting::Migrate, SAME, "before", ""),
    (Some(BEFORE), Noting::Migrate, OTHER, "before", ""),
    (Some(BEFORE), Noting::Migrate, QUESTION, "pick", ""),
    (Some(BEFORE), Noting::Check, FAULTY, "pik", ""),
    (Some(BEFORE), Noting::Strict, FAULTY, "pik", ""),
    (Some(BEFORE), Noting::Fill, FAULTY, "pik", ""),
    (Some(BEFORE), Noting::FillSeveral, FAULTY, "pik", ""),
    (Some(BEFORE), Noting::Trace, FAULTY, "pik", ""),
    (Some(BEFORE), Noting::TraceScript, FAULTY, "pik", ""),
    (Some(BEFORE), Noting::Show, FAULTY, "pik", ""),
    (Some(BEFORE), Noting::Check, OTHER_ANSWER, "before", ""),
    (Some(BEFORE), Noting::Strict, OTHER_ANSWER, "before", ""),
    (Some(BEFORE), Noting::Fill, OTHER_ANSWER, "before", ""),
    (
        Some(BEFORE),
        Noting::FillSeveral,
        OTHER_ANSWER,
        "before",
        "",
    ),
    (Some(BEFORE), Noting::Trace, OTHER_ANSWER, "before", ""),
    (Some(BEFORE), Noting::Show, OTHER_ANSWER, "before", ""),
    (Some(BEFORE), Noting::TraceScript, REFUSED, "before", ""),
    (Some(BEFORE), Noting::Check, REFUSED, "before", ""),
    (Some(BEFORE), Noting::Strict, REFUSED, "thread 0", ""),
    (Some(BEFORE), Noting::Fill, REFUSED, "before", ""),
    (Some(BEFORE), Noting::Show, REFUSED, "before", ""),
    (Some(BEFORE), Noting::Check, FAULTY_BEHIND, "before", ""),
    (Some(BEFORE), Noting::Strict, OTHER_BEHIND, "thread 0", ""),
];

/// Checks what the notice has.
fn check_kept(rt: &impl Abort, alloc: Global, row: usize, asked: &NoticeCase) {
    let (before, noting, text, line, given) = *asked;
    let mut notice = Notice::new();
    if let Some((noting, text)) = before {
        let _ended = note(noting, alloc, text, &mut notice);
    }
    let ended = note(noting, alloc, text, &mut notice);
    let is_kept = notice.line() == line.as_bytes() && notice.given() == given.as_bytes();
    assert!(rt; is_kept, "row {row}: {ended:?}");
}

#[test]
fn a_notice_keeps_what_is_wrong(rt: HostRuntime) {
    for (row, asked) in ROWS.iter().enumerate() {
        check_kept(&rt, rt.alloc(), row, asked);
    }
}

/// A line that is kept, and what stands before and behind its first ` = `, if it has one.
type Cut = (&'static [u8], Option<(&'static [u8], &'static [u8])>);

static CUTS: [Cut; 6] = [
    (b"thread 10 = t1 = t2", Some((b"thread 10", b"t1 = t2"))),
    (b"thread 10 = ", Some((b"thread 10", b""))),
    (b" = t1", Some((b"", b"t1"))),
    (b"thread 10 =t1", None),
    (b"thread 10= t1", None),
    (b"thread 10 =", None),
];

#[test]
fn a_kept_line_is_cut_at_its_first_mark(rt: HostRuntime) {
    for (line, parts) in &CUTS {
        let mut notice = Notice::new();
        notice.keep_command(line);
        assert!(rt; notice.parts() == *parts, "{line:?}");
    }
}

/// A command of 130 bytes.
static COMMAND: &[u8] =
    b"0123456789 123456789 123456789 123456789 123456789 123456789 123456789 123456789 123456789 123456789 123456789 123456789 123456789";

#[test]
fn a_notice_keeps_120_bytes_of_a_command(rt: HostRuntime) {
    for length in [0, 119, 120, 121, 130] {
        let mut notice = Notice::new();
        let command = &COMMAND[..COMMAND.len().min(length)];
        notice.keep_command(command);
        let kept = &command[..command.len().min(120)];
        assert!(rt;
            notice.line() == kept && notice.parts().is_none(),
            "{length} bytes"
        );
    }
}
