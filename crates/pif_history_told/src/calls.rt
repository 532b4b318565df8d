ghost use Rattle.std.specs.Prelude.{◌≡◌, ◌+◌, ◌≤◌, ◌++◌, bytes_eq};
ghost use Rattle.arrayvec.specs.ArrayVec.{array_vec_len};
ghost use Rattle.pif_posix.specs.Shapes.{call_of, progress_of};
ghost use Rattle.pif_history_told.specs.StateObjects.{call_members, members, progress_words};

use pif_history_model::Line;
use pif_history_text::line_text;
use pif_posix::{Call, Progress};
use pif_text::{TEXT_ROOM, Text, append, append_number};
use pif_types::{Request, Tid};

/// Appends how far an open call has come.
fn append_progress(progress: Progress, out: &mut Text)
    requires { array_vec_len out.old + 30 ≤ TEXT_ROOM }
    ensures items { out.new.items ≡ out.old.items ++ progress_words (progress_of progress) }
    ensures len { array_vec_len out.new ≤ array_vec_len out.old + 30 }
{
    match progress {
        Progress::Fresh => append(out, b"fresh"),
        Progress::Waiting => append(out, b"waiting"),
        Progress::Stuck => append(out, b"waiting for good"),
        Progress::Leaving => append(out, b"leaving"),
        Progress::Has(answer) => {
            append(out, b"answer ");
            append_number(out, answer);
        }
        Progress::Checked => append(out, b"checked"),
        Progress::Enlisted(true) => append(out, b"enlisted"),
        Progress::Enlisted(false) => append(out, b"enlisted and unblocked"),
        Progress::Blocked(false) => append(out, b"blocked"),
        Progress::Blocked(true) => append(out, b"blocked and told"),
        Progress::Reacquiring => append(out, b"reacquiring"),
        Progress::Used => append(out, b"used"),
    }
}

/// An open call of a thread as members.
fn members(thread: Tid, request: Request, progress: Progress) -> Text
    ensures { result.items ≡ members thread request (progress_of progress) }
{
    let mut text = Text::new();
    append(&mut text, b",\"call\":\"");
    line_text(Line::Begin(thread, request), &mut text);
    append(&mut text, b"\",\"progress\":\"");
    append_progress(progress, &mut text);
    append(&mut text, b"\"");
    text
}

/// The open call of a thread as members, if there is one.
pub fn call_members(thread: Tid, call: Option<Call>) -> Text
    ensures { result.items ≡ call_members thread (call_of call) }
{
    match call {
        Some(call) => members(thread, call.request, call.progress),
        None => Text::new(),
    }
}

/// Whether two open calls of a thread are told alike.
pub fn is_same_call(thread: Tid, before: Option<Call>, after: Option<Call>) -> bool
    ensures { result ≡ bytes_eq (call_members thread (call_of before)) (call_members thread (call_of after)) }
{
    let first = call_members(thread, before);
    let second = call_members(thread, after);
    first.as_slice() == second.as_slice()
}
