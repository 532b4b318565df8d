ghost use Rattle.std.specs.Prelude.{◌≡◌, ◌+◌, ◌≤◌, ◌++◌, length};
ghost use Rattle.arrayvec.specs.ArrayVec.{array_vec_len};
ghost use Rattle.pif_model.specs.Posix.{named_by, variable_of};
ghost use Rattle.pif_posix.specs.Shapes.{progress_of};
ghost use Rattle.pif_text_model.specs.Replies.{mutex_name, cond_name};
ghost use Rattle.pif_history_text.specs.Deeds.{blocked_deed, deed_line, deed_words, hold_deed, other_deed, owing_deed, own_deed, plain_deed, result_deed, rule_front};

use pif_posix::{Progress, named_by, variable_of};
use pif_rules::{Rule, name_of};
use pif_text::{TEXT_ROOM, Text, append, append_number};
use pif_types::Request;

/// What happens to a thread at a move that no line shows.
#[derive(Clone, Copy)]
pub enum Deed {
    /// It takes the mutex, which nobody owned.
    Takes,
    /// It takes the mutex from this thread.
    TakesFrom(u32),
    /// It is handed the mutex for which it waited.
    IsHanded,
    /// It joins the waiters of the mutex.
    WaitsFor,
    /// It waits for the mutex, and nothing but time ends that.
    WaitsForGood,
    /// It gives the mutex up.
    Frees,
    /// The mutex that it gives up next is unusable from now on.
    SpoilsIt,
    /// It owns the mutex with which it waits, and holds it once.
    Checks,
    /// It joins the threads that are blocked on the variable.
    IsBlocked,
    /// It is blocked, and was told to wait.
    GoesOnWaiting,
    /// It is no more blocked.
    IsUnblocked,
    /// It ran out of time.
    TimesOut,
    /// Its signal or broadcast counts.
    Uses,
    /// It gives up one of several holds of the mutex with which it is about to wait.
    GivesHold,
    /// It takes one of these holds again, or has lost the mutex.
    TakesHold,
    /// Its call has this result: 0, or the number of an error.
    Comes(u32),
}

/// What a thread does whose call came to a result.
fn result_deed(before: Progress, owned: bool, owns: bool, answer: u32) -> Deed
    ensures { result ≡ result_deed (progress_of before) owned owns answer }
{
    match (before, owned, owns) {
        (Progress::Waiting | Progress::Stuck, _, _) => Deed::TimesOut,
        (_, false, true) => Deed::Takes,
        (_, true, false) => Deed::Frees,
        _ => Deed::Comes(answer),
    }
}

/// What a thread does whose wait must reacquire its mutex now.
fn owing_deed(before: Progress) -> Deed
    ensures { result ≡ owing_deed (progress_of before) }
{
    match before {
        Progress::Enlisted(_) => Deed::Frees,
        _ => Deed::TimesOut,
    }
}

/// What a thread does that is blocked now.
fn blocked_deed(noted: bool) -> Deed
    ensures { result ≡ blocked_deed noted }
{
    if noted {
        Deed::GoesOnWaiting
    } else {
        Deed::Frees
    }
}

/// What a thread does by its own move, which needs no rule, by how far its call had come and has come, and by whether
/// the thread owned the mutex that the call names, and owns it.
fn plain_deed(before: Progress, owned: bool, owns: bool, after: Progress) -> Deed
    ensures { result ≡ plain_deed (progress_of before) owned owns (progress_of after) }
{
    match (before, after) {
        (_, Progress::Waiting) => Deed::WaitsFor,
        (_, Progress::Stuck) => Deed::WaitsForGood,
        (_, Progress::Leaving) => Deed::Takes,
        (_, Progress::Has(answer)) => result_deed(before, owned, owns, answer),
        (_, Progress::Checked) => Deed::Checks,
        (Progress::Checked, Progress::Enlisted(_)) => Deed::IsBlocked,
        (_, Progress::Blocked(noted)) => blocked_deed(noted),
        (_, Progress::Reacquiring) => owing_deed(before),
        (_, Progress::Used) => Deed::Uses,
        _ => Deed::SpoilsIt,
    }
}

/// What a thread does by `wait_gives_all`, whose wait is about to begin, or is over.
fn hold_deed(after: Progress) -> Deed
    ensures { result ≡ hold_deed (progress_of after) }
{
    match after {
        Progress::Fresh => Deed::GivesHold,
        _ => Deed::TakesHold,
    }
}

/// What a thread does by its own move, by a rule or by none. The mutex that its call names had this owner.
pub fn own_deed(
    rule: Option<Rule>,
    thread: u32,
    before: Progress,
    owner: u32,
    owns: bool,
    after: Progress,
) -> Deed
    ensures { result ≡ own_deed rule thread (progress_of before) owner owns (progress_of after) }
{
    match rule {
        Some(Rule::Steal) => Deed::TakesFrom(owner),
        Some(Rule::Spurious) => Deed::IsUnblocked,
        Some(Rule::HeldWait) => Deed::IsBlocked,
        Some(Rule::WaitGivesAll) => hold_deed(after),
        _ => plain_deed(before, owner == thread, owns, after),
    }
}

/// What happens to a thread by another one, if anything does.
pub fn other_deed(before: Progress, after: Progress) -> Option<Deed>
    ensures { result ≡ other_deed (progress_of before) (progress_of after) }
{
    match (before, after) {
        (Progress::Waiting, Progress::Waiting) => None,
        (Progress::Waiting, _) => Some(Deed::IsHanded),
        (Progress::Enlisted(true), Progress::Enlisted(false)) => Some(Deed::IsUnblocked),
        (Progress::Blocked(_), Progress::Reacquiring) => Some(Deed::IsUnblocked),
        _ => None,
    }
}

/// Appends words, and the mutex that a request names.
fn append_with_mutex(request: &Request, words: &[u8], out: &mut Text)
    requires { array_vec_len out.old + length words.now + 11 ≤ TEXT_ROOM }
    ensures items { out.new.items ≡ out.old.items ++ (words.now ++ mutex_name (named_by request.now)) }
    ensures len { array_vec_len out.new ≤ array_vec_len out.old + length words.now + 11 }
{
    append(out, words);
    append(out, b"m");
    append_number(out, named_by(request));
}

/// Appends words, and the variable that a request names.
fn append_with_cond(request: &Request, words: &[u8], out: &mut Text)
    requires { array_vec_len out.old + length words.now + 11 ≤ TEXT_ROOM }
    ensures items { out.new.items ≡ out.old.items ++ (words.now ++ cond_name (variable_of request.now)) }
    ensures len { array_vec_len out.new ≤ array_vec_len out.old + length words.now + 11 }
{
    append(out, words);
    append(out, b"c");
    append_number(out, variable_of(request));
}

/// How many bytes of room the words of a deed need.
const WORDS_ROOM: usize = 48;

/// Appends a deed of a thread with this open call.
fn append_deed(request: &Request, deed: Deed, out: &mut Text)
    requires { array_vec_len out.old + WORDS_ROOM ≤ TEXT_ROOM }
    ensures items { out.new.items ≡ out.old.items ++ deed_words request.now deed }
    ensures len { array_vec_len out.new ≤ array_vec_len out.old + WORDS_ROOM }
{
    match deed {
        Deed::Takes => append_with_mutex(request, b" takes ", out),
        Deed::TakesFrom(owner) => {
            append_with_mutex(request, b" takes ", out);
            append(out, b" from t");
            append_number(out, owner);
        }
        Deed::IsHanded => append_with_mutex(request, b" is handed ", out),
        Deed::WaitsFor => append_with_mutex(request, b" waits for ", out),
        Deed::WaitsForGood => {
            append_with_mutex(request, b" waits for ", out);
            append(out, b" for good");
        }
        Deed::Frees => append_with_mutex(request, b" frees ", out),
        Deed::SpoilsIt => {
            append_with_mutex(request, b" leaves ", out);
            append(out, b" unusable");
        }
        Deed::Checks => append_with_cond(request, b" may wait on ", out),
        Deed::IsBlocked => append_with_cond(request, b" is blocked on ", out),
        Deed::GoesOnWaiting => append_with_cond(request, b" is told to wait on ", out),
        Deed::IsUnblocked => append(out, b" is unblocked"),
        Deed::TimesOut => append(out, b" times out"),
        Deed::Uses => append_with_cond(request, b" uses ", out),
        Deed::GivesHold => append_with_mutex(request, b" gives one hold of ", out),
        Deed::TakesHold => {
            append_with_mutex(request, b" takes one hold of ", out);
            append(out, b" again");
        }
        Deed::Comes(answer) => {
            append(out, b" comes to ");
            append_number(out, answer);
        }
    }
}

/// How many bytes of room a rule in front of a line needs.
const RULE_ROOM: usize = 19;

/// Appends what stands in front of a line of a step: the name of the rule that it needs, if it does.
fn append_front(rule: Option<Rule>, out: &mut Text)
    requires { array_vec_len out.old + RULE_ROOM ≤ TEXT_ROOM }
    ensures items { out.new.items ≡ out.old.items ++ rule_front rule }
    ensures len { array_vec_len out.new ≤ array_vec_len out.old + RULE_ROOM }
{
    if let Some(rule) = rule {
        append(out, name_of(rule));
        append(out, b": ");
    }
}

/// The line of a deed of a thread with this open call, after two blanks.
pub fn deed_line(rule: Option<Rule>, thread: u32, request: &Request, deed: Deed) -> Text
    ensures { result.items ≡ deed_line rule thread request.now deed }
{
    let mut text = Text::new();
    append(&mut text, b"  ");
    append_front(rule, &mut text);
    append(&mut text, b"t");
    append_number(&mut text, thread);
    append_deed(request, deed, &mut text);
    append(&mut text, b"\n");
    text
}
