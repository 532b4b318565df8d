ghost use Rattle.std.specs.Prelude.{◌≡◌, ◌+◌, ◌≤◌, ◌<◌, ◌++◌, false, length, decimal, codes};
ghost use Rattle.arrayvec.specs.ArrayVec.{array_vec_len};
ghost use Rattle.std.specs.Fmt.{digit_glyph};
ghost use Rattle.pif_text_model.specs.Numbers.{hex_digits};
ghost use Rattle.pif_text_model.specs.Replies.{text_of, fault_of, error_in, error_text, named_text, add_fault_word, refusal_word, health_text, added_text, seen_text, fact_text, thread_name, mutex_name, cond_name, thread_or_none, cause_word};

use crate::errors::{errno_name, errno_of};
use crate::{Added, Cause, Fact, Reply, TEXT_ROOM, Text};
use arrayvec::ArrayVec;
use itoa::Buffer;
use pif_model::Seen;
use pif_types::{AddFault, Answer, CondId, Errno, Health, MutexId, Refusal, Tid};

/// How many bytes of room `reply_text` and `fault_text` ask for: no text is longer. The longest is `fault N command`,
/// 34 bytes with a number of 20 digits.
pub const REPLY_ROOM: usize = 40;

/// The most bytes of the name of an error, with a space before it.
const ERROR_ROOM: usize = 16;

/// How many bytes of room `named_reply_text` asks for.
pub const NAMED_ROOM: usize = REPLY_ROOM + ERROR_ROOM;

/// Appends bytes.
#[inline(always)]
pub fn append<const N: usize>(out: &mut ArrayVec<u8, N>, text: &[u8])
    requires { array_vec_len out.old + length text.now ≤ N }
    ensures { out.new.items ≡ out.old.items ++ text.now }
{
    let _ = out.try_extend_from_slice(text);
}

/// Appends a number in decimal digits.
pub fn append_decimal<const N: usize>(out: &mut ArrayVec<u8, N>, number: u64)
    requires { array_vec_len out.old + 20 ≤ N }
    ensures items { out.new.items ≡ out.old.items ++ decimal number }
    ensures len { length (decimal number) ≤ 20 }
{
    let mut buffer = Buffer::new();
    append(out, buffer.format(number).as_bytes());
}

/// Appends a number below 2 ^ 32 in decimal digits. Most have one digit.
#[inline(always)]
#[tactic(auto, using(std::proofs::lemmas::Fmt::decimal_digit))]
pub fn append_number<const N: usize>(out: &mut ArrayVec<u8, N>, number: u32)
    requires { array_vec_len out.old + 10 ≤ N }
    ensures items { out.new.items ≡ out.old.items ++ decimal number }
    ensures len { length (decimal number) ≤ 10 }
{
    if number < 10 {
        out.push(b'0' + number as u8);
    } else {
        append_digits(out, number);
    }
}

/// Appends a number below 2 ^ 32 in however many decimal digits it has.
#[inline(never)]
fn append_digits<const N: usize>(out: &mut ArrayVec<u8, N>, number: u32)
    requires { array_vec_len out.old + 10 ≤ N }
    ensures items { out.new.items ≡ out.old.items ++ decimal number }
    ensures len { length (decimal number) ≤ 10 }
{
    let mut buffer = Buffer::new();
    append(out, buffer.format(number).as_bytes());
}

/// Appends the name of a thread.
pub fn append_thread<const N: usize>(out: &mut ArrayVec<u8, N>, thread: Tid)
    requires { array_vec_len out.old + 11 ≤ N }
    ensures items { out.new.items ≡ out.old.items ++ thread_name thread }
    ensures len { length (thread_name thread) ≤ 11 }
{
    append(out, b"t");
    append_number(out, thread.get());
}

/// Appends the name of a mutex.
pub fn append_mutex<const N: usize>(out: &mut ArrayVec<u8, N>, mutex: MutexId)
    requires { array_vec_len out.old + 11 ≤ N }
    ensures items { out.new.items ≡ out.old.items ++ mutex_name mutex }
    ensures len { length (mutex_name mutex) ≤ 11 }
{
    append(out, b"m");
    append_number(out, mutex.get());
}

/// Appends the name of a condition variable.
pub fn append_cond<const N: usize>(out: &mut ArrayVec<u8, N>, cond: CondId)
    requires { array_vec_len out.old + 11 ≤ N }
    ensures items { out.new.items ≡ out.old.items ++ cond_name cond }
    ensures len { length (cond_name cond) ≤ 11 }
{
    append(out, b"c");
    append_number(out, cond.get());
}

/// Appends these words, and behind them the name of a thread.
pub fn append_on_thread(out: &mut Text, words: &[u8], thread: Tid)
    requires { array_vec_len out.old + length words.now + 11 ≤ TEXT_ROOM }
    ensures items { out.new.items ≡ out.old.items ++ (words.now ++ thread_name thread) }
    ensures len { array_vec_len out.new ≤ array_vec_len out.old + length words.now + 11 }
{
    append(out, words);
    append_thread(out, thread);
}

/// Appends these words, and behind them the name of a mutex.
pub fn append_on_mutex(out: &mut Text, words: &[u8], mutex: MutexId)
    requires { array_vec_len out.old + length words.now + 11 ≤ TEXT_ROOM }
    ensures items { out.new.items ≡ out.old.items ++ (words.now ++ mutex_name mutex) }
    ensures len { array_vec_len out.new ≤ array_vec_len out.old + length words.now + 11 }
{
    append(out, words);
    append_mutex(out, mutex);
}

/// Appends these words, and behind them the name of a condition variable.
pub fn append_on_cond(out: &mut Text, words: &[u8], cond: CondId)
    requires { array_vec_len out.old + length words.now + 11 ≤ TEXT_ROOM }
    ensures items { out.new.items ≡ out.old.items ++ (words.now ++ cond_name cond) }
    ensures len { array_vec_len out.new ≤ array_vec_len out.old + length words.now + 11 }
{
    append(out, words);
    append_cond(out, cond);
}

/// Appends what a call is answered.
fn append_answer<const N: usize>(out: &mut ArrayVec<u8, N>, number: Answer)
    requires { array_vec_len out.old + 17 ≤ N }
    ensures items { out.new.items ≡ out.old.items ++ (codes "answer " ++ decimal number) }
    ensures len { array_vec_len out.new ≤ array_vec_len out.old + 17 }
{
    append(out, b"answer ");
    append_number(out, number);
}

/// The hexadecimal digit of a value below 16, in lower case.
fn hex_digit(value: u32) -> u8
    requires { value < 16 }
    ensures { result ≡ digit_glyph false value }
{
    if value < 10 {
        b'0' + value as u8
    } else {
        b'a' + (value - 10) as u8
    }
}

/// The eight hexadecimal digits of a word.
#[tactic(auto, unfolding(pif_text_model::specs::Numbers::hex_digits))]
fn hex_text(value: u32) -> [u8; 8]
    ensures { result ≡ hex_digits 8 value }
{
    let second = value / 16;
    let third = second / 16;
    let fourth = third / 16;
    let fifth = fourth / 16;
    let sixth = fifth / 16;
    let seventh = sixth / 16;
    let eighth = seventh / 16;
    [
        hex_digit(eighth % 16),
        hex_digit(seventh % 16),
        hex_digit(sixth % 16),
        hex_digit(fifth % 16),
        hex_digit(fourth % 16),
        hex_digit(third % 16),
        hex_digit(second % 16),
        hex_digit(value % 16),
    ]
}

/// Appends the value of a word.
fn append_hex<const N: usize>(out: &mut ArrayVec<u8, N>, value: u32)
    requires { array_vec_len out.old + 10 ≤ N }
    ensures items { out.new.items ≡ out.old.items ++ (codes "0x" ++ hex_digits 8 value) }
    ensures len { array_vec_len out.new ≡ array_vec_len out.old + 10 }
{
    append(out, b"0x");
    append(out, hex_text(value).as_slice());
}

/// Why nothing was added, in one word of at most 10 letters, as `toomany`.
pub fn add_fault_word(fault: AddFault) -> &'static [u8]
    ensures items { result.now ≡ add_fault_word fault }
    ensures len { length result.now ≤ 10 }
{
    match fault {
        AddFault::TooMany => b"toomany",
        AddFault::BadPrio => b"badprio",
        AddFault::NoSuch => b"nosuch",
    }
}

/// Why an event was refused, in one word of at most 10 letters, as `busy`.
pub fn refusal_word(refusal: Refusal) -> &'static [u8]
    ensures items { result.now ≡ refusal_word refusal }
    ensures len { length result.now ≤ 10 }
{
    match refusal {
        Refusal::Dead => b"dead",
        Refusal::Busy => b"busy",
        Refusal::Idle => b"idle",
        Refusal::NoSuch => b"nosuch",
        Refusal::Past => b"past",
    }
}

/// What is known of the state that a mutex protects, in one word of at most 12 letters: `fine`, `inconsistent` or
/// `unusable`.
pub fn health_word(health: Health) -> &'static str
    ensures items { result.now ≡ health_text health }
    ensures len { length result.now ≤ 12 }
{
    match health {
        Health::Fine => "fine",
        Health::Inconsistent => "inconsistent",
        Health::Unusable => "unusable",
    }
}

/// The cause of a fault, in one word.
fn cause_of(cause: Cause) -> &'static [u8]
    ensures items { result.now ≡ cause_word cause }
    ensures len { length result.now ≤ 10 }
{
    match cause {
        Cause::Size => b"size",
        Cause::Long => b"long",
        Cause::Cut => b"cut",
        Cause::Command => b"command",
        Cause::Limits => b"limits",
    }
}

/// Appends a refusal and its one word.
fn append_refused<const N: usize>(out: &mut ArrayVec<u8, N>, why: &[u8])
    requires room { array_vec_len out.old + 20 ≤ N }
    requires short { length why.now ≤ 10 }
    ensures items { out.new.items ≡ out.old.items ++ (codes "refused " ++ why.now) }
{
    append(out, b"refused ");
    append(out, why);
}

/// Appends a thread, or that there is none.
fn append_thread_or_none<const N: usize>(out: &mut ArrayVec<u8, N>, thread: Option<Tid>)
    requires { array_vec_len out.old + 11 ≤ N }
    ensures items { out.new.items ≡ out.old.items ++ thread_or_none thread }
    ensures len { array_vec_len out.new ≤ array_vec_len out.old + 11 }
{
    match thread {
        Some(thread) => append_thread(out, thread),
        None => append(out, b"none"),
    }
}

/// Appends what an addition is answered.
#[tactic(auto, unfolding(pif_text_model::specs::Replies::added_text))]
fn append_added<const N: usize>(out: &mut ArrayVec<u8, N>, added: Added)
    requires { array_vec_len out.old + REPLY_ROOM ≤ N }
    ensures items { out.new.items ≡ out.old.items ++ added_text added }
    ensures len { array_vec_len out.new ≤ array_vec_len out.old + REPLY_ROOM }
{
    match added {
        Added::Thread(thread) => append_thread(out, thread),
        Added::Mutex(mutex) => append_mutex(out, mutex),
        Added::Cond(cond) => append_cond(out, cond),
        Added::Refused(fault) => append_refused(out, add_fault_word(fault)),
    }
}

/// Appends what an event is answered.
#[tactic(auto, unfolding(pif_text_model::specs::Replies::seen_text))]
fn append_seen<const N: usize>(out: &mut ArrayVec<u8, N>, seen: Seen)
    requires { array_vec_len out.old + REPLY_ROOM ≤ N }
    ensures items { out.new.items ≡ out.old.items ++ seen_text seen }
    ensures len { array_vec_len out.new ≤ array_vec_len out.old + REPLY_ROOM }
{
    match seen {
        Seen::Begun => append(out, b"begun"),
        Seen::Went => append(out, b"went"),
        Seen::Waits => append(out, b"waits"),
        Seen::Answered(number) => append_answer(out, number),
        Seen::Ended => append(out, b"ended"),
        Seen::Ticked => append(out, b"ticked"),
        Seen::Refused(refusal) => append_refused(out, refusal_word(refusal)),
    }
}

/// Appends what a question is answered.
#[tactic(auto, unfolding(pif_text_model::specs::Replies::fact_text))]
fn append_fact<const N: usize>(out: &mut ArrayVec<u8, N>, fact: Fact)
    requires { array_vec_len out.old + REPLY_ROOM ≤ N }
    ensures items { out.new.items ≡ out.old.items ++ fact_text fact }
    ensures len { array_vec_len out.new ≤ array_vec_len out.old + REPLY_ROOM }
{
    match fact {
        Fact::NoSuch => append(out, b"refused nosuch"),
        Fact::Word(value) => append_hex(out, value),
        Fact::Health(health) => append(out, health_word(health).as_bytes()),
        Fact::Uses(uses) => append_number(out, uses),
        Fact::Priority(priority) => append_number(out, priority.get()),
        Fact::Dead => append(out, b"dead"),
        Fact::Thread(thread) => append_thread_or_none(out, thread),
    }
}

/// Appends the text of a reply, with no line feed, at most `REPLY_ROOM` bytes. What stands in `out` stays.
#[tactic(auto, unfolding(pif_text_model::specs::Replies::text_of))]
pub fn reply_text<const N: usize>(reply: Reply, out: &mut ArrayVec<u8, N>)
    requires { array_vec_len out.old + REPLY_ROOM ≤ N }
    ensures written { out.new.items ≡ out.old.items ++ text_of reply }
    ensures within { array_vec_len out.new ≤ array_vec_len out.old + REPLY_ROOM }
{
    match reply {
        Reply::Done => append(out, b"ok"),
        Reply::Added(added) => append_added(out, added),
        Reply::Seen(seen) => append_seen(out, seen),
        Reply::Told(fact) => append_fact(out, fact),
    }
}

/// The error of a reply, if it is the answer of a call that failed.
fn error_in(reply: Reply) -> Option<Errno>
    ensures { result ≡ error_in reply }
{
    match reply {
        Reply::Seen(Seen::Answered(number)) => errno_of(number),
        _ => None,
    }
}

/// Appends the name of an error behind a space, if there is one.
fn append_error<const N: usize>(out: &mut ArrayVec<u8, N>, error: Option<Errno>)
    requires { array_vec_len out.old + ERROR_ROOM ≤ N }
    ensures items { out.new.items ≡ out.old.items ++ error_text error }
    ensures len { array_vec_len out.new ≤ array_vec_len out.old + ERROR_ROOM }
{
    if let Some(errno) = error {
        append(out, b" ");
        append(out, errno_name(errno).as_bytes());
    }
}

/// Appends the text of a reply, and behind the number of an error its name, as `answer 35 EDEADLK`. There is no line
/// feed, and it is at most `NAMED_ROOM` bytes. What stands in `out` stays.
pub fn named_reply_text<const N: usize>(reply: Reply, out: &mut ArrayVec<u8, N>)
    requires { array_vec_len out.old + NAMED_ROOM ≤ N }
    ensures written { out.new.items ≡ out.old.items ++ named_text reply }
    ensures within { array_vec_len out.new ≤ array_vec_len out.old + NAMED_ROOM }
{
    // For the prover: each use has a value of its own.
    let answered = reply;
    reply_text(reply, out);
    append_error(out, error_in(answered));
}

/// Appends the text of a fault at a line, counted from 1, with no line feed, at most `REPLY_ROOM` bytes. What stands in
/// `out` stays.
#[tactic(auto, unfolding(pif_text_model::specs::Replies::fault_of))]
pub fn fault_text(line_number: u64, cause: Cause, out: &mut Text)
    requires { array_vec_len out.old + REPLY_ROOM ≤ TEXT_ROOM }
    ensures written { out.new.items ≡ out.old.items ++ fault_of line_number cause }
    ensures within { array_vec_len out.new ≤ array_vec_len out.old + REPLY_ROOM }
{
    append(out, b"fault ");
    append_decimal(out, line_number);
    append(out, b" ");
    append(out, cause_of(cause));
}
