//! What is in the way of an illegal line: a fact that is so in all states to which the lines before lead.
ghost use Rattle.std.specs.Prelude.{◌≡◌, ◌++◌, None, OnOk};
ghost use Rattle.pif_history_model.specs.declared.facts.Fact.TheVariants.{NotDue};
ghost use Rattle.pif_history_told.specs.InTheWay.{call_words, fact_words, in_the_way_member, in_the_way_text, in_the_way_words, numbered, priority_words, thread_words};

use crate::verdicts::Began;
use pif_history_model::Fact;
use pif_text::append_decimal;
use std::alloc::AllocError;

/// What is in the way of an illegal line.
#[derive(Clone, Copy)]
pub struct InTheWay {
    /// The fact.
    pub fact: Fact,
    /// The priority of the thread that stands in the way, if it is always the same.
    pub priority: Option<u32>,
    /// Where the open call of that thread began, if it has one.
    pub began: Option<Began>,
}

/// Appends words, and a number after them.
fn append_numbered(out: &mut Vec<u8>, words: &[u8], number: u32) -> Result<(), AllocError>
    ensures { OnOk result (out.new.items ≡ out.old.items ++ numbered words.now number) }
{
    out.extend_from_slice(words)?;
    append_decimal(out, u64::from(number))
}

/// Appends a priority in brackets, if it is told.
fn append_priority(out: &mut Vec<u8>, priority: Option<u32>) -> Result<(), AllocError>
    ensures { OnOk result (out.new.items ≡ out.old.items ++ priority_words priority) }
{
    let Some(priority) = priority else {
        return Ok(());
    };
    append_numbered(out, b" (", priority)?;
    out.extend_from_slice(b")")
}

/// Appends a thread, and its priority.
fn append_thread(out: &mut Vec<u8>, thread: u32, priority: Option<u32>) -> Result<(), AllocError>
    ensures { OnOk result (out.new.items ≡ out.old.items ++ thread_words thread priority) }
{
    append_numbered(out, b"t", thread)?;
    append_priority(out, priority)
}

/// Appends that a thread, with its priority, has or waits for something with a number, and more words.
fn append_of_thread(
    out: &mut Vec<u8>,
    thread: u32,
    priority: Option<u32>,
    words: &[u8],
    number: u32,
    more: &[u8],
) -> Result<(), AllocError>
    ensures { OnOk result (out.new.items ≡ out.old.items ++ (thread_words thread priority ++ numbered words.now number ++ more.now)) }
{
    append_thread(out, thread, priority)?;
    append_numbered(out, words, number)?;
    out.extend_from_slice(more)
}

/// Appends words and a number twice.
fn append_both(
    out: &mut Vec<u8>,
    words: &[u8],
    number: u32,
    more: &[u8],
    other: u32,
) -> Result<(), AllocError>
    ensures { OnOk result (out.new.items ≡ out.old.items ++ (numbered words.now number ++ numbered more.now other)) }
{
    append_numbered(out, words, number)?;
    append_numbered(out, more, other)
}

/// Appends words and a number, and words after it.
fn append_between(
    out: &mut Vec<u8>,
    words: &[u8],
    number: u32,
    more: &[u8],
) -> Result<(), AllocError>
    ensures { OnOk result (out.new.items ≡ out.old.items ++ (numbered words.now number ++ more.now)) }
{
    append_numbered(out, words, number)?;
    out.extend_from_slice(more)
}

/// Appends the deadline of a thread, and the time.
#[tactic(auto, unfolding(crate::specs::InTheWay::fact_words))]
fn append_deadline(
    out: &mut Vec<u8>,
    thread: u32,
    deadline: u32,
    time: u32,
) -> Result<(), AllocError>
    ensures { OnOk result (out.new.items ≡ out.old.items ++ fact_words (NotDue thread deadline time) None) }
{
    append_numbered(out, b"the deadline of t", thread)?;
    append_both(out, b" is ", deadline, b", and the time is ", time)
}

/// Appends a fact, with the priority of the thread that stands in the way, if it is told.
#[tactic(auto, unfolding(crate::specs::InTheWay::fact_words))]
fn append_fact(fact: &Fact, priority: Option<u32>, out: &mut Vec<u8>) -> Result<(), AllocError>
    ensures { OnOk result (out.new.items ≡ out.old.items ++ fact_words fact.now priority) }
{
    match *fact {
        Fact::LeftUndefined(t) => {
            append_between(out, b"POSIX leaves undefined what t", t.get(), b" does")
        }
        Fact::Held(m, t) => append_both(out, b"m", m.get(), b" is held by t", t.get()),
        Fact::HeldByNoOther(m, _) => append_numbered(out, b"no other thread holds m", m.get()),
        Fact::Next(m, t) => append_of_thread(
            out,
            t.get(),
            priority,
            b" waits for m",
            m.get(),
            b" and is next",
        ),
        Fact::HeldOrNext(m, t) => {
            append_of_thread(out, t.get(), priority, b" holds m", m.get(), b" or is next")
        }
        Fact::ClosesNoCycle(m, t) => {
            append_both(
                out,
                b"the owner of m",
                m.get(),
                b" doesn't wait for t",
                t.get(),
            )
        }
        Fact::WaitsFor(u, t) => {
            append_of_thread(out, u.get(), priority, b" waits for t", t.get(), b"")
        }
        Fact::Priority(t, other) => append_both(out, b"t", t.get(), b" has priority ", other),
        Fact::NotSignalled(t) => append_numbered(out, b"no signal has woken t", t.get()),
        Fact::NotDue(t, deadline, time) => append_deadline(out, t.get(), deadline, time),
        Fact::Awake(t) => append_between(out, b"t", t.get(), b" isn't blocked"),
    }
}

/// Appends where the open call of a thread began, if it has one.
fn append_call(began: Option<Began>, out: &mut Vec<u8>) -> Result<(), AllocError>
    ensures { OnOk result (out.new.items ≡ out.old.items ++ call_words began) }
{
    match began {
        Some(call) => append_between(out, b" (its call began at ", call.number, b")"),
        None => Ok(()),
    }
}

/// Appends what is in the way.
fn append_words(it: &InTheWay, out: &mut Vec<u8>) -> Result<(), AllocError>
    ensures { OnOk result (out.new.items ≡ out.old.items ++ in_the_way_words it.now) }
{
    append_fact(&it.fact, it.priority, out)?;
    append_call(it.began, out)
}

/// Appends the line that says what is in the way, if there is something.
pub(crate) fn tell_in_the_way(found: &Option<InTheWay>, out: &mut Vec<u8>) -> Result<(), AllocError>
    ensures { OnOk result (out.new.items ≡ out.old.items ++ in_the_way_text found.now) }
{
    let Some(it) = found else {
        return Ok(());
    };
    out.extend_from_slice(b"in the way: ")?;
    append_words(it, out)?;
    out.extend_from_slice(b"\n")
}

/// Appends what is in the way, as a member, if there is something.
#[tactic(auto, unfolding(crate::specs::InTheWay::in_the_way_member))]
pub(crate) fn append_in_the_way(
    found: &Option<InTheWay>,
    out: &mut Vec<u8>,
) -> Result<(), AllocError>
    ensures { OnOk result (out.new.items ≡ out.old.items ++ in_the_way_member found.now) }
{
    let Some(it) = found else {
        return Ok(());
    };
    out.extend_from_slice(b",\"in_the_way\":\"")?;
    append_words(it, out)?;
    out.extend_from_slice(b"\"")
}
