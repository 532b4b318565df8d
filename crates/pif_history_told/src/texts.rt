ghost use Rattle.std.specs.Prelude.{◌≡◌, ◌++◌, IfOk, OnOk};
ghost use Rattle.std.specs.List.{flat_map};
ghost use Rattle.pif_text_model.specs.Errors.{error_of};
ghost use Rattle.pif_history_text.specs.Reading.{heard_of};
ghost use Rattle.pif_history_told.specs.Ends.{at_end_text};
ghost use Rattle.pif_history_told.specs.Sets.{added};
ghost use Rattle.pif_history_told.specs.Texts.{bounds_text, but_for_text, call_word, calls_in, calls_text, calls_word, colon_names, error_word, least_text, legal_front, legal_text, legal_with, names_of, needs_text, rule_names, rule_text, some_calls, undecided_with, with_names};

use crate::ends::{AtEnd, tell_at_end};
use crate::sets::added;
use crate::unlisted::Unlisted;
use pif_history_model::Line;
use pif_history_text::History;
use pif_rules::{Rule, name_of};
use pif_rules_model::Rules;
use pif_search::{Stop, at_or};
use pif_text::{append_decimal, errno_name, errno_of};
use pif_text_model::CallKind;
use pif_types::{Answer, Request};
use std::alloc::{AllocError, Global};

/// From so many holds on the machine refuses a lock without a rule.
const MOST_HOLDS: u32 = 255;

/// Appends the least of the bounds of `recursion`, unless it is that of the machine.
fn push_least(least: u32, out: &mut Vec<u8>) -> Result<(), Stop>
    ensures { OnOk result (out.new.items ≡ out.old.items ++ least_text least) }
{
    if least == MOST_HOLDS {
        return Ok(());
    }
    append_decimal(out, u64::from(least))?;
    out.extend_from_slice(b"..")?;
    Ok(())
}

/// Appends the bounds of `recursion`, if this is the rule.
fn push_bounds(rules: &Rules, rule: Rule, out: &mut Vec<u8>) -> Result<(), Stop>
    ensures { OnOk result (out.new.items ≡ out.old.items ++ bounds_text rules.now rule) }
{
    match (rule, rules.recursion) {
        (Rule::Recursion, Some(bounds)) => {
            out.extend_from_slice(b"=")?;
            push_least(bounds.least, out)?;
            append_decimal(out, u64::from(bounds.most))?;
            Ok(())
        }
        _ => Ok(()),
    }
}

/// Appends a rule of a set, after a space.
fn push_rule(rules: &Rules, rule: Rule, out: &mut Vec<u8>) -> Result<(), Stop>
    ensures { OnOk result (out.new.items ≡ out.old.items ++ rule_text rules.now rule) }
{
    out.extend_from_slice(b" ")?;
    out.extend_from_slice(name_of(rule))?;
    push_bounds(rules, rule, out)
}

/// The rules of a set that add to those that hold in any case, each after a space.
fn names(alloc: Global, base: &Rules, rules: &Rules) -> Result<Vec<u8>, Stop>
    ensures { IfOk result (λ v. v.items ≡ names_of base.now rules.now) }
{
    let more = added(alloc, base, rules)?;
    let mut text = Vec::new(alloc);
    for rule in more.as_slice() {
        push_rule(rules, *rule, &mut text)?;
    }
    Ok(text)
}

/// Appends these names after a word, if there are any, and ends the line.
fn push_with(word: &[u8], names: &[u8], out: &mut Vec<u8>) -> Result<(), Stop>
    ensures { OnOk result (out.new.items ≡ out.old.items ++ with_names word.now names.now) }
{
    if !names.is_empty() {
        out.extend_from_slice(word)?;
        out.extend_from_slice(names)?;
    }
    out.extend_from_slice(b"\n")?;
    Ok(())
}

/// The name of an error, of which this is the number; nothing if it is none of an error.
pub(crate) fn error_word(answer: Answer) -> &'static [u8]
    ensures { result.now ≡ error_word (error_of answer) }
{
    match errno_of(answer) {
        Some(errno) => errno_name(errno).as_bytes(),
        None => b"",
    }
}

/// The word of a call.
pub(crate) fn call_word(request: &Request) -> &'static [u8]
    ensures { result.now ≡ call_word request.now }
{
    CallKind::of(request).row().name.as_bytes()
}

/// Appends the line of an answer that no page has, the answer, and the word of its call, if there is one. The lines
/// have these numbers in the text.
///
/// # Errors
///
/// Out of memory.
pub fn push_but_for(
    numbers: &[u32],
    found: Option<Unlisted>,
    out: &mut Vec<u8>,
) -> Result<(), AllocError>
    ensures { OnOk result (out.new.items ≡ out.old.items ++ but_for_text numbers.now found) }
{
    let Some(it) = found else {
        return Ok(());
    };
    out.extend_from_slice(b", but for ")?;
    append_decimal(out, u64::from(at_or(numbers, it.line.saturating_sub(1), 0)))?;
    out.extend_from_slice(b": ")?;
    out.extend_from_slice(error_word(it.answer))?;
    out.extend_from_slice(b" of ")?;
    out.extend_from_slice(call_word(&it.request))
}

/// How many calls a history begins.
pub fn calls_in(history: &History) -> usize
    ensures { result ≡ calls_in (heard_of history.now) }
{
    history
        .shown
        .iter()
        .filter(|line| matches!(**line, Line::Begin(_, _)))
        .count()
}

/// The word after the number of calls, if there are some.
fn calls_word(calls: usize) -> &'static [u8]
    ensures { result.now ≡ calls_word calls }
{
    if calls == 1 { b" call" } else { b" calls" }
}

/// Appends that there are so many calls, if there are some.
fn push_some_calls(calls: usize, out: &mut Vec<u8>) -> Result<(), AllocError>
    ensures { OnOk result (out.new.items ≡ out.old.items ++ some_calls calls) }
{
    out.extend_from_slice(b", ")?;
    append_decimal(out, calls as u64)?;
    out.extend_from_slice(calls_word(calls))
}

/// Appends that there are so many calls, or none.
fn push_calls(calls: usize, out: &mut Vec<u8>) -> Result<(), AllocError>
    ensures { OnOk result (out.new.items ≡ out.old.items ++ calls_text calls) }
{
    if calls == 0 {
        return out.extend_from_slice(b", with no call");
    }
    push_some_calls(calls, out)
}

/// Appends that a history of so many lines, which begin so many calls, is legal.
fn push_legal(lines: u32, calls: usize, out: &mut Vec<u8>) -> Result<(), AllocError>
    ensures { OnOk result (out.new.items ≡ out.old.items ++ legal_front lines calls) }
{
    out.extend_from_slice(b"legal ")?;
    append_decimal(out, u64::from(lines))?;
    push_calls(calls, out)
}

/// Appends the line of a legal history of so many lines and calls, with the answer that no page has, if its run has
/// one, what is told of its end, and what stands after that. The lines have these numbers in the text.
///
/// # Errors
///
/// Out of memory.
pub fn tell_legal(
    lines: u32,
    calls: usize,
    numbers: &[u32],
    found: Option<Unlisted>,
    at_end: &AtEnd,
    witness: &[u8],
    out: &mut Vec<u8>,
) -> Result<(), AllocError>
    ensures { OnOk result (out.new.items ≡ out.old.items ++ (legal_text lines calls numbers.now found ++ at_end_text at_end.now ++ witness.now)) }
{
    push_legal(lines, calls, out)?;
    push_but_for(numbers, found, out)?;
    out.extend_from_slice(b"\n")?;
    tell_at_end(at_end, out)?;
    out.extend_from_slice(witness)
}

/// Appends the line of a history of so many lines and calls that is legal with these rules, which names those that add
/// to those that hold in any case.
///
/// # Errors
///
/// Out of memory.
pub fn push_legal_with(
    alloc: Global,
    lines: u32,
    calls: usize,
    base: &Rules,
    rules: &Rules,
    out: &mut Vec<u8>,
) -> Result<(), Stop>
    ensures { OnOk result (out.new.items ≡ out.old.items ++ legal_with lines calls base.now rules.now) }
{
    let names = names(alloc, base, rules)?;
    push_legal(lines, calls, out)?;
    push_with(b", with", names.as_slice(), out)
}

/// Appends the line of a history that was given up, with these rules, at the line of this number. It names the rules
/// that add to those that hold in any case.
///
/// # Errors
///
/// Out of memory.
pub fn push_undecided_with(
    alloc: Global,
    number: u32,
    base: &Rules,
    rules: &Rules,
    out: &mut Vec<u8>,
) -> Result<(), Stop>
    ensures { OnOk result (out.new.items ≡ out.old.items ++ undecided_with number base.now rules.now) }
{
    let names = names(alloc, base, rules)?;
    out.extend_from_slice(b"undecided at ")?;
    append_decimal(out, u64::from(number))?;
    push_with(b" with", names.as_slice(), out)
}

/// The rules of a set that add to those that hold in any case, with a space between them.
///
/// # Errors
///
/// Out of memory.
pub fn rule_names(alloc: Global, base: &Rules, rules: &Rules) -> Result<Vec<u8>, Stop>
    ensures { IfOk result (λ v. v.items ≡ rule_names base.now rules.now) }
{
    let names = names(alloc, base, rules)?;
    match names.as_slice() {
        [] => Ok(Vec::new(alloc)),
        [_, rest @ ..] => Ok(Vec::from_slice(alloc, rest)?),
    }
}

/// Appends these names after a colon, if there are any.
fn push_colon(names: &[u8], out: &mut Vec<u8>) -> Result<(), Stop>
    ensures { OnOk result (out.new.items ≡ out.old.items ++ colon_names names.now) }
{
    if !names.is_empty() {
        out.extend_from_slice(b":")?;
        out.extend_from_slice(names)?;
    }
    Ok(())
}

/// Appends the rules of a set that add to those that hold in any case, after a colon, if there are any.
///
/// # Errors
///
/// Out of memory.
pub fn push_needed(
    alloc: Global,
    base: &Rules,
    rules: &Rules,
    out: &mut Vec<u8>,
) -> Result<(), Stop>
    ensures { OnOk result (out.new.items ≡ out.old.items ++ needs_text base.now rules.now) }
{
    let names = names(alloc, base, rules)?;
    push_colon(names.as_slice(), out)
}
