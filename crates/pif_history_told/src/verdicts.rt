//! Verdicts as lines of JSON. Each is appended to `out`; if out of memory, a part of it may be.
ghost use Rattle.std.specs.Prelude.{◌≡◌, ◌++◌, OnOk, codes, decimal, flat_map};
ghost use Rattle.pif_history_told.specs.Verdicts.{began_member, but_for_member, found_member, illegal_object, known_member, legal_object, numbers_text, undecided_object};

use crate::clues::{Clues, append_clues};
use crate::ends::{AtEnd, append_at_end};
use crate::texts::{call_word, error_word};
use crate::unlisted::Unlisted;
use pif_history_model::{Line, LineRefusal};
use pif_history_text::{line_text, refusal_word};
use pif_search::at_or;
use pif_text::{Member, Text, append_decimal, append_members, append_object};
use pif_types::{Request, Tid};
use std::alloc::AllocError;

/// What is known of a line up to which there is no run.
#[derive(Drop)]
pub enum Known {
    /// No run has it, whatever was answered, for this reason.
    Refused(LineRefusal),
    /// Exactly these numbers may stand in it, if the search for them was not given up.
    Numbers(Option<Vec<u32>>),
    /// Nothing more.
    Nothing,
}

/// The first line up to which no search found a run, though there may be one.
#[derive(Drop)]
pub struct Unfound {
    /// The number of the line before it, from 1: some run shows the lines up to that. None if no run was found of any
    /// line.
    pub up_to: Option<u32>,
    /// The number of the line, from 1.
    pub number: u32,
    /// The line.
    pub line: Line,
    /// With these numbers, in place of its answer or its priority, a search found a run; none if none was looked for.
    pub found: Option<Vec<u32>>,
}

/// The begin of a call that is open.
#[derive(Clone, Copy)]
pub struct Began {
    /// The number of its line, from 1.
    pub number: u32,
    /// The thread.
    pub thread: Tid,
    /// The call.
    pub request: Request,
}

/// Appends numbers, each after a comma.
fn append_further(numbers: &[u32], out: &mut Vec<u8>) -> Result<(), AllocError>
    ensures { OnOk result (out.new.items ≡ out.old.items ++ flat_map (λ k. codes "," ++ decimal k) numbers.now) }
{
    for number in numbers {
        out.extend_from_slice(b",")?;
        append_decimal(out, u64::from(*number))?;
    }
    Ok(())
}

/// Appends numbers with a comma between them.
fn append_numbers(numbers: &[u32], out: &mut Vec<u8>) -> Result<(), AllocError>
    ensures { OnOk result (out.new.items ≡ out.old.items ++ numbers_text numbers.now) }
{
    match numbers {
        [] => Ok(()),
        [first, rest @ ..] => {
            append_decimal(out, u64::from(*first))?;
            append_further(rest, out)
        }
    }
}

/// Appends this begin of an array, the numbers, and the end of the array.
fn append_number_array(begin: &[u8], numbers: &[u32], out: &mut Vec<u8>) -> Result<(), AllocError>
    ensures { OnOk result (out.new.items ≡ out.old.items ++ (begin.now ++ numbers_text numbers.now ++ codes "]")) }
{
    out.extend_from_slice(begin)?;
    append_numbers(numbers, out)?;
    out.extend_from_slice(b"]")
}

/// Appends what is known of an illegal line, as a member.
#[tactic(auto, unfolding(crate::specs::Verdicts::known_member))]
fn append_known(known: &Known, out: &mut Vec<u8>) -> Result<(), AllocError>
    ensures { OnOk result (out.new.items ≡ out.old.items ++ known_member known.now) }
{
    match known {
        Known::Refused(why) => {
            append_members(out, b',', &[Member::Quoted("refused", refusal_word(*why))])
        }
        Known::Numbers(Some(numbers)) => append_number_array(
            b",\"possible\":[",
            numbers.as_slice(),
            out,
        ),
        Known::Numbers(None) => append_members(out, b',', &[Member::Null("possible")]),
        Known::Nothing => Ok(()),
    }
}

/// Appends where an open call began, as a member, if there is one.
#[tactic(auto, unfolding(crate::specs::Verdicts::began_member))]
fn append_began(began: Option<Began>, out: &mut Vec<u8>) -> Result<(), AllocError>
    ensures { OnOk result (out.new.items ≡ out.old.items ++ began_member began) }
{
    let Some(call) = began else {
        return Ok(());
    };
    let mut text = Text::new();
    line_text(Line::Begin(call.thread, call.request), &mut text);
    out.extend_from_slice(b",\"began\":")?;
    append_object(
        out,
        &[
            Member::Number("line", call.number),
            Member::Quoted("text", text.as_slice()),
        ],
    )
}

/// Appends the verdict on a history whose line of this number is the first up to which there is no run, with what is
/// known of the line, where the open call of its thread began, and clues to what is wrong.
///
/// # Errors
///
/// Out of memory.
#[tactic(auto, unfolding(crate::specs::Verdicts::illegal_front, crate::specs::Verdicts::illegal_end))]
pub fn append_illegal(
    number: u32,
    line: &Line,
    known: &Known,
    began: Option<Began>,
    clues: &Clues,
    left_out: u32,
    out: &mut Vec<u8>,
) -> Result<(), AllocError>
    ensures { OnOk result (out.new.items ≡ out.old.items ++ illegal_object number line.now known.now began clues.now left_out) }
{
    let mut text = Text::new();
    line_text(*line, &mut text);
    append_members(
        out,
        b'{',
        &[
            Member::Quoted("verdict", b"illegal"),
            Member::Number("line", number),
            Member::Quoted("text", text.as_slice()),
            Member::Number("left_out", left_out),
        ],
    )?;
    append_known(known, out)?;
    append_began(began, out)?;
    append_clues(clues, out)?;
    out.extend_from_slice(b"}\n")
}

/// Appends the line of an answer that no page has, the answer, and the word of its call, as a member, if there is one.
#[tactic(auto, unfolding(crate::specs::Verdicts::but_for_member))]
fn append_but_for(
    numbers: &[u32],
    found: Option<Unlisted>,
    out: &mut Vec<u8>,
) -> Result<(), AllocError>
    ensures { OnOk result (out.new.items ≡ out.old.items ++ but_for_member numbers.now found) }
{
    let Some(it) = found else {
        return Ok(());
    };
    out.extend_from_slice(b",\"but_for\":")?;
    append_object(
        out,
        &[
            Member::Number("line", at_or(numbers, it.line.saturating_sub(1), 0)),
            Member::Quoted("answer", error_word(it.answer)),
            Member::Quoted("call", call_word(&it.request)),
        ],
    )
}

/// Appends the verdict on a legal history of so many lines and calls, with the answer that no page has, if its run has
/// one, and what is told of its end. So many lines are left out behind it. The lines have these numbers in the text.
///
/// # Errors
///
/// Out of memory.
pub fn append_legal(
    lines: u32,
    calls: u32,
    left_out: u32,
    numbers: &[u32],
    found: Option<Unlisted>,
    at_end: &AtEnd,
    out: &mut Vec<u8>,
) -> Result<(), AllocError>
    ensures { OnOk result (out.new.items ≡ out.old.items ++ legal_object lines calls left_out numbers.now found at_end.now) }
{
    append_members(
        out,
        b'{',
        &[
            Member::Quoted("verdict", b"legal"),
            Member::Number("lines", lines),
            Member::Number("calls", calls),
            Member::Number("left_out", left_out),
        ],
    )?;
    append_but_for(numbers, found, out)?;
    append_at_end(at_end, out)?;
    out.extend_from_slice(b"}\n")
}

/// Appends with which numbers, in place of an answer or a priority, a search found a run, as a member, if it looked.
#[tactic(auto, unfolding(crate::specs::Verdicts::found_member))]
fn append_found(found: &Option<Vec<u32>>, out: &mut Vec<u8>) -> Result<(), AllocError>
    ensures { OnOk result (out.new.items ≡ out.old.items ++ found_member found.now) }
{
    match found {
        Some(numbers) => append_number_array(b",\"found\":[", numbers.as_slice(), out),
        None => Ok(()),
    }
}

/// Appends the verdict on a history of which the search was given up: up to which line it is legal, and the next line.
///
/// # Errors
///
/// Out of memory.
#[tactic(auto, unfolding(crate::specs::Verdicts::undecided_front))]
pub fn append_undecided(
    unfound: &Unfound,
    left_out: u32,
    out: &mut Vec<u8>,
) -> Result<(), AllocError>
    ensures { OnOk result (out.new.items ≡ out.old.items ++ undecided_object unfound.now left_out) }
{
    let mut text = Text::new();
    line_text(unfound.line, &mut text);
    append_members(
        out,
        b'{',
        &[
            Member::Quoted("verdict", b"undecided"),
            Member::Number("line", unfound.number),
            Member::Quoted("text", text.as_slice()),
            Member::Number("left_out", left_out),
            Member::NumberOrNull("legal_up_to", unfound.up_to),
        ],
    )?;
    append_found(&unfound.found, out)?;
    out.extend_from_slice(b"}\n")
}
