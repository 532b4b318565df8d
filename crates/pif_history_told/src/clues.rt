//! Clues to what is wrong with an illegal line, which follow what is possible there.
ghost use Rattle.std.specs.Prelude.{◌≡◌, ◌++◌, OnOk};
ghost use Rattle.pif_history_told.specs.Clues.{clues_members, clues_text, legal_if_member, legal_if_text};

use crate::in_the_way::{InTheWay, append_in_the_way, tell_in_the_way};
use pif_history_text::push_answer;
use pif_text::{Member, append_decimal, append_object};
use pif_types::Answer;
use std::alloc::AllocError;

/// Another answer before an illegal line, with which the lines up to that would be legal.
#[derive(Clone, Copy)]
pub struct LegalIf {
    /// The number of the line that would have this answer, from 1.
    pub number: u32,
    /// The answer.
    pub answer: Answer,
}

/// Clues to what is wrong with an illegal line, each if it was found. They follow what is possible there, in this
/// order.
#[derive(Clone, Copy)]
pub struct Clues {
    /// What is in the way of the line, in every state to which the lines before lead.
    pub in_the_way: Option<InTheWay>,
    /// Another answer before the line, with which the lines up to it would be legal.
    pub legal_if: Option<LegalIf>,
}

/// Appends the line that says with which answer the lines would be legal, if there is one.
fn tell_legal_if(found: Option<LegalIf>, out: &mut Vec<u8>) -> Result<(), AllocError>
    ensures { OnOk result (out.new.items ≡ out.old.items ++ legal_if_text found) }
{
    let Some(it) = found else {
        return Ok(());
    };
    out.extend_from_slice(b"legal if line ")?;
    append_decimal(out, u64::from(it.number))?;
    out.extend_from_slice(b" had ")?;
    push_answer(out, it.answer)?;
    out.extend_from_slice(b"\n")
}

/// Appends what is told of an illegal line, line by line.
///
/// # Errors
///
/// Out of memory.
pub fn tell_clues(clues: &Clues, out: &mut Vec<u8>) -> Result<(), AllocError>
    ensures { OnOk result (out.new.items ≡ out.old.items ++ clues_text clues.now) }
{
    tell_in_the_way(&clues.in_the_way, out)?;
    tell_legal_if(clues.legal_if, out)
}

/// Appends with which answer the lines would be legal, as a member, if there is one.
#[tactic(auto, unfolding(crate::specs::Clues::legal_if_member))]
fn append_legal_if(found: Option<LegalIf>, out: &mut Vec<u8>) -> Result<(), AllocError>
    ensures { OnOk result (out.new.items ≡ out.old.items ++ legal_if_member found) }
{
    let Some(it) = found else {
        return Ok(());
    };
    out.extend_from_slice(b",\"legal_if\":")?;
    append_object(
        out,
        &[
            Member::Number("line", it.number),
            Member::Number("answer", it.answer),
        ],
    )
}

/// Appends what is told of an illegal line, as members.
pub(crate) fn append_clues(clues: &Clues, out: &mut Vec<u8>) -> Result<(), AllocError>
    ensures { OnOk result (out.new.items ≡ out.old.items ++ clues_members clues.now) }
{
    append_in_the_way(&clues.in_the_way, out)?;
    append_legal_if(clues.legal_if, out)
}
