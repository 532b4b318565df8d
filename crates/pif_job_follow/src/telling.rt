ghost use Rattle.std.specs.Prelude.{◌≡◌, IfOk};
ghost use Rattle.pif_history_text.specs.Histories.{Heard};
ghost use Rattle.pif_history_text.specs.Verdicts.{illegal_line};
ghost use Rattle.pif_history_told.specs.WhyTexts.{legal_up_to_text};
ghost use Rattle.pif_job_parts.specs.Joining.{legal_end};
ghost use Rattle.pif_parts.specs.declared.joining.WholeVerdict.TheVariants as whole;
ghost use Rattle.pif_job_follow.specs.Followed.{IsFollowed};
ghost use Rattle.pif_job_follow.specs.Telling.{IsSaid, SaysIllegal, SaysUndecided};

use crate::followed::Followed;
use crate::open_calls::open_calls;
use pif_history_model::{Fact, Line};
use pif_history_text::push_illegal;
use pif_history_told::{AtEnd, Unfound, line_at, number_at, tell_legal, tell_undecided};
use pif_job_parts::PartsFault;
use pif_parts::WholeVerdict;
use pif_script_model::CliFault;
use pif_types::Request;
use std::alloc::{AllocError, Global};

/// What is told of a history, and how that ends.
#[derive(Drop)]
pub struct Said {
    /// What is written.
    pub text: Vec<u8>,
    /// How it ends.
    pub end: Result<(), PartsFault>,
}

/// The fault if memory is refused.
const NO_MEMORY: PartsFault = PartsFault::Cli(CliFault::NoMemory);

/// How it ends for a legal history of so many calls.
fn legal_end(calls: usize) -> Result<(), PartsFault>
    ensures { result ≡ legal_end calls }
{
    if calls == 0 {
        Err(PartsFault::NoCall)
    } else {
        Ok(())
    }
}

/// What is told of a legal history.
fn said_legal(alloc: Global, followed: &Followed) -> Result<Said, AllocError>
    ensures { IfOk result (λ said. (full : Heard) → IsFollowed full followed.now → IsSaid full whole.Legal said.text.items said.end) }
{
    let _no_request: Option<Request> = None;
    let _no_fact: Option<Fact> = None;
    let later = &followed.later;
    let at_end = AtEnd {
        calls: open_calls(alloc, later.shown.as_slice(), later.numbers.as_slice())?,
        deadlock: false,
    };
    let mut text = Vec::new(alloc);
    tell_legal(
        later.count,
        followed.calls,
        &[],
        None,
        &at_end,
        &[],
        &mut text,
    )?;
    Ok(Said {
        text,
        end: legal_end(followed.calls),
    })
}

/// The text of an illegal line of this number.
fn illegal_text(alloc: Global, number: u32, line: Line) -> Result<Vec<u8>, AllocError>
    ensures { IfOk result (λ text. text.items ≡ illegal_line number line) }
{
    let mut text = Vec::new(alloc);
    push_illegal(&mut text, number, line)?;
    Ok(text)
}

/// What is told of a history whose line of this place, from 1, is the first up to which it isn't legal.
fn said_illegal(alloc: Global, followed: &Followed, line: usize) -> Result<Said, PartsFault>
    ensures { IfOk result (λ said. (full : Heard) → IsFollowed full followed.now → SaysIllegal full line said.text.items said.end) }
{
    let _no_request: Option<Request> = None;
    let _no_fact: Option<Fact> = None;
    let front = followed.judged.count();
    if line <= front {
        return Err(NO_MEMORY);
    }
    let count = line - front;
    let later = &followed.later;
    if count > later.shown.len() || count > later.numbers.len() {
        return Err(NO_MEMORY);
    }
    let number = number_at(later, count);
    match illegal_text(alloc, number, line_at(later, count)) {
        Ok(text) => Ok(Said {
            text,
            end: Err(PartsFault::Cli(CliFault::Differs(u64::from(number)))),
        }),
        Err(_) => Err(NO_MEMORY),
    }
}

/// The text of a history that is legal up to a line, and undecided from another one.
fn undecided_text(alloc: Global, unfound: &Unfound) -> Result<Vec<u8>, AllocError>
    ensures { IfOk result (λ text. text.items ≡ legal_up_to_text unfound.now) }
{
    let mut text = Vec::new(alloc);
    tell_undecided(unfound, &mut text)?;
    Ok(text)
}

/// What is told of a history of whose open lines it isn't known whether they are legal: the first of them is named.
fn said_undecided(alloc: Global, followed: &Followed) -> Result<Said, PartsFault>
    ensures { IfOk result (λ said. (full : Heard) → IsFollowed full followed.now → SaysUndecided full said.text.items said.end) }
{
    let _no_request: Option<Request> = None;
    let _no_fact: Option<Fact> = None;
    let later = &followed.later;
    if later.shown.is_empty() || later.numbers.is_empty() {
        return Err(NO_MEMORY);
    }
    let unfound = Unfound {
        up_to: followed.up_to,
        number: later.numbers[0],
        line: later.shown[0],
        found: None,
    };
    match undecided_text(alloc, &unfound) {
        Ok(text) => Ok(Said {
            text,
            end: Err(PartsFault::Undecided(u64::from(unfound.number))),
        }),
        Err(_) => Err(NO_MEMORY),
    }
}

/// What is told of a history of which this is so.
///
/// # Errors
///
/// Out of memory.
pub fn said_of(
    alloc: Global,
    followed: &Followed,
    verdict: WholeVerdict,
) -> Result<Said, PartsFault>
    ensures { IfOk result (λ said. (full : Heard) → IsFollowed full followed.now → IsSaid full verdict said.text.items said.end) }
{
    let _no_request: Option<Request> = None;
    let _no_fact: Option<Fact> = None;
    match verdict {
        WholeVerdict::Legal => match said_legal(alloc, followed) {
            Ok(said) => Ok(said),
            Err(_) => Err(NO_MEMORY),
        },
        WholeVerdict::Illegal(line) => said_illegal(alloc, followed, line),
        WholeVerdict::Undecided(_) => said_undecided(alloc, followed),
        WholeVerdict::Foreign(_) => Err(NO_MEMORY),
    }
}
