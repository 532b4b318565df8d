//! The verdict on a history by those on its parts.
ghost use Rattle.std.specs.Prelude.{◌≡◌, List, map};
ghost use Rattle.pif_types.specs.Bounds.{Bounds};
ghost use Rattle.pif_history_model.specs.declared.lines.Line.{Line};
ghost use Rattle.pif_parts.specs.declared.parts.Part.{Part};
ghost use Rattle.pif_parts.specs.Parts.{AreOfParts, ArePartsOf, IsOfWhole, IsPlaced, span_of};

use crate::parts::Span;

/// The verdict on a part as it stands alone.
#[derive(Clone, Copy)]
pub enum PartVerdict {
    /// It is legal.
    Legal,
    /// Up to this line of it, from 1, it isn't. Lines are counted from the first with which it begins.
    Illegal(usize),
    /// That isn't known.
    Undecided,
}

/// The verdict on a history.
#[derive(Clone, Copy, PartialEq, Eq)]
pub enum WholeVerdict {
    /// It is legal.
    Legal,
    /// Up to this line, from 1, it isn't, and up to the one before it is.
    Illegal(usize),
    /// All parts before this one, from 0, are legal, and of this one nothing is known.
    Undecided(usize),
    /// The verdict on this part, from 0, is none on it: there is none, or it names a line that the part doesn't have.
    Foreign(usize),
}

/// What is told of a history whose part of this place and number isn't legal: up to this line of the part, from 1, it
/// isn't.
fn illegal_in(span: &Span, number: usize, line: usize) -> WholeVerdict
    ensures { IsPlaced span.now line result }
{
    if line <= span.before || line - span.before > span.count {
        return WholeVerdict::Foreign(number);
    }
    match span.first.checked_add(line - span.before) {
        Some(line) => WholeVerdict::Illegal(line),
        None => WholeVerdict::Foreign(number),
    }
}

/// The verdict on a history by the places of its parts, in order, and the verdicts on them: that of the first part that
/// isn't legal.
pub fn joined(spans: &[Span], verdicts: &[PartVerdict]) -> WholeVerdict
    ensures { (limits : Bounds) (lines : List Line) (parts : List Part) → ArePartsOf limits lines parts → spans.now ≡ map span_of parts → AreOfParts limits lines parts verdicts.now → IsOfWhole limits lines result }
{
    for number in 0..spans.len() {
        if number >= verdicts.len() {
            return WholeVerdict::Foreign(number);
        }
        let span = &spans[number];
        let verdict = &verdicts[number];
        match *verdict {
            PartVerdict::Legal => {}
            PartVerdict::Illegal(line) => return illegal_in(span, number, line),
            PartVerdict::Undecided => return WholeVerdict::Undecided(number),
        }
    }
    WholeVerdict::Legal
}
