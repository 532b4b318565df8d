ghost use Rattle.std.specs.Prelude.{◌≡◌, ◌≤◌, ℕ, List, Option, false, true, IfOk, OnOk, length, vec_len};
ghost use Rattle.pif_types.specs.Bounds.{Bounds};
ghost use Rattle.pif_history_model.specs.declared.lines.Line.{Line};
ghost use Rattle.pif_history_text.specs.Histories.{after_line, next_number};
ghost use Rattle.pif_history_text.specs.Lines.{said_in, text_of_line};
ghost use Rattle.pif_history_text.specs.Reading.{IsPaired, heard_of};
ghost use Rattle.pif_job_parts.specs.Splitting.{HasNoRules};
ghost use Rattle.pif_job_follow.specs.Fronts.{HearsNext, IsFrontOf, allows};

use pif_history_model::{Fact, Line, Protocol};
use pif_history_text::{History, Said, said_of, text_of_line};
use pif_job_parts::PartsFault;
use pif_rules::is_any;
use pif_rules_model::Rules;
use pif_script_model::CliFault;
use pif_text::Cause;
use pif_types::Request;

/// The most lines of a text that is followed.
const MOST_LINES: u32 = 268_435_456;

/// Whether a line of this number, of these bytes, allows rules.
fn allows(number: u32, line: &[u8]) -> bool
    ensures { result ≡ allows (said_in (text_of_line number line.now)) }
{
    let _no_request: Option<Request> = None;
    let _no_fact: Option<Fact> = None;
    match said_of(text_of_line(number, line)) {
        Some(Said::Allow(_)) => true,
        _ => false,
    }
}

/// Whether there are no rules, no mutexes of PTHREAD_PRIO_NONE, and no lines `process`, `halted` and `resumed`.
fn has_no_rules(rules: &Rules) -> bool
    ensures { result ≡ true → HasNoRules rules.now }
{
    !is_any(rules) && !rules.prio_none && !rules.extra_lines
}

/// Hears the next line, of these bytes. No line `allow` may stand there, and no line that needs rules.
///
/// # Errors
///
/// That of the line; `Rules` and `Uncut`; `NoMemory`.
pub fn hear_line(later: &mut History, line: &[u8]) -> Result<(), PartsFault>
    ensures heard { OnOk result ((front : List Line) (numbers : List ℕ) (named : Option Bounds) → IsFrontOf front numbers named (heard_of later.old)
        → HearsNext front numbers named (heard_of later.old) line.now (heard_of later.new)) }
    ensures rules { OnOk result (HasNoRules later.new.allowed) }
    ensures paired { OnOk result (IsPaired later.old → IsPaired later.new) }
{
    let _no_request: Option<Request> = None;
    let _no_fact: Option<Fact> = None;
    if later.count >= MOST_LINES {
        let number = u64::from(later.count).saturating_add(1);
        return Err(PartsFault::Cli(CliFault::Script(number, Cause::Size)));
    }
    let number = later.count + 1;
    let before = later.shown.len();
    match later.hear(line) {
        Ok(()) => {}
        Err(fault) => return Err(PartsFault::Cli(fault)),
    }
    if later.shown.len() == before && allows(number, line) {
        return Err(PartsFault::Rules);
    }
    if has_no_rules(&later.allowed) {
        Ok(())
    } else {
        Err(PartsFault::Uncut(u64::from(number)))
    }
}
