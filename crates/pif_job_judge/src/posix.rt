ghost use Rattle.std.specs.Prelude.{◌≡◌, ◌≤◌, ◌++◌, false, length, IfOk, OnOk, if◌then◌else◌};
ghost use Rattle.pif_history_model.specs.Verdicts.{IsIllegal, IsLegal};
ghost use Rattle.pif_history_text.specs.Histories.{limits_of};
ghost use Rattle.pif_history_text.specs.Reading.{IsPaired, heard_of};
ghost use Rattle.pif_rules_model.specs.declared.rules.Rule.{Rule as OneRule};
ghost use Rattle.pif_rules_model.specs.Sets.{has, is_of_posix, posix_rules};
ghost use Rattle.pif_rules.specs.Sets.{both};
ghost use Rattle.pif_job_judge.specs.Posix.{IsSaid, IsNumberedBy, against, allowed_at, allows_front, allows_object, allows_text, beside_text, forbidden_from, forbids_text, line_said_object, posix_end, posix_object, posix_text, rules_said, said_front, under, undecided_text, undefined_object, undefined_text, verdict_said};

use crate::faults::Ended;
use crate::judging::Numbered;
use crate::search::{Enough, Needed, bounded, least};
use crate::undefined::{Begun, undefined_among};
use pif_history::judge_lines;
use pif_history_machine::Verdict;
use pif_history_model::{HistoryLimits, Label, Line};
use pif_history_text::{History, line_text};
use pif_history_told::{Unlisted, number_at, push_but_for, push_needed, rule_names, rules_of_run};
use pif_rules::{both, is_any, no_rules, posix_rules, push_names};
use pif_rules_model::Rules;
use pif_search::{Stop, WatchLines};
use pif_text::{Member, Text, append_decimal, append_members};
use std::alloc::Global;

/// What POSIX says of the lines of a history that weren't found to be legal with the rules that hold.
#[derive(Drop)]
pub enum Says {
    /// It allows them: with these rules there is a run that shows them. With each set that comes before there is none.
    Least(Enough),
    /// It allows them: with these rules there is a run that shows them, and perhaps with fewer.
    Found(Enough),
    /// With all its rules no run shows the lines up to this one, from 1, and some run shows those before.
    Forbids(usize),
    /// With all its rules no run shows the lines up to this one, from 1, and some run shows those before. In a run of
    /// the lines before it POSIX leaves undefined what the call does that begins so.
    Undefined(usize, Begun),
    /// The search with all its rules was given up at this line, from 1.
    Undecided(usize),
}

/// The rules with which a run was found that shows these lines, where it isn't known whether fewer do: those of its
/// steps, if a run is found with these alone, and else all.
fn found_with<V: WatchLines>(
    alloc: Global,
    base: &Rules,
    all: &Rules,
    limits: HistoryLimits,
    lines: &[Line],
    labels: Vec<Label>,
    states: usize,
    watch: &mut V,
) -> Result<Says, Stop>
    requires { IsLegal all.now limits lines.now labels.items }
    ensures { IfOk result (IsSaid base.now limits lines.now) }
{
    let used = both(&rules_of_run(alloc, all, limits, labels.as_slice())?, base);
    if let Verdict::Legal(fewer) = judge_lines(alloc, &used, limits, lines, states, watch)? {
        let found = bounded(alloc, base, &used, limits, lines, fewer, states, watch)?;
        return Ok(Says::Found(found));
    }
    let found = bounded(alloc, base, all, limits, lines, labels, states, watch)?;
    Ok(Says::Found(found))
}

/// The rules of POSIX that these lines need, which are legal with all of them by a run of these labels.
fn allowed_with<V: WatchLines>(
    alloc: Global,
    base: &Rules,
    all: &Rules,
    limits: HistoryLimits,
    lines: &[Line],
    labels: Vec<Label>,
    states: usize,
    watch: &mut V,
) -> Result<Says, Stop>
    requires all { all.now ≡ both posix_rules base.now }
    requires legal { IsLegal all.now limits lines.now labels.items }
    ensures { IfOk result (IsSaid base.now limits lines.now) }
{
    let posix = posix_rules();
    match least(
        alloc,
        base,
        &posix,
        limits,
        lines,
        labels.as_slice(),
        states,
        watch,
    )? {
        Needed::Legal(found) => Ok(Says::Least(found)),
        Needed::Undecided(_, _) => found_with(
            alloc, base, all, limits, lines, labels, states, watch,
        ),
    }
}

/// That POSIX forbids these lines from the nth on; or that it may leave them undefined.
fn forbidden_with<V: WatchLines>(
    alloc: Global,
    base: &Rules,
    all: &Rules,
    limits: HistoryLimits,
    lines: &[Line],
    count: usize,
    states: usize,
    watch: &mut V,
) -> Result<Says, Stop>
    requires all { all.now ≡ both posix_rules base.now }
    requires within { (1 ≤ count) × (count ≤ length lines.now) }
    requires illegal { IsIllegal all.now limits lines.now count }
    ensures { IfOk result (IsSaid base.now limits lines.now) }
{
    let before = &lines[..count - 1];
    match undefined_among(alloc, all, limits, before, states, watch)? {
        Some(begun) => Ok(Says::Undefined(count, begun)),
        None => Ok(Says::Forbids(count)),
    }
}

/// What POSIX says of lines, oldest first, beside the rules that hold in any case. At most `states` states are made for
/// a line with each set of rules. `watch` is told of each search how far it has come.
///
/// # Errors
///
/// Out of memory, or a number got too great for a state. Then nothing is claimed.
fn posix_of<V: WatchLines>(
    alloc: Global,
    base: &Rules,
    limits: HistoryLimits,
    lines: &[Line],
    states: usize,
    watch: &mut V,
) -> Result<Says, Stop>
    ensures { IfOk result (IsSaid base.now limits lines.now) }
{
    let all = both(&posix_rules(), base);
    match judge_lines(alloc, &all, limits, lines, states, watch)? {
        Verdict::Legal(labels) => {
            allowed_with(alloc, base, &all, limits, lines, labels, states, watch)
        }
        Verdict::Illegal(line) => {
            forbidden_with(alloc, base, &all, limits, lines, line, states, watch)
        }
        Verdict::Undecided(line) => Ok(Says::Undecided(line)),
    }
}

/// Of these rules those that POSIX doesn't allow.
fn against(rules: &Rules) -> Rules
    ensures value { result ≡ against rules.now }
    ensures each { (rule : OneRule) → has result rule ≡ (if is_of_posix rule then false else has rules.now rule) }
{
    Rules {
        steal: rules.steal,
        own_errorcheck: rules.own_errorcheck,
        any_consistent: rules.any_consistent,
        lost_signal: rules.lost_signal,
        revives: rules.revives,
        ..no_rules()
    }
}

/// Appends the rules that hold against POSIX, after a word, if there are some.
fn push_beside(word: &[u8], base: &Rules, out: &mut Vec<u8>) -> Result<(), Stop>
    ensures { OnOk result (out.new.items ≡ out.old.items ++ beside_text word.now base.now) }
{
    let beside = against(base);
    if !is_any(&beside) {
        return Ok(());
    }
    out.extend_from_slice(word)?;
    push_names(&beside, out)?;
    Ok(())
}

/// Appends that POSIX allows lines with these rules, and whether perhaps fewer are enough.
fn push_allows_front(
    alloc: Global,
    base: &Rules,
    rules: &Rules,
    fewer: &[u8],
    out: &mut Vec<u8>,
) -> Result<(), Stop>
    ensures { OnOk result (out.new.items ≡ out.old.items ++ allows_front base.now rules.now fewer.now) }
{
    out.extend_from_slice(b"POSIX allows it")?;
    push_beside(b" with", base, out)?;
    push_needed(alloc, base, rules, out)?;
    out.extend_from_slice(fewer)?;
    Ok(())
}

/// Appends that POSIX allows lines with these rules, by a run with this answer that no page has, if it has one.
fn push_allows(
    alloc: Global,
    base: &Rules,
    rules: &Rules,
    fewer: &[u8],
    numbers: &[u32],
    found: Option<Unlisted>,
    out: &mut Vec<u8>,
) -> Result<(), Stop>
    ensures { OnOk result (out.new.items ≡ out.old.items ++ allows_text base.now rules.now fewer.now numbers.now found) }
{
    push_allows_front(alloc, base, rules, fewer, out)?;
    push_but_for(numbers, found, out)?;
    out.extend_from_slice(b"\n")?;
    Ok(())
}

/// Appends that POSIX forbids the lines from the one of this number on.
fn push_forbids(base: &Rules, number: u32, out: &mut Vec<u8>) -> Result<(), Stop>
    ensures { OnOk result (out.new.items ≡ out.old.items ++ forbids_text base.now number) }
{
    out.extend_from_slice(b"POSIX")?;
    push_beside(b" and", base, out)?;
    if is_any(&against(base)) {
        out.extend_from_slice(b" forbid it from ")?;
    } else {
        out.extend_from_slice(b" forbids it from ")?;
    }
    append_decimal(out, u64::from(number))?;
    out.extend_from_slice(b"\n")?;
    Ok(())
}

/// Appends that POSIX may leave undefined what the call does that begins at the line of this number.
fn push_undefined(base: &Rules, number: u32, begun: &Begun, out: &mut Vec<u8>) -> Result<(), Stop>
    ensures { OnOk result (out.new.items ≡ out.old.items ++ undefined_text base.now number begun.now) }
{
    let mut line = Text::new();
    line_text(Line::Begin(begun.thread, begun.request), &mut line);
    out.extend_from_slice(b"POSIX")?;
    push_beside(b" and", base, out)?;
    out.extend_from_slice(b" may leave it undefined: ")?;
    append_decimal(out, u64::from(number))?;
    out.extend_from_slice(b": ")?;
    out.extend_from_slice(line.as_slice())?;
    out.extend_from_slice(b"\n")?;
    Ok(())
}

/// Appends that the search was given up with all rules of POSIX.
fn push_undecided(base: &Rules, out: &mut Vec<u8>) -> Result<(), Stop>
    ensures { OnOk result (out.new.items ≡ out.old.items ++ undecided_text base.now) }
{
    out.extend_from_slice(b"POSIX")?;
    push_beside(b" and", base, out)?;
    out.extend_from_slice(b": undecided\n")?;
    Ok(())
}

/// The number in the text of the line that is named, if one is.
pub fn number_of(history: &History, says: &Says) -> u32
    requires paired { IsPaired history.now }
    requires said { IsSaid history.now.allowed (limits_of (heard_of history.now)) history.now.shown.items says.now }
    ensures { IsNumberedBy (heard_of history.now) says.now result }
{
    match says {
        Says::Least(_) | Says::Found(_) => 0,
        Says::Forbids(line) => number_at(history, *line),
        Says::Undefined(_, begun) => number_at(history, begun.count),
        Says::Undecided(line) => number_at(history, *line),
    }
}

/// Appends what POSIX says, which names the line of this number if it names one; and this answer that no page has, if
/// there is one, of a run by which it allows the lines. These have these numbers in the text.
///
/// # Errors
///
/// Out of memory.
pub fn push_says(
    alloc: Global,
    base: &Rules,
    says: &Says,
    number: u32,
    numbers: &[u32],
    found: Option<Unlisted>,
    out: &mut Vec<u8>,
) -> Result<(), Stop>
    ensures { OnOk result (out.new.items ≡ out.old.items ++ posix_text base.now says.now number numbers.now found) }
{
    match says {
        Says::Least(e) => push_allows(alloc, base, &e.rules, b"", numbers, found, out),
        Says::Found(e) => {
            push_allows(
                alloc,
                base,
                &e.rules,
                b", perhaps fewer",
                numbers,
                found,
                out,
            )
        }
        Says::Forbids(_) => push_forbids(base, number, out),
        Says::Undefined(_, begun) => push_undefined(base, number, begun, out),
        Says::Undecided(_) => push_undecided(base, out),
    }
}

/// How it ends if POSIX allows what the machine doesn't.
fn allowed_at(told: Ended) -> Ended
    ensures { result ≡ allowed_at told }
{
    match told {
        Ended::Illegal(line) | Ended::Undecided(line) => Ended::PosixAllows(line),
        Ended::Legal | Ended::NoCall | Ended::PosixAllows(_) => told,
        Ended::PosixUndefined(_) | Ended::Log(_, _) => told,
    }
}

/// How it ends by what POSIX says, which names the line of this number if it names one.
pub fn end_of(told: Ended, says: &Says, number: u32) -> Ended
    ensures { result ≡ posix_end told says.now number }
{
    match says {
        Says::Least(_) | Says::Found(_) => allowed_at(told),
        Says::Forbids(_) => Ended::Illegal(u64::from(number)),
        Says::Undefined(_, _) => Ended::PosixUndefined(u64::from(number)),
        Says::Undecided(_) => Ended::Undecided(u64::from(number)),
    }
}

/// What POSIX says of a history beside the rules that it allows.
///
/// # Errors
///
/// That of a search.
pub fn said_of<V: WatchLines>(
    alloc: Global,
    states: u32,
    history: &History,
    watch: &mut V,
) -> Result<Says, Stop>
    ensures { IfOk result (IsSaid history.now.allowed (limits_of (heard_of history.now)) history.now.shown.items) }
{
    let limits = history.limits();
    let lines = history.shown.as_slice();
    let mut numbered = Numbered::of(history, watch);
    posix_of(
        alloc,
        &history.allowed,
        limits,
        lines,
        states as usize,
        &mut numbered,
    )
}

/// The line from which on it forbids them, from 1, if it does, and nothing is undefined before.
pub fn forbidden_from(says: &Says) -> Option<usize>
    ensures { result ≡ forbidden_from says.now }
{
    match says {
        Says::Forbids(line) => Some(*line),
        Says::Least(_) | Says::Found(_) => None,
        Says::Undefined(_, _) | Says::Undecided(_) => None,
    }
}

/// What is said, as a verdict on the lines with the rules with which it is said.
pub fn verdict_said(says: Says) -> Verdict
    ensures { result ≡ verdict_said says }
{
    match says {
        Says::Forbids(line) | Says::Undefined(line, _) => Verdict::Illegal(line),
        Says::Undecided(line) => Verdict::Undecided(line),
        Says::Least(e) | Says::Found(e) => Verdict::Legal(e.labels),
    }
}

/// The rules with which POSIX says this, if those of base hold beside it.
fn rules_said(base: &Rules, says: &Says) -> Rules
    ensures { result ≡ rules_said base.now says.now }
{
    match says {
        Says::Least(e) | Says::Found(e) => e.rules,
        Says::Forbids(_) | Says::Undefined(_, _) | Says::Undecided(_) => {
            both(&posix_rules(), base)
        }
    }
}

/// A history with the rules with which POSIX says this.
pub fn under(says: &Says, history: History) -> History
    ensures heard { heard_of result ≡ under says.now (heard_of history) }
    ensures paired { IsPaired history → IsPaired result }
{
    let mut history = history;
    history.allowed = rules_said(&history.allowed, says);
    history
}

/// Appends, in JSON, this word of what POSIX says, and the rules that hold against it.
#[tactic(auto, unfolding(crate::specs::Posix::said_front))]
fn append_said(
    alloc: Global,
    word: &'static [u8],
    base: &Rules,
    out: &mut Vec<u8>,
) -> Result<(), Stop>
    ensures { OnOk result (out.new.items ≡ out.old.items ++ said_front word.now base.now) }
{
    let beside = rule_names(alloc, &no_rules(), &against(base))?;
    append_members(
        out,
        b'{',
        &[
            Member::Quoted("posix", word),
            Member::Quoted("with", beside.as_slice()),
        ],
    )?;
    Ok(())
}

/// Appends, in JSON, that POSIX allows lines with these rules, and whether they are the first set.
fn append_allows(
    alloc: Global,
    base: &Rules,
    rules: &Rules,
    least: bool,
    out: &mut Vec<u8>,
) -> Result<(), Stop>
    ensures { OnOk result (out.new.items ≡ out.old.items ++ allows_object base.now rules.now least) }
{
    append_said(alloc, b"allows", base, out)?;
    let names = rule_names(alloc, base, rules)?;
    append_members(
        out,
        b',',
        &[
            Member::Quoted("rules", names.as_slice()),
            Member::Bool("least", least),
        ],
    )?;
    out.extend_from_slice(b"}\n")?;
    Ok(())
}

/// Appends, in JSON, what POSIX says of the line of this number.
fn append_line_said(
    alloc: Global,
    word: &'static [u8],
    base: &Rules,
    number: u32,
    out: &mut Vec<u8>,
) -> Result<(), Stop>
    ensures { OnOk result (out.new.items ≡ out.old.items ++ line_said_object word.now base.now number) }
{
    append_said(alloc, word, base, out)?;
    append_members(out, b',', &[Member::Number("line", number)])?;
    out.extend_from_slice(b"}\n")?;
    Ok(())
}

/// Appends, in JSON, that POSIX may leave undefined what the call does that begins at the line of this number.
fn append_undefined(
    alloc: Global,
    base: &Rules,
    number: u32,
    begun: &Begun,
    out: &mut Vec<u8>,
) -> Result<(), Stop>
    ensures { OnOk result (out.new.items ≡ out.old.items ++ undefined_object base.now number begun.now) }
{
    let mut line = Text::new();
    line_text(Line::Begin(begun.thread, begun.request), &mut line);
    append_said(alloc, b"undefined", base, out)?;
    append_members(
        out,
        b',',
        &[
            Member::Number("line", number),
            Member::Quoted("text", line.as_slice()),
        ],
    )?;
    out.extend_from_slice(b"}\n")?;
    Ok(())
}

/// Appends what POSIX says as a line of JSON, which names the line of this number if it names one.
///
/// # Errors
///
/// Out of memory.
pub fn append_says(
    alloc: Global,
    base: &Rules,
    says: &Says,
    number: u32,
    out: &mut Vec<u8>,
) -> Result<(), Stop>
    ensures { OnOk result (out.new.items ≡ out.old.items ++ posix_object base.now says.now number) }
{
    match says {
        Says::Least(e) => append_allows(alloc, base, &e.rules, true, out),
        Says::Found(e) => append_allows(alloc, base, &e.rules, false, out),
        Says::Forbids(_) => append_line_said(alloc, b"forbids", base, number, out),
        Says::Undefined(_, begun) => append_undefined(alloc, base, number, begun, out),
        Says::Undecided(_) => append_line_said(alloc, b"undecided", base, number, out),
    }
}
