ghost use Rattle.std.specs.Prelude.{◌≡◌, IfOk, IfSome};
ghost use Rattle.pif_history_model.specs.Verdicts.{IsLegal};
ghost use Rattle.pif_job_judge.specs.LeastRules.{IsBoundAnew, IsEnough, IsFirst, IsLeast};
ghost use Rattle.pif_rules.specs.Sets.{both};

use crate::holds::Holds;
use pif_history::judge_lines;
use pif_history_machine::Verdict;
use pif_history_model::{HistoryLimits, Label, Line};
use pif_history_told::{added, sets_of_size};
use pif_rules::{both, no_rules};
use pif_rules_model::{HoldLimits, Rules};
use pif_search::{Stop, WatchLines};
use std::alloc::Global;

/// A set of rules with which lines are legal.
#[derive(Drop)]
pub struct Enough {
    /// The set as it stands in the order of sets.
    pub set: Rules,
    /// The same set, with the bounds of `recursion` that the run needs, if they were found.
    pub rules: Rules,
    /// The labels of the steps of a run with these rules that shows the lines, newest first.
    pub labels: Vec<Label>,
}

/// What is found of the least set of rules.
#[derive(Drop)]
pub enum Needed {
    /// With these rules there is a run that shows the lines. With each set that comes before there is none.
    Legal(Enough),
    /// With these rules the search was given up at this line, from 1. With each set that comes before there is no run.
    Undecided(Rules, usize),
}

/// The bounds of `recursion` that the answers of these lines need; None if they need none.
fn bounds_needed(alloc: Global, lines: &[Line]) -> Result<Option<HoldLimits>, Stop> {
    let mut holds = Holds::new(alloc);
    for line in lines {
        holds.hear(line)?;
    }
    if holds.least == 255 && holds.most <= 255 {
        return Ok(None);
    }
    Ok(Some(HoldLimits {
        least: holds.least,
        most: holds.most,
    }))
}

/// A set with the bounds of `recursion` that these lines need beside those that hold in any case; None if they are no
/// others than its own.
fn bound_anew(
    alloc: Global,
    base: &Rules,
    set: &Rules,
    lines: &[Line],
) -> Result<Option<Rules>, Stop>
    ensures { IfOk result (λ o. IfSome o (IsBoundAnew set.now)) }
{
    if set.recursion.is_none() {
        return Ok(None);
    }
    let needed = Rules {
        recursion: bounds_needed(alloc, lines)?,
        ..no_rules()
    };
    let recursion = both(&needed, base).recursion;
    if recursion.is_none() || recursion == set.recursion {
        return Ok(None);
    }
    Ok(Some(Rules { recursion, ..*set }))
}

/// A set of rules with which a run of these labels shows the lines, with the bounds of `recursion` that they need.
///
/// # Errors
///
/// As `least`.
pub fn bounded<W: WatchLines>(
    alloc: Global,
    base: &Rules,
    set: &Rules,
    limits: HistoryLimits,
    lines: &[Line],
    labels: Vec<Label>,
    states: usize,
    watch: &mut W,
) -> Result<Enough, Stop>
    requires { IsLegal set.now limits lines.now labels.items }
    ensures set { IfOk result (λ e. e.set ≡ set.now) }
    ensures enough { IfOk result (IsEnough limits lines.now) }
{
    let set = *set;
    let Some(rules) = bound_anew(alloc, base, &set, lines)? else {
        return Ok(Enough {
            set,
            rules: set,
            labels,
        });
    };
    match judge_lines(alloc, &rules, limits, lines, states, watch)? {
        Verdict::Legal(witness) => Ok(Enough {
            set,
            rules,
            labels: witness,
        }),
        Verdict::Illegal(_) => Ok(Enough {
            set,
            rules: set,
            labels,
        }),
        Verdict::Undecided(_) => Ok(Enough {
            set,
            rules: set,
            labels,
        }),
    }
}

/// The first of these sets with which some run shows the lines, or with which the search is given up; `None` if there
/// is no run with any of them.
fn first_in<W: WatchLines>(
    alloc: Global,
    base: &Rules,
    sets: &Vec<Rules>,
    limits: HistoryLimits,
    lines: &[Line],
    states: usize,
    watch: &mut W,
) -> Result<Option<Needed>, Stop>
    ensures { IfOk result (IsFirst limits lines.now sets.now.items) }
{
    for place in 0..sets.len() {
        let rules = sets[place];
        match judge_lines(alloc, &rules, limits, lines, states, watch)? {
            Verdict::Legal(labels) => {
                let found = bounded(alloc, base, &rules, limits, lines, labels, states, watch)?;
                return Ok(Some(Needed::Legal(found)));
            }
            Verdict::Undecided(line) => return Ok(Some(Needed::Undecided(rules, line))),
            Verdict::Illegal(_) => {}
        }
    }
    Ok(None)
}

/// The least set of the rules that are asked for, beside those that hold in any case, with which some run shows the
/// lines of a history, oldest first. With all of them a run of these labels does, newest first. Sets come by the number
/// of rules, and then in the order of `RULES`. At most `states` states are made for a line with each. `watch` is told
/// of each search how far it has come.
///
/// # Errors
///
/// Out of memory, or a number got too great for a state. Then nothing is claimed.
pub fn least<W: WatchLines>(
    alloc: Global,
    base: &Rules,
    asked: &Rules,
    limits: HistoryLimits,
    lines: &[Line],
    labels: &[Label],
    states: usize,
    watch: &mut W,
) -> Result<Needed, Stop>
    requires { IsLegal (both asked.now base.now) limits lines.now labels.now }
    ensures { IfOk result (IsLeast base.now asked.now limits lines.now) }
{
    let rules = added(alloc, base, asked)?;
    for size in 0..rules.len() {
        let sets = sets_of_size(alloc, base, asked, size, rules.as_slice())?;
        let first = first_in(alloc, base, &sets, limits, lines, states, watch)?;
        if let Some(found) = first {
            return Ok(found);
        }
    }
    let copied = Vec::from_slice(alloc, labels)?;
    let all = both(asked, base);
    let last = bounded(alloc, base, &all, limits, lines, copied, states, watch)?;
    Ok(Needed::Legal(last))
}
