//! By which rules, within which limits, and how long is searched.
ghost use Rattle.std.specs.Prelude.{◌≡◌, ◌++◌, [], ◌∷◌, true, IfOk, IfSome};
ghost use Rattle.pif_history_model.specs.Verdicts.{IsLegal};
ghost use Rattle.pif_judge_reasons.specs.Found.{IsLegalThen};

use pif_history::find_run;
use pif_history_model::{HistoryLimits, Label, Line};
use pif_rules_model::Rules;
use pif_search::{Stop, WatchLines, push};
use std::alloc::Global;

/// By which rules, within which limits, and how long is searched.
#[derive(Clone, Copy)]
pub struct Terms {
    /// The rules that are allowed.
    pub rules: Rules,
    /// How much may be added.
    pub limits: HistoryLimits,
    /// The most states that are made for one line.
    pub states: usize,
}

impl Terms {
    /// The labels, newest first, of a run that shows these lines, oldest first, if a guided search finds one. `None`
    /// says nothing. `watch` is told of each line, and may end the search.
    ///
    /// # Errors
    ///
    /// That of a search.
    pub fn run_of<V: WatchLines>(
        &self,
        alloc: Global,
        lines: &[Line],
        watch: &mut V,
    ) -> Result<Option<Vec<Label>>, Stop>
        ensures { IfOk result (λ o. IfSome o (λ v. IsLegal self.now.rules self.now.limits lines.now v.items)) }
    {
        find_run(alloc, &self.rules, self.limits, lines, self.states, watch)
    }

    /// Whether a guided search finds a run that shows these lines, oldest first, and then this one.
    ///
    /// # Errors
    ///
    /// That of a search.
    pub fn finds_next<V: WatchLines>(
        &self,
        alloc: Global,
        before: &[Line],
        line: Line,
        watch: &mut V,
    ) -> Result<bool, Stop>
        ensures { IfOk result (λ b. b ≡ true → IsLegalThen self.now.rules self.now.limits before.now line) }
    {
        let mut lines = Vec::from_slice(alloc, before)?;
        push(&mut lines, line)?;
        match self.run_of(alloc, lines.as_slice(), watch)? {
            Some(_) => Ok(true),
            None => Ok(false),
        }
    }
}
