ghost use Rattle.std.specs.Prelude.{◌≡◌, ◌≤◌, ◌↔◌, ◌-◌, ℕ, Bool, true, List, Option, length, map, reverse, take};
ghost use Rattle.std.specs.List.{list_all};
ghost use Rattle.pif_types.specs.Bounds.{Bounds};
ghost use Rattle.pif_model.specs.World.{World};
ghost use Rattle.pif_search.specs.declared.verdicts.Verdict.{Verdict};
ghost use Rattle.pif_search.specs.declared.verdicts.Verdict.TheVariants.{Illegal};
ghost use Rattle.pif_search.specs.Runs.{CanShow};
ghost use Rattle.pif_search.specs.Enough.{IsEnough};
ghost use Rattle.pif_search.specs.Verdicts.{IsVerdict};
ghost use Rattle.pif_rules_model.specs.Sets.{no_rules};
ghost use Rattle.pif_history_model.specs.declared.lines.Line.{Line};
ghost use Rattle.pif_history_model.specs.declared.labels.Label.{Label};
ghost use Rattle.pif_history_model.specs.declared.labels.Label.TheVariants.{Shown};
ghost use Rattle.pif_history_model.specs.Shown.{IsShown};
ghost use Rattle.pif_history_model.specs.Plain.{PlainConfiguration, PlainAdvances, plain_start_of};
ghost use Rattle.pif_history_model.specs.Searched.{hides};
ghost use Rattle.pif_history_model.specs.Notes.{Needs, tells_nothing};
ghost use Rattle.pif_history_model.specs.Forgetting.{StandsFor};
ghost use Rattle.pif_history_model.specs.Verdicts.{IsIllegal};
ghost use Rattle.pif_history_model.specs.AtOnce.{GoesAtOnce};
ghost use Rattle.pif_history_model.specs.Known.{KeepsTo, Counted, CoversKnown, GoesKnown, SaysOfAll, known_start_of};
ghost use Rattle.pif_history_model.specs.Tested.{are_kept};

/// A law: all lines of a history are shown by a run that keeps to the answers that they have, if they are shown at all;
/// and what such runs show is shown.
pub fn known_answers_show_as_much()
    ensures all { (limits : Bounds) (lines : List Line) (last : PlainConfiguration) → CanShow (PlainAdvances limits) hides (plain_start_of limits) (map (λ line. Shown line) (reverse lines)) last → (other : Counted) × CanShow (GoesKnown (PlainAdvances limits) lines) hides (known_start_of limits) (map (λ line. Shown line) (reverse lines)) other }
    ensures no_others { (limits : Bounds) (lines : List Line) (labels : List Label) (last : Counted) → CanShow (GoesKnown (PlainAdvances limits) lines) hides (known_start_of limits) labels last → CanShow (PlainAdvances limits) hides (plain_start_of limits) labels last.state }
{}

/// A law: a verdict of a search that keeps to the known answers speaks of all lines. The search takes all steps. It may
/// take those alone that are needed, if the lines tell nothing of the others.
pub fn known_answers_judge_all_lines()
    ensures by_all_steps { (limits : Bounds) (lines : List Line) (verdict : Verdict Label) → IsVerdict (GoesKnown (PlainAdvances limits) lines) hides (known_start_of limits) (map (λ line. Shown line) lines) verdict → SaysOfAll limits lines verdict }
    ensures by_needed_steps { (limits : Bounds) (all : Bool) (same : Option ℕ) (lines : List Line) (verdict : Verdict Label) → list_all (tells_nothing all same) lines ≡ true → IsVerdict (GoesKnown (Needs limits all) lines) hides (known_start_of limits) (map (λ line. Shown line) lines) verdict → SaysOfAll limits lines verdict }
{}

/// A law: if a search refutes the first lines of a history as a whole, and some run shows one less, the last of these
/// is the first illegal line. It doesn't matter where the search came to its end.
pub fn refuted_lines_end_in_the_illegal_one()
    ensures { (limits : Bounds) (lines : List Line) (count place : ℕ) → 1 ≤ count → count ≤ length lines → SaysOfAll limits (take count lines) (Illegal place) → IsShown limits (reverse (take (count - 1) lines)) → IsIllegal no_rules limits lines count }
{}

/// A law: a search of needed steps that keeps to the known answers may leave out a state for which another stands that
/// is kept.
pub fn known_answers_forget_as_much()
    ensures { (limits : Bounds) (all : Bool) (lines : List Line) → IsEnough (GoesKnown (Needs limits all) lines) hides (GoesKnown (Needs limits all) lines) (CoversKnown StandsFor) (known_start_of limits) }
{}

/// A law: a test of each thread by itself says whether all open calls of a state may be answered as the lines to come
/// say.
pub fn known_answers_are_kept_thread_by_thread()
    ensures { (rest : List Line) (world : World) → are_kept rest world ≡ true ↔ KeepsTo rest world }
{}

/// A law: a trylock that is known to be answered EBUSY may fail as soon as another thread owns its mutex, before all
/// other steps.
pub fn failing_trylocks_are_taken_at_once()
    ensures { (limits : Bounds) (all : Bool) (lines : List Line) → IsEnough (GoesKnown (Needs limits all) lines) hides (GoesAtOnce (Needs limits all) lines) (CoversKnown StandsFor) (known_start_of limits) }
{}
