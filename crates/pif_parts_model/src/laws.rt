ghost use Rattle.std.specs.Prelude.{◌≡◌, ◌≤◌, ◌+◌, ◌↔◌, ℕ, List, ◌++◌, length, map, reverse};
ghost use Rattle.pif_types.specs.Bounds.{Bounds};
ghost use Rattle.pif_search.specs.Runs.{CanShow};
ghost use Rattle.pif_posix_steps.specs.Alike.{IsAlike};
ghost use Rattle.pif_uses_model.specs.Uses.{without_uses};
ghost use Rattle.pif_rules_model.specs.Sets.{no_rules};
ghost use Rattle.pif_history_model.specs.declared.lines.Line.{Line};
ghost use Rattle.pif_history_model.specs.declared.labels.Label.TheVariants.{Shown};
ghost use Rattle.pif_history_model.specs.Plain.{PlainConfiguration, PlainAdvances, plain_start_of};
ghost use Rattle.pif_history_model.specs.Searched.{hides};
ghost use Rattle.pif_history_model.specs.Shown.{IsShown};
ghost use Rattle.pif_history_model.specs.Forgetting.{StandsFor};
ghost use Rattle.pif_history_model.specs.Verdicts.{IsIllegal};
ghost use Rattle.pif_parts_model.specs.Quiet.{IsQuiet};
ghost use Rattle.pif_parts_model.specs.Resting.{world_by, rest_by};
ghost use Rattle.pif_parts_model.specs.FewUses.{AreSameButForUses, MayStandFor, StaysBelow};
ghost use Rattle.pif_parts_model.specs.Parts.{IsShownFrom, IsIllegalFrom};
ghost use Rattle.pif_parts_model.specs.Later.{later_line, later, with_time};

/// A law: lines behind which a history is quiet tell the last state of each run that shows them, but for what no step
/// sees. That is so of runs of the POSIX machine, and of those of the machine that is searched.
pub fn quiet_lines_tell_the_state()
    ensures runs { (limits : Bounds) (lines : List Line) → IsQuiet lines → (shown : IsShown limits lines) → IsAlike shown.last (world_by limits lines) }
    ensures searched { (limits : Bounds) (lines : List Line) (last : PlainConfiguration) → IsQuiet lines → CanShow (PlainAdvances limits) hides (plain_start_of limits) (map (λ line. Shown line) lines) last → StandsFor last (rest_by limits lines) }
{}

/// A law: a history that is quiet behind some of its lines is legal exactly if these are, and the lines behind them are
/// from the state in which it rests there.
pub fn quiet_lines_cut_a_history()
    ensures { (limits : Bounds) (before later : List Line) → IsQuiet before → IsShown limits (later ++ before) ↔ (IsShown limits before × IsShownFrom limits (rest_by limits before) later) }
{}

/// A law: the first illegal line of a part is that of the whole. It is so of the first part, and of what is behind it,
/// if the first part is legal, and quiet at its end. Lines are oldest first.
pub fn parts_have_the_verdict_of_the_whole()
    ensures first { (limits : Bounds) (first second : List Line) (count : ℕ) → IsIllegal no_rules limits first count → IsIllegal no_rules limits (first ++ second) count }
    ensures second { (limits : Bounds) (first second : List Line) (count : ℕ) → IsQuiet (reverse first) → IsShown limits (reverse first) → IsIllegalFrom limits (rest_by limits (reverse first)) second count → IsIllegal no_rules limits (first ++ second) (length first + count) }
    ensures legal { (limits : Bounds) (first second : List Line) → IsQuiet (reverse first) → IsShown limits (reverse first) → IsShownFrom limits (rest_by limits (reverse first)) (reverse second) → IsShown limits (reverse (first ++ second)) }
{}

/// A law: of two histories that are legal, quiet at their ends, and rest in one state there, each goes on as the other
/// does. So a shorter one may stand for the first part of a history. Lines are newest first.
pub fn histories_that_rest_alike_go_on_alike()
    ensures { (limits : Bounds) (before others later : List Line) → IsQuiet before → IsQuiet others → world_by limits before ≡ world_by limits others → IsShown limits before → IsShown limits others → IsShown limits (later ++ before) ↔ IsShown limits (later ++ others) }
{}

/// A law: times can be told from any moment on. Lines are shown from a state exactly if they are from the state at a
/// later time, with each tick and each deadline more by as much. Where a history rests no deadline is left, so that the
/// part behind it may begin with a smaller time. Lines are newest first.
pub fn times_count_from_any_moment()
    ensures states { (limits : Bounds) (more : ℕ) (start : PlainConfiguration) (lines : List Line) → IsShownFrom limits start lines ↔ IsShownFrom limits (later more start) (map (later_line more) lines) }
    ensures parts { (limits : Bounds) (before : List Line) (time more : ℕ) (lines : List Line) → (world_by limits before).time ≡ time + more → IsShownFrom limits (with_time time (rest_by limits before)) lines ↔ IsShownFrom limits (rest_by limits before) (map (later_line more) lines) }
{}

/// A law: uses below the limit don't matter. Let no variable be used as often as it may be by these lines, from either of
/// two states on that are the same but for uses. Then the lines are shown from the one exactly if they are from the other.
/// So a history goes on behind lines that are quiet as it does behind others, which may have used its variables less often.
/// Lines are newest first.
pub fn uses_below_the_limit_change_nothing()
    ensures states { (limits : Bounds) (start other : PlainConfiguration) (lines : List Line) → AreSameButForUses start other → StaysBelow start.world lines → StaysBelow other.world lines → IsShownFrom limits start lines ↔ IsShownFrom limits other lines }
    ensures histories { (limits : Bounds) (before others later : List Line) → IsQuiet before → IsQuiet others → without_uses (world_by limits before) ≡ without_uses (world_by limits others) → StaysBelow (world_by limits before) later → StaysBelow (world_by limits others) later → IsShown limits before → IsShown limits others → IsShown limits (later ++ before) ↔ IsShown limits (later ++ others) }
{}

/// A law: a part may begin with lines that used variables less often than the lines before it did, if it stays below the
/// limit either way. Its verdict is that of the whole, if the lines before it are legal. Lines are oldest first.
pub fn a_part_may_begin_with_fewer_uses()
    ensures legal { (limits : Bounds) (before first part : List Line) → MayStandFor limits before first part → IsShown limits (reverse first) → IsShown limits (reverse (before ++ part)) → IsShown limits (reverse (first ++ part)) }
    ensures illegal { (limits : Bounds) (before first part : List Line) (count : ℕ) → MayStandFor limits before first part → 1 ≤ count → IsShown limits (reverse first) → IsIllegal no_rules limits (before ++ part) (length before + count) → IsIllegal no_rules limits (first ++ part) (length first + count) }
{}
