ghost use Rattle.std.specs.Prelude.{◌≡◌, ◌≤◌, ℕ, Bool, true, false, List, ◌∷◌, Option, Some, map};
ghost use Rattle.std.specs.List.{list_all};
ghost use Rattle.pif_types.specs.Bounds.{Bounds};
ghost use Rattle.pif_search.specs.Runs.{CanShow};
ghost use Rattle.pif_search.specs.Enough.{IsEnough};
ghost use Rattle.pif_history_model.specs.declared.lines.Line.{Line};
ghost use Rattle.pif_history_model.specs.declared.lines.Line.TheVariants.{Answer, Prio};
ghost use Rattle.pif_history_model.specs.declared.refusals.LineRefusal.{LineRefusal};
ghost use Rattle.pif_history_model.specs.declared.labels.Label.TheVariants.{Shown};
ghost use Rattle.pif_history_model.specs.Shown.{IsShown};
ghost use Rattle.pif_history_model.specs.Plain.{PlainConfiguration, PlainAdvances, plain_start_of};
ghost use Rattle.pif_rules_model.specs.declared.rules.Rules.{Rules};
ghost use Rattle.pif_history_model.specs.Searched.{hides, IsShownWith};
ghost use Rattle.pif_history_model.specs.Refused.{refusal_of_line};
ghost use Rattle.pif_history_model.specs.Verdicts.{is_answer};
ghost use Rattle.pif_history_model.specs.Forgetting.{StandsFor};
ghost use Rattle.pif_history_model.specs.Queues.{Takes, tells_of_no_waiters};
ghost use Rattle.pif_history_model.specs.Notes.{Needs, tells_of_no_rest};

/// A law: lines that the machine that is searched can show, some run of the POSIX machine shows.
pub fn searched_lines_are_shown()
    ensures { (limits : Bounds) (lines : List Line) (last : PlainConfiguration) → CanShow (PlainAdvances limits) hides (plain_start_of limits) (map (λ line. Shown line) lines) last → IsShown limits lines }
{}

/// A law: lines that some run of the POSIX machine shows, the machine that is searched can show.
pub fn shown_lines_are_searched()
    ensures { (limits : Bounds) (lines : List Line) → IsShown limits lines → (last : PlainConfiguration) × CanShow (PlainAdvances limits) hides (plain_start_of limits) (map (λ line. Shown line) lines) last }
{}

/// A law: a line that the lines before it refuse is shown by no run, whatever was answered.
pub fn refused_lines_are_not_shown()
    ensures { (limits : Bounds) (before : List Line) (line : Line) (refusal : LineRefusal) → refusal_of_line limits before line ≡ Some refusal → IsShown limits (line ∷ before) → ⊥ }
{}

/// A law: the same of runs with rules: a line that the lines before it refuse is shown by none, whichever are allowed.
pub fn refused_lines_are_not_shown_by_rules()
    ensures { (rules : Rules) (limits : Bounds) (before : List Line) (line : Line) (refusal : LineRefusal) → refusal_of_line limits before line ≡ Some refusal → IsShownWith rules limits (line ∷ before) → ⊥ }
{}

/// A law: an answer that some run shows is 0, or the number of an error that calls have.
pub fn shown_answers_are_answers()
    ensures { (limits : Bounds) (before : List Line) (thread answer : ℕ) → IsShown limits (Answer thread answer ∷ before) → is_answer answer ≡ true }
{}

/// A law: an effective priority that some run shows is 1 to 99.
pub fn shown_priorities_are_priorities()
    ensures { (limits : Bounds) (before : List Line) (thread priority : ℕ) → IsShown limits (Prio thread priority ∷ before) → (1 ≤ priority) × (priority ≤ 99) }
{}

/// A law: it is enough to search all steps that are needed, and to leave out a state for which another stands that is
/// kept. It stands for it if they differ only in what no step sees.
pub fn what_no_step_sees_is_forgotten()
    ensures { (limits : Bounds) (all : Bool) (start : PlainConfiguration) → IsEnough (Needs limits all) hides (Needs limits all) StandsFor start }
{}

/// A law: lines that tell of no waiters are shown without them, if they are shown at all. Threads all have the same base
/// priority, or nobody signals.
pub fn waiters_show_nothing_more()
    ensures { (limits : Bounds) (same : Option ℕ) (lines : List Line) (last : PlainConfiguration) → list_all (tells_of_no_waiters same) lines ≡ true → CanShow (PlainAdvances limits) hides (plain_start_of limits) (map (λ line. Shown line) lines) last → (other : PlainConfiguration) × CanShow (Takes limits false) hides (plain_start_of limits) (map (λ line. Shown line) lines) other }
{}

/// A law: lines that don't tell who rests are shown by runs in which a wait is noted only if that may matter, if they
/// are shown at all.
pub fn notes_show_nothing_more()
    ensures { (limits : Bounds) (all : Bool) (lines : List Line) (last : PlainConfiguration) → list_all tells_of_no_rest lines ≡ true → CanShow (Takes limits all) hides (plain_start_of limits) (map (λ line. Shown line) lines) last → (other : PlainConfiguration) × CanShow (Needs limits all) hides (plain_start_of limits) (map (λ line. Shown line) lines) other }
{}
