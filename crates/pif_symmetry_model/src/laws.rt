ghost use Rattle.std.specs.Prelude.{◌≡◌, ◌≢◌, ◌<◌, ℕ, Bool, true, List, length};
ghost use Rattle.pif_types.specs.Bounds.{Bounds};
ghost use Rattle.pif_model.specs.declared.events.Entry.{Entry};
ghost use Rattle.pif_model.specs.Posix.{World};
ghost use Rattle.pif_posix_steps.specs.Once.{MovesOnce, Enters};
ghost use Rattle.pif_rules_model.specs.Lending.{not_named};
ghost use Rattle.pif_rules_model.specs.Rules.{Wide, InWorld, SeesLending, MovesOrWaits};
ghost use Rattle.pif_explore_model.specs.declared.labels.Label.{Label};
ghost use Rattle.pif_explore_model.specs.Situations.{Plan, Situation};
ghost use Rattle.pif_explore_model.specs.Exploring.{Steps, Reaches, IsFinal};
ghost use Rattle.pif_explore_model.specs.Conditions.{meets};
ghost use Rattle.pif_explore_model.specs.declared.conditions.Condition.{Condition};
ghost use Rattle.pif_explore_model.specs.Outcomes.{Outcome, IsOutcome};
ghost use Rattle.pif_symmetry_model.specs.Symmetry.{IsSymmetric, IsPlain, MirrorsState, renamed_label};
ghost use Rattle.pif_symmetry_model.specs.Representatives.{AreOfOneClass, StepsTo};
ghost use Rattle.pif_search.specs.Runs.{Runs};
ghost use Rattle.pif_symmetry_model.specs.Conditions.{renamed_condition, speaks_of_none};
ghost use Rattle.pif_symmetry_model.specs.Outcomes.{MirrorsOutcome};
ghost use Rattle.pif_symmetry_model.specs.Renaming.{Mirrors, renamed_entry, is_event};
ghost use Rattle.pif_symmetry_model.specs.Lending.{MirrorsWide};
ghost use Rattle.pif_symmetry_model.specs.Swaps.{swapped_name, swapped};

/// A law: in a state that is another but for the names of threads, each thread has the moves that it has there by its other
/// name. These lead to states that are the same but for names.
pub fn renamed_threads_have_the_same_moves()
    ensures { (name : ℕ → ℕ) (w v u : World) (t : ℕ) → Mirrors name w v → MovesOnce t w u → (o : World) × MovesOnce (name t) v o × Mirrors name u o }
{}

/// A law: so it is with each entry of a history that is an event: the begin of a call, its answer, the end of a thread, and
/// a tick.
pub fn renamed_threads_have_the_same_entries()
    ensures { (name : ℕ → ℕ) (l : Bounds) (w v u : World) (e : Entry) → Mirrors name w v → is_event e ≡ true → Enters l w e u → (o : World) × Enters l v (renamed_entry name e) o × Mirrors name u o }
{}

/// A law: states that are the same but for names make up classes. Each is like itself, and it goes back and on.
pub fn sameness_but_for_names_is_an_equivalence()
    ensures itself { (w : World) → Mirrors (λ t. t) w w }
    ensures back { (name : ℕ → ℕ) (w v : World) (a : Mirrors name w v) → Mirrors a.renaming.back v w }
    ensures on { (name other : ℕ → ℕ) (w v u : World) → Mirrors name w v → Mirrors other v u → Mirrors (λ t. other (name t)) w u }
{}

/// A law: a state in which two threads have exchanged their names is the same but for these.
pub fn exchanged_names_are_a_renaming()
    ensures { (a b : ℕ) (w : World) → a ≢ 0 → b ≢ 0 → a < length w.threads → b < length w.threads → Mirrors (swapped_name a b) w (swapped a b w) }
{}

/// A law: so it is with moves as lending sees them, if some mutexes lend nothing.
pub fn renamed_threads_have_the_same_moves_as_lending_sees_them()
    ensures { (name : ℕ → ℕ) (t : ℕ) (s n k : Wide) → MirrorsWide name s n → SeesLending (not_named s.world t s.prio_none) (InWorld (MovesOrWaits s.prio_none t)) s k → (o : Wide) × SeesLending (not_named n.world (name t) n.prio_none) (InWorld (MovesOrWaits n.prio_none (name t))) n o × MirrorsWide name k o }
{}

/// A law: a step of a symmetric program that uses no rules is, by other names, a step of each state that is the same but for
/// names, and these lead to such states.
pub fn renamed_states_have_the_same_steps()
    ensures { (name point : ℕ → ℕ) (p : Plan) (s n k : Situation) (l : Label) → IsSymmetric name point p → IsPlain p → MirrorsState name point p s n → Steps p s l k → (o : Situation) × Steps p n (renamed_label name l) o × MirrorsState name point p k o }
{}

/// A law: so, what is reached from one of such states is reached from the other by other names, and final states are final.
pub fn renamed_states_reach_the_same()
    ensures reached { (name point : ℕ → ℕ) (p : Plan) (s n k : Situation) → IsSymmetric name point p → IsPlain p → MirrorsState name point p s n → Reaches p s k → (o : Situation) × Reaches p n o × MirrorsState name point p k o }
    ensures stay_final { (name point : ℕ → ℕ) (p : Plan) (s n : Situation) → IsSymmetric name point p → IsPlain p → MirrorsState name point p s n → IsFinal p s → IsFinal p n }
{}

/// A law: so, each outcome that is found from one of such states is found from the other by other names. If a start is the
/// same as itself but for names, its outcomes come with all their renamings.
pub fn outcomes_come_with_their_renamings()
    ensures { (name point : ℕ → ℕ) (p : Plan) (s n : Situation) (o : Outcome) → IsSymmetric name point p → IsPlain p → MirrorsState name point p s n → IsOutcome p s o → (q : Outcome) × IsOutcome p n q × MirrorsOutcome name point o q }
{}

/// A law: a condition that speaks of no fault is met by such states by other names. So one that names none of the threads
/// that exchange their names is met by both or by neither.
pub fn conditions_are_met_by_other_names()
    ensures { (name point : ℕ → ℕ) (p : Plan) (s n : Situation) (ends : Bool) (c : Condition) → IsSymmetric name point p → MirrorsState name point p s n → speaks_of_none c ≡ true → meets p ends n (renamed_condition name c) ≡ meets p ends s c }
{}

/// A law: a search that takes one state for all that are the same but for names reaches one of each class that is reached.
/// What it takes for a state is of the class of this state.
pub fn one_state_of_each_class_is_enough()
    ensures { (p : Plan) (taken : Situation → Situation) (s k : Situation) (steps : List Label) → IsPlain p → ((x : Situation) → AreOfOneClass p x (taken x)) → Runs (Steps p) s steps k → (o : Situation) × (found : List Label) × Runs (StepsTo p taken) (taken s) found o × AreOfOneClass p k o }
{}
