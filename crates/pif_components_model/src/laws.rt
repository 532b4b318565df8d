ghost use Rattle.std.specs.Prelude.{◌≡◌, ◌+◌, ◌<◌, ◌≤◌, ◌⊎◌, ℕ, List, ◌∷◌, ◌++◌, length, reverse, take, true, false};
ghost use Rattle.pif_types.specs.Bounds.{Bounds};
ghost use Rattle.pif_model.specs.declared.events.Entry.{Entry};
ghost use Rattle.pif_model.specs.Posix.{World};
ghost use Rattle.pif_posix_steps.specs.Once.{MovesOnce, Enters};
ghost use Rattle.pif_rules_model.specs.Sets.{no_rules};
ghost use Rattle.pif_history_model.specs.declared.lines.Line.{Line};
ghost use Rattle.pif_history_model.specs.Shown.{IsShown};
ghost use Rattle.pif_history_model.specs.Verdicts.{IsIllegal};
ghost use Rattle.pif_components_model.specs.Components.{Name, Side, Joins, IsJoinedBy, others, concerns, keeps, BeginsBeside, IsClosed, IsConnected, AreNumbered, component, lines_of};
ghost use Rattle.pif_components_model.specs.Components.Name.{OfThread};
ghost use Rattle.pif_components_model.specs.Laws.{IsJudgedBySides, IsJudgedByParts};
ghost use Rattle.pif_components_model.specs.Places.{IsPlaceOf, IsIllegalAt, IsLegalBefore};
ghost use Rattle.pif_components_model.specs.Sides.{Agrees, IsSplit};

/// A law: if the sides don't meet, they don't after a move of any thread. A move of a thread leaves all of the side on
/// which it isn't as it was.
pub fn moves_stay_on_their_side()
    ensures split { (side : Side) (thread : ℕ) (before after : World) → IsSplit side before → MovesOnce thread before after → IsSplit side after }
    ensures frame { (side : Side) (thread : ℕ) (before after : World) → IsSplit side before → side (OfThread thread) ≡ false → MovesOnce thread before after → Agrees side before after }
{}

/// A law: a move of a thread depends on its side alone. In each state that agrees on the side it is possible too, and
/// the states behind it agree on the side.
pub fn moves_depend_on_their_side()
    ensures { (side : Side) (thread : ℕ) (whole part after : World) → IsSplit side whole → IsSplit side part → Agrees side whole part → side (OfThread thread) ≡ true → MovesOnce thread whole after → (other : World) × MovesOnce thread part other × Agrees side after other }
{}

/// A law: moves of two sides come in either order. The states behind both agree on either side, so that they differ at
/// most in the order in which waiters of different sides stand in the one list of waiters.
pub fn moves_of_two_sides_commute()
    ensures { (side : Side) (first second : ℕ) (before one two : World) → IsSplit side before → side (OfThread first) ≡ true → side (OfThread second) ≡ false → MovesOnce first before one → MovesOnce second before two → (last : World) × (other : World) × MovesOnce second one last × MovesOnce first two other × Agrees side last other × Agrees (others side) last other }
{}

/// A law: if the sides don't meet, they don't after an entry that a line shows, if a call that it begins names what is on
/// its thread's side. The entry of a thread leaves all of the side on which it isn't as it was.
pub fn entries_stay_on_their_side()
    ensures split { (side : Side) (limits : Bounds) (before after : World) (entry : Entry) → IsSplit side before → BeginsBeside side entry → Enters limits before entry after → IsSplit side after }
    ensures frame { (side : Side) (limits : Bounds) (before after : World) (entry : Entry) → IsSplit side before → BeginsBeside side entry → concerns side entry ≡ false → Enters limits before entry after → Agrees side before after }
{}

/// A law: an entry that a line shows depends on its side alone, as a move does. An addition or a tick is of every side.
pub fn entries_depend_on_their_side()
    ensures { (side : Side) (limits : Bounds) (whole part after : World) (entry : Entry) → IsSplit side whole → IsSplit side part → Agrees side whole part → BeginsBeside side entry → concerns side entry ≡ true → Enters limits whole entry after → (other : World) × Enters limits part entry other × Agrees side after other }
{}

/// A law: if a history is legal, the lines of each side are, if no line joins the side with other names. So a history with
/// an illegal component is illegal.
pub fn components_of_legal_histories_are_legal()
    ensures { (side : Side) (limits : Bounds) (lines : List Line) → IsClosed lines side → IsShown limits lines → IsShown limits (lines_of side lines) }
{}

/// A law: a closed side has whole components, and names of one component have one number.
pub fn components_stay_together()
    ensures sides { (side : Side) (lines : List Line) → IsClosed lines side → (a b : Name) → IsConnected lines a b → side a ≡ side b }
    ensures numbers { (lines : List Line) (n : ℕ) (number : Name → ℕ) → AreNumbered lines n number → (a b : Name) → IsConnected lines a b → number a ≡ number b }
{}

/// A law: a history is judged by sides, and by components: it is legal exactly if the lines of each are. Lines are newest
/// first.
pub fn components_judge_a_history()
    ensures sides { (limits : Bounds) (lines : List Line) → IsJudgedBySides limits lines }
    ensures parts { (limits : Bounds) (lines : List Line) → IsJudgedByParts limits lines }
{}

/// A law: if the lines of a component are illegal first at one that is line `place` of all, and those of each other one are
/// legal before it, the whole history is illegal, first at that line. Lines are oldest first.
pub fn the_least_illegal_line_is_that_of_the_whole()
    ensures { (limits : Bounds) (lines : List Line) (n : ℕ) (number : Name → ℕ) (k place : ℕ) → AreNumbered (reverse lines) n number → k < n → IsIllegalAt limits (component number k) lines place → ((j : ℕ) → j < n → IsLegalBefore limits (component number j) lines place) → IsIllegal no_rules limits lines place }
{}

/// A law: if a component is illegal at a line, the history isn't legal up to there, whatever the others are. And if a
/// history is illegal, first at some line, each component is legal before it, and it can't be that none is illegal at it.
/// So the line is the least one of a component that is illegal. Lines are oldest first.
pub fn an_illegal_line_is_that_of_a_component()
    ensures by_then { (limits : Bounds) (lines : List Line) (n : ℕ) (number : Name → ℕ) (k place : ℕ) → AreNumbered (reverse lines) n number → IsIllegalAt limits (component number k) lines place → IsShown limits (reverse (take place lines)) → ⊥ }
    ensures before { (limits : Bounds) (lines : List Line) (n : ℕ) (number : Name → ℕ) (k place : ℕ) → AreNumbered (reverse lines) n number → IsIllegal no_rules limits lines place → IsLegalBefore limits (component number k) lines place }
    ensures then { (limits : Bounds) (lines : List Line) (n : ℕ) (number : Name → ℕ) (place : ℕ) → AreNumbered (reverse lines) n number → IsIllegal no_rules limits lines place → ((k : ℕ) → k < n → IsIllegalAt limits (component number k) lines place → ⊥) → ⊥ }
{}

/// A law: what a verdict on a side says of the lines before a line of the whole. Lines are oldest first.
pub fn verdicts_on_sides_tell_of_earlier_lines()
    ensures legal { (limits : Bounds) (side : Side) (lines : List Line) (place : ℕ) → IsShown limits (reverse (lines_of side lines)) → IsLegalBefore limits side lines place }
    ensures illegal { (limits : Bounds) (side : Side) (lines : List Line) (place later : ℕ) → IsIllegalAt limits side lines later → place ≤ later → IsLegalBefore limits side lines place }
{}

/// A law: names are joined as lines come, by one line or by those before it. Lines are newest first.
pub fn lines_join_names_one_by_one()
    ensures { (line : Line) (before : List Line) (a b : Name) → Joins (line ∷ before) a b → Joins before a b ⊎ IsJoinedBy line before a b }
{}

/// A law: where the lines of a side stand among all. Lines are oldest first.
pub fn lines_of_sides_have_places()
    ensures last { (side : Side) (before : List Line) (line : Line) (later : List Line) → keeps side line ≡ true → IsPlaceOf side (before ++ line ∷ later) (length (lines_of side before) + 1) (length before + 1) }
    ensures longer { (side : Side) (before later : List Line) (n place : ℕ) → IsPlaceOf side before n place → IsPlaceOf side (before ++ later) n place }
{}
