ghost use Rattle.std.specs.Prelude.{◌≤◌, ℕ, List, length, Contains};
ghost use Rattle.pif_types.specs.Bounds.{Bounds};
ghost use Rattle.pif_model.specs.declared.events.Entry.{Entry};
ghost use Rattle.pif_model.specs.Posix.{World, IsRun};
ghost use Rattle.pif_posix_steps.specs.Once.{MovesOnce, Enters};
ghost use Rattle.pif_posix_steps.specs.Doing.{moved, ended, entered};

/// A law: the states to which a move of a thread leads are those that are listed. From each state there are finitely
/// many.
pub fn moves_lead_to_those_listed()
    ensures listed { (thread : ℕ) (before after : World) → MovesOnce thread before after → Contains (moved thread before) after }
    ensures no_more { (thread : ℕ) (before after : World) → Contains (moved thread before) after → MovesOnce thread before after }
{}

/// A law: the states to which an entry that a line of a history shows leads are those that are listed.
pub fn entries_lead_to_those_listed()
    ensures listed { (limits : Bounds) (before : World) (entry : Entry) (after : World) → Enters limits before entry after → Contains (entered limits before entry) after }
    ensures no_more { (limits : Bounds) (before : World) (entry : Entry) (after : World) → Contains (entered limits before entry) after → Enters limits before entry after }
{}

/// A law: from a state of a run, the end of a thread leads to one state at most, and that is listed once.
pub fn ends_of_runs_are_listed_once()
    ensures { (limits : Bounds) (history : List Entry) (states : List World) (before : World) → IsRun limits history states before → (thread : ℕ) → length (ended thread before) ≤ 1 }
{}
