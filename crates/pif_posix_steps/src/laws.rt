ghost use Rattle.std.specs.Prelude.{◌≡◌, ℕ, List, true, false};
ghost use Rattle.pif_types.specs.Bounds.{Bounds};
ghost use Rattle.pif_model.specs.declared.events.Entry.{Entry};
ghost use Rattle.pif_model.specs.Posix.{World, Step, Ends, IsRun};
ghost use Rattle.pif_posix_steps.specs.Once.{MovesOnce, Enters, GoesHidden, IsByMoves, IsByMovesAndEntry, is_go, is_hidden, is_refused};

/// A law: from a state of a run, a step that no line of a history shows is made up of moves, of its own thread and of
/// threads that were blocked before it.
pub fn hidden_steps_are_moves()
    ensures { (limits : Bounds) (history : List Entry) (states : List World) (before : World) → IsRun limits history states before → (entry : Entry) (after : World) → Step limits before entry after → is_hidden entry ≡ true → IsByMoves before entry after }
{}

/// A law: from a state of a run, a step that a line of a history shows, and that is not refused, is made up of moves
/// and then of the entry alone. Only an answer needs moves before it: any other is the entry alone.
pub fn shown_steps_are_moves_and_an_entry()
    ensures moves { (limits : Bounds) (history : List Entry) (states : List World) (before : World) → IsRun limits history states before → (entry : Entry) (after : World) → Step limits before entry after → is_hidden entry ≡ false → is_refused entry ≡ false → IsByMovesAndEntry limits before entry after }
    ensures alone { (limits : Bounds) (before : World) (entry : Entry) (after : World) → Step limits before entry after → is_go entry ≡ false → is_refused entry ≡ false → Enters limits before entry after }
{}

/// A law: from a state of a run, a move is a step that no line of a history shows.
pub fn single_moves_are_steps()
    ensures { (limits : Bounds) (history : List Entry) (states : List World) (before : World) → IsRun limits history states before → (thread : ℕ) (after : World) → MovesOnce thread before after → GoesHidden limits thread before after }
{}

/// A law: an entry alone, which a line of a history shows, is a step.
pub fn entries_are_steps()
    ensures { (limits : Bounds) (before : World) (entry : Entry) (after : World) → Enters limits before entry after → Step limits before entry after }
{}

/// A law: from a state of a run, the end of a thread leads to one state, in whatever order its robust mutexes pass on.
pub fn orders_of_passing_on_at_an_end_are_one()
    ensures { (limits : Bounds) (history : List Entry) (states : List World) (before : World) → IsRun limits history states before → (thread : ℕ) (after other : World) → Ends thread before after → Ends thread before other → after ≡ other }
{}
