ghost use Rattle.std.specs.Prelude.{Bool, List};
ghost use Rattle.pif_types.specs.Bounds.{Bounds};
ghost use Rattle.pif_search.specs.Enough.{IsEnough};
ghost use Rattle.pif_history_model.specs.declared.lines.Line.{Line};
ghost use Rattle.pif_history_model.specs.Searched.{hides};
ghost use Rattle.pif_history_model.specs.Notes.{Needs};
ghost use Rattle.pif_history_model.specs.Forgetting.{StandsFor};
ghost use Rattle.pif_history_model.specs.Known.{CoversKnown, GoesKnown, known_start_of};
ghost use Rattle.pif_history_model.specs.Lazy.{GoesLazily};

/// A law: the begin of a call that uses no variable, and an answer of a call that has its result, may come before all
/// hidden steps. Only trylocks that are known to be busy fail first.
pub fn lines_come_before_hidden_steps()
    ensures { (limits : Bounds) (all : Bool) (lines : List Line) → IsEnough (GoesKnown (Needs limits all) lines) hides (GoesLazily (Needs limits all) lines) (CoversKnown StandsFor) (known_start_of limits) }
{}
