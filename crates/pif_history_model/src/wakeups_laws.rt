ghost use Rattle.std.specs.Prelude.{◌≡◌, ℕ, List, ◌∷◌, Some};
ghost use Rattle.pif_types.specs.Bounds.{Bounds};
ghost use Rattle.pif_types.specs.declared.requests.Request.{Request};
ghost use Rattle.pif_history_model.specs.declared.lines.Line.{Line};
ghost use Rattle.pif_history_model.specs.declared.lines.Line.TheVariants.{Answer};
ghost use Rattle.pif_history_model.specs.Shown.{IsShown};
ghost use Rattle.pif_history_model.specs.Wakeups.{open_request, waited_variable, MayBeWoken};

/// A law: a wait that returns 0 was open together with a signal or a broadcast of its variable.
pub fn waits_return_once_woken()
    ensures { (limits : Bounds) (before : List Line) (thread variable : ℕ) (request : Request) → IsShown limits (Answer thread 0 ∷ before) → open_request thread before ≡ Some request → waited_variable request ≡ Some variable → MayBeWoken thread variable before }
{}
