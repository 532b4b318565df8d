ghost use Rattle.std.specs.Prelude.{◌≡◌, Bool, true, List, ◌∷◌};
ghost use Rattle.std.specs.List.{list_all};
ghost use Rattle.pif_types.specs.Bounds.{Bounds};
ghost use Rattle.pif_rules_model.specs.declared.rules.Rules.{Rules};
ghost use Rattle.pif_rules_model.specs.Sets.{AreAmong, no_rules};
ghost use Rattle.pif_history_model.specs.declared.lines.Line.{Line};
ghost use Rattle.pif_history_model.specs.Lines.{adds_no_none, is_no_extra};
ghost use Rattle.pif_history_model.specs.Shown.{IsShown};
ghost use Rattle.pif_history_model.specs.Searched.{IsShownWith};
ghost use Rattle.pif_history_model.specs.Verdicts.{IsShownBy};

/// A law: lines that some run shows by rules are shown with more rules too. So what is legal stays legal.
pub fn more_rules_show_more()
    ensures { (a b : Rules) → AreAmong a b → (limits : Bounds) (lines : List Line) → IsShownWith a limits lines → IsShownWith b limits lines }
{}

/// A law: whether mutexes of PTHREAD_PRIO_NONE may be added doesn't matter to lines that add none. So what such lines
/// show is as it is without them.
pub fn only_what_lends_nothing_is_gated()
    ensures { (rules : Rules) (allowed : Bool) (limits : Bounds) (lines : List Line) → list_all adds_no_none lines ≡ true → IsShownWith rules limits lines → IsShownWith (record rules { prio_none = allowed }) limits lines }
{}

/// A law: whether the lines `process`, `halted` and `resumed` may stand doesn't matter to lines that are none of these,
/// and ask for no undefined call. So what such lines show is as it is without them.
pub fn only_extra_lines_are_gated()
    ensures { (rules : Rules) (allowed : Bool) (limits : Bounds) (lines : List Line) → list_all is_no_extra lines ≡ true → IsShownWith rules limits lines → IsShownWith (record rules { extra_lines = allowed }) limits lines }
{}

/// A law: lines that are shown are shown without the last of them, too. So each front of a legal history is legal.
pub fn first_lines_are_shown()
    ensures searched { (rules : Rules) (limits : Bounds) (last : Line) (before : List Line) → IsShownWith rules limits (last ∷ before) → IsShownWith rules limits before }
    ensures judged { (rules : Rules) (limits : Bounds) (last : Line) (before : List Line) → IsShownBy rules limits (last ∷ before) → IsShownBy rules limits before }
{}

/// A law: lines that some run of the POSIX machine shows are shown with any rules, and with none there are no others.
pub fn without_rules_lines_are_plain()
    ensures shown { (rules : Rules) (limits : Bounds) (lines : List Line) → IsShown limits lines → IsShownWith rules limits lines }
    ensures no_others { (limits : Bounds) (lines : List Line) → IsShownWith no_rules limits lines → IsShown limits lines }
{}
