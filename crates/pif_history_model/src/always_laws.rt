ghost use Rattle.std.specs.Prelude.{◌≡◌, [], true, List};
ghost use Rattle.pif_types.specs.Bounds.{Bounds};
ghost use Rattle.pif_rules_model.specs.declared.rules.Rules.{Rules};
ghost use Rattle.pif_rules_model.specs.Sets.{no_rules};
ghost use Rattle.pif_history_model.specs.declared.facts.Fact.{Fact as StateFact};
ghost use Rattle.pif_history_model.specs.declared.lines.Line.{Line};
ghost use Rattle.pif_history_model.specs.Facts.{is_so};
ghost use Rattle.pif_history_model.specs.Shown.{IsShown};
ghost use Rattle.pif_history_model.specs.Always.{IsAlwaysSo, IsNeverOtherwise};

/// A law: if no run shows lines and then that a fact isn't so, it is so in the last state of every run that shows these
/// lines. With no rules that is the state of every run of the POSIX machine that shows them, too.
pub fn what_is_never_otherwise_is_always_so()
    ensures searched { (rules : Rules) (limits : Bounds) (lines : List Line) (fact : StateFact) → IsNeverOtherwise (record rules { extra_lines = true }) limits lines fact → IsAlwaysSo rules limits lines fact }
    ensures plain { (limits : Bounds) (lines : List Line) (fact : StateFact) → IsAlwaysSo no_rules limits lines fact → (shown : IsShown limits lines) → is_so [] shown.last fact ≡ true }
{}
