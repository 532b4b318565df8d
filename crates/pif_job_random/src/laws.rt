ghost use Rattle.std.specs.Prelude.{List, ◌≤◌, length, All};
ghost use Rattle.pif_text_model.specs.declared.commands.Command.{Command};
ghost use Rattle.pif_script_model.specs.CommandLines.{HasNoFault, StandsAnywhere, script_lines};

/// A script whose lines are commands, none of them `limits`, is run to its end with no fault if it has at most 16 MiB.
pub fn commands_have_no_fault()
    ensures { (commands : List Command) → All StandsAnywhere commands → length (script_lines commands) ≤ 16777216
        → HasNoFault (script_lines commands) }
{}
