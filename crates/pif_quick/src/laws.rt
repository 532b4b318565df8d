//! What the rule says of all passes at once. The function does nothing: its contract is the law.
ghost use Rattle.std.specs.Prelude.{◌≡◌, List, Option};
ghost use Rattle.atomic_table.specs.Table.{State};
ghost use Rattle.pif_quick.specs.declared.rule.View.{View};
ghost use Rattle.pif_quick.specs.Rule.{EachWordHasOneHolder, OneHolds};

/// Between any two steps, whatever the schedule, no word has two holders: the rule, which each step keeps, says that
/// two seats whose turns of one word are open are one seat, of one pass.
pub fn no_word_has_two_holders<T>()
    ensures { (starts : List (Option T)) (s : State (Option T) (View T)) → EachWordHasOneHolder starts s → OneHolds s.views }
{}
