ghost use Rattle.std.specs.Prelude.{◌≡◌};
ghost use Rattle.pif_rules_model.specs.Sets.{is_of_posix};
ghost use Rattle.pif_rules.specs.Sets.{name_of};

use pif_rules_model::Rule;

/// The name of a rule.
pub fn name_of(rule: Rule) -> &'static [u8]
    ensures { result.now ≡ name_of rule }
{
    match rule {
        Rule::Steal => b"steal",
        Rule::AnyWaiter => b"any_waiter",
        Rule::Spurious => b"spurious",
        Rule::Recursion => b"recursion",
        Rule::OwnErrorcheck => b"own_errorcheck",
        Rule::AnyConsistent => b"any_consistent",
        Rule::HeldWait => b"held_wait",
        Rule::LostSignal => b"lost_signal",
        Rule::Revives => b"revives",
        Rule::Barge => b"barge",
        Rule::CycleWaits => b"cycle_waits",
        Rule::CycleRefused => b"cycle_refused",
        Rule::TimeoutConsumes => b"timeout_consumes",
        Rule::EndsApart => b"ends_apart",
        Rule::StaysLocked => b"stays_locked",
        Rule::Rebinds => b"rebinds",
        Rule::MoreUses => b"more_uses",
        Rule::RefusesSetprio => b"refuses_setprio",
        Rule::ConsistentByAny => b"consistent_by_any",
        Rule::CutUnlock => b"cut_unlock",
        Rule::OtherError => b"other_error",
        Rule::WaitGivesAll => b"wait_gives_all",
    }
}

/// Whether POSIX allows what a rule adds. The others are what implementations do against it.
pub fn is_of_posix(rule: Rule) -> bool
    ensures { result ≡ is_of_posix rule }
{
    match rule {
        Rule::Steal
        | Rule::OwnErrorcheck
        | Rule::AnyConsistent
        | Rule::LostSignal
        | Rule::Revives => false,
        _ => true,
    }
}
