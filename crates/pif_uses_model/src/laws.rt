ghost use Rattle.std.specs.Prelude.{◌≡◌, ◌≤◌, ℕ};
ghost use Rattle.pif_model.specs.Posix.{World};
ghost use Rattle.pif_posix_steps.specs.Once.{MovesOnce};
ghost use Rattle.pif_uses_model.specs.Uses.{NoneIsUsedUp, uses_to_come, without_uses};

/// A law: states that are the same but for uses, in which no variable is used up, have the same moves, and these lead to
/// such states. No move makes the uses to come more.
pub fn moves_tell_no_uses()
    ensures same { (thread : ℕ) (before other after : World) → without_uses before ≡ without_uses other → NoneIsUsedUp before → NoneIsUsedUp other → MovesOnce thread before after → (later : World) × (without_uses after ≡ without_uses later) × MovesOnce thread other later }
    ensures to_come { (thread : ℕ) (before after : World) → MovesOnce thread before after → uses_to_come after ≤ uses_to_come before }
{}
