ghost use Rattle.std.specs.Prelude.{◌≡◌, ℕ, true, [], Contains};
ghost use Rattle.pif_types.specs.Bounds.{Bounds};
ghost use Rattle.pif_model.specs.declared.events.Entry.{Entry};
ghost use Rattle.pif_model.specs.Posix.{World};
ghost use Rattle.pif_posix_steps.specs.Once.{MovesOnce, Enters};
ghost use Rattle.pif_rules_model.specs.declared.rules.Rules.{Rules};
ghost use Rattle.pif_rules_model.specs.Sets.{AreAmong, no_rules};
ghost use Rattle.pif_rules_model.specs.Rules.{Wide, WideMoves, WideEnters, WideEndsApart, WidePassesLater, HasReleased};
ghost use Rattle.pif_rules_model.specs.Ruled.{widely_moved, widely_entered, ended_apart, passed_later, has_released};

/// A law: the states to which moves, entries and ends lead, with any rules, are those that are listed.
pub fn steps_lead_to_those_listed()
    ensures moves { (r : Rules) (t : ℕ) (s n : Wide) → WideMoves r t s n → Contains (widely_moved r t s) n }
    ensures no_more_moves { (r : Rules) (t : ℕ) (s n : Wide) → Contains (widely_moved r t s) n → WideMoves r t s n }
    ensures entries { (r : Rules) (l : Bounds) (s : Wide) (e : Entry) (n : Wide) → WideEnters r l s e n → Contains (widely_entered r l s e) n }
    ensures no_more_entries { (r : Rules) (l : Bounds) (s : Wide) (e : Entry) (n : Wide) → Contains (widely_entered r l s e) n → WideEnters r l s e n }
    ensures ends { (r : Rules) (t : ℕ) (s n : Wide) → WideEndsApart r t s n → Contains (ended_apart r t s) n }
    ensures no_more_ends { (r : Rules) (t : ℕ) (s n : Wide) → Contains (ended_apart r t s) n → WideEndsApart r t s n }
    ensures later { (r : Rules) (t : ℕ) (s n : Wide) → WidePassesLater r t s n → Contains (passed_later r t s) n }
    ensures no_more_later { (r : Rules) (t : ℕ) (s n : Wide) → Contains (passed_later r t s) n → WidePassesLater r t s n }
    ensures releases { (r : Rules) (t : ℕ) (s : Wide) → HasReleased r t s → has_released r t s ≡ true }
    ensures no_more_releases { (r : Rules) (t : ℕ) (s : Wide) → has_released r t s ≡ true → HasReleased r t s }
{}

/// A law: with more rules there is each step that there is with fewer.
pub fn more_rules_allow_more()
    ensures moves { (a b : Rules) → AreAmong a b → (t : ℕ) (s n : Wide) → WideMoves a t s n → WideMoves b t s n }
    ensures entries { (a b : Rules) → AreAmong a b → (l : Bounds) (s : Wide) (e : Entry) (n : Wide) → WideEnters a l s e n → WideEnters b l s e n }
    ensures ends { (a b : Rules) → AreAmong a b → (t : ℕ) (s n : Wide) → WideEndsApart a t s n → WideEndsApart b t s n }
    ensures later { (a b : Rules) → AreAmong a b → (t : ℕ) (s n : Wide) → WidePassesLater a t s n → WidePassesLater b t s n }
    ensures releases { (a b : Rules) → AreAmong a b → (t : ℕ) (s : Wide) → HasReleased a t s → HasReleased b t s }
{}

/// A law: if each mutex inherits, and no wait has holds to take again, each step of the plain machine is there with any
/// rules, and with none there is no other.
pub fn without_rules_the_machine_is_plain()
    ensures moves { (r : Rules) (t : ℕ) (s : Wide) (v : World) → s.prio_none ≡ [] → MovesOnce t s.world v → WideMoves r t s (record s { world = v }) }
    ensures entries { (r : Rules) (l : Bounds) (s : Wide) (e : Entry) (v : World) → s.prio_none ≡ [] → s.given ≡ [] → Enters l s.world e v → (n : Wide) × WideEnters r l s e n × (n.world ≡ v) }
    ensures plain_moves { (t : ℕ) (s n : Wide) → s.prio_none ≡ [] → WideMoves no_rules t s n → MovesOnce t s.world n.world }
    ensures plain_entries { (l : Bounds) (s : Wide) (e : Entry) (n : Wide) → s.prio_none ≡ [] → WideEnters no_rules l s e n → Enters l s.world e n.world }
    ensures no_ends { (t : ℕ) (s n : Wide) → WideEndsApart no_rules t s n → ⊥ }
{}
