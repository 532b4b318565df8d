ghost use Rattle.std.specs.Prelude.{◌≡◌, ◌≢◌, ◌<◌, ℕ, true};
ghost use Rattle.pif_model.specs.Graph.{reaches_within, effective_among, Reaches, IsEffective};

/// A law: if each of `n` threads waits for nobody or for one of them, the effective priority that looks over `n`
/// hops is the greatest base priority of the thread and of all that wait for it, through a chain of any length.
pub fn bounded_priority_is_greatest_over_any_chain()
    ensures { (n : ℕ) (waits_for base : ℕ → ℕ) (t : ℕ) → waits_for 0 ≡ 0 → ((u : ℕ) → waits_for u ≢ 0 → waits_for u < n) → t ≢ 0 → t < n → IsEffective (λ u. (u ≢ 0) × (u < n)) (λ u v. (waits_for u ≡ v) × (v ≢ 0)) base t (effective_among n waits_for base t) }
{}

/// A law: if each of `n` threads waits for nobody or for one of them, the test over `n` hops finds a chain from a
/// thread exactly if there is one, of any length.
pub fn bounded_chain_finds_each_chain()
    ensures found { (n : ℕ) (waits_for : ℕ → ℕ) (u t : ℕ) → reaches_within n waits_for u t ≡ true → Reaches (λ x y. (waits_for x ≡ y) × (y ≢ 0)) u t }
    ensures finds { (n : ℕ) (waits_for : ℕ → ℕ) (u t : ℕ) → u < n → ((x : ℕ) → waits_for x ≢ 0 → waits_for x < n) → Reaches (λ x y. (waits_for x ≡ y) × (y ≢ 0)) u t → reaches_within n waits_for u t ≡ true }
{}
