ghost use Rattle.std.specs.Prelude.{◌≡◌, ℕ, ◌<◌, IfNone, IfSome};
ghost use Rattle.std.specs.Int.{bit_at};
ghost use Rattle.pif_nodes_model.specs.Masks.{ChangesBit, IsGreatestBit};

/// The mask with the bit `i`, below 128, set.
pub fn with_bit(mask: u128, i: u32) -> u128
    requires { i < 128 }
    ensures { ChangesBit mask result i 1 }
{
    mask | (1 << i)
}

/// The mask with the bit `i`, below 128, clear.
pub fn without_bit(mask: u128, i: u32) -> u128
    requires { i < 128 }
    ensures { ChangesBit mask result i 0 }
{
    mask & !(1 << i)
}

/// The greatest bit that is set. `None` if none is.
pub fn greatest_bit(mask: u128) -> Option<u32>
    ensures none { IfNone result ((i : ℕ) → bit_at mask i ≡ 0) }
    ensures greatest { IfSome result (λ i. IsGreatestBit mask i) }
{
    mask.checked_ilog2()
}
