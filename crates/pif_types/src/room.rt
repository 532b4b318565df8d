ghost use Rattle.std.specs.Prelude.{◌≡◌, ◌<◌, ◌≤◌, ◌+◌, ◌++◌, ◌∷◌, [], IfOk, vec_len, vec_capacity};
ghost use Rattle.std.specs.Vec.{vec_ptr};

use crate::errors::NoMemory;
use std::alloc::Global;

/// An empty list with room for `count` items. It takes one piece of memory, and answers `NoMemory` if that is
/// refused.
pub fn with_room<T: Drop>(alloc: Global, count: usize) -> Result<Vec<T>, NoMemory>
    ensures items { IfOk result (λ v. v.items ≡ []) }
    ensures len { IfOk result (λ v. vec_len v ≡ 0) }
    ensures room { IfOk result (λ v. count ≤ vec_capacity v) }
{
    match Vec::with_capacity(alloc, count) {
        Ok(items) => Ok(items),
        Err(_) => Err(NoMemory),
    }
}

/// Puts `item` at the end of `items`, which has room for it: the list stays where it is, and no memory is taken.
pub fn push_within<T: Drop>(items: &mut Vec<T>, item: T)
    requires { vec_len items.old < vec_capacity items.old }
    ensures items { items.new.items ≡ items.old.items ++ item ∷ [] }
    ensures len { vec_len items.new ≡ vec_len items.old + 1 }
    ensures room { vec_capacity items.new ≡ vec_capacity items.old }
    ensures in_place { vec_ptr items.new ≡ vec_ptr items.old }
{
    items.push_reserved(item);
}
