ghost use Rattle.std.specs.Prelude.{◌≡◌};
ghost use Rattle.pif_model.specs.Kinds.{relock_of};

use pif_model::Relock;
use pif_types::Kind;

/// What a lock by the owner of a mutex of this kind does. All else asks this, and no kind.
#[inline(always)]
pub(crate) fn relock_of(kind: Kind) -> Relock
    ensures { result ≡ relock_of kind }
{
    match kind {
        Kind::Normal => Relock::Deadlocks,
        Kind::ErrorCheck => Relock::Answers,
        Kind::Recursive => Relock::Counts,
    }
}
