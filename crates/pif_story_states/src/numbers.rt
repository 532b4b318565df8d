ghost use Rattle.std.specs.Prelude.{◌≡◌};

use pif_types::MutexId;

/// The number of a mutex, if there is one.
pub fn number_of(mutex: Option<MutexId>) -> Option<u32>
    ensures { result ≡ mutex }
{
    match mutex {
        Some(mutex) => Some(mutex.get()),
        None => None,
    }
}
