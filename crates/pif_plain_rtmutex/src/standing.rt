ghost use Rattle.std.specs.Prelude.{◌≡◌};
ghost use Rattle.pif_plain_rtmutex.specs.Standing.{leads};

use pif_nodes::Key as Rank;
use pif_plist::precedes;

/// Whether `one` stands before `other` among the waiters of a state. Who doesn't stand there is `None`, and leads
/// nobody.
pub fn leads(one: Option<Rank>, other: Option<Rank>) -> bool
    ensures { result ≡ leads one other }
{
    match one {
        Some(mine) => match other {
            Some(theirs) => precedes(mine, theirs),
            None => true,
        },
        None => false,
    }
}
