ghost use Rattle.std.specs.Prelude.{◌≡◌};
ghost use Rattle.pif_nodes_model.specs.Order.{comes_before};

use pif_nodes::Key;

/// Whether a key comes before another: its priority is higher, or equal and its ticket lower.
pub fn precedes(one: Key, other: Key) -> bool
    ensures { result ≡ comes_before one other }
{
    one.prio > other.prio || one.prio == other.prio && one.ticket < other.ticket
}
