ghost use Rattle.std.specs.Prelude.{◌≡◌, ◌++◌, OnOk};
ghost use Rattle.pif_history_told.specs.Runs.{comma_behind};

use pif_explore_told::push_all;
use pif_search::Stop;

/// Appends the comma that stands between elements and the next one. Before the first one there is none.
///
/// # Errors
///
/// Out of memory.
pub fn push_comma(elements: &mut Vec<u8>) -> Result<(), Stop>
    ensures { OnOk result (elements.new.items ≡ elements.old.items ++ comma_behind elements.old.items) }
{
    if elements.is_empty() {
        return Ok(());
    }
    push_all(elements, b",")
}
