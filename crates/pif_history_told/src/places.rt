ghost use Rattle.std.specs.Prelude.{◌≡◌, ◌≤◌, ◌-◌, Some, slice_get, vec_len};
ghost use Rattle.pif_history_text.specs.Reading.{heard_of};
ghost use Rattle.pif_history_told.specs.Why.{IsNumbered};

use pif_history_model::Line;
use pif_history_text::History;

/// The number of a line, the nth, in the text of its history.
pub fn number_at(history: &History, count: usize) -> u32
    requires within { (1 ≤ count) × (count ≤ vec_len history.now.numbers) }
    ensures { IsNumbered (heard_of history.now) count result }
{
    history.numbers[count - 1]
}

/// A line of a history, the nth.
pub fn line_at(history: &History, count: usize) -> Line
    requires within { (1 ≤ count) × (count ≤ vec_len history.now.shown) }
    ensures { slice_get history.now.shown.items (count - 1) ≡ Some result }
{
    history.shown[count - 1]
}
