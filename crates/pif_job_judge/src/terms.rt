ghost use Rattle.std.specs.Prelude.{◌≡◌};
ghost use Rattle.pif_history_text.specs.Reading.{heard_of};
ghost use Rattle.pif_job_judge.specs.Terms.{terms_of};

use pif_history_text::History;
use pif_judge_reasons::Terms;

/// By which rules and within which limits the lines of a history are searched: those that it has. So many states are
/// made at most for one line.
pub fn terms_of(history: &History, states: usize) -> Terms
    ensures { result ≡ terms_of (heard_of history.now) states }
{
    Terms {
        rules: history.allowed,
        limits: history.limits(),
        states,
    }
}
