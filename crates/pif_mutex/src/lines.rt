ghost use Rattle.std.specs.Prelude.{◌≡◌, true};
ghost use Rattle.pif_model.specs.PiKernel.{is_living};
ghost use Rattle.pif_model.specs.Lines.{go_outcome};
ghost use Rattle.pif_model.specs.Soundness.{IsSound};
ghost use Rattle.pif_model.specs.Table.{line_at};
ghost use Rattle.pif_mutex.specs.Outcomes.{outcome_of};

use crate::progress::Progress;
use crate::state::State;
use pif_kernel_calls::PiKernel;
use pif_model::{Line, Place, PlainRequest};
use pif_types::Tid;

/// The lines of some calls, each of them a step over the state inside of `Parts`: those on mutexes (`MutexLines`), or
/// those of a crate above.
pub trait Lines {
    ghost use Rattle.std.specs.Prelude.{Bool};
    ghost use Rattle.pif_model.specs.declared.lines.Line.{Line};

    /// Which lines these are.
    ghost include: { Line → Bool };

    /// One line: a step of `t`, which lives, and whose open call is this request at this place. A call that is due
    /// expires, and does nothing else. The state is sound before and after it, and not in between.
    fn take<K: PiKernel + Drop>(
        state: &mut State<K>,
        request: PlainRequest,
        place: Place,
        t: Tid,
    ) -> Progress
        requires sound { IsSound state.old }
        requires living { is_living state.old.kernel t ≡ true }
        requires line { line_at state.old t ≡ Line.At request place }
        requires included { include (Line.At request place) ≡ true }
        ensures { outcome_of result state.new ≡ go_outcome (Line.At request place) t state.old };
}

/// The lines on mutexes: those of lock, trylock, unlock, consistent and setprio, and those of a wait that gives its
/// mutex up, or locks it again.
pub struct MutexLines;

impl Lines for MutexLines {
    ghost use Rattle.pif_mutex.specs.Mutexes.{is_of_mutexes};

    ghost include = { is_of_mutexes };

    #[inline(always)]
    fn take<K: PiKernel + Drop>(
        state: &mut State<K>,
        request: PlainRequest,
        place: Place,
        t: Tid,
    ) -> Progress {
        state.go(request, place, t)
    }
}
