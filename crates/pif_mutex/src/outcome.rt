ghost use Rattle.std.specs.Prelude.{◌≡◌, true};
ghost use Rattle.pif_model.specs.Table.{has_thread, has_mutex};
ghost use Rattle.pif_model.specs.Lines.{goes_to, goes_by, ends_by, waits_at, answers, answered_by, clears, with_pending_field};
ghost use Rattle.pif_kernel_calls.specs.Answers.{unit_answer};
ghost use Rattle.pif_mutex.specs.Outcomes.{outcome_of};

use crate::progress::Progress;
use crate::state::State;
use pif_kernel_calls::PiKernel;
use pif_model::{Line, Place, PlainRequest};
use pif_types::{Answer, Errno, MutexId, Tid};

/// What a line can come to, and the writes of the pending field, after or before which a call goes on or ends.
impl<K: PiKernel + Drop> State<K> {
    /// The call goes on at this place.
    pub fn go_on(&mut self, request: PlainRequest, place: Place, t: Tid) -> Progress
        requires { has_thread self.old t ≡ true }
        ensures { outcome_of result self.new ≡ goes_to t request place self.old }
    {
        self.set_line(t, Line::At(request, place));
        Progress::Went
    }

    /// The call goes on at the place `robust` for a robust mutex, and at the place `stalled` for a stalled one.
    pub fn go_by(
        &mut self,
        request: PlainRequest,
        m: MutexId,
        robust: Place,
        stalled: Place,
        t: Tid,
    ) -> Progress
        requires known { has_thread self.old t ≡ true }
        requires mutex { has_mutex self.old m ≡ true }
        ensures { outcome_of result self.new ≡ goes_by t request m robust stalled self.old }
    {
        if self.is_robust(m) {
            self.go_on(request, robust, t)
        } else {
            self.go_on(request, stalled, t)
        }
    }

    /// The call goes on at this place for a robust mutex, and is closed with this answer for a stalled one.
    pub fn end_by(
        &mut self,
        request: PlainRequest,
        m: MutexId,
        robust: Place,
        answer: Answer,
        t: Tid,
    ) -> Progress
        requires known { has_thread self.old t ≡ true }
        requires mutex { has_mutex self.old m ≡ true }
        ensures { outcome_of result self.new ≡ ends_by t request m robust answer self.old }
    {
        if self.is_robust(m) {
            self.go_on(request, robust, t)
        } else {
            self.answer(t, answer)
        }
    }

    /// The thread waits at this place.
    pub fn wait(&mut self, request: PlainRequest, place: Place, t: Tid) -> Progress
        requires { has_thread self.old t ≡ true }
        ensures { outcome_of result self.new ≡ waits_at t request place self.old }
    {
        self.set_line(t, Line::At(request, place));
        Progress::Waits
    }

    /// The call is closed with this answer.
    pub fn answer(&mut self, t: Tid, answer: Answer) -> Progress
        requires { has_thread self.old t ≡ true }
        ensures { outcome_of result self.new ≡ answers t answer self.old }
    {
        self.set_line(t, Line::Idle);
        Progress::Done(answer)
    }

    /// The call is closed by what its kernel call answered: 0, or the number of the error.
    #[tactic(auto, unfolding(pif_model::specs::Lines::answered_by))]
    pub(crate) fn answer_by(&mut self, t: Tid, called: Result<(), Errno>) -> Progress
        requires { has_thread self.old t ≡ true }
        ensures { outcome_of result self.new ≡ answered_by (unit_answer called) t self.old }
    {
        match called {
            Ok(()) => self.answer(t, 0),
            Err(error) => self.answer(t, error.number()),
        }
    }

    /// Names the mutex in the pending field of the thread, and goes on at this place.
    pub(crate) fn name_pending(
        &mut self,
        request: PlainRequest,
        place: Place,
        t: Tid,
        m: MutexId,
    ) -> Progress
        requires known { has_thread self.old t ≡ true }
        requires mutex { has_mutex self.old m ≡ true }
        ensures { outcome_of result self.new ≡ goes_to t request place (with_pending_field t m self.old) }
    {
        self.set_pending(t, m);
        self.go_on(request, place, t)
    }

    /// Clears the pending field of the thread, and closes the call with this answer.
    #[tactic(auto, unfolding(pif_model::specs::Lines::clears))]
    pub(crate) fn clear(&mut self, t: Tid, answer: Answer) -> Progress
        requires { has_thread self.old t ≡ true }
        ensures { outcome_of result self.new ≡ clears answer t self.old }
    {
        self.clear_pending(t);
        self.answer(t, answer)
    }
}
