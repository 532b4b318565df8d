ghost use Rattle.std.specs.Prelude.{ℕ, ◌≡◌, ◌≢◌, None};
ghost use Rattle.pif_model.specs.declared.events.Seen.TheVariants.{Went};
ghost use Rattle.pif_model.specs.Standing.{WhereStands};
ghost use Rattle.pif_model.specs.Lines.{table_refusal};
ghost use Rattle.pif_model_simulation.specs.Calls.{StandsOn, call_outcome, after_call, after_finish, finish_outcome};

use crate::Core;
use pif_model::{Event, Seen};
use pif_types::{Request, Tid};

/// How often `Core::finish` goes on at most, after the first time: one less than the 24 steps within which an open call
/// is answered or waits (`Core::step`, `ends`).
pub const MORE_STEPS: u32 = 23;

impl Core {
    /// A whole call: the thread begins it, and goes on as in `finish`. `Refused` says that nothing has changed: the
    /// thread was never added or the call names what was never added (`NoSuch`), the thread has ended (`Dead`), or it
    /// has a call open already (`Busy`).
    #[tactic(auto, unfolding(pif_model_simulation::specs::Calls::call_outcome))]
    pub fn call(&mut self, thread: Tid, request: Request) -> Seen
        ensures seen { result ≡ (call_outcome thread request self.old).seen }
        ensures after { self.new ≡ (call_outcome thread request self.old).after }
        ensures ends { result ≢ Went }
        ensures stands { WhereStands self.old (λ h r w. StandsOn self.new (after_call thread request self.old h) r w) }
    {
        match self.begin_refusal(thread, &request) {
            Some(refusal) => Seen::Refused(refusal),
            None => {
                self.begin(thread, request);
                self.go_through(thread)
            }
        }
    }

    /// A thread goes on with its open call up to the first answer that isn't `Went`, at most 24 times; that is enough
    /// for each call of POSIX here, so the answer is never `Went`. `Answered` closes the call, with 0 or the number of
    /// an error. `Waits` leaves it open: the thread waits for others, or for its deadline. Once `Core::waiting` is false
    /// this is called again. `Refused` says that nothing has changed: the thread was never added (`NoSuch`), has ended (`Dead`), or
    /// has no call open (`Idle`).
    pub fn finish(&mut self, thread: Tid) -> Seen
        ensures seen { result ≡ (finish_outcome thread self.old).seen }
        ensures after { self.new ≡ (finish_outcome thread self.old).after }
        ensures ends { result ≢ Went }
        ensures stands { WhereStands self.old (λ h r w. StandsOn self.new (after_finish thread self.old h) r w) }
    {
        match self.go_refusal(thread) {
            Some(refusal) => Seen::Refused(refusal),
            None => self.go_through(thread),
        }
    }

    /// The same for a thread that is not refused. None of its steps is then, since one that went leaves it a step.
    #[inline(never)]
    fn go_through(&mut self, thread: Tid) -> Seen
        requires { table_refusal self.old (Event.Go thread) ≡ None }
        ensures seen { result ≡ (finish_outcome thread self.old).seen }
        ensures after { self.new ≡ (finish_outcome thread self.old).after }
    {
        for _turn in 0..MORE_STEPS + 1 {
            match self.go_on(thread) {
                Seen::Went => {}
                seen => return seen,
            }
        }
        unreachable!()
    }
}
