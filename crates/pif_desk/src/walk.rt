//! A walk over the journal from its end, which compares it with a log and takes no memory.
ghost use Rattle.std.specs.Prelude.{◌≡◌, ◌≤◌, ◌↔◌, length, Bool, IsTrue, IsFalse};
ghost use Rattle.pif_desk.specs.Logs.{Log, log_of, log_after, begun, calls_of};
ghost use Rattle.pif_desk.specs.Rooms.{history_of};
ghost use Rattle.pif_desk.specs.Settling.{IsRestOfLogAt};

use crate::log::{Call, Mark, Reply};
use pif_model::Entry;
use pif_types::{Request, Tid};

/// How far a log was compared with a journal, from the end of both: how many of its calls are left, the reply that was
/// seen and belongs to the last of them, and whether the end of the thread was seen.
#[derive(Clone, Copy)]
struct Walk {
    left: usize,
    reply: Option<Reply>,
    end_seen: bool,
}

/// Whether a call has this request, and just this reply.
fn is_call(call: &Call, request: &Request, reply: &Option<Reply>) -> bool
    ensures { IsTrue result ↔ (call.now ≡ record { request = request.now; reply = reply.now }) }
{
    call.request == *request && call.reply == *reply
}

impl Walk {
    /// Goes back over what an entry at this position tells. False if the log can't have what is told.
    fn back(&mut self, mark: &Mark, at: usize, calls: &[Call]) -> bool
        requires { self.old.left ≤ length calls.now }
        ensures within { self.new.left ≤ length calls.now }
        ensures goes_on { IsTrue result → (ended : Bool) (l : Log)
            → IsRestOfLogAt calls.now ended self.old (log_after mark.now at l) ↔ IsRestOfLogAt calls.now ended self.new l }
        ensures stops { IsFalse result → (ended : Bool) (l : Log)
            → IsRestOfLogAt calls.now ended self.old (log_after mark.now at l) → ⊥ }
    {
        match mark {
            Mark::Begun(request) => self.back_over_call(request, calls),
            Mark::Answered(answer) => {
                self.reply = Some(Reply {
                    answer: *answer,
                    at,
                });
                true
            }
            Mark::Ended => {
                self.end_seen = true;
                true
            }
            Mark::Nothing => true,
        }
    }

    /// Goes back over a call that has begun. False if the log has no such call there.
    fn back_over_call(&mut self, request: &Request, calls: &[Call]) -> bool
        requires { self.old.left ≤ length calls.now }
        ensures within { self.new.left ≤ length calls.now }
        ensures goes_on { IsTrue result → (ended : Bool) (l : Log)
            → IsRestOfLogAt calls.now ended self.old (begun request.now l) ↔ IsRestOfLogAt calls.now ended self.new l }
        ensures stops { IsFalse result → (ended : Bool) (l : Log)
            → IsRestOfLogAt calls.now ended self.old (begun request.now l) → ⊥ }
    {
        if self.left == 0 {
            return false;
        }
        self.left -= 1;
        let same = is_call(&calls[self.left], request, &self.reply);
        self.reply = None;
        same
    }
}

/// Whether the calls of this thread in the journal are just these calls, and its end.
pub(crate) fn has_calls(journal: &[Entry], thread: &Tid, calls: &[Call], ended: bool) -> bool
    ensures { IsTrue result ↔ (log_of calls.now ended ≡ calls_of thread.now (history_of journal.now)) }
{
    let mut walk = Walk {
        left: calls.len(),
        reply: None,
        end_seen: false,
    };
    let mut at = journal.len();
    while at > 0 {
        at -= 1;
        let mark = Mark::within(&journal[at], thread);
        if !walk.back(&mark, at, calls) {
            return false;
        }
    }
    walk.left == 0 && walk.end_seen == ended
}
