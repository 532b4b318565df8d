//! The calls of a client at its desk.
ghost use Rattle.std.specs.Prelude.{◌≡◌, true, false, Err, IfOk, IfErr, OnOk, OnErr, ◌⊎◌, if◌then◌else◌};
ghost use Rattle.pif_types.specs.declared.errors.Refusal.{Refusal};
ghost use Rattle.pif_desk.specs.declared.faults.DeskFault.{DeskFault};
ghost use Rattle.pif_desk.specs.Logs.{is_answer_to, has_open_call, new_call, with_answer};
ghost use Rattle.pif_desk.specs.Rooms.{client_after, with_call, with_end, receipt_call, Closes, IsEventFault};

use crate::book::Receipt;
use crate::client::Client;
use crate::desk::{Desk, Pause};
use crate::faults::DeskFault;
use crate::log::{Act, Reply};
use pif_model::Seen;
use pif_types::{NoMemory, Refusal, Request};
use std::sync::Wait;

impl Client {
    /// Makes one event, in one acquisition of the lock: what it was answered, and the position of its entry. Before a
    /// step of a thread that rests it sleeps until the thread may take one.
    fn make<P: Pause + Drop, R: Wait>(
        &mut self,
        rt: &R,
        desk: &Desk<P>,
        act: Act,
    ) -> Result<(Seen, usize), NoMemory>
        ensures fits { IfOk result (λ r. is_answer_to act r.0 ≡ true) }
        ensures log { IfOk result (λ r. self.new ≡ client_after act r.0 r.1 self.old) }
        ensures unchanged { OnErr result (self.new ≡ self.old) }
    {
        let t = self.t;
        let mut shared = desk.shared.lock(rt);
        if let Act::Go = &act {
            shared = desk.sleep(rt, shared, t);
        }
        let made = shared.play(self, act, &desk.bells)?;
        drop(shared);
        desk.pause.after(t, made.0);
        Ok(made)
    }

    /// Takes steps of the open call until it is answered: the answer, and the position of its entry. `NoMemory` if the
    /// journal can't grow, and refused as the core refuses a step; the call stays open then.
    fn finish<P: Pause + Drop, R: Wait>(
        &mut self,
        rt: &R,
        desk: &Desk<P>,
    ) -> Result<Reply, DeskFault>
        ensures answered { IfOk result (λ r. self.new ≡ record self.old { log = with_answer r.answer r.at self.old.log }) }
        ensures unchanged { OnErr result (self.new ≡ self.old) }
        ensures fault { IfErr result IsEventFault }
    {
        for _ in rt.forever() {
            match self.make(rt, desk, Act::Go) {
                Err(NoMemory) => return Err(DeskFault::NoMemory),
                Ok((Seen::Answered(answer), at)) => return Ok(Reply { answer, at }),
                Ok((Seen::Refused(refusal), _)) => return Err(DeskFault::Refused(refusal)),
                Ok((Seen::Went | Seen::Waits, _)) => {}
                Ok(_) => unreachable!(),
            }
        }
        unreachable!()
    }

    /// Makes a call: begins it, and takes its steps until it is answered. While its thread rests it sleeps, after it
    /// has looked a few times, until an event of another after which the thread rests no longer. The log has one
    /// answered call more.
    ///
    /// At `NoMemory` the event that needed memory didn't happen, and at a refusal nothing has changed. If that was the
    /// beginning of the call, the log is as it was; else the call is open, and `resume` goes on with it.
    pub fn call<P: Pause + Drop, R: Wait>(
        &mut self,
        rt: &R,
        desk: &Desk<P>,
        request: Request,
    ) -> Result<Receipt, DeskFault>
        ensures thread { IfOk result (λ r. r.t ≡ self.old.thread) }
        ensures request { IfOk result (λ r. r.request ≡ request) }
        ensures log { IfOk result (λ r. self.new ≡ with_call (receipt_call r) self.old) }
        ensures left { OnErr result ((self.new ≡ self.old) ⊎ (self.new ≡ with_call (new_call request) self.old)) }
        ensures fault { IfErr result IsEventFault }
    {
        self.begin(rt, desk, &request)?;
        let reply = self.finish(rt, desk)?;
        Ok(Receipt {
            t: self.t,
            request,
            answer: reply.answer,
            at: reply.at,
        })
    }

    /// Begins a call.
    fn begin<P: Pause + Drop, R: Wait>(
        &mut self,
        rt: &R,
        desk: &Desk<P>,
        request: &Request,
    ) -> Result<(), DeskFault>
        ensures begun { OnOk result (self.new ≡ with_call (new_call request.now) self.old) }
        ensures unchanged { OnErr result (self.new ≡ self.old) }
        ensures fault { IfErr result IsEventFault }
    {
        match self.make(rt, desk, Act::Begin(*request)) {
            Err(NoMemory) => Err(DeskFault::NoMemory),
            Ok((Seen::Begun, _)) => Ok(()),
            Ok((Seen::Refused(refusal), _)) => Err(DeskFault::Refused(refusal)),
            Ok(_) => unreachable!(),
        }
    }

    /// Goes on with the open call until it is answered. If none is open it makes no event, and is refused: `Dead` after
    /// `quit`, else `Idle`. At any fault the log is as it was, and an open call stays open.
    pub fn resume<P: Pause + Drop, R: Wait>(
        &mut self,
        rt: &R,
        desk: &Desk<P>,
    ) -> Result<Receipt, DeskFault>
        ensures thread { IfOk result (λ r. r.t ≡ self.old.thread) }
        ensures closes { IfOk result (λ r. Closes r self.old self.new) }
        ensures unchanged { OnErr result (self.new ≡ self.old) }
        ensures fault { IfErr result IsEventFault }
        ensures idle { has_open_call self.old.log ≡ false
            → result ≡ Err (DeskFault.Refused (if self.old.log.ended then Refusal.Dead else Refusal.Idle)) }
    {
        let Some(request) = self.open_request() else {
            return Err(DeskFault::Refused(if self.ended {
                Refusal::Dead
            } else {
                Refusal::Idle
            }));
        };
        let reply = self.finish(rt, desk)?;
        Ok(Receipt {
            t: self.t,
            request,
            answer: reply.answer,
            at: reply.at,
        })
    }

    /// Ends the thread, with a call open or not, and marks the log. At `NoMemory`, and if the core refuses it, the log
    /// is as it was.
    pub fn quit<P: Pause + Drop, R: Wait>(
        &mut self,
        rt: &R,
        desk: &Desk<P>,
    ) -> Result<(), DeskFault>
        ensures ended { OnOk result (self.new ≡ with_end self.old) }
        ensures unchanged { OnErr result (self.new ≡ self.old) }
        ensures fault { IfErr result IsEventFault }
    {
        match self.make(rt, desk, Act::End) {
            Err(NoMemory) => Err(DeskFault::NoMemory),
            Ok((Seen::Ended, _)) => Ok(()),
            Ok((Seen::Refused(refusal), _)) => Err(DeskFault::Refused(refusal)),
            Ok(_) => unreachable!(),
        }
    }
}
