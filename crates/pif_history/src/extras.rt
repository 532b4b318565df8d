//! What rules add to the hidden steps that are worth trying before a line.
use crate::needs::{Need, is_wait};
use crate::scene::Scene;
use pif_history_model::Line;
use pif_posix::named_by;
use pif_rules_model::Rules;
use pif_search::{Stop, push};
use pif_types::{Answer, Errno, Request};
use std::alloc::Global;

/// A hidden step that is worth trying since rules are allowed.
#[derive(Clone, Copy, Drop)]
pub(crate) enum Extra {
    /// A move of the open call of the thread of this number, by a rule or not.
    Moves(usize),
    /// The end of the thread of this number, by a rule or not.
    Ends(usize),
    /// A move by a rule of the open call of the thread of this number.
    ByRule(usize),
}

/// A state in front of a line of a history, which allows these rules.
#[derive(Clone, Copy)]
pub(crate) struct Allowed<'a> {
    pub(crate) scene: Scene<'a>,
    pub(crate) rules: &'a Rules,
}

/// Whether this is an error that may hold of a call beside the one that is its result.
fn is_other_error(answer: Answer) -> bool {
    answer == Errno::TimedOut.number()
        || answer == Errno::Busy.number()
        || answer == Errno::NotRecoverable.number()
}

/// The thread moves by a rule, as one more step that is worth trying.
fn try_by_rule(extras: &mut Vec<Extra>, thread: usize) -> Result<(), Stop> {
    push(extras, Extra::ByRule(thread))
}

impl Allowed<'_> {
    /// How many threads there are, with nobody.
    fn thread_count(&self) -> usize {
        self.scene.world().thread_count()
    }

    /// Whether the open call of a thread has got a mutex, of which another thread may rob it, so that its result is
    /// another one in the end.
    fn may_be_robbed(&self, thread: usize) -> bool {
        if !self.rules.steal {
            return false;
        }
        let got = match self.scene.need(thread) {
            Need::Has(result_of) => result_of == 0 || result_of == Errno::OwnerDead.number(),
            _ => false,
        };
        got && match self.scene.world().call(thread) {
            Some(call) => match call.request {
                Request::Lock(_) | Request::Wait(_, _) => true,
                _ => false,
            },
            None => false,
        }
    }

    /// Whether the open call of a thread failed, and another error that may hold of it will be the answer.
    fn may_fail_otherwise(&self, thread: usize) -> bool {
        if !self.rules.other_error {
            return false;
        }
        match (self.scene.need(thread), self.scene.known(thread)) {
            (Need::Has(result_of), Some(answer)) => result_of != 0 && is_other_error(answer),
            _ => false,
        }
    }

    /// Whether the open call of a thread, which has its result, may change by a rule: it is answered another error, or is
    /// a wait that takes its holds again.
    fn may_change_at_its_end(&self, thread: usize) -> bool {
        let takes = self.rules.wait_gives_all && is_wait(self.scene.world(), thread);
        takes || self.may_fail_otherwise(thread)
    }

    /// Whether each open call can still be answered as the later lines say.
    pub(crate) fn is_hopeful(&self) -> bool {
        for thread in 0..self.thread_count() {
            let may_change = self.may_be_robbed(thread) || self.may_fail_otherwise(thread);
            if self.scene.is_doomed(thread) && !may_change {
                return false;
            }
        }
        true
    }

    /// How good the position is, the smaller the better: how many threads have to be robbed, how soon a wait has to be
    /// woken, and how many waits were woken that are to rest.
    pub(crate) fn rank(&self) -> (usize, usize, usize) {
        let mut doomed = 0_usize;
        let mut restless = 0_usize;
        for thread in 0..self.thread_count() {
            if self.scene.is_doomed(thread) {
                doomed = doomed.saturating_add(1);
            }
            if let Need::Takes(_) = self.scene.need(thread)
                && self.scene.will_rest(thread)
            {
                restless = restless.saturating_add(1);
            }
        }
        (doomed, usize::MAX - self.scene.first_blocked(), restless)
    }

    /// What is worth trying before this line since rules are allowed.
    pub(crate) fn extras(&self, alloc: Global, line: &Line) -> Result<Vec<Extra>, Stop> {
        let mut extras = Vec::new(alloc);
        if !self.scene.halted && self.scene.first_at_once().is_none() {
            self.try_for(line, &mut extras)?;
        }
        Ok(extras)
    }

    /// Adds what is worth trying before this line since rules are allowed, if nothing happens at once.
    fn try_for(&self, line: &Line, extras: &mut Vec<Extra>) -> Result<(), Stop> {
        match *line {
            Line::Answer(thread, answer) => {
                self.try_to_answer(thread.get() as usize, answer, extras)
            }
            Line::Halted => self.try_for_looks(extras),
            _ => self.try_to_see(line, extras),
        }
    }

    /// Adds what is worth trying before nothing runs at this line: what may make that true, by rules, which is seen then.
    fn try_for_looks(&self, extras: &mut Vec<Extra>) -> Result<(), Stop> {
        let Some(looks) = self.scene.later.looks(self.scene.line) else {
            return Ok(());
        };
        for look in looks {
            self.try_to_see(look, extras)?;
        }
        Ok(())
    }

    /// Adds what may make true, by rules, what this line tells of the state.
    fn try_to_see(&self, line: &Line, extras: &mut Vec<Extra>) -> Result<(), Stop> {
        match *line {
            Line::End(thread) => self.try_to_pass_on(thread.get() as usize, extras),
            Line::Rests(thread) => self.try_to_rest(thread.get() as usize, extras),
            Line::Prio(_, _) => {
                for other in 0..self.thread_count() {
                    self.try_to_rob(other, extras)?;
                    self.try_to_pass_on(other, extras)?;
                    self.try_to_go_on(other, extras)?;
                }
                Ok(())
            }
            _ => Ok(()),
        }
    }

    /// Adds what may lead, by rules, to this answer of the open call of a thread.
    fn try_to_answer(
        &self,
        thread: usize,
        answer: Answer,
        extras: &mut Vec<Extra>,
    ) -> Result<(), Stop> {
        match self.scene.need(thread) {
            Need::Takes(mutex) | Need::Tries(mutex) => {
                self.try_to_take(thread, mutex, answer, extras)
            }
            Need::Queued(mutex) => {
                let owner = self.scene.owner(mutex);
                self.try_to_go_on(thread, extras)?;
                self.try_to_pass_on(owner, extras)?;
                self.try_to_rob(owner, extras)
            }
            Need::Blocked(_, _, _) => try_by_rule(extras, thread),
            Need::Signals(variable) => {
                self.try_to_lose(variable, extras)?;
                self.try_to_consume(variable, extras)
            }
            Need::Sets(other, _) => self.try_before_setting(other as usize, answer, extras),
            Need::Acts => self.try_before_mending(thread, extras),
            Need::Has(_) if self.may_change_at_its_end(thread) => try_by_rule(extras, thread),
            _ => Ok(()),
        }
    }

    /// Adds what may lead, by rules, to this answer of the open call of a thread, which takes a mutex.
    fn try_to_take(
        &self,
        thread: usize,
        mutex: u32,
        answer: Answer,
        extras: &mut Vec<Extra>,
    ) -> Result<(), Stop> {
        let owner = self.scene.owner(mutex);
        if self.rules.other_error && is_other_error(answer) {
            push(extras, Extra::Moves(thread))?;
        }
        if owner == 0 {
            self.try_to_wake(thread, mutex, extras)?;
            return self.try_waiters(mutex, extras);
        }
        self.try_to_pass_on(owner, extras)?;
        if answer == Errno::Deadlock.number() {
            return self.try_to_refuse(thread, owner, extras);
        }
        if answer == 0 || answer == Errno::OwnerDead.number() {
            return try_by_rule(extras, thread);
        }
        Ok(())
    }

    /// Whether a thread is dying, and lives yet.
    fn may_end(&self, thread: usize) -> bool {
        self.scene.is_dying(thread) && self.scene.world().is_living(thread)
    }

    /// Adds what may make a thread rest, by rules: a mutex is taken that it wants, or it is robbed of one.
    fn try_to_rest(&self, thread: usize, extras: &mut Vec<Extra>) -> Result<(), Stop> {
        match self.scene.need(thread) {
            Need::Takes(mutex) if self.scene.owner(mutex) == 0 => self.try_waiters(mutex, extras),
            _ => self.try_to_rob(thread, extras),
        }
    }

    /// Adds that a thread that waits for a mutex takes it, if nobody owns it.
    fn try_to_go_on(&self, thread: usize, extras: &mut Vec<Extra>) -> Result<(), Stop> {
        match self.scene.need(thread) {
            Need::Queued(mutex) if self.rules.barge && self.scene.owner(mutex) == 0 => {
                try_by_rule(extras, thread)
            }
            _ => Ok(()),
        }
    }

    /// Adds that a thread that waits for this mutex, which nobody owns, takes it.
    fn try_waiters(&self, mutex: u32, extras: &mut Vec<Extra>) -> Result<(), Stop> {
        for other in 0..self.thread_count() {
            if let Need::Queued(wanted) = self.scene.need(other)
                && wanted == mutex
                && self.scene.may_own(other)
            {
                self.try_to_go_on(other, extras)?;
            }
        }
        Ok(())
    }

    /// Adds that a robust mutex of a thread passes on that has ended before, or stayed with it until its process ended.
    fn try_to_pass_on(&self, thread: usize, extras: &mut Vec<Extra>) -> Result<(), Stop> {
        let has_left = self.scene.is_dying(thread) && !self.scene.world().is_living(thread);
        let has_exited = self.rules.stays_locked && self.scene.has_exited(thread);
        if (self.rules.ends_apart && has_left) || has_exited {
            push(extras, Extra::Ends(thread))
        } else {
            Ok(())
        }
    }

    /// Adds what may make a lock hopeless by a thread, since the owner of its mutex ends, and that the lock is refused.
    fn try_to_refuse(
        &self,
        thread: usize,
        owner: usize,
        extras: &mut Vec<Extra>,
    ) -> Result<(), Stop> {
        if !self.rules.cycle_refused || owner == thread {
            return Ok(());
        }
        if self.may_end(owner) {
            push(extras, Extra::Ends(owner))?;
        }
        try_by_rule(extras, thread)
    }

    /// Adds that a wait runs out of time, which takes a signal of this variable with it.
    fn try_to_consume(&self, variable: u32, extras: &mut Vec<Extra>) -> Result<(), Stop> {
        if !self.rules.timeout_consumes {
            return Ok(());
        }
        for other in 0..self.thread_count() {
            if let Need::Blocked(wanted, _, _) = self.scene.need(other)
                && wanted == variable
                && self.scene.is_overdue(other)
            {
                try_by_rule(extras, other)?;
            }
        }
        Ok(())
    }

    /// Adds that a thread ends before its priority is set, which is answered 0 then too.
    fn try_before_setting(
        &self,
        thread: usize,
        answer: Answer,
        extras: &mut Vec<Extra>,
    ) -> Result<(), Stop> {
        if self.rules.refuses_setprio && answer == 0 && self.may_end(thread) {
            push(extras, Extra::Ends(thread))
        } else {
            Ok(())
        }
    }

    /// Adds that a thread steals a mutex from this owner.
    fn try_to_rob(&self, owner: usize, extras: &mut Vec<Extra>) -> Result<(), Stop> {
        if !self.may_be_robbed(owner) {
            return Ok(());
        }
        for other in 0..self.thread_count() {
            if let Need::Takes(mutex) = self.scene.need(other)
                && self.scene.owner(mutex) == owner
                && self.scene.may_own(other)
            {
                try_by_rule(extras, other)?;
            }
        }
        Ok(())
    }

    /// Adds that another thread wakes by itself, which takes a mutex then that nobody owns.
    fn try_to_wake(&self, thread: usize, mutex: u32, extras: &mut Vec<Extra>) -> Result<(), Stop> {
        if !self.rules.spurious {
            return Ok(());
        }
        for other in 0..self.thread_count() {
            if let Need::Blocked(_, wanted, _) = self.scene.need(other)
                && wanted == mutex
                && other != thread
                && self.scene.may_own(other)
            {
                try_by_rule(extras, other)?;
            }
        }
        Ok(())
    }

    /// Adds that a thread ends that is blocked on a variable, so that a signal is lost for it.
    fn try_to_lose(&self, variable: u32, extras: &mut Vec<Extra>) -> Result<(), Stop> {
        if !self.rules.lost_signal {
            return Ok(());
        }
        for other in 0..self.thread_count() {
            if let Need::Blocked(wanted, _, _) = self.scene.need(other)
                && wanted == variable
                && self.may_end(other)
            {
                push(extras, Extra::Ends(other))?;
            }
        }
        Ok(())
    }

    /// The mutex that the open call of a thread makes consistent; 0 if it makes none.
    fn mended_by(&self, thread: usize) -> u32 {
        match self.scene.world().call(thread) {
            Some(call) => match call.request {
                Request::Consistent(_) => named_by(&call.request),
                _ => 0,
            },
            None => 0,
        }
    }

    /// Adds what others do to the mutex that a thread makes consistent, which may own it or not.
    fn try_before_mending(&self, thread: usize, extras: &mut Vec<Extra>) -> Result<(), Stop> {
        let mutex = self.mended_by(thread);
        let may_be_any = self.rules.any_consistent || self.rules.consistent_by_any;
        if !may_be_any || mutex == 0 {
            return Ok(());
        }
        for other in 0..self.thread_count() {
            let uses = match self.scene.need(other) {
                Need::Takes(used) | Need::Tries(used) | Need::Unlocks(used) => used == mutex,
                Need::Acts => self.mended_by(other) == mutex,
                _ => false,
            };
            if uses && other != thread {
                push(extras, Extra::Moves(other))?;
            }
        }
        Ok(())
    }
}
