//! What is told of a core at the end of a schedule.
ghost use Rattle.std.specs.Prelude.{◌≡◌, ◌-◌, ◌≤◌, length, IfOk};
ghost use Rattle.pif_model.specs.Calls.{threads_answer};
ghost use Rattle.pif_job_explore.specs.Looking.{fate_by, fate_of, fates, has_died, health_by, health_of, named_in, outcome_of, owner_of, standings};

use crate::player::{Player, thread_at};
use pif_core::Status;
use pif_explore::{Outcome, Plan, fate_at};
use pif_explore_model::Fate;
use pif_posix::named_by;
use pif_search::{Stop, push};
use pif_types::{Answer, Health, MutexId, Request, Tid};
use pif_word::owner_died;
use std::alloc::Global;

/// The mutex that a call names; 0 if there is none.
fn named_in(call: &Option<Request>) -> usize
    ensures { result ≡ named_in call.now }
{
    match call {
        Some(request) => named_by(request) as usize,
        None => 0,
    }
}

/// The mutex of this number, which is at least 1.
fn mutex_at(number: u32) -> MutexId
    requires { 1 ≤ number }
    ensures { result ≡ number }
{
    match MutexId::new(number) {
        Some(mutex) => mutex,
        None => MutexId::default(),
    }
}

/// The health of a mutex by POSIX, by its health word and whether OWNER_DIED is set. Once its owner has ended it is
/// inconsistent, though the health word is written only when a thread takes it over.
fn health_by(health: Health, died: bool) -> Health
    ensures { result ≡ health_by health died }
{
    match health {
        Health::Fine if died => Health::Inconsistent,
        health => health,
    }
}

impl Player {
    /// What has become of a thread that is not through its program, by what it does.
    fn fate_by(&self, plan: &Plan, status: Status, thread: Tid) -> Fate
        ensures { result ≡ fate_by plan.now self.now thread status }
    {
        match status {
            Status::Ended => Fate::HasEnded,
            Status::Queued(mutex) => Fate::WaitsFor(mutex.get() as usize),
            Status::Parked(cond) => Fate::IsBlockedOn(cond.get() as usize),
            Status::Stopped => Fate::WaitsForGood(named_in(&self.core.open_call(thread))),
            Status::Ready(_) => fate_at(&self.point_of(plan, thread)),
        }
    }

    /// What has become of a thread.
    pub(crate) fn fate_of(&self, plan: &Plan, thread: Tid) -> Fate
        ensures { result ≡ fate_of plan.now self.now thread }
    {
        if self.point_of(plan, thread).is_none() {
            return Fate::IsThrough;
        }
        match self.core.status(thread) {
            Some(status) => self.fate_by(plan, status, thread),
            None => Fate::HasEnded,
        }
    }

    /// What has become of each thread, that of nobody first.
    fn fates(&self, alloc: Global, plan: &Plan) -> Result<Vec<Fate>, Stop>
        ensures { IfOk result (λ v. v.items ≡ fates plan.now self.now (threads_answer self.now.core)) }
    {
        let mut all = Vec::new(alloc);
        push(&mut all, Fate::IsThrough)?;
        for before in 0..self.core.threads() {
            let thread = thread_at(before + 1);
            push(&mut all, self.fate_of(plan, thread))?;
        }
        Ok(all)
    }

    /// The owner of a mutex; 0 if it has none.
    pub(crate) fn owner(&self, mutex: MutexId) -> u32
        ensures { result ≡ owner_of self.now mutex }
    {
        match self.core.owner(mutex) {
            Some((thread, _)) => thread.get(),
            None => 0,
        }
    }

    /// Whether OWNER_DIED is set in the word of a mutex.
    fn has_died(&self, mutex: MutexId) -> bool
        ensures { result ≡ has_died self.now mutex }
    {
        owner_died(self.core.word(mutex).unwrap_or(0))
    }

    /// The health of a mutex by POSIX; that of a mutex that was not added is fine.
    pub(crate) fn health(&self, mutex: MutexId) -> Health
        ensures { result ≡ health_of self.now mutex }
    {
        let health = self.core.health(mutex).unwrap_or(Health::Fine);
        health_by(health, self.has_died(mutex))
    }

    /// The owner and the health of each mutex, those of none first.
    fn standings(&self, alloc: Global) -> Result<Vec<(u32, Health)>, Stop>
        ensures { IfOk result (λ v. v.items ≡ standings self.now (length self.now.core.mutexes - 1)) }
    {
        let mut all = Vec::new(alloc);
        push(&mut all, (0, Health::Fine))?;
        for before in 0..self.core.mutexes() {
            let mutex = mutex_at(before + 1);
            push(&mut all, (self.owner(mutex), self.health(mutex)))?;
        }
        Ok(all)
    }

    /// The outcome to which the programs have come.
    pub(crate) fn outcome(&self, alloc: Global, plan: &Plan) -> Result<Outcome, Stop>
        ensures { IfOk result (λ o. o ≡ outcome_of plan.now self.now) }
    {
        // The check has to be told of the type of answers, which an outcome holds.
        let _no_answer: Option<Answer> = None;
        Ok(Outcome {
            answers: Vec::from_slice(alloc, self.answers.as_slice())?,
            fates: self.fates(alloc, plan)?,
            mutexes: self.standings(alloc)?,
            cells: Vec::from_slice(alloc, self.cells.as_slice())?,
        })
    }
}
