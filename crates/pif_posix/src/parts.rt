ghost use Rattle.std.specs.Prelude.{◌≡◌, if◌then◌else◌, false};
ghost use Rattle.pif_model.specs.World.{is_call_blocked, sleeps, at_progress};
ghost use Rattle.pif_model.specs.Posix.{after_use, is_newly_blocked, is_counting};
ghost use Rattle.pif_model.specs.Deadlines.{ran_out, is_reached};
ghost use Rattle.pif_posix_steps.specs.Doing.{after_waking};
ghost use Rattle.pif_posix.specs.Shapes.{health_of, progress_of, call_of};

use crate::progress::{Call, Progress};
use crate::requests::is_reached;
use pif_model::Timer;
use pif_types::{Health, Kind};
use std::marker::Model;

/// A thread of the POSIX machine.
#[derive(Drop)]
pub struct Task {
    pub(crate) base: u32,
    pub(crate) living: bool,
    pub(crate) call: Option<Call>,
    pub(crate) timer: Timer,
    pub(crate) waits: u64,
    pub(crate) found: Vec<(u32, u64)>,
}

impl Model for Task {
    ghost use Rattle.pif_model.specs.World.{Thread};

    ghost Value = { Thread };

    ghost use Rattle.pif_posix.specs.Shapes.{call_of};

    ghost view = { λ x. record { base = x.base; living = x.living; call = call_of x.call; timer = x.timer; memory = record { waits = x.waits; found = x.found.items } } };
}

/// A mutex of the POSIX machine.
#[derive(Drop)]
pub struct Lockable {
    pub(crate) kind: Kind,
    pub(crate) robust: bool,
    pub(crate) owner: u32,
    pub(crate) count: u32,
    pub(crate) health: Health,
}

impl Model for Lockable {
    ghost use Rattle.pif_model.specs.World.{Mutex};

    ghost Value = { Mutex };

    ghost use Rattle.pif_posix.specs.Shapes.{health_of};

    ghost view = { λ x. record { kind = x.kind; robust = x.robust; owner = x.owner; count = x.count; health = health_of x.health } };
}

/// A condition variable of the POSIX machine.
#[derive(Drop)]
pub struct Signalled {
    pub(crate) mutex: u32,
    pub(crate) uses: u32,
}

impl Model for Signalled {
    ghost use Rattle.pif_model.specs.World.{Variable};

    ghost Value = { Variable };

    ghost view = { λ x. record { mutex = x.mutex; uses = x.uses } };
}

impl Task {
    /// Its open call comes this far.
    pub(crate) fn come(&mut self, progress: Progress)
        ensures { self.new ≡ record self.old { call = at_progress (progress_of progress) self.old.call } }
    {
        if let Some(call) = &mut self.call {
            call.progress = progress;
        }
    }

    /// It is unblocked, if it was blocked.
    pub(crate) fn wake(&mut self)
        ensures { self.new ≡ after_waking self.old }
    {
        if let Some(call) = &mut self.call {
            call.progress = call.progress.unblocked();
        }
    }

    /// Whether it is blocked on this variable, and was not told to wait yet.
    fn is_newly_blocked(&self, variable: u32) -> bool
        ensures { result ≡ is_newly_blocked variable self.now.call }
    {
        match &self.call {
            None => false,
            Some(call) => call.is_newly_blocked(variable),
        }
    }

    /// A signal or broadcast uses this variable.
    pub(crate) fn see_use(&mut self, variable: u32)
        ensures { self.new ≡ after_use variable self.old }
    {
        if self.is_newly_blocked(variable) {
            self.wake();
        }
    }

    /// Its open call has run out of time.
    pub(crate) fn run_out(&mut self)
        ensures { self.new ≡ record self.old { timer = ran_out self.old.timer } }
    {
        self.timer.expired = true;
    }

    /// Whether it is blocked on this variable.
    pub(crate) fn is_blocked_on(&self, variable: u32) -> bool
        ensures { result ≡ is_call_blocked variable self.now.call }
    {
        match &self.call {
            None => false,
            Some(call) => call.is_blocked_on(variable),
        }
    }

    /// Whether its call waits for good, or is blocked and was told to wait.
    pub(crate) fn sleeps(&self) -> bool
        ensures { result ≡ sleeps self.now.call }
    {
        match &self.call {
            None => false,
            Some(call) => call.progress.is_idle(),
        }
    }

    /// Whether its open call is due at this time: its deadline counts, and is reached.
    pub(crate) fn is_due(&self, time: u32) -> bool
        ensures { result ≡ (if is_reached self.now.timer.deadline time then is_counting self.now.call else false) }
    {
        if !is_reached(self.timer.deadline, time) {
            return false;
        }
        match &self.call {
            None => false,
            Some(call) => call.is_counting(),
        }
    }
}
