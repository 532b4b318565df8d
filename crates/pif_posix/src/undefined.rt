ghost use Rattle.std.specs.Prelude.{◌≡◌, ℕ, Bool};
ghost use Rattle.pif_types.specs.declared.requests.Kind.{Kind};
ghost use Rattle.pif_model.specs.World.{mutex_at, variable_at};
ghost use Rattle.pif_rules_model.specs.Undefined.{leaves_unlock_undefined, leaves_wait_undefined, is_not_owned_and, is_waited_for_elsewhere, has_gone, is_undefined_by, is_left_undefined};

use crate::{Call, Progress, State};
use pif_types::{Kind, Request};

/// Whether a mutex of this kind that isn't robust leaves undefined what an unlock by another than its owner does.
fn leaves_unlock_undefined(kind: Kind) -> bool
    ensures { result ≡ leaves_unlock_undefined kind }
{
    match kind {
        Kind::Normal => true,
        Kind::ErrorCheck => false,
        Kind::Recursive => false,
    }
}

/// Whether it leaves undefined what a wait by another than its owner does.
fn leaves_wait_undefined(kind: Kind) -> bool
    ensures { result ≡ leaves_wait_undefined kind }
{
    match kind {
        Kind::Normal => true,
        Kind::ErrorCheck => false,
        Kind::Recursive => true,
    }
}

/// Calls whose behaviour POSIX leaves undefined.
impl State {
    /// Whether a mutex is robust; false if it was not added.
    fn is_known_robust(&self, mutex: usize) -> bool
        ensures { result ≡ (mutex_at self.now mutex).robust }
    {
        mutex < self.mutex_count() && self.is_robust(mutex)
    }

    /// The kind of a mutex; a normal one if it was not added.
    fn kind_or_normal(&self, mutex: usize) -> Kind
        ensures { result ≡ (mutex_at self.now mutex).kind }
    {
        if mutex < self.mutex_count() {
            self.kind(mutex)
        } else {
            Kind::Normal
        }
    }

    /// The mutex to which a variable is bound; 0 if it was not added.
    fn bound_or_none(&self, variable: usize) -> u32
        ensures { result ≡ (variable_at self.now variable).mutex }
    {
        if variable < self.variable_count() {
            self.bound(variable)
        } else {
            0
        }
    }

    /// Whether a thread doesn't own a mutex, which isn't robust, and whose kind leaves undefined what the thread does
    /// with it.
    fn is_not_owned_and(&self, thread: usize, mutex: usize, undefined: bool) -> bool
        ensures { (f : Kind → Bool) → undefined ≡ f (mutex_at self.now mutex).kind → result ≡ is_not_owned_and f self.now thread mutex }
    {
        if self.is_known_robust(mutex) {
            return false;
        }
        if self.owner_or_none(mutex) as usize == thread {
            return false;
        }
        undefined
    }

    /// Whether an unlock of a mutex by a thread is undefined.
    fn is_unlock_undefined(&self, thread: usize, mutex: usize) -> bool
        ensures { result ≡ is_not_owned_and leaves_unlock_undefined self.now thread mutex }
    {
        let undefined = leaves_unlock_undefined(self.kind_or_normal(mutex));
        self.is_not_owned_and(thread, mutex, undefined)
    }

    /// Whether a wait with a mutex by a thread is undefined, since the thread doesn't own it.
    fn is_wait_undefined(&self, thread: usize, mutex: usize) -> bool
        ensures { result ≡ is_not_owned_and leaves_wait_undefined self.now thread mutex }
    {
        let undefined = leaves_wait_undefined(self.kind_or_normal(mutex));
        self.is_not_owned_and(thread, mutex, undefined)
    }

    /// Whether a thread is blocked on a variable with another mutex than this one.
    fn is_waited_for_elsewhere(&self, variable: u32, mutex: u32) -> bool
        ensures { result ≡ is_waited_for_elsewhere self.now variable mutex }
    {
        if self.bound_or_none(variable as usize) == mutex {
            return false;
        }
        self.is_anyone_blocked(variable)
    }

    /// Whether a thread has ended.
    fn has_gone(&self, thread: usize) -> bool
        ensures { result ≡ has_gone self.now thread }
    {
        thread != 0 && thread < self.thread_count() && !self.is_living(thread)
    }

    /// Whether POSIX leaves undefined what this call of a thread does, which has had no effect.
    fn is_undefined_by(&self, thread: usize, request: &Request) -> bool
        ensures { result ≡ is_undefined_by self.now thread request.now }
    {
        match *request {
            Request::Unlock(mutex) => self.is_unlock_undefined(thread, mutex.get() as usize),
            Request::Wait(cond, mutex) => {
                self.is_wait_undefined(thread, mutex.get() as usize)
                    || self.is_waited_for_elsewhere(cond.get(), mutex.get())
            }
            Request::SetPrio(other, _) => self.has_gone(other.get() as usize),
            _ => false,
        }
    }

    /// Whether the open call of a thread has had no effect, and POSIX leaves undefined what it does: it unlocks a normal
    /// mutex, or waits with a normal or a recursive one, that isn't robust and that the thread doesn't own; or it waits
    /// with another mutex than threads that are blocked on the variable; or it changes the priority of a thread that has
    /// ended. False for a thread that has no open call, or was never added.
    pub fn is_left_undefined(&self, thread: usize) -> bool
        ensures { result ≡ is_left_undefined self.now thread }
    {
        match &self.call(thread) {
            Some(
                Call {
                    request,
                    progress: Progress::Fresh,
                },
            ) => self.is_undefined_by(thread, request),
            _ => false,
        }
    }
}
