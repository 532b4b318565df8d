ghost use Rattle.std.specs.Prelude.{◌≡◌, ◌↔◌, ◌<◌, ◌∷◌, [], ℕ, true, length, IfOk, OnOk};
ghost use Rattle.pif_model.specs.World.{mutex_at};
ghost use Rattle.pif_model.specs.Posix.{with_one_hold_less};
ghost use Rattle.pif_rules_model.specs.Rules.{answered_by, has_given, has_all_again, held_again_by, without_one};
ghost use Rattle.pif_rules_model.specs.Ruled.{hold_given, hold_taken, hold_moved};

use crate::State;
use crate::lost::{is_there, with_first, without_one};
use crate::next::{waited_next, waited_with};
use crate::wide::Wide;
use crate::wide_lists::joined;
use pif_model::{Entry, Event, Seen};
use pif_search::{Stop, one};
use std::alloc::Global;

/// The thread whose call an entry answers, if it answers one.
fn answered_by(entry: &Entry) -> Option<u32>
    ensures { result ≡ answered_by entry.now }
{
    match *entry {
        Entry::Step(Event::Go(thread), Seen::Answered(_)) => Some(thread.get()),
        _ => None,
    }
}

impl State {
    /// A mutex is held once more, if this thread owns it.
    fn hold_again(&mut self, thread: u32, mutex: u32) -> Result<(), Stop>
        ensures { OnOk result (self.new ≡ held_again_by thread mutex self.old) }
    {
        let at = self.place_of_mutex(mutex)?;
        if self.owner_or_none(at) != thread {
            return Ok(());
        }
        let count = self.count(at).checked_add(1).ok_or(Stop::Range)?;
        self.set_count(at, count);
        Ok(())
    }
}

/// Holds that waits give up and take again.
impl Wide {
    /// Whether holds that a wait of a thread gave up are not taken again yet.
    fn has_given(&self, thread: u32) -> bool
        ensures { result ≡ has_given self.now thread }
    {
        is_there(self.given.as_slice(), thread)
    }

    /// Whether no wait has holds to take again.
    pub fn has_none_given(&self) -> bool
        ensures { result ≡ true ↔ self.now.given ≡ [] }
    {
        self.given.as_slice().is_empty()
    }

    /// Whether an entry answers no wait that has holds to take again.
    pub fn has_all_again(&self, entry: &Entry) -> bool
        ensures { result ≡ has_all_again self.now entry.now }
    {
        match answered_by(entry) {
            None => true,
            Some(thread) => !self.has_given(thread),
        }
    }

    /// The state once a wait of a thread has given up one of several holds of a mutex.
    fn with_hold_given(&self, alloc: Global, thread: u32, mutex: usize) -> Result<Wide, Stop>
        requires mutex { mutex < length self.now.world.mutexes }
        requires held { 1 < (mutex_at self.now.world mutex).count }
        ensures { IfOk result (λ n. n ≡ record self.now { world = with_one_hold_less mutex self.now.world; given = thread ∷ self.now.given }) }
    {
        let mut state = self.state.copied(alloc)?;
        state.set_count(mutex, self.state.count(mutex) - 1);
        let given = with_first(alloc, thread, self.given.as_slice())?;
        self.with(alloc, state, self.lost.as_slice(), given.as_slice())
    }

    /// The state once a wait of a thread, which is about to begin, has given up one of several holds; none if it can't.
    fn hold_given(&self, alloc: Global, thread: u32) -> Result<Vec<Wide>, Stop>
        ensures { IfOk result (λ v. v.items ≡ hold_given thread self.now) }
    {
        match waited_next(&self.state, thread as usize) {
            None => Ok(Vec::new(alloc)),
            Some((variable, mutex)) => {
                let bound_at = self.state.place_of_variable(variable)?;
                let at = self.state.place_of_mutex(mutex)?;
                if self.state.bound(bound_at) != mutex {
                    return Ok(Vec::new(alloc));
                }
                if self.state.owner_or_none(at) != thread {
                    return Ok(Vec::new(alloc));
                }
                if self.state.count(at) <= 1 {
                    return Ok(Vec::new(alloc));
                }
                let next = self.with_hold_given(alloc, thread, at)?;
                one(alloc, next)
            }
        }
    }

    /// The state once a wait of a thread, which is over, has taken one hold of a mutex again, or has forgotten it.
    fn with_hold_taken(&self, alloc: Global, thread: u32, mutex: u32) -> Result<Wide, Stop>
        ensures { IfOk result (λ n. n ≡ record self.now { world = held_again_by thread mutex self.now.world; given = without_one thread self.now.given }) }
    {
        let mut state = self.state.copied(alloc)?;
        state.hold_again(thread, mutex)?;
        let given = without_one(alloc, thread, self.given.as_slice())?;
        self.with(alloc, state, self.lost.as_slice(), given.as_slice())
    }

    /// The state once a wait of a thread, which is over, has taken one hold again, or has forgotten it; none if it has none
    /// to take.
    fn hold_taken(&self, alloc: Global, thread: u32) -> Result<Vec<Wide>, Stop>
        ensures { IfOk result (λ v. v.items ≡ hold_taken thread self.now) }
    {
        match waited_with(&self.state, thread as usize) {
            None => Ok(Vec::new(alloc)),
            Some(mutex) => {
                if !self.has_given(thread) {
                    return Ok(Vec::new(alloc));
                }
                let next = self.with_hold_taken(alloc, thread, mutex)?;
                one(alloc, next)
            }
        }
    }

    /// The states once a wait of a thread has given up one of several holds, or has taken one again.
    pub(crate) fn hold_moved(&self, alloc: Global, thread: u32) -> Result<Vec<Wide>, Stop>
        ensures { IfOk result (λ v. v.items ≡ hold_moved thread self.now) }
    {
        joined(
            self.hold_given(alloc, thread),
            self.hold_taken(alloc, thread),
        )
    }
}
