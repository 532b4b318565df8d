ghost use Rattle.std.specs.Prelude.{◌≡◌, IfOk};

use crate::parts::{Lockable, Signalled, Task};
use crate::state::State;
use pif_search::{Stop, push};
use std::alloc::Global;

/// What can be copied, if there is memory.
trait Copied: Drop + Sized {
    /// A copy.
    fn copied(&self, alloc: Global) -> Result<Self, Stop>
        ensures { IfOk result (λ c. c ≡ self.now) };
}

impl Copied for Task {
    fn copied(&self, alloc: Global) -> Result<Task, Stop> {
        let found = Vec::from_slice(alloc, self.found.as_slice())?;
        Ok(Task {
            base: self.base,
            living: self.living,
            call: self.call,
            timer: self.timer,
            waits: self.waits,
            found,
        })
    }
}

impl Copied for Lockable {
    fn copied(&self, _alloc: Global) -> Result<Lockable, Stop> {
        Ok(Lockable {
            kind: self.kind,
            robust: self.robust,
            owner: self.owner,
            count: self.count,
            health: self.health,
        })
    }
}

impl Copied for Signalled {
    fn copied(&self, _alloc: Global) -> Result<Signalled, Stop> {
        Ok(Signalled {
            mutex: self.mutex,
            uses: self.uses,
        })
    }
}

/// Copies of these, in their order.
fn all_copied<T: Copied>(alloc: Global, items: &[T]) -> Result<Vec<T>, Stop>
    ensures { IfOk result (λ v. v.items ≡ items.now) }
{
    let mut all = Vec::with_capacity(alloc, items.len())?;
    for item in items {
        let copy = item.copied(alloc)?;
        push(&mut all, copy)?;
    }
    Ok(all)
}

impl State {
    /// A copy of the state.
    ///
    /// # Errors
    ///
    /// Out of memory.
    pub fn copied(&self, alloc: Global) -> Result<State, Stop>
        ensures { IfOk result (λ s. s ≡ self.now) }
    {
        let threads = all_copied(alloc, self.threads.as_slice())?;
        let mutexes = all_copied(alloc, self.mutexes.as_slice())?;
        let variables = all_copied(alloc, self.variables.as_slice())?;
        let waiters = Vec::from_slice(alloc, self.waiters.as_slice())?;
        Ok(State {
            threads,
            mutexes,
            variables,
            waiters,
            signals: self.signals,
            time: self.time,
        })
    }
}
