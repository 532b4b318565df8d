ghost use Rattle.std.specs.Prelude.{◌≡◌, length, map, IfOk};
ghost use Rattle.pif_model.specs.Graph.{waited_by};
ghost use Rattle.pif_model.specs.World.{Variable};
ghost use Rattle.pif_posix_steps.specs.Doing.{all_blocked};

use crate::parts::Signalled;
use crate::state::State;
use crate::waiting::waited;
use pif_search::Stop;
use std::alloc::Global;

impl Signalled {
    /// It doesn't count as used.
    fn forget(&mut self)
        ensures { self.new ≡ record self.old { uses = 0 } }
    {
        self.uses = 0;
    }
}

/// No variable counts as used.
fn forget_all(variables: &mut [Signalled])
    ensures { variables.new ≡ map (λ (x : Variable). record x { uses = 0 }) variables.old }
{
    for variable in variables.iter_mut() {
        variable.forget();
    }
}

/// What is told of a state, and the state in which uses of variables are not counted.
impl State {
    /// The mutex for which a thread waits; 0 if it waits for none.
    pub fn waited(&self, thread: usize) -> usize
        ensures { result ≡ waited_by self.now.waiters thread }
    {
        waited(self.waiters(), thread)
    }

    /// How many threads are blocked on a variable.
    ///
    /// # Errors
    ///
    /// Out of memory, or a number got too great for a state.
    pub fn blocked_count(&self, alloc: Global, variable: u32) -> Result<usize, Stop>
        ensures { IfOk result (λ n. n ≡ length (all_blocked self.now variable)) }
    {
        let all = self.all_blocked(alloc, variable)?;
        Ok(all.len())
    }

    /// No variable counts as used. All else stays as it is.
    pub fn forget_uses(&mut self)
        ensures { self.new ≡ record self.old { variables = map (λ (x : Variable). record x { uses = 0 }) self.old.variables } }
    {
        forget_all(&mut self.variables);
    }
}
