ghost use Rattle.std.specs.Prelude.{◌≡◌, ◌==◌, true, false, get_or, set, if◌then◌else◌};
ghost use Rattle.pif_types.specs.declared.requests.Kind.TheVariants.{Normal};
ghost use Rattle.pif_model.specs.Lines.{ended_table, library_after_end};
ghost use Rattle.pif_model.specs.PiKernel.{is_living};
ghost use Rattle.pif_model.specs.RobustList.{robust_at, walk_of};
ghost use Rattle.pif_model.specs.Table.{new_mutex};
ghost use Rattle.pif_model.specs.Word.{word_at};

use crate::state::State;
use pif_kernel_calls::PiKernel;
use pif_model::Line;
use pif_types::{MutexId, Tid};
use pif_word::number;

/// The end of a thread.
impl<K: PiKernel + Drop> State<K> {
    /// A living thread ends: its call is gone, and what its robust list and its pending field name passes on. What it
    /// held of those is held once from then on.
    #[cold]
    #[inline(never)]
    #[tactic(auto, unfolding(pif_model::specs::Lines::ended_table), using(crate::proofs::Assembly::exit_keeps_thread))]
    pub(crate) fn end(&mut self, t: Tid)
        requires living { is_living self.old.kernel t ≡ true }
        ensures { self.new ≡ ended_table t self.old }
    {
        self.reset_counts(t);
        self.exit(t);
        self.set_line(t, Line::Idle);
    }

    /// What a thread holds of the mutexes that its robust list and its pending field name is held once.
    fn reset_counts(&mut self, t: Tid)
        ensures { self.new ≡ record self.old {
          mutexes = library_after_end t (walk_of (robust_at self.old.lists t))
              self.old.words self.old.mutexes;
        } }
    {
        let mut next = self.lists.walk_first(t);
        while let Some(m) = next {
            self.reset_count(t, m);
            next = self.lists.walk_next(t, m);
        }
    }

    /// A mutex that was added and that the thread holds is held once.
    fn reset_count(&mut self, t: Tid, m: MutexId)
        ensures { self.new ≡ record self.old {
          mutexes = (if (word_at self.old.words m).number == t
              then set self.old.mutexes m (record (get_or self.old.mutexes m (new_mutex Normal false)) { count = 1 })
              else self.old.mutexes);
        } }
    {
        if m.get() < self.mutex_count() && number(self.word(m)) == t.get() {
            self.set_count(m, 1);
        }
    }
}
