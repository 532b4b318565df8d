ghost use Rattle.std.specs.Prelude.{◌≡◌, true};
ghost use Rattle.pif_model.specs.Lines.{with_pending_field, nothing_pending};
ghost use Rattle.pif_model.specs.RobustList.{robust_at, is_listed, with_half_linked, with_listed, without_listed, IsUnlisted, IsHalfLinkedByNoOther};
ghost use Rattle.pif_model.specs.Table.{has_thread, has_mutex, with_lists};

use crate::state::State;
use pif_kernel_calls::PiKernel;
use pif_types::{MutexId, Tid};

/// The accesses of the robust lists, one word each.
impl<K: PiKernel + Drop> State<K> {
    /// Names a mutex, which was added, in the pending field of a thread that was added.
    pub(crate) fn set_pending(&mut self, t: Tid, m: MutexId)
        requires known { has_thread self.old t ≡ true }
        requires mutex { has_mutex self.old m ≡ true }
        ensures { self.new ≡ with_pending_field t m self.old }
    {
        self.lists.set_pending(t, m);
    }

    /// The pending field of a thread names no mutex.
    pub(crate) fn clear_pending(&mut self, t: Tid)
        ensures { self.new ≡ nothing_pending t self.old }
    {
        self.lists.clear_pending(t);
    }

    /// Writes the link of a mutex, which was added, is on no list, and is half-linked by no other thread, to the head
    /// of the list of a thread that was added.
    pub(crate) fn half_link(&mut self, t: Tid, m: MutexId)
        requires known { has_thread self.old t ≡ true }
        requires mutex { has_mutex self.old m ≡ true }
        requires unlisted { IsUnlisted self.old.lists m }
        requires half { IsHalfLinkedByNoOther self.old.lists t m }
        ensures { self.new ≡ with_lists (with_half_linked t m self.old.lists) self.old }
    {
        self.lists.link_next(t, m);
    }

    /// Makes a mutex, which the thread has half-linked, the head of its list.
    pub(crate) fn enlist(&mut self, t: Tid, m: MutexId)
        requires { (robust_at self.old.lists t).half_linked ≡ m }
        ensures { self.new ≡ with_lists (with_listed t m self.old.lists) self.old }
    {
        self.lists.link_head(t, m);
    }

    /// Takes a mutex off the list of the thread, on which it is.
    pub(crate) fn unlist(&mut self, t: Tid, m: MutexId)
        requires { is_listed self.old.lists t m ≡ true }
        ensures { self.new ≡ with_lists (without_listed t m self.old.lists) self.old }
    {
        self.lists.unlink(t, m);
    }
}
