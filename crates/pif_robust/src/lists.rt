ghost use Rattle.std.specs.Prelude.{◌≡◌, ◌<◌, ◌≤◌, true, false, None, IfOk, IfSome, IfNone, ℕ, length};
ghost use Rattle.pif_model.specs.RobustList.{no_robust, robust_at, walk_of, is_listed, with_pending, without_pending, with_half_linked, with_listed, without_listed, without_robust, IsUnlisted, IsHalfLinkedByNoOther, IsRobust, HasNoRepeats, has_entry};
ghost use Rattle.pif_model_lemmas.specs.RobustWalks.{first_or, behind};
ghost use Rattle.pif_robust.specs.Robust.{named_mutex};

use crate::links::{EMPTY, Head, Link, UNLINKED, cut, join, settle};
use arrayvec::ArrayVec;
use pif_types::{Limits, MutexId, NoMemory, Tid};
use std::alloc::Global;
use std::marker::Model;

/// For each thread its list of robust mutexes, the mutex that it has half-linked, and its pending field. A mutex is on
/// at most one list, and once; a half-linked one is on none, and half-linked by one thread alone. A thread outside the
/// limits reads as one that has nothing.
#[derive(Drop)]
pub struct RobustLists {
    links: Vec<Link>,
    heads: Vec<Head>,
}

impl Model for RobustLists {
    ghost use Rattle.pif_model.specs.RobustList.{Robust};
    ghost use Rattle.pif_robust.specs.Robust.{robust_code};

    ghost Value = { Robust };

    ghost coded = { robust_code };

    ghost use Rattle.pif_robust.specs.Links.{robust_from, FieldsHold};

    ghost view = { λ l. robust_from l.links.items l.heads.items };

    ghost invariant = { λ l. FieldsHold l.links.items l.heads.items (robust_from l.links.items l.heads.items) };
}

impl RobustLists {
    /// An empty list for each thread that `limits` allow. Takes two pieces of memory, and answers `NoMemory` if one
    /// is refused. No other call takes any.
    pub fn new(alloc: Global, limits: Limits) -> Result<RobustLists, NoMemory>
        ensures made { IfOk result (λ l. l ≡ no_robust limits) }
        ensures sound { IfOk result IsRobust }
    {
        let links = vec![in alloc; UNLINKED; limits.mutexes() as usize + 1].map_err(|_| NoMemory)?;
        let heads = vec![in alloc; EMPTY; limits.threads() as usize + 1].map_err(|_| NoMemory)?;
        Ok(RobustLists { links, heads })
    }

    /// Makes `m` the mutex that the pending field of `t` names. Both have to lie within the limits. All else stays as
    /// it was.
    pub fn set_pending(&mut self, t: Tid, m: MutexId)
        requires thread { t < length self.old.threads }
        requires mutex { m ≤ self.old.mutexes }
        ensures pending { self.new ≡ with_pending t m self.old }
        ensures sound { IsRobust self.new }
    {
        prove!((m.get() as usize) < self.links.len());
        self.heads[t.get() as usize].pending = Some(m);
    }

    /// Makes the pending field of `t` name no mutex. All else stays as it was, and so does all if `t` lies outside
    /// the limits.
    pub fn clear_pending(&mut self, t: Tid)
        ensures pending { self.new ≡ without_pending t self.old }
        ensures sound { IsRobust self.new }
    {
        let place = t.get() as usize;
        if place < self.heads.len() {
            self.heads[place].pending = None;
        }
    }

    /// Writes the link of `m`, which is on no list and which no other thread has half-linked: from then on `t` has it
    /// half-linked, and no other mutex. Both have to lie within the limits. All lists and all else stay as they were.
    pub fn link_next(&mut self, t: Tid, m: MutexId)
        requires thread { t < length self.old.threads }
        requires mutex { m ≤ self.old.mutexes }
        requires unlisted { IsUnlisted self.old m }
        requires half_linked { IsHalfLinkedByNoOther self.old t m }
        ensures half_linked { self.new ≡ with_half_linked t m self.old }
        ensures sound { IsRobust self.new }
    {
        let next = self.heads[t.get() as usize].first;
        self.links[m.get() as usize] = Link {
            next,
            previous: None,
            holder: None,
        };
        self.heads[t.get() as usize].half_linked = Some(m);
    }

    /// Writes the head of the list of `t`, so that it names `m`, which `t` has half-linked: from then on `m` is the
    /// first on that list, and `t` has nothing half-linked. All else stays as it was.
    pub fn link_head(&mut self, t: Tid, m: MutexId)
        requires { (robust_at self.old t).half_linked ≡ m }
        ensures listed { self.new ≡ with_listed t m self.old }
        ensures sound { IsRobust self.new }
    {
        let next = self.links[m.get() as usize].next;
        join(&mut self.links, &mut self.heads, t, m, next);
    }

    /// Takes `m` off the list of `t`, on which it is; the others keep their order. What `t` had half-linked it has so
    /// no longer. All else stays as it was.
    pub fn unlink(&mut self, t: Tid, m: MutexId)
        requires { is_listed self.old t m ≡ true }
        ensures unlisted { self.new ≡ without_listed t m self.old }
        ensures sound { IsRobust self.new }
    {
        cut(&mut self.links, &mut self.heads, t, m);
    }

    /// What the end of `t` goes through: the mutexes on its list from the head, that is, the last linked first, without
    /// the one that its pending field names, and that one last, whether it was listed or not. Each comes once, so there
    /// are at most 1,024. Empty if `t` lies outside the limits. It is what `walk_first` and then `walk_next` answer,
    /// which need no room for a list.
    pub fn walk(&self, t: Tid) -> ArrayVec<MutexId, 1024>
        ensures walk { result.items ≡ walk_of (robust_at self.now t) }
        ensures once { HasNoRepeats result.items }
        ensures within { (m : ℕ) → has_entry result.items m ≡ true → m ≤ self.now.mutexes }
        ensures sound { IsRobust self.now }
    {
        let mut found = ArrayVec::new();
        let mut next = self.walk_first(t);
        while let Some(m) = next {
            found.push(m);
            next = self.walk_next(t, m);
        }
        found
    }

    /// The first mutex that the end of `t` goes through. `None` if it goes through none, and if `t` lies outside
    /// the limits.
    pub fn walk_first(&self, t: Tid) -> Option<MutexId>
        ensures first { result ≡ first_or (walk_of (robust_at self.now t)) None }
        ensures sound { IsRobust self.now }
    {
        let head = self.head(t);
        settle(&self.links, &head, head.first)
    }

    /// The mutex that the end of `t` goes through right after `m`, which is one of those. `None` if `m` is the last.
    pub fn walk_next(&self, t: Tid, m: MutexId) -> Option<MutexId>
        requires { has_entry (walk_of (robust_at self.now t)) m ≡ true }
        ensures next { result ≡ first_or (behind m (walk_of (robust_at self.now t))) None }
        ensures sound { IsRobust self.now }
    {
        let head = self.head(t);
        if head.is_pending(m) {
            return None;
        }
        settle(&self.links, &head, self.links[m.get() as usize].next)
    }

    /// Empties the list of `t` and its pending field, and ends what it has half-linked. All other threads' stay as they
    /// were, and so does all if `t` lies outside the limits. It takes as many steps as there are mutexes on the
    /// list.
    pub fn forget(&mut self, t: Tid)
        ensures forgotten { self.new ≡ without_robust t self.old }
        ensures sound { IsRobust self.new }
    {
        while let Some(m) = self.head(t).first {
            self.unlink(t, m);
        }
        let place = t.get() as usize;
        if place < self.heads.len() {
            self.heads[place] = EMPTY;
        }
    }

    /// The mutex that the pending field of `t` names. `None` if it names none, and if `t` lies outside the
    /// limits.
    pub fn pending(&self, t: Tid) -> Option<MutexId>
        ensures value { result ≡ named_mutex (robust_at self.now t).pending }
        ensures sound { IsRobust self.now }
    {
        self.head(t).pending
    }

    /// The mutex that `t` has half-linked. `None` if there is none, and if `t` lies outside the limits.
    pub fn half_linked(&self, t: Tid) -> Option<MutexId>
        ensures value { result ≡ named_mutex (robust_at self.now t).half_linked }
        ensures sound { IsRobust self.now }
    {
        self.head(t).half_linked
    }

    /// The thread on whose list `m` is. `None` if it is on no list, and if `m` lies outside the limits.
    pub fn holder(&self, m: MutexId) -> Option<Tid>
        ensures listed { IfSome result (λ t. is_listed self.now t m ≡ true) }
        ensures unlisted { IfNone result (IsUnlisted self.now m) }
        ensures sound { IsRobust self.now }
    {
        let place = m.get() as usize;
        if place < self.links.len() {
            self.links[place].holder
        } else {
            None
        }
    }

    /// The head of the list of a thread.
    fn head(&self, t: Tid) -> Head
        ensures first { result.first ≡ first_or (robust_at self.now t).listed None }
        ensures half_linked { result.half_linked ≡ named_mutex (robust_at self.now t).half_linked }
        ensures pending { result.pending ≡ named_mutex (robust_at self.now t).pending }
        ensures sound { IsRobust self.now }
    {
        let place = t.get() as usize;
        if place < self.heads.len() {
            self.heads[place]
        } else {
            EMPTY
        }
    }
}
