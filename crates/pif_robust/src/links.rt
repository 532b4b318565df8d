ghost use Rattle.std.specs.Prelude.{ℕ, ◌≡◌, ◌<◌, ◌≤◌, ◌↔◌, IsTrue, true, List, Option, Some, None, length};
ghost use Rattle.std.specs.Option.{ForSome};
ghost use Rattle.pif_model.specs.RobustList.{has_entry, HasNoRepeats};
ghost use Rattle.pif_model_lemmas.specs.RobustWalks.{first_or, walk_along};
ghost use Rattle.pif_robust.specs.Links.{link_at, IsChain, with_next_mutex, with_first_mutex, with_previous, links_joined, heads_joined, links_cut, heads_cut};
ghost use Rattle.pif_robust.specs.Robust.{named_mutex};

use pif_types::{MutexId, Tid};

/// The entry of a mutex: its neighbours on the list on which it is, and the thread whose list that is. Of a half-linked
/// one only `next` says something.
#[derive(Clone, Copy)]
pub struct Link {
    pub next: Option<MutexId>,
    pub previous: Option<MutexId>,
    pub holder: Option<Tid>,
}

/// The entry of a mutex that is on no list.
pub const UNLINKED: Link = Link {
    next: None,
    previous: None,
    holder: None,
};

/// What a thread has: the first mutex of its list, the one that it has half-linked, and its pending field.
#[derive(Clone, Copy)]
pub struct Head {
    pub first: Option<MutexId>,
    pub half_linked: Option<MutexId>,
    pub pending: Option<MutexId>,
}

/// The head of an empty list.
pub const EMPTY: Head = Head {
    first: None,
    half_linked: None,
    pending: None,
};

impl Head {
    /// Whether the pending field names `m`.
    pub fn is_pending(&self, m: MutexId) -> bool
        ensures { IsTrue result ↔ (self.now.pending ≡ Some m) }
    {
        match self.pending {
            Some(pending) => pending == m,
            None => false,
        }
    }
}

/// Where a walk comes to whose next entry is `next`: the pending mutex of `head` is passed over there, and stands at
/// the end.
pub(crate) fn settle(links: &[Link], head: &Head, next: Option<MutexId>) -> Option<MutexId>
    requires { ForSome next (λ p. p < length links.now) }
    ensures { (t pending : ℕ) (before : Option ℕ) (ms : List ℕ) → head.now.pending ≡ named_mutex pending
        → IsChain links.now t before ms None → HasNoRepeats ms → ((m : ℕ) → has_entry ms m ≡ true → 1 ≤ m)
        → next ≡ first_or ms None → result ≡ first_or (walk_along ms pending) None }
{
    let open = match next {
        Some(mutex) if head.is_pending(mutex) => links[mutex.get() as usize].next,
        _ => next,
    };
    match open {
        Some(_) => open,
        None => head.pending,
    }
}

/// Makes `to` the entry after `place`, or the first of the list of `t` if no place is given.
fn set_next(
    links: &mut [Link],
    heads: &mut [Head],
    t: Tid,
    place: Option<MutexId>,
    to: Option<MutexId>,
)
    requires head_in { t < length heads.old }
    requires place_in { ForSome place (λ p. p < length links.old) }
    ensures links { links.new ≡ with_next_mutex links.old place to }
    ensures heads { heads.new ≡ with_first_mutex heads.old t place to }
{
    match place {
        Some(mutex) => links[mutex.get() as usize].next = to,
        None => heads[t.get() as usize].first = to,
    }
}

/// Makes `to` the entry before `place`, if there is a place.
fn set_previous(links: &mut [Link], place: Option<MutexId>, to: Option<MutexId>)
    requires { ForSome place (λ p. p < length links.old) }
    ensures { links.new ≡ with_previous links.old place to }
{
    if let Some(mutex) = place {
        links[mutex.get() as usize].previous = to;
    }
}

/// Puts the half-linked `m`, whose link leads to `next`, at the head of the list of `t`.
pub(crate) fn join(
    links: &mut [Link],
    heads: &mut [Head],
    t: Tid,
    m: MutexId,
    next: Option<MutexId>,
)
    requires head_in { t < length heads.old }
    requires link_in { m < length links.old }
    requires next_in { ForSome next (λ p. p < length links.old) }
    ensures links { links.new ≡ links_joined links.old t m next }
    ensures heads { heads.new ≡ heads_joined heads.old t m }
{
    links[m.get() as usize].holder = Some(t);
    set_previous(links, next, Some(m));
    let head = &mut heads[t.get() as usize];
    head.first = Some(m);
    head.half_linked = None;
}

/// Takes `m` off the list of `t`, on which it is.
pub(crate) fn cut(links: &mut [Link], heads: &mut [Head], t: Tid, m: MutexId)
    requires head_in { t < length heads.old }
    requires link_in { m < length links.old }
    requires next_in { ForSome (link_at links.old m).next (λ p. p < length links.old) }
    requires previous_in { ForSome (link_at links.old m).previous (λ p. p < length links.old) }
    ensures links { links.new ≡ links_cut links.old m }
    ensures heads { heads.new ≡ heads_cut links.old heads.old t m }
{
    let link = links[m.get() as usize];
    links[m.get() as usize] = UNLINKED;
    set_next(links, heads, t, link.previous, link.next);
    set_previous(links, link.next, link.previous);
    heads[t.get() as usize].half_linked = None;
}
