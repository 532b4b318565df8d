ghost use Rattle.std.specs.Prelude.{◌≡◌, ℕ, ◌<◌, length};
ghost use Rattle.std.specs.Option.{ForSome};
ghost use Rattle.pif_nodes.specs.Links.{with_next, with_prev, with_first, with_last, with_place, follower_of, slots_after_link, ends_after_link, slots_after_unlink, ends_after_unlink, with_slot_key};

use crate::slots::{Ends, Slot};

/// Makes `to` the node after `place`, or the first of the list if no place is given.
fn set_next(nodes: &mut [Slot], ends: &mut [Ends], list: u32, place: Option<u32>, to: Option<u32>)
    requires list_in { list < length ends.old }
    requires place_in { ForSome place (λ p. p < length nodes.old) }
    ensures nodes { nodes.new ≡ with_next nodes.old place to }
    ensures ends { ends.new ≡ with_first ends.old list place to }
{
    match place {
        Some(node) => nodes[node as usize].next = to,
        None => ends[list as usize].first = to,
    }
}

/// Makes `to` the node before `place`, or the last of the list if no place is given.
fn set_prev(nodes: &mut [Slot], ends: &mut [Ends], list: u32, place: Option<u32>, to: Option<u32>)
    requires list_in { list < length ends.old }
    requires place_in { ForSome place (λ p. p < length nodes.old) }
    ensures nodes { nodes.new ≡ with_prev nodes.old place to }
    ensures ends { ends.new ≡ with_last ends.old list place to }
{
    match place {
        Some(node) => nodes[node as usize].prev = to,
        None => ends[list as usize].last = to,
    }
}

/// Gives a node another list and other neighbours. Its key stays.
fn set_place(nodes: &mut [Slot], node: u32, list: Option<u32>, prev: Option<u32>, next: Option<u32>)
    requires { node < length nodes.old }
    ensures { nodes.new ≡ with_place nodes.old node list prev next }
{
    let slot = nodes[node as usize];
    nodes[node as usize] = Slot {
        prev,
        next,
        list,
        prio: slot.prio,
        ticket: slot.ticket,
    };
}

/// The node after `place`, or the first of the list if no place is given.
pub(crate) fn follower(nodes: &[Slot], ends: &[Ends], list: u32, place: Option<u32>) -> Option<u32>
    requires list_in { list < length ends.now }
    requires place_in { ForSome place (λ p. p < length nodes.now) }
    ensures { result ≡ follower_of nodes.now ends.now list place }
{
    match place {
        Some(node) => nodes[node as usize].next,
        None => ends[list as usize].first,
    }
}

/// Puts a node into a list, between two neighbours.
pub(crate) fn link(
    nodes: &mut [Slot],
    ends: &mut [Ends],
    list: u32,
    prev: Option<u32>,
    next: Option<u32>,
    node: u32,
)
    requires list_in { list < length ends.old }
    requires node_in { node < length nodes.old }
    requires prev_in { ForSome prev (λ p. p < length nodes.old) }
    requires next_in { ForSome next (λ p. p < length nodes.old) }
    ensures nodes { nodes.new ≡ slots_after_link nodes.old list prev next node }
    ensures ends { ends.new ≡ ends_after_link ends.old list prev next node }
{
    set_place(nodes, node, Some(list), prev, next);
    set_next(nodes, ends, list, prev, Some(node));
    set_prev(nodes, ends, list, next, Some(node));
}

/// Takes a node out of a list, from between its two neighbours.
pub(crate) fn unlink(
    nodes: &mut [Slot],
    ends: &mut [Ends],
    list: u32,
    prev: Option<u32>,
    next: Option<u32>,
    node: u32,
)
    requires list_in { list < length ends.old }
    requires node_in { node < length nodes.old }
    requires prev_in { ForSome prev (λ p. p < length nodes.old) }
    requires next_in { ForSome next (λ p. p < length nodes.old) }
    ensures nodes { nodes.new ≡ slots_after_unlink nodes.old prev next node }
    ensures ends { ends.new ≡ ends_after_unlink ends.old list prev next }
{
    set_place(nodes, node, None, None, None);
    set_next(nodes, ends, list, prev, next);
    set_prev(nodes, ends, list, next, prev);
}

/// Gives a node another key. Its list and its neighbours stay.
pub(crate) fn write_key(nodes: &mut [Slot], node: u32, prio: u32, ticket: u64)
    requires { node < length nodes.old }
    ensures { nodes.new ≡ with_slot_key nodes.old node prio ticket }
{
    let slot = nodes[node as usize];
    nodes[node as usize] = Slot {
        prev: slot.prev,
        next: slot.next,
        list: slot.list,
        prio,
        ticket,
    };
}
