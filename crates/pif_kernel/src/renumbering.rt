ghost use Rattle.std.specs.Prelude.{◌≡◌, ◌≤◌, ◌+◌, ⊤, length};
ghost use Rattle.pif_nodes_model.specs.Levels.{Holds};
ghost use Rattle.pif_kernel_model.specs.Tickets.{IsRenumbered, IsRenumberable, IsNumbered, HasFirstTicketFrom};
ghost use Rattle.pif_kernel_model.specs.Chained.{KeepsLevels};
ghost use Rattle.pif_kernel_model.specs.Inside.{arrivals_in, ticket_of};

use crate::chains::Chains;
use pif_kernel_model::{Tickets, first_ticket_from};
use pif_model::Status;
use pif_types::Tid;

/// Renumbers the tickets of all waiters among these threads from 1, in their order. Answers the ticket after the
/// last.
pub fn number_anew<C: Chains>(chains: &mut C, statuses: &[Status]) -> u64
    requires waiters { IsRenumberable (C.seen chains.old).owners (arrivals_in statuses.now (C.seen chains.old).owners) }
    requires numbered { let v = (C.seen chains.old).owners in IsNumbered v (length statuses.now) (arrivals_in statuses.now v) }
    requires holds { Holds (C.seen chains.old).queue (C.seen chains.old).table }
    ensures next { result ≡ length (arrivals_in statuses.now (C.seen chains.old).owners) + 1 }
    ensures tags { let waiters = arrivals_in statuses.now (C.seen chains.old).owners in
        IsRenumbered (C.seen chains.old).owners (C.seen chains.new).owners waiters (length waiters) }
    ensures kept { KeepsLevels (C.seen chains.old) (C.seen chains.new) }
{
    let mut ticket = 1;
    while let Some(t) = first_from(chains, statuses.len() as u32, ticket) {
        // From the lowest on, so that the new ticket is no greater than the old one: no two are equal in between, and
        // the order stays.
        chains.set_ticket(t, ticket);
        ticket += 1;
    }
    ticket
}

/// Of the threads below `count` the waiter of the lowest ticket from `least` on, which is at least 1. `None` if none
/// has such a ticket.
fn first_from<C: Chains>(chains: &C, count: u32, least: u64) -> Option<Tid>
    requires some { 1 ≤ count }
    requires least { 1 ≤ least }
    ensures { HasFirstTicketFrom (ticket_of (C.seen chains.now).owners) least count result }
{
    first_ticket_from(&WaiterTickets { chains }, count, least)
}

/// The tickets of those that wait in some chains.
#[derive(Drop)]
struct WaiterTickets<'a, C> {
    chains: &'a C,
}

impl<C: Chains> Tickets for WaiterTickets<'_, C> {
    ghost sound = { λ waiters. ⊤ };

    ghost tickets = { λ waiters. ticket_of (C.seen waiters.chains.now).owners };

    fn ticket(&self, t: Tid) -> Option<u64> {
        self.chains.ticket(t)
    }
}
