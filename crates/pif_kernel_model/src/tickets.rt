ghost use Rattle.std.specs.Prelude.{◌≡◌, ℕ, ◌≤◌, if◌then◌else◌, Some, unwrap_or};
ghost use Rattle.pif_kernel_model.specs.Tickets.{HasFirstTicketFrom, has_sooner_ticket};

use pif_types::Tid;

/// Threads of which some have a ticket: those that wait, or those that are parked.
pub trait Tickets {
    /// What has to hold for their tickets to be read.
    ghost sound: { Self → Type 0 };

    /// The ticket of each thread, by number. 0 for one that has none.
    ghost tickets: { Self → ℕ → ℕ };

    /// The ticket of the thread `t`. `None` if it has none.
    fn ticket(&self, t: Tid) -> Option<u64>
        requires { sound self.now }
        ensures { unwrap_or result 0 ≡ tickets self.now t };
}

/// Of the threads below `count`, which is at least 1, the one of the lowest ticket from `least` on, which is at least
/// 1. `None` if none has such a ticket. It looks at each of them.
pub fn first_ticket_from<T: Tickets>(of: &T, count: u32, least: u64) -> Option<Tid>
    requires sound { T.sound of.now }
    requires some { 1 ≤ count }
    requires least { 1 ≤ least }
    ensures { HasFirstTicketFrom (T.tickets of.now) least count result }
{
    let mut first = None;
    for number in 1..count {
        first = sooner(of, least, first, Tid::new(number).unwrap());
    }
    first
}

/// The thread `t`, if it has a ticket from `least` on, and a lower one than the first so far; else that one.
fn sooner<T: Tickets>(of: &T, least: u64, first: Option<Tid>, t: Tid) -> Option<Tid>
    requires sound { T.sound of.now }
    requires least { 1 ≤ least }
    ensures { result ≡ (if has_sooner_ticket (T.tickets of.now) least first t then Some t else first) }
{
    let ticket = of.ticket(t).unwrap_or(0);
    match first {
        _ if ticket < least => first,
        Some(u) if ticket >= of.ticket(u).unwrap_or(0) => first,
        _ => Some(t),
    }
}
