//! Whether a program stands still for good, and who waits for whom.
ghost use Rattle.std.specs.Prelude.{◌≡◌, ◌≤◌, None, take, length, IfSome};
ghost use Rattle.pif_choose.specs.Standstills.{is_deadlock, stands_still, IsLink, WaitsForNobody, IsWholeChain};
ghost use Rattle.std.specs.List.{list_all, list_any};

/// What a thread does at a point, as a scheduler knows it.
#[repr(C)]
#[derive(Clone, Copy)]
pub struct Standing {
    /// Its number.
    pub thread: u32,
    /// The mutex for which it waits; 0: for none.
    pub mutex: u32,
    /// The thread that holds that mutex; 0: nobody does.
    pub owner: u32,
    /// Whether it can go.
    pub goes: bool,
    /// Whether it can go once its deadline is reached.
    pub is_timed: bool,
    /// Whether it can go once something comes from outside of the program.
    pub is_outside: bool,
    /// Whether it wants a lock, of a mutex or of another kind.
    pub wants_lock: bool,
}

/// A link of a chain: a thread waits for a mutex, which the owner holds.
#[repr(C)]
#[derive(Clone, Copy)]
pub struct Link {
    /// Who waits.
    pub thread: u32,
    /// For which mutex.
    pub mutex: u32,
    /// Who holds it.
    pub owner: u32,
}

/// Whether no thread can go, now or later.
fn stand_still(standings: &[Standing]) -> bool
    ensures { result ≡ list_all stands_still standings.now }
{
    standings
        .iter()
        .all(|s| !(s.goes || s.is_timed || s.is_outside))
}

/// Whether some thread wants a lock.
fn wants_lock(standings: &[Standing]) -> bool
    ensures { result ≡ list_any (λ s. s.wants_lock) standings.now }
{
    standings.iter().any(|s| s.wants_lock)
}

/// Whether this is a deadlock: no thread can go, now or later, and one of them wants a lock.
pub fn is_deadlock(standings: &[Standing]) -> bool
    ensures { result ≡ is_deadlock standings.now }
{
    stand_still(standings) && wants_lock(standings)
}

/// The link from a thread, if it waits for a mutex that a thread holds.
fn link_of(standings: &[Standing], thread: u32) -> Option<Link>
    ensures some { IfSome result (λ link. (link.thread ≡ thread) × IsLink standings.now link) }
    ensures none { result ≡ None → WaitsForNobody standings.now thread }
{
    for place in 0..standings.len() {
        let standing = &standings[place];
        if standing.thread == thread && standing.owner != 0 {
            return Some(Link {
                thread,
                mutex: standing.mutex,
                owner: standing.owner,
            });
        }
    }
    None
}

/// Writes the chain from a thread into a room, link by link: up to a thread that waits for nobody, until it comes back to
/// where it began, or until the room is full. How many links it has.
pub fn chain(standings: &[Standing], first: u32, room: &mut [Link]) -> usize
    ensures within { result ≤ length room.old }
    ensures chain { IsWholeChain standings.now first (take result room.new) (length room.old) }
{
    let mut at = first;
    for place in 0..room.len() {
        let Some(link) = link_of(standings, at) else {
            return place;
        };
        at = link.owner;
        room[place] = link;
        if at == first {
            return place + 1;
        }
    }
    room.len()
}
