//! Who goes next.
ghost use Rattle.std.specs.Prelude.{◌≡◌};
ghost use Rattle.pif_choose.specs.Choices.{threads_of, is_sought, first_with, IsChoice};

/// A thread that can go.
#[repr(C)]
#[derive(Clone, Copy)]
pub struct Candidate {
    /// Its number.
    pub thread: u32,
    /// Its rank, of which some strategies choose the greatest.
    pub rank: u64,
}

/// How a thread is chosen of those that can go.
#[derive(Clone, Copy)]
pub enum Strategy {
    /// This thread goes on as long as it can; then the next one by number goes, and behind the last the first.
    Stay(u32),
    /// By a number that was drawn: the one at this place, counted round.
    Drawn(u32),
    /// The first of the greatest rank.
    Ranked,
}

/// Which thread is looked for.
#[derive(Clone, Copy)]
pub enum Sought {
    /// This one.
    Thread(u32),
    /// One of a greater number than this one.
    Above(u32),
    /// Any.
    Any,
}

/// Whether a thread is one that is looked for.
fn is_sought(sought: &Sought, thread: u32) -> bool
    ensures { result ≡ is_sought sought.now thread }
{
    match *sought {
        Sought::Thread(other) => thread == other,
        Sought::Above(other) => other < thread,
        Sought::Any => true,
    }
}

/// The first of these that is looked for.
fn first_with(can: &[Candidate], sought: &Sought) -> Option<u32>
    ensures { result ≡ first_with sought.now (threads_of can.now) }
{
    for place in 0..can.len() {
        let thread = can[place].thread;
        if is_sought(sought, thread) {
            return Some(thread);
        }
    }
    None
}

/// Who goes if the present thread goes on as long as it can.
fn stay(can: &[Candidate], present: u32) -> Option<u32>
    ensures { IsChoice (Strategy.Stay present) can.now result }
{
    match first_with(can, &Sought::Thread(present)) {
        Some(thread) => Some(thread),
        None => match first_with(can, &Sought::Above(present)) {
            Some(thread) => Some(thread),
            None => first_with(can, &Sought::Any),
        },
    }
}

/// Who goes by a number that was drawn.
fn drawn(can: &[Candidate], number: u32) -> Option<u32>
    ensures { IsChoice (Strategy.Drawn number) can.now result }
{
    if can.is_empty() {
        return None;
    }
    Some(can[number as usize % can.len()].thread)
}

/// Who goes by rank.
fn ranked(can: &[Candidate]) -> Option<u32>
    ensures { IsChoice Strategy.Ranked can.now result }
{
    if can.is_empty() {
        return None;
    }
    let mut best = 0;
    for place in 1..can.len() {
        if can[best].rank < can[place].rank {
            best = place;
        }
    }
    Some(can[best].thread)
}

/// Who goes next, of the threads that can go: `None` exactly if there are none.
pub fn choose(can: &[Candidate], strategy: &Strategy) -> Option<u32>
    ensures { IsChoice strategy.now can.now result }
{
    match *strategy {
        Strategy::Stay(present) => stay(can, present),
        Strategy::Drawn(number) => drawn(can, number),
        Strategy::Ranked => ranked(can),
    }
}
