ghost use Rattle.std.specs.Prelude.{◌≡◌, ◌≤◌, Option, length, take};
ghost use Rattle.pif_choose.specs.Standstills.{IsWholeChain};
ghost use Rattle.pif_c.specs.Choosing.{change_told, deadlock_told, TellsChange, TellsThread};

use pif_c_numbers::codes::{NONE, OK};
use pif_c_numbers::{PifNumber, number_told};
use pif_choose::{
    Candidate, Change, Counts, Link, Point, Standing, Strategy, chain, choose, is_deadlock,
    next_schedule,
};

/// Where a schedule leaves the one before it, if there is one.
#[repr(C)]
#[derive(Clone, Copy, Drop)]
pub struct PifChange {
    /// 0, or that there is none (`enum pif_result`).
    pub result: u32,
    /// How many choices are kept, 0 if there is none.
    pub kept: usize,
    /// The place of the option that is chosen then, 0 if there is none.
    pub option: usize,
}

/// A change, if there is one.
fn change_told(change: Option<Change>) -> PifChange
    ensures { result ≡ change_told change }
{
    match change {
        Some(change) => PifChange {
            result: OK,
            kept: change.kept,
            option: change.option,
        },
        None => PifChange {
            result: NONE,
            kept: 0,
            option: 0,
        },
    }
}

/// The schedule that comes next in a search, behind that of a run.
#[unsafe(no_mangle)]
pub extern "C" fn pif_choose_next(bound: &Counts, points: &[Point], options: &[Counts]) -> PifChange
    ensures { TellsChange bound.now points.now options.now result }
{
    change_told(next_schedule(bound, points, options))
}

/// Who goes next if the present thread goes on as long as it can, and then the next one by number, of those that can go.
#[unsafe(no_mangle)]
pub extern "C" fn pif_choose_staying(present: u32, can: &[Candidate]) -> PifNumber
    ensures { TellsThread (Strategy.Stay present) can.now result }
{
    number_told(choose(can, &Strategy::Stay(present)))
}

/// Who goes next by a number that was drawn, of the threads that can go.
#[unsafe(no_mangle)]
pub extern "C" fn pif_choose_drawn(number: u32, can: &[Candidate]) -> PifNumber
    ensures { TellsThread (Strategy.Drawn number) can.now result }
{
    number_told(choose(can, &Strategy::Drawn(number)))
}

/// Who goes next by rank, of the threads that can go.
#[unsafe(no_mangle)]
pub extern "C" fn pif_choose_ranked(can: &[Candidate]) -> PifNumber
    ensures { TellsThread Strategy.Ranked can.now result }
{
    number_told(choose(can, &Strategy::Ranked))
}

/// 1 if threads stand still for good and one of them wants a lock, 0 if not.
#[unsafe(no_mangle)]
pub extern "C" fn pif_choose_is_deadlock(standings: &[Standing]) -> u32
    ensures { result ≡ deadlock_told standings.now }
{
    if is_deadlock(standings) { 1 } else { 0 }
}

/// Writes who waits for whom, from a thread on, to the start of a room. How many links were written.
#[unsafe(no_mangle)]
pub extern "C" fn pif_choose_chain(standings: &[Standing], first: u32, room: &mut [Link]) -> usize
    ensures within { result ≤ length room.old }
    ensures chain { IsWholeChain standings.now first (take result room.new) (length room.old) }
{
    chain(standings, first, room)
}
