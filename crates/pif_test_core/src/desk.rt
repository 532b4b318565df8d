//! What no clause says: that calls of real threads overlap, that clients sleep and are woken, how many entries each
//! call makes, what refused memory leaves, and that rooms settle with the clients that were there, and with no others.
//!
//! A test is a scene (`scenes`), which has a name. It is a table of deeds (`deeds`) at a desk that is watched
//! (`watch`).
mod counts;
mod deeds;
mod memory;
mod receipts;
mod scenes;
mod sleepers;
mod stress;
mod threads;
mod ticks;
mod watch;

use pif_types::NoMemory;
use scenes::{Scene, play};

#[test]
fn what_is_done_at_a_desk_comes_to_this(rt: HostRuntime) -> Result<(), NoMemory> {
    let tables: [&[Scene]; 7] = [
        &counts::SCENES,
        &memory::SCENES,
        &receipts::SCENES,
        &sleepers::SCENES,
        &stress::SCENES,
        &threads::SCENES,
        &ticks::SCENES,
    ];
    for scenes in tables {
        for scene in scenes {
            play(&rt, scene)?;
        }
    }
    Ok(())
}
