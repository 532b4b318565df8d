//! A first program over a core: a thread of priority 10 holds a mutex, and one of priority 50 waits for it.
use pif_core::Core;
use pif_types::{AddFault, Kind, Limits, Prio, Request};
use std::alloc::Global;
use std::io;

/// At which priority the holder runs while the other waits.
fn boosted(core: &mut Core) -> Result<Option<Prio>, AddFault> {
    let low = core.add_thread(10)?;
    let high = core.add_thread(50)?;
    let mutex = core.add_mutex(Kind::Normal, false)?;
    core.call(low, Request::Lock(mutex));
    core.call(high, Request::Lock(mutex));
    Ok(core.effective(low))
}

/// Prints that priority.
fn print_boosted<R: Print>(rt: &R, boosted: Result<Option<Prio>, AddFault>) -> io::Result<()> {
    match boosted {
        Ok(Some(prio)) => println!(rt; "the holder runs at {}", prio.get()),
        Ok(None) => println!(rt; "no such thread"),
        Err(fault) => println!(rt; "{fault}"),
    }
}

/// Makes a core for two threads and one mutex, and prints at which priority the holder runs.
pub fn show<R: Print>(rt: &R, alloc: Global) -> io::Result<()> {
    let limits = Limits::new(2, 1, 0, 1).ok_or(io::ErrorKind::InvalidInput)?;
    match Core::new(alloc, limits) {
        Ok(mut core) => print_boosted(rt, boosted(&mut core)),
        Err(_) => Err(io::Error::from(io::ErrorKind::OutOfMemory)),
    }
}
