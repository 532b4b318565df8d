//! The core for C programs, and for whoever calls C: what `include/pif.h` declares.
//!
//! C owns a handle, which it begins as zeros: it holds no core then. `pif_core_new` has it hold one, `pif_core_free`
//! gives that up. Each call takes a handle, and answers by numbers; on a handle with no core it says so, and changes
//! nothing. No call requires more of its caller than the head of `include/pif.h` says. `pif_c_numbers` has the structs
//! and the numbers that cross.
//!
//! | Module | What it has |
//! |---|---|
//! | `loose` | a core behind a pointer that may cross to C, and its box again |
//! | `handles` | the handle |
//! | `holding` | a handle filled and emptied, and that it may pass to another thread between two calls |
//! | `asking` | what is asked of a core, on a handle: turns, and looks |
//! | `choosing` | who goes next, and which schedule is visited next |
//! | `adding` | threads, mutexes and condition variables added |
//! | `cores` | a core made, and given up |
//! | `events` | events and whole calls |
//! | `readers` | what a core shows |
//! | `texts` | scripts, traces, stories and histories: bytes in, bytes out |
//! | `shows` | stories shown to a person, likewise |
//! | `explores` | small programs that lock, likewise |
//! | `machines` | the POSIX machine with rules, and what may happen to it next |
//! | `kept` | its state, in which steps are made in place |
//! | `loose_machines`, `machine_handles`, `machine_holding` | a machine behind a pointer, and the handle, filled and emptied |
//! | `machine_exports` | a machine made, and given up; rules allowed |
//! | `machine_adding`, `going`, `machine_readers` | what is added to it, its steps, and what it shows |
#![tactic(auto)]

mod adding;
mod asking;
mod choosing;
mod cores;
mod events;
mod explores;
mod going;
mod handles;
mod holding;
mod kept;
mod loose;
mod loose_machines;
mod machine_adding;
mod machine_exports;
mod machine_handles;
mod machine_holding;
mod machine_readers;
mod machines;
mod readers;
mod shows;
mod texts;

pub use choosing::PifChange;
pub use handles::PifCore;
pub use holding::handle_crosses;
pub use machine_exports::replays_are_alike;
pub use machine_handles::PifMachine;
pub use machine_holding::machine_crosses;
pub use pif_c_numbers::{PifDoing, PifLimits, PifNumber, PifOpen, PifOwned, PifRequest, PifSeen};
pub use texts::PifText;
