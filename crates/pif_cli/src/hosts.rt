use pif_cli_messages::Output;
use std::alloc::Global;
use std::sync::Wait;
use std::thread::Threads;
use std::time::Clock;

/// What starts threads and waits for them, and has a clock.
pub trait Runtime: Threads + Wait + Clock {}

impl<P: Threads + Wait + Clock> Runtime for P {}

/// What a run of the program works with besides its input, lent to one job after the other. Each reference has a
/// lifetime of its own.
#[derive(Drop)]
pub struct Host<'p, 's, 'o, 'e, 'v, P, S, W, E, V> {
    /// Where memory comes from.
    pub alloc: Global,
    /// What starts threads and, if words name files, opens them.
    pub process: &'p P,
    /// Where a shell saves its stories, and where the files of parts are.
    pub shelf: &'s S,
    /// Whether a person sits at the input, for whom a shell writes a prompt.
    pub is_terminal: bool,
    /// Where a job writes.
    pub output: &'o mut Output<W>,
    /// What is told of faults.
    pub errors: &'e mut E,
    /// Who is told of each line of a history how many states were made for it.
    pub watch: &'v mut V,
    /// Whether the errors were told that the output cannot be written.
    pub told_of_output: bool,
}
