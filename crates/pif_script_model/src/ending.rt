use pif_text_model::{Cause, Reply};

/// How a line ends a script or a trace.
#[derive(Clone, Copy)]
pub enum Ending {
    /// The line is a fault.
    Fault(Cause),
    /// The line of a trace records another answer than this one, which the core gives.
    Differs(Reply),
}

/// The first line that ends a script or a trace.
#[derive(Clone, Copy)]
pub struct End {
    /// The number of the line, from 1.
    pub line: u64,
    /// How it ends it.
    pub ending: Ending,
}

/// Why a line made no listener, though it isn't passed over.
#[derive(Clone, Copy)]
pub enum OpenFault {
    /// The line ends the script so.
    Ended(Ending),
    /// A growth of memory was refused.
    NoMemory,
}

/// Why a script was not read further.
#[derive(Clone, Copy)]
pub enum Stop {
    /// This line ended it.
    Ended(End),
    /// A growth of memory was refused.
    NoMemory,
}
