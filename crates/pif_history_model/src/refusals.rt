use pif_types::{AddFault, Refusal};

/// Why no run has a line behind the lines before it, whatever was answered. The words are those of scripts.
#[derive(Clone, Copy, PartialEq, Eq)]
pub enum LineRefusal {
    /// `badprio`, `toomany` or `nosuch`: the machine doesn't make this addition.
    Addition(AddFault),
    /// `nosuch`, `dead`, `busy`, `idle` or `past`: the machine refuses what the line shows. A thread is dead from the
    /// line on that says that it is dying.
    Event(Refusal),
    /// `halted`: it may not stand between `halted` and `resumed`, or it is a `resumed` that ends no halt.
    Halt,
}
