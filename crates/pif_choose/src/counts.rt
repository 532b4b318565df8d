ghost use Rattle.std.specs.Prelude.{◌≡◌};
ghost use Rattle.std.specs.Bool.{Decides};
ghost use Rattle.pif_choose.specs.Trees.{IsWithin, less};

/// What an option of a point counts towards the bounds of a search, or what is left of these bounds.
#[repr(C)]
#[derive(Clone, Copy)]
pub struct Counts {
    /// Switches from a thread that could go on, and threads that wake by themselves.
    pub preemptions: u32,
    /// Threads that stop for good.
    pub ends: u32,
    /// Threads that wake by themselves.
    pub wakes: u32,
}

/// Whether what is counted stays within a bound, each count by itself.
pub fn is_within(counted: &Counts, bound: &Counts) -> bool
    ensures { Decides result (IsWithin counted.now bound.now) }
{
    counted.preemptions <= bound.preemptions
        && counted.ends <= bound.ends
        && counted.wakes <= bound.wakes
}

/// What is left of a bound once this was counted; 0 if that is more.
pub fn less(bound: &Counts, counted: &Counts) -> Counts
    ensures { result ≡ less bound.now counted.now }
{
    Counts {
        preemptions: bound.preemptions.saturating_sub(counted.preemptions),
        ends: bound.ends.saturating_sub(counted.ends),
        wakes: bound.wakes.saturating_sub(counted.wakes),
    }
}
