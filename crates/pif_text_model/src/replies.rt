use pif_model::Seen;
use pif_types::{AddFault, CondId, Health, MutexId, Prio, Tid};

/// What a command is answered.
#[derive(Clone, Copy, PartialEq, Eq)]
pub enum Reply {
    /// `ok`: the limits are taken.
    Done,
    /// What an addition is answered.
    Added(Added),
    /// What an event is answered, or the last event of a thread that goes on: `begun`, `went`, `waits`, `answer A`,
    /// `ended` or `ticked`; or `refused nosuch`, `refused dead`, `refused busy`, `refused idle` or `refused past`, and
    /// nothing has changed then.
    Seen(Seen),
    /// What a question is answered.
    Told(Fact),
}

/// What an addition is answered.
#[derive(Clone, Copy, PartialEq, Eq)]
pub enum Added {
    /// `tN`: the number of the thread that was added.
    Thread(Tid),
    /// `mN`: the number of the mutex that was added.
    Mutex(MutexId),
    /// `cN`: the number of the condition variable that was added.
    Cond(CondId),
    /// `refused toomany`, `refused badprio` or `refused nosuch`: nothing was added.
    Refused(AddFault),
}

/// What a question is answered.
#[derive(Clone, Copy, PartialEq, Eq)]
pub enum Fact {
    /// `refused nosuch`: what was asked about was never added.
    NoSuch,
    /// `0x` and eight hexadecimal digits in lower case: the value of a mutex's word.
    Word(u32),
    /// `fine`, `inconsistent` or `unusable`: what is known of the state that a mutex protects.
    Health(Health),
    /// The number alone: how often a condition variable was used.
    Uses(u32),
    /// The number alone: the priority that a thread runs at.
    Priority(Prio),
    /// `dead`: the thread whose priority was asked for has ended.
    Dead,
    /// `tN` or `none`: a thread, if there is one.
    Thread(Option<Tid>),
}

/// Why a line ends a script.
#[derive(Clone, Copy, Debug, PartialEq, Eq)]
pub enum Cause {
    /// `size`: the script is too large.
    Size,
    /// `long`: the line is too long.
    Long,
    /// `cut`: the last line has no line feed.
    Cut,
    /// `command`: the line is no command.
    Command,
    /// `limits`: the line has the form of limits, and a number in it is out of its range.
    Limits,
}
