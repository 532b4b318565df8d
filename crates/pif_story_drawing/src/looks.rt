use crate::growing_text::Page;
use pif_core::{Core, Status};
use pif_types::{CondId, MutexId, Tid};

/// What a thread does, as it is drawn.
#[derive(Clone, Copy, PartialEq, Eq)]
pub enum Look {
    /// It was not added yet.
    Absent,
    /// It is the one that runs next.
    Runs,
    /// It may run, and another comes before it.
    Ready,
    /// It waits for this mutex.
    Waits(MutexId),
    /// It is parked on this condition variable.
    Parked(CondId),
    /// It is stopped for good.
    Stopped,
    /// It has ended.
    Ended,
}

/// What a thread does.
pub fn look_of(core: &Core, thread: Tid) -> Look {
    let Some(status) = core.status(thread) else {
        return Look::Absent;
    };
    match status {
        Status::Ready(_) => match core.pick() {
            Some(picked) if picked.get() == thread.get() => Look::Runs,
            _ => Look::Ready,
        },
        Status::Queued(mutex) => Look::Waits(mutex),
        Status::Parked(cond) => Look::Parked(cond),
        Status::Stopped => Look::Stopped,
        Status::Ended => Look::Ended,
    }
}

impl Look {
    /// The class of the band that shows it.
    pub fn class(&self) -> &'static str {
        match self {
            Look::Absent => "absent",
            Look::Runs => "runs",
            Look::Ready => "ready",
            Look::Waits(_) => "waits",
            Look::Parked(_) => "parked",
            Look::Stopped => "stopped",
            Look::Ended => "ended",
        }
    }

    /// Writes it in words, or if there is little room only the name of what the thread waits for.
    pub fn write(&self, is_wide: bool, out: &mut Page) {
        match self {
            Look::Waits(mutex) => {
                out.words(if is_wide { "waits for " } else { "" });
                out.fill("m{}", &[mutex.get()]);
            }
            Look::Parked(cond) => {
                out.words(if is_wide { "parked on " } else { "" });
                out.fill("c{}", &[cond.get()]);
            }
            Look::Stopped => out.words(if is_wide { "stopped" } else { "stop" }),
            other => out.words(other.class()),
        }
    }

    /// Whether a thread that did this was signalled, or its deadline reached, if it does that now.
    pub fn is_signalled(&self, now: &Look) -> bool {
        match (self, now) {
            (Look::Parked(_), Look::Parked(_) | Look::Ended) => false,
            (Look::Parked(_), _) => true,
            _ => false,
        }
    }
}

/// The number of the hue in which a mutex is drawn, 0 to 7: 0 for m1, 7 for m8, and 0 again for m9.
pub fn hue(mutex: MutexId) -> u32 {
    (mutex.get() - 1) % 8
}
