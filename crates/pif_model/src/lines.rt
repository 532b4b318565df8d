use crate::PlainRequest;
use pif_types::{Answer, CondId, MutexId};

/// A step of taking over a robust mutex that the caller was found to own.
#[derive(Clone, Copy)]
pub enum TakeStep {
    /// Load the word, and see whether its last owner ended.
    LoadWord,
    /// Load the health word; true if the last owner was seen to have ended.
    LoadHealth(bool),
    /// Store in the health word that the mutex is inconsistent.
    StoreInconsistent,
    /// Take OWNER_DIED out of the word.
    ClearDied,
}

/// A step of putting a robust mutex on the caller's list.
#[derive(Clone, Copy)]
pub enum LinkStep {
    /// Write the mutex's link to the head of the list.
    WriteNext,
    /// Make the mutex the head of the list.
    WriteHead,
}

/// A step of giving up a mutex that the caller holds once. Those before the exchange are for robust mutexes alone.
#[derive(Clone, Copy)]
pub enum GiveStep {
    /// Name the mutex in the pending field.
    SetPending,
    /// Load the health word.
    SeeHealth,
    /// Store in the health word that the mutex is unusable.
    StoreUnusable,
    /// Take the mutex off the caller's list.
    Unlink,
    /// Compare-exchange the word from the caller's number to 0.
    Release,
    /// The kernel call unlock_pi.
    CallUnlock,
}

/// Why a mutex is given up, which says what comes after.
#[derive(Clone, Copy)]
pub enum Purpose {
    /// An unlock, which is answered 0.
    ToUnlock,
    /// A wait, which parks; the condition word was this.
    ToPark(u32),
    /// A lock, a trylock or a wait that has found the mutex unusable, and is answered ENOTRECOVERABLE. It has only the
    /// steps from the exchange on.
    ToLeave,
}

/// What a caller rests on that clears its pending field.
#[derive(Clone, Copy)]
pub enum Footing {
    /// It has taken the mutex, which is on its list.
    Linked,
    /// It does not own the mutex.
    Unowned,
    /// It had stopped for good, and its deadline was reached; the field names nothing.
    HadStopped,
}

/// A step of consistent, after the load of the word.
#[derive(Clone, Copy)]
pub enum RepairStep {
    /// Load the health word.
    CheckHealth,
    /// Store in the health word that the mutex is fine, and answer 0.
    StoreFine,
}

/// A step of signal and broadcast.
#[derive(Clone, Copy)]
pub enum WakeStep {
    /// Load the condition word.
    ReadUses,
    /// Compare-exchange the condition word from what it was to one more.
    CountUse(u32),
    /// The kernel call cmp_requeue_pi, if the condition word is what this call wrote or read.
    Requeue(u32),
    /// Load the condition word, which another has changed since.
    ReadAgain,
}

/// Where in its call a thread stands: the step that its next Go takes. It is named by what that step does; the open
/// call's request says the rest. Steps on robust lists and on the pending field are for robust mutexes alone. A wait
/// that was unblocked goes on with the steps of lock, from the exchange on.
#[derive(Clone, Copy)]
pub enum Place {
    /// Every call that names a mutex: load the word, and see whether the caller owns the mutex.
    Load,
    /// lock and trylock: name the mutex in the pending field.
    NamePending,
    /// lock, trylock and wait: compare-exchange the word from 0 to the caller's number.
    Exchange,
    /// lock and wait: the kernel call lock_pi; trylock: the kernel call trylock_pi.
    CallKernel,
    /// lock and wait: the kernel has queued the caller; it goes on once it was made the owner.
    StayQueued,
    /// lock and wait: stop for good.
    Stop,
    /// lock and wait: stopped for good.
    StayStopped,
    /// lock, trylock and wait: take the mutex over.
    Take(TakeStep),
    /// lock, trylock and wait: put the mutex on the caller's list. The answer comes at the end.
    Link(LinkStep, Answer),
    /// unlock and wait, and who leaves an unusable mutex: give the mutex up.
    Give(GiveStep, Purpose),
    /// Clear the pending field, and answer.
    Clear(Footing, Answer),
    /// wait: load the condition word. What it was goes along from here on.
    LoadUses,
    /// wait: the kernel call wait_requeue_pi, which parks the caller if the condition word is what it was.
    Park(u32),
    /// wait: the kernel has parked the caller. Once it was made the owner it takes the mutex over; once it was woken to
    /// lock the mutex again, this is the exchange of lock.
    StayParked,
    /// consistent: see the mutex's health, and repair it.
    Repair(RepairStep),
    /// signal and broadcast: count a use of the variable, and requeue.
    Wake(WakeStep),
    /// setprio: the kernel call set_prio.
    SetPriority,
}

/// What a lock by the owner of a mutex does.
#[derive(Clone, Copy)]
pub enum Relock {
    /// The owner stops for good.
    Deadlocks,
    /// The owner is answered EDEADLK, and by trylock EBUSY.
    Answers,
    /// The owner holds the mutex once more.
    Counts,
}

/// A thread's line: no call is open, or the open call's request and the place in it.
#[derive(Clone, Copy)]
pub enum Line {
    /// No call is open.
    Idle,
    /// This call is open, at this place.
    At(PlainRequest, Place),
}

/// What an open call has of its deadline. It is set again at each begin.
#[derive(Clone, Copy)]
pub struct Timer {
    /// The time from which on the call waits no longer; `None` for a call that was begun without a deadline.
    pub deadline: Option<u32>,
    /// Whether a wait has expired: it gave up waiting for its variable since its deadline was reached, and has to lock
    /// its mutex again.
    pub expired: bool,
}

/// Why a thread is ready to run.
#[derive(Clone, Copy, Debug, PartialEq, Eq)]
pub enum Woken {
    /// It has never been queued or parked.
    Fresh,
    /// It was queued or parked, and was handed the mutex for which it waited.
    Owns,
    /// It was parked, and has to lock its mutex itself.
    Again,
    /// It was queued, parked or stopped, and its deadline was reached.
    Expired,
}

/// What the kernel knows of a thread.
#[derive(Clone, Copy, Debug, PartialEq, Eq)]
pub enum Status {
    /// It may run.
    Ready(Woken),
    /// It is queued on this mutex.
    Queued(MutexId),
    /// It is parked on this condition variable.
    Parked(CondId),
    /// It is stopped for good.
    Stopped,
    /// It has ended. Its number is never used again.
    Ended,
}

/// What the kernel call lock_pi did.
#[derive(Clone, Copy, Debug, PartialEq, Eq)]
pub enum Took {
    /// The caller owns the mutex.
    Owns,
    /// The caller is queued on the mutex.
    Queued,
}
