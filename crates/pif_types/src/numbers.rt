ghost use Rattle.std.specs.Prelude.{◌≡◌, ℕ, ◌≤◌, ◌↔◌, IsSome, IfSome};

use std::marker::Model;

/// The number of a thread. Threads are numbered from 1 in the order in which they are added, and a number is never used
/// again; it is the number that futex(2) keeps in a word (a thread identifier).
#[derive(Clone, Copy, Debug, PartialEq, Eq)]
pub struct Tid {
    thread: u32,
}

impl Model for Tid {
    ghost Value = { ℕ };

    ghost view = { λ t. t.thread };

    ghost invariant = { λ t. 1 ≤ t.thread };

    ghost inverse = { λ n. record { thread = n } };
}

impl Tid {
    /// The number `number`, or `None` if it is 0.
    pub fn new(number: u32) -> Option<Self>
        ensures valid { IsSome result ↔ (1 ≤ number) }
        ensures value { IfSome result (λ t. t ≡ number) }
    {
        if number >= 1 {
            Some(Tid { thread: number })
        } else {
            None
        }
    }

    /// The number, at least 1.
    pub fn get(self) -> u32
        ensures value { result ≡ self }
        ensures range { 1 ≤ result }
    {
        self.thread
    }
}

impl Default for Tid {
    ghost is_default = { λ t. t ≡ 1 };

    /// The first thread, number 1. It is there since `ArrayVec` fills its unused places with it; it never means nobody.
    fn default() -> Self {
        Tid { thread: 1 }
    }
}

/// The number of a mutex, from 1 in the order in which mutexes are added.
#[derive(Clone, Copy, Debug, PartialEq, Eq)]
pub struct MutexId {
    mutex: u32,
}

impl Model for MutexId {
    ghost Value = { ℕ };

    ghost view = { λ t. t.mutex };

    ghost invariant = { λ t. 1 ≤ t.mutex };

    ghost inverse = { λ n. record { mutex = n } };
}

impl MutexId {
    /// The number `number`, or `None` if it is 0.
    pub fn new(number: u32) -> Option<Self>
        ensures valid { IsSome result ↔ (1 ≤ number) }
        ensures value { IfSome result (λ t. t ≡ number) }
    {
        if number >= 1 {
            Some(MutexId { mutex: number })
        } else {
            None
        }
    }

    /// The number, at least 1.
    pub fn get(self) -> u32
        ensures value { result ≡ self }
        ensures range { 1 ≤ result }
    {
        self.mutex
    }
}

impl Default for MutexId {
    ghost is_default = { λ m. m ≡ 1 };

    /// The first mutex, number 1.
    fn default() -> Self {
        MutexId { mutex: 1 }
    }
}

/// The number of a condition variable, from 1 in the order in which variables are added.
#[derive(Clone, Copy, Debug, PartialEq, Eq)]
pub struct CondId {
    cond: u32,
}

impl Model for CondId {
    ghost Value = { ℕ };

    ghost view = { λ t. t.cond };

    ghost invariant = { λ t. 1 ≤ t.cond };

    ghost inverse = { λ n. record { cond = n } };
}

impl CondId {
    /// The number `number`, or `None` if it is 0.
    pub fn new(number: u32) -> Option<Self>
        ensures valid { IsSome result ↔ (1 ≤ number) }
        ensures value { IfSome result (λ t. t ≡ number) }
    {
        if number >= 1 {
            Some(CondId { cond: number })
        } else {
            None
        }
    }

    /// The number, at least 1.
    pub fn get(self) -> u32
        ensures value { result ≡ self }
        ensures range { 1 ≤ result }
    {
        self.cond
    }
}

/// A priority, 1 to 99, as sched(7) has them for SCHED_FIFO. A larger number is a higher priority.
#[derive(Clone, Copy, Debug, PartialEq, Eq, PartialOrd, Ord)]
pub struct Prio {
    level: u32,
}

impl Model for Prio {
    ghost use Rattle.std.specs.Prelude.{ℕ, ◌≤◌};

    ghost Value = { ℕ };

    ghost view = { λ p. p.level };

    ghost invariant = { λ p. (1 ≤ p.level) × (p.level ≤ 99) };

    ghost inverse = { λ n. record { level = n } };
}

impl Prio {
    /// The priority `level`, or `None` if it is outside 1 to 99.
    pub fn new(level: u32) -> Option<Self>
        ensures valid { IsSome result ↔ ((1 ≤ level) × (level ≤ 99)) }
        ensures value { IfSome result (λ p. p ≡ level) }
    {
        if level >= 1 && level <= 99 {
            Some(Prio { level })
        } else {
            None
        }
    }

    /// The number, 1 to 99.
    pub fn get(self) -> u32
        ensures value { result ≡ self }
        ensures low { 1 ≤ result }
        ensures high { result ≤ 99 }
    {
        self.level
    }
}
